//! Fields of words, signs, extensions and alignment at worked values.

use ct_bits::{align_up, extended, field, sign};

#[test]
fn worked_values(rt: HostRuntime) {
    // The fields of the memory root's high word.
    assert!(rt; field(0x7E3C0100, 25, 6) == 63);
    assert!(rt; field(0x7E3C0100, 18, 4) == 15);
    assert!(rt; field(0x7E3C0100, 0, 9) == 256);
    assert!(rt; field(0xFFFFFFFF, 0, 32) == 0xFFFFFFFF);
    assert!(rt; sign(0x800, 12) == -2048);
    assert!(rt; sign(0x7FF, 12) == 2047);
    assert!(rt; sign(0xFFFFFFFF, 32) == -1);
    assert!(rt; sign(0x1E, 5) == -2);
    assert!(rt; extended(12, 0x800) == 0xFFFFF800);
    assert!(rt; extended(12, 0x7FF) == 0x7FF);
    assert!(rt; extended(20, 0xFFFFF) == 0xFFFFFFFF);
    assert!(rt; align_up(0, 8) == 0);
    assert!(rt; align_up(1, 8) == 8);
    assert!(rt; align_up(8, 8) == 8);
    assert!(rt; align_up(0xFFFFFFFF, 4096) == 0x100000000);
}
