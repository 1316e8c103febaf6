//! Each set of permissions and each spelling of six bits, beside a slow program for the forms, and
//! worked sets.

use bitflags::Flags;
use ct_perm::Perms;

/// A form by what it needs, one of what it needs, and what it can hold.
fn slow_normal(set: u16) -> u16 {
    let forms = [
        (0x160u16, 0u16, 0x1EBu16),
        (0x64, 0, 0x7F),
        (0x60, 0, 0x6B),
        (0x44, 0, 0x45),
        (0, 0x24, 0x25),
    ];
    for (needed, one_of, held) in forms {
        if set & needed == needed && (one_of == 0 || set & one_of != 0) {
            return set & held;
        }
    }
    set & 0xE01
}

#[test]
fn each_set_and_each_spelling(rt: HostRuntime) {
    for set in 0..4096u16 {
        let perms = Perms(set);
        assert!(rt; perms.normal() == Perms(slow_normal(set)), "at {set}");
        let bits = perms.pack();
        assert!(rt; Perms::unpack(bits) == perms.normal(), "at {set}");
        assert!(rt; perms.normal().within(perms), "at {set}");
    }
    for bits in 0..64u8 {
        assert!(rt; Perms::unpack(bits).pack() == bits);
    }
}

#[test]
fn worked_sets(rt: HostRuntime) {
    let code = Perms::GL
        .union(Perms::LG)
        .union(Perms::LM)
        .union(Perms::LD)
        .union(Perms::MC)
        .union(Perms::EX);
    assert!(rt; code.normal() == code);
    assert!(rt; code.difference(Perms::LD).normal() == Perms::GL);
    assert!(rt; code.contains(Perms::EX) && !code.contains(Perms::SD));
    assert!(rt; Perms(0xFFF).masked(0xFFFFF021) == Perms(0x021));
    assert!(rt; Perms::LD.within(code) && !Perms::SD.within(code));
    // The roots' permission bits.
    assert!(rt; Perms::unpack(63) == Perms(127));
    assert!(rt; Perms::unpack(47) == Perms(491));
    assert!(rt; Perms::unpack(39) == Perms(3585));
}
