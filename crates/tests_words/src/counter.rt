//! Addresses changed in place: where the tag stays and where it goes, worked out by hand from the fields of
//! docs/use/capabilities.md, and beside `set_address` over many words.

use ct_cap::{
    Bounds, Cap, Live, Perms, Shadow, clear_tag, derive, expand, raise, set_address, set_bounds,
    turn,
};
use std::process::Abort;

const MEMORY: u32 = 0x7E3C0100;

const EXECUTABLE: u32 = 0x5E3C0100;

const NOWHERE: Shadow = Shadow { root: 0, source: 0 };

const SIX: Shadow = Shadow { root: 6, source: 5 };

/// Code of 64 bytes at 0x80000200, at an address. Its B is 0 and its T 64, so that the addresses up to 0x80000400 stand
/// for it.
fn code(address: u32) -> Live {
    derive(EXECUTABLE, 0x80000200, 64, 0x16B, address, 0, SIX)
}

/// A tagged word.
fn word(high: u32, address: u32) -> Live {
    expand(Cap {
        tag: true,
        word: high as u64 * 0x100000000 + address as u64,
        shadow: SIX,
    })
}

/// All that a register holds, beside what `set_address` gives of the same.
fn agree(rt: &impl Abort, moved: Live, set: Live) {
    assert!(rt; moved.cap == set.cap);
    assert!(rt; moved.bounds == set.bounds);
    assert!(rt; moved.perms == set.perms);
    assert!(rt; moved.seal == set.seal);
}

/// A capability turned to an address.
fn turned(rt: &impl Abort, l: Live, address: u32) -> Live {
    let mut moved = l;
    turn(&mut moved, address);
    agree(rt, moved, set_address(l, address));
    moved
}

/// A capability raised.
fn lifted(rt: &impl Abort, l: Live, by: u32) -> Live {
    let mut moved = l;
    raise(&mut moved, by);
    agree(rt, moved, set_address(l, l.address().wrapping_add(by)));
    moved
}

/// The bounds of exponent 0.
fn bounds(base: u64, top: u64) -> Bounds {
    Bounds {
        exponent: 0,
        base,
        top,
    }
}

/// Turned with its tag, its bounds and all else.
fn keeps(rt: &impl Abort, l: Live, address: u32) {
    let moved = turned(rt, l, address);
    assert!(rt; moved.cap.tag);
    assert!(rt; moved.cap.shadow == l.cap.shadow);
    assert!(rt; moved.cap.word % 0x100000000 == address as u64);
    assert!(rt; moved.cap.word / 0x100000000 == l.cap.word / 0x100000000);
    assert!(rt; moved.bounds == l.bounds);
    assert!(rt; moved.perms == l.perms);
    assert!(rt; moved.seal == l.seal);
}

/// Turned without its tag, and what its bounds are there.
fn loses(rt: &impl Abort, l: Live, address: u32, there: Bounds) {
    let moved = turned(rt, l, address);
    assert!(rt; !moved.cap.tag);
    assert!(rt; moved.cap.shadow == NOWHERE);
    assert!(rt; moved.cap.word % 0x100000000 == address as u64);
    assert!(rt; moved.cap.word / 0x100000000 == l.cap.word / 0x100000000);
    assert!(rt; moved.bounds == there);
    assert!(rt; moved.perms == l.perms);
    assert!(rt; moved.seal == l.seal);
}

/// Inside the bounds, at their top, past it where the word still spells them, and where it doesn't.
#[test]
fn counters_turn(rt: HostRuntime) {
    let l = code(0x80000208);
    assert!(rt; l.bounds == bounds(0x80000200, 0x80000240));
    assert!(rt; l.perms == Perms(0x16B));
    for address in [
        0x80000200u32,
        0x80000204,
        0x8000020C,
        0x8000023C,
        0x8000023F,
        0x80000240,
        0x80000241,
        0x800003FF,
    ] {
        keeps(&rt, l, address);
    }
    loses(&rt, l, 0x80000400, bounds(0x80000400, 0x80000440));
    loses(&rt, l, 0x800001FF, bounds(0x80000000, 0x80000040));
    loses(&rt, l, 0, bounds(0, 64));
    // B is 128 here: what lies below it in the next block stands for the same bounds.
    let globals = derive(MEMORY, 0x80000280, 16, 0x06F, 0x80000288, 0, SIX);
    for address in [0x80000280u32, 0x80000290, 0x800003FF, 0x8000047F] {
        keeps(&rt, globals, address);
    }
    loses(&rt, globals, 0x80000480, bounds(0x80000480, 0x80000490));
    loses(&rt, globals, 0x8000027F, bounds(0x80000080, 0x80000090));
}

/// By four up to the top and past it, by less than nothing, and round the end of the addresses.
#[test]
fn counters_rise(rt: HostRuntime) {
    let next = lifted(&rt, code(0x80000208), 4);
    assert!(rt; next.cap.tag);
    assert!(rt; next.address() == 0x8000020C);
    let back = lifted(&rt, next, 0xFFFFFFF4);
    assert!(rt; back.cap.tag);
    assert!(rt; back.address() == 0x80000200);
    let top = lifted(&rt, code(0x8000023C), 4);
    assert!(rt; top.cap.tag);
    assert!(rt; top.address() == 0x80000240);
    assert!(rt; top.bounds == bounds(0x80000200, 0x80000240));
    let past = lifted(&rt, code(0x800003FC), 4);
    assert!(rt; !past.cap.tag);
    assert!(rt; past.address() == 0x80000400);
    assert!(rt; past.bounds == bounds(0x80000400, 0x80000440));
    let below = lifted(&rt, code(0x80000200), 0xFFFFFFFC);
    assert!(rt; !below.cap.tag);
    assert!(rt; below.address() == 0x800001FC);
    let first = lifted(&rt, word(EXECUTABLE, 0xFFFFFFFC), 4);
    assert!(rt; first.cap.tag);
    assert!(rt; first.address() == 0);
}

/// What isn't tagged stays so, and what is sealed loses its tag, inside the bounds too.
#[test]
fn untagged_and_sealed_counters(rt: HostRuntime) {
    let l = code(0x80000208);
    loses(&rt, clear_tag(l), 0x8000020C, l.bounds);
    loses(
        &rt,
        clear_tag(l),
        0x80000404,
        bounds(0x80000400, 0x80000440),
    );
    loses(&rt, Live::integer(5), 0x1234, bounds(0x1200, 0x1200));
    for kind in [1u32, 2, 3, 4, 5] {
        let sentry = derive(EXECUTABLE, 0x80000200, 64, 0x16B, 0x80000208, kind, SIX);
        assert!(rt; sentry.cap.tag && sentry.seal == kind);
        loses(&rt, sentry, 0x80000208, l.bounds);
        loses(&rt, sentry, 0x8000020C, l.bounds);
    }
}

/// Exponent 24, whose top is the end of the addresses or lies past it, and a top past it of exponent 14, which the
/// first addresses don't stand for.
#[test]
fn counters_at_the_end(rt: HostRuntime) {
    let root = word(EXECUTABLE, 0);
    assert!(rt;
        root.bounds
            == Bounds {
                exponent: 24,
                base: 0,
                top: 0x100000000
            }
    );
    // B 128 and T 384 of exponent 24.
    let upper = word(0x5E3D0180, 0x90000000);
    assert!(rt;
        upper.bounds
            == Bounds {
                exponent: 24,
                base: 0x80000000,
                top: 0x180000000
            }
    );
    for address in [0u32, 4, 0x70000000, 0x80000000, 0xFFFFFFFC, 0xFFFFFFFF] {
        keeps(&rt, root, address);
        keeps(&rt, upper, address);
    }
    // B 500 and T 10 of exponent 14.
    let last = word(0x5E3BE80A, 0xFFFFF000);
    assert!(rt;
        last.bounds
            == Bounds {
                exponent: 14,
                base: 0xFFFD0000,
                top: 0x100028000
            }
    );
    for address in [0xFFFD0000u32, 0xFFFE0004, 0xFFFFFFFC, 0xFFFFFFFF] {
        keeps(&rt, last, address);
    }
    let there = Bounds {
        exponent: 14,
        base: 0xFFFD0000,
        top: 0x28000,
    };
    loses(&rt, last, 0, there);
    loses(&rt, last, 0x27FFF, there);
    assert!(rt; !lifted(&rt, word(0x5E3BE80A, 0xFFFFFFFC), 4).cap.tag);
}

/// The next of a row of numbers that look random (xorshift).
fn shuffled(number: u64) -> u64 {
    let a = number ^ (number << 13);
    let b = a ^ (a >> 7);
    b ^ (b << 17)
}

/// The low word of a number.
fn low(number: u64) -> u32 {
    (number % 0x100000000) as u32
}

/// Turned to the ends of its bounds, beside them, half way and anywhere, and raised from there.
fn around(rt: &impl Abort, l: Live, number: u64) {
    let (base, top) = (low(l.bounds.base), low(l.bounds.top));
    let half = top.wrapping_sub(base) / 2;
    for address in [
        base,
        base.wrapping_sub(1),
        base.wrapping_add(half),
        base.wrapping_add(half).wrapping_add(half),
        top,
        top.wrapping_sub(1),
        top.wrapping_add(1),
        top.wrapping_add(half),
        low(number),
    ] {
        let there = turned(rt, l, address);
        lifted(rt, there, 4);
        lifted(rt, there, low(number / 0x100000000));
    }
}

/// 3,000 ranges of all sizes of the two roots, and as many words of any fields, each turned to nine addresses.
#[test]
fn counters_as_set_address(rt: HostRuntime) {
    let mut number = 88172645463325252u64;
    for round in 0..3000u32 {
        number = shuffled(number ^ round as u64);
        let high = if round % 2 == 0 { MEMORY } else { EXECUTABLE };
        let length = low(number / 0x100000000).wrapping_shr(round % 32);
        let l = set_bounds(word(high, low(number)), length);
        assert!(rt; l.cap.tag || low(number) as u64 + length as u64 > 0x100000000);
        number = shuffled(number);
        around(&rt, l, number);
        around(
            &rt,
            word(low(number / 0x100000000), low(number)),
            shuffled(number),
        );
    }
}
