//! The operations at worked values.

use ct_cap::{
    Bounds, Cap, Live, Perms, Posture, Shadow, add_address, and_perms, attenuate, clear_tag,
    derive, expand, link, open, same, seal, set_address, set_bounds, set_bounds_exact, shrink,
    subset, unseal,
};

const MEMORY: u32 = 0x7E3C0100;

const EXECUTABLE: u32 = 0x5E3C0100;

const SEALING: u32 = 0x4E3C0100;

const NOWHERE: Shadow = Shadow { root: 0, source: 0 };

const SIX: Shadow = Shadow { root: 6, source: 0 };

/// GL LD at 64 for 32 bytes, of root 6.
fn value() -> Live {
    derive(MEMORY, 64, 32, 0x021, 64, 0, SIX)
}

fn bounds(exponent: u32, base: u64, top: u64) -> Bounds {
    Bounds {
        exponent,
        base,
        top,
    }
}

/// GL US SE for the one type 13, pointing at a type.
fn key(kind: u32) -> Live {
    derive(SEALING, 13, 1, 0x601, kind, 0, NOWHERE)
}

#[test]
fn decoding_and_back(rt: HostRuntime) {
    let root = expand(Cap {
        tag: true,
        word: (MEMORY as u64) << 32,
        shadow: NOWHERE,
    });
    assert!(rt; root.bounds == bounds(24, 0, 0x100000000));
    assert!(rt; root.perms == Perms(127));
    assert!(rt; root.seal == 0);
    // The reserved bit stays.
    for word in [
        0u64,
        0xFFFFFFFFFFFFFFFF,
        0x8000000000000000,
        0x7E3C010012345678,
    ] {
        let plain = Cap {
            tag: false,
            word,
            shadow: NOWHERE,
        };
        assert!(rt; shrink(expand(plain)) == plain);
    }
    let made = shrink(value());
    assert!(rt; made.tag && made.shadow == SIX && made.word % 0x100000000 == 64);
    assert!(rt; value().bounds == bounds(0, 64, 96));
    assert!(rt; value().perms == Perms(0x021));
}

#[test]
fn sealing_at_13_and_14(rt: HostRuntime) {
    let sealed = seal(value(), key(13));
    assert!(rt; sealed.cap.tag);
    assert!(rt; sealed.seal == 13);
    assert!(rt; (sealed.cap.word >> 54) % 8 == 5);
    assert!(rt; sealed.cap.shadow == SIX);
    // 14 is the key's top: outside its bounds.
    assert!(rt; key(14).cap.tag);
    let outside = seal(value(), key(14));
    assert!(rt; !outside.cap.tag);
    assert!(rt; (outside.cap.word >> 54) % 8 == 6);
    assert!(rt; outside.cap.shadow == NOWHERE);
    // The key opens what it sealed; one without GL takes GL away.
    assert!(rt; same(unseal(sealed, key(13)), value()));
    let local = derive(SEALING, 13, 1, 0x200, 13, 0, NOWHERE);
    let opened = unseal(sealed, local);
    assert!(rt; opened.cap.tag);
    assert!(rt; opened.perms == Perms(0x020));
    assert!(rt; !unseal(sealed, key(14)).cap.tag);
    // A sealed value loses its tag whatever is done to it.
    assert!(rt; !set_address(sealed, 64).cap.tag);
    assert!(rt; !and_perms(sealed, 0xFFF).cap.tag);
    assert!(rt; !set_bounds(sealed, 1).cap.tag);
    assert!(rt; !seal(sealed, key(13)).cap.tag);
}

#[test]
fn bounds_and_addresses(rt: HostRuntime) {
    // 32 bytes of a range of 16, as hostile code asks for.
    let globals = derive(MEMORY, 0x80000280, 16, 0x07F, 0x80000280, 0, SIX);
    let wide = set_bounds(globals, 32);
    assert!(rt; !wide.cap.tag);
    assert!(rt; wide.bounds == bounds(0, 0x80000280, 0x800002A0));
    let part = set_bounds(add_address(globals, 4), 8);
    assert!(rt; part.cap.tag && part.cap.shadow == SIX);
    assert!(rt; part.bounds == bounds(0, 0x80000284, 0x8000028C));
    // 512 addresses from an odd base are rounded.
    let all = derive(MEMORY, 0x80000000, 0x1000, 0x07F, 0x80000001, 0, SIX);
    let rounded = set_bounds(all, 512);
    assert!(rt; rounded.cap.tag);
    assert!(rt; rounded.bounds == bounds(1, 0x80000000, 0x80000202));
    assert!(rt; !set_bounds_exact(all, 512).cap.tag);
    assert!(rt; set_bounds_exact(all, 511).cap.tag);
    // The top is representable, what lies far below the base isn't.
    assert!(rt; set_address(globals, 0x80000290).cap.tag);
    assert!(rt; !set_address(globals, 0x7FFFFFFF).cap.tag);
    assert!(rt; add_address(globals, 0xFFFFFFFF).cap.word % 0x100000000 == 0x8000027F);
}

#[test]
fn permissions_and_comparisons(rt: HostRuntime) {
    // Removing LD from GL LG LM LD MC EX leaves GL.
    let code = derive(EXECUTABLE, 0x80000000, 64, 0x16B, 0x80000000, 0, SIX);
    assert!(rt; code.perms == Perms(0x16B));
    let bare = and_perms(code, 0xFFFFFFDF);
    assert!(rt; bare.cap.tag);
    assert!(rt; bare.perms == Perms::GL);
    assert!(rt; subset(bare, code) && !subset(code, bare));
    assert!(rt; !subset(clear_tag(bare), code));
    assert!(rt; same(code, code) && !same(code, clear_tag(code)));
    assert!(rt; clear_tag(code).cap.shadow == NOWHERE);
}

#[test]
fn loads_jumps_and_links(rt: HostRuntime) {
    let whole = derive(MEMORY, 64, 32, 0x07F, 64, 0, SIX);
    let through = derive(MEMORY, 0, 64, 0x065, 0, 0, NOWHERE);
    // Without LM and LG: SD, LM, GL and LG go, and with them the form that holds SL.
    let loaded = attenuate(through, whole);
    assert!(rt; loaded.cap.tag && loaded.cap.shadow == SIX);
    assert!(rt; loaded.perms == Perms(0x060));
    // Without MC nothing keeps its tag.
    assert!(rt; !attenuate(value(), whole).cap.tag);
    // A sealed one loses GL alone.
    let sealed = attenuate(through, seal(whole, key(13)));
    assert!(rt; sealed.cap.tag && sealed.seal == 13);
    assert!(rt; sealed.perms == Perms(0x07E));
    // A sentry opened, and the links of both postures.
    let sentry = derive(
        EXECUTABLE,
        0x80000000,
        64,
        0x16B,
        0x80000010,
        1,
        Shadow { root: 3, source: 9 },
    );
    assert!(rt; sentry.seal == 1);
    let pcc = open(sentry);
    assert!(rt; pcc.cap.tag && pcc.seal == 0);
    assert!(rt; pcc.cap.shadow == Shadow { root: 3, source: 0 });
    let on = link(
        pcc,
        Posture {
            off: false,
            source: 0,
        },
    );
    assert!(rt; on.seal == 5);
    assert!(rt; on.cap.word % 0x100000000 == 0x80000014);
    let off = link(
        pcc,
        Posture {
            off: true,
            source: 7,
        },
    );
    assert!(rt; off.seal == 4);
    assert!(rt; off.cap.shadow == Shadow { root: 3, source: 7 });
}
