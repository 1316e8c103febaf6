//! Worked values, and a plain, slow program for each definition beside the code over edge words.

use ct_bounds::{Bounds, Rounded, align_mask, decode, least, round_length};

/// Base and top by the written formulas. Products and differences wrap at 2^64, a multiple of both
/// moduli.
fn slow_decode(high: u32, address: u32) -> Bounds {
    let coded = (high >> 18) % 16;
    let base_field = (high as u64 >> 9) % 512;
    let top_field = high as u64 % 512;
    let exponent = if coded == 15 { 24u32 } else { coded };
    let unit = 1u64.wrapping_shl(exponent);
    let block = unit.wrapping_mul(512);
    let middle = (address as u64).wrapping_shr(exponent) % 512;
    let first = (address as u64).wrapping_shr(exponent.wrapping_add(9));
    let down = if middle < base_field { 1u64 } else { 0 };
    let up = if top_field < base_field { 1u64 } else { 0 };
    let base = first
        .wrapping_sub(down)
        .wrapping_mul(block)
        .wrapping_add(base_field.wrapping_mul(unit));
    let top = first
        .wrapping_add(up)
        .wrapping_sub(down)
        .wrapping_mul(block)
        .wrapping_add(top_field.wrapping_mul(unit));
    Bounds {
        exponent,
        base: base % (1 << 32),
        top: top % (1 << 33),
    }
}

/// How many units of 2^exponent a range meets.
fn slow_units(base: u64, top: u64, exponent: u32) -> u64 {
    let unit = 1u64.wrapping_shl(exponent);
    let over = top
        .wrapping_add(unit)
        .wrapping_sub(1)
        .wrapping_shr(exponent);
    over.wrapping_sub(base.wrapping_shr(exponent))
}

/// The least exponent by trying each.
fn slow_exponent(base: u64, top: u64) -> u32 {
    for exponent in 0..15 {
        if slow_units(base, top, exponent) <= 511 {
            return exponent;
        }
    }
    24
}

/// The least bounds by that exponent.
fn slow_least(base: u64, top: u64) -> Rounded {
    let exponent = slow_exponent(base, top);
    let unit = 1u64.wrapping_shl(exponent);
    let low = base.wrapping_shr(exponent);
    let high = top
        .wrapping_add(unit)
        .wrapping_sub(1)
        .wrapping_shr(exponent);
    let coded = if exponent == 24 { 15u32 } else { exponent };
    let rounded_base = low.wrapping_mul(unit);
    let rounded_top = high.wrapping_mul(unit);
    Rounded {
        fields: (coded << 18) | ((low % 512) as u32) << 9 | (high % 512) as u32,
        base: rounded_base,
        top: rounded_top,
        exact: rounded_base == base && rounded_top == top,
    }
}

#[test]
fn decodes_as_the_formulas(rt: HostRuntime) {
    let fields = [0u32, 1, 255, 256, 510, 511];
    let addresses = [
        0u32, 1, 0x1FF, 0x200, 0x201, 0x3FFF, 0x4000, 0x003FFFFF, 0x00400000, 0x007FFFFF,
        0x00800000, 0x00FFFFFF, 0x01000000, 0x7FFFFFFF, 0x80000000, 0x80000001, 0xFEFFFFFF,
        0xFF000000, 0xFFFFFE00, 0xFFFFFFFF,
    ];
    for exponent in [0u32, 1, 13, 14, 15] {
        for base in fields {
            for top in fields {
                for address in addresses {
                    let high = (exponent << 18) | (base << 9) | top;
                    assert!(rt;
                        decode(high, address) == slow_decode(high, address),
                        "at {high} {address}"
                    );
                }
            }
        }
    }
    // The roots reach everywhere from everywhere.
    let all = Bounds {
        exponent: 24,
        base: 0,
        top: 1 << 32,
    };
    for high in [0x7E3C0100u32, 0x5E3C0100, 0x4E3C0100] {
        assert!(rt; decode(high, 0) == all);
        assert!(rt; decode(high, 0xFFFFFFFF) == all);
    }
}

#[test]
fn rounds_as_the_least_number(rt: HostRuntime) {
    let lengths = [
        0u64, 1, 2, 510, 511, 512, 513, 1020, 1021, 1022, 1023, 1024, 4088, 8176, 8372224, 8372225,
        16777216, 0x80000000, 0xFFFFFFFF,
    ];
    for base in [
        0u64, 1, 2, 511, 512, 0x80000000, 0x80000001, 0x80000003, 0xFFFFFFFF,
    ] {
        for length in lengths {
            if base <= 0xFFFFFFFF && length <= 0xFFFFFFFF && base + length <= 0x100000000 {
                assert!(rt;
                    least(base, length) == slow_least(base, base + length),
                    "at {base} {length}"
                );
            }
        }
    }
    for length in lengths {
        if length <= 0xFFFFFFFF {
            let n = length as u32;
            let unit = 1u64.wrapping_shl(slow_exponent(0, length));
            assert!(rt; round_length(n) == slow_least(0, length).top, "at {n}");
            assert!(rt;
                align_mask(n) as u64 == 0x100000000u64.wrapping_sub(unit),
                "at {n}"
            );
        }
    }
}

#[test]
fn worked_least_bounds(rt: HostRuntime) {
    assert!(rt;
        least(0x80000001, 511)
            == Rounded {
                fields: 512,
                base: 0x80000001,
                top: 0x80000200,
                exact: true
            }
    );
    assert!(rt;
        least(0x80000001, 512)
            == Rounded {
                fields: 0x40101,
                base: 0x80000000,
                top: 0x80000202,
                exact: false
            }
    );
    assert!(rt;
        least(0x80000001, 1022)
            == Rounded {
                fields: 0x80100,
                base: 0x80000000,
                top: 0x80000400,
                exact: false
            }
    );
    let greatest = least(0x80000000, 8372225);
    assert!(rt; greatest.fields == 0x3D0081);
    assert!(rt; greatest.top == 0x81000000);
    assert!(rt;
        least(0x80000000, 0)
            == Rounded {
                fields: 0,
                base: 0x80000000,
                top: 0x80000000,
                exact: true
            }
    );
    assert!(rt; round_length(512) == 512);
    assert!(rt; align_mask(512) == 0xFFFFFFFE);
}
