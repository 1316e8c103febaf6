//! From a word to its bounds.

ghost use Rattle.std.specs.Prelude.{◌*◌, ◌+◌, ◌-◌, ◌/◌, ◌<◌, ◌^◌, ◌≡◌, ◌≤◌};
ghost use Rattle.def_profile.specs.declared.bounds.TheConstants as bounds;
ghost use Rattle.def_words.specs.Authority.{bounds_of, exponent_of, one_if_less};

use ct_bits::field;
use def_profile::bounds::{WIDEST_EXPONENT, WIDEST_FIELD};
use def_words::Bounds;

/// The bounds that a high word gives at an address: exponent, base below 2^32 and top below 2^33.
///
/// Every pair of words decodes. E of 15 stands for 24; where the address lies below the unit of B in
/// its block, the base is in the block below, and where T is below B, the top is in the block above
/// the base's.
pub fn decode(high: u32, address: u32) -> Bounds
    ensures { result ≡ bounds_of high address }
{
    let exponent = exponent(high);
    let base = field(high, 9, 9);
    let top = field(high, 0, 9);
    let units = address >> exponent;
    let block = block(units, borrow(units % 512, base));
    Bounds {
        exponent,
        base: corner(block, base, exponent) % (1 << 32),
        top: corner(block + borrow(top, base), top, exponent) % (1 << 33),
    }
}

/// The exponent that E stands for.
fn exponent(high: u32) -> u32
    ensures value { result ≡ exponent_of high }
    ensures small { result ≤ bounds.WIDEST_EXPONENT }
{
    let coded = field(high, 18, 4);
    if coded == WIDEST_FIELD {
        WIDEST_EXPONENT
    } else {
        coded
    }
}

/// A block to borrow where `a` is below `b`.
fn borrow(a: u32, b: u32) -> u64
    ensures value { result ≡ one_if_less a b }
    ensures small { result ≤ 1 }
{
    if a < b { 1 } else { 0 }
}

/// The block that an address's units lie in, or the one below.
///
/// 2^24 blocks more are a multiple of 2^33 and keep the difference from falling below zero.
fn block(units: u32, down: u64) -> u64
    requires { down ≤ 1 }
    ensures value { result ≡ units / 512 + 2 ^ 24 - down }
    ensures small { result < 2 ^ 25 }
{
    (units / 512) as u64 + (1 << 24) - down
}

/// The address of a unit of a block: a block has 512.
#[tactic(auto, using(crate::proofs::Corners::corner_fits))]
fn corner(block: u64, unit: u32, exponent: u32) -> u64
    requires block { block ≤ 2 ^ 25 }
    requires unit { unit < 512 }
    requires exponent { exponent ≤ bounds.WIDEST_EXPONENT }
    ensures { result ≡ (block * 512 + unit) * 2 ^ exponent }
{
    (block * 512 + unit as u64) << exponent
}
