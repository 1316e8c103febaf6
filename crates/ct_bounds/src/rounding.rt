//! From a range to the least bounds around it.

ghost use Rattle.std.specs.Prelude.{◌%◌, ◌*◌, ◌+◌, ◌-◌, ◌<◌, ◌^◌, ◌≡◌, ◌≤◌};
ghost use Rattle.def_profile.specs.declared.bounds.TheConstants as bounds;
ghost use Rattle.def_words.specs.LeastBounds.{align_mask_of, ceil_units, exponent_for, floor_units, round_length_of, rounded_at, rounded_of};

use def_profile::bounds::{LAST_EXPONENT, MOST_UNITS, WIDEST_EXPONENT, WIDEST_FIELD};
use def_words::Rounded;

/// The bounds with the least exponent that hold `[base, base + length)`, with their fields E, B and T
/// in place.
///
/// Where exponent 14 doesn't serve it is 24. The bounds are the range rounded outwards to multiples
/// of 2 to the exponent; up to a length of 511 nothing is rounded.
pub fn least(base: u64, length: u64) -> Rounded
    requires low { base < 2 ^ 32 }
    requires inside { base + length ≤ 2 ^ 32 }
    ensures { result ≡ rounded_of base (base + length) }
{
    rounded(base, base + length, least_exponent(base, base + length))
}

/// The least length at or above `n` that can be spelled exactly at every multiple of its alignment,
/// at most 2^32.
pub fn round_length(n: u32) -> u64
    ensures value { result ≡ round_length_of n }
    ensures holds { n ≤ result }
    ensures fits { result ≤ 2 ^ 32 }
{
    let exponent = least_exponent(0, n as u64);
    ceil(n as u64, exponent) << exponent
}

/// The mask of the addresses at which that length can be spelled exactly.
pub fn align_mask(n: u32) -> u32
    ensures { result ≡ align_mask_of n }
{
    let exponent = least_exponent(0, n as u64);
    ((1u64 << 32) - (1u64 << exponent)) as u32
}

/// A range rounded outwards to multiples of 2 to the exponent.
fn rounded(base: u64, top: u64, exponent: u32) -> Rounded
    requires order { base ≤ top }
    requires fits { top ≤ 2 ^ 32 }
    requires small { exponent ≤ bounds.WIDEST_EXPONENT }
    ensures { result ≡ rounded_at base top exponent }
{
    let low = base >> exponent;
    let high = ceil(top, exponent);
    let coded = if exponent == WIDEST_EXPONENT {
        WIDEST_FIELD
    } else {
        exponent
    };
    let rounded_base = low << exponent;
    let rounded_top = high << exponent;
    Rounded {
        fields: coded * (1 << 18) + (low % 512) as u32 * 512 + (high % 512) as u32,
        base: rounded_base,
        top: rounded_top,
        exact: rounded_base == base && rounded_top == top,
    }
}

/// How many units of 2 to the exponent reach up to `top`.
fn ceil(top: u64, exponent: u32) -> u64
    requires fits { top ≤ 2 ^ 32 }
    requires small { exponent ≤ bounds.WIDEST_EXPONENT }
    ensures value { result ≡ ceil_units top exponent }
    ensures scaled { result * 2 ^ exponent < 2 ^ 33 }
{
    (top + (1u64 << exponent) - 1) >> exponent
}

/// The least exponent of 0 to 14 that serves a range, or else 24.
///
/// The length's bits leave two candidates.
fn least_exponent(base: u64, top: u64) -> u32
    requires order { base ≤ top }
    requires fits { top ≤ 2 ^ 32 }
    ensures value { result ≡ exponent_for base top }
    ensures small { result ≤ bounds.WIDEST_EXPONENT }
{
    let first = first_candidate(top - base);
    let exponent = if ceil(top, first) - (base >> first) <= MOST_UNITS as u64 {
        first
    } else {
        first + 1
    };
    if exponent <= LAST_EXPONENT {
        exponent
    } else {
        WIDEST_EXPONENT
    }
}

/// The least exponent at which a length has nine bits.
fn first_candidate(length: u64) -> u32
    requires { length ≤ 2 ^ 32 }
    ensures above { length < 2 ^ (result + 9) }
    ensures below { 1 ≤ result → 2 ^ (result + 9) ≤ 2 * length + 1 }
    ensures small { result ≤ bounds.WIDEST_EXPONENT }
{
    let bits = 64 - length.leading_zeros();
    bits.saturating_sub(9)
}
