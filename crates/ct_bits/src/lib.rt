//! Bits of words by arithmetic: a field, sign extension, the least multiple.
//!
//! Everything that decodes or encodes words stands on these calls. Their contracts speak of division
//! and remainder (def_bits), the code shifts and masks.
#![tactic(auto)]

ghost use Rattle.std.specs.Prelude.{◌≡◌, ◌+◌, ◌≤◌, ◌<◌, ◌^◌};
ghost use Rattle.def_bits.specs.Bits.{IsLeastMultiple, extended, field_of, signed_of};

/// The `width` bits of `word` from bit `low` on, as a number.
pub fn field(word: u32, low: u32, width: u32) -> u32
    requires some { 1 ≤ width }
    requires fits { low + width ≤ 32 }
    ensures { result ≡ field_of word low width }
{
    ((word >> low) as u64 % (1u64 << width)) as u32
}

/// The low `width` bits of `value`, read in two's complement.
pub fn sign(value: u32, width: u32) -> i32
    requires some { 1 ≤ width }
    requires fits { width ≤ 32 }
    ensures { result ≡ signed_of value width }
{
    let low = field(value, 0, width);
    if (low as u64) < 1u64 << (width - 1) {
        low as i32
    } else {
        let gap = (1u64 << width) - low as u64;
        -1 - (gap - 1) as i32
    }
}

/// A number of `width` bits, read in two's complement, as a 32-bit word.
pub fn extended(width: u32, n: u32) -> u32
    requires some { 1 ≤ width }
    requires fits { width ≤ 32 }
    requires small { n < 2 ^ width }
    ensures { result ≡ extended width n }
{
    extended_wide(width, n) as u32
}

/// The same of any number: one that isn't below half of `2^width` counts as negative.
pub fn extended_wide(width: u32, n: u32) -> u64
    requires some { 1 ≤ width }
    requires fits { width ≤ 32 }
    ensures { result ≡ extended width n }
{
    if (n as u64) < 1u64 << (width - 1) {
        n as u64
    } else {
        n as u64 + ((1u64 << 32) - (1u64 << width))
    }
}

/// The least multiple of `to` at or above `value`.
///
/// Sizes and addresses stay below 2^33, so that the answer fits.
pub fn align_up(value: u64, to: u64) -> u64
    requires some { 1 ≤ to }
    requires to_fits { to ≤ 2 ^ 32 }
    requires value_fits { value ≤ 2 ^ 33 }
    ensures least { IsLeastMultiple value to result }
    ensures fits { result < value + to }
{
    let over = value % to;
    if over == 0 {
        value
    } else {
        value + (to - over)
    }
}
