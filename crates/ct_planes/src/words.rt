//! Bits in words of 64, over slices.

ghost use Rattle.std.specs.Prelude.{◌≡◌, ◌≢◌, ◌+◌, ◌/◌, ◌%◌, ◌*◌, ◌^◌, ◌-◌, ◌<◌, ◌≤◌, ℕ, Bool, cond, ◌&&◌, nat_le, nat_lt, List, length, slice_set, slice_index_or, min, max, MatchOption};
ghost use Rattle.std.specs.Int.{bit_at};
ghost use Rattle.ct_planes.specs.Bits.{Spells, flag_in, Clear, IsNextSet};
ghost use Rattle.ct_planes.specs.Fills.{filled};

use crate::scan::first_word;

/// Whether a bit is set.
pub(crate) fn is_set(words: &[u64], i: usize) -> bool
    requires { i / 64 < length words.now }
    ensures { result ≡ flag_in words.now i }
{
    (words[i / 64] >> (i % 64)) & 1 == 1
}

/// The word with one bit set, or cleared.
fn with_bit(word: u64, i: usize, on: bool) -> u64
    requires { i < 64 }
    ensures same { bit_at result i ≡ cond on 1 0 }
    ensures other { (j : ℕ) → j < 64 → j ≢ i → bit_at result j ≡ bit_at word j }
{
    if on {
        word | (1 << i)
    } else {
        word & !(1 << i)
    }
}

/// Sets a bit, or clears it.
pub(crate) fn put_in(words: &mut [u64], i: usize, on: bool)
    requires { i / 64 < length words.old }
    ensures size { length words.new ≡ length words.old }
    ensures spells { (flags : List Bool)
        → Spells flags words.old → i < length flags → Spells (slice_set flags i on) words.new }
{
    let n = i / 64;
    words[n] = with_bit(words[n], i % 64, on);
}

/// The lowest ones of a word.
fn ones(count: u32) -> u64
    requires { count ≤ 64 }
    ensures { result ≡ 2 ^ count - 1 }
{
    if count == 64 {
        u64::MAX
    } else {
        (1u64 << count) - 1
    }
}

/// The word with its bits from one number to another set, or cleared.
fn with_run(word: u64, from: u32, to: u32, on: bool) -> u64
    requires order { from ≤ to }
    requires inside { to ≤ 64 }
    ensures { (i : ℕ) → i < 64
        → bit_at result i ≡ cond (nat_le from i && nat_lt i to) (cond on 1 0) (bit_at word i) }
{
    let run = ones(to) - ones(from);
    if on { word | run } else { word & !run }
}

/// How many bits of this word come before an offset.
fn part_before(at: usize, word: usize) -> u32
    requires { word < 2 ^ 32 }
    ensures { result ≡ min (at - 64 * word) 64 }
{
    at.saturating_sub(64 * word).min(64) as u32
}

/// Sets the bits from one number to another, or clears them, a word at a time.
pub(crate) fn fill_in(words: &mut [u64], from: usize, to: usize, on: bool)
    requires order { from ≤ to }
    requires inside { to ≤ 64 * length words.old }
    requires small { to < 2 ^ 32 }
    ensures size { length words.new ≡ length words.old }
    ensures spells { (flags : List Bool)
        → Spells flags words.old → to ≤ length flags → Spells (filled from to on flags) words.new }
{
    for n in from / 64..(to + 63) / 64 {
        words[n] = with_run(words[n], part_before(from, n), part_before(to, n), on);
    }
}

/// How many words hold the bits below a number, of so many words.
fn words_below(to: usize, count: usize) -> usize
    requires { to < 2 ^ 32 }
    ensures { result ≡ min ((to + 63) / 64) count }
{
    ((to + 63) / 64).min(count)
}

/// The least bit that is set, at or after a number.
fn next_from(words: &[u64], from: usize, end: usize) -> Option<usize>
    requires few { 64 * length words.now < 2 ^ 32 }
    requires end { end ≤ length words.now }
    ensures { (flags : List Bool) → Spells flags words.now
        → MatchOption result (Clear flags from (64 * end)) (IsNextSet flags from) }
{
    let n = from / 64;
    if n >= end {
        return None;
    }
    let first = words[n] >> (from % 64);
    if first != 0 {
        return Some(from + first.trailing_zeros() as usize);
    }
    let m = first_word(words, n + 1, end);
    if m >= end {
        return None;
    }
    Some(64 * m + words[m].trailing_zeros() as usize)
}

/// The least bit that is set, at or after a number and below another.
pub(crate) fn next_in(words: &[u64], from: usize, to: usize) -> Option<usize>
    requires few { 64 * length words.now < 2 ^ 32 }
    requires to { to < 2 ^ 32 }
    ensures { (flags : List Bool) → Spells flags words.now
        → MatchOption result (Clear flags from to) (λ at. IsNextSet flags from at × (at < to)) }
{
    match next_from(words, from, words_below(to, words.len())) {
        Some(at) => { if at < to { Some(at) } else { None } }
        None => None,
    }
}
