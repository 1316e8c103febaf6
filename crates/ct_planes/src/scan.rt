//! The first word that isn't 0, eight words at a time.

ghost use Rattle.std.specs.Prelude.{◌≡◌, ◌+◌, ◌<◌, ◌≤◌, ◌≢◌, ℕ, List, length, slice_index_or};
ghost use Rattle.ct_planes.specs.Scan.{ZerosTo};

use std::simd::prelude::*;

/// How many of eight words come before the first that isn't 0; 8 where all are 0.
fn zeros_in(words: &[u64], at: usize) -> usize
    requires { at + 8 ≤ length words.now }
    ensures most { result ≤ 8 }
    ensures zeros { ZerosTo words.now at (at + result) }
    ensures stops { result < 8 → slice_index_or words.now (at + result) 0 ≢ 0 }
{
    let lanes = u64x8::from_slice(&words[at..]);
    let found = lanes.simd_ne(u64x8::splat(0)).to_bitmask();
    if found == 0 {
        8
    } else {
        found.trailing_zeros() as usize
    }
}

/// The number of the first word that isn't 0, at or after a number and below another; the latter
/// where there is none.
pub(crate) fn first_word(words: &[u64], from: usize, to: usize) -> usize
    requires order { from ≤ to }
    requires inside { to ≤ length words.now }
    ensures later { from ≤ result }
    ensures most { result ≤ to }
    ensures zeros { ZerosTo words.now from result }
    ensures stops { result < to → slice_index_or words.now result 0 ≢ 0 }
{
    let mut i = from;
    while to - i >= 8 {
        let zeros = zeros_in(words, i);
        if zeros < 8 {
            return i + zeros;
        }
        i += 8;
    }
    while i < to && words[i] == 0 {
        i += 1;
    }
    i
}
