//! Numbers read from capabilities, and capabilities that are numbers.

ghost use Rattle.std.specs.Prelude.{◌%◌, ◌^◌, ◌≡◌, false};
ghost use Rattle.def_capstep.specs.Results.{cap_length, capped, upper_offset};
ghost use Rattle.def_words.specs.Authority.{cap_address, cap_base, cap_high, cap_top, word_of};
ghost use Rattle.def_words.specs.Capability.{cap_of, nowhere};
ghost use Rattle.def_words.specs.LeastBounds.{align_mask_of, round_length_of};

use ct_bits::extended_wide;
use ct_bounds::{align_mask, round_length};
use ct_cap::Live;

/// An untagged word of a capability's address and this high word.
pub(crate) fn with_high(l: Live, high: u32) -> Live
    ensures { result ≡ cap_of false (word_of high (cap_address l)) nowhere }
{
    Live::plain(((high as u64) << 32) + l.address() as u64)
}

/// 2048 times a signed number of 20 bits, modulo 2^32.
pub fn upper_offset(n: u32) -> u32
    ensures { result ≡ upper_offset n }
{
    (extended_wide(20, n) * 2048 % (1 << 32)) as u32
}

/// The high word.
pub(crate) fn high(l: Live) -> u32
    ensures { result ≡ cap_high l }
{
    (l.cap.word >> 32) as u32
}

/// The base.
#[tactic(auto, unfolding(def_words::specs::Authority::cap_bounds))]
pub(crate) fn base(l: Live) -> u32
    ensures { result ≡ cap_base l }
{
    l.bounds.base as u32
}

/// The top, or the greatest number where it is past that.
pub(crate) fn top(l: Live) -> u32
    ensures { result ≡ capped (cap_top l) }
{
    l.bounds.top.min(0xFFFFFFFF) as u32
}

/// The length, 0 where the bounds are out of order, or the greatest number where it is past that.
pub(crate) fn length(l: Live) -> u32
    ensures { result ≡ capped (cap_length l) }
{
    l.bounds.top.saturating_sub(l.bounds.base).min(0xFFFFFFFF) as u32
}

/// The length that is spelled exactly for an integer.
pub(crate) fn rounded(l: Live) -> u32
    ensures { result ≡ round_length_of (cap_address l) % 2 ^ 32 }
{
    (round_length(l.address()) % (1 << 32)) as u32
}

/// The mask of the addresses at which it is.
pub(crate) fn mask(l: Live) -> u32
    ensures { result ≡ align_mask_of (cap_address l) % 2 ^ 32 }
{
    align_mask(l.address())
}
