//! What an object of a size takes.

ghost use Rattle.std.specs.Prelude.{◌≡◌, ◌+◌, ◌-◌, ◌*◌, ◌/◌, ◌%◌, ◌^◌, ◌≤◌, ◌<◌};
ghost use Rattle.def_words.specs.LeastBounds.{alignment_of};
ghost use Rattle.def_machine.specs.Heap.{length_for};
ghost use Rattle.def_chunks.specs.Heaps.{IsUnit};

use ct_bounds::{align_mask, round_length};
use def_profile::layout::GRANULE;

/// The length of an object of this size: whole granules, and bounds that a capability can spell.
#[tactic(auto, using(crate::proofs::Units::length_whole))]
pub(crate) fn length_for(size: u32) -> u64
    requires some { 0 < size }
    requires room { size + 7 < 2 ^ 32 }
    ensures is { result ≡ length_for size }
    ensures whole { result % 8 ≡ 0 }
    ensures some { 8 ≤ result }
    ensures fits { result ≤ 2 ^ 32 }
{
    round_length((size + 7) / 8 * 8)
}

/// What the address of an object of this length is a multiple of: its alignment, and a granule.
#[tactic(auto, using(law_words::proofs::Leasts::alignment_small, law_words::proofs::Leasts::mask_back, crate::proofs::Units::unit_granule, crate::proofs::Units::unit_alignment))]
pub(crate) fn unit_for(length: u32) -> u32
    ensures unit { IsUnit result (alignment_of length) }
    ensures some { 0 < result }
{
    let mask = align_mask(length);
    let alignment = ((1u64 << 32) - mask as u64) as u32;
    if alignment < GRANULE {
        GRANULE
    } else {
        alignment
    }
}
