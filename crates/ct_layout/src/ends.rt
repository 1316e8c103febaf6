//! Regions one after another.

ghost use Rattle.std.specs.Prelude.{◌*◌, ◌+◌, ◌<◌, ◌^◌, ◌≡◌, ◌≤◌, IfOk, length};
ghost use Rattle.def_layout.specs.Placement as spec;
ghost use Rattle.def_profile.specs.declared.layout.TheConstants.{REGION_UNIT as UNIT};
ghost use Rattle.def_layout.specs.Lies.{AreSmall};
ghost use Rattle.def_layout.specs.declared.TheConstants.{MOST_REGION};

use ct_bounds::{align_mask, round_length};
use def_layout::Region;
use def_profile::layout::REGION_UNIT;
use std::alloc::{AllocError, Global};

/// A size in whole units.
fn whole_size(size: u32) -> u32
    requires { size ≤ MOST_REGION }
    ensures value { result ≡ spec.whole_size size }
{
    let whole = (size + REGION_UNIT - 1) / REGION_UNIT * REGION_UNIT;
    whole.max(REGION_UNIT)
}

/// The bytes of the region of a size.
///
/// Condition: a region has at most 2 MiB.
pub fn region_length(size: u32) -> u64
    requires { size ≤ MOST_REGION }
    ensures value { result ≡ spec.region_length size }
    ensures fits { result ≤ 2 ^ 32 }
{
    round_length(whole_size(size))
}

/// What the base of a size's region is a multiple of.
#[tactic(auto, using(law_words::proofs::Leasts::mask_back, law_words::proofs::Leasts::alignment_small))]
fn region_alignment(size: u32) -> u64
    requires { size ≤ MOST_REGION }
    ensures value { result ≡ spec.region_alignment size }
    ensures some { 16 ≤ result }
    ensures fits { result ≤ 2 ^ 24 }
{
    let own = (1u64 << 32) - align_mask(whole_size(size)) as u64;
    own.max(REGION_UNIT as u64)
}

/// The base of a size's region at or after an address.
fn region_base(end: u64, size: u32) -> u64
    requires size { size ≤ MOST_REGION }
    requires end { end < 2 ^ 48 }
    ensures value { result ≡ spec.region_base end size }
    ensures near { result < end + 2 ^ 24 }
{
    let alignment = region_alignment(size);
    (end + alignment - 1) / alignment * alignment
}

/// Where the last of the regions ends.
pub(crate) fn last_end(base: u64, sizes: &[u32]) -> u64
    requires base { base < 2 ^ 32 }
    requires few { length sizes.now < 1024 }
    requires small { AreSmall sizes.now }
    ensures { result ≡ spec.last_end base sizes.now }
{
    let mut end = base;
    for size in sizes {
        end = region_base(end, *size) + region_length(*size);
    }
    end
}

/// The regions, all of which end at 2^32 or below.
pub(crate) fn placed(alloc: Global, base: u32, sizes: &[u32]) -> Result<Vec<Region>, AllocError>
    requires small { AreSmall sizes.now }
    requires fits { spec.last_end base sizes.now < 2 ^ 32 }
    ensures { IfOk result (λ regions. regions.items ≡ spec.placed base sizes.now) }
{
    let mut regions = Vec::new(alloc);
    let mut end = base as u64;
    for size in sizes {
        let base = region_base(end, *size);
        let length = region_length(*size);
        regions.push(Region {
            base: base as u32,
            length: length as u32,
        })?;
        end = base + length;
    }
    Ok(regions)
}
