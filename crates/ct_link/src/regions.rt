//! Regions by their places in a list.

ghost use Rattle.std.specs.Prelude.{◌≡◌, ◌+◌, ◌<◌, ◌^◌, drop, get_or};
ghost use Rattle.def_layout.specs.Placement as spec;

use def_layout::Region;

/// The region so many places past the first of a stretch; an empty one where there is none.
#[tactic(auto, using(crate::proofs::Places::place_past))]
pub(crate) fn region_at(regions: &[Region], first: usize, past: usize) -> Region
    requires { first + past < 2 ^ 32 }
    ensures { result ≡ get_or (drop first regions.now) past (spec.region_from 0 0) }
{
    match regions.get(first + past) {
        Some(region) => *region,
        None => Region { base: 0, length: 0 },
    }
}
