//! Places for the regions of a firmware, as *Placement* of def_layout has it.
//!
//! The contract computes each base as the least multiple at or after the last end; law_layout shows
//! that these are the least lawful bases, that regions stand in order and apart, and that a word can
//! spell each exactly. docs/use/description.md tells the rules.
#![tactic(auto)]

mod ends;
mod fault;
mod sizes;

ghost use Rattle.std.specs.Prelude.{◌≡◌, MatchResult};
ghost use Rattle.ct_layout.specs.Rows.{HasRoom, IsPlaceable, RefusesRegions, places_of};

pub use def_layout::Region;
pub use ends::region_length;
pub use fault::LayoutFault;
pub use sizes::{Places, Sizes};
use std::alloc::Global;

/// The regions of these sizes, in their order, and the heap, which is the rest of RAM.
///
/// NoRoom exactly where what the regions need of RAM exceeds its size: `needed` are the bytes from
/// RAM's base to the last region's end, `has` RAM's. NoMemory where memory was wanted.
///
/// Condition: RAM's base and size are multiples of 16, it ends at 0xFFFF_FFF0 or below, and there
/// are fewer than 1,024 regions of at most 2 MiB each.
pub fn place(alloc: Global, sizes: &Sizes) -> Result<Places, LayoutFault>
    requires { IsPlaceable sizes.now }
    ensures { MatchResult result
        (λ places. HasRoom sizes.now places)
        (λ fault. RefusesRegions sizes.now fault) }
{
    let base = sizes.base as u64;
    let end = ends::last_end(base, &sizes.regions);
    if end - base > sizes.size as u64 {
        return Err(LayoutFault::NoRoom {
            needed: end - base,
            has: sizes.size as u64,
        });
    }
    let regions = ends::placed(alloc, sizes.base, &sizes.regions)?;
    Ok(Places {
        regions,
        heap: Region {
            base: end as u32,
            length: (base + sizes.size as u64 - end) as u32,
        },
    })
}
