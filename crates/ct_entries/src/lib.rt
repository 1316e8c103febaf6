//! The entries of an image: the numbered rows of the report, the gates of the exports
//! (docs/use/report.md; definitions in def_boot), and which exports are error handlers.
#![tactic(auto)]

mod gates;
mod handling;
mod naming;
mod owners;
mod rows;
mod slots;

ghost use Rattle.std.specs.Prelude.{◌≡◌, ◌<◌, ◌^◌, length, IfOk};
ghost use Rattle.def_boot.specs.Boot.{image_of};
ghost use Rattle.def_boot.specs.Gates.{entries_of};
ghost use Rattle.def_image.specs.Sound.{Sound};

use ct_entry::Entries;
use ct_image::Image;
use ct_image_parts::Parts;
use def_refusals::NoMemory;
pub use naming::export_number;
use std::alloc::{AllocError, Global};

/// The entries of an image in the order of their numbers, from 1, and one gate for each export in
/// the same order (docs/use/report.md). They are few enough for a graph. `NoMemory`: want of memory.
pub fn entries(alloc: Global, image: &Image) -> Result<Entries, NoMemory>
    ensures entries { IfOk result (λ e. e ≡ entries_of image.now) }
    ensures few { IfOk result (λ e. length e.rows < 2 ^ 32) }
{
    Ok(of_parts(alloc, image.parts())?)
}

/// Of each compartment, in their order, the number of the entry of its error handler: its export of the name
/// `handler`; 0 where it has none. `NoMemory`: want of memory.
#[tactic(auto, unfolding(def_boot::specs::Boot::image_of))]
pub fn handlers(alloc: Global, image: &Image) -> Result<Vec<u32>, NoMemory>
    ensures { IfOk result (λ v. v.items ≡ (image_of image.now).handlers) }
{
    Ok(handling::handlers_of(alloc, image.parts())?)
}

/// The entries of an image's parts.
#[tactic(auto, using(crate::proofs::Standing::stands, crate::proofs::Few::few_rows), unfolding(def_boot::specs::Gates::entries_of))]
fn of_parts(alloc: Global, parts: &Parts) -> Result<Entries, AllocError>
    requires { Sound parts.now }
    ensures entries { IfOk result (λ e. e ≡ entries_of parts.now) }
    ensures few { IfOk result (λ e. length e.rows < 2 ^ 32) }
{
    Ok(Entries {
        rows: rows::rows_of(alloc, parts)?,
        gates: gates::gates_of(alloc, parts)?,
    })
}
