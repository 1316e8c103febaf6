//! Firmware images: accepted exactly, and written in their one spelling (docs/use/image.md;
//! definitions in def_image).
//!
//! `accept` reads bytes into fields, judges the fields, makes the parts of them, and judges these.
//! An `Image` is an image that was accepted, or parts on which nothing fails.
#![tactic(auto)]

mod accepting;
mod fault;
mod image;
mod indexes;
mod lying;
mod rights;
mod spans;

ghost use Rattle.std.specs.Prelude.{◌≡◌, IfOk};
ghost use Rattle.def_image.specs.Spelling.{image_bytes};

pub use accepting::accept;
pub use ct_image_parts::{Code, Compartment, Export, Parts, Sealed, Shared, Slot, Thread};
use def_refusals::NoMemory;
pub use fault::ImageFault;
pub use image::Image;
pub use indexes::index_fault;
pub use lying::region_fault;
pub use rights::right_fault;
use std::alloc::Global;

/// The bytes of an image. NoMemory where memory was wanted.
pub fn write(alloc: Global, image: &Image) -> Result<Vec<u8>, NoMemory>
    ensures { IfOk result (λ v. v.items ≡ image_bytes image.now) }
{
    Ok(ct_image_parts::written(alloc, image.parts())?)
}
