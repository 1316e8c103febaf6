//! The parts of an image: rows cut out of its fields, what they come to in bytes, and the fields of rows again
//! (docs/use/image.md).
#![tactic(auto)]

mod converting;
mod copying;
mod parts;
mod sizes;
mod whole;
mod writing;

pub use converting::parts_of;
pub use copying::copied;
pub use parts::{Code, Compartment, Export, Parts, Sealed, Shared, Slot, Thread};
pub use sizes::{Places, compartment_bytes, library_bytes, places_of, sealed_bytes};
pub use whole::fields_come_back;
pub use writing::written;
