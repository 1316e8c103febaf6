//! An image's bytes cut into its fields (docs/use/image.md; definitions in def_image's Raw, Spelling
//! and Shapes).
//!
//! The readers of members and lists give what specs/Reading says. That the fields so read spell the
//! bytes, and that bytes which fields spell are read, are laws of these definitions.
#![tactic(auto)]

mod fault;
mod fields;
mod heads;
mod heads_at;
mod lists;
mod members;
mod names;
mod numbers;
mod reading;

pub use fault::Cut;
pub use fields::{RawCode, RawCompartment, RawDevice, RawImage, RawSealed, RawShared, RawThread};
pub use names::name_of;
pub use reading::{MAGIC, read};
