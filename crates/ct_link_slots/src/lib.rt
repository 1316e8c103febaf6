//! The slots of import tables that a description stands for, as def_link's Slots has them
//! (docs/use/description.md): what an import names is given by its index, and its rights by its
//! kind.
//!
//! Names are looked up in the order of their lists. A text `owner.export` is compared with an
//! owner's name once, and then its rest with the names of that owner's exports.
#![tactic(auto)]

mod exports;
mod imports;
mod named;
mod rights;
mod rows;
mod tables;

pub use exports::{Exported, called};
pub use tables::{compartment_slots, library_slots};
