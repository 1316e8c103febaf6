//! The rows of a description: the parts that a firmware's description names, and how they are read
//! from its JSON value (docs/use/description.md; definitions in def_desc, Rows and Reading).
//!
//! Rows are total: what is missing or not of its kind reads as its default, or else as 0, the empty
//! text or the empty list. Whether a value is a well-formed description is judged in
//! ct_desc.
#![tactic(auto)]

mod naming;
mod parts;
mod reading;
mod targets;

pub use naming::key_name;
pub use parts::{
    At, Code, Compartment, Desc, Export, Import, Library, LibraryExport, LibraryImport, Quota,
    Sealed, Shared, Thread,
};
pub use reading::rows_of;
pub use targets::{Target, target_at};
