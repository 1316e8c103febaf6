//! The object of each compartment and library of a description: its words, or its source read and
//! assembled, with each export's place looked up; or the first fault of one, exactly as def_link
//! has it (docs/use/description.md).
#![tactic(auto)]

mod built;
mod code;
mod exports;
mod files;
mod names;
mod owners;
mod sources;

pub use built::objects;
pub use exports::begin_of;
pub use files::are_sourced;
pub use sources::Sources;
