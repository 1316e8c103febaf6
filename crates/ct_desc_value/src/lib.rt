//! A description's value: its members by their kinds, its places in the order in which they are
//! judged, and the three faults that tables of members decide (F2, F3 and F6 of docs/use/errors.md,
//! definitions in def_desc). Rows are read in ct_desc_rows, names and references in ct_desc.
#![tactic(auto)]

mod digits;
mod kinds;
mod limits;
mod listed;
pub mod members;
mod owner;
pub mod tables;
mod walk;

pub use digits::{bytes_of, word_of};
pub use kinds::has_kinds;
pub use limits::keeps_limits;
pub use listed::has_only;
pub use owner::Owner;
pub use walk::{Spot, Spots, spots_of};
