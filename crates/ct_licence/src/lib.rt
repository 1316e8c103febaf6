//! Whether the report licenses what code did: a deed, or the begin of a span with interrupts off.
//!
//! The answers equal *Licensed* (def_confined) for every list of entries. They look up the entry that
//! a deed names, and ask the graph whether its owner reaches the actor; docs/use/report.md tells what
//! each deed needs.
#![tactic(auto)]

mod licence;
mod rows;
mod traps;

pub use licence::{licensed, off_licensed};
