//! Reach and its certificate: who can be reached by whose capabilities, and the path that proves
//! it to a reader of the report.
//!
//! A graph is made once of a firmware's entries; `reaches` is a look-up in it, and `path` a walk.
//! The definitions of reach and path stand in def_reach; docs/use/report.md tells how
//! they are to be read.
#![tactic(auto)]

mod distances;
mod links;
mod nodes;
mod sharing;
mod walk;

pub use links::same;
pub use sharing::{Graph, Path};
