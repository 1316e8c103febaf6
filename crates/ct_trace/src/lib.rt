//! The lines of a run, made without taking memory: what an event did, and the summary.
//!
//! The texts are defined in def_trace; docs/use/run.md tells the same in prose.
#![tactic(auto)]

mod lines;
mod numbers;

pub use lines::{line, summary};
pub use numbers::Line;
