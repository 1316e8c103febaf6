//! A thread's row and its area of the trusted region: its start, a frame more and a frame less, a stop and a pick.
//!
//! Contracts see the thread of the machine's state, which is a function of row and memory (specs/Threads), and say
//! what becomes of every granule. docs/build/inside.md tells the layout in prose.
#![tactic(auto)]

mod areas;
mod filtering;
mod frames;
mod stops;
mod thread;

pub use areas::{areas_apart, clear};
pub use frames::{innermost_export, pop, push, take_back};
pub use stops::{resume, save};
pub use thread::{Area, First, Fresh, Thread};
