//! What a firmware's description stands for, and when it is well-formed.
//!
//! A description is a JSON object (docs/use/description.md). Its parts, their members and what may
//! stand at each are tables here, which definitions and code both read. The definitions stand in
//! specs/: Walk has the places in the order in which they are judged, Kinds to Addresses a test or a
//! walk for each fault, Reading the rows that a value stands for, WellFormed the first fault.
#![tactic(auto)]

mod faults;
pub mod tables;

pub use faults::{Fault, PartWord, Place};
pub use tables::{Choice, Form, Passes, Shape};

/// RAM: its first address, and its size in bytes.
#[derive(Clone, Copy, PartialEq, Eq, Drop)]
pub struct Ram {
    pub base: u32,
    pub size: u32,
}

/// What the letters of an import's rights allow: `R`, `W` and `C`.
#[derive(Clone, Copy, PartialEq, Eq, Drop)]
pub struct Rights {
    pub read: bool,
    pub write: bool,
    pub capabilities: bool,
}
