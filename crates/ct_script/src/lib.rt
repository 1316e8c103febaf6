//! The script of a run: bytes that come to devices before steps.
//!
//! `read` takes a text apart, once and in time that grows as the text does; `at` finds the bytes of
//! a step by halving. Which texts are scripts, and what is wrong with others, is defined in
//! def_script; docs/use/run.md tells the same in prose.
#![tactic(auto)]

mod fields;
mod finding;
mod reading;
mod script;

pub use def_script::{Given, ScriptFault};
pub use script::{Script, read};
