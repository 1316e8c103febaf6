//! Tests of the crates of the switcher and of the threads over memory, by their public calls.
//!
//! They stand apart, since a crate with tests is proved twice.
#![tactic(auto)]

#[cfg(test)]
mod asked;
#[cfg(test)]
mod engine;
#[cfg(test)]
mod firmware;
#[cfg(test)]
mod ready;
#[cfg(test)]
mod sched;
#[cfg(test)]
mod seen;
