//! The numbers of this profile, each once, for definitions and code alike: permission bits and the
//! rights of each kind of entry, seal types, the roots' words, how bounds are spelled, where native
//! routines stand and what they answer, traps, how firmware is laid out in RAM, and the limits of
//! firmware; specs/Versions has the limits that differ from version to version, specs/Areas how long
//! threads' areas are. Nothing here computes.
#![tactic(auto)]

pub mod answers;
pub mod bounds;
pub mod layout;
pub mod limits;
pub mod native;
pub mod rights;
pub mod seals;
pub mod traps;
