//! Branches and jumps: where execution goes on, with which posture, and the link that is left.
//!
//! `flow` equals the written step of each branch, of `jal` and of the register jump, whose checks
//! are a list and whose trap is the first that fails. `jumps_on`, `go_through` and `become_link` are a
//! register jump that leaves the posture, by parts and in place. docs/use/machine.md tells the rules.
#![tactic(auto)]

mod branches;
mod deciding;
mod outcome;
mod registers;
mod standing;

pub use branches::takes;
pub use deciding::flow;
pub use outcome::Flow;
pub use registers::{jumps_on, posture_through};
pub use standing::{become_link, go_through};
