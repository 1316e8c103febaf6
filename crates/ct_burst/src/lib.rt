//! A burst: instructions of a thread that tell nothing, one after another, on its row and memory
//! where they stand.
//!
//! Each is the written step of that instruction over all of RAM, hidden or not. Which instructions
//! are left, for the machine to carry out with what they tell, is for speed alone.
//! docs/use/machine.md tells what an instruction does.
#![tactic(auto)]

mod accesses;
mod bursting;
mod capabilities;
mod dispatching;
mod going;
mod integers;
mod jumping;

pub use bursting::{burst, once};
