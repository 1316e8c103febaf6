//! The revoker: capabilities over marked granules lose their tag, all at once or a slice at a time.
//!
//! A sweep has a front, an offset in RAM. Each slice passes so many granules from the front on, and
//! leaves of them what *Heap* (def_machine) says; docs/use/machine.md tells the same in prose.
#![tactic(auto)]

mod front;
mod sweeping;

pub use front::Front;
pub use sweeping::sweep_all;
