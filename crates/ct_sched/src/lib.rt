//! The scheduler: which thread runs next, and who sleeps and who waits.
//!
//! Of the ready threads of greatest priority the one that was picked least recently is picked, those
//! never picked first, by their numbers. The definitions stand in def_sched; docs/use/machine.md tells
//! the same in prose. Only `new` takes memory.
#![tactic(auto)]

mod choosing;
mod sched;
mod turning;

pub use def_refusals::NoMemory;
pub use def_sched::Status;
pub use sched::Sched;
