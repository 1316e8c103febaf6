//! One instruction of an engine's running thread: fetched, checked and carried out, on the thread, RAM and the devices.
//!
//! What `execute` came to, with what is left to do, is the written step: the thread goes on, comes to the native return
//! or to another native routine, or traps. But where it goes on all is left as it is: what ends a frame, and the
//! routine, is done by the caller. The heap's objects and its sweep stay as they are. docs/use/machine.md tells the
//! same in prose.
#![tactic(auto)]

mod classes;
mod executing;
mod ran;

pub use executing::execute;
pub use ran::{ActBy, Ran};
