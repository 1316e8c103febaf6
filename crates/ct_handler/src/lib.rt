//! A compartment's error handler: where the record of a trap goes and what stands in it, what the
//! handler begins with, and what its frame ends with.
//!
//! What *Handler* (def_step) says, over registers and a memory; docs/use/machine.md tells the same in
//! prose. No memory is taken, and whether a handler is entered is the caller's.
#![tactic(auto)]

mod record;
mod starting;

pub use ct_cap::{Live, Trap};
pub use record::{record_at, write_record};
pub use starting::{Start, answer, fresh};
