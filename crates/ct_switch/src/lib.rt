//! The switcher: what a compartment call looks at before it enters, the call with its checks, the return, and the end
//! of a frame with a value, as at an unwind and by an error handler.
//!
//! Frames and saved registers stand in the thread's area of the trusted region (ct_areas). Contracts are equations
//! with *Threads and frames*: what the switch comes to, the thread of the machine's state, its row, and every granule.
//! No call takes memory. docs/use/machine.md tells the rules in prose.
#![tactic(auto)]

mod calls;
mod checks;
mod deciding;
mod ends;
mod exports;
mod given;
mod looking;
mod room;
mod stacks;

pub use calls::{Called, call, head_of};
pub use checks::{first_trap, return_trap, stack_trap};
pub use ct_areas::{Area, First, Fresh, Thread, resume, save};
pub use ends::{end_with, return_to_caller};
pub use exports::{Export, called, export_of};
pub use given::{heads_give, return_sentry};
pub use looking::{is_export_of, table_at};
pub use room::top_below;
