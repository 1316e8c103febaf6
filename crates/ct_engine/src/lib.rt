//! Threads over a memory with a quota heap, and the heap's revoker: frames, saved registers and chunks stand in memory
//! that firmware never sees.
//!
//! Contracts see memory of which what threads keep is hidden, and the heap outside live objects; the threads of
//! the machine's state, the heap's objects and the keys and tokens among them as its rows, which are functions of
//! memory and of what is kept beside it (specs/Seen). A thread that stops and one that is picked change nothing of
//! these but who runs, and what the load filter takes from the picked one; a store of what isn't hidden changes no
//! thread and no object. A call, a frame's end, an error handler's begin, an allocation, one with a row of a key or a
//! token, a free and a slice of a sweep are the changes that the machine's definitions say. docs/build/inside.md tells
//! the layout in prose.
#![tactic(auto)]

mod bursting;
mod calls;
mod engine;
mod granting;
mod rows;
mod sealing;
mod starting;
mod sweeping;
mod turns;
mod written;

pub use calls::callee_given;
pub use ct_areas::{First, Fresh};
pub use ct_heap::{Found, Heap, HeapRefusal, NotWhole, Object};
pub use ct_switch::Called;
pub use def_refusals::NoMemory;
pub use engine::Engine;
pub use rows::Region;
pub use written::{calls_written, ends_written, handlers_written, sweeps_written};
