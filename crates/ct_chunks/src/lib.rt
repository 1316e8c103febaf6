//! Chunks of a heap in modelled memory: the first free one with room is found along the list of free
//! chunks, one is carved for an object, used ones are marked and painted, and those that leave are joined
//! with the free ones that they touch. Every call's contract says what becomes of the list of chunks that
//! memory stands for, and that nothing but heads of the new list was written. docs/build/inside.md tells how
//! a heap lies in memory.
#![tactic(auto)]

mod carving;
mod finding;
mod heads;
mod joining;
mod states;

pub use carving::carve;
pub use def_chunks::{Gap, Head, Range};
pub use finding::find;
pub use heads::{chunk_head, read_head, write_head};
pub use joining::join;
pub use states::{paint, set_state};
