//! The quota heap over modelled memory. Chunks with heads in memory tile the heap's range; the heap keeps
//! beside them what each quota is charged with, the next object's number, how many objects are quarantined,
//! and a table of where used chunks begin, by which a word inside an object is never taken for a head.
//!
//! Where the heads agree with all that (`Laid`), the heap stands for rows of objects, and each call is the
//! change of these rows that *Heap* of def_machine says: the place of an allocation is the least lawful one,
//! a free quarantines, painted objects leave when they are flushed. In memory heads of chunks are written and
//! nothing else, but that an object's granules are zeroed when it is placed and when it is freed, and that marks
//! are set and cleared. A refusal changes nothing, and no call but `new` takes memory. docs/build/inside.md tells how a
//! heap lies in memory.
#![tactic(auto)]

mod accounts;
mod heap;
mod lengths;
mod rows;
mod table;

pub use def_chunks::{Account, Range};
pub use def_refusals::NoMemory;
pub use heap::Heap;
pub use rows::{Found, HeapRefusal, NotWhole, Object};
