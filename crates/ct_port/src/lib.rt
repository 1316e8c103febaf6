//! The outside: files that are read by name, and output that is written in pieces.
//!
//! `Folder` and `Sink` are seen as what they tell (files, bytes), the list of reads, and a count of
//! faults; a refusal that isn't want of memory comes only where that count rose. The forms in
//! memory tell everything; the adapters over the system tell nothing and are the trusted edge.
#![tactic(auto)]

mod disk;
mod folders;
mod lists;
mod outside;
mod sinks;
mod steady;

pub use def_port::{ReadError, WriteFailed};
pub use def_refusals::NoMemory;
pub use disk::{DiskFolder, WriterSink, read_front};
pub use folders::FolderMem;
pub use outside::{Folder, Sink};
pub use sinks::SinkMem;
pub use steady::{SteadyFolder, SteadySink};
