//! How a quota heap lies in memory: its range of RAM tiled by chunks, each with a head of one granule,
//! the free ones in a list; the table that tells where used chunks begin, and whose they are; and what
//! rows of objects all of it stands for. Definitions in specs/, and the plain words that they speak of.
//! docs/use/machine.md tells the same in prose.
#![tactic(auto)]

pub mod heads;
mod rows;

pub use rows::{Account, Gap, Head, Range};
