//! One thread over raw memory: its row and its area, what stands in RAM at an address, and its loads and stores of RAM
//! and of devices.
//!
//! A row that is kept (specs/Kept) has its area in RAM, where nothing but what was saved isn't a plain word. Contracts
//! say what a start, a stop, a pick and an error handler's begin make of the row, of the thread of the machine's state
//! and of memory, of which nothing is hidden. docs/build/inside.md tells the layout in prose.
#![tactic(auto)]

mod accesses;
mod fetching;
mod handling;
mod registers;
mod starting;
mod turns;
mod window;

pub use accesses::access;
pub use fetching::{fetch_trap, next};
pub use handling::{handle_row, value_of};
pub use registers::{branch_row, filter_row, jump_row, read, read_ref};
pub use starting::begin;
pub use turns::{pick_row, stop_row};
pub use window::{Window, window_of};
