//! Loads and stores: their checks in order, what they give and what they leave, in RAM and at
//! devices, with attenuation and the load filter.
//!
//! `loadstore` equals the written step of each load and store. `load_number`, `load_register` and
//! `store_quietly` do the same of those in RAM that no check refuses, on registers where they stand.
//! docs/use/machine.md tells the rules in prose.
#![tactic(auto)]

mod checks;
mod devices;
mod marks;
mod memory;
mod moving;
mod quiet;
mod registers;
mod shapes;

pub use marks::{filter, filter_in_place};
pub use moving::{Map, Moved, loadstore};
pub use quiet::{load_number, store_quietly};
pub use registers::load_register;
pub use shapes::access;
