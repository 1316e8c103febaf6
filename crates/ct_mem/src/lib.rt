//! Memory with tags. `Memory` is a list of granules with the calls that read and change it; each
//! call's contract is the change of that list, so what stands above knows no representation.
//! `Plain` keeps the list as it is defined. docs/use/machine.md tells the same in prose.
#![tactic(auto)]

mod memory;
mod part;
mod plain;

pub use def_memory::Granule;
pub use memory::Memory;
pub use plain::Plain;
