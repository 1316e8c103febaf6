//! Memory with tags for a machine that runs: bytes, tag bits, mark bits and shadows each in a plane
//! of its own, seen as the same list of granules as ct_mem's `Plain`. docs/use/machine.md tells of
//! memory in prose.
#![tactic(auto)]

mod bits;
mod bytes;
mod planes;
mod scan;
mod shadows;
mod words;

pub use ct_mem::Memory;
pub use planes::Planes;
