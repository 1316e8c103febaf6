//! The boot of an image: what stands in each granule of RAM, how its threads start, and the engine
//! that holds both, with its heap without an object.
//!
//! Exactly the capabilities of *Boot state* are tagged; each is derived from a root word and
//! carries its entry's number. Contracts say what RAM and what engine that is by the image's parts
//! (specs/Starts, specs/Launching), and where in RAM the threads' areas and stacks lie by the
//! machine's image (specs/Placed). docs/use/machine.md tells the same in prose.
#![tactic(auto)]

mod booting;
mod filling;
mod fresh;
mod launching;
mod making;
mod numbers;
mod putting;
mod slots;
mod starting;

pub use booting::boot;
pub use ct_areas::First;
pub use launching::launch;
pub use starting::thread_start;
