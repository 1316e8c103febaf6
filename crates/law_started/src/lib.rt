//! Laws of the machine that a sound image boots: its state is confined, with what stands beside; no entry reaches the
//! threads' areas or the heap, nothing is sealed as a token, and each tagged granule is one that boot fills. Functions
//! with empty bodies whose contracts are the laws.
#![tactic(auto)]

mod boot_places;
mod shut;
mod started;

pub use boot_places::{boots_listed, fixed_placed, tags_stand};
pub use shut::images_shut;
pub use started::booted_states_are_confined;
