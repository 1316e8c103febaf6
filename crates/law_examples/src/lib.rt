//! None of it is empty: an image and a state of it that are confined, and what is lost without each premise.
#![tactic(auto)]

mod example;
mod needed;

pub use example::small_firmware;
pub use needed::joined_frames_needed;
