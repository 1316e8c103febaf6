//! The machine: threads of an image that take turns over its memory and devices.
#![tactic(auto)]

mod events;
mod going;
mod known;
mod machine;
mod parts;
mod plan;
mod quiet;
mod rounds;
mod serving;
mod starting;
mod tally;
mod turns;

pub use def_step::Event;
pub use known::Known;
pub use machine::Machine;
pub use rounds::Rounds;
