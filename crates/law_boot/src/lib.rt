//! Laws of boot: what stands where in the first state of a sound image, whom it is granted to, how its words lie in
//! memory, and that a sound image meets what the laws of runs ask. Functions with empty bodies whose contracts are the
//! laws.
#![tactic(auto)]

mod handlers;
mod listed;
mod parts;
mod premises;
mod words;

pub use handlers::handlers_named;
pub use listed::entries_are;
pub use parts::{makes_stand, parts_lie};
pub use premises::premises_hold;
pub use words::words_put;
