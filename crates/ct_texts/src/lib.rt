//! Texts that users write: whether one has the form of a name, and the number that decimal digits say. Scripts,
//! policies, descriptions and the words of the command line have theirs from here.
#![tactic(auto)]

mod decimal;
mod names;

pub use decimal::number_of;
pub use names::is_name;
