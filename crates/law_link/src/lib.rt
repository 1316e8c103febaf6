//! What a lawful description and its sources are linked to has no fault of an image: its slots name
//! what is there, in order and with rights of their kind, part by part. Functions with empty bodies
//! whose contracts are the laws.
#![tactic(auto)]

mod link_code;
mod link_limits;
mod link_parts;

pub use link_code::code_is_built;
pub use link_limits::linked_is_accepted;
pub use link_parts::{regions_are_placed, rows_are_kept};
