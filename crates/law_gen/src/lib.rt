//! Laws of the generated firmware: it is well-formed and can be linked, whatever number it is generated from. Functions
//! with empty bodies whose contracts are the laws.
#![tactic(auto)]

mod gen_links;

pub use gen_links::generated_links;
