//! Keys and tokens by number: which object of the heap is a key, and which is a token of which key.
//!
//! Both are objects whose capabilities are sealed with one type. What *Tokens* (def_step) says of rows
//! is here a table that is searched by number; docs/use/machine.md tells the same in prose. Only `new`
//! takes memory.
#![tactic(auto)]

mod finding;
mod putting;
mod rows;
mod sealing;
mod tokens;

pub use sealing::opened;
pub use tokens::Tokens;
