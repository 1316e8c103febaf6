//! A JSON text as one list of nodes of 24 bytes, at most one for each two bytes of text: with the
//! scratch about thirteen times the length of the text, whatever it says. `serde_json` keeps a tree,
//! in which an object of one member takes a hundred times its text. The definitions are those of
//! `serde_json`: which texts are JSON, and what they stand for.
#![tactic(auto)]

mod node;
mod numbers;
mod read;
mod unread;
mod value;

pub use node::Node;
pub use read::Document;
pub use unread::Unread;
pub use value::{Items, Json, Keys};
