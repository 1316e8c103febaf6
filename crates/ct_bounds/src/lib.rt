//! Bounds of capability words: what a word decodes to, and the least bounds around a range.
//!
//! The contracts are *Authority* and *Least bounds* of def_words, which divide and search; the code
//! shifts, corrects a block up or down, and finds the exponent from leading zeros.
//! docs/use/capabilities.md tells the rules.
#![tactic(auto)]

mod decoding;
mod rounding;

pub use decoding::decode;
pub use def_words::{Bounds, Rounded};
pub use rounding::{align_mask, least, round_length};
