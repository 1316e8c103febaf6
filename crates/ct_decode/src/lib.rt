//! Words of code, decoded once: what an instruction's word says is kept, and given again where the same word is met at
//! the same place; and of an instruction the registers and the class.
#![tactic(auto)]

mod decoded;
mod operands;
mod reading;

pub use decoded::Decoded;
pub use operands::{class_of, operands_of};
pub use reading::Reading;
