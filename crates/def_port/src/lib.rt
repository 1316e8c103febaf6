//! What the outside is seen as: what a folder tells of its files, the list of its calls, the bytes
//! that a sink has taken, and counts of faults that rose. The definitions stand in specs/.
#![tactic(auto)]

mod faults;

pub use faults::{ReadError, WriteFailed};
