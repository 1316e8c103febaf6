//! What became of one instruction, or of a native routine.

use ct_entry::Act;
use def_words::Trap;

/// An act, and the entry of the capability that was used for it.
#[derive(Clone, Copy, PartialEq, Eq, Drop)]
pub struct ActBy {
    pub act: Act,
    pub entry: u32,
}

/// The thread went on, with what it did that is told: an instruction's act is at a device, a routine's is a call, an
/// allocation or a free. Or it came to the native return, or to the native routine of another number; or a check
/// failed.
#[derive(Clone, Copy, PartialEq, Eq, Drop)]
pub enum Ran {
    Went { done: Option<ActBy> },
    Returned,
    Native { number: u32 },
    Trapped { trap: Trap },
}
