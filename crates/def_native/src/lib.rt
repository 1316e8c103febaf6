//! The numbers of the native routines, each once. Routine 1 is the return, whose number stands in
//! def_profile with where the routines' entries lie (`native::RETURN`). Nothing here computes.
#![tactic(auto)]

/// Enters an export of another compartment.
pub const SWITCH: u32 = 0;
/// Lets another thread run.
pub const YIELD: u32 = 2;
/// Sleeps for some ticks.
pub const SLEEP: u32 = 3;
/// Waits for a word to change.
pub const WAIT: u32 = 4;
/// Wakes threads that wait for a word.
pub const WAKE: u32 = 5;
/// Takes an object from the heap.
pub const ALLOCATE: u32 = 6;
/// Gives one back.
pub const FREE: u32 = 7;
/// Tells what a quota has left.
pub const REMAINING: u32 = 8;
/// Makes a key.
pub const TOKEN_KEY: u32 = 9;
/// Makes a token of a key.
pub const TOKEN_NEW: u32 = 10;
/// Opens a token by its key.
pub const TOKEN_OPEN: u32 = 11;
/// Frees a token.
pub const TOKEN_FREE: u32 = 12;
/// The greatest number of a routine.
pub const LAST_NATIVE: u32 = TOKEN_FREE;
