//! What native routines answer where they refuse: the numbers here, negated. The last one, which
//! callers get of frames that a trap ended, stands as it is.

/// No quota was given.
pub const NO_QUOTA: u32 = 1;
/// The quota's limit would be passed.
pub const PAST_LIMIT: u32 = 2;
/// There is no place in the heap, and nothing waits for a sweep.
pub const NO_PLACE: u32 = 3;
/// The size is zero or above the heap's length.
pub const NO_SIZE: u32 = 4;
/// There is no place in the heap, but something waits for a sweep.
pub const NO_PLACE_YET: u32 = 5;
/// What was given is no whole live object of the quota.
pub const NO_OBJECT: u32 = 6;
/// What was given is no live key.
pub const NO_KEY: u32 = 7;
/// What was given is no live token of the key.
pub const NO_TOKEN: u32 = 8;
/// The callee's stack would have too little room.
pub const NO_STACK: u32 = 11;
/// The thread has as many frames as it may have.
pub const TOO_DEEP: u32 = 12;
/// The word that was to be waited for holds another value.
pub const DIFFERS: u32 = 21;

/// What a caller gets in c10 of a frame that a trap ended; c11 is zero.
pub const UNWOUND: u32 = 0xFFFF_FFFF;
