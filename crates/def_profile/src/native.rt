//! Where the native routines stand. Routine `n` has its entry `n * NATIVE_UNIT` bytes after
//! `NATIVE_BASE`; a capability of it has the `NATIVE_LENGTH` bytes from there. The numbers of the
//! routines stand in def_native, but for the return's, whose entry is one of the machine's own.

/// The address of routine 0.
pub const NATIVE_BASE: u32 = 0x0001_0000;
/// The first address after the range that RAM and devices keep out of.
pub const NATIVE_END: u32 = 0x0001_1000;
/// From one entry to the next, in bytes.
pub const NATIVE_UNIT: u32 = 16;
/// The bytes of one entry.
pub const NATIVE_LENGTH: u32 = 8;

/// The number of the routine that returns from a call; no firmware names it.
pub const RETURN: u32 = 1;
/// The entry of the return, to which the first return sentry of each thread leads.
pub const RETURN_ENTRY: u32 = NATIVE_BASE + NATIVE_UNIT * RETURN;
