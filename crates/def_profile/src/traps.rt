//! Causes of traps, and the codes that cause 28 has.

/// A jump or branch to an address that isn't a multiple of 4.
pub const MISALIGNED_FETCH: u32 = 0;
/// A word that is no instruction.
pub const ILLEGAL_INSTRUCTION: u32 = 2;
/// `ebreak`.
pub const BREAKPOINT: u32 = 3;
/// A load from an address that isn't a multiple of its width.
pub const MISALIGNED_LOAD: u32 = 4;
/// A store to such an address.
pub const MISALIGNED_STORE: u32 = 6;
/// `ecall`.
pub const ENVIRONMENT_CALL: u32 = 11;
/// A failed check of a capability; the code says which.
pub const CAPABILITY_FAULT: u32 = 28;

/// Outside the bounds.
pub const BOUNDS_CODE: u32 = 1;
/// No tag.
pub const TAG_CODE: u32 = 2;
/// Sealed, or sealed with another type than is asked for.
pub const SEAL_CODE: u32 = 3;
/// Without `EX`.
pub const EXECUTE_CODE: u32 = 17;
/// Without `LD`.
pub const LOAD_CODE: u32 = 18;
/// Without `SD`, or without `SL` where the stack is asked for.
pub const STORE_CODE: u32 = 19;
/// Without `MC`, at a store of a tagged value.
pub const STORE_CAPABILITY_CODE: u32 = 21;
/// A system register.
pub const SYSTEM_REGISTER_CODE: u32 = 24;

/// What a trap names where the program counter capability failed.
pub const PCC_REGISTER: u32 = 16;
