//! How far branches and jumps reach, and what alignment may be asked for, in bytes
//! (docs/use/assembler.md).

/// How far back a branch reaches; forwards it is two bytes less.
pub const BRANCH_REACH: u128 = 0x1000;
/// How far back a jump reaches; forwards it is two bytes less.
pub const JUMP_REACH: u128 = 0x0010_0000;
/// The greatest alignment. Each is a power of two.
pub const MOST_ALIGNMENT: u128 = 0x1000;
