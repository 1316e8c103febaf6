//! What a chunk's head says: its first word is the chunk's length in bytes, a multiple of 8, and one of
//! these states; its second the object's number, or for a free chunk the next free one.

/// No object is in the chunk.
pub const FREE: u32 = 0;
/// Its object is live.
pub const LIVE: u32 = 1;
/// Its object was freed, and waits for a sweep.
pub const QUARANTINED: u32 = 2;
/// Its object was freed before the running sweep began, and leaves when that ends.
pub const PAINTED: u32 = 3;

/// In place of an offset: no free chunk follows.
pub const NO_CHUNK: u32 = 0xFFFF_FFFF;

/// Bytes of the heap for each entry of the table of used chunks.
pub const SLOT: u32 = 16;
