//! Plain words that the definitions speak of.

/// Where a heap lies: RAM's first address, the heap's first address and its length in bytes; and where
/// the first free chunk begins, an offset from the heap's first address, or `NO_CHUNK`.
#[derive(Clone, Copy, PartialEq, Eq, Drop)]
pub struct Range {
    pub ram: u32,
    pub base: u32,
    pub length: u32,
    pub first: u32,
}

/// A quota: what its live objects may take of the heap at most, and what they take now, in bytes.
#[derive(Clone, Copy, PartialEq, Eq, Drop)]
pub struct Account {
    pub limit: u32,
    pub charged: u32,
}

/// A free chunk with room for an object: its address and size, where the object goes, and the free chunks
/// beside it in the list: the one before it, as an offset, with its size, and the offset of the next one.
/// `NO_CHUNK` stands where there is none.
#[derive(Clone, Copy, PartialEq, Eq, Drop)]
pub struct Gap {
    pub at: u32,
    pub size: u32,
    pub base: u32,
    pub before: u32,
    pub before_size: u32,
    pub next: u32,
}

/// What a chunk's head holds: the chunk's size in bytes, its state, and its second word.
#[derive(Clone, Copy, PartialEq, Eq, Drop)]
pub struct Head {
    pub size: u32,
    pub state: u32,
    pub rest: u32,
}
