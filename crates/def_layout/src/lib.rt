//! Where the regions of a firmware lie, and the lengths that a region may have, as plain data. The
//! written definitions stand in specs/; nothing here computes. docs/use/description.md tells the same
//! in prose.
#![tactic(auto)]

/// Bytes of a region that placement is asked for, at most.
pub const MOST_REGION: u32 = 0x0020_0000;

/// A region: its first address, and its length in bytes.
#[derive(Clone, Copy, Debug, PartialEq, Eq, Drop)]
pub struct Region {
    pub base: u32,
    pub length: u32,
}
