//! What the calls of a heap answer.

use thiserror::Error;

/// An object: its number, its first address, its length in bytes, and what the live objects of its quota take
/// of it, this one's head included, after the call.
#[derive(Clone, Copy, Debug, PartialEq, Eq, Drop)]
pub struct Object {
    pub number: u32,
    pub base: u32,
    pub length: u32,
    pub live: u32,
}

/// A live object that was found by its bounds, and its quota.
#[derive(Clone, Copy, Debug, PartialEq, Eq, Drop)]
pub struct Found {
    pub object: Object,
    pub quota: u32,
}

/// Why an allocation was refused; of several causes the first.
#[derive(Clone, Copy, Debug, PartialEq, Eq, Drop, Error)]
pub enum HeapRefusal {
    /// The size is zero or above the heap's length.
    #[error("size zero or above the heap's length")]
    Size,
    /// The quota's live charges and the new one exceed its limit.
    #[error("quota exceeded")]
    Quota,
    /// No place is lawful now.
    #[error("no place for the object")]
    NoGap,
}

/// Nothing of the quota's live objects has exactly these bounds.
#[derive(Clone, Copy, Debug, PartialEq, Eq, Drop, Error)]
#[error("no whole live object of this quota")]
pub struct NotWhole;
