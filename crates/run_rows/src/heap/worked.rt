//! Worked heaps: a heap of 64 bytes whose one object is freed and has room again only behind a sweep; two objects,
//! a quota that is full, a free, and a third object behind the quarantined chunk; and a heap of no bytes.

use crate::common::{add, truth};
use crate::heap::swept::{Slice, Swept};
use crate::heap::told::{add_allocated, add_begun, add_found, add_freed, add_left};
use std::alloc::{AllocError, Global};

/// A call by the first quota, or something that is looked at.
#[derive(Clone, Copy)]
pub enum Row {
    Allocate(u32),
    Free(u32, u64),
    Find(u32, u64),
    /// What is left to each quota, and whether an object is quarantined.
    Left,
    /// A sweep is begun.
    Begin,
    /// A sweep of eight granules, from its beginning to the flush.
    Sweep,
    /// The two words of a granule, and whether it is marked.
    Granule(u32),
}

/// The object that a heap of 64 bytes has room for.
const ALONE: &[Row] = &[
    Row::Allocate(40),
    Row::Free(0x8000_0008, 0x8000_0030),
    Row::Allocate(40),
    Row::Sweep,
    Row::Granule(0),
    Row::Left,
    Row::Allocate(40),
];

/// The heap lies from 0x80000550 on, and its quota is 64.
const PLACES: &[Row] = &[
    Row::Allocate(24),
    Row::Allocate(24),
    Row::Granule(0x550 / 8),
    Row::Granule(0x570 / 8),
    Row::Granule(0x590 / 8),
    Row::Allocate(1),
    Row::Left,
    Row::Free(0x8000_0558, 0x8000_0570),
    Row::Granule(0x550 / 8),
    Row::Granule(0x570 / 8),
    Row::Allocate(1),
    Row::Allocate(0),
    Row::Free(0x8000_0558, 0x8000_0570),
    Row::Free(0x8000_0578, 0x8000_0588),
];

const NOTHING: &[Row] = &[
    Row::Allocate(8),
    Row::Begin,
    Row::Find(0x8000_0008, 0x8000_0010),
];

/// The calls of the heap of one object.
pub fn alone() -> &'static [Row] {
    ALONE
}

/// The calls of the heap of two objects and a third.
pub fn places() -> &'static [Row] {
    PLACES
}

/// The calls of the heap of no bytes.
pub fn nothing() -> &'static [Row] {
    NOTHING
}

/// Sweeps, and adds the line of it.
fn sweep(alloc: Global, swept: &mut Swept, out: &mut String) -> Result<(), AllocError> {
    let waits = truth(swept.quarantined());
    let painted = truth(swept.begin());
    let ended = truth(matches!(swept.slice(8), Slice::Ended));
    let flushed = truth(swept.flush());
    add_sweep(alloc, (waits, painted), (ended, flushed), out)
}

/// Adds the line of a sweep: whether an object waited, whether one was painted, whether the slice came to the end, and
/// whether the painted ones left.
fn add_sweep(
    alloc: Global,
    (waits, painted): (&str, &str),
    (ended, flushed): (&str, &str),
    out: &mut String,
) -> Result<(), AllocError> {
    add(
        format!(in alloc; "quarantined {waits}, painted {painted}"),
        out,
    )?;
    add(
        format!(in alloc; ", ended {ended}, flushed {flushed}\n"),
        out,
    )
}

/// Adds the line of a granule.
fn granule(alloc: Global, swept: &Swept, slot: u32, out: &mut String) -> Result<(), AllocError> {
    let word = swept.word(slot);
    let (low, high) = (word % (1 << 32), word / (1 << 32));
    let marked = truth(swept.marked(slot));
    add(format!(in alloc; "{low} {high}, marked {marked}\n"), out)
}

/// Adds the line of a call.
fn answer(alloc: Global, swept: &mut Swept, row: Row, out: &mut String) -> Result<(), AllocError> {
    match row {
        Row::Allocate(size) => add_allocated(alloc, swept.allocate(0, size), out),
        Row::Free(base, top) => add_freed(alloc, swept.free(0, base, top), out),
        Row::Find(base, top) => add_found(alloc, swept.find(base, top), out),
        Row::Left => add_left(alloc, swept, out),
        Row::Begin => add_begun(alloc, swept, out),
        Row::Sweep => sweep(alloc, swept, out),
        Row::Granule(slot) => granule(alloc, swept, slot, out),
    }
}

/// Adds the lines of worked calls.
pub fn add_worked(
    alloc: Global,
    swept: &mut Swept,
    rows: &[Row],
    out: &mut String,
) -> Result<(), AllocError> {
    for row in rows {
        answer(alloc, swept, *row, out)?;
    }
    Ok(())
}
