//! The walk of a path: from a place to the end, each time to the least place that is nearer by one.

ghost use Rattle.std.specs.Prelude.{ℕ, ◌≡◌, ◌+◌, ◌<◌, ◌≤◌, ◌^◌, List, Bool, true, false, map, length, IfOk, MatchOption, slice_index_or};
ghost use Rattle.ct_graph.specs.Cells.{cell, far, IsDistance, IsNext, NoneNext, IsNextIn, NoneNextIn, Walks};

use std::alloc::{AllocError, Global};

/// The places after `start` on the first of the shortest ways to `end`.
pub(crate) fn walk(
    alloc: Global,
    rows: &[Vec<bool>],
    far: &[u32],
    start: usize,
    end: usize,
) -> Result<Vec<usize>, AllocError>
    requires few { length rows.now < 2 ^ 32 }
    requires distance { IsDistance (cell (map (λ r. r.items) rows.now)) (length rows.now) end
        far.now }
    requires reached { slice_index_or far.now start (length rows.now) < length rows.now }
    ensures { IfOk result
        (λ v.
        Walks (cell (map (λ r. r.items) rows.now)) (length rows.now) far.now start v.items end) }
{
    let mut places = Vec::new(alloc);
    let mut here = start;
    while far[here] > 0 {
        match step(rows, far, here) {
            Some(place) => {
                places.push(place)?;
                here = place;
            }
            None => return Ok(places),
        }
    }
    Ok(places)
}

/// The least place that is nearer by one than `here`.
fn step(rows: &[Vec<bool>], far: &[u32], here: usize) -> Option<usize>
    requires few { length rows.now < 2 ^ 32 }
    requires size { length far.now ≡ length rows.now }
    requires most { slice_index_or far.now here (length rows.now) ≤ length rows.now }
    requires inside { here < length rows.now }
    ensures { MatchOption result
        (NoneNext (cell (map (λ r. r.items) rows.now)) (length rows.now) far.now here)
        (λ y. IsNext (cell (map (λ r. r.items) rows.now)) (length rows.now) far.now here y) }
{
    next(rows[here].as_slice(), far, far[here])
}

/// The least place of a row that is nearer by one than `own`.
fn next(row: &[bool], far: &[u32], own: u32) -> Option<usize>
    requires few { length far.now < 2 ^ 32 }
    requires own { own ≤ length far.now }
    ensures { MatchOption result (NoneNextIn row.now (length far.now) far.now own)
        (λ y. IsNextIn row.now (length far.now) far.now own y) }
{
    for place in 0..far.len() {
        if place < row.len() && row[place] && far[place] < own && far[place] + 1 == own {
            return Some(place);
        }
    }
    None
}
