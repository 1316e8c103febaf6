//! How far each place is from one, over the rows of a graph: level by level, so that each place that
//! is reached tells those that have a step to it once.

ghost use Rattle.std.specs.Prelude.{ℕ, ◌≡◌, ◌+◌, ◌<◌, ◌^◌, ◌&&◌, List, Bool, nat_eq, map, length, IfOk, slice_index_or, slice_set, if◌then◌else◌};
ghost use Rattle.ct_graph.specs.Cells.{cell, HasLevels, IsDistance, IsLevel, IsSpread, Relaxed};

use crate::nodes::cell_at;
use std::alloc::{AllocError, Global};

/// The distance of every place to `end` along the rows, which say where each place goes; the number
/// of places stands for never.
pub(crate) fn distances(
    alloc: Global,
    rows: &[Vec<bool>],
    end: usize,
) -> Result<Vec<u32>, AllocError>
    requires end { end < length rows.now }
    requires few { length rows.now < 2 ^ 32 }
    ensures { IfOk result
        (λ v. IsDistance (cell (map (λ r. r.items) rows.now)) (length rows.now) end v.items) }
{
    let never = rows.len() as u32;
    let mut far = vec![in alloc; never; rows.len()]?;
    far[end] = 0;
    for near in 0..never {
        level(rows, &mut far, near);
    }
    Ok(far)
}

/// The places that are `near` far tell those that have a step to one of them.
fn level(rows: &[Vec<bool>], far: &mut Vec<u32>, near: u32)
    requires few { length rows.now < 2 ^ 32 }
    requires size { length far.old.items ≡ length rows.now }
    requires near { near < length rows.now }
    ensures size { length far.new.items ≡ length rows.now }
    ensures levels { (b : ℕ)
        → HasLevels (cell (map (λ r. r.items) rows.now)) (length rows.now) b near far.old.items
        → HasLevels (cell (map (λ r. r.items) rows.now)) (length rows.now) b (near + 1)
        far.new.items }
{
    for place in 0..rows.len() {
        level_at(rows, far, place, near);
    }
}

/// The same of one place, where it is `near` far.
fn level_at(rows: &[Vec<bool>], far: &mut Vec<u32>, place: usize, near: u32)
    requires few { length rows.now < 2 ^ 32 }
    requires size { length far.old.items ≡ length rows.now }
    requires near { near < length rows.now }
    requires inside { place < length rows.now }
    ensures size { length far.new.items ≡ length rows.now }
    ensures level { (b : ℕ)
        → IsLevel (cell (map (λ r. r.items) rows.now)) (length rows.now) b near place
        far.old.items
        → IsLevel (cell (map (λ r. r.items) rows.now)) (length rows.now) b near (place + 1)
        far.new.items }
{
    if !is_at(far.as_slice(), place, near) {
        return;
    }
    spread(rows, far, place, near);
}

/// Whether a place is just so far.
fn is_at(far: &[u32], place: usize, near: u32) -> bool
    requires { place < length far.now }
    ensures { result ≡ nat_eq (slice_index_or far.now place (length far.now)) near }
{
    far[place] == near
}

/// The places that aren't reached yet and have a step to one that is `near` far are one farther.
fn spread(rows: &[Vec<bool>], far: &mut Vec<u32>, place: usize, near: u32)
    requires few { length rows.now < 2 ^ 32 }
    requires size { length far.old.items ≡ length rows.now }
    requires near { near < length rows.now }
    ensures size { length far.new.items ≡ length rows.now }
    ensures spreads { (b : ℕ)
        → Relaxed (cell (map (λ r. r.items) rows.now)) (length rows.now) b far.old.items
        → slice_index_or far.old.items place (length rows.now) ≡ near
        → IsSpread (cell (map (λ r. r.items) rows.now)) (length rows.now) b place near
        (length rows.now) far.old.items far.new.items }
{
    for other in 0..rows.len() {
        tell(rows, far, other, place, near);
    }
}

/// One place is one farther than another that is `near` far, if it isn't reached yet and has a step
/// to it.
fn tell(rows: &[Vec<bool>], far: &mut Vec<u32>, other: usize, place: usize, near: u32)
    requires few { length rows.now < 2 ^ 32 }
    requires size { length far.old.items ≡ length rows.now }
    requires near { near < length rows.now }
    requires inside { other < length rows.now }
    ensures size { length far.new.items ≡ length rows.now }
    ensures told { far.new.items
        ≡ (if nat_eq (slice_index_or far.old.items other (length rows.now)) (length rows.now)
        && cell (map (λ r. r.items) rows.now) other place
        then slice_set far.old.items other (near + 1)
        else far.old.items) }
{
    if !is_next(rows, far.as_slice(), other, place) {
        return;
    }
    far[other] = near + 1;
}

/// Whether a place isn't reached yet and has a step to another.
fn is_next(rows: &[Vec<bool>], far: &[u32], other: usize, place: usize) -> bool
    requires few { length rows.now < 2 ^ 32 }
    requires size { length far.now ≡ length rows.now }
    requires inside { other < length rows.now }
    ensures { result
        ≡ (nat_eq (slice_index_or far.now other (length rows.now)) (length rows.now)
        && cell (map (λ r. r.items) rows.now) other place) }
{
    far[other] == rows.len() as u32 && cell_at(rows, other, place)
}
