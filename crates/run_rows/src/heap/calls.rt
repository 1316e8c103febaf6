//! Random calls, and what each is answered.

ghost use Rattle.std.specs.Prelude.{◌<◌};

use crate::common::{add, truth};
use crate::heap::swept::{Slice, Swept};
use crate::heap::told::{add_allocated, add_begun, add_found, add_freed, add_left};
use ct_heap::Object;
use std::alloc::{AllocError, Global};

/// Slots for capabilities below the heap.
const SLOTS: u32 = 32;

/// The next random number.
fn next(seed: u64) -> u64 {
    let a = seed ^ seed.wrapping_shl(13);
    let b = a ^ a.wrapping_shr(7);
    b ^ b.wrapping_shl(17)
}

/// Some bits of a random number, below a bound that isn't 0.
fn part(seed: u64, shift: u32, bound: u32) -> u32
    requires { 0 < bound }
    ensures { result < bound }
{
    (seed.wrapping_shr(shift) % bound as u64) as u32
}

/// An object's bounds and its quota.
#[derive(Clone, Copy, Drop)]
pub struct Made {
    base: u32,
    top: u64,
    quota: u32,
}

/// A heap, and the objects that were made of it by random calls.
#[derive(Drop)]
pub struct Tried {
    pub swept: Swept,
    pub made: Vec<Made>,
}

/// One of the last 24 objects that were made, or none.
fn some_made(made: &[Made], seed: u64) -> Made {
    let none = Made {
        base: 0,
        top: 0,
        quota: 0,
    };
    let last = (made.len() as u64).min(24);
    let back = match seed.wrapping_shr(16).checked_rem(last) {
        Some(back) => back as usize,
        None => return none,
    };
    match made.get(made.len().saturating_sub(1).saturating_sub(back)) {
        Some(object) => *object,
        None => none,
    }
}

/// Its bounds and its quota, of sixteen times thirteen as they are.
fn some_bounds(made: &[Made], seed: u64) -> Made {
    let mut object = some_made(made, seed);
    if made.len() == 0 {
        return object;
    }
    match part(seed, 48, 16) {
        0 => object.base = object.base.wrapping_add(8),
        1 => object.top = object.top.saturating_sub(8),
        2 => object.top = object.top.saturating_add(8),
        3 => object.quota = part(seed, 8, 3),
        _ => {}
    }
    object
}

/// An object of a quota was made: its capability goes into a slot.
fn keep(run: &mut Tried, quota: u32, slot: u32, object: Object) -> Result<(), AllocError> {
    let base = object.base;
    let top = base as u64 + object.length as u64;
    run.made.push(Made { base, top, quota })?;
    run.swept.keep(slot, object);
    Ok(())
}

/// An allocation.
fn allocate(alloc: Global, run: &mut Tried, seed: u64, out: &mut String) -> Result<(), AllocError> {
    let quota = part(seed, 8, 3);
    let most = if seed % 16 == 4 { 9000 } else { 1000 };
    let size = part(seed, 16, most);
    let answer = run.swept.allocate(quota, size);
    if let Ok(object) = answer {
        keep(run, quota, part(seed, 40, SLOTS), object)?;
    }
    add(format!(in alloc; "allocate {quota} {size}: "), out)?;
    add_allocated(alloc, answer, out)
}

/// A free.
fn free(alloc: Global, run: &mut Tried, seed: u64, out: &mut String) -> Result<(), AllocError> {
    let Made { base, top, quota } = some_bounds(run.made.as_slice(), seed);
    let answer = run.swept.free(quota, base, top);
    add(format!(in alloc; "free {quota} {base} {top}: "), out)?;
    add_freed(alloc, answer, out)
}

/// A look-up.
fn find(alloc: Global, run: &Tried, seed: u64, out: &mut String) -> Result<(), AllocError> {
    let Made { base, top, .. } = some_bounds(run.made.as_slice(), seed);
    let answer = run.swept.find(base, top);
    add(format!(in alloc; "find {base} {top}: "), out)?;
    add_found(alloc, answer, out)
}

/// A capability goes from one slot to another.
fn move_one(
    alloc: Global,
    swept: &mut Swept,
    seed: u64,
    out: &mut String,
) -> Result<(), AllocError> {
    let (from, to) = (part(seed, 16, SLOTS), part(seed, 40, SLOTS));
    swept.move_to(from, to);
    let tagged = truth(swept.is_tagged(to));
    add(format!(in alloc; "move {from} {to}: {tagged}\n"), out)
}

/// Where a sweep has come to RAM's end, which slots are still tagged; then the painted objects leave.
fn end(alloc: Global, swept: &mut Swept, out: &mut String) -> Result<(), AllocError> {
    out.push_str("ended, tagged")?;
    for slot in 0..SLOTS {
        if swept.is_tagged(slot) {
            add(format!(in alloc; " {slot}"), out)?;
        }
    }
    let flushed = truth(swept.flush());
    add(format!(in alloc; ", flushed {flushed}\n"), out)
}

/// A slice of a sweep.
fn slice(alloc: Global, swept: &mut Swept, seed: u64, out: &mut String) -> Result<(), AllocError> {
    let count = part(seed, 16, 1500);
    add(format!(in alloc; "slice {count}: "), out)?;
    match swept.slice(count) {
        Slice::Idle => out.push_str("none runs\n"),
        Slice::To(at) => add(format!(in alloc; "{at}\n"), out),
        Slice::Ended => end(alloc, swept, out),
    }
}

/// One random call.
fn call(alloc: Global, run: &mut Tried, seed: u64, out: &mut String) -> Result<(), AllocError> {
    match seed % 16 {
        0 => add_begun(alloc, &mut run.swept, out),
        1 | 2 | 3 => slice(alloc, &mut run.swept, seed, out),
        4 | 5 | 6 | 7 | 8 => allocate(alloc, run, seed, out),
        9 | 10 | 11 | 12 => free(alloc, run, seed, out),
        13 => move_one(alloc, &mut run.swept, seed, out),
        14 => add_left(alloc, &run.swept, out),
        _ => find(alloc, run, seed, out),
    }
}

/// Adds the lines of so many random calls.
pub fn add_random(
    alloc: Global,
    run: &mut Tried,
    first: u64,
    count: u32,
    out: &mut String,
) -> Result<(), AllocError> {
    let mut seed = first.wrapping_add(0x9E37_79B9_7F4A_7C15);
    for _ in 0..count {
        seed = next(seed);
        call(alloc, run, seed, out)?;
    }
    Ok(())
}
