//! `heap WORK COUNT NUMBER`: a quota heap over memory in planes.
//!
//! `last` puts NUMBER objects of 56 bytes into a heap of 64 MiB and frees and flushes every other one; then it
//! takes an object that fits only behind all these gaps and frees it, COUNT times. `first` does the same with
//! one that fits into the first gap, and a flush is made where there is none left. `flush` makes COUNT flushes.

use crate::failure::{Failure, written};
use crate::given::{number, word};
use crate::laden::Laden;
use def_refusals::NoMemory;
use std::alloc::Global;

/// Bytes of the heap.
const LARGE: u32 = 0x0400_0000;

/// A heap with so many gaps between objects of 56 bytes.
fn with_gaps(alloc: Global, gaps: u32) -> Result<Laden, NoMemory> {
    let mut heap = Laden::new(alloc, LARGE, LARGE)?;
    for k in 0..gaps {
        let quota = k % 2;
        if let Ok(object) = heap.allocate(quota, 56) {
            if quota == 1 {
                let _freed = heap.free(1, object.base, object.base as u64 + object.length as u64);
            }
        }
    }
    heap.paint();
    heap.flush();
    Ok(heap)
}

/// Takes an object of a size and frees it, so many times; the sum of their addresses.
fn turns(heap: &mut Laden, count: u32, size: u32) -> u64 {
    let mut sum = 0u64;
    for _ in 0..count {
        match heap.allocate(2, size) {
            Ok(object) => {
                sum = sum.wrapping_add(object.base as u64);
                let _freed = heap.free(2, object.base, object.base as u64 + object.length as u64);
            }
            Err(_) => {
                heap.paint();
                heap.flush();
            }
        }
    }
    sum
}

/// So many flushes; after how many of them nothing was quarantined.
fn flushes(heap: &mut Laden, count: u32) -> u64 {
    let mut sum = 0u64;
    for _ in 0..count {
        heap.flush();
        if !heap.quarantined() {
            sum = sum.saturating_add(1);
        }
    }
    sum
}

/// The work on a heap with gaps.
fn worked(heap: &mut Laden, work: &str, count: u32) -> u64 {
    if work == "flush" {
        return flushes(heap, count);
    }
    let size = if work == "last" { 64 } else { 56 };
    turns(heap, count, size)
}

fn run(alloc: Global, work: &str, count: u32, number: u32) -> Result<u64, NoMemory> {
    let mut heap = with_gaps(alloc, number)?;
    let sum = worked(&mut heap, work, count);
    drop(heap);
    Ok(sum)
}

/// Measures a heap at the work that the words say.
pub fn measure(rt: &HostRuntime, words: &[String]) -> Result<(), Failure> {
    let (work, count, first) = (word(words, 0), number(words, 1), number(words, 2));
    let Ok(sum) = run(rt.alloc(), work, count, first) else {
        return Err(Failure::Unmeasured);
    };
    written(println!(rt; "{work} {count} {first}: {sum}"))
}
