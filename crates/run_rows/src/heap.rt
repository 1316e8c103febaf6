//! Tells the answers of a heap with a revoker beside it: of three heaps worked out by hand, and to three times a
//! thousand random calls, as reference/heap.py works them out apart from it.

ghost use Rattle.std.specs.Prelude.{◌≡◌, ◌≤◌, ◌<◌, ◌%◌, ◌+◌, ◌^◌};

mod calls;
mod swept;
mod told;
mod worked;

use crate::common::{Failure, print_lines};
use calls::{Tried, add_random};
use def_refusals::NoMemory;
use std::alloc::{AllocError, Global};
use swept::Swept;
use worked::{Row, add_worked, alone, nothing, places};

/// How many random calls are made of one heap.
const COUNT: u32 = 1000;

/// What is done with a heap: calls worked out by hand, or random calls from a seed on.
#[derive(Clone, Copy)]
enum Work {
    Worked(&'static [Row]),
    Random(u64),
}

/// Adds the lines of calls of a heap.
fn add_work(
    alloc: Global,
    run: &mut Tried,
    work: Work,
    out: &mut String,
) -> Result<(), AllocError> {
    match work {
        Work::Worked(rows) => add_worked(alloc, &mut run.swept, rows, out),
        Work::Random(seed) => add_random(alloc, run, seed, COUNT, out),
    }
}

/// Adds the lines of a heap of so many bytes, which begins at an offset in RAM of so many bytes; what each quota may
/// take.
fn add_heap(
    alloc: Global,
    size: u32,
    low: u32,
    length: u32,
    limit: u32,
    work: Work,
    out: &mut String,
) -> Result<(), NoMemory>
    requires whole { size % 16 ≡ 0 }
    requires even { low % 16 ≡ 0 }
    requires length { length % 16 ≡ 0 }
    requires inside { low + length ≤ size }
    requires small { size < 2 ^ 20 }
{
    let swept = Swept::new(alloc, size, low, length, limit)?;
    let mut run = Tried {
        swept,
        made: Vec::new(alloc),
    };
    add_work(alloc, &mut run, work, out)?;
    Ok(())
}

/// Adds the lines of all heaps.
fn add_heaps(alloc: Global, out: &mut String) -> Result<(), NoMemory> {
    add_heap(alloc, 64, 0, 64, 200, Work::Worked(alone()), out)?;
    add_heap(alloc, 4096, 0x550, 2736, 64, Work::Worked(places()), out)?;
    add_heap(alloc, 64, 64, 0, 200, Work::Worked(nothing()), out)?;
    for seed in [1u64, 2, 3] {
        add_heap(alloc, 33024, 256, 32768, 12000, Work::Random(seed), out)?;
    }
    Ok(())
}

/// Prints the table's lines.
pub fn run(rt: &HostRuntime) -> Result<(), Failure> {
    let alloc = rt.alloc();
    let mut out = String::new(alloc);
    add_heaps(alloc, &mut out)?;
    print_lines(rt, out.as_str())
}
