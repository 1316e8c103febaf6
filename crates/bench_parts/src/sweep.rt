//! `sweep KIND SHARE COUNT`: slices of a sweep, many times. KIND is `plain` or `planes`, memory of 8 MiB; SHARE says
//! that every SHARE-th granule is a tagged capability (0: none), COUNT how many slices of 64 granules are made. The
//! capabilities lie over no mark, so that each sweep finds what the last one found.

ghost use Rattle.std.specs.Prelude.{◌≡◌, ◌≤◌, ◌*◌, ◌%◌, length, unwrap_or, IfOk};

use crate::failure::{Failure, written};
use crate::given::{number, word};
use ct_mem::{Memory, Plain};
use ct_planes::Planes;
use ct_revoke::Front;
use def_refusals::NoMemory;
use def_words::{Cap, Shadow};
use std::alloc::Global;

const RAM: u32 = 0x8000_0000;
/// The bytes of memory that is swept, and its granules.
const SIZE: u32 = 8_388_608;

const GRANULES: u32 = 1_048_576;
/// The granules that a slice passes.
const RATE: u32 = 64;

/// Every so many granules a capability of RAM's first eight bytes.
fn fill<M: Memory>(memory: &mut M, share: u32)
    requires { length (M.granules memory.old) ≡ 1048576 }
    ensures { length (M.granules memory.new) ≡ 1048576 }
{
    let cap = Cap {
        tag: true,
        word: 0x7600_0008_8000_0000,
        shadow: Shadow { root: 1, source: 1 },
    };
    for k in 0..GRANULES {
        if share > 0 && k % share == 0 {
            memory.store_cap(8 * k, cap);
        }
    }
}

/// Slices, one sweep after another; the sum of the fronts.
fn slices<M: Memory>(memory: &mut M, count: u32) -> u64
    requires { length (M.granules memory.old) ≡ 1048576 }
{
    let mut sum = 0u64;
    let mut front = Front::idle();
    for _ in 0..count {
        sum = sum.wrapping_add(one(memory, &mut front));
    }
    sum
}

/// One slice; a new sweep begins where none runs or the last one has come to the end.
fn one<M: Memory>(memory: &mut M, front: &mut Front) -> u64
    requires size { length (M.granules memory.old) ≡ 1048576 }
    requires inside { unwrap_or front.old 0 ≤ 8388608 }
    ensures size { length (M.granules memory.new) ≡ 1048576 }
    ensures inside { unwrap_or front.new 0 ≤ 8388608 }
{
    if front.finished(SIZE) {
        front.end();
    }
    if !front.running() {
        front.begin();
    }
    front.slice(memory, RAM, RATE);
    front.at() as u64
}

fn plain(alloc: Global, size: u32) -> Result<Plain, NoMemory>
    requires { size % 16 ≡ 0 }
    ensures { IfOk result (λ memory. 8 * length memory ≡ size) }
{
    Plain::new(alloc, size)
}

fn planes(alloc: Global, size: u32) -> Result<Planes, NoMemory>
    requires { size % 16 ≡ 0 }
    ensures { IfOk result (λ memory. 8 * length memory ≡ size) }
{
    Planes::new(alloc, size)
}

/// The sum of the fronts over so many slices of memory that is filled first.
fn swept<M: Memory>(memory: &mut M, share: u32, count: u32) -> u64
    requires { length (M.granules memory.old) ≡ 1048576 }
{
    fill(memory, share);
    slices(memory, count)
}

fn plain_run(alloc: Global, share: u32, count: u32) -> Result<u64, NoMemory> {
    let mut memory = plain(alloc, SIZE)?;
    Ok(swept(&mut memory, share, count))
}

fn planes_run(alloc: Global, share: u32, count: u32) -> Result<u64, NoMemory> {
    let mut memory = planes(alloc, SIZE)?;
    Ok(swept(&mut memory, share, count))
}

/// The sum of the fronts over so many slices.
fn run(alloc: Global, kind: &str, share: u32, count: u32) -> Result<u64, NoMemory> {
    if kind == "plain" {
        plain_run(alloc, share, count)
    } else {
        planes_run(alloc, share, count)
    }
}

/// Measures as many slices as the words say.
pub fn measure(rt: &HostRuntime, words: &[String]) -> Result<(), Failure> {
    let (kind, share, count) = (word(words, 0), number(words, 1), number(words, 2));
    let Ok(sum) = run(rt.alloc(), kind, share, count) else {
        return Err(Failure::Unmeasured);
    };
    written(println!(rt; "{kind} {share} {count}: {sum}"))
}
