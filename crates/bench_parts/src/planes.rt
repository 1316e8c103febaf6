//! `planes KIND WORK COUNT`: calls of memory, many times. KIND is `plain`, `planes` or `array`, an array of Rust's
//! own with words of eight bytes; WORK is `load`, `store` or `cap`, a load of a capability, on 64 KiB. WORK `make`
//! makes memory of COUNT bytes and writes all of it.

ghost use Rattle.std.specs.Prelude.{◌≡◌, ◌<◌, ◌%◌, ◌*◌, length};

use crate::failure::{Failure, written};
use crate::given::{number, word};
use ct_mem::{Memory, Plain};
use ct_planes::Planes;
use def_refusals::NoMemory;
use def_words::{Cap, Shadow};
use std::alloc::Global;

/// The bytes of memory that is read and written.
const SIZE: u32 = 65536;

/// A place in memory, another one each time.
fn place(k: u32) -> u32
    ensures aligned { result % 8 ≡ 0 }
    ensures inside { result < 65536 }
{
    k.wrapping_mul(0x9E37_79B1) / 8192 % 8192 * 8
}

fn loads<M: Memory>(memory: &M, count: u32) -> u64
    requires { length (M.granules memory.now) ≡ 8192 }
{
    let mut sum = 0u64;
    for k in 0..count {
        sum = sum.wrapping_add(memory.load(place(k) + k % 2 * 4, 4) as u64);
    }
    sum
}

fn stores<M: Memory>(memory: &mut M, count: u32)
    requires { length (M.granules memory.old) ≡ 8192 }
    ensures { length (M.granules memory.new) ≡ 8192 }
{
    for k in 0..count {
        memory.store(place(k) + k % 2 * 4, 4, k);
    }
}

fn cap_loads<M: Memory>(memory: &M, count: u32) -> u64
    requires { length (M.granules memory.now) ≡ 8192 }
{
    let mut sum = 0u64;
    for k in 0..count {
        let cap = memory.load_cap(place(k));
        if cap.tag {
            sum = sum.wrapping_add(1);
        }
        sum = sum
            .wrapping_add(cap.word)
            .wrapping_add(cap.shadow.source as u64);
    }
    sum
}

/// Every fourth granule is a tagged capability, so that a load meets both.
fn fill<M: Memory>(memory: &mut M)
    requires { length (M.granules memory.old) ≡ 8192 }
    ensures { length (M.granules memory.new) ≡ 8192 }
{
    for k in 0..2048u32 {
        let shadow = Shadow { root: 1, source: k };
        let cap = Cap {
            tag: true,
            word: k as u64,
            shadow,
        };
        memory.store_cap(32 * k, cap);
    }
}

/// The work on a memory of 64 KiB.
fn work<M: Memory>(memory: &mut M, work: &str, count: u32) -> u64
    requires { length (M.granules memory.old) ≡ 8192 }
{
    fill(memory);
    if work == "load" {
        return loads(memory, count);
    }
    if work == "cap" {
        return cap_loads(memory, count);
    }
    stores(memory, count);
    loads(memory, 1)
}

/// The same on an array of words; a capability is such a word.
fn array_work(words: &mut [u64], work: &str, count: u32) -> u64
    requires { length words.old ≡ 8192 }
{
    let mut sum = 0u64;
    if work == "store" {
        for k in 0..count {
            words[(place(k) / 8) as usize] = k as u64;
        }
        return words[0];
    }
    for k in 0..count {
        sum = sum.wrapping_add(words[(place(k) / 8) as usize]);
    }
    sum
}

/// Memory of which every byte and every mark was written.
fn fresh<M: Memory>(mut memory: M) -> M {
    let size = memory.size();
    memory.zero(0, size);
    memory.mark(0, size, true);
    memory
}

/// The first tagged granule of new plain memory.
fn plain_made(alloc: Global, count: u32) -> Result<u64, NoMemory> {
    let size = count - count % 16;
    let next = fresh(Plain::new(alloc, size)?).next_tagged(0);
    Ok(next.unwrap_or(0) as u64)
}

/// The first tagged granule of new memory in planes.
fn planes_made(alloc: Global, count: u32) -> Result<u64, NoMemory> {
    let size = count - count % 16;
    let next = fresh(Planes::new(alloc, size)?).next_tagged(0);
    Ok(next.unwrap_or(0) as u64)
}

/// What the work on plain memory adds up.
fn plain_run(alloc: Global, task: &str, count: u32) -> Result<u64, NoMemory> {
    Ok(work(&mut Plain::new(alloc, SIZE)?, task, count))
}

/// What the work on memory in planes adds up.
fn planes_run(alloc: Global, task: &str, count: u32) -> Result<u64, NoMemory> {
    Ok(work(&mut Planes::new(alloc, SIZE)?, task, count))
}

/// What the work on an array of words adds up.
fn array_run(alloc: Global, task: &str, count: u32) -> Result<u64, NoMemory> {
    let mut words = vec![in alloc; 0u64; 8192]?;
    Ok(array_work(&mut words, task, count))
}

/// What a run adds up, or the first tagged granule of new memory.
fn run(alloc: Global, kind: &str, task: &str, count: u32) -> Result<u64, NoMemory> {
    if task == "make" {
        return if kind == "plain" {
            plain_made(alloc, count)
        } else {
            planes_made(alloc, count)
        };
    }
    match kind {
        "plain" => plain_run(alloc, task, count),
        "planes" => planes_run(alloc, task, count),
        _ => array_run(alloc, task, count),
    }
}

/// Measures memory at the work that the words say.
pub fn measure(rt: &HostRuntime, words: &[String]) -> Result<(), Failure> {
    let (kind, task, count) = (word(words, 0), word(words, 1), number(words, 2));
    let Ok(sum) = run(rt.alloc(), kind, task, count) else {
        return Err(Failure::Unmeasured);
    };
    written(println!(rt; "{kind} {task} {count}: {sum}"))
}
