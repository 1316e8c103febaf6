//! Sweeps over small memories. Words are put together by hand: a capability with the rights of a heap
//! object and exponent 0 has the high word 0x76000000, B from bit 9 on and T from bit 0 on.

ghost use Rattle.std.specs.Prelude.{◌≡◌, ◌<◌, ◌≤◌, length, IsSome, unwrap_or};

use crate::seen::{at, is};
use ct_mem::{Memory, Plain};
use ct_revoke::{Front, sweep_all};
use def_words::{Cap, Shadow};
use std::alloc::{AllocError, Global};
use std::process::Abort;

const RAM: u32 = 0x8000_0000;

/// A tagged capability of a heap object.
fn tagged(word: u64) -> Cap {
    Cap {
        tag: true,
        word,
        shadow: Shadow { root: 7, source: 1 },
    }
}

fn untagged(word: u64) -> Cap {
    Cap {
        tag: false,
        word,
        shadow: Shadow { root: 0, source: 0 },
    }
}

/// What a granule holds, of eight.
fn holds<M: Memory>(rt: &impl Abort, memory: &M, granule: u32, cap: Cap)
    requires size { length (M.granules memory.now) ≡ 8 }
    requires place { granule < 8 }
{
    let found = memory.load_cap(8 * granule) == cap;
    at(rt, found, "granule", granule as u64);
}

/// A sweep of eight granules in one slice, from before it to behind it.
fn in_one_slice<M: Memory>(rt: &impl Abort, memory: &mut M)
    requires { length (M.granules memory.old) ≡ 8 }
    ensures { length (M.granules memory.new) ≡ 8 }
{
    let mut front = Front::idle();
    is(rt, !front.running(), "idle");
    is(rt, !front.finished(0), "idle and not finished");
    front.begin();
    is(rt, front.running(), "begun");
    is(rt, !front.finished(64), "begun and not finished");
    front.slice(memory, RAM, 8);
    is(rt, front.at() == 64, "at the end");
    is(rt, front.finished(64), "finished");
    front.end();
    is(rt, !front.running(), "ended");
}

/// An object of 40 bytes at 0x80000008, freed: its chunk is marked, and its capability stands in the
/// last granule. Another's stands before it.
fn one_sweep<M: Memory>(rt: &impl Abort, memory: &mut M)
    requires { length (M.granules memory.old) ≡ 8 }
{
    let (stale, other) = (0x7600_1030_8000_0008, 0x7600_6040_8000_0030);
    memory.mark(0, 48, true);
    memory.store_cap(48, tagged(other));
    memory.store_cap(56, tagged(stale));
    in_one_slice(rt, memory);
    holds(rt, memory, 7, untagged(stale));
    holds(rt, memory, 6, tagged(other));
    is(rt, memory.marked(47), "marked");
    is(rt, !memory.marked(48), "not marked");
}

#[test]
fn heap_swept_in_slices(rt: HostRuntime) {
    let mut memory = Plain::new(rt.alloc(), 64).expect(&rt, "memory");
    one_sweep(&rt, &mut memory);
}

/// Each of eight granules holds this word, tagged.
fn fill_with<M: Memory>(memory: &mut M, word: u64)
    requires { length (M.granules memory.old) ≡ 8 }
    ensures { length (M.granules memory.new) ≡ 8 }
{
    for k in 0..8u32 {
        memory.store_cap(8 * k, tagged(word));
    }
}

/// Slices of so many granules, and where each ends.
const SLICES: [(u32, u32); 4] = [(3, 24), (0, 24), (3, 48), (4_294_967_295, 64)];

/// The front stands there, and the next tagged granule too.
fn see_front<M: Memory>(rt: &impl Abort, memory: &M, front: &Front, end: u32) {
    let next = if end < 64 { Some(end) } else { None };
    at(rt, front.at() == end, "front", end as u64);
    let found = memory.next_tagged_below(0, 64) == next;
    at(rt, found, "next", end as u64);
    let found = front.finished(64) == (end == 64);
    at(rt, found, "finished", end as u64);
}

/// Each granule holds a capability over the marked first one. A slice takes the tags of so many, and
/// the last one ends where memory ends.
fn three_slices<M: Memory>(rt: &impl Abort, memory: &mut M)
    requires { length (M.granules memory.old) ≡ 8 }
{
    memory.mark(0, 8, true);
    fill_with(memory, 0x7600_0008_8000_0000);
    let mut front = Front::idle();
    front.begin();
    for (count, end) in &SLICES {
        front.slice(memory, RAM, *count);
        see_front(rt, memory, &front, *end);
    }
}

#[test]
fn a_slice_passes_its_granules(rt: HostRuntime) {
    let mut memory = Plain::new(rt.alloc(), 64).expect(&rt, "memory");
    three_slices(&rt, &mut memory);
}

/// Marked is the second granule. The first capability begins before it and points into it, the second
/// begins in it and points past it; of two more, one begins below RAM and one past its end.
fn by_the_base<M: Memory>(rt: &impl Abort, memory: &mut M)
    requires { length (M.granules memory.old) ≡ 8 }
{
    let (into, from) = (0x7600_0020_8000_0008, 0x7600_1020_8000_0018);
    let (below, past) = (0x7600_1020_7000_0008, 0x7600_9050_8000_0048);
    memory.mark(8, 16, true);
    memory.store_cap(0, tagged(into));
    memory.store_cap(16, tagged(from));
    memory.store_cap(24, tagged(below));
    memory.store_cap(32, tagged(past));
    memory.store_cap(40, untagged(from));
    sweep_all(memory, RAM);
    holds(rt, memory, 0, tagged(into));
    holds(rt, memory, 2, untagged(from));
    holds(rt, memory, 3, tagged(below));
    holds(rt, memory, 4, tagged(past));
    holds(rt, memory, 5, untagged(from));
}

#[test]
fn the_sweep_looks_at_the_base(rt: HostRuntime) {
    let mut memory = Plain::new(rt.alloc(), 64).expect(&rt, "memory");
    by_the_base(&rt, &mut memory);
}

fn next(seed: u32) -> u32 {
    seed.wrapping_mul(1_664_525).wrapping_add(1_013_904_223)
}

/// The base of a word with exponent 0, by the formula.
fn base_of(word: u64) -> u32 {
    let address = (word % 0x1_0000_0000) as u32;
    let low = (word / 0x200_0000_0000 % 512) as u32;
    let less = if address % 512 < low { 1 } else { 0 };
    (address / 512)
        .wrapping_sub(less)
        .wrapping_mul(512)
        .wrapping_add(low)
}

/// What a slice leaves in a granule.
fn plain_granule<M: Memory>(memory: &M, k: u32, low: u32, high: u32) -> Cap
    requires size { length (M.granules memory.now) ≡ 64 }
    requires place { k < 64 }
{
    let cap = memory.load_cap(8 * k);
    let at = base_of(cap.word).wrapping_sub(RAM);
    let stale = cap.tag && at < 512 && memory.marked(at);
    if stale && low <= 8 * k && 8 * k < high {
        untagged(cap.word)
    } else {
        cap
    }
}

/// What a slice leaves, by a look at each granule.
fn plain_body<M: Memory>(
    alloc: Global,
    memory: &M,
    low: u32,
    high: u32,
) -> Result<Vec<Cap>, AllocError>
    requires { length (M.granules memory.now) ≡ 64 }
{
    let mut all = Vec::new(alloc);
    for k in 0..64u32 {
        all.push(plain_granule(memory, k, low, high))?;
    }
    Ok(all)
}

/// A granule's mark and capability by a number: most bases lie in RAM or in the 512 bytes below it.
fn fill_granule<M: Memory>(memory: &mut M, k: u32, seed: u32) -> u32
    requires size { length (M.granules memory.old) ≡ 64 }
    requires place { k < 64 }
    ensures { length (M.granules memory.new) ≡ 64 }
{
    let first = next(seed);
    memory.mark(8 * k, 8 * k + 8, first / 65_536 % 3 == 0);
    let second = next(first);
    let low = u64::from(second / 65_536 % 512);
    let third = next(second);
    let address = u64::from(RAM) + u64::from(third / 65_536 % 640);
    let word = 0x7600_0000_0000_0000 + low * 0x200_0000_0000 + address;
    let cap = if third % 4 == 0 {
        untagged(word)
    } else {
        tagged(word)
    };
    memory.store_cap(8 * k, cap);
    third
}

/// Marks and capabilities of all granules by a number.
fn fill<M: Memory>(memory: &mut M, seed: u32) -> u32
    requires { length (M.granules memory.old) ≡ 64 }
    ensures { length (M.granules memory.new) ≡ 64 }
{
    let mut seed = seed;
    for k in 0..64u32 {
        seed = fill_granule(memory, k, seed);
    }
    seed
}

/// Memory holds what it must.
fn see_all<M: Memory>(rt: &impl Abort, memory: &M, due: &[Cap])
    requires { length (M.granules memory.now) ≡ 64 }
{
    for (k, cap) in due.iter().enumerate() {
        if k < 64 {
            let found = memory.load_cap(8 * k as u32) == *cap;
            at(rt, found, "granule", k as u64);
        }
    }
}

/// One slice of random memory beside the plain body.
fn random_slice<M: Memory>(
    rt: &(impl Abort + AllocGlobal),
    memory: &mut M,
    front: &mut Front,
    count: u32,
)
    requires size { length (M.granules memory.old) ≡ 64 }
    requires running { IsSome front.old }
    requires inside { unwrap_or front.old 0 ≤ 512 }
    requires count { count < 9 }
    ensures size { length (M.granules memory.new) ≡ 64 }
    ensures running { IsSome front.new }
    ensures inside { unwrap_or front.new 0 ≤ 512 }
{
    let low = front.at();
    let high = (low.wrapping_add(8 * count)).min(512);
    let due = plain_body(rt.alloc(), memory, low, high).expect(rt, "memory");
    front.slice(memory, RAM, count);
    see_all(rt, memory, due.as_slice());
    drop(due);
    is(rt, front.at() == high, "front");
}

/// A whole sweep of random memory, each slice beside the plain body.
fn random_sweep<M: Memory>(rt: &(impl Abort + AllocGlobal), memory: &mut M, seed: u32) -> u32
    requires { length (M.granules memory.old) ≡ 64 }
    ensures { length (M.granules memory.new) ≡ 64 }
{
    let mut seed = fill(memory, seed);
    let mut front = Front::idle();
    front.begin();
    for _slice in 0..64 {
        seed = next(seed);
        random_slice(rt, memory, &mut front, seed / 65_536 % 9);
    }
    seed
}

fn random_sweeps<M: Memory>(rt: &(impl Abort + AllocGlobal), memory: &mut M)
    requires { length (M.granules memory.old) ≡ 64 }
{
    let mut seed = 1;
    for _round in 0..20 {
        seed = random_sweep(rt, memory, seed);
    }
}

#[test]
fn slices_as_by_a_plain_body(rt: HostRuntime) {
    let mut memory = Plain::new(rt.alloc(), 512).expect(&rt, "memory");
    random_sweeps(&rt, &mut memory);
}
