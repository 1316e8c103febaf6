//! How threads start: stopped before their first step, with one frame each.

ghost use Rattle.std.specs.Prelude.{ℕ, ◌≡◌, ◌*◌, ◌<◌, true, false, length, replicate, IfOk};
ghost use Rattle.def_memory.specs.Granules.{plain, cap_in};
ghost use Rattle.ct_engine.specs.Seen.{region_hides};
ghost use Rattle.ct_engine.specs.Starts.{AreFresh, HaveBegun, MayStart, started};

use crate::engine::Engine;
use crate::rows::{Region, Rows};
use ct_areas::{Fresh, Thread};
use ct_heap::Heap;
use ct_mem::Memory;
use ct_revoke::Front;
use ct_threads::begin;
use ct_token::Tokens;
use def_refusals::NoMemory;
use std::alloc::Global;

/// Threads start in the order of their numbers, each stopped. The one error is `NoMemory`.
fn begin_all<M: Memory>(
    alloc: Global,
    mem: &mut M,
    region: Region,
    fresh: &[Fresh],
) -> Result<Vec<Thread>, NoMemory>
    requires fresh { AreFresh region.ram (8 * length (M.granules mem.old)) region.trusted region.end
        fresh.now }
    requires clear { (k : ℕ) → region_hides region k ≡ true
        → cap_in (M.granules mem.old) k ≡ plain 0 }
    ensures { IfOk result (λ list. HaveBegun region (M.granules mem.old) (M.granules mem.new)
        list.items fresh.now) }
{
    let mut list = Vec::with_capacity(alloc, fresh.len())?;
    for i in 0..fresh.len() {
        let row = begin(mem, &fresh[i]);
        list.push(row)?;
    }
    Ok(list)
}

/// So many times `false`: no thread's program counter capability and registers stand in its row. The one error is
/// `NoMemory`.
fn none_standing(alloc: Global, threads: usize) -> Result<Vec<bool>, NoMemory>
    ensures { IfOk result (λ standing. standing.items ≡ replicate threads false) }
{
    let mut standing = Vec::new(alloc);
    standing.resize(threads, false)?;
    Ok(standing)
}

impl<M: Memory + Drop> Engine<M> {
    /// Threads that start, stopped before their first step, in the order of their numbers, over a memory whose trusted
    /// region and whose heap read as zero; the heap, in which there is no object, is laid. The one error is `NoMemory`.
    pub fn start(
        alloc: Global,
        memory: M,
        region: Region,
        fresh: &[Fresh],
        heap: Heap,
    ) -> Result<Engine<M>, NoMemory>
        requires { MayStart (M.granules memory) region fresh.now heap }
        ensures { IfOk result (λ e. e ≡ started (M.granules memory) region fresh.now heap) }
    {
        let mut mem = memory;
        let list = begin_all(alloc, &mut mem, region, fresh)?;
        let standing = none_standing(alloc, list.len())?;
        let tokens = Tokens::new(alloc, heap.length())?;
        let mut heap = heap;
        heap.lay(&mut mem);
        let rows = Rows {
            region,
            list,
            running: None,
            standing,
            loose: false,
            heap,
            front: Front::idle(),
            tokens,
        };
        Ok(Engine { mem, rows })
    }
}
