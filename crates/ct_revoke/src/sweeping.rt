//! The granules of a range pass the load filter.

ghost use Rattle.std.specs.Prelude.{ℕ, ◌≡◌, ◌+◌, ◌*◌, ◌≤◌, ◌<◌, length};
ghost use Rattle.def_memory.specs.Accesses.{IsPlace, loaded_cap, stored_cap};
ghost use Rattle.def_machine.specs.Memory.{filtered_in};
ghost use Rattle.ct_revoke.specs.Slices.{CleanFrom, IsSliced, SlicesHeap};

use ct_cap::{expand, shrink};
use ct_loadstore::filter;
use ct_mem::Memory;

/// Takes the tag of every capability in RAM whose base lies in a marked granule, and changes nothing
/// else. RAM begins at the address `ram`.
///
/// Marks stand on granules of the heap alone, so no more of the heap need be known.
pub fn sweep_all<M: Memory>(mem: &mut M, ram: u32)
    ensures sliced { IsSliced ram 0 (8 * length (M.granules mem.old)) (M.granules mem.old)
        (M.granules mem.new) }
    ensures heap { SlicesHeap ram 0 (8 * length (M.granules mem.old)) (M.granules mem.old)
        (M.granules mem.new) }
    ensures clean { CleanFrom ram 0 (8 * length (M.granules mem.old)) (M.granules mem.new) }
{
    let size = mem.size();
    pass(mem, ram, 0, size);
}

/// The tagged granules from one offset to another pass the load filter, least first.
pub(crate) fn pass<M: Memory>(mem: &mut M, ram: u32, low: u32, high: u32)
    ensures { IsSliced ram low high (M.granules mem.old) (M.granules mem.new) }
{
    let end = high.min(mem.size());
    let mut at = low;
    while let Some(found) = mem.next_tagged_below(at, end) {
        pass_one(mem, ram, found);
        at = found + 8;
    }
}

/// The capability of a granule passes the load filter.
///
/// Only one that loses its tag is written back. That is for speed alone: to write the others back changes nothing.
fn pass_one<M: Memory>(mem: &mut M, ram: u32, at: u32)
    requires { IsPlace (8 * length (M.granules mem.old)) at }
    ensures { M.granules mem.new
        ≡ stored_cap (M.granules mem.old) at
        (filtered_in ram (M.granules mem.old) (loaded_cap (M.granules mem.old) at)) }
{
    let passed = filter(mem, ram, expand(mem.load_cap(at)));
    if !passed.cap.tag {
        mem.store_cap(at, shrink(passed));
    }
}
