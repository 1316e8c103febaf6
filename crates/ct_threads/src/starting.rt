//! How a thread starts: stopped before its first step, with one frame.

ghost use Rattle.std.specs.Prelude.{ℕ, ◌≡◌, ◌*◌, ◌≤◌, ◌<◌, false, length};
ghost use Rattle.def_memory.specs.Granules.{plain, cap_in};
ghost use Rattle.def_areas.specs.Touches.{Touches};
ghost use Rattle.ct_areas.specs.Threads.{area_begin, area_end, thread_of};
ghost use Rattle.ct_areas.specs.Starts.{first_of};
ghost use Rattle.ct_threads.specs.Kept.{IsKept};
ghost use Rattle.ct_threads.specs.Starts.{IsFresh};

use crate::turns::stop_row;
use ct_areas::{Fresh, Thread};
use ct_mem::Memory;

/// One thread starts, stopped, with one frame.
///
/// Conditions: its area and its stack lie in RAM as they have to, and its area holds untagged zeros.
#[tactic(auto, using(crate::proofs::Starts::fresh_kept))]
pub fn begin<M: Memory>(mem: &mut M, fresh: &Fresh) -> Thread
    requires fresh { IsFresh (8 * length (M.granules mem.old)) fresh.now }
    requires clear { (k : ℕ) → area_begin fresh.now.area ≤ k → k < area_end fresh.now.area
        → cap_in (M.granules mem.old) k ≡ plain 0 }
    ensures kept { IsKept (M.granules mem.new) false result }
    ensures area { result.area ≡ fresh.now.area }
    ensures thread { thread_of (M.granules mem.new) false result ≡ first_of fresh.now }
    ensures touches { Touches (area_begin fresh.now.area) (area_end fresh.now.area)
        (M.granules mem.old) (M.granules mem.new) }
{
    let mut row = Thread::new(mem, fresh);
    stop_row(&mut row, mem);
    row
}
