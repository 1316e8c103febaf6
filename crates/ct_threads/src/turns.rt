//! A stop and a pick.

ghost use Rattle.std.specs.Prelude.{◌≡◌, ◌<◌, true, false, length};
ghost use Rattle.def_machine.specs.Memory.{filtered_in};
ghost use Rattle.def_machine.specs.Threads.{picked_with};
ghost use Rattle.def_areas.specs.Touches.{Touches};
ghost use Rattle.ct_areas.specs.Threads.{area_begin, area_end, thread_of};
ghost use Rattle.ct_threads.specs.Kept.{IsKept};

use ct_areas::{Thread, resume, save};
use ct_cap::Live;
use ct_mem::Memory;

/// There are sixteen registers.
fn sixteen(registers: &[Live; 16])
    ensures { length registers.now ≡ 16 }
{}

/// A thread that stands in its row is put away: its area takes its program counter capability and its registers.
///
/// Condition: the row is kept.
#[tactic(auto, using(crate::proofs::Clean::stopped_kept))]
pub fn stop_row<M: Memory>(t: &mut Thread, mem: &mut M)
    requires { IsKept (M.granules mem.old) true t.old }
    ensures kept { IsKept (M.granules mem.new) false t.new }
    ensures area { t.new.area ≡ t.old.area }
    ensures thread { thread_of (M.granules mem.new) false t.new
        ≡ thread_of (M.granules mem.old) true t.old }
    ensures touches { Touches (area_begin t.old.area) (area_end t.old.area) (M.granules mem.old)
        (M.granules mem.new) }
{
    sixteen(&t.regs);
    save(t, mem);
}

/// A thread that doesn't stand in its row, and hasn't ended, goes on: its area gives back what it took, through the
/// load filter.
///
/// Conditions: the row is kept, and a frame stands at least.
#[tactic(auto, using(crate::proofs::Clean::picked_kept))]
pub fn pick_row<M: Memory>(t: &mut Thread, mem: &mut M)
    requires kept { IsKept (M.granules mem.old) false t.old }
    requires alive { 0 < t.old.depth }
    ensures kept { IsKept (M.granules mem.new) true t.new }
    ensures area { t.new.area ≡ t.old.area }
    ensures thread { thread_of (M.granules mem.new) true t.new
        ≡ picked_with (filtered_in t.old.area.ram (M.granules mem.old))
        (thread_of (M.granules mem.old) false t.old) }
    ensures touches { Touches (area_begin t.old.area) (area_end t.old.area) (M.granules mem.old)
        (M.granules mem.new) }
{
    resume(t, mem);
}
