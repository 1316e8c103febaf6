//! A pick, and when threads are put away.

ghost use Rattle.std.specs.Prelude.{◌≡◌, ◌≢◌, ◌<◌, ℕ, true, false, length};
ghost use Rattle.def_machine.specs.Slices.{is_number};
ghost use Rattle.def_machine.specs.Memory.{filtered_in};
ghost use Rattle.ct_engine.specs.Kept.{IsEngine, OnlyRunnerStands};
ghost use Rattle.ct_engine.specs.Seen.{engine_view, stands};
ghost use Rattle.def_machine.specs.Threads.{picked_with};
ghost use Rattle.def_areas.specs.Touches.{Touches};
ghost use Rattle.ct_areas.specs.Threads.{area_begin, area_end, thread_of};
ghost use Rattle.ct_threads.specs.Kept.{IsKept};

use crate::rows::Rows;
use ct_areas::Thread;
use ct_loadstore::filter_in_place;
use ct_mem::Memory;
use ct_threads::{filter_row, pick_row, stop_row};

/// Whether the thread with this number runs.
fn runs(rows: &Rows, t: usize) -> bool
    ensures { result ≡ is_number rows.now.running t }
{
    match rows.running {
        Some(r) => r as usize == t,
        None => false,
    }
}

/// Where a thread doesn't run and stands in its row, its program counter capability and its registers go to its area.
fn put_away<M: Memory>(rows: &mut Rows, mem: &mut M, t: usize)
    requires holds { IsEngine (M.granules mem.old) rows.old }
    requires there { t < length rows.old.list.items }
    ensures holds { IsEngine (M.granules mem.new) rows.new }
    ensures seen { engine_view (M.granules mem.new) rows.new
        ≡ engine_view (M.granules mem.old) rows.old }
    ensures away { is_number rows.old.running t ≡ false
        → stands rows.new.standing.items t ≡ false }
    ensures others { (u : ℕ) → u ≢ t
        → stands rows.new.standing.items u ≡ stands rows.old.standing.items u }
{
    if runs(rows, t) {
        return;
    }
    if rows.standing[t] {
        stop_row(&mut rows.list[t], mem);
        rows.standing[t] = false;
    }
}

/// Of all threads that don't run, what stands in their rows goes to their areas.
pub(crate) fn settle<M: Memory>(rows: &mut Rows, mem: &mut M)
    requires { IsEngine (M.granules mem.old) rows.old }
    ensures holds { IsEngine (M.granules mem.new) rows.new }
    ensures alone { OnlyRunnerStands rows.new.standing.items rows.new.running }
    ensures tight { rows.new.loose ≡ false }
    ensures seen { engine_view (M.granules mem.new) rows.new
        ≡ engine_view (M.granules mem.old) rows.old }
{
    if !rows.loose {
        return;
    }
    for t in 0..rows.list.len() {
        put_away(rows, mem, t);
    }
    rows.loose = false;
}

/// A stopped thread's row as it is picked, whether it stands in it or in its area.
pub(crate) fn take_up<M: Memory>(row: &mut Thread, mem: &mut M, stood: bool)
    requires kept { IsKept (M.granules mem.old) stood row.old }
    requires alive { 0 < row.old.depth }
    ensures kept { IsKept (M.granules mem.new) true row.new }
    ensures area { row.new.area ≡ row.old.area }
    ensures thread { thread_of (M.granules mem.new) true row.new
        ≡ picked_with (filtered_in row.old.area.ram (M.granules mem.old))
        (thread_of (M.granules mem.old) stood row.old) }
    ensures touches { Touches (area_begin row.old.area) (area_end row.old.area)
        (M.granules mem.old) (M.granules mem.new) }
{
    if stood {
        filter_row(row, mem);
        filter_in_place(&mut row.pcc, mem, row.area.ram);
    } else {
        pick_row(row, mem);
    }
}
