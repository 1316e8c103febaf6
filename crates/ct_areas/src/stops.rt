//! A stop and a pick: registers go to the area and come back through the load filter.

ghost use Rattle.std.specs.Prelude.{◌≡◌, ◌+◌, ◌-◌, ◌*◌, ◌/◌, ◌%◌, ◌^◌, ◌≤◌, ◌<◌, ◌∷◌, true, false, length, drop, map};
ghost use Rattle.def_memory.specs.Granules.{plain, caps_from, holding_all};
ghost use Rattle.def_machine.specs.Threads.{picked_with};
ghost use Rattle.def_machine.specs.Memory.{filtered_in};
ghost use Rattle.def_areas.specs.Touches.{Touches};
ghost use Rattle.ct_areas.specs.Threads.{HasArea, area_begin, area_end, frames_most, thread_of};
ghost use Rattle.ct_areas.specs.Parts.{register_in, with_saved, without_saved};

use crate::areas::{area_offset, clear, put};
use crate::filtering::take;
use crate::thread::Thread;
use ct_cap::{Live, shrink};
use ct_mem::Memory;
use def_profile::layout::SAVED_SIZE;

/// Registers 1 to 15 go to granules.
fn put_registers<M: Memory>(registers: &[Live; 16], mem: &mut M, at: u32)
    requires even { at % 8 ≡ 0 }
    requires inside { at + 120 ≤ 8 * length (M.granules mem.old) }
    ensures is { M.granules mem.new
        ≡ holding_all (M.granules mem.old) (at / 8) (drop 1 registers.now) }
    ensures long { length registers.now ≡ 16 }
{
    let _size = mem.size();
    for i in 0..15 {
        put(mem, at + 8 * i as u32, shrink(registers[i + 1]));
    }
}

/// A thread is put away: its program counter capability and its registers go to its area. The row stays.
///
/// A thread whose c0 is zero, as each one's is, is what it was. Nothing is refused.
pub fn save<M: Memory>(t: &mut Thread, mem: &mut M)
    requires area { HasArea (8 * length (M.granules mem.old)) t.old.area }
    requires room { t.old.depth ≤ frames_most t.old.area }
    ensures thread { register_in t.old 0 ≡ plain 0
        → thread_of (M.granules mem.new) false t.new ≡ thread_of (M.granules mem.old) true t.old }
    ensures memory { M.granules mem.new ≡ with_saved (M.granules mem.old) t.old }
    ensures touches { Touches (area_begin t.old.area) (area_end t.old.area) (M.granules mem.old)
        (M.granules mem.new) }
    ensures row { t.new ≡ t.old }
{
    let at = area_offset(&t.area, mem);
    put(mem, at, shrink(t.pcc));
    put_registers(&t.regs, mem, at + 8);
}

/// Registers 1 to 15 come from granules, through the load filter, and register 0 is zero.
fn take_registers<M: Memory>(registers: &mut [Live; 16], mem: &M, ram: u32, at: u32)
    requires even { at % 8 ≡ 0 }
    requires inside { at + 120 ≤ 8 * length (M.granules mem.now) }
    ensures { registers.new
        ≡ plain 0 ∷ map (filtered_in ram (M.granules mem.now))
        (caps_from (M.granules mem.now) (at / 8) 15) }
{
    let _size = mem.size();
    registers[0] = Live::integer(0);
    for i in 0..15 {
        take(&mut registers[i + 1], mem, ram, at + 8 * i as u32);
    }
}

/// A thread that is put away is picked: its program counter capability and its registers come from its area, through
/// the load filter, and their granules are zeroed. Nothing else of the row changes, and nothing is refused.
pub fn resume<M: Memory>(t: &mut Thread, mem: &mut M)
    requires area { HasArea (8 * length (M.granules mem.old)) t.old.area }
    requires room { t.old.depth ≤ frames_most t.old.area }
    ensures thread { thread_of (M.granules mem.new) true t.new
        ≡ picked_with (filtered_in t.old.area.ram (M.granules mem.old))
        (thread_of (M.granules mem.old) false t.old) }
    ensures memory { M.granules mem.new ≡ without_saved (M.granules mem.old) t.old }
    ensures touches { Touches (area_begin t.old.area) (area_end t.old.area) (M.granules mem.old)
        (M.granules mem.new) }
    ensures row { t.new ≡ record t.old { pcc = t.new.pcc; regs = t.new.regs } }
    ensures zero { register_in t.new 0 ≡ plain 0 }
{
    let at = area_offset(&t.area, mem);
    take(&mut t.pcc, mem, t.area.ram, at);
    take_registers(&mut t.regs, mem, t.area.ram, at + 8);
    clear(mem, t.area.ram, t.area.trusted, SAVED_SIZE);
}
