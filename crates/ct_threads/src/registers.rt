//! A row's registers and its program counter, and how its thread goes on.

ghost use Rattle.std.specs.Prelude.{◌≡◌, ◌<◌, map, slice_index_or};
ghost use Rattle.def_words.specs.Capability.{integer, with_address};
ghost use Rattle.def_memory.specs.Granules.{plain};
ghost use Rattle.def_machine.specs.Memory.{filtered_in};
ghost use Rattle.def_machine.specs.Registers.{written};
ghost use Rattle.ct_threads.specs.Rows.{row_gone};

use ct_areas::Thread;
use ct_cap::{Live, Posture, turn};
use ct_loadstore::filter_in_place;
use ct_mem::Memory;

/// A register gets a value, which register 0 drops.
fn write(registers: &mut [Live; 16], number: u32, value: Live)
    requires { number < 16 }
    ensures { registers.new ≡ written registers.old number value }
{
    if number != 0 {
        registers[number as usize] = value;
    }
}

/// A register's value. Condition: the register's number is below 16.
#[inline(always)]
pub fn read(registers: &[Live; 16], number: u32) -> Live
    requires { number < 16 }
    ensures { result ≡ slice_index_or registers.now number (plain 0) }
{
    registers[number as usize]
}

/// A register's value where it stands. Condition: the register's number is below 16.
#[inline(always)]
pub fn read_ref(registers: &[Live; 16], number: u32) -> &Live
    requires { number < 16 }
    ensures { result.now ≡ slice_index_or registers.now number (plain 0) }
{
    &registers[number as usize]
}

/// A row whose thread goes on elsewhere, with this posture; a register, whose number is below 16, gets a value, which
/// register 0 drops.
pub fn jump_row(t: &mut Thread, pcc: Live, posture: Posture, to: u32, value: Live)
    requires { to < 16 }
    ensures { t.new ≡ row_gone t.old pcc posture to value }
{
    write(&mut t.regs, to, value);
    t.pcc = pcc;
    t.posture = posture;
}

/// A row whose thread goes on at an address.
#[inline(always)]
pub fn branch_row(t: &mut Thread, target: u32)
    ensures { t.new ≡ row_gone t.old (with_address t.old.pcc target) t.old.posture 0 (integer 0) }
{
    turn(&mut t.pcc, target);
}

/// Each register passes the load filter.
fn filter_each<M: Memory>(registers: &mut [Live; 16], mem: &M, ram: u32)
    ensures { registers.new ≡ map (filtered_in ram (M.granules mem.now)) registers.old }
{
    for number in 0..16usize {
        filter_in_place(&mut registers[number], mem, ram);
    }
}

/// A row whose registers have passed the load filter.
pub fn filter_row<M: Memory>(t: &mut Thread, mem: &M)
    ensures { t.new ≡ record t.old {
      regs = map (filtered_in t.old.area.ram (M.granules mem.now)) t.old.regs;
    } }
{
    filter_each(&mut t.regs, mem, t.area.ram);
}
