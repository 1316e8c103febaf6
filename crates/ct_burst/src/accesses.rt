//! Loads and stores.

ghost use Rattle.std.specs.Prelude.{◌≡◌, ◌<◌, ◌%◌, true, false};
ghost use Rattle.def_instr.specs.declared.Instr.TheVariants.{Clc};
ghost use Rattle.def_step.specs.declared.Class.TheVariants as kinds;
ghost use Rattle.def_step.specs.Accesses.{access_of, load_of, store_of};
ghost use Rattle.def_step.specs.Operands.{operands_of};
ghost use Rattle.ct_decode.specs.Reading.{AreRegisters};
ghost use Rattle.ct_loadstore.specs.Shapes.{IsShape};
ghost use Rattle.ct_burst.specs.Carrying.{Carried, IsHeld, HasOperands};

use crate::going::{Quietly, put};
use ct_areas::Thread;
use ct_cap::Live;
use ct_loadstore::{load_number, load_register, store_quietly};
use ct_mem::Memory;
use ct_threads::{Window, read_ref};
use def_instr::Instr;
use def_step::Access;

/// The access of a load, by its width in bytes.
#[inline(always)]
pub(crate) fn load_of(width: u32, signed: bool, whole: bool, by: u32, immediate: u32) -> Access
    ensures { result ≡ load_of width signed whole by immediate }
{
    Access {
        loads: true,
        width,
        signed,
        whole,
        by,
        immediate,
    }
}

/// The access of a store, by its width in bytes.
#[inline(always)]
pub(crate) fn store_of(width: u32, whole: bool, by: u32, immediate: u32) -> Access
    ensures { result ≡ store_of width whole by immediate }
{
    Access {
        loads: false,
        width,
        signed: false,
        whole,
        by,
        immediate,
    }
}

/// A load of a number, where its checks pass and it lies in RAM; else `Loud`, and nothing changes.
#[inline(always)]
pub(crate) fn load<M: Memory>(
    row: &mut Thread,
    mem: &M,
    ram: u32,
    instruction: &Instr,
    access: Access,
    to: u32,
    window: Window,
) -> Quietly
    requires even { ram % 16 ≡ 0 }
    requires held { IsHeld row.old window }
    requires takes { HasOperands instruction.now kinds.Access to access.by 0 }
    requires registers { AreRegisters (operands_of instruction.now) }
    requires access { access ≡ access_of instruction.now }
    requires shape { IsShape access }
    requires loads { access.loads ≡ true }
    requires part { access.whole ≡ false }
    ensures { Carried ram row.old (M.granules mem.now) window instruction.now result row.new
        (M.granules mem.now) }
{
    let x = read_ref(&row.regs, access.by);
    match load_number(&access, x, mem, ram) {
        Some(value) => put(row, to, &Live::integer(value), window),
        None => Quietly::Loud,
    }
}

/// A load of a capability at a register's address and an immediate, where its checks pass and it lies in RAM; else
/// `Loud`, and nothing changes.
#[inline(never)]
pub(crate) fn load_whole<M: Memory>(
    row: &mut Thread,
    mem: &M,
    ram: u32,
    to: u32,
    by: u32,
    immediate: u32,
    window: Window,
) -> Quietly
    requires even { ram % 16 ≡ 0 }
    requires held { IsHeld row.old window }
    requires to { to < 16 }
    requires by { by < 16 }
    ensures { Carried ram row.old (M.granules mem.now) window (Clc to by immediate) result row.new
        (M.granules mem.now) }
{
    let access = load_of(8, false, true, by, immediate);
    if !load_register(&mut row.regs, to, &access, mem, ram) {
        return Quietly::Loud;
    }
    put(row, 0, &Live::integer(0), window)
}

/// A store, where its checks pass and it lies in RAM; else `Loud`, and nothing changes.
#[inline(always)]
pub(crate) fn store<M: Memory>(
    row: &mut Thread,
    mem: &mut M,
    ram: u32,
    instruction: &Instr,
    access: Access,
    second: u32,
    window: Window,
) -> Quietly
    requires even { ram % 16 ≡ 0 }
    requires held { IsHeld row.old window }
    requires takes { HasOperands instruction.now kinds.Access 0 access.by second }
    requires registers { AreRegisters (operands_of instruction.now) }
    requires access { access ≡ access_of instruction.now }
    requires shape { IsShape access }
    requires stores { access.loads ≡ false }
    ensures { Carried ram row.old (M.granules mem.old) window instruction.now result row.new
        (M.granules mem.new) }
{
    let x = read_ref(&row.regs, access.by);
    let y = read_ref(&row.regs, second);
    if !store_quietly(&access, x, y, mem, ram) {
        return Quietly::Loud;
    }
    put(row, 0, &Live::integer(0), window)
}
