//! Branches and jumps, on a row where it stands.

ghost use Rattle.std.specs.Prelude.{◌≡◌, ◌<◌, ◌%◌, ◌==◌, Some, true, false, if◌then◌else◌};
ghost use Rattle.def_instr.specs.declared.Instr.TheVariants.{CJalr, Jal};
ghost use Rattle.def_machine.specs.Registers.{written};
ghost use Rattle.def_step.specs.declared.Class.TheVariants as kinds;
ghost use Rattle.def_step.specs.Jumps.{jump_target};
ghost use Rattle.def_step.specs.Operands.{operands_of};
ghost use Rattle.def_words.specs.Jumped.{return_link};
ghost use Rattle.ct_decode.specs.Reading.{AreRegisters};
ghost use Rattle.ct_burst.specs.declared.going.Quietly.TheVariants.{Loud, Turned};
ghost use Rattle.ct_burst.specs.Carrying.{jump_distance, linked_to, offset_of, takes, row_through, CarriedAlone, CarriesAlone, IsBeside, IsHeld, HasOperands};

use crate::going::{Quietly, address_in, go_to, put};
use ct_areas::Thread;
use ct_cap::{Live, Posture, turn};
use ct_flow::{become_link, go_through, jumps_on, takes};
use ct_threads::{Window, read_ref};
use def_instr::Instr;

/// Whether a branch is taken.
#[inline(always)]
fn is_branch_taken(row: &Thread, instruction: Instr, first: u32, second: u32) -> bool
    requires takes { HasOperands instruction kinds.Jump 0 first second }
    requires registers { AreRegisters (operands_of instruction) }
    ensures { result ≡ takes row.now instruction }
{
    let x = address_in(row, first);
    let y = address_in(row, second);
    takes(instruction, x, y)
}

/// A branch by an offset, taken or not, where it leads to a multiple of 4; else `Loud`, and nothing changes.
#[inline(always)]
pub(crate) fn branch(
    row: &mut Thread,
    instruction: Instr,
    first: u32,
    second: u32,
    offset: u32,
    window: Window,
) -> Quietly
    requires held { IsHeld row.old window }
    requires takes { HasOperands instruction kinds.Jump 0 first second }
    requires registers { AreRegisters (operands_of instruction) }
    requires offset { offset_of instruction ≡ Some offset }
    ensures { CarriedAlone row.old window instruction result row.new }
{
    if !is_branch_taken(row, instruction, first, second) {
        return go_past_branch(row, instruction, window);
    }
    go_by(row, instruction, offset, window)
}

/// A row goes past a branch that isn't taken.
#[inline(always)]
fn go_past_branch(row: &mut Thread, instruction: Instr, window: Window) -> Quietly
    requires held { IsHeld row.old window }
    requires by { Some 4 ≡ jump_distance row.old instruction }
    requires to { (operands_of instruction).to ≡ 0 }
    ensures { CarriedAlone row.old window instruction result row.new }
{
    let _instruction = instruction;
    put(row, 0, &Live::integer(0), window)
}

/// `jal`, where it leads to a multiple of 4; else `Loud`, and nothing changes.
#[inline(always)]
pub(crate) fn jump(row: &mut Thread, to: u32, offset: u32, window: Window) -> Quietly
    requires held { IsHeld row.old window }
    requires to { to < 16 }
    ensures { CarriedAlone row.old window (Jal to offset) result row.new }
{
    let jump = Instr::Jal { rd: to, offset };
    if to == 0 {
        return go_by(row, jump, offset, window);
    }
    turned_if(link_by(row, to, offset))
}

/// The program counter moves by an offset, where that leads to a multiple of 4; else `Loud`, and nothing changes.
#[inline(always)]
fn go_by(row: &mut Thread, instruction: Instr, by: u32, window: Window) -> Quietly
    requires held { IsHeld row.old window }
    requires by { Some by ≡ jump_distance row.old instruction }
    requires to { (operands_of instruction).to ≡ 0 }
    ensures { CarriedAlone row.old window instruction result row.new }
{
    let _instruction = instruction;
    let target = row.pcc.address().wrapping_add(by);
    if target % 4 != 0 {
        return Quietly::Loud;
    }
    go_to(row, target, window)
}

/// A jump by a register, where no check refuses it and the posture stays; else `Loud`, and nothing changes.
#[inline(always)]
pub(crate) fn jump_register(
    row: &mut Thread,
    to: u32,
    at: u32,
    immediate: u32,
    window: Window,
) -> Quietly
    requires to { to < 16 }
    requires at { at < 16 }
    ensures { CarriedAlone row.old window (CJalr to at immediate) result row.new }
{
    let _window = window;
    turned_if(jump_through(row, to, at, immediate))
}

/// It went, and the program counter capability may be another; or it was left.
#[inline(always)]
fn turned_if(went: bool) -> Quietly
    ensures { result ≡ (if went then Turned else Loud) }
{
    if went { Quietly::Turned } else { Quietly::Loud }
}

/// A register becomes the link of a jump from here.
#[inline(always)]
fn link_to(register: &mut Live, here: &Live, posture: Posture)
    ensures { register.new ≡ return_link here.now posture }
{
    *register = *here;
    become_link(register, posture);
}

/// A register gets the link of a jump from here, which register 0 drops.
#[inline(always)]
fn leave_link(registers: &mut [Live; 16], to: u32, here: &Live, posture: Posture)
    requires { to < 16 }
    ensures { registers.new ≡ written registers.old to (return_link here.now posture) }
{
    if to != 0 {
        link_to(&mut registers[to as usize], here, posture);
    }
}

/// `jal`, where it leads to a multiple of 4; else `false`, and nothing changes.
#[inline(never)]
fn link_by(row: &mut Thread, to: u32, offset: u32) -> bool
    requires { to < 16 }
    ensures whole { result ≡ true → (jump_target row.old.pcc offset % 4 == 0) ≡ true }
    ensures gone { result ≡ true
        → row.new ≡ linked_to row.old (jump_target row.old.pcc offset) to }
    ensures same { result ≡ false → row.new ≡ row.old }
{
    let target = row.pcc.address().wrapping_add(offset);
    if target % 4 != 0 {
        return false;
    }
    leave_link(&mut row.regs, to, &row.pcc, row.posture);
    turn(&mut row.pcc, target);
    true
}

/// A row goes on through a register with its posture, and a register gets the link, which register 0 drops.
///
/// Where another register than the one that leads on gets the link, it gets it first: so nothing is kept aside.
#[inline(always)]
fn go_by_register(row: &mut Thread, to: u32, at: u32, immediate: u32)
    requires to { to < 16 }
    requires at { at < 16 }
    ensures { row.new ≡ row_through row.old to at immediate }
{
    if to == at {
        let here = row.pcc;
        go_through(&mut row.pcc, read_ref(&row.regs, at), immediate);
        leave_link(&mut row.regs, to, &here, row.posture);
    } else {
        leave_link(&mut row.regs, to, &row.pcc, row.posture);
        go_through(&mut row.pcc, read_ref(&row.regs, at), immediate);
    }
}

/// A jump by a register, where no check refuses it and the posture stays; else `false`, and nothing changes.
#[inline(never)]
fn jump_through(row: &mut Thread, to: u32, at: u32, immediate: u32) -> bool
    requires to { to < 16 }
    requires at { at < 16 }
    ensures carries { result ≡ true → CarriesAlone row.old (CJalr to at immediate) row.new }
    ensures same { result ≡ false → row.new ≡ row.old }
    ensures beside { IsBeside row.old row.new }
{
    let x = read_ref(&row.regs, at);
    if !jumps_on(to, at, x, immediate, row.posture) {
        return false;
    }
    go_by_register(row, to, at, immediate);
    true
}
