//! Instructions of capabilities.

ghost use Rattle.std.specs.Prelude.{IsTrue, ◌≡◌, ◌<◌};
ghost use Rattle.def_capstep.specs.Results.{capability_result};
ghost use Rattle.def_instr.specs.Shapes.{is_capability};
ghost use Rattle.def_machine.specs.Registers.{written};
ghost use Rattle.def_step.specs.declared.Class.TheVariants as kinds;
ghost use Rattle.def_step.specs.Operands.{operands_of};
ghost use Rattle.def_words.specs.Capability.{with_address};
ghost use Rattle.ct_decode.specs.Reading.{AreRegisters};
ghost use Rattle.ct_loadstore.specs.Quiet.{value_by};
ghost use Rattle.ct_burst.specs.Carrying.{CarriedAlone, IsHeld, HasOperands};

use crate::going::{Quietly, put};
use ct_areas::Thread;
use ct_cap::{Live, turn};
use ct_capstep::{derived, upper_offset};
use ct_decode::Reading;
use ct_threads::{Window, read_ref};
use def_instr::Instr;

/// A register gets a value, which register 0 drops.
#[inline(always)]
fn write(registers: &mut [Live; 16], to: u32, value: &Live)
    requires { to < 16 }
    ensures { registers.new ≡ written registers.old to value.now }
{
    if to != 0 {
        registers[to as usize] = *value;
    }
}

/// A register gets what another holds, which register 0 drops.
#[inline(always)]
fn copy(registers: &mut [Live; 16], to: u32, first: u32)
    requires to { to < 16 }
    requires first { first < 16 }
    ensures { registers.new ≡ written registers.old to (value_by registers.old first) }
{
    let value = registers[first as usize];
    write(registers, to, &value);
}

/// A register becomes a capability at another address.
#[inline(always)]
fn place(register: &mut Live, x: &Live, address: u32)
    ensures { register.new ≡ with_address x.now address }
{
    *register = *x;
    turn(register, address);
}

/// A register gets a capability at an address, which register 0 drops.
#[inline(always)]
fn put_at(registers: &mut [Live; 16], to: u32, x: &Live, address: u32)
    requires to { to < 16 }
    ensures { registers.new ≡ written registers.old to (with_address x.now address) }
{
    if to != 0 {
        place(&mut registers[to as usize], x, address);
    }
}

/// A register gets what another holds at an address, which register 0 drops.
#[inline(always)]
fn copy_at(registers: &mut [Live; 16], to: u32, first: u32, address: u32)
    requires to { to < 16 }
    requires first { first < 16 }
    ensures { registers.new
        ≡ written registers.old to (with_address (value_by registers.old first) address) }
{
    let x = registers[first as usize];
    put_at(registers, to, &x, address);
}

/// A register gets what an instruction of capabilities gives, which register 0 drops.
///
/// What `derived` says of those that loops are full of is made where it belongs; the others' by value.
#[tactic(auto, unfolding(def_capstep::specs::Results::capability_result))]
#[inline(always)]
fn give(
    registers: &mut [Live; 16],
    pcc: &Live,
    instruction: Instr,
    to: u32,
    first: u32,
    second: u32,
)
    requires capability { IsTrue (is_capability instruction) }
    requires to { to < 16 }
    requires first { first < 16 }
    requires second { second < 16 }
    ensures { registers.new ≡ written registers.old to (capability_result instruction
        (value_by registers.old first) (value_by registers.old second) pcc.now) }
{
    let x = read_ref(registers, first);
    let y = read_ref(registers, second);
    match instruction {
        Instr::CMove { .. } => copy(registers, to, first),
        Instr::CIncAddr { .. } => {
            let address = x.address().wrapping_add(y.address());
            copy_at(registers, to, first, address);
        }
        Instr::CIncAddrImm { immediate, .. } => {
            let address = x.address().wrapping_add(immediate);
            copy_at(registers, to, first, address);
        }
        Instr::CSetAddr { .. } => {
            let address = y.address();
            copy_at(registers, to, first, address);
        }
        Instr::AuiPcc { immediate, .. } => {
            let address = pcc.address().wrapping_add(upper_offset(immediate));
            put_at(registers, to, pcc, address);
        }
        Instr::AuiCgp { immediate, .. } => {
            let address = x.address().wrapping_add(upper_offset(immediate));
            copy_at(registers, to, first, address);
        }
        _ => {
            let value = derived(instruction, x, y, pcc);
            write(registers, to, &value);
        }
    }
}

/// An instruction of capabilities, with these registers.
#[inline(always)]
pub(crate) fn derive(
    row: &mut Thread,
    instruction: Instr,
    to: u32,
    first: u32,
    second: u32,
    window: Window,
) -> Quietly
    requires held { IsHeld row.old window }
    requires takes { HasOperands instruction kinds.Capability to first second }
    requires registers { AreRegisters (operands_of instruction) }
    ensures { CarriedAlone row.old window instruction result row.new }
{
    give(&mut row.regs, &row.pcc, instruction, to, first, second);
    put(row, 0, &Live::integer(0), window)
}

/// The same, of an instruction that is rare or decodes bounds: apart, so that what it needs stands in no loop.
#[inline(never)]
pub(crate) fn derive_apart(
    row: &mut Thread,
    reading: &Reading,
    to: u32,
    first: u32,
    second: u32,
    window: Window,
) -> Quietly
    requires held { IsHeld row.old window }
    requires takes { HasOperands reading.now.instruction kinds.Capability to first second }
    requires registers { AreRegisters (operands_of reading.now.instruction) }
    ensures { CarriedAlone row.old window reading.now.instruction result row.new }
{
    derive(row, reading.instruction, to, first, second, window)
}
