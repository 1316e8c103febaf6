//! Instructions of integers.

ghost use Rattle.def_step.specs.declared.Class.TheVariants as kinds;
ghost use Rattle.def_step.specs.Operands.{operands_of};
ghost use Rattle.ct_decode.specs.Reading.{AreRegisters};
ghost use Rattle.ct_burst.specs.Carrying.{CarriedAlone, IsHeld, HasOperands};

use crate::going::{Quietly, address_in, put};
use ct_alu::alu;
use ct_areas::Thread;
use ct_cap::Live;
use ct_threads::Window;
use def_instr::Instr;

/// An instruction of integers, with these registers.
#[inline(always)]
pub(crate) fn compute(
    row: &mut Thread,
    instruction: Instr,
    to: u32,
    first: u32,
    second: u32,
    window: Window,
) -> Quietly
    requires held { IsHeld row.old window }
    requires takes { HasOperands instruction kinds.Integer to first second }
    requires registers { AreRegisters (operands_of instruction) }
    ensures { CarriedAlone row.old window instruction result row.new }
{
    let x = address_in(row, first);
    let y = address_in(row, second);
    put(row, to, &Live::integer(alu(instruction, x, y)), window)
}
