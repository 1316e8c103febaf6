//! What a word says.

ghost use Rattle.std.specs.Prelude.{◌≡◌};
ghost use Rattle.def_instr.specs.Table.{InRange};
ghost use Rattle.def_step.specs.Operands.{operands_of};
ghost use Rattle.ct_decode.specs.Reading.{read_as, reading_of, AreRegisters};

use ct_isa::decode;
use def_instr::Instr;

/// A word of code, and the instruction that it says. A word that is no instruction's has the breakpoint. `room` is 0:
/// with it a reading has 32 bytes, so that a shift finds the one at a slot.
#[derive(Clone, Copy, Drop)]
pub struct Reading {
    pub word: u32,
    pub instruction: Instr,
    pub room: u64,
}

/// What a word says.
fn instruction_of(word: u32) -> Instr
    ensures is { result ≡ read_as word }
    ensures ranged { InRange result }
{
    match decode(word) {
        Some(instruction) => instruction,
        None => Instr::Ebreak,
    }
}

/// A word read.
#[inline(never)]
pub(crate) fn read(word: u32) -> Reading
    ensures is { result ≡ reading_of word }
    ensures word { result.word ≡ word }
    ensures registers { AreRegisters (operands_of result.instruction) }
{
    Reading {
        word,
        instruction: instruction_of(word),
        room: 0,
    }
}
