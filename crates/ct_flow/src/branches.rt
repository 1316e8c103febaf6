//! Conditions of branches.

ghost use Rattle.std.specs.Prelude.{◌≡◌, int_lt};
ghost use Rattle.def_instr.specs.Results.{signed};
ghost use Rattle.def_step.specs.Jumps.{is_taken};

use def_instr::Instr;

/// Whether x is below y, both as signed numbers.
fn is_less_signed(x: u32, y: u32) -> bool
    ensures { result ≡ int_lt (signed x) (signed y) }
{
    x.cast_signed() < y.cast_signed()
}

/// Whether a branch is taken, for the words of its two registers: `beq` and `bne` compare the words, `blt` and `bge`
/// compare them as signed numbers, `bltu` and `bgeu` as unsigned ones. What is no branch is not taken.
#[inline(always)]
pub fn takes(instruction: Instr, x: u32, y: u32) -> bool
    ensures { result ≡ is_taken instruction x y }
{
    match instruction {
        Instr::Beq { .. } => x == y,
        Instr::Bne { .. } => x != y,
        Instr::Blt { .. } => is_less_signed(x, y),
        Instr::Bge { .. } => !is_less_signed(x, y),
        Instr::Bltu { .. } => x < y,
        Instr::Bgeu { .. } => x >= y,
        _ => false,
    }
}
