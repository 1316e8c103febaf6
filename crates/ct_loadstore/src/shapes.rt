//! What a load or store is, and how its value is widened.

ghost use Rattle.std.specs.Prelude.{IsTrue, ◌≡◌, ◌<◌, ◌^◌, ◌*◌, false};
ghost use Rattle.def_instr.specs.Shapes.{is_access};
ghost use Rattle.def_step.specs.Accesses.{access_of, load_of, store_of, widened};
ghost use Rattle.ct_loadstore.specs.Shapes.{IsShape};

use ct_bits::extended;
use def_instr::Instr;
use def_step::Access;

/// The load of this width.
fn load(width: u32, signed: bool, whole: bool, by: u32, immediate: u32) -> Access
    ensures { result ≡ load_of width signed whole by immediate }
{
    Access {
        loads: true,
        width,
        signed,
        whole,
        by,
        immediate,
    }
}

/// The store of this width.
fn store(width: u32, whole: bool, by: u32, immediate: u32) -> Access
    ensures { result ≡ store_of width whole by immediate }
{
    Access {
        loads: false,
        width,
        signed: false,
        whole,
        by,
        immediate,
    }
}

/// A load or store as its instruction names it.
pub fn access(instruction: Instr) -> Access
    requires { IsTrue (is_access instruction) }
    ensures is { result ≡ access_of instruction }
    ensures shape { IsShape result }
{
    match instruction {
        Instr::Lb { rs1, immediate, .. } => load(1, true, false, rs1, immediate),
        Instr::Lh { rs1, immediate, .. } => load(2, true, false, rs1, immediate),
        Instr::Lw { rs1, immediate, .. } => load(4, false, false, rs1, immediate),
        Instr::Clc { rs1, immediate, .. } => load(8, false, true, rs1, immediate),
        Instr::Lbu { rs1, immediate, .. } => load(1, false, false, rs1, immediate),
        Instr::Lhu { rs1, immediate, .. } => load(2, false, false, rs1, immediate),
        Instr::Sb { rs1, immediate, .. } => store(1, false, rs1, immediate),
        Instr::Sh { rs1, immediate, .. } => store(2, false, rs1, immediate),
        Instr::Sw { rs1, immediate, .. } => store(4, false, rs1, immediate),
        Instr::Csc { rs1, immediate, .. } => store(8, true, rs1, immediate),
        _ => unreachable!(),
    }
}

/// A loaded number as a 32-bit word: sign-extended, or as it is.
pub(crate) fn widen(a: Access, value: u32) -> u32
    requires shape { IsShape a }
    requires part { a.whole ≡ false }
    requires small { value < 2 ^ (8 * a.width) }
    ensures { result ≡ widened a value }
{
    if !a.signed {
        return value;
    }
    extended(8 * a.width, value)
}
