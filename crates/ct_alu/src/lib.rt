//! What the integer instructions give: `alu` equals the written results for every integer
//! instruction and all operands, division by zero and overflow included.
#![tactic(auto)]

mod products;
mod signed;

ghost use Rattle.std.specs.Prelude.{◌≡◌, IsTrue};
ghost use Rattle.def_instr.specs.Results.{integer_result};
ghost use Rattle.def_instr.specs.Shapes.{is_integer};

use crate::products::{
    high_signed, high_signed_unsigned, high_unsigned, quotient, quotient_unsigned, remainder,
    remainder_unsigned,
};
use crate::signed::{is_less_signed, shift_left, shift_right, shift_right_signed};
use def_instr::Instr;

/// The result of an integer instruction, from the words x of rs1 and y of rs2 (docs/use/machine.md).
/// An instruction with an immediate doesn't read y, and `lui` reads neither.
///
/// Division by zero gives all ones, and its remainder is the dividend; -2^31 divided by -1 gives
/// -2^31 and remainder 0. Shift amounts count modulo 32.
#[inline(always)]
pub fn alu(instruction: Instr, x: u32, y: u32) -> u32
    requires { IsTrue (is_integer instruction) }
    ensures { result ≡ integer_result instruction x y }
{
    match instruction {
        Instr::Lui { immediate, .. } => shift_left(immediate, 12),
        Instr::Addi { immediate, .. } => x.wrapping_add(immediate),
        Instr::Slti { immediate, .. } => is_less_signed(x, immediate) as u32,
        Instr::Sltiu { immediate, .. } => (x < immediate) as u32,
        Instr::Xori { immediate, .. } => x ^ immediate,
        Instr::Ori { immediate, .. } => x | immediate,
        Instr::Andi { immediate, .. } => x & immediate,
        Instr::Slli { amount, .. } => shift_left(x, amount),
        Instr::Srli { amount, .. } => shift_right(x, amount),
        Instr::Srai { amount, .. } => shift_right_signed(x, amount),
        Instr::Add { .. } => x.wrapping_add(y),
        Instr::Sub { .. } => x.wrapping_sub(y),
        Instr::Sll { .. } => shift_left(x, y),
        Instr::Slt { .. } => is_less_signed(x, y) as u32,
        Instr::Sltu { .. } => (x < y) as u32,
        Instr::Xor { .. } => x ^ y,
        Instr::Srl { .. } => shift_right(x, y),
        Instr::Sra { .. } => shift_right_signed(x, y),
        Instr::Or { .. } => x | y,
        Instr::And { .. } => x & y,
        Instr::Mul { .. } => x.wrapping_mul(y),
        Instr::Mulh { .. } => high_signed(x, y),
        Instr::Mulhsu { .. } => high_signed_unsigned(x, y),
        Instr::Mulhu { .. } => high_unsigned(x, y),
        Instr::Div { .. } => quotient(x, y),
        Instr::Divu { .. } => quotient_unsigned(x, y),
        Instr::Rem { .. } => remainder(x, y),
        Instr::Remu { .. } => remainder_unsigned(x, y),
        _ => unreachable!(),
    }
}
