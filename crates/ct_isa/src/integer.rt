//! Integer instructions on registers and immediates.

ghost use Rattle.std.specs.Prelude.{◌≡◌, ◌<◌, ◌⊎◌, IfSome};
ghost use Rattle.def_instr.specs.Table.{EncodesTo};
ghost use Rattle.def_instr.specs.Reading.{IsCut, word_of_fields, immediate_of, shift_of, register_instruction, base_instruction, alternate_of, multiply_of};

use crate::fields::{signed_immediate, three_small, two_small};
use def_instr::{Fields, Instr};

/// An operation of a register and an immediate, by funct3.
pub(crate) fn immediate(f: Fields) -> Option<Instr>
    requires cut { IsCut f }
    requires opcode { f.opcode ≡ 0x13 }
    ensures exact { result ≡ immediate_of f }
    ensures sound { IfSome result (λ i. EncodesTo i (word_of_fields f)) }
{
    if !two_small(f.rd, f.rs1) {
        return None;
    }
    let (rd, rs1, immediate) = (f.rd, f.rs1, signed_immediate(f));
    match f.funct3 {
        0 => Some(Instr::Addi { rd, rs1, immediate }),
        2 => Some(Instr::Slti { rd, rs1, immediate }),
        3 => Some(Instr::Sltiu { rd, rs1, immediate }),
        4 => Some(Instr::Xori { rd, rs1, immediate }),
        6 => Some(Instr::Ori { rd, rs1, immediate }),
        7 => Some(Instr::Andi { rd, rs1, immediate }),
        _ => shift(f),
    }
}

/// A shift by an amount, which stands in rs2's place.
fn shift(f: Fields) -> Option<Instr>
    requires cut { IsCut f }
    requires opcode { f.opcode ≡ 0x13 }
    requires rd { f.rd < 16 }
    requires rs1 { f.rs1 < 16 }
    ensures exact { result ≡ shift_of f }
    ensures sound { IfSome result (λ i. EncodesTo i (word_of_fields f)) }
{
    let (rd, rs1, amount) = (f.rd, f.rs1, f.rs2);
    match (f.funct3, f.funct7) {
        (1, 0x00) => Some(Instr::Slli { rd, rs1, amount }),
        (5, 0x00) => Some(Instr::Srli { rd, rs1, amount }),
        (5, 0x20) => Some(Instr::Srai { rd, rs1, amount }),
        _ => None,
    }
}

/// An operation of two registers, by funct7.
pub(crate) fn register(f: Fields) -> Option<Instr>
    requires cut { IsCut f }
    requires opcode { f.opcode ≡ 0x33 }
    ensures exact { result ≡ register_instruction f }
    ensures sound { IfSome result (λ i. EncodesTo i (word_of_fields f)) }
{
    if !three_small(f.rd, f.rs1, f.rs2) {
        return None;
    }
    match f.funct7 {
        0x00 => base(f),
        0x20 => alternate(f),
        0x01 => multiply(f),
        _ => None,
    }
}

/// The base operations of two registers.
fn base(f: Fields) -> Option<Instr>
    requires cut { IsCut f }
    requires opcode { f.opcode ≡ 0x33 }
    requires funct7 { f.funct7 ≡ 0x00 }
    requires rd { f.rd < 16 }
    requires rs1 { f.rs1 < 16 }
    requires rs2 { f.rs2 < 16 }
    ensures exact { result ≡ base_instruction f }
    ensures sound { IfSome result (λ i. EncodesTo i (word_of_fields f)) }
{
    let (rd, rs1, rs2) = (f.rd, f.rs1, f.rs2);
    match f.funct3 {
        0 => Some(Instr::Add { rd, rs1, rs2 }),
        1 => Some(Instr::Sll { rd, rs1, rs2 }),
        2 => Some(Instr::Slt { rd, rs1, rs2 }),
        3 => Some(Instr::Sltu { rd, rs1, rs2 }),
        4 => Some(Instr::Xor { rd, rs1, rs2 }),
        5 => Some(Instr::Srl { rd, rs1, rs2 }),
        6 => Some(Instr::Or { rd, rs1, rs2 }),
        7 => Some(Instr::And { rd, rs1, rs2 }),
        _ => None,
    }
}

/// The two base operations with another funct7.
fn alternate(f: Fields) -> Option<Instr>
    requires cut { IsCut f }
    requires opcode { f.opcode ≡ 0x33 }
    requires funct7 { f.funct7 ≡ 0x20 }
    requires rd { f.rd < 16 }
    requires rs1 { f.rs1 < 16 }
    requires rs2 { f.rs2 < 16 }
    ensures exact { result ≡ alternate_of f }
    ensures sound { IfSome result (λ i. EncodesTo i (word_of_fields f)) }
{
    let (rd, rs1, rs2) = (f.rd, f.rs1, f.rs2);
    match f.funct3 {
        0 => Some(Instr::Sub { rd, rs1, rs2 }),
        5 => Some(Instr::Sra { rd, rs1, rs2 }),
        _ => None,
    }
}

/// Multiplication and division.
fn multiply(f: Fields) -> Option<Instr>
    requires cut { IsCut f }
    requires opcode { f.opcode ≡ 0x33 }
    requires funct7 { f.funct7 ≡ 0x01 }
    requires rd { f.rd < 16 }
    requires rs1 { f.rs1 < 16 }
    requires rs2 { f.rs2 < 16 }
    ensures exact { result ≡ multiply_of f }
    ensures sound { IfSome result (λ i. EncodesTo i (word_of_fields f)) }
{
    let (rd, rs1, rs2) = (f.rd, f.rs1, f.rs2);
    match f.funct3 {
        0 => Some(Instr::Mul { rd, rs1, rs2 }),
        1 => Some(Instr::Mulh { rd, rs1, rs2 }),
        2 => Some(Instr::Mulhsu { rd, rs1, rs2 }),
        3 => Some(Instr::Mulhu { rd, rs1, rs2 }),
        4 => Some(Instr::Div { rd, rs1, rs2 }),
        5 => Some(Instr::Divu { rd, rs1, rs2 }),
        6 => Some(Instr::Rem { rd, rs1, rs2 }),
        7 => Some(Instr::Remu { rd, rs1, rs2 }),
        _ => None,
    }
}
