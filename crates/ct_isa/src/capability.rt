//! Capability instructions.

ghost use Rattle.std.specs.Prelude.{◌≡◌, ◌<◌, ◌⊎◌, IfSome};
ghost use Rattle.def_instr.specs.Table.{EncodesTo};
ghost use Rattle.def_instr.specs.Reading.{IsCut, word_of_fields, capability_of, unnumbered_of, one_source_of, two_source_of};

use crate::fields::{low_immediate, signed_immediate, two_small};
use def_instr::{Fields, Instr};

/// A capability instruction, by funct3 and then funct7.
pub(crate) fn capability(f: Fields) -> Option<Instr>
    requires cut { IsCut f }
    requires opcode { f.opcode ≡ 0x5B }
    ensures exact { result ≡ capability_of f }
    ensures sound { IfSome result (λ i. EncodesTo i (word_of_fields f)) }
{
    if !two_small(f.rd, f.rs1) {
        return None;
    }
    let (rd, rs1) = (f.rd, f.rs1);
    match f.funct3 {
        1 => Some(Instr::CIncAddrImm {
            rd,
            rs1,
            immediate: signed_immediate(f),
        }),
        2 => Some(Instr::CSetBoundsImm {
            rd,
            rs1,
            immediate: low_immediate(f),
        }),
        0 => unnumbered(f),
        _ => None,
    }
}

/// One without an immediate: one source, a special register, or two sources.
fn unnumbered(f: Fields) -> Option<Instr>
    requires cut { IsCut f }
    requires opcode { f.opcode ≡ 0x5B }
    requires funct3 { f.funct3 ≡ 0 }
    requires rd { f.rd < 16 }
    requires rs1 { f.rs1 < 16 }
    ensures exact { result ≡ unnumbered_of f }
    ensures sound { IfSome result (λ i. EncodesTo i (word_of_fields f)) }
{
    match f.funct7 {
        0x7F => one_source(f),
        0x01 => Some(Instr::CSpecialRw {
            rd: f.rd,
            rs1: f.rs1,
            number: f.rs2,
        }),
        _ => {
            if f.rs2 < 16 {
                return two_source(f);
            }
            None
        }
    }
}

/// One source: rs2's place says which.
fn one_source(f: Fields) -> Option<Instr>
    requires cut { IsCut f }
    requires opcode { f.opcode ≡ 0x5B }
    requires funct3 { f.funct3 ≡ 0 }
    requires funct7 { f.funct7 ≡ 0x7F }
    requires rd { f.rd < 16 }
    requires rs1 { f.rs1 < 16 }
    ensures exact { result ≡ one_source_of f }
    ensures sound { IfSome result (λ i. EncodesTo i (word_of_fields f)) }
{
    let (rd, rs1) = (f.rd, f.rs1);
    match f.rs2 {
        0x00 => Some(Instr::CGetPerm { rd, rs1 }),
        0x01 => Some(Instr::CGetType { rd, rs1 }),
        0x02 => Some(Instr::CGetBase { rd, rs1 }),
        0x03 => Some(Instr::CGetLen { rd, rs1 }),
        0x04 => Some(Instr::CGetTag { rd, rs1 }),
        0x08 => Some(Instr::Crrl { rd, rs1 }),
        0x09 => Some(Instr::Cram { rd, rs1 }),
        0x0A => Some(Instr::CMove { rd, rs1 }),
        0x0B => Some(Instr::CClearTag { rd, rs1 }),
        0x0F => Some(Instr::CGetAddr { rd, rs1 }),
        0x17 => Some(Instr::CGetHigh { rd, rs1 }),
        0x18 => Some(Instr::CGetTop { rd, rs1 }),
        _ => None,
    }
}

/// Two sources: funct7 says which.
fn two_source(f: Fields) -> Option<Instr>
    requires cut { IsCut f }
    requires opcode { f.opcode ≡ 0x5B }
    requires funct3 { f.funct3 ≡ 0 }
    requires rd { f.rd < 16 }
    requires rs1 { f.rs1 < 16 }
    requires rs2 { f.rs2 < 16 }
    ensures exact { result ≡ two_source_of f }
    ensures sound { IfSome result (λ i. EncodesTo i (word_of_fields f)) }
{
    let (rd, rs1, rs2) = (f.rd, f.rs1, f.rs2);
    match f.funct7 {
        0x08 => Some(Instr::CSetBounds { rd, rs1, rs2 }),
        0x09 => Some(Instr::CSetBoundsExact { rd, rs1, rs2 }),
        0x0B => Some(Instr::CSeal { rd, rs1, rs2 }),
        0x0C => Some(Instr::CUnseal { rd, rs1, rs2 }),
        0x0D => Some(Instr::CAndPerm { rd, rs1, rs2 }),
        0x10 => Some(Instr::CSetAddr { rd, rs1, rs2 }),
        0x11 => Some(Instr::CIncAddr { rd, rs1, rs2 }),
        0x14 => Some(Instr::CSub { rd, rs1, rs2 }),
        0x16 => Some(Instr::CSetHigh { rd, rs1, rs2 }),
        0x20 => Some(Instr::CTestSubset { rd, rs1, rs2 }),
        0x21 => Some(Instr::CSetEqualExact { rd, rs1, rs2 }),
        _ => None,
    }
}
