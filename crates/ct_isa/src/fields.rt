//! The six fields into which format R cuts a word, and the immediates that other formats join from
//! them (RISC-V Unprivileged ISA, "Base Instruction Formats").

ghost use Rattle.std.specs.Prelude.{◌≡◌, ◌+◌, ◌*◌, ◌/◌, ◌%◌, ◌^◌, ◌<◌, ◌≤◌};
ghost use Rattle.def_instr.specs.Table.{IsSigned, IsOffset};
ghost use Rattle.def_instr.specs.Reading.{IsCut, word_of_fields};
ghost use Rattle.def_instr.specs.Reading as reading;

use ct_bits::{extended, field};
use def_instr::Fields;

/// Cuts a word.
pub(crate) fn cut(word: u32) -> Fields
    ensures value { result ≡ reading.cut_of word }
    ensures cut { IsCut result }
    ensures whole { word ≡ word_of_fields result }
{
    Fields {
        opcode: word % (1 << 7),
        rd: field(word, 7, 5),
        funct3: field(word, 12, 3),
        rs1: field(word, 15, 5),
        rs2: field(word, 20, 5),
        funct7: word >> 25,
    }
}

/// Two registers that the machine has.
pub(crate) fn two_small(a: u32, b: u32) -> bool
    ensures { result ≡ reading.two_small a b }
{
    a < 16 && b < 16
}

/// Three registers that the machine has.
pub(crate) fn three_small(a: u32, b: u32, c: u32) -> bool
    ensures { result ≡ reading.three_small a b c }
{
    a < 16 && b < 16 && c < 16
}

/// Twelve bits, as they stand above rs1.
pub(crate) fn low_immediate(f: Fields) -> u32
    requires { IsCut f }
    ensures value { result ≡ reading.low_immediate f }
    ensures range { result < 2 ^ 12 }
{
    f.rs2 + (f.funct7 << 5)
}

/// The signed immediate of format I.
pub(crate) fn signed_immediate(f: Fields) -> u32
    requires { IsCut f }
    ensures value { result ≡ reading.signed_immediate f }
    ensures range { IsSigned 12 result }
    ensures pieces { result % 2 ^ 12 ≡ f.rs2 + f.funct7 * 2 ^ 5 }
{
    extended(12, f.rs2 + (f.funct7 << 5))
}

/// The signed immediate of format S, whose low bits stand in rd's place.
pub(crate) fn store_immediate(f: Fields) -> u32
    requires { IsCut f }
    ensures value { result ≡ reading.store_immediate f }
    ensures range { IsSigned 12 result }
    ensures low { result % 2 ^ 5 ≡ f.rd }
    ensures high { result / 2 ^ 5 % 2 ^ 7 ≡ f.funct7 }
{
    extended(12, f.rd + (f.funct7 << 5))
}

/// The offset of format B in bytes.
pub(crate) fn branch_offset(f: Fields) -> u32
    requires { IsCut f }
    ensures value { result ≡ reading.branch_offset f }
    ensures range { IsOffset 13 result }
    ensures low { result / 2 ^ 11 % 2 * 2 ^ 7 + result / 2 % 2 ^ 4 * 2 ^ 8 ≡ f.rd * 2 ^ 7 }
    ensures high { result / 2 ^ 5 % 2 ^ 6 * 2 ^ 25 + result / 2 ^ 12 % 2 * 2 ^ 31
        ≡ f.funct7 * 2 ^ 25 }
{
    let low = f.rd / 2 * 2 + ((f.funct7 % (1 << 6)) << 5);
    extended(13, low + ((f.rd % 2) << 11) + ((f.funct7 >> 6) << 12))
}

/// The offset of format J in bytes.
pub(crate) fn jump_offset(f: Fields) -> u32
    requires { IsCut f }
    ensures value { result ≡ reading.jump_offset f }
    ensures range { IsOffset 21 result }
    ensures middle { result / 2 ^ 12 % 2 ^ 8 * 2 ^ 12 ≡ f.funct3 * 2 ^ 12 + f.rs1 * 2 ^ 15 }
    ensures low { result / 2 ^ 11 % 2 * 2 ^ 20 + result / 2 % 2 ^ 10 * 2 ^ 21
        + result / 2 ^ 20 % 2 * 2 ^ 31
        ≡ f.rs2 * 2 ^ 20 + f.funct7 * 2 ^ 25 }
{
    let low = f.rs2 / 2 * 2 + ((f.funct7 % (1 << 6)) << 5) + ((f.rs2 % 2) << 11);
    extended(
        21,
        low + (f.funct3 << 12) + (f.rs1 << 15) + ((f.funct7 >> 6) << 20),
    )
}

/// The twenty bits of format U.
pub(crate) fn upper_immediate(f: Fields) -> u32
    requires { IsCut f }
    ensures value { result ≡ reading.upper_immediate f }
    ensures range { result < 2 ^ 20 }
{
    f.funct3 + (f.rs1 << 3) + (f.rs2 << 8) + (f.funct7 << 13)
}
