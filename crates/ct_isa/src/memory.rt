//! Loads and stores.

ghost use Rattle.std.specs.Prelude.{◌≡◌, ◌<◌, ◌⊎◌, IfSome};
ghost use Rattle.def_instr.specs.Table.{EncodesTo};
ghost use Rattle.def_instr.specs.Reading.{IsCut, word_of_fields, load_instruction, store_instruction};

use crate::fields::{signed_immediate, store_immediate, two_small};
use def_instr::{Fields, Instr};

/// A load, by funct3.
pub(crate) fn load(f: Fields) -> Option<Instr>
    requires cut { IsCut f }
    requires opcode { f.opcode ≡ 0x03 }
    ensures exact { result ≡ load_instruction f }
    ensures sound { IfSome result (λ i. EncodesTo i (word_of_fields f)) }
{
    if !two_small(f.rd, f.rs1) {
        return None;
    }
    let (rd, rs1, immediate) = (f.rd, f.rs1, signed_immediate(f));
    match f.funct3 {
        0 => Some(Instr::Lb { rd, rs1, immediate }),
        1 => Some(Instr::Lh { rd, rs1, immediate }),
        2 => Some(Instr::Lw { rd, rs1, immediate }),
        3 => Some(Instr::Clc { rd, rs1, immediate }),
        4 => Some(Instr::Lbu { rd, rs1, immediate }),
        5 => Some(Instr::Lhu { rd, rs1, immediate }),
        _ => None,
    }
}

/// A store, by funct3.
pub(crate) fn store(f: Fields) -> Option<Instr>
    requires cut { IsCut f }
    requires opcode { f.opcode ≡ 0x23 }
    ensures exact { result ≡ store_instruction f }
    ensures sound { IfSome result (λ i. EncodesTo i (word_of_fields f)) }
{
    if !two_small(f.rs1, f.rs2) {
        return None;
    }
    let (rs1, rs2, immediate) = (f.rs1, f.rs2, store_immediate(f));
    match f.funct3 {
        0 => Some(Instr::Sb {
            rs1,
            rs2,
            immediate,
        }),
        1 => Some(Instr::Sh {
            rs1,
            rs2,
            immediate,
        }),
        2 => Some(Instr::Sw {
            rs1,
            rs2,
            immediate,
        }),
        3 => Some(Instr::Csc {
            rs1,
            rs2,
            immediate,
        }),
        _ => None,
    }
}
