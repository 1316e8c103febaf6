//! Branches and jumps.

ghost use Rattle.std.specs.Prelude.{◌≡◌, ◌<◌, ◌⊎◌, IfSome};
ghost use Rattle.def_instr.specs.Table.{EncodesTo};
ghost use Rattle.def_instr.specs.Reading.{IsCut, word_of_fields, branch_of, jump_of, register_jump_of};

use crate::fields::{branch_offset, jump_offset, signed_immediate, two_small};
use def_instr::{Fields, Instr};

/// A branch, by funct3.
pub(crate) fn branch(f: Fields) -> Option<Instr>
    requires cut { IsCut f }
    requires opcode { f.opcode ≡ 0x63 }
    ensures exact { result ≡ branch_of f }
    ensures sound { IfSome result (λ i. EncodesTo i (word_of_fields f)) }
{
    if !two_small(f.rs1, f.rs2) {
        return None;
    }
    let (rs1, rs2, offset) = (f.rs1, f.rs2, branch_offset(f));
    match f.funct3 {
        0 => Some(Instr::Beq { rs1, rs2, offset }),
        1 => Some(Instr::Bne { rs1, rs2, offset }),
        4 => Some(Instr::Blt { rs1, rs2, offset }),
        5 => Some(Instr::Bge { rs1, rs2, offset }),
        6 => Some(Instr::Bltu { rs1, rs2, offset }),
        7 => Some(Instr::Bgeu { rs1, rs2, offset }),
        _ => None,
    }
}

/// A jump by an offset.
pub(crate) fn jump(f: Fields) -> Option<Instr>
    requires cut { IsCut f }
    requires opcode { f.opcode ≡ 0x6F }
    ensures exact { result ≡ jump_of f }
    ensures sound { IfSome result (λ i. EncodesTo i (word_of_fields f)) }
{
    if f.rd < 16 {
        return Some(Instr::Jal {
            rd: f.rd,
            offset: jump_offset(f),
        });
    }
    None
}

/// A jump to a capability in a register.
pub(crate) fn register_jump(f: Fields) -> Option<Instr>
    requires cut { IsCut f }
    requires opcode { f.opcode ≡ 0x67 }
    ensures exact { result ≡ register_jump_of f }
    ensures sound { IfSome result (λ i. EncodesTo i (word_of_fields f)) }
{
    if f.funct3 == 0 && two_small(f.rd, f.rs1) {
        return Some(Instr::CJalr {
            rd: f.rd,
            rs1: f.rs1,
            immediate: signed_immediate(f),
        });
    }
    None
}
