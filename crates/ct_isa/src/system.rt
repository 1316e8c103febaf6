//! Upper immediates, fences and the system instructions.

ghost use Rattle.std.specs.Prelude.{◌≡◌, ◌<◌, ◌⊎◌, IfSome};
ghost use Rattle.def_instr.specs.Table.{EncodesTo};
ghost use Rattle.def_instr.specs.Reading.{IsCut, word_of_fields, upper_of, fence_of, call_of, system_of};

use crate::fields::{low_immediate, signed_immediate, upper_immediate};
use def_instr::{Fields, Instr};

/// A load of upper bits, or an address from upper bits.
pub(crate) fn upper(f: Fields) -> Option<Instr>
    requires cut { IsCut f }
    requires opcode { (f.opcode ≡ 0x37) ⊎ (f.opcode ≡ 0x17) ⊎ (f.opcode ≡ 0x7B) }
    ensures exact { result ≡ upper_of f }
    ensures sound { IfSome result (λ i. EncodesTo i (word_of_fields f)) }
{
    if f.rd >= 16 {
        return None;
    }
    let (rd, immediate) = (f.rd, upper_immediate(f));
    match f.opcode {
        0x37 => Some(Instr::Lui { rd, immediate }),
        0x17 => Some(Instr::AuiPcc { rd, immediate }),
        _ => Some(Instr::AuiCgp { rd, immediate }),
    }
}

/// A fence, whose registers are 0.
pub(crate) fn fence(f: Fields) -> Option<Instr>
    requires cut { IsCut f }
    requires opcode { f.opcode ≡ 0x0F }
    ensures exact { result ≡ fence_of f }
    ensures sound { IfSome result (λ i. EncodesTo i (word_of_fields f)) }
{
    if f.funct3 == 0 && f.rd == 0 && f.rs1 == 0 {
        return Some(Instr::Fence {
            immediate: signed_immediate(f),
        });
    }
    None
}

/// The two traps, each of which is one word.
fn call(f: Fields) -> Option<Instr>
    requires cut { IsCut f }
    requires opcode { f.opcode ≡ 0x73 }
    requires funct3 { f.funct3 ≡ 0 }
    ensures exact { result ≡ call_of f }
    ensures sound { IfSome result (λ i. EncodesTo i (word_of_fields f)) }
{
    if f.rd != 0 || f.rs1 != 0 || f.funct7 != 0 {
        return None;
    }
    match f.rs2 {
        0 => Some(Instr::Ecall),
        1 => Some(Instr::Ebreak),
        _ => None,
    }
}

/// A trap, or an access of a control and status register: functions 5 to 7 take any five bits in place of a register.
pub(crate) fn system(f: Fields) -> Option<Instr>
    requires cut { IsCut f }
    requires opcode { f.opcode ≡ 0x73 }
    ensures exact { result ≡ system_of f }
    ensures sound { IfSome result (λ i. EncodesTo i (word_of_fields f)) }
{
    match f.funct3 {
        0 => call(f),
        4 => None,
        function => {
            if f.rd < 16 && (function >= 5 || f.rs1 < 16) {
                return Some(Instr::Csr {
                    function,
                    rd: f.rd,
                    source: f.rs1,
                    number: low_immediate(f),
                });
            }
            None
        }
    }
}
