//! One instruction, by what it is.

ghost use Rattle.std.specs.Prelude.{◌≡◌, ◌%◌};
ghost use Rattle.def_step.specs.Operands.{operands_of};
ghost use Rattle.ct_decode.specs.Reading.{AreRegisters};
ghost use Rattle.ct_burst.specs.Carrying.{Carried, IsHeld};

use crate::accesses::{load, load_of, load_whole, store, store_of};
use crate::capabilities::{derive, derive_apart};
use crate::going::Quietly;
use crate::integers::compute;
use crate::jumping::{branch, jump, jump_register};
use ct_areas::Thread;
use ct_decode::Reading;
use ct_mem::Memory;
use ct_threads::Window;
use def_instr::Instr;

/// Who carries an instruction out: `burst`.
pub(crate) struct InBurst;

/// Who carries an instruction out: `once`.
pub(crate) struct Alone;

/// An instruction is carried out, or left. Who carries it out has a copy of this code of its own, for speed alone.
#[inline(always)]
pub(crate) fn carry<M: Memory, Who>(
    row: &mut Thread,
    mem: &mut M,
    ram: u32,
    reading: &Reading,
    window: Window,
) -> Quietly
    requires even { ram % 16 ≡ 0 }
    requires held { IsHeld row.old window }
    requires registers { AreRegisters (operands_of reading.now.instruction) }
    ensures { Carried ram row.old (M.granules mem.old) window reading.now.instruction result row.new
        (M.granules mem.new) }
{
    match reading.instruction {
        Instr::Lb { rd, rs1, immediate } => {
            load(
                row,
                mem,
                ram,
                &reading.instruction,
                load_of(1, true, false, rs1, immediate),
                rd,
                window,
            )
        }
        Instr::Lh { rd, rs1, immediate } => {
            load(
                row,
                mem,
                ram,
                &reading.instruction,
                load_of(2, true, false, rs1, immediate),
                rd,
                window,
            )
        }
        Instr::Lw { rd, rs1, immediate } => {
            load(
                row,
                mem,
                ram,
                &reading.instruction,
                load_of(4, false, false, rs1, immediate),
                rd,
                window,
            )
        }
        Instr::Lbu { rd, rs1, immediate } => {
            load(
                row,
                mem,
                ram,
                &reading.instruction,
                load_of(1, false, false, rs1, immediate),
                rd,
                window,
            )
        }
        Instr::Lhu { rd, rs1, immediate } => {
            load(
                row,
                mem,
                ram,
                &reading.instruction,
                load_of(2, false, false, rs1, immediate),
                rd,
                window,
            )
        }
        Instr::Clc { rd, rs1, immediate } => {
            load_whole(row, mem, ram, rd, rs1, immediate, window)
        }
        Instr::Sb {
            rs1,
            rs2,
            immediate,
        } => {
            store(
                row,
                mem,
                ram,
                &reading.instruction,
                store_of(1, false, rs1, immediate),
                rs2,
                window,
            )
        }
        Instr::Sh {
            rs1,
            rs2,
            immediate,
        } => {
            store(
                row,
                mem,
                ram,
                &reading.instruction,
                store_of(2, false, rs1, immediate),
                rs2,
                window,
            )
        }
        Instr::Sw {
            rs1,
            rs2,
            immediate,
        } => {
            store(
                row,
                mem,
                ram,
                &reading.instruction,
                store_of(4, false, rs1, immediate),
                rs2,
                window,
            )
        }
        Instr::Csc {
            rs1,
            rs2,
            immediate,
        } => {
            store(
                row,
                mem,
                ram,
                &reading.instruction,
                store_of(8, true, rs1, immediate),
                rs2,
                window,
            )
        }
        Instr::Add { rd, rs1, rs2 } => compute(row, reading.instruction, rd, rs1, rs2, window),
        Instr::Sub { rd, rs1, rs2 } => compute(row, reading.instruction, rd, rs1, rs2, window),
        Instr::Sll { rd, rs1, rs2 } => compute(row, reading.instruction, rd, rs1, rs2, window),
        Instr::Slt { rd, rs1, rs2 } => compute(row, reading.instruction, rd, rs1, rs2, window),
        Instr::Sltu { rd, rs1, rs2 } => compute(row, reading.instruction, rd, rs1, rs2, window),
        Instr::Xor { rd, rs1, rs2 } => compute(row, reading.instruction, rd, rs1, rs2, window),
        Instr::Srl { rd, rs1, rs2 } => compute(row, reading.instruction, rd, rs1, rs2, window),
        Instr::Sra { rd, rs1, rs2 } => compute(row, reading.instruction, rd, rs1, rs2, window),
        Instr::Or { rd, rs1, rs2 } => compute(row, reading.instruction, rd, rs1, rs2, window),
        Instr::And { rd, rs1, rs2 } => compute(row, reading.instruction, rd, rs1, rs2, window),
        Instr::Mul { rd, rs1, rs2 } => compute(row, reading.instruction, rd, rs1, rs2, window),
        Instr::Mulh { rd, rs1, rs2 } => compute(row, reading.instruction, rd, rs1, rs2, window),
        Instr::Mulhsu { rd, rs1, rs2 } => compute(row, reading.instruction, rd, rs1, rs2, window),
        Instr::Mulhu { rd, rs1, rs2 } => compute(row, reading.instruction, rd, rs1, rs2, window),
        Instr::Div { rd, rs1, rs2 } => compute(row, reading.instruction, rd, rs1, rs2, window),
        Instr::Divu { rd, rs1, rs2 } => compute(row, reading.instruction, rd, rs1, rs2, window),
        Instr::Rem { rd, rs1, rs2 } => compute(row, reading.instruction, rd, rs1, rs2, window),
        Instr::Remu { rd, rs1, rs2 } => compute(row, reading.instruction, rd, rs1, rs2, window),
        Instr::Addi { rd, rs1, .. } => compute(row, reading.instruction, rd, rs1, 0, window),
        Instr::Slti { rd, rs1, .. } => compute(row, reading.instruction, rd, rs1, 0, window),
        Instr::Sltiu { rd, rs1, .. } => compute(row, reading.instruction, rd, rs1, 0, window),
        Instr::Xori { rd, rs1, .. } => compute(row, reading.instruction, rd, rs1, 0, window),
        Instr::Ori { rd, rs1, .. } => compute(row, reading.instruction, rd, rs1, 0, window),
        Instr::Andi { rd, rs1, .. } => compute(row, reading.instruction, rd, rs1, 0, window),
        Instr::Slli { rd, rs1, .. } => compute(row, reading.instruction, rd, rs1, 0, window),
        Instr::Srli { rd, rs1, .. } => compute(row, reading.instruction, rd, rs1, 0, window),
        Instr::Srai { rd, rs1, .. } => compute(row, reading.instruction, rd, rs1, 0, window),
        Instr::Lui { rd, .. } => compute(row, reading.instruction, rd, 0, 0, window),
        Instr::Beq { rs1, rs2, offset } => branch(
            row,
            reading.instruction,
            rs1,
            rs2,
            offset,
            window,
        ),
        Instr::Bne { rs1, rs2, offset } => branch(
            row,
            reading.instruction,
            rs1,
            rs2,
            offset,
            window,
        ),
        Instr::Blt { rs1, rs2, offset } => branch(
            row,
            reading.instruction,
            rs1,
            rs2,
            offset,
            window,
        ),
        Instr::Bge { rs1, rs2, offset } => branch(
            row,
            reading.instruction,
            rs1,
            rs2,
            offset,
            window,
        ),
        Instr::Bltu { rs1, rs2, offset } => branch(
            row,
            reading.instruction,
            rs1,
            rs2,
            offset,
            window,
        ),
        Instr::Bgeu { rs1, rs2, offset } => branch(
            row,
            reading.instruction,
            rs1,
            rs2,
            offset,
            window,
        ),
        Instr::Jal { rd, offset } => jump(row, rd, offset, window),
        Instr::CJalr { rd, rs1, immediate } => jump_register(row, rd, rs1, immediate, window),
        Instr::CIncAddr { rd, rs1, rs2 } => derive(row, reading.instruction, rd, rs1, rs2, window),
        Instr::CSetAddr { rd, rs1, rs2 } => derive(row, reading.instruction, rd, rs1, rs2, window),
        Instr::CSub { rd, rs1, rs2 } => derive(row, reading.instruction, rd, rs1, rs2, window),
        Instr::CMove { rd, rs1 } => derive(row, reading.instruction, rd, rs1, 0, window),
        Instr::CGetAddr { rd, rs1 } => derive(row, reading.instruction, rd, rs1, 0, window),
        Instr::CGetTag { rd, rs1 } => derive(row, reading.instruction, rd, rs1, 0, window),
        Instr::CGetHigh { rd, rs1 } => derive(row, reading.instruction, rd, rs1, 0, window),
        Instr::CGetPerm { rd, rs1 } => derive(row, reading.instruction, rd, rs1, 0, window),
        Instr::CGetType { rd, rs1 } => derive(row, reading.instruction, rd, rs1, 0, window),
        Instr::CIncAddrImm { rd, rs1, .. } => derive(row, reading.instruction, rd, rs1, 0, window),
        Instr::CSetBounds { rd, rs1, rs2 } => derive_apart(row, reading, rd, rs1, rs2, window),
        Instr::CSetBoundsExact { rd, rs1, rs2 } => derive_apart(row, reading, rd, rs1, rs2, window),
        Instr::CSeal { rd, rs1, rs2 } => derive_apart(row, reading, rd, rs1, rs2, window),
        Instr::CUnseal { rd, rs1, rs2 } => derive_apart(row, reading, rd, rs1, rs2, window),
        Instr::CAndPerm { rd, rs1, rs2 } => derive_apart(row, reading, rd, rs1, rs2, window),
        Instr::CSetHigh { rd, rs1, rs2 } => derive_apart(row, reading, rd, rs1, rs2, window),
        Instr::CTestSubset { rd, rs1, rs2 } => derive_apart(row, reading, rd, rs1, rs2, window),
        Instr::CSetEqualExact { rd, rs1, rs2 } => derive_apart(row, reading, rd, rs1, rs2, window),
        Instr::CGetBase { rd, rs1 } => derive_apart(row, reading, rd, rs1, 0, window),
        Instr::CGetLen { rd, rs1 } => derive_apart(row, reading, rd, rs1, 0, window),
        Instr::CGetTop { rd, rs1 } => derive_apart(row, reading, rd, rs1, 0, window),
        Instr::Crrl { rd, rs1 } => derive_apart(row, reading, rd, rs1, 0, window),
        Instr::Cram { rd, rs1 } => derive_apart(row, reading, rd, rs1, 0, window),
        Instr::CClearTag { rd, rs1 } => derive_apart(row, reading, rd, rs1, 0, window),
        Instr::CSetBoundsImm { rd, rs1, .. } => derive_apart(row, reading, rd, rs1, 0, window),
        Instr::AuiPcc { rd, .. } => derive_apart(row, reading, rd, 0, 0, window),
        Instr::AuiCgp { rd, .. } => derive_apart(row, reading, rd, 3, 0, window),
        Instr::Fence { .. }
        | Instr::Ecall
        | Instr::Ebreak
        | Instr::Csr { .. }
        | Instr::CSpecialRw { .. } => Quietly::Loud,
    }
}
