//! The shape of an instruction, and back.

ghost use Rattle.std.specs.Prelude.{◌≡◌, ◌⊎◌, IsTrue};
ghost use Rattle.def_instr.specs.Shapes.{is_integer};
ghost use Rattle.def_instr.specs.Shapes.{shape_of, shaped, is_capability};
ghost use Rattle.def_instr.specs.declared.shapes.Shape.TheVariants as shapes;
ghost use Rattle.def_instr.specs.declared.shapes.RegisterOperation.TheVariants as registers;
ghost use Rattle.def_instr.specs.declared.shapes.ImmediateOperation.TheVariants as immediates;

use def_instr::Instr;
use def_instr::shapes::{
    BranchOperation, CapabilityOperation as Capability, ImmediateOperation, IntegerOperation,
    LoadOperation, RegisterOperation, Shape, ShiftOperation, SignedOperation, SourceOperation,
    StoreOperation, UpperOperation,
};

/// The shape of an instruction.
pub fn shape(instruction: Instr) -> Shape
    ensures value { result ≡ shape_of instruction }
    ensures back { shaped result ≡ instruction }
{
    match instruction {
        Instr::Jal { rd, offset } => Shape::Jump { rd, offset },
        Instr::CJalr { rd, rs1, immediate } => Shape::RegisterJump { rd, rs1, immediate },
        Instr::Beq { rs1, rs2, offset } => branch(BranchOperation::Beq, rs1, rs2, offset),
        Instr::Bne { rs1, rs2, offset } => branch(BranchOperation::Bne, rs1, rs2, offset),
        Instr::Blt { rs1, rs2, offset } => branch(BranchOperation::Blt, rs1, rs2, offset),
        Instr::Bge { rs1, rs2, offset } => branch(BranchOperation::Bge, rs1, rs2, offset),
        Instr::Bltu { rs1, rs2, offset } => branch(BranchOperation::Bltu, rs1, rs2, offset),
        Instr::Bgeu { rs1, rs2, offset } => branch(BranchOperation::Bgeu, rs1, rs2, offset),
        Instr::Lb { rd, rs1, immediate } => load(LoadOperation::Lb, rd, rs1, immediate),
        Instr::Lh { rd, rs1, immediate } => load(LoadOperation::Lh, rd, rs1, immediate),
        Instr::Lw { rd, rs1, immediate } => load(LoadOperation::Lw, rd, rs1, immediate),
        Instr::Clc { rd, rs1, immediate } => load(LoadOperation::Clc, rd, rs1, immediate),
        Instr::Lbu { rd, rs1, immediate } => load(LoadOperation::Lbu, rd, rs1, immediate),
        Instr::Lhu { rd, rs1, immediate } => load(LoadOperation::Lhu, rd, rs1, immediate),
        Instr::Sb {
            rs1,
            rs2,
            immediate,
        } => store(StoreOperation::Sb, rs1, rs2, immediate),
        Instr::Sh {
            rs1,
            rs2,
            immediate,
        } => store(StoreOperation::Sh, rs1, rs2, immediate),
        Instr::Sw {
            rs1,
            rs2,
            immediate,
        } => store(StoreOperation::Sw, rs1, rs2, immediate),
        Instr::Csc {
            rs1,
            rs2,
            immediate,
        } => store(StoreOperation::Csc, rs1, rs2, immediate),
        Instr::Fence { immediate } => Shape::Fence { immediate },
        Instr::Ecall => Shape::Call,
        Instr::Ebreak => Shape::Break,
        Instr::Csr {
            function,
            rd,
            source,
            number,
        } => Shape::Status {
            function,
            rd,
            source,
            number,
        },
        Instr::CSpecialRw { rd, rs1, number } => Shape::Special { rd, rs1, number },
        _ => computing_shape(instruction),
    }
}

/// The shape of an integer instruction, or of one on capabilities.
fn computing_shape(instruction: Instr) -> Shape
    requires { IsTrue (is_integer instruction) ⊎ IsTrue (is_capability instruction) }
    ensures value { result ≡ shape_of instruction }
    ensures back { shaped result ≡ instruction }
{
    match instruction {
        Instr::Lui { rd, immediate } => upper(UpperOperation::Lui, rd, immediate),
        Instr::Addi { rd, rs1, immediate } => signed(SignedOperation::Addi, rd, rs1, immediate),
        Instr::Slti { rd, rs1, immediate } => signed(SignedOperation::Slti, rd, rs1, immediate),
        Instr::Sltiu { rd, rs1, immediate } => signed(SignedOperation::Sltiu, rd, rs1, immediate),
        Instr::Xori { rd, rs1, immediate } => signed(SignedOperation::Xori, rd, rs1, immediate),
        Instr::Ori { rd, rs1, immediate } => signed(SignedOperation::Ori, rd, rs1, immediate),
        Instr::Andi { rd, rs1, immediate } => signed(SignedOperation::Andi, rd, rs1, immediate),
        Instr::Slli { rd, rs1, amount } => shift(ShiftOperation::Slli, rd, rs1, amount),
        Instr::Srli { rd, rs1, amount } => shift(ShiftOperation::Srli, rd, rs1, amount),
        Instr::Srai { rd, rs1, amount } => shift(ShiftOperation::Srai, rd, rs1, amount),
        Instr::Add { rd, rs1, rs2 } => integer(IntegerOperation::Add, rd, rs1, rs2),
        Instr::Sub { rd, rs1, rs2 } => integer(IntegerOperation::Sub, rd, rs1, rs2),
        Instr::Sll { rd, rs1, rs2 } => integer(IntegerOperation::Sll, rd, rs1, rs2),
        Instr::Slt { rd, rs1, rs2 } => integer(IntegerOperation::Slt, rd, rs1, rs2),
        Instr::Sltu { rd, rs1, rs2 } => integer(IntegerOperation::Sltu, rd, rs1, rs2),
        Instr::Xor { rd, rs1, rs2 } => integer(IntegerOperation::Xor, rd, rs1, rs2),
        Instr::Srl { rd, rs1, rs2 } => integer(IntegerOperation::Srl, rd, rs1, rs2),
        Instr::Sra { rd, rs1, rs2 } => integer(IntegerOperation::Sra, rd, rs1, rs2),
        Instr::Or { rd, rs1, rs2 } => integer(IntegerOperation::Or, rd, rs1, rs2),
        Instr::And { rd, rs1, rs2 } => integer(IntegerOperation::And, rd, rs1, rs2),
        Instr::Mul { rd, rs1, rs2 } => integer(IntegerOperation::Mul, rd, rs1, rs2),
        Instr::Mulh { rd, rs1, rs2 } => integer(IntegerOperation::Mulh, rd, rs1, rs2),
        Instr::Mulhsu { rd, rs1, rs2 } => integer(IntegerOperation::Mulhsu, rd, rs1, rs2),
        Instr::Mulhu { rd, rs1, rs2 } => integer(IntegerOperation::Mulhu, rd, rs1, rs2),
        Instr::Div { rd, rs1, rs2 } => integer(IntegerOperation::Div, rd, rs1, rs2),
        Instr::Divu { rd, rs1, rs2 } => integer(IntegerOperation::Divu, rd, rs1, rs2),
        Instr::Rem { rd, rs1, rs2 } => integer(IntegerOperation::Rem, rd, rs1, rs2),
        Instr::Remu { rd, rs1, rs2 } => integer(IntegerOperation::Remu, rd, rs1, rs2),
        _ => capability_shape(instruction),
    }
}

/// The shape of an instruction on capabilities.
fn capability_shape(instruction: Instr) -> Shape
    requires { IsTrue (is_capability instruction) }
    ensures value { result ≡ shape_of instruction }
    ensures back { shaped result ≡ instruction }
{
    match instruction {
        Instr::AuiPcc { rd, immediate } => upper(UpperOperation::AuiPcc, rd, immediate),
        Instr::AuiCgp { rd, immediate } => upper(UpperOperation::AuiCgp, rd, immediate),
        Instr::CIncAddrImm { rd, rs1, immediate } => numbered(
            ImmediateOperation::CIncAddrImm,
            rd,
            rs1,
            immediate,
        ),
        Instr::CSetBoundsImm { rd, rs1, immediate } => numbered(
            ImmediateOperation::CSetBoundsImm,
            rd,
            rs1,
            immediate,
        ),
        Instr::CSetBounds { rd, rs1, rs2 } => capability(Capability::CSetBounds, rd, rs1, rs2),
        Instr::CSetBoundsExact { rd, rs1, rs2 } => capability(
            Capability::CSetBoundsExact,
            rd,
            rs1,
            rs2,
        ),
        Instr::CSeal { rd, rs1, rs2 } => capability(Capability::CSeal, rd, rs1, rs2),
        Instr::CUnseal { rd, rs1, rs2 } => capability(Capability::CUnseal, rd, rs1, rs2),
        Instr::CAndPerm { rd, rs1, rs2 } => capability(Capability::CAndPerm, rd, rs1, rs2),
        Instr::CSetAddr { rd, rs1, rs2 } => capability(Capability::CSetAddr, rd, rs1, rs2),
        Instr::CIncAddr { rd, rs1, rs2 } => capability(Capability::CIncAddr, rd, rs1, rs2),
        Instr::CSub { rd, rs1, rs2 } => capability(Capability::CSub, rd, rs1, rs2),
        Instr::CSetHigh { rd, rs1, rs2 } => capability(Capability::CSetHigh, rd, rs1, rs2),
        Instr::CTestSubset { rd, rs1, rs2 } => capability(Capability::CTestSubset, rd, rs1, rs2),
        Instr::CSetEqualExact { rd, rs1, rs2 } => capability(
            Capability::CSetEqualExact,
            rd,
            rs1,
            rs2,
        ),
        Instr::CGetPerm { rd, rs1 } => one_source(SourceOperation::CGetPerm, rd, rs1),
        Instr::CGetType { rd, rs1 } => one_source(SourceOperation::CGetType, rd, rs1),
        Instr::CGetBase { rd, rs1 } => one_source(SourceOperation::CGetBase, rd, rs1),
        Instr::CGetLen { rd, rs1 } => one_source(SourceOperation::CGetLen, rd, rs1),
        Instr::CGetTag { rd, rs1 } => one_source(SourceOperation::CGetTag, rd, rs1),
        Instr::Crrl { rd, rs1 } => one_source(SourceOperation::Crrl, rd, rs1),
        Instr::Cram { rd, rs1 } => one_source(SourceOperation::Cram, rd, rs1),
        Instr::CMove { rd, rs1 } => one_source(SourceOperation::CMove, rd, rs1),
        Instr::CClearTag { rd, rs1 } => one_source(SourceOperation::CClearTag, rd, rs1),
        Instr::CGetAddr { rd, rs1 } => one_source(SourceOperation::CGetAddr, rd, rs1),
        Instr::CGetHigh { rd, rs1 } => one_source(SourceOperation::CGetHigh, rd, rs1),
        Instr::CGetTop { rd, rs1 } => one_source(SourceOperation::CGetTop, rd, rs1),
        _ => unreachable!(),
    }
}

fn integer(operation: IntegerOperation, rd: u32, rs1: u32, rs2: u32) -> Shape
    ensures { result ≡ shapes.Registers (registers.Integer operation) rd rs1 rs2 }
{
    Shape::Registers {
        operation: RegisterOperation::Integer(operation),
        rd,
        rs1,
        rs2,
    }
}

fn capability(operation: Capability, rd: u32, rs1: u32, rs2: u32) -> Shape
    ensures { result ≡ shapes.Registers (registers.Capability operation) rd rs1 rs2 }
{
    Shape::Registers {
        operation: RegisterOperation::Capability(operation),
        rd,
        rs1,
        rs2,
    }
}

fn numbered(operation: ImmediateOperation, rd: u32, rs1: u32, immediate: u32) -> Shape
    ensures { result ≡ shapes.Immediate operation rd rs1 immediate }
{
    Shape::Immediate {
        operation,
        rd,
        rs1,
        immediate,
    }
}

fn signed(operation: SignedOperation, rd: u32, rs1: u32, number: u32) -> Shape
    ensures { result ≡ shapes.Immediate (immediates.Signed operation) rd rs1 number }
{
    numbered(ImmediateOperation::Signed(operation), rd, rs1, number)
}

fn shift(operation: ShiftOperation, rd: u32, rs1: u32, amount: u32) -> Shape
    ensures { result ≡ shapes.Immediate (immediates.Shift operation) rd rs1 amount }
{
    numbered(ImmediateOperation::Shift(operation), rd, rs1, amount)
}

fn upper(operation: UpperOperation, rd: u32, immediate: u32) -> Shape
    ensures { result ≡ shapes.Upper operation rd immediate }
{
    Shape::Upper {
        operation,
        rd,
        immediate,
    }
}

fn load(operation: LoadOperation, rd: u32, rs1: u32, immediate: u32) -> Shape
    ensures { result ≡ shapes.Load operation rd rs1 immediate }
{
    Shape::Load {
        operation,
        rd,
        rs1,
        immediate,
    }
}

fn store(operation: StoreOperation, rs1: u32, rs2: u32, immediate: u32) -> Shape
    ensures { result ≡ shapes.Store operation rs1 rs2 immediate }
{
    Shape::Store {
        operation,
        rs1,
        rs2,
        immediate,
    }
}

fn branch(operation: BranchOperation, rs1: u32, rs2: u32, offset: u32) -> Shape
    ensures { result ≡ shapes.Branch operation rs1 rs2 offset }
{
    Shape::Branch {
        operation,
        rs1,
        rs2,
        offset,
    }
}

fn one_source(operation: SourceOperation, rd: u32, rs1: u32) -> Shape
    ensures { result ≡ shapes.OneSource operation rd rs1 }
{
    Shape::OneSource { operation, rd, rs1 }
}
