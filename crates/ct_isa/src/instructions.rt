//! The instruction of a shape.

ghost use Rattle.std.specs.Prelude.{◌≡◌};
ghost use Rattle.def_instr.specs.Shapes.{shape_of, shaped};
ghost use Rattle.def_instr.specs.declared.shapes.Shape.TheVariants as shapes;
ghost use Rattle.def_instr.specs.declared.shapes.RegisterOperation.TheVariants as registers;
ghost use Rattle.def_instr.specs.declared.shapes.ImmediateOperation.TheVariants as immediates;

use def_instr::Instr;
use def_instr::shapes::{
    BranchOperation, CapabilityOperation, ImmediateOperation, IntegerOperation, LoadOperation,
    RegisterOperation, Shape, ShiftOperation, SignedOperation, SourceOperation, StoreOperation,
    UpperOperation,
};

/// The instruction of a shape.
pub fn instruction(shape: Shape) -> Instr
    ensures value { result ≡ shaped shape }
    ensures back { shape_of result ≡ shape }
{
    match shape {
        Shape::Registers {
            operation,
            rd,
            rs1,
            rs2,
        } => registers(operation, rd, rs1, rs2),
        Shape::Immediate {
            operation,
            rd,
            rs1,
            immediate,
        } => numbered(operation, rd, rs1, immediate),
        Shape::Upper {
            operation,
            rd,
            immediate,
        } => upper(operation, rd, immediate),
        Shape::Load {
            operation,
            rd,
            rs1,
            immediate,
        } => load(operation, rd, rs1, immediate),
        Shape::Store {
            operation,
            rs1,
            rs2,
            immediate,
        } => store(operation, rs1, rs2, immediate),
        Shape::Branch {
            operation,
            rs1,
            rs2,
            offset,
        } => branch(operation, rs1, rs2, offset),
        Shape::Jump { rd, offset } => Instr::Jal { rd, offset },
        Shape::RegisterJump { rd, rs1, immediate } => Instr::CJalr { rd, rs1, immediate },
        Shape::OneSource { operation, rd, rs1 } => one_source(operation, rd, rs1),
        Shape::Fence { immediate } => Instr::Fence { immediate },
        Shape::Call => Instr::Ecall,
        Shape::Break => Instr::Ebreak,
        Shape::Status {
            function,
            rd,
            source,
            number,
        } => Instr::Csr {
            function,
            rd,
            source,
            number,
        },
        Shape::Special { rd, rs1, number } => Instr::CSpecialRw { rd, rs1, number },
    }
}

fn registers(operation: RegisterOperation, rd: u32, rs1: u32, rs2: u32) -> Instr
    ensures value { result ≡ shaped (shapes.Registers operation rd rs1 rs2) }
    ensures back { shape_of result ≡ shapes.Registers operation rd rs1 rs2 }
{
    match operation {
        RegisterOperation::Integer(operation) => integer(operation, rd, rs1, rs2),
        RegisterOperation::Capability(operation) => capability(operation, rd, rs1, rs2),
    }
}

fn integer(operation: IntegerOperation, rd: u32, rs1: u32, rs2: u32) -> Instr
    ensures value { result ≡ shaped (shapes.Registers (registers.Integer operation) rd rs1 rs2) }
    ensures back { shape_of result ≡ shapes.Registers (registers.Integer operation) rd rs1 rs2 }
{
    match operation {
        IntegerOperation::Add => Instr::Add { rd, rs1, rs2 },
        IntegerOperation::Sub => Instr::Sub { rd, rs1, rs2 },
        IntegerOperation::Sll => Instr::Sll { rd, rs1, rs2 },
        IntegerOperation::Slt => Instr::Slt { rd, rs1, rs2 },
        IntegerOperation::Sltu => Instr::Sltu { rd, rs1, rs2 },
        IntegerOperation::Xor => Instr::Xor { rd, rs1, rs2 },
        IntegerOperation::Srl => Instr::Srl { rd, rs1, rs2 },
        IntegerOperation::Sra => Instr::Sra { rd, rs1, rs2 },
        IntegerOperation::Or => Instr::Or { rd, rs1, rs2 },
        IntegerOperation::And => Instr::And { rd, rs1, rs2 },
        IntegerOperation::Mul => Instr::Mul { rd, rs1, rs2 },
        IntegerOperation::Mulh => Instr::Mulh { rd, rs1, rs2 },
        IntegerOperation::Mulhsu => Instr::Mulhsu { rd, rs1, rs2 },
        IntegerOperation::Mulhu => Instr::Mulhu { rd, rs1, rs2 },
        IntegerOperation::Div => Instr::Div { rd, rs1, rs2 },
        IntegerOperation::Divu => Instr::Divu { rd, rs1, rs2 },
        IntegerOperation::Rem => Instr::Rem { rd, rs1, rs2 },
        IntegerOperation::Remu => Instr::Remu { rd, rs1, rs2 },
    }
}

fn capability(operation: CapabilityOperation, rd: u32, rs1: u32, rs2: u32) -> Instr
    ensures value { result ≡ shaped (shapes.Registers (registers.Capability operation) rd rs1 rs2) }
    ensures back { shape_of result ≡ shapes.Registers (registers.Capability operation) rd rs1 rs2 }
{
    match operation {
        CapabilityOperation::CSetBounds => Instr::CSetBounds { rd, rs1, rs2 },
        CapabilityOperation::CSetBoundsExact => Instr::CSetBoundsExact { rd, rs1, rs2 },
        CapabilityOperation::CSeal => Instr::CSeal { rd, rs1, rs2 },
        CapabilityOperation::CUnseal => Instr::CUnseal { rd, rs1, rs2 },
        CapabilityOperation::CAndPerm => Instr::CAndPerm { rd, rs1, rs2 },
        CapabilityOperation::CSetAddr => Instr::CSetAddr { rd, rs1, rs2 },
        CapabilityOperation::CIncAddr => Instr::CIncAddr { rd, rs1, rs2 },
        CapabilityOperation::CSub => Instr::CSub { rd, rs1, rs2 },
        CapabilityOperation::CSetHigh => Instr::CSetHigh { rd, rs1, rs2 },
        CapabilityOperation::CTestSubset => Instr::CTestSubset { rd, rs1, rs2 },
        CapabilityOperation::CSetEqualExact => Instr::CSetEqualExact { rd, rs1, rs2 },
    }
}

fn numbered(operation: ImmediateOperation, rd: u32, rs1: u32, immediate: u32) -> Instr
    ensures value { result ≡ shaped (shapes.Immediate operation rd rs1 immediate) }
    ensures back { shape_of result ≡ shapes.Immediate operation rd rs1 immediate }
{
    match operation {
        ImmediateOperation::Signed(operation) => signed(operation, rd, rs1, immediate),
        ImmediateOperation::Shift(operation) => shift(operation, rd, rs1, immediate),
        ImmediateOperation::CIncAddrImm => Instr::CIncAddrImm { rd, rs1, immediate },
        ImmediateOperation::CSetBoundsImm => Instr::CSetBoundsImm { rd, rs1, immediate },
    }
}

fn signed(operation: SignedOperation, rd: u32, rs1: u32, immediate: u32) -> Instr
    ensures value { result
        ≡ shaped (shapes.Immediate (immediates.Signed operation) rd rs1 immediate) }
    ensures back { shape_of result
        ≡ shapes.Immediate (immediates.Signed operation) rd rs1 immediate }
{
    match operation {
        SignedOperation::Addi => Instr::Addi { rd, rs1, immediate },
        SignedOperation::Slti => Instr::Slti { rd, rs1, immediate },
        SignedOperation::Sltiu => Instr::Sltiu { rd, rs1, immediate },
        SignedOperation::Xori => Instr::Xori { rd, rs1, immediate },
        SignedOperation::Ori => Instr::Ori { rd, rs1, immediate },
        SignedOperation::Andi => Instr::Andi { rd, rs1, immediate },
    }
}

fn shift(operation: ShiftOperation, rd: u32, rs1: u32, amount: u32) -> Instr
    ensures value { result ≡ shaped (shapes.Immediate (immediates.Shift operation) rd rs1 amount) }
    ensures back { shape_of result ≡ shapes.Immediate (immediates.Shift operation) rd rs1 amount }
{
    match operation {
        ShiftOperation::Slli => Instr::Slli { rd, rs1, amount },
        ShiftOperation::Srli => Instr::Srli { rd, rs1, amount },
        ShiftOperation::Srai => Instr::Srai { rd, rs1, amount },
    }
}

fn upper(operation: UpperOperation, rd: u32, immediate: u32) -> Instr
    ensures value { result ≡ shaped (shapes.Upper operation rd immediate) }
    ensures back { shape_of result ≡ shapes.Upper operation rd immediate }
{
    match operation {
        UpperOperation::Lui => Instr::Lui { rd, immediate },
        UpperOperation::AuiPcc => Instr::AuiPcc { rd, immediate },
        UpperOperation::AuiCgp => Instr::AuiCgp { rd, immediate },
    }
}

fn load(operation: LoadOperation, rd: u32, rs1: u32, immediate: u32) -> Instr
    ensures value { result ≡ shaped (shapes.Load operation rd rs1 immediate) }
    ensures back { shape_of result ≡ shapes.Load operation rd rs1 immediate }
{
    match operation {
        LoadOperation::Lb => Instr::Lb { rd, rs1, immediate },
        LoadOperation::Lh => Instr::Lh { rd, rs1, immediate },
        LoadOperation::Lw => Instr::Lw { rd, rs1, immediate },
        LoadOperation::Clc => Instr::Clc { rd, rs1, immediate },
        LoadOperation::Lbu => Instr::Lbu { rd, rs1, immediate },
        LoadOperation::Lhu => Instr::Lhu { rd, rs1, immediate },
    }
}

fn store(operation: StoreOperation, rs1: u32, rs2: u32, immediate: u32) -> Instr
    ensures value { result ≡ shaped (shapes.Store operation rs1 rs2 immediate) }
    ensures back { shape_of result ≡ shapes.Store operation rs1 rs2 immediate }
{
    match operation {
        StoreOperation::Sb => Instr::Sb {
            rs1,
            rs2,
            immediate,
        },
        StoreOperation::Sh => Instr::Sh {
            rs1,
            rs2,
            immediate,
        },
        StoreOperation::Sw => Instr::Sw {
            rs1,
            rs2,
            immediate,
        },
        StoreOperation::Csc => Instr::Csc {
            rs1,
            rs2,
            immediate,
        },
    }
}

fn branch(operation: BranchOperation, rs1: u32, rs2: u32, offset: u32) -> Instr
    ensures value { result ≡ shaped (shapes.Branch operation rs1 rs2 offset) }
    ensures back { shape_of result ≡ shapes.Branch operation rs1 rs2 offset }
{
    match operation {
        BranchOperation::Beq => Instr::Beq { rs1, rs2, offset },
        BranchOperation::Bne => Instr::Bne { rs1, rs2, offset },
        BranchOperation::Blt => Instr::Blt { rs1, rs2, offset },
        BranchOperation::Bge => Instr::Bge { rs1, rs2, offset },
        BranchOperation::Bltu => Instr::Bltu { rs1, rs2, offset },
        BranchOperation::Bgeu => Instr::Bgeu { rs1, rs2, offset },
    }
}

fn one_source(operation: SourceOperation, rd: u32, rs1: u32) -> Instr
    ensures value { result ≡ shaped (shapes.OneSource operation rd rs1) }
    ensures back { shape_of result ≡ shapes.OneSource operation rd rs1 }
{
    match operation {
        SourceOperation::CGetPerm => Instr::CGetPerm { rd, rs1 },
        SourceOperation::CGetType => Instr::CGetType { rd, rs1 },
        SourceOperation::CGetBase => Instr::CGetBase { rd, rs1 },
        SourceOperation::CGetLen => Instr::CGetLen { rd, rs1 },
        SourceOperation::CGetTag => Instr::CGetTag { rd, rs1 },
        SourceOperation::Crrl => Instr::Crrl { rd, rs1 },
        SourceOperation::Cram => Instr::Cram { rd, rs1 },
        SourceOperation::CMove => Instr::CMove { rd, rs1 },
        SourceOperation::CClearTag => Instr::CClearTag { rd, rs1 },
        SourceOperation::CGetAddr => Instr::CGetAddr { rd, rs1 },
        SourceOperation::CGetHigh => Instr::CGetHigh { rd, rs1 },
        SourceOperation::CGetTop => Instr::CGetTop { rd, rs1 },
    }
}
