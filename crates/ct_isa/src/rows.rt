//! The words of instructions, by shape.

ghost use Rattle.std.specs.Prelude.{◌≡◌, ◌<◌, ◌^◌};
ghost use Rattle.def_instr.specs.Table.{FieldsFit, shape_word, integer_code, signed_funct3, shift_code, upper_opcode, load_funct3, store_funct3, branch_funct3, capability_funct7, source_number};
ghost use Rattle.def_instr.specs.declared.shapes.Shape.TheVariants as shapes;

use crate::formats::{
    branch_word, immediate_word, jump_word, register_word, store_word, upper_word,
};
use def_instr::shapes::{
    BranchOperation, CapabilityOperation, ImmediateOperation, IntegerOperation, LoadOperation,
    RegisterOperation, Shape, ShiftOperation, SignedOperation, SourceOperation, StoreOperation,
    UpperOperation,
};

/// The word of a shape whose fields fit.
pub(crate) fn word(shape: Shape) -> u32
    requires { FieldsFit shape }
    ensures { result ≡ shape_word shape }
{
    match shape {
        Shape::Registers {
            operation,
            rd,
            rs1,
            rs2,
        } => registers(operation, rd, rs1, rs2),
        Shape::Immediate {
            operation,
            rd,
            rs1,
            immediate,
        } => with_immediate(operation, rd, rs1, immediate),
        Shape::Upper {
            operation,
            rd,
            immediate,
        } => upper_word(upper_opcode(operation), rd, immediate),
        Shape::Load {
            operation,
            rd,
            rs1,
            immediate,
        } => immediate_word(0x03, load_funct3(operation), rd, rs1, immediate),
        Shape::Store {
            operation,
            rs1,
            rs2,
            immediate,
        } => store_word(store_funct3(operation), rs1, rs2, immediate),
        Shape::Branch {
            operation,
            rs1,
            rs2,
            offset,
        } => branch_word(branch_funct3(operation), rs1, rs2, offset),
        Shape::Jump { rd, offset } => jump_word(rd, offset),
        Shape::RegisterJump { rd, rs1, immediate } => immediate_word(0x67, 0, rd, rs1, immediate),
        Shape::OneSource { operation, rd, rs1 } => {
            register_word(0x5B, 0, 0x7F, rd, rs1, source_number(operation))
        }
        Shape::Fence { immediate } => immediate_word(0x0F, 0, 0, 0, immediate),
        Shape::Call => 0x0000_0073,
        Shape::Break => 0x0010_0073,
        Shape::Status {
            function,
            rd,
            source,
            number,
        } => immediate_word(0x73, function, rd, source, number),
        Shape::Special { rd, rs1, number } => register_word(0x5B, 0, 0x01, rd, rs1, number),
    }
}

/// Two sources and a result.
fn registers(operation: RegisterOperation, rd: u32, rs1: u32, rs2: u32) -> u32
    requires rd { rd < 16 }
    requires rs1 { rs1 < 16 }
    requires rs2 { rs2 < 16 }
    ensures { result ≡ shape_word (shapes.Registers operation rd rs1 rs2) }
{
    match operation {
        RegisterOperation::Integer(operation) => {
            let (funct3, funct7) = integer_code(operation);
            register_word(0x33, funct3, funct7, rd, rs1, rs2)
        }
        RegisterOperation::Capability(operation) => {
            register_word(0x5B, 0, capability_funct7(operation), rd, rs1, rs2)
        }
    }
}

/// A source, a number and a result.
fn with_immediate(operation: ImmediateOperation, rd: u32, rs1: u32, immediate: u32) -> u32
    requires { FieldsFit (shapes.Immediate operation rd rs1 immediate) }
    ensures { result ≡ shape_word (shapes.Immediate operation rd rs1 immediate) }
{
    match operation {
        ImmediateOperation::Signed(operation) => {
            immediate_word(0x13, signed_funct3(operation), rd, rs1, immediate)
        }
        ImmediateOperation::Shift(operation) => {
            let (funct3, funct7) = shift_code(operation);
            register_word(0x13, funct3, funct7, rd, rs1, immediate)
        }
        ImmediateOperation::CIncAddrImm => immediate_word(0x5B, 1, rd, rs1, immediate),
        ImmediateOperation::CSetBoundsImm => immediate_word(0x5B, 2, rd, rs1, immediate),
    }
}

/// funct3 and funct7 of an integer operation.
fn integer_code(operation: IntegerOperation) -> (u32, u32)
    ensures funct3 { result.0 ≡ (integer_code operation).funct3 }
    ensures funct7 { result.1 ≡ (integer_code operation).funct7 }
    ensures small { (result.0 < 2 ^ 3) × (result.1 < 2 ^ 7) }
{
    match operation {
        IntegerOperation::Add => (0, 0x00),
        IntegerOperation::Sub => (0, 0x20),
        IntegerOperation::Sll => (1, 0x00),
        IntegerOperation::Slt => (2, 0x00),
        IntegerOperation::Sltu => (3, 0x00),
        IntegerOperation::Xor => (4, 0x00),
        IntegerOperation::Srl => (5, 0x00),
        IntegerOperation::Sra => (5, 0x20),
        IntegerOperation::Or => (6, 0x00),
        IntegerOperation::And => (7, 0x00),
        IntegerOperation::Mul => (0, 0x01),
        IntegerOperation::Mulh => (1, 0x01),
        IntegerOperation::Mulhsu => (2, 0x01),
        IntegerOperation::Mulhu => (3, 0x01),
        IntegerOperation::Div => (4, 0x01),
        IntegerOperation::Divu => (5, 0x01),
        IntegerOperation::Rem => (6, 0x01),
        IntegerOperation::Remu => (7, 0x01),
    }
}

fn signed_funct3(operation: SignedOperation) -> u32
    ensures value { result ≡ signed_funct3 operation }
    ensures small { result < 2 ^ 3 }
{
    match operation {
        SignedOperation::Addi => 0,
        SignedOperation::Slti => 2,
        SignedOperation::Sltiu => 3,
        SignedOperation::Xori => 4,
        SignedOperation::Ori => 6,
        SignedOperation::Andi => 7,
    }
}

/// funct3 and funct7 of a shift.
fn shift_code(operation: ShiftOperation) -> (u32, u32)
    ensures funct3 { result.0 ≡ (shift_code operation).funct3 }
    ensures funct7 { result.1 ≡ (shift_code operation).funct7 }
    ensures small { (result.0 < 2 ^ 3) × (result.1 < 2 ^ 7) }
{
    match operation {
        ShiftOperation::Slli => (1, 0x00),
        ShiftOperation::Srli => (5, 0x00),
        ShiftOperation::Srai => (5, 0x20),
    }
}

fn upper_opcode(operation: UpperOperation) -> u32
    ensures value { result ≡ upper_opcode operation }
    ensures small { result < 2 ^ 7 }
{
    match operation {
        UpperOperation::Lui => 0x37,
        UpperOperation::AuiPcc => 0x17,
        UpperOperation::AuiCgp => 0x7B,
    }
}

fn load_funct3(operation: LoadOperation) -> u32
    ensures value { result ≡ load_funct3 operation }
    ensures small { result < 2 ^ 3 }
{
    match operation {
        LoadOperation::Lb => 0,
        LoadOperation::Lh => 1,
        LoadOperation::Lw => 2,
        LoadOperation::Clc => 3,
        LoadOperation::Lbu => 4,
        LoadOperation::Lhu => 5,
    }
}

fn store_funct3(operation: StoreOperation) -> u32
    ensures value { result ≡ store_funct3 operation }
    ensures small { result < 2 ^ 3 }
{
    match operation {
        StoreOperation::Sb => 0,
        StoreOperation::Sh => 1,
        StoreOperation::Sw => 2,
        StoreOperation::Csc => 3,
    }
}

fn branch_funct3(operation: BranchOperation) -> u32
    ensures value { result ≡ branch_funct3 operation }
    ensures small { result < 2 ^ 3 }
{
    match operation {
        BranchOperation::Beq => 0,
        BranchOperation::Bne => 1,
        BranchOperation::Blt => 4,
        BranchOperation::Bge => 5,
        BranchOperation::Bltu => 6,
        BranchOperation::Bgeu => 7,
    }
}

fn capability_funct7(operation: CapabilityOperation) -> u32
    ensures value { result ≡ capability_funct7 operation }
    ensures small { result < 2 ^ 7 }
{
    match operation {
        CapabilityOperation::CSetBounds => 0x08,
        CapabilityOperation::CSetBoundsExact => 0x09,
        CapabilityOperation::CSeal => 0x0B,
        CapabilityOperation::CUnseal => 0x0C,
        CapabilityOperation::CAndPerm => 0x0D,
        CapabilityOperation::CSetAddr => 0x10,
        CapabilityOperation::CIncAddr => 0x11,
        CapabilityOperation::CSub => 0x14,
        CapabilityOperation::CSetHigh => 0x16,
        CapabilityOperation::CTestSubset => 0x20,
        CapabilityOperation::CSetEqualExact => 0x21,
    }
}

/// What stands in rs2's place of an instruction with one source.
fn source_number(operation: SourceOperation) -> u32
    ensures value { result ≡ source_number operation }
    ensures small { result < 2 ^ 5 }
{
    match operation {
        SourceOperation::CGetPerm => 0x00,
        SourceOperation::CGetType => 0x01,
        SourceOperation::CGetBase => 0x02,
        SourceOperation::CGetLen => 0x03,
        SourceOperation::CGetTag => 0x04,
        SourceOperation::Crrl => 0x08,
        SourceOperation::Cram => 0x09,
        SourceOperation::CMove => 0x0A,
        SourceOperation::CClearTag => 0x0B,
        SourceOperation::CGetAddr => 0x0F,
        SourceOperation::CGetHigh => 0x17,
        SourceOperation::CGetTop => 0x18,
    }
}
