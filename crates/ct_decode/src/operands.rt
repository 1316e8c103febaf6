//! The registers of an instruction, and what kind of work it is.

ghost use Rattle.std.specs.Prelude.{◌≡◌, ◌<◌, true, false};
ghost use Rattle.def_instr.specs.Shapes.{is_access_shape, is_capability_shape, is_integer_shape, is_jump_shape, is_system_shape, shaped};
ghost use Rattle.def_step.specs.declared.Class.TheVariants as kinds;
ghost use Rattle.def_instr.specs.Table.{InRange};
ghost use Rattle.def_step.specs.Operands.{operands, shape_operands, shape_class};

use def_instr::shapes::{ImmediateOperation, RegisterOperation, Shape, UpperOperation};
use def_step::{Class, Operands};

/// Three registers together.
fn operands(to: u32, first: u32, second: u32) -> Operands
    requires to { to < 16 }
    requires first { first < 16 }
    requires second { second < 16 }
    ensures is { result ≡ operands to first second }
    ensures to { result.to < 16 }
    ensures first { result.first < 16 }
    ensures second { result.second < 16 }
{
    Operands { to, first, second }
}

/// The register that an instruction of this shape writes, and its first and second source.
pub fn operands_of(shape: Shape) -> Operands
    requires { InRange (shaped shape) }
    ensures is { result ≡ shape_operands shape }
    ensures to { result.to < 16 }
    ensures first { result.first < 16 }
    ensures second { result.second < 16 }
{
    match shape {
        Shape::Registers { rd, rs1, rs2, .. } => operands(rd, rs1, rs2),
        Shape::Upper {
            operation: UpperOperation::AuiCgp,
            rd,
            ..
        } => operands(rd, 3, 0),
        Shape::Upper { rd, .. } | Shape::Jump { rd, .. } => operands(rd, 0, 0),
        Shape::Immediate { rd, rs1, .. }
        | Shape::Load { rd, rs1, .. }
        | Shape::RegisterJump { rd, rs1, .. }
        | Shape::OneSource { rd, rs1, .. } => operands(rd, rs1, 0),
        Shape::Store { rs1, rs2, .. } | Shape::Branch { rs1, rs2, .. } => operands(0, rs1, rs2),
        Shape::Fence { .. }
        | Shape::Call
        | Shape::Break
        | Shape::Status { .. }
        | Shape::Special { .. } => operands(0, 0, 0),
    }
}

/// What kind of work an instruction of this shape is.
pub fn class_of(shape: Shape) -> Class
    ensures is { result ≡ shape_class shape }
    ensures integer { result ≡ kinds.Integer → is_integer_shape shape ≡ true }
    ensures capability { result ≡ kinds.Capability
        → (is_capability_shape shape ≡ true) × (is_system_shape shape ≡ false) }
    ensures jump { result ≡ kinds.Jump → is_jump_shape shape ≡ true }
    ensures access { result ≡ kinds.Access → is_access_shape shape ≡ true }
{
    match shape {
        Shape::Registers {
            operation: RegisterOperation::Integer(_),
            ..
        }
        | Shape::Immediate {
            operation: ImmediateOperation::Signed(_) | ImmediateOperation::Shift(_),
            ..
        }
        | Shape::Upper {
            operation: UpperOperation::Lui,
            ..
        } => Class::Integer,
        Shape::Registers { .. }
        | Shape::Immediate { .. }
        | Shape::Upper { .. }
        | Shape::OneSource { .. } => Class::Capability,
        Shape::Load { .. } | Shape::Store { .. } => Class::Access,
        Shape::Branch { .. } | Shape::Jump { .. } | Shape::RegisterJump { .. } => Class::Jump,
        Shape::Fence { .. } => Class::Fence,
        Shape::Call => Class::Call,
        Shape::Break => Class::Break,
        Shape::Status { .. } | Shape::Special { .. } => Class::System,
    }
}
