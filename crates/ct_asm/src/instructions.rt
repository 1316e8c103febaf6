//! The instructions of a statement.

ghost use Rattle.std.specs.Prelude.{◌≡◌, ◌∷◌, ◌<◌, ◌^◌, ◌%◌, [], true};
ghost use Rattle.def_instr.specs.Table.{FieldsFit, FitsImmediate, InRange, IsSigned};
ghost use Rattle.def_instr.specs.Shapes.{shaped};
ghost use Rattle.def_source.specs.Source as source;
ghost use Rattle.def_object.specs.Object as object;
ghost use Rattle.ct_source.specs.Views.{part_view};
ghost use Rattle.ct_asm.specs.Labels.{label_named};
ghost use Rattle.def_instr.specs.declared.Instr.TheVariants as instr;
ghost use Rattle.def_instr.specs.declared.shapes.Shape.TheVariants as shapes;
ghost use Rattle.ct_asm.specs.Emitting.{instructions_in, AreInRange, IsFound, is_plain, plain_shape};

use crate::labels::Labels;
use crate::names::Names;
use crate::places::{is_short, number_word};
use crate::ways::{
    branch_target, high_piece, jump_target, label_offset, low_piece, rest_part, upper_part,
};
use ct_isa::{Instr, instruction};
use def_instr::shapes::{BranchOperation, ImmediateOperation, RegisterOperation, Shape};
use def_source::parts::{BareOperation, Number, Part};

/// The instructions that a statement stands for.
#[derive(Clone, Copy, Drop)]
pub(crate) enum Emitted {
    Nothing,
    One { only: Instr },
    Two { first: Instr, second: Instr },
}

/// The word of a number from -2048 to 2047.
#[tactic(auto, using(crate::proofs::Reach::signed_word))]
fn signed_word(number: Number) -> u32
    requires { source.within 2048 2047 number ≡ true }
    ensures value { result ≡ object.number_word number }
    ensures range { IsSigned 12 result }
{
    number_word(number)
}

/// The word of a number from 0 to 31.
#[tactic(auto, using(crate::proofs::Reach::small_word))]
fn amount_word(number: Number) -> u32
    requires { source.within 0 31 number ≡ true }
    ensures value { result ≡ object.number_word number }
    ensures range { result < 32 }
{
    number_word(number)
}

/// The word of a number from 0 to 4095.
#[tactic(auto, using(crate::proofs::Reach::small_word))]
fn length_word(number: Number) -> u32
    requires { source.within 0 4095 number ≡ true }
    ensures value { result ≡ object.number_word number }
    ensures range { result < 2 ^ 12 }
{
    number_word(number)
}

/// The word of an operation's number.
fn immediate_word(operation: ImmediateOperation, number: Number) -> u32
    requires { source.fits_immediate operation number ≡ true }
    ensures value { result ≡ object.number_word number }
    ensures range { FitsImmediate operation result }
{
    match operation {
        ImmediateOperation::Signed(_) | ImmediateOperation::CIncAddrImm => signed_word(number),
        ImmediateOperation::Shift(_) => amount_word(number),
        ImmediateOperation::CSetBoundsImm => length_word(number),
    }
}

/// The instruction of a mnemonic without operands.
fn bare(operation: BareOperation) -> Instr
    ensures value { result ≡ object.bare_instruction operation }
    ensures range { InRange result }
{
    match operation {
        BareOperation::Fence => Instr::Fence { immediate: 0 },
        BareOperation::Ecall => Instr::Ecall,
        BareOperation::Ebreak => Instr::Ebreak,
    }
}

/// The instruction of a shape.
fn formed(shape: Shape) -> Instr
    requires { FieldsFit shape }
    ensures value { result ≡ shaped shape }
    ensures range { InRange result }
{
    instruction(shape)
}

/// One instruction.
fn one(only: Instr) -> Emitted
    requires { InRange only }
    ensures value { instructions_in result ≡ only ∷ [] }
    ensures range { AreInRange (instructions_in result) }
{
    Emitted::One { only }
}

/// Two instructions.
fn two(first: Instr, second: Instr) -> Emitted
    requires first { InRange first }
    requires second { InRange second }
    ensures value { instructions_in result ≡ first ∷ second ∷ [] }
    ensures range { AreInRange (instructions_in result) }
{
    Emitted::Two { first, second }
}

/// `addi rd, rs1, immediate`
fn add(rd: u32, rs1: u32, immediate: u32) -> Instr
    requires rd { rd < 16 }
    requires rs1 { rs1 < 16 }
    requires immediate { IsSigned 12 immediate }
    ensures value { result ≡ instr.Addi rd rs1 immediate }
    ensures range { InRange result }
{
    Instr::Addi { rd, rs1, immediate }
}

/// `cjalr c0, 0(rs1)`, and with a link in rd.
fn jump_register(rd: u32, rs1: u32) -> Instr
    requires rd { rd < 16 }
    requires rs1 { rs1 < 16 }
    ensures value { result ≡ instr.CJalr rd rs1 0 }
    ensures range { InRange result }
{
    Instr::CJalr {
        rd,
        rs1,
        immediate: 0,
    }
}

/// The instructions that load a number.
fn load_number(rd: u32, number: Number) -> Emitted
    requires { rd < 16 }
    ensures value { instructions_in result
        ≡ object.number_instructions rd (object.number_word number) }
    ensures range { AreInRange (instructions_in result) }
{
    let word = number_word(number);
    if is_short(word) {
        return one(add(rd, 0, word));
    }
    let upper = Instr::Lui {
        rd,
        immediate: upper_part(word),
    };
    two(upper, add(rd, rd, rest_part(word)))
}

/// `cincaddrimm rd, rd, immediate`, the second of two that lead to an address.
fn add_to_address(rd: u32, immediate: u32) -> Instr
    requires rd { rd < 16 }
    requires immediate { IsSigned 12 immediate }
    ensures value { result ≡ instr.CIncAddrImm rd rd immediate }
    ensures range { InRange result }
{
    Instr::CIncAddrImm {
        rd,
        rs1: rd,
        immediate,
    }
}

/// The number of a name's slot.
fn slot_number(slots: &Names, name: &[u8]) -> u128
    ensures value { result ≡ object.slot_or_zero (object.slot_of slots.now name.now) }
    ensures small { result < 2 ^ 64 }
{
    match slots.slot(name) {
        Some(k) => k as u128,
        None => 0,
    }
}

/// The instructions that load the capability of a slot. Slots of eight bytes stand before the text.
fn load_slot(slots: &Names, at: u128, rd: u32, name: &[u8]) -> Emitted
    requires rd { rd < 16 }
    requires at { at < 2 ^ 101 }
    ensures value { instructions_in result ≡ object.import_instructions slots.now at rd name.now }
    ensures range { AreInRange (instructions_in result) }
{
    let from = 8 * slots.len() as u128 + at;
    let to = 8 * slot_number(slots, name);
    let first = Instr::AuiPcc {
        rd,
        immediate: high_piece(from, to),
    };
    let second = Instr::Clc {
        rd,
        rs1: rd,
        immediate: low_piece(from, to),
    };
    two(first, second)
}

/// The instructions that make the address of a text label.
fn text_address(at: u128, rd: u32, to: u128) -> Emitted
    requires { rd < 16 }
    ensures value { instructions_in result ≡ object.text_instructions at rd to }
    ensures range { AreInRange (instructions_in result) }
{
    let first = Instr::AuiPcc {
        rd,
        immediate: high_piece(at, to),
    };
    two(first, add_to_address(rd, low_piece(at, to)))
}

/// The instructions that make the address of a label of the initial bytes.
fn global_address(rd: u32, to: u128) -> Emitted
    requires { rd < 16 }
    ensures value { instructions_in result ≡ object.global_instructions rd to }
    ensures range { AreInRange (instructions_in result) }
{
    let first = Instr::AuiCgp {
        rd,
        immediate: high_piece(0, to),
    };
    two(first, add_to_address(rd, low_piece(0, to)))
}

/// The shape of a statement with a mnemonic and no target.
fn shape(part: Part<&[u8]>) -> Shape
    requires plain { is_plain (part_view part) ≡ true }
    requires fit { source.numbers_fit (part_view part) ≡ true }
    requires exist { source.registers_exist (part_view part) ≡ true }
    ensures value { result ≡ plain_shape (part_view part.entry) }
    ensures range { FieldsFit result }
{
    match part {
        Part::Registers {
            operation,
            rd,
            rs1,
            rs2,
        } => registers(operation, rd, rs1, rs2),
        Part::Immediate {
            operation,
            rd,
            rs1,
            number,
        } => Shape::Immediate {
            operation,
            rd,
            rs1,
            immediate: immediate_word(operation, number),
        },
        Part::Upper {
            operation,
            rd,
            number,
        } => Shape::Upper {
            operation,
            rd,
            immediate: number_word(number) % (1 << 20),
        },
        Part::Load {
            operation,
            rd,
            number,
            rs1,
        } => Shape::Load {
            operation,
            rd,
            rs1,
            immediate: signed_word(number),
        },
        Part::Store {
            operation,
            rs2,
            number,
            rs1,
        } => Shape::Store {
            operation,
            rs1,
            rs2,
            immediate: signed_word(number),
        },
        _ => unreachable!(),
    }
}

/// The instructions that a statement at a place of the text stands for.
pub(crate) fn instructions(labels: &Labels, slots: &Names, at: u128, part: Part<&[u8]>) -> Emitted
    requires fit { source.numbers_fit (part_view part) ≡ true }
    requires exist { source.registers_exist (part_view part) ≡ true }
    requires found { IsFound (λ n. label_named n labels.now) at (part_view part) }
    requires at { at < 2 ^ 101 }
    ensures value { instructions_in result
        ≡ object.instructions_at (λ n. label_named n labels.now) slots.now at
        (part_view part.entry) }
    ensures range { AreInRange (instructions_in result) }
{
    match part {
        Part::Registers { .. }
        | Part::Immediate { .. }
        | Part::Upper { .. }
        | Part::Load { .. }
        | Part::Store { .. } => one(formed(shape(part))),
        Part::Branch {
            operation,
            rs1,
            rs2,
            target,
        } => one(formed(branch(operation, rs1, rs2, branch_target(labels, at, target)))),
        Part::IfZero { rs, target } => {
            let offset = branch_target(labels, at, target);
            one(formed(branch(BranchOperation::Beq, rs, 0, offset)))
        }
        Part::IfNotZero { rs, target } => {
            let offset = branch_target(labels, at, target);
            one(formed(branch(BranchOperation::Bne, rs, 0, offset)))
        }
        Part::Jal { rd, target } | Part::JumpAndLink { rd, target } => {
            let offset = jump_target(labels, at, target);
            one(Instr::Jal { rd, offset })
        }
        Part::Jump { target } => {
            let offset = jump_target(labels, at, target);
            one(Instr::Jal { rd: 0, offset })
        }
        Part::RegisterJump { rd, number, rs1 } => {
            let immediate = signed_word(number);
            one(Instr::CJalr { rd, rs1, immediate })
        }
        Part::Source { operation, rd, rs1 } => one(formed(Shape::OneSource { operation, rd, rs1 })),
        Part::JumpCapability { rd, rs1 } => one(jump_register(rd, rs1)),
        Part::Return => one(jump_register(0, 1)),
        Part::JumpRegister { rs } => one(jump_register(0, rs)),
        Part::Bare { operation } => one(bare(operation)),
        Part::Nop => one(add(0, 0, 0)),
        Part::Move { rd, rs } => one(add(rd, rs, 0)),
        Part::LoadImmediate { rd, number } => load_number(rd, number),
        Part::Import { rd, name } => load_slot(slots, at, rd, name),
        Part::TextAddress { rd, label } => text_address(at, rd, label_offset(labels.get(label))),
        Part::GlobalAddress { rd, label } => global_address(rd, label_offset(labels.get(label))),
        _ => Emitted::Nothing,
    }
}

/// A branch's shape.
fn branch(operation: BranchOperation, rs1: u32, rs2: u32, offset: u32) -> Shape
    ensures { result ≡ shapes.Branch operation rs1 rs2 offset }
{
    Shape::Branch {
        operation,
        rs1,
        rs2,
        offset,
    }
}

/// The shape of two sources and a result.
fn registers(operation: RegisterOperation, rd: u32, rs1: u32, rs2: u32) -> Shape
    ensures { result ≡ shapes.Registers operation rd rs1 rs2 }
{
    Shape::Registers {
        operation,
        rd,
        rs1,
        rs2,
    }
}
