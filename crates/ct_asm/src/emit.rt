//! The bytes of statements.

ghost use Rattle.std.specs.Prelude.{◌≡◌, ◌++◌, ◌∷◌, ◌<◌, ◌≤◌, ◌^◌, [], true, OnOk, replicate};
ghost use Rattle.def_instr.specs.Table.{InRange};
ghost use Rattle.def_source.specs.Source as source;
ghost use Rattle.def_object.specs.Object as object;
ghost use Rattle.ct_source.specs.Views.{part_view};
ghost use Rattle.ct_asm.specs.Labels.{label_named};
ghost use Rattle.ct_asm.specs.Emitting.{instructions_in, AreInRange, IsFound};

use crate::instructions::{Emitted, instructions};
use crate::labels::Labels;
use crate::names::Names;
use crate::places::{number_word, padding};
use ct_isa::{Instr, encode};
use def_source::parts::Part;
use std::alloc::AllocError;

/// Adds a word, the lowest byte first.
fn push_word(out: &mut Vec<u8>, word: u32) -> Result<(), AllocError>
    ensures { OnOk result (out.new.items ≡ out.old.items ++ object.word_bytes word) }
{
    out.extend_from_slice(&word.to_le_bytes())
}

/// Adds an instruction.
fn push(out: &mut Vec<u8>, instruction: Instr) -> Result<(), AllocError>
    requires { InRange instruction }
    ensures { OnOk result
        (out.new.items ≡ out.old.items ++ object.instruction_bytes (instruction ∷ [])) }
{
    push_word(out, encode(instruction))
}

/// Adds two instructions.
fn push_two(out: &mut Vec<u8>, first: Instr, second: Instr) -> Result<(), AllocError>
    requires first { InRange first }
    requires second { InRange second }
    ensures { OnOk result
        (out.new.items ≡ out.old.items ++ object.instruction_bytes (first ∷ second ∷ [])) }
{
    push(out, first)?;
    push(out, second)
}

/// Adds the instructions of a statement.
fn push_all(out: &mut Vec<u8>, emitted: Emitted) -> Result<(), AllocError>
    requires { AreInRange (instructions_in emitted) }
    ensures { OnOk result
        (out.new.items ≡ out.old.items ++ object.instruction_bytes (instructions_in emitted)) }
{
    match emitted {
        Emitted::Nothing => Ok(()),
        Emitted::One { only } => push(out, only),
        Emitted::Two { first, second } => push_two(out, first, second),
    }
}

/// Adds zero bytes.
fn push_zeros(out: &mut Vec<u8>, count: u128) -> Result<(), AllocError>
    requires { count ≤ 2 ^ 20 }
    ensures { OnOk result (out.new.items ≡ out.old.items ++ replicate count 0) }
{
    out.resize(out.len() + count as usize, 0)
}

/// Adds the bytes of a statement at a place of its section.
pub(crate) fn push_statement(
    out: &mut Vec<u8>,
    labels: &Labels,
    slots: &Names,
    at: u128,
    part: Part<&[u8]>,
) -> Result<(), AllocError>
    requires fit { source.numbers_fit (part_view part) ≡ true }
    requires exist { source.registers_exist (part_view part) ≡ true }
    requires found { IsFound (λ n. label_named n labels.now) at (part_view part) }
    requires at { at < 2 ^ 101 }
    ensures { OnOk result
        (out.new.items ≡ out.old.items
        ++ object.bytes_at (λ n. label_named n labels.now) slots.now at (part_view part.entry)) }
{
    match part {
        Part::Word { number } => push_word(out, number_word(number)),
        Part::Byte { number } => Ok(out.push((number_word(number) % 256) as u8)?),
        Part::Zero { number } => push_zeros(out, number.magnitude),
        Part::Align { number } => push_zeros(out, padding(number.magnitude, at)),
        Part::Label { .. }
        | Part::Text
        | Part::Data
        | Part::Registers { .. }
        | Part::Immediate { .. }
        | Part::Upper { .. }
        | Part::Load { .. }
        | Part::RegisterJump { .. }
        | Part::JumpCapability { .. }
        | Part::Store { .. }
        | Part::Branch { .. }
        | Part::Jal { .. }
        | Part::Source { .. }
        | Part::Bare { .. }
        | Part::Nop
        | Part::Move { .. }
        | Part::Jump { .. }
        | Part::JumpAndLink { .. }
        | Part::Return
        | Part::JumpRegister { .. }
        | Part::IfZero { .. }
        | Part::IfNotZero { .. }
        | Part::LoadImmediate { .. }
        | Part::Import { .. }
        | Part::TextAddress { .. }
        | Part::GlobalAddress { .. } => push_all(out, instructions(labels, slots, at, part)),
    }
}
