//! What a statement may hold: its section, the ranges of its numbers, and the registers that the
//! machine has.

ghost use Rattle.std.specs.Prelude.{◌≡◌, ◌-◌, ◌≤◌, ◌%◌, ◌==◌, ◌&&◌, nat_lt};
ghost use Rattle.def_source.specs.Source as source;
ghost use Rattle.def_source.specs.declared.reaches.TheConstants.{MOST_ALIGNMENT};
ghost use Rattle.ct_source.specs.Views.{part_view, target_view};

use def_instr::shapes::ImmediateOperation;
use def_profile::limits::MOST_BYTES;
use def_source::parts::{Number, Part, Section, Target};
use def_source::reaches::{BRANCH_REACH, JUMP_REACH, MOST_ALIGNMENT};

/// Whether the section has such statements: instructions stand in text, bytes, zeros and alignment
/// among the initial bytes.
pub(crate) fn in_section(section: Section, part: Part<&[u8]>) -> bool
    ensures { result ≡ source.in_section section (part_view part.entry) }
{
    match part {
        Part::Label { .. } | Part::Text | Part::Data | Part::Word { .. } => true,
        Part::Byte { .. } | Part::Zero { .. } | Part::Align { .. } => section.is_data(),
        _ => section.is_text(),
    }
}

/// Whether a number isn't below -low, nor above high.
fn within(low: u128, high: u128, number: Number) -> bool
    ensures { result ≡ source.within low high number }
{
    if number.negative {
        number.magnitude <= low
    } else {
        number.magnitude <= high
    }
}

fn fits_immediate(operation: ImmediateOperation, number: Number) -> bool
    ensures { result ≡ source.fits_immediate operation number }
{
    match operation {
        ImmediateOperation::Signed(_) | ImmediateOperation::CIncAddrImm => {
            within(2048, 2047, number)
        }
        ImmediateOperation::Shift(_) => within(0, 31, number),
        ImmediateOperation::CSetBoundsImm => within(0, 4095, number),
    }
}

/// Whether an offset is even and at most so many bytes. A label's reach is a matter of the object.
fn fits_target(reach: u128, target: Target<&[u8]>) -> bool
    requires { 2 ≤ reach }
    ensures { result ≡ source.fits_target reach (target_view target.entry) }
{
    match target {
        Target::Label(_) => true,
        Target::Offset(number) => within(reach, reach - 2, number) && number.magnitude % 2 == 0,
    }
}

/// Whether a number is 1 or a power of two up to the greatest alignment.
fn fits_align(number: Number) -> bool
    ensures { result
        ≡ (source.within 0 MOST_ALIGNMENT number && nat_lt 0 number.magnitude
        && MOST_ALIGNMENT % number.magnitude == 0) }
{
    within(0, MOST_ALIGNMENT, number)
        && 0 < number.magnitude
        && MOST_ALIGNMENT % number.magnitude == 0
}

/// Whether each number is in its range.
pub(crate) fn numbers_fit(part: Part<&[u8]>) -> bool
    ensures { result ≡ source.numbers_fit (part_view part.entry) }
{
    match part {
        Part::Word { number } | Part::LoadImmediate { number, .. } => {
            within(1 << 31, (1 << 32) - 1, number)
        }
        Part::Byte { number } => within(128, 255, number),
        Part::Zero { number } => within(0, MOST_BYTES as u128, number),
        Part::Align { number } => fits_align(number),
        Part::Immediate {
            operation,
            number,
            ..
        } => fits_immediate(operation, number),
        Part::Upper { number, .. } => within(524288, 1048575, number),
        Part::Load { number, .. }
        | Part::RegisterJump { number, .. }
        | Part::Store { number, .. } => within(2048, 2047, number),
        Part::Branch { target, .. }
        | Part::IfZero { target, .. }
        | Part::IfNotZero { target, .. } => { fits_target(BRANCH_REACH, target) }
        Part::Jal { target, .. } | Part::Jump { target } | Part::JumpAndLink { target, .. } => {
            fits_target(JUMP_REACH, target)
        }
        Part::Label { .. }
        | Part::Text
        | Part::Data
        | Part::Registers { .. }
        | Part::JumpCapability { .. }
        | Part::Source { .. }
        | Part::Bare { .. }
        | Part::Nop
        | Part::Move { .. }
        | Part::Return
        | Part::JumpRegister { .. }
        | Part::Import { .. }
        | Part::TextAddress { .. }
        | Part::GlobalAddress { .. } => true,
    }
}

/// The machine has sixteen registers.
fn exists(register: u32) -> bool
    ensures { result ≡ source.exists register }
{
    register < 16
}

/// Whether the machine has each register.
pub(crate) fn registers_exist(part: Part<&[u8]>) -> bool
    ensures { result ≡ source.registers_exist (part_view part.entry) }
{
    match part {
        Part::Registers { rd, rs1, rs2, .. } => exists(rd) && exists(rs1) && exists(rs2),
        Part::Immediate { rd, rs1, .. }
        | Part::Load { rd, rs1, .. }
        | Part::RegisterJump { rd, rs1, .. }
        | Part::JumpCapability { rd, rs1 }
        | Part::Source { rd, rs1, .. } => exists(rd) && exists(rs1),
        Part::Store { rs2, rs1, .. } => exists(rs2) && exists(rs1),
        Part::Branch { rs1, rs2, .. } => exists(rs1) && exists(rs2),
        Part::Move { rd, rs } => exists(rd) && exists(rs),
        Part::Upper { rd, .. }
        | Part::Jal { rd, .. }
        | Part::JumpAndLink { rd, .. }
        | Part::LoadImmediate { rd, .. }
        | Part::Import { rd, .. }
        | Part::TextAddress { rd, .. }
        | Part::GlobalAddress { rd, .. } => exists(rd),
        Part::JumpRegister { rs } | Part::IfZero { rs, .. } | Part::IfNotZero { rs, .. } => exists(
            rs,
        ),
        Part::Label { .. }
        | Part::Text
        | Part::Data
        | Part::Word { .. }
        | Part::Byte { .. }
        | Part::Zero { .. }
        | Part::Align { .. }
        | Part::Bare { .. }
        | Part::Nop
        | Part::Jump { .. }
        | Part::Return => true,
    }
}
