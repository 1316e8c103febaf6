//! Lawful statements in few bytes: a register in one, a number in 32 bits and its sign. A `Part` has its registers and
//! numbers as they are written, before their ranges are looked at.

ghost use Rattle.std.specs.Prelude.{◌≡◌, ◌<◌, ◌^◌, true};
ghost use Rattle.def_source.specs.Source as source;
ghost use Rattle.ct_source.specs.Views.{part_view, target_view};
ghost use Rattle.ct_source.specs.Compact.{compact_number, compact_target, compact_part, AreSmall, IsSmall};

use def_instr::shapes::{
    BranchOperation, ImmediateOperation, LoadOperation, RegisterOperation, SourceOperation,
    StoreOperation, UpperOperation,
};
use def_source::parts::{BareOperation, Number, Part, Target};

/// A number below 2^32, and whether a minus stands before it.
#[derive(Clone, Copy, Drop)]
pub struct CompactNumber {
    pub negative: bool,
    pub magnitude: u32,
}

/// Where a branch or a jump goes: to a label, or by an offset in bytes.
#[derive(Clone, Copy, Drop)]
pub enum CompactTarget<'a> {
    Label(&'a [u8]),
    Offset(CompactNumber),
}

/// A label or a statement, as `Part`: a register in one byte, a number in 32 bits and its sign.
#[derive(Clone, Copy, Drop)]
pub enum CompactPart<'a> {
    Label {
        name: &'a [u8],
    },
    Text,
    Data,
    Word {
        number: CompactNumber,
    },
    Byte {
        number: CompactNumber,
    },
    Zero {
        number: CompactNumber,
    },
    Align {
        number: CompactNumber,
    },
    Registers {
        operation: RegisterOperation,
        rd: u8,
        rs1: u8,
        rs2: u8,
    },
    Immediate {
        operation: ImmediateOperation,
        rd: u8,
        rs1: u8,
        number: CompactNumber,
    },
    Upper {
        operation: UpperOperation,
        rd: u8,
        number: CompactNumber,
    },
    Load {
        operation: LoadOperation,
        rd: u8,
        number: CompactNumber,
        rs1: u8,
    },
    RegisterJump {
        rd: u8,
        number: CompactNumber,
        rs1: u8,
    },
    JumpCapability {
        rd: u8,
        rs1: u8,
    },
    Store {
        operation: StoreOperation,
        rs2: u8,
        number: CompactNumber,
        rs1: u8,
    },
    Branch {
        operation: BranchOperation,
        rs1: u8,
        rs2: u8,
        target: CompactTarget<'a>,
    },
    Jal {
        rd: u8,
        target: CompactTarget<'a>,
    },
    Source {
        operation: SourceOperation,
        rd: u8,
        rs1: u8,
    },
    Bare {
        operation: BareOperation,
    },
    Nop,
    Move {
        rd: u8,
        rs: u8,
    },
    Jump {
        target: CompactTarget<'a>,
    },
    JumpAndLink {
        rd: u8,
        target: CompactTarget<'a>,
    },
    Return,
    JumpRegister {
        rs: u8,
    },
    IfZero {
        rs: u8,
        target: CompactTarget<'a>,
    },
    IfNotZero {
        rs: u8,
        target: CompactTarget<'a>,
    },
    LoadImmediate {
        rd: u8,
        number: CompactNumber,
    },
    Import {
        rd: u8,
        name: &'a [u8],
    },
    TextAddress {
        rd: u8,
        label: &'a [u8],
    },
    GlobalAddress {
        rd: u8,
        label: &'a [u8],
    },
}

/// A label or a statement, and its line, counted from 1.
#[derive(Clone, Copy, Drop)]
pub struct CompactStatement<'a> {
    pub line: u32,
    pub part: CompactPart<'a>,
}

/// What stands on one line.
#[derive(Drop)]
pub(crate) struct CompactLine<'a> {
    pub label: Option<&'a [u8]>,
    pub part: Option<CompactPart<'a>>,
}

impl CompactNumber {
    fn of(number: Number) -> CompactNumber
        requires { number.magnitude < 2 ^ 32 }
        ensures { compact_number result ≡ number }
    {
        CompactNumber {
            negative: number.negative,
            magnitude: number.magnitude as u32,
        }
    }

    /// The number as it is written.
    pub fn number(self) -> Number
        ensures { result ≡ compact_number self }
    {
        Number {
            negative: self.negative,
            magnitude: self.magnitude as u128,
        }
    }
}

/// A register in one byte.
fn register(register: u32) -> u8
    requires { register < 16 }
    ensures { result ≡ register }
{
    register as u8
}

impl<'a> CompactTarget<'a> {
    fn of(target: Target<&'a [u8]>) -> CompactTarget<'a>
        requires { IsSmall (target_view target) }
        ensures { compact_target result ≡ target_view target.entry }
    {
        match target {
            Target::Label(name) => CompactTarget::Label(name),
            Target::Offset(number) => CompactTarget::Offset(CompactNumber::of(number)),
        }
    }

    /// The target as it is written.
    pub fn target(self) -> Target<&'a [u8]>
        ensures { target_view result ≡ compact_target self.entry }
    {
        match self {
            CompactTarget::Label(name) => Target::Label(name),
            CompactTarget::Offset(number) => Target::Offset(number.number()),
        }
    }
}

impl<'a> CompactPart<'a> {
    /// A statement whose numbers and registers are in range.
    pub(crate) fn of(part: Part<&'a [u8]>) -> CompactPart<'a>
        requires small { AreSmall (part_view part) }
        requires exist { source.registers_exist (part_view part) ≡ true }
        ensures { compact_part result ≡ part_view part.entry }
    {
        match part {
            Part::Label { name } => CompactPart::Label { name },
            Part::Text => CompactPart::Text,
            Part::Data => CompactPart::Data,
            Part::Word { number } => CompactPart::Word {
                number: CompactNumber::of(number),
            },
            Part::Byte { number } => CompactPart::Byte {
                number: CompactNumber::of(number),
            },
            Part::Zero { number } => CompactPart::Zero {
                number: CompactNumber::of(number),
            },
            Part::Align { number } => CompactPart::Align {
                number: CompactNumber::of(number),
            },
            Part::Registers {
                operation,
                rd,
                rs1,
                rs2,
            } => CompactPart::Registers {
                operation,
                rd: register(rd),
                rs1: register(rs1),
                rs2: register(rs2),
            },
            Part::Immediate {
                operation,
                rd,
                rs1,
                number,
            } => CompactPart::Immediate {
                operation,
                rd: register(rd),
                rs1: register(rs1),
                number: CompactNumber::of(number),
            },
            Part::Upper {
                operation,
                rd,
                number,
            } => CompactPart::Upper {
                operation,
                rd: register(rd),
                number: CompactNumber::of(number),
            },
            Part::Load {
                operation,
                rd,
                number,
                rs1,
            } => CompactPart::Load {
                operation,
                rd: register(rd),
                number: CompactNumber::of(number),
                rs1: register(rs1),
            },
            Part::RegisterJump { rd, number, rs1 } => CompactPart::RegisterJump {
                rd: register(rd),
                number: CompactNumber::of(number),
                rs1: register(rs1),
            },
            Part::JumpCapability { rd, rs1 } => CompactPart::JumpCapability {
                rd: register(rd),
                rs1: register(rs1),
            },
            Part::Store {
                operation,
                rs2,
                number,
                rs1,
            } => CompactPart::Store {
                operation,
                rs2: register(rs2),
                number: CompactNumber::of(number),
                rs1: register(rs1),
            },
            Part::Branch {
                operation,
                rs1,
                rs2,
                target,
            } => CompactPart::Branch {
                operation,
                rs1: register(rs1),
                rs2: register(rs2),
                target: CompactTarget::of(target),
            },
            Part::Jal { rd, target } => CompactPart::Jal {
                rd: register(rd),
                target: CompactTarget::of(target),
            },
            Part::Source { operation, rd, rs1 } => CompactPart::Source {
                operation,
                rd: register(rd),
                rs1: register(rs1),
            },
            Part::Bare { operation } => CompactPart::Bare { operation },
            Part::Nop => CompactPart::Nop,
            Part::Move { rd, rs } => CompactPart::Move {
                rd: register(rd),
                rs: register(rs),
            },
            Part::Jump { target } => CompactPart::Jump {
                target: CompactTarget::of(target),
            },
            Part::JumpAndLink { rd, target } => CompactPart::JumpAndLink {
                rd: register(rd),
                target: CompactTarget::of(target),
            },
            Part::Return => CompactPart::Return,
            Part::JumpRegister { rs } => CompactPart::JumpRegister { rs: register(rs) },
            Part::IfZero { rs, target } => CompactPart::IfZero {
                rs: register(rs),
                target: CompactTarget::of(target),
            },
            Part::IfNotZero { rs, target } => CompactPart::IfNotZero {
                rs: register(rs),
                target: CompactTarget::of(target),
            },
            Part::LoadImmediate { rd, number } => CompactPart::LoadImmediate {
                rd: register(rd),
                number: CompactNumber::of(number),
            },
            Part::Import { rd, name } => CompactPart::Import {
                rd: register(rd),
                name,
            },
            Part::TextAddress { rd, label } => CompactPart::TextAddress {
                rd: register(rd),
                label,
            },
            Part::GlobalAddress { rd, label } => CompactPart::GlobalAddress {
                rd: register(rd),
                label,
            },
        }
    }

    /// The statement with its registers and numbers as they are written.
    pub fn part(self) -> Part<&'a [u8]>
        ensures { part_view result ≡ compact_part self.entry }
    {
        match self {
            CompactPart::Label { name } => Part::Label { name },
            CompactPart::Text => Part::Text,
            CompactPart::Data => Part::Data,
            CompactPart::Word { number } => Part::Word {
                number: number.number(),
            },
            CompactPart::Byte { number } => Part::Byte {
                number: number.number(),
            },
            CompactPart::Zero { number } => Part::Zero {
                number: number.number(),
            },
            CompactPart::Align { number } => Part::Align {
                number: number.number(),
            },
            CompactPart::Registers {
                operation,
                rd,
                rs1,
                rs2,
            } => Part::Registers {
                operation,
                rd: rd as u32,
                rs1: rs1 as u32,
                rs2: rs2 as u32,
            },
            CompactPart::Immediate {
                operation,
                rd,
                rs1,
                number,
            } => Part::Immediate {
                operation,
                rd: rd as u32,
                rs1: rs1 as u32,
                number: number.number(),
            },
            CompactPart::Upper {
                operation,
                rd,
                number,
            } => Part::Upper {
                operation,
                rd: rd as u32,
                number: number.number(),
            },
            CompactPart::Load {
                operation,
                rd,
                number,
                rs1,
            } => Part::Load {
                operation,
                rd: rd as u32,
                number: number.number(),
                rs1: rs1 as u32,
            },
            CompactPart::RegisterJump { rd, number, rs1 } => Part::RegisterJump {
                rd: rd as u32,
                number: number.number(),
                rs1: rs1 as u32,
            },
            CompactPart::JumpCapability { rd, rs1 } => Part::JumpCapability {
                rd: rd as u32,
                rs1: rs1 as u32,
            },
            CompactPart::Store {
                operation,
                rs2,
                number,
                rs1,
            } => Part::Store {
                operation,
                rs2: rs2 as u32,
                number: number.number(),
                rs1: rs1 as u32,
            },
            CompactPart::Branch {
                operation,
                rs1,
                rs2,
                target,
            } => Part::Branch {
                operation,
                rs1: rs1 as u32,
                rs2: rs2 as u32,
                target: target.target(),
            },
            CompactPart::Jal { rd, target } => Part::Jal {
                rd: rd as u32,
                target: target.target(),
            },
            CompactPart::Source { operation, rd, rs1 } => Part::Source {
                operation,
                rd: rd as u32,
                rs1: rs1 as u32,
            },
            CompactPart::Bare { operation } => Part::Bare { operation },
            CompactPart::Nop => Part::Nop,
            CompactPart::Move { rd, rs } => Part::Move {
                rd: rd as u32,
                rs: rs as u32,
            },
            CompactPart::Jump { target } => Part::Jump {
                target: target.target(),
            },
            CompactPart::JumpAndLink { rd, target } => Part::JumpAndLink {
                rd: rd as u32,
                target: target.target(),
            },
            CompactPart::Return => Part::Return,
            CompactPart::JumpRegister { rs } => Part::JumpRegister { rs: rs as u32 },
            CompactPart::IfZero { rs, target } => Part::IfZero {
                rs: rs as u32,
                target: target.target(),
            },
            CompactPart::IfNotZero { rs, target } => Part::IfNotZero {
                rs: rs as u32,
                target: target.target(),
            },
            CompactPart::LoadImmediate { rd, number } => Part::LoadImmediate {
                rd: rd as u32,
                number: number.number(),
            },
            CompactPart::Import { rd, name } => Part::Import {
                rd: rd as u32,
                name,
            },
            CompactPart::TextAddress { rd, label } => Part::TextAddress {
                rd: rd as u32,
                label,
            },
            CompactPart::GlobalAddress { rd, label } => Part::GlobalAddress {
                rd: rd as u32,
                label,
            },
        }
    }
}
