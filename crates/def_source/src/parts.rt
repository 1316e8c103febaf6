//! Statements, and the pieces of which lines are made. `N` is what stands for a name: its text in
//! the code, its bytes in definitions.

ghost use Rattle.std.specs.Prelude.{◌≡◌, ⊤};
ghost use Rattle.def_source.specs.Source.{is_text, is_data};

use def_instr::shapes::{
    BranchOperation, ImmediateOperation, LoadOperation, RegisterOperation, SourceOperation,
    StoreOperation, UpperOperation,
};
use std::alloc::AllocError;

/// The mnemonics without operands.
#[derive(Clone, Copy, Drop)]
pub enum BareOperation {
    Fence,
    Ecall,
    Ebreak,
}

/// A number as it is written: a magnitude, and whether a minus stands before it.
#[derive(Clone, Copy, PartialEq, Eq, Drop)]
pub struct Number {
    pub negative: bool,
    pub magnitude: u128,
}

/// A token of a line. A directive's name is without its point.
#[derive(Drop)]
pub enum Token<N> {
    Name(N),
    Directive(N),
    Number(Number),
    Comma,
    Colon,
    Open,
    Close,
}

/// A section: the text, or the initial bytes of the globals.
#[derive(Clone, Copy, PartialEq, Eq, Drop)]
pub enum Section {
    Text,
    Data,
}

impl Section {
    /// Whether it is the text.
    pub fn is_text(self) -> bool
        ensures { result ≡ is_text self }
    {
        match self {
            Section::Text => true,
            Section::Data => false,
        }
    }

    /// Whether it is the initial bytes.
    pub fn is_data(self) -> bool
        ensures { result ≡ is_data self }
    {
        !self.is_text()
    }
}

/// Where a branch or a jump goes: to a label, or by an offset in bytes.
#[derive(Copy, Drop)]
pub enum Target<N> {
    Label(N),
    Offset(Number),
}

/// A label or a statement. Registers are numbers below 32 as they are read, below 16 where they are
/// lawful.
#[derive(Copy, Drop)]
pub enum Part<N> {
    /// `name:`
    Label {
        name: N,
    },
    /// `.text`
    Text,
    /// `.data`
    Data,
    /// `.word number`: four bytes.
    Word {
        number: Number,
    },
    /// `.byte number`: one byte.
    Byte {
        number: Number,
    },
    /// `.zero number`: so many zero bytes.
    Zero {
        number: Number,
    },
    /// `.align number`: zero bytes to a multiple.
    Align {
        number: Number,
    },
    /// `rd, rs1, rs2`
    Registers {
        operation: RegisterOperation,
        rd: u32,
        rs1: u32,
        rs2: u32,
    },
    /// `rd, rs1, number`
    Immediate {
        operation: ImmediateOperation,
        rd: u32,
        rs1: u32,
        number: Number,
    },
    /// `rd, number`
    Upper {
        operation: UpperOperation,
        rd: u32,
        number: Number,
    },
    /// `rd, number(rs1)`
    Load {
        operation: LoadOperation,
        rd: u32,
        number: Number,
        rs1: u32,
    },
    /// `cjalr rd, number(rs1)`
    RegisterJump {
        rd: u32,
        number: Number,
        rs1: u32,
    },
    /// `cjalr rd, rs1`, whose immediate is 0.
    JumpCapability {
        rd: u32,
        rs1: u32,
    },
    /// `rs2, number(rs1)`
    Store {
        operation: StoreOperation,
        rs2: u32,
        number: Number,
        rs1: u32,
    },
    /// `rs1, rs2, target`
    Branch {
        operation: BranchOperation,
        rs1: u32,
        rs2: u32,
        target: Target<N>,
    },
    /// `jal rd, target`
    Jal {
        rd: u32,
        target: Target<N>,
    },
    /// `rd, rs1`
    Source {
        operation: SourceOperation,
        rd: u32,
        rs1: u32,
    },
    /// No operand.
    Bare {
        operation: BareOperation,
    },
    /// `nop`
    Nop,
    /// `mv rd, rs`
    Move {
        rd: u32,
        rs: u32,
    },
    /// `j target`
    Jump {
        target: Target<N>,
    },
    /// `cjal rd, target`
    JumpAndLink {
        rd: u32,
        target: Target<N>,
    },
    /// `cret`
    Return,
    /// `cjr rs`
    JumpRegister {
        rs: u32,
    },
    /// `beqz rs, target`
    IfZero {
        rs: u32,
        target: Target<N>,
    },
    /// `bnez rs, target`
    IfNotZero {
        rs: u32,
        target: Target<N>,
    },
    /// `li rd, number`
    LoadImmediate {
        rd: u32,
        number: Number,
    },
    /// `cimport rd, name`: the capability in the slot of that name.
    Import {
        rd: u32,
        name: N,
    },
    /// `cla rd, label`: the address of a text label.
    TextAddress {
        rd: u32,
        label: N,
    },
    /// `clg rd, label`: the address of a label of the initial bytes.
    GlobalAddress {
        rd: u32,
        label: N,
    },
}

/// What stands on one line.
#[derive(Drop)]
pub struct Line<N> {
    pub label: Option<N>,
    pub part: Option<Part<N>>,
}

/// A label or a statement, and its line, counted from 1.
#[derive(Drop)]
pub struct Statement<N> {
    pub line: u32,
    pub part: Part<N>,
}

impl<N: Copy> Clone for Target<N> {
    ghost is_clone = { λ s r. r ≡ s };

    ghost is_infallible = { λ _. ⊤ };

    fn clone(&self) -> Result<Target<N>, AllocError> {
        Ok(*self)
    }
}

impl<N: Copy> Clone for Part<N> {
    ghost is_clone = { λ s r. r ≡ s };

    ghost is_infallible = { λ _. ⊤ };

    fn clone(&self) -> Result<Part<N>, AllocError> {
        Ok(*self)
    }
}
