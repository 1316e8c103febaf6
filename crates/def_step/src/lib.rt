//! What an event does to the machine: the checks of each instruction in order, its effect, devices,
//! traps, ticks, inputs and runs. Definitions alone, in specs/; docs/use/machine.md tells the same in
//! prose.
#![tactic(auto)]

use def_instr::Instr;
use def_native::TOKEN_FREE;

/// The greatest number of a native routine that the machine carries out. Of those after it each is
/// nothing that is carried out.
pub const LAST_ROUTINE: u32 = TOKEN_FREE;

/// The bytes of the record of a trap that an error handler finds on its stack: twenty words.
pub const TRAP_RECORD: u32 = 80;

/// What happens at the machine, one at a time.
#[derive(Clone, Copy, PartialEq, Eq, Drop)]
pub enum Event {
    /// One instruction, or one native routine, of the running thread.
    Step,
    /// One tick of the timer.
    Tick,
    /// One slice of the revoker.
    Sweep,
    /// One byte comes at the device with this index.
    Input { device: u32, byte: u8 },
}

/// What kind of work an instruction is.
#[derive(Clone, Copy, PartialEq, Eq, Drop)]
pub enum Class {
    /// An integer result from the addresses of its registers.
    Integer,
    /// A result made of capabilities.
    Capability,
    /// An access of system registers.
    System,
    /// A branch or a jump.
    Jump,
    /// A load or a store.
    Access,
    /// `fence`.
    Fence,
    /// `ecall`.
    Call,
    /// `ebreak`.
    Break,
}

/// The registers of an instruction: the one that it writes, and its first and second source. One
/// that it hasn't is 0.
#[derive(Clone, Copy, PartialEq, Eq, Drop)]
pub struct Operands {
    pub to: u32,
    pub first: u32,
    pub second: u32,
}

/// A load or a store as its instruction names it: whether it loads, its width in bytes, whether a
/// loaded value is sign-extended, whether it moves a capability, the register that authorises it,
/// and its immediate as a 32-bit word.
#[derive(Clone, Copy, PartialEq, Eq, Drop)]
pub struct Access {
    pub loads: bool,
    pub width: u32,
    pub signed: bool,
    pub whole: bool,
    pub by: u32,
    pub immediate: u32,
}

/// What stands at the program counter.
#[derive(Clone, Copy, Drop)]
pub enum Next {
    /// The native routine that returns.
    Returning,
    Instruction { instruction: Instr },
    /// Another native routine, with this number of at most `LAST_ROUTINE`.
    Native { number: u32 },
    /// Nothing that is carried out: no instruction, or a native routine past the last.
    Nothing,
}
