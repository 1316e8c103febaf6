//! The language of the assembler as plain data: the words that may begin a statement, the names of
//! registers, tokens, statements, and the faults of a source. The written definition of which
//! statements a text stands for is specs/Source. docs/use/assembler.md tells the same in prose.
#![tactic(auto)]

pub mod parts;
pub mod reaches;
pub mod words;

use thiserror::Error;

/// Why a source gives no statements, or statements no object.
#[derive(Clone, Copy, Debug, PartialEq, Eq, Drop, Error)]
pub enum AsmFault {
    /// Fault A1 to A8 of docs/use/assembler.md, by its number, and the line, counted from 1.
    #[error("A{number} in line {line}")]
    At { number: u32, line: u32 },
    /// A growth was refused.
    #[error("out of memory")]
    NoMemory,
}
