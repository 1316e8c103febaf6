//! The script of a run: which bytes come to which devices before which step, as a text says it.
//! Definitions alone, in specs/; docs/use/run.md tells the same in prose.
#![tactic(auto)]

use thiserror::Error;

/// A byte that comes to the device with this index.
#[derive(Clone, Copy, Debug, PartialEq, Eq, Drop)]
pub struct Given {
    pub device: u32,
    pub byte: u8,
}

/// Why a text is no script.
#[derive(Clone, Copy, Debug, PartialEq, Eq, Drop, Error)]
pub enum ScriptFault {
    /// Fault S1, S2 or S3 of docs/use/run.md, by its number, and the line, counted from 1.
    #[error("S{number} in line {line}")]
    At { number: u32, line: u32 },
    /// A growth was refused.
    #[error("out of memory")]
    NoMemory,
}
