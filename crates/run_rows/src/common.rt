//! Why the program ends early, and lines.

use def_refusals::NoMemory;
use std::alloc::AllocError;

/// Why the program ends early.
#[derive(Clone, Copy)]
pub enum Failure {
    /// Lines could not be written.
    Output,
    /// Memory was wanting.
    Memory,
}

impl Failure {
    /// The status that the program ends with.
    pub fn status(self) -> u8 {
        match self {
            Failure::Output => 9,
            Failure::Memory => 10,
        }
    }
}

impl From<AllocError> for Failure {
    fn from(_error: AllocError) -> Failure {
        Failure::Memory
    }
}

impl From<NoMemory> for Failure {
    fn from(_error: NoMemory) -> Failure {
        Failure::Memory
    }
}

/// Prints lines.
pub fn print_lines(rt: &HostRuntime, lines: &str) -> Result<(), Failure> {
    match print!(rt; "{lines}") {
        Ok(()) => Ok(()),
        Err(_) => Err(Failure::Output),
    }
}

/// A truth value as a word.
pub fn truth(holds: bool) -> &'static str {
    if holds { "true" } else { "false" }
}

/// Adds a text that was made.
pub fn add(made: Result<String, AllocError>, out: &mut String) -> Result<(), AllocError> {
    let text = made?;
    out.push_str(text.as_str())
}
