//! Why a measure ends early.

use std::io;

/// Why a measure, and with it the program, ends early.
#[derive(Clone, Copy)]
pub enum Failure {
    /// Nothing was measured: there is no measure of such a name, a word is lacking or asks for too much, or memory
    /// was wanting for what is measured on.
    Unmeasured,
    /// The line could not be written.
    Output,
}

impl Failure {
    /// The status that the program ends with.
    pub fn status(self) -> u8 {
        match self {
            Failure::Unmeasured => 1,
            Failure::Output => 9,
        }
    }
}

/// The end of a measure whose line was written, or was not.
pub fn written(line: io::Result<()>) -> Result<(), Failure> {
    match line {
        Ok(()) => Ok(()),
        Err(_) => Err(Failure::Output),
    }
}
