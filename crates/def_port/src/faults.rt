//! Why a read or a write didn't do its work.

ghost use Rattle.std.specs.Prelude.{◌≡◌};
ghost use Rattle.def_port.specs.declared.faults.ReadError.TheVariants.{NoMemory};

use std::alloc::AllocError;
use thiserror::Error;

/// Why a read gave no bytes.
#[derive(Clone, Copy, Debug, PartialEq, Eq, Drop, Error)]
pub enum ReadError {
    /// The folder couldn't give the file. It comes only where the folder's count of faults rose.
    #[error("the file can't be read")]
    Failed,
    /// Want of memory. The call isn't recorded, and nothing changes.
    #[error("out of memory")]
    NoMemory,
}

impl From<AllocError> for ReadError {
    ghost from_gives = { λ _ e. e ≡ NoMemory };

    fn from(_error: AllocError) -> ReadError {
        ReadError::NoMemory
    }
}

/// A write that didn't take the whole piece. It comes only where the sink's count of faults rose.
#[derive(Clone, Copy, Debug, PartialEq, Eq, Drop, Error)]
#[error("the piece can't be written")]
pub struct WriteFailed;
