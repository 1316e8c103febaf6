//! Why bytes are cut into no fields.

ghost use Rattle.std.specs.Prelude.{◌≡◌};
ghost use Rattle.ct_image_fields.specs.declared.fault.Cut.TheVariants.{NoMemory};

use std::alloc::{AllocError, AllocFailed};
use thiserror::Error;

/// Why bytes are cut into no fields.
#[derive(Clone, Copy, Debug, PartialEq, Eq, Drop, Error)]
pub enum Cut {
    /// No fields are spelled so: reading them by their counts passes the end, or bytes are left.
    #[error("the bytes are cut into no fields")]
    Unspelled,
    /// A growth that the call needed was refused.
    #[error("out of memory")]
    NoMemory,
}

impl From<AllocError> for Cut {
    ghost from_gives = { λ _ e. e ≡ NoMemory };

    fn from(_error: AllocError) -> Cut {
        Cut::NoMemory
    }
}

impl<T: Drop> From<AllocFailed<T>> for Cut {
    ghost from_gives = { λ _ e. e ≡ NoMemory };

    fn from(_error: AllocFailed<T>) -> Cut {
        Cut::NoMemory
    }
}
