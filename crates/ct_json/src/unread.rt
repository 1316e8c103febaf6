//! Why a text is not read.

ghost use Rattle.std.specs.Prelude.{◌≡◌};
ghost use Rattle.ct_json.specs.declared.unread.Unread.TheVariants.{Invalid, NoMemory};

use std::alloc::{AllocError, AllocFailed};

/// Why a text is not read.
#[derive(Clone, Copy, Debug, PartialEq, Eq, Drop)]
pub enum Unread {
    /// The text is no JSON, nests deeper than 127, or has a number too large for a float.
    Invalid,
    /// Memory was wanted.
    NoMemory,
}

impl From<json::Invalid> for Unread {
    ghost from_gives = { λ _ e. e ≡ Invalid };

    fn from(_invalid: json::Invalid) -> Unread {
        Unread::Invalid
    }
}

impl From<AllocError> for Unread {
    ghost from_gives = { λ _ e. e ≡ NoMemory };

    fn from(_error: AllocError) -> Unread {
        Unread::NoMemory
    }
}

impl<T: Drop> From<AllocFailed<T>> for Unread {
    ghost from_gives = { λ _ e. e ≡ NoMemory };

    fn from(_error: AllocFailed<T>) -> Unread {
        Unread::NoMemory
    }
}
