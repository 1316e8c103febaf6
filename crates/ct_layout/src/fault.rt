//! Why regions have no place.

use std::alloc::AllocError;
use thiserror::Error;

/// The regions don't fit RAM, or memory was wanted. Both numbers count bytes.
#[derive(Clone, Copy, Debug, PartialEq, Eq, Drop, Error)]
pub enum LayoutFault {
    /// What is needed exceeds what RAM has.
    #[error("no room: {needed} bytes of {has}")]
    NoRoom { needed: u64, has: u64 },
    /// A growth that the call needed was refused.
    #[error("out of memory")]
    NoMemory,
}

impl From<AllocError> for LayoutFault {
    ghost use Rattle.std.specs.Prelude.{◌≡◌};
    ghost use Rattle.ct_layout.specs.declared.fault.LayoutFault.TheVariants.{NoMemory};

    ghost from_gives = { λ _ e. e ≡ NoMemory };

    fn from(_error: AllocError) -> LayoutFault {
        LayoutFault::NoMemory
    }
}
