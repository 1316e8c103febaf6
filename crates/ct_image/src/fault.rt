//! Why bytes are no accepted image.

ghost use Rattle.std.specs.Prelude.{◌≡◌};
ghost use Rattle.ct_image.specs.declared.fault.ImageFault.TheVariants.{NoMemory};

use def_refusals::NoMemory;
use std::alloc::{AllocError, AllocFailed};
use thiserror::Error;

/// What is wrong with bytes that were to be an image.
#[derive(Clone, Copy, Debug, PartialEq, Eq, Drop, Error)]
pub enum ImageFault {
    /// The least number of what is wrong, 1 to 6, and its first place, an offset in the bytes
    /// (docs/use/image.md).
    #[error("fault {number} at {place}")]
    At { number: u32, place: u32 },
    /// A growth that the call needed was refused.
    #[error("out of memory")]
    NoMemory,
}

impl From<AllocError> for ImageFault {
    ghost from_gives = { λ _ e. e ≡ NoMemory };

    fn from(_error: AllocError) -> ImageFault {
        ImageFault::NoMemory
    }
}
