//! Why images are not listed.
ghost use Rattle.std.specs.Prelude.{◌≡◌, Some};
ghost use Rattle.pending_images.specs.declared.fault.ImageFault.TheVariants.{NoMemory};
ghost use Rattle.pending_images.specs.FaultTexts.{image_fault_text};

use std::alloc::AllocError;
use std::error::Error;
use std::fmt;

/// Why images are not listed, by the number that reports print.
#[derive(Clone, Copy, Debug, PartialEq, Eq)]
pub enum ImageFault {
    /// I1: there are more candidates than are counted.
    TooMany,
    /// I2: memory was refused.
    NoMemory,
}

impl fmt::Display for ImageFault {
    ghost output = { λ fault. Some (image_fault_text fault) };

    fn fmt<W: fmt::Write>(&self, f: &mut fmt::Formatter<W>) -> fmt::Result {
        match self {
            ImageFault::TooMany => write!(f, "I1 TooMany"),
            ImageFault::NoMemory => write!(f, "I2 NoMemory"),
        }
    }
}

impl Error for ImageFault {}

impl From<AllocError> for ImageFault {
    ghost from_gives = { λ _ fault. fault ≡ NoMemory };

    fn from(_error: AllocError) -> ImageFault {
        ImageFault::NoMemory
    }
}
