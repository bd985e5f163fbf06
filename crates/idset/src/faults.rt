//! Why a text is no idset.
ghost use Rattle.std.specs.Prelude.{◌≡◌};
ghost use Rattle.idset.specs.declared.faults.IdFault.TheVariants.{NoMemory};

use std::alloc::AllocError;
use thiserror::Error;

/// Why a text is no idset. A place is a number of bytes from the text's start.
#[derive(Clone, Copy, Debug, PartialEq, Eq, Error)]
pub enum IdFault {
    #[error("out of memory")]
    NoMemory,
    /// The first byte that can't stand there, or the text's end where it ends too early.
    #[error("no idset at byte {place}")]
    BadText { place: usize },
    /// The first byte of a range whose last number is below its first.
    #[error("a range that runs backwards at byte {place}")]
    Backwards { place: usize },
    /// The first byte of a number of 65,536 or more.
    #[error("a number that is too large at byte {place}")]
    TooLarge { place: usize },
}

impl From<AllocError> for IdFault {
    ghost from_gives = { λ _ e. e ≡ NoMemory };

    fn from(_: AllocError) -> Self {
        IdFault::NoMemory
    }
}
