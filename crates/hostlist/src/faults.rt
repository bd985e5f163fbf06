//! Why a text spells no hosts.
ghost use Rattle.std.specs.Prelude.{◌≡◌};
ghost use Rattle.hostlist.specs.declared.faults.HostFault.TheVariants.{NoMemory};

use std::alloc::{AllocError, AllocFailed};
use thiserror::Error;

/// Why a text spells no hosts (Flux RFC 29). A place is counted in bytes from 0.
#[derive(Clone, Copy, Debug, PartialEq, Eq, Error)]
pub enum HostFault {
    /// The byte at this place can't stand there, or the text ends there too early.
    #[error("bad text at {place}")]
    BadText { place: usize },
    /// The range that begins at this place ends below its first number.
    #[error("backwards range at {place}")]
    Backwards { place: usize },
    /// The text spells more than 65,536 hosts.
    #[error("too many hosts")]
    TooMany,
    #[error("no memory")]
    NoMemory,
}

impl From<AllocError> for HostFault {
    ghost from_gives = { λ _ e. e ≡ NoMemory };

    fn from(_: AllocError) -> Self {
        HostFault::NoMemory
    }
}

impl<T: Drop> From<AllocFailed<T>> for HostFault {
    ghost from_gives = { λ _ e. e ≡ NoMemory };

    fn from(_: AllocFailed<T>) -> Self {
        HostFault::NoMemory
    }
}
