//! Why a text is no R.
ghost use Rattle.std.specs.Prelude.{◌≡◌};
ghost use Rattle.resource_set.specs.declared.faults.RFault.TheVariants.{NoMemory};

use fl_json::JsonFault;
use std::alloc::{AllocError, AllocFailed};
use thiserror::Error;

/// A field of an R.
#[derive(Clone, Copy, Debug, PartialEq, Eq)]
pub enum RKey {
    Execution,
    RLite,
    Rank,
    Children,
    Core,
    Gpu,
    Nodelist,
    Starttime,
    Expiration,
}

/// Why a text is no R, version 1 (Flux RFC 20). Of several faults the first in this order is
/// answered, want of memory apart.
#[derive(Clone, Copy, Debug, PartialEq, Eq, Error)]
pub enum RFault {
    #[error("out of memory")]
    NoMemory,
    #[error("{0}")]
    NotJson(JsonFault),
    #[error("the version isn't 1")]
    BadVersion,
    /// The field is missing, or of another kind.
    #[error("a bad field: {0:?}")]
    BadField(RKey),
    /// An entry has this rank, and so has one before it.
    #[error("rank {rank} stands twice")]
    RankTwice { rank: u32 },
    /// How many ranks there are, and how many hosts.
    #[error("{ranks} ranks and {hosts} hosts")]
    HostsDiffer { ranks: u32, hosts: u32 },
    /// Two ranks have one host.
    #[error("a host stands twice")]
    HostTwice,
}

impl From<AllocError> for RFault {
    ghost from_gives = { λ _ e. e ≡ NoMemory };

    fn from(_: AllocError) -> Self {
        RFault::NoMemory
    }
}

impl<T: Drop> From<AllocFailed<T>> for RFault {
    ghost from_gives = { λ _ e. e ≡ NoMemory };

    fn from(_: AllocFailed<T>) -> Self {
        RFault::NoMemory
    }
}
