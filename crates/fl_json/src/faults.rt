//! Why a text has no value.
ghost use Rattle.std.specs.Prelude.{◌≡◌};
ghost use Rattle.fl_json.specs.declared.faults.JsonFault.TheVariants.{NoMemory};

use std::alloc::AllocError;
use thiserror::Error;

/// Why a text has no value, or an object not the field that is asked for.
#[derive(Clone, Copy, Debug, PartialEq, Eq, Error)]
pub enum JsonFault {
    #[error("out of memory")]
    NoMemory,
    /// A JSON number that isn't whole or isn't from -2^63 to 2^64 - 1, and the place of its first
    /// byte.
    #[error("no whole number of 64 bits at byte {place}")]
    BadNumber { place: usize },
    #[error("not JSON")]
    NotJson,
    #[error("the field is missing")]
    Missing,
    #[error("the value is of another kind")]
    WrongKind,
}

impl From<AllocError> for JsonFault {
    ghost from_gives = { λ _ e. e ≡ NoMemory };

    fn from(_: AllocError) -> Self {
        JsonFault::NoMemory
    }
}
