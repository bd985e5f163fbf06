//! Events, and why a text is no log (Flux RFC 18).
ghost use Rattle.std.specs.Prelude.{◌≡◌};
ghost use Rattle.event_log.specs.declared.event.LogFault.TheVariants.{NoMemory};

use fl_json::JsonFault;
use lists::{Bytes, Copied};
use std::alloc::{AllocError, AllocFailed};
use thiserror::Error;

/// One event of a log (Flux RFC 18).
#[derive(Drop)]
pub struct Event {
    /// In seconds.
    pub timestamp: u64,
    /// Text that isn't empty.
    pub name: Bytes,
    /// The canonical text of a JSON object.
    pub context: Option<Bytes>,
}

impl Copied for Event {
    fn copy(&self) -> Result<Event, AllocError> {
        Ok(Event {
            timestamp: self.timestamp,
            name: self.name.copy()?,
            context: self.context.copy()?,
        })
    }
}

/// Why a text is no log.
#[derive(Clone, Copy, Debug, PartialEq, Eq, Error)]
pub enum LogFault {
    #[error("out of memory")]
    NoMemory,
    /// The last line has no newline.
    #[error("the last line has no newline")]
    NoNewline,
    /// The line of this number, counted from 1, tells no event.
    #[error("line {line}: {fault}")]
    BadLine { line: u64, fault: JsonFault },
}

impl From<AllocError> for LogFault {
    ghost from_gives = { λ _ e. e ≡ NoMemory };

    fn from(_: AllocError) -> Self {
        LogFault::NoMemory
    }
}

impl<T: Drop> From<AllocFailed<T>> for LogFault {
    ghost from_gives = { λ _ e. e ≡ NoMemory };

    fn from(_: AllocFailed<T>) -> Self {
        LogFault::NoMemory
    }
}
