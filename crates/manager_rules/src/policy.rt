//! Which waiting jobs may take resources.

/// Which waiting jobs may take resources.
#[derive(Clone, Copy, Debug, PartialEq, Eq)]
pub enum Policy {
    /// The first in the queue alone.
    FirstFit,
    /// The first in the queue, and where it finds none the first behind it that leaves the second
    /// at which it will find them (EASY backfill).
    Easy,
}
