//! The limits of a run that more than one crate keeps, each in one place.
#![tactic(auto)]

/// The most bytes of a text that is read: 16 MiB.
pub const MOST_TEXT: usize = 16_777_216;

/// The most submissions.
pub const MOST_SUBMITS: u64 = 1_000;

/// The most seconds of all advances together.
pub const MOST_SECONDS: u64 = 1_000_000_000;
