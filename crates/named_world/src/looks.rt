//! The name of a run, and what its actors see without the lock.
ghost use Rattle.std.specs.Prelude.{◌≡◌, ◌≤◌, slice_index};

use root_feed::{FeedName, Note, Seen};
use std::marker::Brand;

/// Names one run: its feed, what it is given, and how many losses it may make. It has no functions.
pub trait RunName: FeedName {
    ghost use Rattle.std.specs.Prelude.{ℕ, Option};
    ghost use Rattle.world.specs.answers.Chronicle.{Setup};

    ghost run: { Option Setup };

    ghost losses: { ℕ };
}

impl RunName for Brand {
    ghost use Rattle.std.specs.Prelude.{None};

    ghost run = { None };

    ghost losses = { 0 };
}

/// What an actor saw without the lock, with a note of it.
#[derive(Drop)]
pub struct Look<N: RunName> {
    pub actor: u32,
    pub seen: Seen<N>,
    pub note: Note<N>,
    pub ghost noted: { seen.1 ≤ slice_index note seen.0 },
}

impl<N: RunName> Look<N> {
    /// What an actor saw, of which the note tells. It takes no memory.
    pub fn new(actor: u32, seen: Seen<N>, note: Note<N>) -> Look<N>
        requires noted { seen.1 ≤ slice_index note seen.0 }
        ensures { (result.actor ≡ actor) × (result.seen ≡ seen) × (result.note ≡ note) }
    {
        Look { actor, seen, note }
    }
}
