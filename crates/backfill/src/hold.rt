//! A live job with the units that it holds until a second.
ghost use Rattle.std.specs.Prelude.{◌≡◌};
ghost use Rattle.backfill.specs.Held.{is_held_at as held_then};

use lists::Copied;
use resource_set::Resources;
use std::alloc::AllocError;

/// A live job with the units that it holds.
#[derive(Drop)]
pub struct Hold {
    pub id: u64,
    pub units: Resources,
    /// The second at which it gives them back; 0 is none.
    pub until: u64,
}

impl Hold {
    /// Whether the job has its units at a second. At its last one it has given them back.
    pub fn is_held_at(&self, second: u64) -> bool
        ensures { result ≡ held_then second self.now }
    {
        self.until == 0 || second < self.until
    }
}

impl Copied for Hold {
    fn copy(&self) -> Result<Hold, AllocError> {
        Ok(Hold {
            id: self.id,
            units: self.units.copy()?,
            until: self.until,
        })
    }
}
