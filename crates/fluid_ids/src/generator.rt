//! The generator of ids (Flux RFC 19).
ghost use Rattle.std.specs.Prelude.{◌≡◌, ℕ, ◌*◌, ◌^◌, ◌<◌, ◌≤◌};
ghost use Rattle.fluid_ids.specs.Ids.{IsFluid, new_state, next_state, last_id};

use std::marker::Model;

/// How many ids a generator can draw in one millisecond.
const IDS: u64 = 1024;

/// How many ranks there are.
const RANKS: u64 = 16_384;

/// What draws the ids of one rank of an instance.
#[derive(Drop)]
pub struct Generator {
    rank: u64,
    millis: u64,
    used: u64,
    seconds: u64,
    drawn: u64,
}

impl Model for Generator {
    ghost use Rattle.fluid_ids.specs.Ids.{State, IsState};

    ghost Value = { State };

    ghost view = { λ g. record {
      rank = g.rank;
      millis = g.millis;
      used = g.used;
      seconds = g.seconds;
      drawn = g.drawn;
    } };

    ghost invariant = { λ g. IsState (record {
      rank = g.rank;
      millis = g.millis;
      used = g.used;
      seconds = g.seconds;
      drawn = g.drawn;
    }) };
}

impl Generator {
    /// The generator of a rank, which has drawn no id.
    pub fn new(rank: u32) -> Generator
        requires { rank < 16384 }
        ensures { result ≡ new_state rank }
    {
        Generator {
            rank: u64::from(rank),
            millis: 0,
            used: 0,
            seconds: 0,
            drawn: 0,
        }
    }

    /// The next id, at so many seconds since the instance's start. It is greater than each one
    /// before.
    pub fn next(&mut self, now: u64) -> u64
        requires later { self.old.seconds ≤ now }
        requires soon { now ≤ 1000000000 }
        requires few { self.old.drawn < 2 ^ 32 }
        ensures state { self.new ≡ next_state self.old now }
        ensures id { result ≡ last_id self.new }
        ensures within { IsFluid self.old.rank result }
        ensures rises { 0 < self.old.drawn → last_id self.old < result }
    {
        let start = 1000 * now;
        if self.millis < start {
            self.millis = start;
            self.used = 0;
        } else if self.used == IDS {
            self.millis += 1;
            self.used = 0;
        }
        let id = (self.millis * RANKS + self.rank) * IDS + self.used;
        self.used += 1;
        self.seconds = now;
        self.drawn += 1;
        id
    }
}
