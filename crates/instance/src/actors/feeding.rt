//! Watches of jobs, which are fed what happens to them.
ghost use Rattle.std.specs.Prelude.{◌≡◌, true, false, IfOk, OnErr, OnOk};
ghost use Rattle.instance.specs.Makes.{Makes};
ghost use Rattle.instance.specs.Steps.{can_feed};

use super::{Instance, only};
use crate::seats::has_feed;
use services::answers::{Chronicle, Entry, Step};
use services::kvs_txn::By;
use std::alloc::AllocError;

impl Instance {
    /// Whether the open command of an actor is a watch that can be fed: its broker has heard of all
    /// that the actor has seen, and of more events of the job than the watch was fed.
    pub fn can_feed(&self, actor: u32) -> bool
        requires { self.now.spent ≡ false }
        ensures { result ≡ can_feed self.now actor }
    {
        has_feed(&self.services, &self.seats, actor)
    }

    /// Feeds the open watch of an actor the events that it lacks, and gives what happened. After an
    /// error the instance is spent.
    pub fn feed(&mut self, actor: u32) -> Result<Chronicle, AllocError>
        requires ready { self.old.spent ≡ false }
        requires can { can_feed self.old actor ≡ true }
        ensures ready { OnOk result (self.new.spent ≡ false) }
        ensures makes { IfOk result (Makes self.old (Step.Feed actor) self.new) }
        ensures spent { OnErr result (self.new.spent ≡ true) }
    {
        // the root at which the watch is fed is what its broker has heard of
        self.core().standing();
        self.spent = true;
        let command = self.seats[actor as usize].issued.saturating_sub(1);
        let fed = self.services.feed(By { actor, command })?;
        let watched = Entry::Watched {
            actor,
            command,
            number: fed.number,
            first: fed.first,
            count: fed.count,
        };
        let made = only(self.alloc, watched)?;
        self.spent = false;
        Ok(made)
    }
}
