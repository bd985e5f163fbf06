//! The end of a run.
ghost use Rattle.std.specs.Prelude.{◌≡◌, ◌<◌, OnErr, OnOk, false, true};
ghost use Rattle.world.specs.Advances.{Advances};
ghost use Rattle.world.specs.Steps.{CanMake};

use super::{World, keep};
use homes::{rest, tell_all_unborn, tell_living};
use instance::answers::{Entry, Step};
use std::alloc::AllocError;

impl World {
    /// Ends the run.
    pub(super) fn close(&mut self) -> Result<(), AllocError>
        requires ready { self.old.spent ≡ false }
        requires can { CanMake self.old Step.Close }
        ensures advances { OnOk result (Advances self.old Step.Close self.new) }
        ensures order { OnOk result (self.new.order ≡ self.old.order) }
        ensures spent { OnErr result (self.new.spent ≡ true) }
    {
        self.spent = true;
        // what the machines tell of the run serves the proof alone
        rest(&self.homes);
        tell_living(&mut self.chronicle, &self.homes)?;
        tell_all_unborn(&mut self.chronicle, &self.work, &self.places)?;
        self.chronicle.push(Entry::Closed)?;
        keep(
            &mut self.steps,
            &mut self.ends,
            &self.chronicle,
            Step::Close,
        )?;
        self.closed = true;
        self.spent = false;
        Ok(())
    }
}
