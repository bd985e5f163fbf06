//! Births and ends of instances.
ghost use Rattle.std.specs.Prelude.{◌≡◌, ◌+◌, ◌<◌, OnErr, OnOk, Some, true, false};
ghost use Rattle.hierarchy.specs.Births.{Birth};
ghost use Rattle.world.specs.Advances.{Advances};
ghost use Rattle.homes.specs.Times.{may_go};
ghost use Rattle.world.specs.Steps.{CanMake};

use super::{World, keep};
use homes::{
    Home, Origin, bear_for, child_home, let_go, may_go, release, settle, tell_ends, within,
};
use instance::CoreFault;
use instance::answers::{Entry, Step};
use instance::lists::Copied;
use std::alloc::AllocError;

impl World {
    /// Whether a living child may go, by what its parent says.
    pub(super) fn may_go(&self, home: &Home) -> bool
        requires ready { self.now.spent ≡ false }
        requires runs { self.now.closed ≡ false }
        ensures { result ≡ may_go self.now.homes home.now }
    {
        may_go(&self.homes, home)
    }

    /// The child of a job of an instance is born, with the resources of the job as its grant.
    pub(super) fn bear(&mut self, parent: u32, job: u64) -> Result<(), CoreFault>
        requires ready { self.old.spent ≡ false }
        requires can { CanMake self.old (Step.Birth parent job) }
        ensures advances { OnOk result (Advances self.old (Step.Birth parent job) self.new) }
        ensures order { OnOk result (self.new.order ≡ self.old.order) }
        ensures spent { OnErr result (self.new.spent ≡ true) }
    {
        self.spent = true;
        let second = self.homes[0].instance.second();
        // there are at most 16 instances: this stands for the end of the count
        let Ok(count) = u32::try_from(self.homes.len() + 1) else {
            return Err(CoreFault::NoMemory);
        };
        let child = count - 1;
        let (label, grant) = bear_for(self.alloc, &mut self.homes[parent as usize].instance, job)?;
        let origin = Origin {
            parent,
            job,
            label: label.copy()?,
        };
        let home = child_home(
            self.alloc,
            self.setting,
            self.terms,
            &self.work,
            origin,
            &grant,
            second,
        )?;
        settle(&mut self.places, &self.work.actors, &label, child);
        self.homes.push(home)?;
        self.chronicle.push(Entry::Born {
            child,
            parent,
            job,
            label,
            second,
            grant,
        })?;
        let step = Step::Birth {
            instance: parent,
            job,
        };
        keep(&mut self.steps, &mut self.ends, &self.chronicle, step)?;
        self.spent = false;
        Ok(())
    }

    /// A child goes, with all instances within it, each before its parent.
    pub(super) fn end(&mut self, number: u32) -> Result<(), AllocError>
        requires ready { self.old.spent ≡ false }
        requires can { CanMake self.old (Step.End number) }
        ensures advances { OnOk result (Advances self.old (Step.End number) self.new) }
        ensures order { OnOk result (self.new.order ≡ self.old.order) }
        ensures spent { OnErr result (self.new.spent ≡ true) }
    {
        let home = &self.homes[number as usize];
        let shut = home.shuts;
        let (parent, job) = match &home.origin {
            Some(origin) => (origin.parent, origin.job),
            None => unreachable!(),
        };
        self.spent = true;
        let marks = within(self.alloc, &self.homes, number)?;
        tell_ends(&mut self.chronicle, &self.homes, &marks)?;
        let_go(&mut self.homes, &marks);
        release(&mut self.homes[parent as usize].instance, job, shut)?;
        keep(
            &mut self.steps,
            &mut self.ends,
            &self.chronicle,
            Step::End { instance: number },
        )?;
        self.spent = false;
        Ok(())
    }
}
