//! Time, which goes on for all instances.
ghost use Rattle.std.specs.Prelude.{◌≡◌, ◌++◌, false, IfSome, None, OnErr, OnOk, Some, is_some, true};
ghost use Rattle.instance.specs.manager_rules.Times.{IsLeast};
ghost use Rattle.world.specs.Advances.{Advances};
ghost use Rattle.homes.specs.Times.{all_ends, all_targets};
ghost use Rattle.world.specs.Steps.{CanMake, can_tick};
ghost use Rattle.homes.specs.Tells.{TellAll};

use super::{World, keep};
use homes::{are_left, is_due, is_ending, least_end, least_target, pass_to, sooner};
use instance::answers::{Entry, Step};
use std::alloc::AllocError;

impl World {
    /// The next second at which something happens, where time can go on: an advance waits, nothing
    /// is due, no child is to go, and all actors are told whose instances have gone.
    pub(super) fn next_second(&self) -> Option<u64>
        requires ready { self.now.spent ≡ false }
        requires runs { self.now.closed ≡ false }
        ensures can { is_some result ≡ can_tick self.now }
        ensures soonest { IfSome result (λ second. IsLeast
            (all_targets self.now.homes ++ all_ends self.now.homes) second) }
        ensures told { IfSome result (λ second. TellAll self.now.homes) }
    {
        let homes = self.homes.as_slice();
        if is_due(homes) || is_ending(homes) || are_left(homes, &self.places) {
            return None;
        }
        let target = least_target(homes)?;
        sooner(Some(target), least_end(homes))
    }

    /// Lets time go on to the next second at which something happens.
    pub(super) fn tick(&mut self) -> Result<(), AllocError>
        requires ready { self.old.spent ≡ false }
        requires can { CanMake self.old Step.Tick }
        ensures advances { OnOk result (Advances self.old Step.Tick self.new) }
        ensures order { OnOk result (self.new.order ≡ self.old.order) }
        ensures spent { OnErr result (self.new.spent ≡ true) }
    {
        let Some(second) = self.next_second() else {
            unreachable!()
        };
        self.spent = true;
        pass_to(&mut self.homes, second)?;
        self.chronicle.push(Entry::Ticked { second })?;
        keep(&mut self.steps, &mut self.ends, &self.chronicle, Step::Tick)?;
        self.spent = false;
        Ok(())
    }
}
