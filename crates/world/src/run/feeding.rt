//! Watches of jobs, which are fed by the living instances of their actors.
ghost use Rattle.std.specs.Prelude.{◌≡◌, OnErr, OnOk, false, true};
ghost use Rattle.instance.specs.Steps.{can_feed as instance_can_feed};
ghost use Rattle.world.specs.Acting.{IsPlacedIn};
ghost use Rattle.world.specs.Advances.{Advances};
ghost use Rattle.world.specs.Steps.{CanMake, can_feed, of_home};

use super::{World, keep};
use homes::enter;
use instance::answers::Step;
use std::alloc::AllocError;

impl World {
    /// Whether an actor's open watch can be fed: by its instance, while that lives.
    pub(super) fn can_feed(&self, actor: u32) -> bool
        requires ready { self.now.spent ≡ false }
        requires runs { self.now.closed ≡ false }
        ensures { result ≡ can_feed self.now actor }
    {
        let Some(place) = self.places.get(actor as usize) else {
            return false;
        };
        let Some(number) = place.home else {
            return false;
        };
        let home = &self.homes[number as usize];
        !home.gone && home.instance.can_feed(actor)
    }

    /// Feeds the open watch of an actor.
    pub(super) fn feed(&mut self, actor: u32) -> Result<(), AllocError>
        requires ready { self.old.spent ≡ false }
        requires can { CanMake self.old (Step.Feed actor) }
        ensures advances { OnOk result (Advances self.old (Step.Feed actor) self.new) }
        ensures order { OnOk result (self.new.order ≡ self.old.order) }
        ensures spent { OnErr result (self.new.spent ≡ true) }
    {
        let Some(number) = self.places[actor as usize].home else {
            unreachable!()
        };
        self.feed_in(actor, number)
    }

    /// The living instance of an actor feeds the actor's open watch.
    fn feed_in(&mut self, actor: u32, number: u32) -> Result<(), AllocError>
        requires ready { self.old.spent ≡ false }
        requires runs { self.old.closed ≡ false }
        requires home { IsPlacedIn self.old.places actor number }
        requires can { of_home self.old number (λ h. instance_can_feed h.instance actor) ≡ true }
        ensures advances { OnOk result (Advances self.old (Step.Feed actor) self.new) }
        ensures order { OnOk result (self.new.order ≡ self.old.order) }
        ensures spent { OnErr result (self.new.spent ≡ true) }
    {
        self.spent = true;
        let made = self.homes[number as usize].instance.feed(actor)?;
        enter(&mut self.chronicle, made, number)?;
        keep(
            &mut self.steps,
            &mut self.ends,
            &self.chronicle,
            Step::Feed { actor },
        )?;
        self.spent = false;
        Ok(())
    }
}
