//! The world of a run that a name names.
ghost use Rattle.std.specs.Prelude.{◌≡◌, ◌<◌, [], true, false, Contains, IfSome, None, OnErr, OnOk, Some};
ghost use Rattle.root_feed.specs.Values.{new_heralds};
ghost use Rattle.world.specs.hierarchy.Legal.{HasRunRest};
ghost use Rattle.instance.specs.Steps.{IsStart};
ghost use Rattle.world.specs.Advances.{Advances};
ghost use Rattle.world.specs.Choice.{MayLose, behind, is_alone, joined};
ghost use Rattle.world.specs.Looks.{has_look, look_at};
ghost use Rattle.world.specs.Order.{possible_in};
ghost use Rattle.world.specs.Steps.{CanMake, MayStart};
ghost use Rattle.world.specs.declared.order.Order.TheVariants as order;
ghost use Rattle.named_world.specs.Value.{all_losses, is_open};

use crate::heralds::{meet, raise_heard};
use crate::looks::{Look, RunName};
use root_feed::{Feed, Herald};
use std::alloc::AllocError;
use std::marker::Model;
use world::answers::Step;
use world::{Looker, World};

/// The world of the run that N names, with a herald for each broker of the top. Unless it is spent,
/// the run is given what N names, each herald's number is what its broker has heard, and the losses
/// made and left are as many as N names.
#[derive(Drop)]
pub struct NamedWorld<'f, N: RunName> {
    world: World,
    feed: &'f Feed<N>,
    heralds: Vec<Herald<N>>,
}

impl<'f, N: RunName> Model for NamedWorld<'f, N> {
    ghost use Rattle.std.specs.Prelude.{◌≡◌, false, Some};
    ghost use Rattle.named_world.specs.Value.{NamedValue, all_losses};
    ghost use Rattle.named_world.specs.Words.{TellsHeard};

    ghost Value = { NamedValue };

    ghost view = { λ w. record { world = w.world; heralds = w.heralds.items } };

    ghost invariant = { λ w. w.world.spent ≡ false → (N.run ≡ Some w.world.set)
        × TellsHeard w.world.set.size w.world.chronicle w.heralds.items
        × (all_losses w.world ≡ N.losses) };
}

impl<'f, N: RunName> NamedWorld<'f, N> {
    /// The world of a run in which nothing has happened, with heralds that have stored nothing. It
    /// takes no memory.
    pub fn new(world: World, feed: &'f Feed<N>, heralds: Vec<Herald<N>>) -> NamedWorld<'f, N>
        requires named { N.run ≡ Some world.set }
        requires empty { world.chronicle ≡ [] }
        requires losses { all_losses world ≡ N.losses }
        requires heralds { heralds.items ≡ new_heralds world.set.size }
        ensures { (result.world ≡ world) × (result.heralds ≡ heralds.items) }
    {
        NamedWorld {
            world,
            feed,
            heralds,
        }
    }

    /// The world itself.
    pub fn world(&self) -> &World
        ensures { result.now ≡ self.now.world }
    {
        &self.world
    }

    /// The next step of a lane, and none where memory has failed.
    pub fn next_step(&self, lane: u32) -> Option<Step>
        ensures live { IfSome result (λ _. self.now.world.spent ≡ false) }
        ensures some { IfSome result (λ step. CanMake self.now.world step) }
        ensures may { IfSome result (MayLose self.now.world.order) }
        ensures rests { IfSome result (λ step. MayStart self.now.world step) }
        ensures listed { IfSome result (λ step. Contains (possible_in self.now.world lane) step) }
        ensures none { result ≡ None → self.now.world.spent ≡ false
            → possible_in self.now.world lane ≡ [] }
        ensures last { result ≡ None → self.now.world.spent ≡ false
            → is_alone self.now.world.order ≡ true → has_look self.now.world ≡ false
            → self.now.world.closed ≡ true }
        ensures told { self.now.world.order ≡ order.Settled → IfSome result (λ step. IsStart step
            → HasRunRest self.now.world.set self.now.world.chronicle) }
    {
        if self.world.spent() {
            return None;
        }
        self.world.next(lane)
    }

    /// The least actor of a lane with an open look.
    pub fn looker(&self, lane: u32) -> Option<Looker>
        ensures live { IfSome result (λ _. self.now.world.spent ≡ false) }
        ensures some { IfSome result (λ looker. look_at self.now.world looker.actor ≡ Some looker) }
        ensures none { result ≡ None → self.now.world.spent ≡ false
            → is_alone self.now.world.order ≡ true → has_look self.now.world ≡ false }
    {
        if self.world.spent() {
            return None;
        }
        self.world.looker(lane)
    }

    /// Makes a step, in which the herald of each broker that hears a root of `primary` raises its
    /// word. After an error it is spent.
    #[tactic(auto, using(crate::proofs::Losing::losses_kept))]
    pub fn make(&mut self, step: Step) -> Result<(), AllocError>
        requires live { self.old.world.spent ≡ false }
        requires can { CanMake self.old.world step }
        requires may { MayLose self.old.world.order step }
        requires rests { MayStart self.old.world step }
        ensures advances { OnOk result (Advances self.old.world step self.new.world) }
        ensures order { OnOk result (self.new.world.order ≡ behind step self.old.world.order) }
        ensures spent { OnErr result (self.new.world.spent ≡ true) }
    {
        let before = self.world.chronicle().as_slice().len();
        if self.world.turn(step).is_err() {
            return Err(AllocError);
        }
        let told = self.world.chronicle().as_slice();
        raise_heard(&mut self.heralds, self.feed, told, before);
        Ok(())
    }

    /// Whether the look is one that an actor has open.
    pub fn is_open(&self, look: &Look<N>) -> bool
        ensures { result ≡ is_open self.now look.now.actor look.now.seen }
    {
        if self.world.spent() {
            return false;
        }
        match self.world.look_at(look.actor) {
            Some(looker) => {
                looker.broker == look.seen.broker() && looker.need <= look.seen.number()
            }
            None => false,
        }
    }

    /// Records a look that its actor has open: the herald of its broker meets the note, so that what
    /// was seen is no more than what the broker has heard. After an error it is spent.
    #[tactic(auto, using(crate::proofs::Losing::losses_recorded))]
    pub fn record(&mut self, look: Look<N>) -> Result<(), AllocError>
        requires { is_open self.old look.actor look.seen ≡ true }
        ensures advances { OnOk result
            (Advances self.old.world (Step.Record look.actor) self.new.world) }
        ensures order { OnOk result
            (self.new.world.order ≡ behind (Step.Record look.actor) self.old.world.order) }
        ensures spent { OnErr result (self.new.world.spent ≡ true) }
    {
        let Look { actor, seen, note } = look;
        // the broker of the actor has a herald
        self.world.look_at(actor);
        meet(&mut self.heralds, self.feed, &seen, note);
        let before = self.world.chronicle().as_slice().len();
        self.world.record(actor, seen.number())?;
        let told = self.world.chronicle().as_slice();
        raise_heard(&mut self.heralds, self.feed, told, before);
        Ok(())
    }

    /// Makes one lane of all. It takes no memory.
    #[tactic(auto, using(crate::proofs::Losing::losses_joined))]
    pub fn join(&mut self)
        ensures { self.new ≡ record self.old {
          world = record self.old.world { order = joined self.old.world.order };
        } }
    {
        self.world.join();
    }

    /// The world, which needs no name any more. It takes no memory.
    pub fn finish(self) -> World
        ensures value { result ≡ self.entry.world }
        ensures losses { result.spent ≡ false → all_losses result ≡ N.losses }
    {
        self.world
    }
}
