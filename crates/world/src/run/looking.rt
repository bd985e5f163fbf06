//! Open looks, which are told what was seen of `primary` without asking the top.
ghost use Rattle.std.specs.Prelude.{◌≡◌, ◌<◌, ◌≤◌, ◌^◌, ℕ, length, IfSome, IsSomeAnd, None, OnErr, OnOk, Some, false, true};
ghost use Rattle.hierarchy.specs.Heard.{heard_at};
ghost use Rattle.world.specs.Advances.{Advances};
ghost use Rattle.world.specs.Choice.{behind, is_alone};
ghost use Rattle.world.specs.Looks.{has_look, look_at};
ghost use Rattle.world.specs.Order.{is_own};

use super::{World, keep};
use hierarchy::hearings::hearings_rise;
use homes::{enter, home_at};
use instance::answers::Step;
use std::alloc::AllocError;

/// The open look of an actor of the top: its broker, and the least number that it may tell.
#[derive(Clone, Copy, Debug, PartialEq, Eq)]
pub struct Looker {
    pub actor: u32,
    pub broker: u32,
    pub need: u64,
}

impl World {
    /// The open look of an actor of the top, while the run goes on.
    pub fn look_at(&self, actor: u32) -> Option<Looker>
        requires { self.now.spent ≡ false }
        ensures value { result ≡ look_at self.now actor }
        ensures inside { IfSome result (λ looker. looker.broker < self.now.set.size) }
    {
        if self.closed {
            return None;
        }
        match home_at(&self.homes, 0) {
            Some(top) => match top.instance.look_of(actor) {
                Some(look) => Some(Looker {
                    actor,
                    broker: look.broker,
                    need: look.need,
                }),
                None => None,
            },
            None => None,
        }
    }

    /// The open look of the lowest actor of a lane that has one, of so many lanes.
    fn looker_in(&self, count: u32, lane: u32) -> Option<Looker>
        requires ready { self.now.spent ≡ false }
        requires some { 0 < count }
        requires few { length self.now.places < 2 ^ 32 }
        ensures some { IfSome result (λ looker. look_at self.now looker.actor ≡ Some looker) }
        ensures within { IfSome result (λ looker. looker.actor < length self.now.places) }
        ensures none { result ≡ None → (actor : ℕ) → actor < length self.now.places
            → is_own count lane actor ≡ true → look_at self.now actor ≡ None }
    {
        for actor in 0..self.places.len() as u32 {
            if actor % count != lane % count {
                continue;
            }
            if let Some(looker) = self.look_at(actor) {
                return Some(looker);
            }
        }
        None
    }

    /// The open look of the lowest actor of a lane that has one.
    pub fn looker(&self, lane: u32) -> Option<Looker>
        requires { self.now.spent ≡ false }
        ensures some { IfSome result (λ looker. look_at self.now looker.actor ≡ Some looker) }
        ensures none { result ≡ None → is_alone self.now.order ≡ true
            → has_look self.now ≡ false }
    {
        if self.closed {
            return None;
        }
        self.looker_in(self.order.lanes(), lane)
    }

    /// Whether a look is open.
    pub(super) fn has_look(&self) -> bool
        requires { self.now.spent ≡ false }
        ensures { result ≡ has_look self.now }
    {
        if self.closed {
            return false;
        }
        self.looker_in(1, 0).is_some()
    }

    /// Replies to the open look of an actor with a number that was seen: no less than what the look
    /// may tell, and no more than what its broker has heard. After an error the world is spent.
    pub fn record(&mut self, actor: u32, number: u64) -> Result<(), AllocError>
        requires ready { self.old.spent ≡ false }
        requires open { IsSomeAnd (look_at self.old actor) (λ looker. (looker.need ≤ number)
            × (number ≤ heard_at self.old.chronicle looker.broker)) }
        ensures advances { OnOk result (Advances self.old (Step.Record actor) self.new) }
        ensures order { OnOk result (self.new.order ≡ behind (Step.Record actor) self.old.order) }
        ensures spent { OnErr result (self.new.spent ≡ true) }
    {
        self.tell_look(actor, number)?;
        self.order.advance(Step::Record { actor });
        Ok(())
    }

    /// Replies so, and leaves the order as it is.
    fn tell_look(&mut self, actor: u32, number: u64) -> Result<(), AllocError>
        requires ready { self.old.spent ≡ false }
        requires open { IsSomeAnd (look_at self.old actor) (λ looker. (looker.need ≤ number)
            × (number ≤ heard_at self.old.chronicle looker.broker)) }
        ensures advances { OnOk result (Advances self.old (Step.Record actor) self.new) }
        ensures order { OnOk result (self.new.order ≡ self.old.order) }
        ensures spent { OnErr result (self.new.spent ≡ true) }
    {
        // what the top's brokers have heard is what its own log tells
        hearings_rise();
        self.spent = true;
        let made = self.homes[0].instance.record(actor, number)?;
        enter(&mut self.chronicle, made, 0)?;
        self.places[actor as usize].waits = false;
        keep(
            &mut self.steps,
            &mut self.ends,
            &self.chronicle,
            Step::Record { actor },
        )?;
        self.spent = false;
        Ok(())
    }
}
