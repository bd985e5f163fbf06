//! The next step of a worker.
ghost use Rattle.std.specs.Prelude.{◌≡◌, ◌<◌, ◌^◌, ℕ, [], Contains, IfSome, None, false, length, slice_get, true};
ghost use Rattle.hierarchy.specs.Legal.{HasRunRest};
ghost use Rattle.instance.specs.Steps.{IsStart};
ghost use Rattle.world.specs.Choice.{MayLose, is_alone, is_in_lanes, lanes_of};
ghost use Rattle.world.specs.Looks.{has_look};
ghost use Rattle.world.specs.Order.{is_own, lane_steps, last_steps, next_step};
ghost use Rattle.world.specs.Steps.{CanMake, MayStart, can_issue};

use super::World;
use crate::order::Order;
use instance::answers::Step;

impl World {
    /// The next step where all are made in one lane.
    pub(super) fn next_alone(&self) -> Option<Step>
        requires ready { self.now.spent ≡ false }
        requires runs { self.now.closed ≡ false }
        requires alone { is_in_lanes self.now.order ≡ false }
        ensures chosen { result ≡ next_step self.now }
        ensures some { IfSome result (λ step. CanMake self.now step) }
        ensures may { IfSome result (MayLose self.now.order) }
        ensures last { result ≡ None → has_look self.now ≡ true }
        ensures rests { IfSome result (λ step. MayStart self.now step) }
        ensures told { self.now.order ≡ Order.Settled
            → IfSome result (λ step. IsStart step → HasRunRest self.now.set self.now.chronicle) }
    {
        if self.has_look() {
            return self.first_of_all();
        }
        match &self.order {
            Order::Settled => self.first(),
            Order::Shuffled { word, .. } => self.drawn(*word),
            Order::Lanes { .. } => unreachable!(),
        }
    }

    /// An actor of a lane, of so many, whose next command can be issued.
    fn own_issue(&self, count: u32, lane: u32) -> Option<u32>
        requires some { 0 < count }
        requires few { length self.now.places < 2 ^ 32 }
        ensures some { IfSome result (λ actor. can_issue self.now actor ≡ true) }
        ensures own { IfSome result (λ actor. is_own count lane actor ≡ true) }
        ensures none { result ≡ None → (actor : ℕ) → is_own count lane actor ≡ true
            → can_issue self.now actor ≡ false }
    {
        for actor in 0..self.places.len() as u32 {
            if actor % count == lane % count && self.can_issue(actor) {
                return Some(actor);
            }
        }
        None
    }

    /// The next step of a lane: an issue of one of its own actors, or else whatever any lane may make.
    pub(super) fn next_in(&self, lane: u32) -> Option<Step>
        requires ready { self.now.spent ≡ false }
        requires runs { self.now.closed ≡ false }
        requires lanes { is_in_lanes self.now.order ≡ true }
        ensures some { IfSome result (λ step. CanMake self.now step) }
        ensures may { IfSome result (MayLose self.now.order) }
        ensures listed { IfSome result
            (λ step. Contains (lane_steps self.now (lanes_of self.now.order) lane) step) }
        ensures none { result ≡ None → lane_steps self.now (lanes_of self.now.order) lane ≡ [] }
        ensures last { result ≡ None → is_alone self.now.order ≡ true
            → has_look self.now ≡ true }
        ensures rests { IfSome result (λ step. MayStart self.now step) }
    {
        if let Some(actor) = self.own_issue(self.order.lanes(), lane) {
            return Some(Step::Issue { actor });
        }
        match self.first_of_all() {
            Some(step) => Some(step),
            None => self.last_of_all(),
        }
    }

    /// A tick, or the end where nothing is left; none while a look is open.
    fn last_of_all(&self) -> Option<Step>
        requires ready { self.now.spent ≡ false }
        requires runs { self.now.closed ≡ false }
        ensures first { result ≡ slice_get (last_steps self.now) 0 }
        ensures some { IfSome result (λ step. CanMake self.now step) }
        ensures may { IfSome result (MayLose self.now.order) }
    {
        // what holds of the world is known where it is looked at
        let _ = &self.alloc;
        if self.has_look() {
            return None;
        }
        if self.next_second().is_some() {
            return Some(Step::Tick);
        }
        if self.is_over() {
            Some(Step::Close)
        } else {
            None
        }
    }
}
