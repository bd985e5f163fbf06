//! The steps that can be made, by number.
ghost use Rattle.std.specs.Prelude.{◌≡◌, ◌≤◌, ◌<◌, ◌↔◌, ◌&&◌, ◌==◌, ◌^◌, ◌-◌, ◌%◌, ℕ, [], false, true, length, map, min, slice_get, IfOk, IfSome, IsTrue, None, Some};
ghost use Rattle.std.specs.List.{cons_option};
ghost use Rattle.std.specs.Option.{option_map_or};
ghost use Rattle.hierarchy.specs.Legal.{HasRunRest};
ghost use Rattle.instance.specs.Steps.{IsStart};
ghost use Rattle.instance.specs.kvs_keys.Walk.{nth};
ghost use Rattle.homes.specs.Homes.{living_at};
ghost use Rattle.world.specs.Choice.{MayLose};
ghost use Rattle.world.specs.Looks.{has_look};
ghost use Rattle.world.specs.Order.{all_before_end, before_end, by_instances, issues, left_in, losses, free_steps, steps_at, steps_in, steps_of};
ghost use Rattle.world.specs.Steps.{CanMake, IsOver, MayStart, can_issue};
ghost use Rattle.world.specs.Walks.{by_the_run, next_at};
ghost use Rattle.homes.specs.declared.homes.Home.{Home as HomeValue};

use super::World;
use crate::order::Order;
use homes::{Home, Place, rest, turns_are_listed};
use instance::answers::Step;

/// The kinds of steps that instances have, in their fixed order; losses stand behind all others.
#[derive(Clone, Copy, Debug, PartialEq, Eq)]
enum Kind {
    Turn,
    Feed,
    Reply,
    Post,
    Birth,
    End,
    Loss,
}

/// A step that may be made, as the number 0 of it alone, or what the number has left behind it.
fn nth_of_one(step: Option<Step>, number: u64) -> Result<Step, u64>
    ensures { result ≡ nth (cons_option step []) number }
{
    match step {
        Some(step) if number == 0 => Ok(step),
        Some(_) => Err(number - 1),
        None => Err(number),
    }
}

/// Whether an actor waits in the instance of this number.
fn waits_in(place: Place, instance: u32) -> bool
    ensures { result ≡ (place.waits && option_map_or (λ home. home == instance) place.home false) }
{
    match place.home {
        Some(home) => place.waits && home == instance,
        None => false,
    }
}

/// The actor of this number among those whose instance of another number has gone and who wait.
fn nth_left(places: &[Place], instance: u32, number: u64) -> Result<Step, u64>
    requires { length places.now < 2 ^ 32 }
    ensures { result ≡ nth (map Step.Answer (left_in places.now instance)) number }
{
    let mut left = number;
    for actor in 0..places.len() as u32 {
        if waits_in(places[actor as usize], instance) {
            if left == 0 {
                return Ok(Step::Answer { actor });
            }
            left -= 1;
        }
    }
    Err(left)
}

impl World {
    /// The step of this number among those of a kind that a living instance has, or what the number
    /// has left behind them.
    fn nth_in(&self, kind: Kind, instance: u32, home: &Home, number: u64) -> Result<Step, u64>
        requires ready { self.now.spent ≡ false }
        requires runs { self.now.closed ≡ false }
        requires here { living_at self.now.homes instance ≡ Some home.now }
        requires able { home.now.instance.spent ≡ false }
        ensures { result ≡ nth (steps_in self.now kind instance home.now) number }
    {
        match kind {
            Kind::Turn => match home.instance.nth_turn(number) {
                Ok(step) => Ok(Step::Kvs { instance, step }),
                Err(left) => Err(left),
            },
            Kind::Feed => match home.instance.nth_feed(number) {
                Ok(actor) => Ok(Step::Feed { actor }),
                Err(left) => Err(left),
            },
            Kind::Reply => match home.instance.nth_answer(number) {
                Ok(actor) => Ok(Step::Answer { actor }),
                Err(left) => Err(left),
            },
            Kind::Post => {
                let can = home.instance.can_post();
                nth_of_one(can.then_some(Step::Post { instance }), number)
            }
            Kind::Birth => match home.instance.birth() {
                Some(job) => nth_of_one(Some(Step::Birth { instance, job }), number),
                None => Err(number),
            },
            Kind::End => {
                let can = self.may_go(home);
                nth_of_one(can.then_some(Step::End { instance }), number)
            }
            Kind::Loss => match home.instance.nth_loss(number) {
                Ok(step) => Ok(Step::Kvs { instance, step }),
                Err(left) => Err(left),
            },
        }
    }

    /// The step of this number among those of a kind that the instance of another number has, or
    /// what the number has left behind them.
    fn nth_at(&self, kind: Kind, instance: u32, number: u64) -> Result<Step, u64>
        requires ready { self.now.spent ≡ false }
        requires runs { self.now.closed ≡ false }
        requires within { instance < length self.now.homes }
        ensures { (home : HomeValue) → slice_get self.now.homes instance ≡ Some home
            → result ≡ nth (steps_at self.now kind (instance, home)) number }
    {
        let home = &self.homes[instance as usize];
        if !home.gone {
            return self.nth_in(kind, instance, home, number);
        }
        match kind {
            Kind::Reply => nth_left(&self.places, instance, number),
            Kind::Turn | Kind::Feed | Kind::Post | Kind::Birth | Kind::End | Kind::Loss => {
                Err(number)
            }
        }
    }

    /// The step of this number among those of a kind, instance by instance, or what the number has
    /// left behind them.
    fn nth_of(&self, kind: Kind, number: u64) -> Result<Step, u64>
        requires ready { self.now.spent ≡ false }
        requires runs { self.now.closed ≡ false }
        ensures { result ≡ nth (steps_of self.now kind) number }
    {
        let mut left = number;
        for instance in 0..self.homes.len() as u32 {
            match self.nth_at(kind, instance, left) {
                Ok(step) => return Ok(step),
                Err(behind) => left = behind,
            }
        }
        Err(left)
    }

    /// The step of this number among those of all kinds but losses, kind by kind, or what the number
    /// has left behind them.
    fn nth_of_all(&self, number: u64) -> Result<Step, u64>
        requires ready { self.now.spent ≡ false }
        requires runs { self.now.closed ≡ false }
        ensures { result ≡ nth (by_instances self.now) number }
    {
        let mut left = number;
        for kind in [
            Kind::Turn,
            Kind::Feed,
            Kind::Reply,
            Kind::Post,
            Kind::Birth,
            Kind::End,
        ] {
            match self.nth_of(kind, left) {
                Ok(step) => return Ok(step),
                Err(behind) => left = behind,
            }
        }
        Err(left)
    }

    /// The actor whose next line comes first from a line on, among those that can be issued one.
    fn issue_from(&self, from: usize) -> Option<u32>
        requires { length self.now.places < 2 ^ 32 }
        ensures some { IfSome result (λ actor. (can_issue self.now actor ≡ true)
            × (from ≤ next_at self.now.places actor)) }
        ensures first { IfSome result (λ actor. (other : ℕ) → can_issue self.now other ≡ true
            → from ≤ next_at self.now.places other
            → next_at self.now.places actor ≤ next_at self.now.places other) }
        ensures none { result ≡ None → (actor : ℕ) → can_issue self.now actor ≡ true
            → next_at self.now.places actor < from }
    {
        let mut first = None;
        let mut line = self.work.lines.as_slice().len();
        for actor in 0..self.places.len() as u32 {
            let next = self.places[actor as usize].next;
            if self.can_issue(actor) && from <= next && next < line {
                first = Some(actor);
                line = next;
            }
        }
        first
    }

    /// The issue of this number, by line, or what the number has left behind them.
    fn nth_issue(&self, number: u64) -> Result<Step, u64>
        requires ready { self.now.spent ≡ false }
        requires runs { self.now.closed ≡ false }
        ensures { result ≡ nth (map Step.Issue (issues self.now)) number }
    {
        let mut left = number;
        let mut from = 0;
        while let Some(actor) = self.issue_from(from) {
            if left == 0 {
                return Ok(Step::Issue { actor });
            }
            left -= 1;
            from = self.places[actor as usize].next + 1;
        }
        Err(left)
    }

    /// The step of this number among those that no instance makes by itself, or what the number has
    /// left behind them.
    fn nth_of_run(&self, number: u64) -> Result<Step, u64>
        requires ready { self.now.spent ≡ false }
        requires runs { self.now.closed ≡ false }
        ensures { result ≡ nth (by_the_run self.now) number }
    {
        let can = self.next_second().is_some();
        match nth_of_one(can.then_some(Step::Tick), number) {
            Ok(step) => Ok(step),
            Err(left) => self.nth_issue(left),
        }
    }

    /// The step of this number among those that can be made before the end, but for losses, or what
    /// the number has left behind them.
    pub(super) fn nth(&self, number: u64) -> Result<Step, u64>
        requires ready { self.now.spent ≡ false }
        requires runs { self.now.closed ≡ false }
        ensures value { result ≡ nth (before_end self.now) number }
        ensures can { IfOk result (λ step. CanMake self.now step) }
    {
        // what holds of the world is known where it is looked at
        let _ = &self.alloc;
        match self.nth_of_all(number) {
            Ok(step) => Ok(step),
            Err(left) => self.nth_of_run(left),
        }
    }

    /// The loss of this number among those that may be made, or what the number has left behind
    /// them.
    fn nth_loss(&self, number: u64) -> Result<Step, u64>
        requires ready { self.now.spent ≡ false }
        requires runs { self.now.closed ≡ false }
        ensures { result ≡ nth (losses self.now) number }
    {
        if self.order.losses_left() == 0 {
            Err(number)
        } else {
            self.nth_of(Kind::Loss, number)
        }
    }

    /// The step of this number among all that can be made before the end, or what the number has
    /// left behind them.
    fn nth_with_losses(&self, number: u64) -> Result<Step, u64>
        requires ready { self.now.spent ≡ false }
        requires runs { self.now.closed ≡ false }
        ensures value { result ≡ nth (all_before_end self.now) number }
        ensures can { IfOk result (λ step. CanMake self.now step) }
        ensures may { IfOk result (MayLose self.now.order) }
    {
        // what holds of the world is known where it is looked at
        let _ = &self.alloc;
        match self.nth(number) {
            Ok(step) => Ok(step),
            Err(left) => self.nth_loss(left),
        }
    }

    /// Whether nothing can happen but the end.
    pub(super) fn is_over(&self) -> bool
        requires ready { self.now.spent ≡ false }
        requires runs { self.now.closed ≡ false }
        ensures exact { IsTrue result ↔ IsOver self.now }
        ensures left { result ≡ false → has_look self.now ≡ false
            → ¬ (before_end self.now ≡ []) }
    {
        if self.has_look() {
            return false;
        }
        turns_are_listed(&self.homes);
        self.nth(0).is_err()
    }

    /// The first step in the fixed order that an instance can make.
    pub(super) fn first_of_all(&self) -> Option<Step>
        requires ready { self.now.spent ≡ false }
        requires runs { self.now.closed ≡ false }
        ensures first { result ≡ slice_get (by_instances self.now) 0 }
        ensures some { IfSome result (λ step. CanMake self.now step) }
        ensures may { IfSome result (MayLose self.now.order) }
        ensures goes_on { IfSome result (λ step. ¬ IsStart step) }
    {
        // what holds of the world is known where it is looked at
        let _ = &self.alloc;
        match self.nth_of_all(0) {
            Ok(step) => Some(step),
            Err(_) => None,
        }
    }

    /// The first step in the fixed order of a settled run in which no look is open.
    pub(super) fn first(&self) -> Option<Step>
        requires ready { self.now.spent ≡ false }
        requires settled { self.now.order ≡ Order.Settled }
        requires free { has_look self.now ≡ false }
        ensures first { result ≡ slice_get (free_steps self.now) 0 }
        ensures some { IfSome result (λ step. CanMake self.now step) }
        ensures may { IfSome result (MayLose self.now.order) }
        ensures none { (result ≡ None) ↔ (self.now.closed ≡ true) }
        ensures rests { IfSome result (λ step. MayStart self.now step) }
        ensures told { IfSome result (λ step. IsStart step
            → HasRunRest self.now.set self.now.chronicle) }
    {
        if self.closed {
            return None;
        }
        let homes = self.homes.as_slice();
        // nothing that can be made is missed, and the run is at rest where a command is issued or
        // time goes on
        turns_are_listed(homes);
        rest(homes);
        match self.nth(0) {
            Ok(step) => Some(step),
            Err(_) => Some(Step::Close),
        }
    }

    /// How many steps can be made before the end, as far as 64 bits count.
    fn count(&self) -> u64
        requires ready { self.now.spent ≡ false }
        requires runs { self.now.closed ≡ false }
        ensures { result ≡ min (length (all_before_end self.now)) (2 ^ 64 - 1) }
    {
        match self.nth_with_losses(u64::MAX) {
            Ok(_) => u64::MAX,
            Err(left) => u64::MAX - left,
        }
    }

    /// The step that a word chooses where no look is open: of those that can be made, the one whose
    /// number is the word modulo their count.
    pub(super) fn drawn(&self, word: u32) -> Option<Step>
        requires ready { self.now.spent ≡ false }
        requires free { has_look self.now ≡ false }
        ensures value { result
            ≡ slice_get (free_steps self.now) (word % length (free_steps self.now)) }
        ensures some { IfSome result (λ step. CanMake self.now step) }
        ensures may { IfSome result (MayLose self.now.order) }
        ensures none { (result ≡ None) ↔ (self.now.closed ≡ true) }
    {
        if self.closed {
            return None;
        }
        // the end comes where nothing else can be made
        turns_are_listed(&self.homes);
        let count = self.count();
        if count == 0 {
            return Some(Step::Close);
        }
        match self.nth_with_losses(u64::from(word) % count) {
            Ok(step) => Some(step),
            Err(_) => None,
        }
    }
}
