//! What lies under the lock.
ghost use Rattle.std.specs.Prelude.{◌≡◌, ◌∷◌, ◌++◌, [], true, false, IfOk, OnOk, OnErr, IsErr, MatchBool, MatchResult};
ghost use mathlib.Core.List.{IsPrefix};
ghost use Rattle.desk.specs.Value.{new_held};

use crate::Machine;
use std::alloc::{AllocError, Global};
use std::marker::Model;

/// A machine with the list of the steps that it has made. After want of memory it is spent: from
/// then on each call that can answer want of memory does so.
#[derive(Drop)]
pub struct Held<M: Machine + Drop> {
    machine: M,
    steps: Vec<M::Step>,
    spent: bool,
}

impl<M: Machine + Drop> Model for Held<M> {
    ghost use Rattle.std.specs.Prelude.{◌≡◌, false};
    ghost use Rattle.desk.specs.Value.{HeldValue};

    ghost Value = { HeldValue M M.Step };

    ghost view = { λ h. record { machine = h.machine; steps = h.steps.items; spent = h.spent } };

    ghost invariant = { λ h. h.spent ≡ false
        → (M.made h.machine ≡ h.steps.items) × (M.spent h.machine ≡ false) };
}

/// A machine with the steps that it has made, in order.
#[derive(Drop)]
pub struct Finished<M: Machine + Drop> {
    pub machine: M,
    pub steps: Vec<M::Step>,
    pub ghost made: { M.made machine ≡ steps.items },
    pub ghost live: { M.spent machine ≡ false },
}

impl<M: Machine + Drop> Held<M> {
    /// Holds a machine that has made no steps. It takes no memory.
    pub fn new(alloc: Global, machine: M) -> Held<M>
        requires none { M.made machine ≡ [] }
        requires live { M.spent machine ≡ false }
        ensures { result ≡ new_held machine }
    {
        Held {
            machine,
            steps: Vec::new(alloc),
            spent: false,
        }
    }

    // Want of memory where it is spent.
    fn live(&self) -> Result<(), AllocError>
        ensures { MatchResult result (λ _. self.now.spent ≡ false) (λ _. self.now.spent ≡ true) }
    {
        if self.spent {
            return Err(AllocError);
        }
        Ok(())
    }

    /// Makes one step of the lane and keeps it. False exactly where the lane has no step that can
    /// be made; nothing changes then.
    pub fn turn(&mut self, lane: u32) -> Result<bool, AllocError>
        ensures made { IfOk result
            (λ some. MatchBool some ((step : M.Step) × M.can_in_lane self.old.machine lane step
            × (self.new.steps ≡ self.old.steps ++ step ∷ [])) (((step : M.Step)
            → ¬ M.can_in_lane self.old.machine lane step) × (self.new ≡ self.old))) }
        ensures live { OnOk result ((self.old.spent ≡ false) × (self.new.spent ≡ false)) }
        ensures spent { OnErr result (self.new.spent ≡ true) }
        ensures later { self.old.spent ≡ true → IsErr result }
    {
        self.live()?;
        let Some(step) = self.machine.next(lane) else {
            return Ok(false);
        };
        // Spent until the step is kept.
        self.spent = true;
        self.steps.reserve(1)?;
        self.machine.turn(step)?;
        self.steps.push_reserved(step);
        self.spent = false;
        Ok(true)
    }

    /// Hands an input to the machine and keeps the step that it makes. False exactly where the
    /// machine doesn't want the input; nothing changes then.
    pub fn accept(&mut self, input: M::Input) -> Result<bool, AllocError>
    where
        M::Input: Drop,
        ensures made { IfOk result (λ some. M.wants self.old.machine input ≡ some) }
        ensures kept { IfOk result (λ some. MatchBool some ((step : M.Step)
            × (self.new.steps ≡ self.old.steps ++ step ∷ [])) (self.new ≡ self.old)) }
        ensures live { OnOk result ((self.old.spent ≡ false) × (self.new.spent ≡ false)) }
        ensures spent { OnErr result (self.new.spent ≡ true) }
        ensures later { self.old.spent ≡ true → IsErr result }
    {
        self.live()?;
        if !self.machine.takes(&input) {
            return Ok(false);
        }
        self.spent = true;
        self.steps.reserve(1)?;
        let made = self.machine.accept(input)?;
        self.steps.push_reserved(made);
        self.spent = false;
        Ok(true)
    }

    /// Makes the steps of lane 0 until there is none. It makes at most 2^64 - 1 steps, whose end is
    /// want of memory, since each step is kept.
    pub fn drain(&mut self) -> Result<(), AllocError>
        ensures done { OnOk result ((step : M.Step) → ¬ M.can_in_lane self.new.machine 0 step) }
        ensures kept { OnOk result (IsPrefix self.old.steps self.new.steps) }
        ensures live { OnOk result ((self.old.spent ≡ false) × (self.new.spent ≡ false)) }
        ensures spent { OnErr result (self.new.spent ≡ true) }
        ensures later { self.old.spent ≡ true → IsErr result }
    {
        for _ in 0..u64::MAX {
            if !self.turn(0)? {
                return Ok(());
            }
        }
        self.spent = true;
        Err(AllocError)
    }

    /// The machine. It takes no memory.
    pub fn machine(&self) -> &M
        ensures { result.now ≡ self.now.machine }
    {
        &self.machine
    }

    /// The steps that were made, in order. It takes no memory.
    pub fn steps(&self) -> &[M::Step]
        ensures { result.now ≡ self.now.steps }
    {
        self.steps.as_slice()
    }

    /// Whether memory has failed. It takes no memory.
    pub fn spent(&self) -> bool
        ensures { result ≡ self.now.spent }
    {
        self.spent
    }

    /// The machine and all its steps. It takes no memory.
    pub fn finish(self) -> Finished<M>
        requires { self.spent ≡ false }
        ensures { (result.machine ≡ self.machine) × (result.steps.items ≡ self.steps) }
    {
        let Held {
            machine,
            steps,
            spent: _,
        } = self;
        Finished { machine, steps }
    }
}
