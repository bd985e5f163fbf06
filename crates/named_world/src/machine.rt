//! A named world as a machine, which several workers share under a lock.
ghost use Rattle.std.specs.Prelude.{◌≡◌, ◌||◌, false, Contains};
ghost use Rattle.world.specs.Choice.{MayLose};
ghost use Rattle.world.specs.Order.{possible_in};
ghost use Rattle.world.specs.Steps.{CanMake, MayStart};
ghost use Rattle.named_world.specs.Value.{is_open};

use crate::looks::{Look, RunName};
use crate::named::NamedWorld;
use desk::Machine;
use std::alloc::AllocError;
use world::answers::Step;

impl<'f, N: RunName> Machine for NamedWorld<'f, N> {
    type Step = Step;

    type Input = Look<N>;

    ghost made = { λ w. w.world.steps };

    ghost spent = { λ w. w.world.spent };

    ghost can = { λ w step. CanMake w.world step × MayLose w.world.order step
        × MayStart w.world step };

    ghost can_in_lane = { λ w lane step. (w.world.spent ≡ false)
        × Contains (possible_in w.world lane) step };

    ghost wants = { λ w look. is_open w look.actor look.seen };

    ghost is_quiet = { λ w. w.world.spent || w.world.closed };

    fn start(&self) -> bool {
        self.world().start()
    }

    fn next(&self, lane: u32) -> Option<Step> {
        self.next_step(lane)
    }

    fn turn(&mut self, step: Step) -> Result<(), AllocError> {
        self.make(step)
    }

    fn takes(&self, input: &Look<N>) -> bool {
        self.is_open(input)
    }

    fn accept(&mut self, input: Look<N>) -> Result<Step, AllocError> {
        let actor = input.actor;
        self.record(input)?;
        Ok(Step::Record { actor })
    }

    fn quiet(&self) -> bool {
        self.world().spent() || self.world().quiet()
    }
}
