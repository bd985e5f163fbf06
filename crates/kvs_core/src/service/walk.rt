//! The steps that can be made, counted in their order.
ghost use Rattle.std.specs.Prelude.{◌≡◌, ◌<◌, true, false, None, map, slice_get, IfOk, IfSome};
ghost use Rattle.std.specs.List.{filter};
ghost use Rattle.kvs_keys.specs.Walk.{between, deliveries, nth, sent};
ghost use Rattle.kvs_core.specs.Order.{possible, possible_losses};
ghost use Rattle.kvs_core.specs.Steps.{can_step};
ghost use Rattle.kvs_core.specs.Walk.{step_of};

use super::Core;
use kvs_rules::KvsStep;

/// Steps that stand beside each other in the order.
#[derive(Clone, Copy)]
enum Strand {
    /// The deliveries from one broker, by receiver.
    Deliveries { from: u32 },
    /// The services, by broker.
    Services,
    /// The landings, by namespace.
    Landings,
    /// The resyncs, by broker.
    Resyncs,
}

impl Strand {
    /// The step at a place of the strand.
    fn step(self, at: u32) -> KvsStep
        ensures { result ≡ step_of self at }
    {
        match self {
            Strand::Deliveries { from } => KvsStep::Deliver { from, to: at },
            Strand::Services => KvsStep::Serve { broker: at },
            Strand::Landings => KvsStep::Land { namespace: at },
            Strand::Resyncs => KvsStep::Resync { broker: at },
        }
    }
}

impl Core {
    /// The step of this number among those of a strand between two places, or what the number has
    /// left behind them.
    fn nth_along(&self, strand: Strand, first: u32, end: u32, number: u64) -> Result<KvsStep, u64>
        requires { self.now.spent ≡ false }
        ensures value { result
            ≡ nth (filter (can_step self.now) (map (step_of strand)
            (between first end))) number }
        ensures can { IfOk result (λ step. can_step self.now step ≡ true) }
    {
        let mut left = number;
        for at in first..end {
            let step = strand.step(at);
            if self.can(step) {
                if left == 0 {
                    return Ok(step);
                }
                left -= 1;
            }
        }
        Err(left)
    }

    /// The same among the deliveries from one broker: it sends to the broker above it and to those
    /// below it alone.
    fn nth_sent(&self, from: u32, number: u64) -> Result<KvsStep, u64>
        requires ready { self.now.spent ≡ false }
        requires within { from < self.now.size }
        ensures value { result ≡ nth (filter (can_step self.now) (sent self.now.size from)) number }
        ensures can { IfOk result (λ step. can_step self.now step ≡ true) }
    {
        self.keys.links();
        self.contents.links();
        let strand = Strand::Deliveries { from };
        let above = from.saturating_sub(1) / self.fanout;
        let left = match self.nth_along(strand, above, above + 1, number) {
            Ok(step) => return Ok(step),
            Err(left) => left,
        };
        let below = from
            .saturating_mul(self.fanout)
            .saturating_add(1)
            .min(self.size);
        let end = below.saturating_add(self.fanout).min(self.size);
        self.nth_along(strand, below, end, left)
    }

    /// The same among the deliveries.
    fn nth_delivery(&self, number: u64) -> Result<KvsStep, u64>
        requires { self.now.spent ≡ false }
        ensures value { result
            ≡ nth (filter (can_step self.now) (deliveries self.now.size)) number }
        ensures can { IfOk result (λ step. can_step self.now step ≡ true) }
    {
        let mut left = number;
        for from in 0..self.size {
            match self.nth_sent(from, left) {
                Ok(step) => return Ok(step),
                Err(behind) => left = behind,
            }
        }
        Err(left)
    }

    /// The same among all steps, by a walk over links and brokers.
    fn nth_of_both(&self, number: u64) -> Result<KvsStep, u64>
        requires { self.now.spent ≡ false }
        ensures value { result ≡ nth (possible self.now) number }
        ensures can { IfOk result (λ step. can_step self.now step ≡ true) }
    {
        let left = match self.nth_delivery(number) {
            Ok(step) => return Ok(step),
            Err(left) => left,
        };
        let spaces = self.keys.namespaces();
        let left = match self.nth_along(Strand::Services, 0, self.size, left) {
            Ok(step) => return Ok(step),
            Err(left) => left,
        };
        let left = match self.nth_along(Strand::Landings, 0, spaces, left) {
            Ok(step) => return Ok(step),
            Err(left) => left,
        };
        self.nth_along(Strand::Resyncs, 0, self.size, left)
    }

    /// The first step, by the same walk.
    pub(super) fn first_of_both(&self) -> Option<KvsStep>
        requires { self.now.spent ≡ false }
        ensures first { result ≡ slice_get (possible self.now) 0 }
        ensures some { IfSome result (λ step. can_step self.now step ≡ true) }
        ensures none { result ≡ None → (step : KvsStep) → can_step self.now step ≡ false }
    {
        self.keys.links();
        self.contents.links();
        match self.nth_of_both(0) {
            Ok(step) => Some(step),
            Err(_) => None,
        }
    }

    /// The step of this number, from 0, among those that can be made, in their order; or, where
    /// there are no more than so many, what the number has left behind them all.
    pub fn nth(&self, number: u64) -> Result<KvsStep, u64>
        requires { self.now.spent ≡ false }
        ensures value { result ≡ nth (possible self.now) number }
        ensures can { IfOk result (λ step. can_step self.now step ≡ true) }
    {
        // where nothing is to do for the contents, the keys' steps are all
        if self.contents.is_idle() {
            return self.keys.nth(number);
        }
        self.nth_of_both(number)
    }

    /// The loss of this number, from 0, among those that can be made, in their order; or, where
    /// there are no more than so many, what the number has left behind them all.
    pub fn nth_loss(&self, number: u64) -> Result<KvsStep, u64>
        requires { self.now.spent ≡ false }
        ensures value { result ≡ nth (possible_losses self.now) number }
        ensures can { IfOk result (λ step. can_step self.now step ≡ true) }
    {
        self.keys.nth_loss(number)
    }
}
