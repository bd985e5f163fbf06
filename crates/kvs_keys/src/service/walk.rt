//! The steps that can be made, counted in their order.
ghost use Rattle.std.specs.Prelude.{◌≡◌, ◌+◌, ◌*◌, ◌<◌, min, true, false, map, IfOk};
ghost use Rattle.std.specs.List.{filter};
ghost use Rattle.kvs_keys.specs.Order.{loss_step, losses, possible, possible_losses};
ghost use Rattle.kvs_keys.specs.Steps.{can_step};
ghost use Rattle.kvs_keys.specs.Walk.{between, deliveries, lost, nth, sent, step_of};

use super::Keys;
use kvs_rules::KvsStep;
use kvs_space::Loss;

/// Steps that stand beside each other in the order.
#[derive(Clone, Copy)]
enum Strand {
    /// The deliveries from one broker, by receiver.
    Deliveries { from: u32 },
    /// The services, by broker.
    Services,
    /// The landings, by namespace.
    Landings,
    /// The resyncs, by broker.
    Resyncs,
    /// The losses of one kind on the links from one broker, by receiver.
    Losses { kind: Loss, from: u32 },
}

/// The step by which an announcement between two brokers is lost, repeated or moved.
fn loss_step(kind: Loss, from: u32, to: u32) -> KvsStep
    ensures { result ≡ loss_step kind from to }
{
    match kind {
        Loss::Lost => KvsStep::Lose { from, to },
        Loss::Repeated => KvsStep::Repeat { from, to },
        Loss::Swapped => KvsStep::Swap { from, to },
    }
}

impl Strand {
    /// The step at a place of the strand.
    fn step(self, at: u32) -> KvsStep
        ensures { result ≡ step_of self at }
    {
        match self {
            Strand::Deliveries { from } => KvsStep::Deliver { from, to: at },
            Strand::Services => KvsStep::Serve { broker: at },
            Strand::Landings => KvsStep::Land { namespace: at },
            Strand::Resyncs => KvsStep::Resync { broker: at },
            Strand::Losses { kind, from } => loss_step(kind, from, at),
        }
    }
}

impl Keys {
    /// The step of this number among those of a strand between two places, or what the number has
    /// left behind them.
    fn nth_along(&self, strand: Strand, first: u32, end: u32, number: u64) -> Result<KvsStep, u64>
        requires { self.now.spent ≡ false }
        ensures value { result
            ≡ nth (filter (can_step self.now) (map (step_of strand)
            (between first end))) number }
        ensures can { IfOk result (λ step. can_step self.now step ≡ true) }
    {
        let mut left = number;
        for at in first..end {
            let step = strand.step(at);
            if self.can(step) {
                if left == 0 {
                    return Ok(step);
                }
                left -= 1;
            }
        }
        Err(left)
    }

    /// The brokers below one: the first of them, and the one behind the last.
    fn below(&self, broker: u32) -> (u32, u32)
        requires { self.now.spent ≡ false }
        ensures first { result.0 ≡ min (broker * self.now.fanout + 1) self.now.size }
        ensures end { result.1 ≡ min (result.0 + self.now.fanout) self.now.size }
    {
        let first = broker
            .saturating_mul(self.fanout)
            .saturating_add(1)
            .min(self.size);
        (first, first.saturating_add(self.fanout).min(self.size))
    }

    /// The same among the deliveries from one broker: it sends to the broker above it and to those
    /// below it alone.
    fn nth_sent(&self, from: u32, number: u64) -> Result<KvsStep, u64>
        requires ready { self.now.spent ≡ false }
        requires within { from < self.now.size }
        ensures value { result ≡ nth (filter (can_step self.now) (sent self.now.size from)) number }
        ensures can { IfOk result (λ step. can_step self.now step ≡ true) }
    {
        let strand = Strand::Deliveries { from };
        let above = from.saturating_sub(1) / self.fanout;
        let left = match self.nth_along(strand, above, above + 1, number) {
            Ok(step) => return Ok(step),
            Err(left) => left,
        };
        let (below, end) = self.below(from);
        self.nth_along(strand, below, end, left)
    }

    /// The same among the deliveries.
    fn nth_delivery(&self, number: u64) -> Result<KvsStep, u64>
        requires { self.now.spent ≡ false }
        ensures value { result
            ≡ nth (filter (can_step self.now) (deliveries self.now.size)) number }
        ensures can { IfOk result (λ step. can_step self.now step ≡ true) }
    {
        let mut left = number;
        for from in 0..self.size {
            match self.nth_sent(from, left) {
                Ok(step) => return Ok(step),
                Err(behind) => left = behind,
            }
        }
        Err(left)
    }

    /// The same among all steps, by a walk over links, brokers and namespaces.
    fn nth_of_all(&self, number: u64) -> Result<KvsStep, u64>
        requires { self.now.spent ≡ false }
        ensures value { result ≡ nth (possible self.now) number }
        ensures can { IfOk result (λ step. can_step self.now step ≡ true) }
    {
        let left = match self.nth_delivery(number) {
            Ok(step) => return Ok(step),
            Err(left) => left,
        };
        let left = match self.nth_along(Strand::Services, 0, self.size, left) {
            Ok(step) => return Ok(step),
            Err(left) => left,
        };
        let left = match self.nth_along(Strand::Landings, 0, self.spaces.len() as u32, left) {
            Ok(step) => return Ok(step),
            Err(left) => left,
        };
        self.nth_along(Strand::Resyncs, 0, self.size, left)
    }

    /// The step of this number, from 0, among those that can be made, in their order; or, where
    /// there are no more than so many, what the number has left behind them all.
    pub fn nth(&self, number: u64) -> Result<KvsStep, u64>
        requires { self.now.spent ≡ false }
        ensures value { result ≡ nth (possible self.now) number }
        ensures can { IfOk result (λ step. can_step self.now step ≡ true) }
    {
        // the first step is found without asking each namespace, and often there is none
        match self.next() {
            None => Err(number),
            Some(step) if number == 0 => Ok(step),
            Some(_) => self.nth_of_all(number),
        }
    }

    /// The same among the losses of one kind on the links from one broker: it announces to those
    /// below it alone.
    fn nth_lost(&self, kind: Loss, from: u32, number: u64) -> Result<KvsStep, u64>
        requires ready { self.now.spent ≡ false }
        requires within { from < self.now.size }
        ensures value { result
            ≡ nth (filter (can_step self.now) (lost kind self.now.size from)) number }
        ensures can { IfOk result (λ step. can_step self.now step ≡ true) }
    {
        let _ = &self.spent;
        let (below, end) = self.below(from);
        self.nth_along(Strand::Losses { kind, from }, below, end, number)
    }

    /// The same among the losses of one kind.
    fn nth_loss_of(&self, kind: Loss, number: u64) -> Result<KvsStep, u64>
        requires { self.now.spent ≡ false }
        ensures value { result
            ≡ nth (filter (can_step self.now) (losses self.now.size kind)) number }
        ensures can { IfOk result (λ step. can_step self.now step ≡ true) }
    {
        let mut left = number;
        for from in 0..self.size {
            match self.nth_lost(kind, from, left) {
                Ok(step) => return Ok(step),
                Err(behind) => left = behind,
            }
        }
        Err(left)
    }

    /// The loss of this number, from 0, among those that can be made, in their order; or, where
    /// there are no more than so many, what the number has left behind them all.
    pub fn nth_loss(&self, number: u64) -> Result<KvsStep, u64>
        requires { self.now.spent ≡ false }
        ensures value { result ≡ nth (possible_losses self.now) number }
        ensures can { IfOk result (λ step. can_step self.now step ≡ true) }
    {
        let left = match self.nth_loss_of(Loss::Lost, number) {
            Ok(step) => return Ok(step),
            Err(left) => left,
        };
        let left = match self.nth_loss_of(Loss::Repeated, left) {
            Ok(step) => return Ok(step),
            Err(left) => left,
        };
        self.nth_loss_of(Loss::Swapped, left)
    }
}
