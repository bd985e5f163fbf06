//! The order in which the steps of a run are made.
ghost use Rattle.std.specs.Prelude.{◌≡◌, ◌<◌};
ghost use Rattle.world.specs.Choice.{behind, is_in_lanes, is_loss, joined, lanes_of, losses_left, order_of};

use instance::answers::Step;
use instance::kvs_rules::KvsStep;
use instance::workload::Draws;

/// Which of the steps that can be made comes next.
#[derive(Clone, Copy, Debug, PartialEq, Eq)]
pub enum Schedule {
    /// The first in the fixed order, so that each command is issued once nothing else can be made.
    Settled,
    /// One that is drawn, by the words that the seed begins; at most so many of the steps lose,
    /// repeat or swap an announcement between brokers.
    Shuffled { seed: u64, losses: u32 },
    /// The first that a lane may make, of so many lanes: each first issues the commands of its own
    /// actors, those whose number modulo the lanes is its own. Every other step may be made by any.
    Lanes(u32),
}

/// How the next step is chosen: the first, or the one that the drawn word says, with the words
/// behind it and how many losses may still be made.
#[derive(Drop)]
pub enum Order {
    Settled,
    Shuffled {
        draws: Draws,
        word: u32,
        losses: u32,
    },
    Lanes {
        count: u32,
    },
}

/// Whether a step loses, repeats or swaps an announcement between brokers.
fn is_loss(step: Step) -> bool
    ensures { result ≡ is_loss step }
{
    match step {
        Step::Kvs { instance: _, step } => matches!(
            step,
            KvsStep::Lose { .. } | KvsStep::Repeat { .. } | KvsStep::Swap { .. }
        ),
        _ => false,
    }
}

impl Order {
    /// The order of a run that has made no step.
    pub fn of(how: Schedule) -> Order
        ensures { result ≡ order_of how }
    {
        match how {
            Schedule::Settled => Order::Settled,
            Schedule::Lanes(count) => Order::Lanes { count },
            Schedule::Shuffled { seed, losses } => {
                let mut draws = Draws::new(seed);
                let word = draws.word();
                Order::Shuffled {
                    draws,
                    word,
                    losses,
                }
            }
        }
    }

    /// How many losses may still be made.
    pub fn losses_left(&self) -> u32
        ensures { result ≡ losses_left self.now }
    {
        match self {
            Order::Settled | Order::Lanes { .. } => 0,
            Order::Shuffled { losses, .. } => *losses,
        }
    }

    /// Whether the steps are made in lanes.
    pub fn is_in_lanes(&self) -> bool
        ensures { result ≡ is_in_lanes self.now }
    {
        matches!(self, Order::Lanes { .. })
    }

    /// How many lanes there are.
    pub fn lanes(&self) -> u32
        ensures value { result ≡ lanes_of self.now }
        ensures some { 0 < result }
    {
        match self {
            Order::Settled | Order::Shuffled { .. } => 1,
            Order::Lanes { count } => (*count).max(1),
        }
    }

    /// Makes one lane of all.
    pub fn join(&mut self)
        ensures { self.new ≡ joined self.old }
    {
        if let Order::Lanes { count } = self {
            *count = 1;
        }
    }

    /// Goes on behind a step: a shuffled run draws its next word, and may make a loss less where
    /// the step was one.
    pub fn advance(&mut self, step: Step)
        ensures { self.new ≡ behind step self.old }
    {
        if let Order::Shuffled {
            draws,
            word,
            losses,
        } = self
        {
            *word = draws.word();
            if is_loss(step) {
                *losses = losses.saturating_sub(1);
            }
        }
    }
}
