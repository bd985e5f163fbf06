//! Priorities by weighted factors.
ghost use Rattle.std.specs.Prelude.{◌≡◌};
ghost use Rattle.tap.specs.Factors.{priority_by};

use crate::Ask;

/// The greatest priority of a job that isn't expedited.
const MOST_PRIORITY: u64 = 4_294_967_294;

/// How much each factor of a job counts in its priority, as in Flux's multi-factor priority plugin:
/// its urgency, and the cores that it asks for.
#[derive(Clone, Copy, Debug, PartialEq, Eq)]
pub struct Weights {
    pub urgency: u32,
    pub cores: u32,
}

impl Weights {
    /// By urgency alone, as Flux's default priority plugin has it.
    pub const URGENCY: Weights = Weights {
        urgency: 1,
        cores: 0,
    };

    /// A job's priority: the sum of its factors, each times its weight, but at least 1 and at most
    /// 4,294,967,294. The urgencies 0 and 31 hold and expedite a job whatever this says.
    pub fn priority(&self, ask: &Ask) -> u32
        ensures { result ≡ priority_by self.now ask.now }
    {
        let urgency = u64::from(self.urgency).saturating_mul(u64::from(ask.urgency));
        let cores = u64::from(self.cores).saturating_mul(ask.cores);
        urgency.saturating_add(cores).max(1).min(MOST_PRIORITY) as u32
    }
}
