//! Numbers that are drawn, for runs in a drawn order.
ghost use Rattle.std.specs.Prelude.{◌≡◌};
ghost use Rattle.rand_pcg.specs.Pcg.{pcg32};
ghost use Rattle.workload.specs.Draws.{seeded};

use rand_core::SeedableRng;
use rand_core::utils::NextWord;
use rand_pcg::Pcg32;
use std::marker::Model;

/// The words of the generator PCG32 (O'Neill), from a seed. They take no memory.
#[derive(Drop)]
pub struct Draws {
    generator: Pcg32,
}

impl Model for Draws {
    ghost use Rattle.rand_pcg.specs.Lcg.{Lcg};

    ghost Value = { Lcg };

    ghost view = { λ draws. draws.generator };
}

impl Draws {
    /// The words that this seed begins.
    pub fn new(seed: u64) -> Draws
        ensures { result ≡ seeded seed }
    {
        Draws {
            generator: Pcg32::seed_from_u64(seed),
        }
    }

    /// Draws the next word.
    pub fn word(&mut self) -> u32
        ensures word { result ≡ (pcg32 self.old).0 }
        ensures next { self.new ≡ (pcg32 self.old).1 }
    {
        self.generator.next_word()
    }
}
