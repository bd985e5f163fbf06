//! Workloads that a seed draws: eight actors at seven brokers, and commands whose keys meet, among
//! them `submit LABEL JOBSPEC` and `advance SECONDS`. The text is one that `workload` reads.
#![tactic(auto)]

ghost use Rattle.std.specs.Prelude.{◌≡◌, IfOk};
ghost use Rattle.workload_generator.specs.Texts.{actor_lines, generated};

mod drawn;
pub mod laws;
mod lines;

pub use drawn::{Drawn, Kind};
use lines::{add_actor, add_command};
use lists::Bytes;
use std::alloc::{AllocError, Global};
use workload::Draws;

/// The actors of a generated workload.
const ACTORS: u32 = 8;

/// The lines of the actors.
fn actors(alloc: Global) -> Result<Bytes, AllocError>
    ensures { IfOk result (λ text. text ≡ actor_lines 8) }
{
    let mut text = Bytes::new(alloc);
    for number in 0..ACTORS {
        add_actor(&mut text, number)?;
    }
    Ok(text)
}

/// The text of a workload for 7 brokers: the actors `a0` to `a7`, the last one at broker 0 again,
/// and so many command lines, for each of which three words of PCG32 are drawn from the seed.
///
/// Of ten commands about four put a key of `k0` to `k99`, one appends to a key of `l0` to `l9`, two
/// commit, one gets a key, one submits a job (RFC 25) and one advances the time by 0 to 2 seconds.
/// Behind 1,000 submissions a commit stands in place of each further one.
pub fn generate(alloc: Global, seed: u64, count: u32) -> Result<Bytes, AllocError>
    ensures { IfOk result (λ text. text ≡ generated seed count) }
{
    let mut text = actors(alloc)?;
    let mut draws = Draws::new(seed);
    let mut submissions = 0;
    for place in 0..count {
        let drawn = Drawn::next(&mut draws);
        add_command(&mut text, place, drawn.kind(submissions), &drawn)?;
        if drawn.is_submission() {
            submissions += 1;
        }
    }
    Ok(text)
}
