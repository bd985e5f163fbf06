//! Workloads that a seed draws.
ghost use Rattle.std.specs.Prelude.{◌≡◌, ◌≤◌, map, string_bytes, All, IfOk, IfSome};
ghost use Rattle.workload.specs.Laws.{HasOwnLabels, IsBuilt, IsWithin, KeepsTallies};
ghost use Rattle.workload.specs.Limits.{most_commands};
ghost use Rattle.flux_commands.specs.Drawn.{generation_of, IsDrawn};

use fl_digest::Hash;
use run_options::Options;
use std::alloc::{AllocError, Global};
use workload::Workload;
use workload::limits::MOST_COMMANDS;
use workload::words::{number, number_within};
use workload_generator::generate;
use workload_generator::laws::drawn_workloads_have_no_fault;
use workload_reader::laws::{
    spelled_commands_are_built, spelled_labels_are_their_own, spelled_tallies_are_kept,
    spelled_workloads_are_within,
};
use workload_reader::{LineFault, read};

/// What a workload is drawn from: a seed, and how many commands there are, 1 to 10,000.
#[derive(Clone, Copy, Debug, PartialEq, Eq)]
pub struct Generation {
    pub seed: u64,
    pub count: u32,
}

/// The options of its run: those of `run --size 7`.
pub const DRAWN_OPTIONS: Options = Options {
    size: 7,
    fanout: 2,
    hash: Hash::Sha1,
    shuffle: None,
    losses: 0,
    workers: 1,
    journal: false,
    backfill: false,
};

/// What the words `gen SEED N` draw a workload from.
pub fn generation_of(words: &[String]) -> Option<Generation>
    ensures value { result ≡ generation_of (map string_bytes words.now) }
    ensures few { IfSome result (λ generation. generation.count ≤ most_commands) }
{
    match words {
        [word, seed, count] if word.as_str() == "gen" => Some(Generation {
            seed: number(seed.as_str())?,
            count: number_within(count.as_str(), 1, MOST_COMMANDS as u64)? as u32,
        }),
        _ => None,
    }
}

/// The workload that is drawn: its text has no fault.
pub fn drawn_work(alloc: Global, generation: Generation) -> Result<Workload, AllocError>
    requires { generation.count ≤ most_commands }
    ensures work { IfOk result (λ work. IsDrawn generation work) }
    ensures within { IfOk result (λ work. IsWithin 7 work) }
    ensures built { IfOk result (λ work. All (λ line. IsBuilt line.command) work.lines) }
    ensures labels { IfOk result (λ work. HasOwnLabels work.lines) }
    ensures few { IfOk result (λ work. KeepsTallies work.lines) }
{
    drawn_workloads_have_no_fault();
    let text = generate(alloc, generation.seed, generation.count)?;
    match read(alloc, text.as_slice(), DRAWN_OPTIONS.size) {
        Ok(work) => {
            spelled_workloads_are_within();
            spelled_commands_are_built();
            spelled_labels_are_their_own();
            spelled_tallies_are_kept();
            Ok(work)
        }
        Err(LineFault::NoMemory) => Err(AllocError),
        Err(_) => unreachable!(),
    }
}
