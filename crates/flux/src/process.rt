//! The program as a process: its terms, standard input and output.
ghost use Rattle.std.specs.Prelude.{◌≡◌, max, min};
ghost use Rattle.world.specs.manager_rules.Limits.{no_limits};
ghost use Rattle.world.specs.tap.Factors.{priority_by};
ghost use Rattle.world.specs.tap.declared.Ask.{Ask};
ghost use Rattle.flux.specs.Terms.{every_event};

use crate::call::flux;
use flux_commands::{all_words, command_words, end, run_without_memory};
use outside::{OpenGate, StdSink, StdSource};
use std::process::ExitCode;
use std::sync::Wait;
use std::thread::Threads;
use world::manager_rules::Terms;

/// The terms of the program's runs: a job's priority is its urgency, at least 1, the first in the
/// queue alone takes resources where the words don't ask for backfill, a job may ask for anything,
/// and a watch shows every event.
pub fn program_terms() -> Terms
    ensures priority { (ask : Ask)
        → priority_by result.weights ask ≡ min (max ask.urgency 1) 4294967294 }
    ensures limits { result.limits ≡ no_limits }
    ensures shown { result.shown ≡ every_event }
{
    Terms::PLAIN
}

/// Carries out the command of the program's words, and ends with the status of its run. Its workers
/// are threads of this handle.
pub fn program<R: Threads + Wait + Sync>(rt: &HostRuntime, threads: &R) -> ExitCode {
    let alloc = rt.alloc();
    let mut source = StdSource::new(rt.stdin());
    let mut sink = StdSink::new(rt.stdout());
    let run = match all_words(rt) {
        Ok(words) => flux(
            threads,
            alloc,
            command_words(&words),
            &mut source,
            &mut sink,
            &OpenGate,
            program_terms(),
        ),
        Err(_) => run_without_memory(alloc),
    };
    end(rt, &run)
}
