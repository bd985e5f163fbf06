//! The call that `main` makes.
ghost use Rattle.std.specs.Prelude.{◌≡◌, ◌≢◌, ◌≤◌, ◌⊎◌, map, string_bytes, List, ℕ};
ghost use Rattle.run_options.specs.Given.{AreWithin};
ghost use Rattle.flux_tools.specs.Tools.{AreReaderWords};
ghost use Rattle.flux_commands.specs.Asked.{AreRunWords};
ghost use Rattle.flux_commands.specs.Drawn.{AreDrawnWords};
ghost use Rattle.flux_commands.specs.Faults.{status_of, HasReadCause, IsComplete, IsRefused, IsTaken, IsUnrefused};
ghost use Rattle.flux_commands.specs.Sides.{side, FailsAt, IsWritten};
ghost use Rattle.world.specs.workload.Limits.{most_commands};
ghost use Rattle.flux.specs.Runs.{HasRun};
ghost use Rattle.flux.specs.Generated.{HasSummary};
ghost use Rattle.flux.specs.Commands.{AreWords, IsOutput};

use crate::generating::play_drawn;
use crate::playing::{Played, play};
use flux_commands::{
    Fault, Generation, Run, drawn_work, generation_of, options_of_run, read_work, run_tool, status,
    tell,
};
use flux_tools::is_tool;
use outside::{Gate, Sink, Source};
use run_options::Options;
use std::alloc::Global;
use std::sync::Wait;
use std::thread::Threads;
use world::manager_rules::Terms;

/// Runs the workload that the source spells, and writes its answers.
fn run_workload<S: Source, K: Sink, G: Gate + Sync, R: Threads + Wait + Sync>(
    rt: &R,
    alloc: Global,
    gate: &G,
    terms: Terms,
    options: Options,
    source: &mut S,
    sink: &mut K,
) -> Run
    requires options { AreWithin options }
    ensures status { result.status ≡ status_of result.fault }
    ensures known { result.status ≢ 2 }
    ensures done { result.status ≡ 0 → (text : List ℕ)
        × HasRun terms options (side S.left S.faults source.old source.new) result text
        × IsWritten (side K.held K.faults sink.old sink.new) text }
    ensures cut { result.status ≡ 5 → (text : List ℕ)
        × HasRun terms options (side S.left S.faults source.old source.new) result text
        × IsTaken (side K.held K.faults sink.old sink.new) text result.fault }
    ensures refused { result.status ≡ 1
        → HasReadCause options.size (side S.left S.faults source.old source.new) result.fault }
    ensures source { FailsAt 3 (side S.left S.faults source.old source.new) result.status }
    ensures sink { FailsAt 5 (side K.held K.faults sink.old sink.new) result.status }
    ensures unwritten { (1 ≤ result.status) → (result.status ≤ 4) → sink.new ≡ sink.old }
    ensures complete { IsComplete
        (side S.left S.faults source.old source.new)
        (side K.held K.faults sink.old sink.new)
        result.status }
{
    let work = match read_work(alloc, options.size, source) {
        Ok(work) => work,
        Err(fault) => return Run::without_steps(alloc, fault),
    };
    let Ok(Played { text, ended }) = play(rt, alloc, gate, terms, options, work) else {
        return Run::without_steps(alloc, Fault::Memory);
    };
    let fault = tell(sink, &text);
    Run {
        status: status(&fault),
        fault,
        steps: ended.steps,
        ends: ended.ends,
        chronicle: ended.chronicle,
    }
}

/// Runs the workload that is drawn, and writes the summary of its run.
fn run_drawn<K: Sink, G: Gate + Sync, R: Threads + Wait + Sync>(
    rt: &R,
    alloc: Global,
    gate: &G,
    terms: Terms,
    generation: Generation,
    sink: &mut K,
) -> Run
    requires count { generation.count ≤ most_commands }
    ensures status { result.status ≡ status_of result.fault }
    ensures unrefused { IsUnrefused result.status }
    ensures done { result.status ≡ 0 → (text : List ℕ) × HasSummary terms generation result text
        × IsWritten (side K.held K.faults sink.old sink.new) text }
    ensures cut { result.status ≡ 5 → (text : List ℕ) × HasSummary terms generation result text
        × IsTaken (side K.held K.faults sink.old sink.new) text result.fault }
    ensures sink { FailsAt 5 (side K.held K.faults sink.old sink.new) result.status }
    ensures unwritten { (1 ≤ result.status) → (result.status ≤ 4) → sink.new ≡ sink.old }
{
    let Ok(work) = drawn_work(alloc, generation) else {
        return Run::without_steps(alloc, Fault::Memory);
    };
    let Ok(Played { text, ended: left }) = play_drawn(rt, alloc, gate, terms, work) else {
        return Run::without_steps(alloc, Fault::Memory);
    };
    let fault = tell(sink, &text);
    Run {
        status: status(&fault),
        fault,
        steps: left.steps,
        ends: left.ends,
        chronicle: left.chronicle,
    }
}

/// Carries out the command of the words. `run` reads a workload from the source, runs it in an
/// instance as its options say, and writes its answers to the sink: one line for each command, in
/// the workload's order, and with `--journal` the chronicle behind a line `--`. Each command is
/// issued once nothing else can be made, or, with `--shuffle`, the next step is drawn, or, with
/// several `--workers`, each issues the commands of its own actors, in a thread of its own where
/// one can be started, and passes the gate before each of its turns. `gen` runs
/// a workload that a seed draws as `run --size 7` does, and writes the summary of its run. A tool
/// writes one line: `idset`, `hostlist` and `fluid` of the text in the words, `R` and `replay` of
/// the text that the source has. The whole output is made before the first byte is written. Jobs
/// are served on the terms.
///
/// The status is 0 where all went well; 1 where the text was read whole, or is too long, and is
/// refused; 2 where the words are no command's, and then nothing was read; 3 where the source
/// failed; 4 for want of memory, which the words of a run may meet before they are known; 5 where
/// the sink failed.
pub fn flux<S: Source, K: Sink, G: Gate + Sync, R: Threads + Wait + Sync>(
    rt: &R,
    alloc: Global,
    words: &[String],
    source: &mut S,
    sink: &mut K,
    gate: &G,
    terms: Terms,
) -> Run
    ensures status { result.status ≡ status_of result.fault }
    // the headline: what was written prints the one chronicle, which is legal and whole, and
    // settled where the words ask for neither a shuffle nor several workers, or is the summary of
    // such a chronicle, or the line of a tool
    ensures true_run { result.status ≡ 0 → (text : List ℕ)
        × IsOutput terms
        (map string_bytes words.now)
        (side S.left S.faults source.old source.new)
        result
        text
        × IsWritten (side K.held K.faults sink.old sink.new) text }
    // a sink that failed took a part of such an output
    ensures cut { result.status ≡ 5 → (text : List ℕ)
        × IsOutput terms
        (map string_bytes words.now)
        (side S.left S.faults source.old source.new)
        result
        text
        × IsTaken (side K.held K.faults sink.old sink.new) text result.fault }
    // status 2 comes only where the words are no command's, and always there but for want of memory
    ensures words { result.status ≡ 2 → ¬ AreWords (map string_bytes words.now) }
    ensures stray { ¬ AreWords (map string_bytes words.now)
        → (result.status ≡ 2) ⊎ (result.status ≡ 4) }
    ensures unread { ¬ AreRunWords (map string_bytes words.now)
        → ¬ AreReaderWords (map string_bytes words.now)
        → source.new ≡ source.old }
    // the text that was refused was read to its end, or is longer than any may be
    ensures refused { result.status ≡ 1
        → IsRefused
        (map string_bytes words.now)
        (side S.left S.faults source.old source.new)
        result.fault }
    // a source that failed is told at status 3, and a sink that failed at status 5, and neither is
    // told else
    ensures source { FailsAt 3 (side S.left S.faults source.old source.new) result.status }
    ensures sink { FailsAt 5 (side K.held K.faults sink.old sink.new) result.status }
    ensures unwritten { (1 ≤ result.status) → (result.status ≤ 4) → sink.new ≡ sink.old }
    // only a refused text, a fault of the source or the sink, or want of memory keep a command from
    // status 0
    ensures complete { AreWords (map string_bytes words.now) → IsComplete
        (side S.left S.faults source.old source.new)
        (side K.held K.faults sink.old sink.new)
        result.status }
    // a workload that a seed draws is never refused
    ensures unrefused { AreDrawnWords (map string_bytes words.now) → IsUnrefused result.status }
{
    let Ok(options) = options_of_run(alloc, words) else {
        return Run::without_steps(alloc, Fault::Memory);
    };
    if let Some(options) = options {
        return run_workload(rt, alloc, gate, terms, options, source, sink);
    }
    if let Some(generation) = generation_of(words) {
        return run_drawn(rt, alloc, gate, terms, generation, sink);
    }
    if is_tool(words) {
        return run_tool(alloc, words, source, sink);
    }
    Run::without_steps(alloc, Fault::Words)
}
