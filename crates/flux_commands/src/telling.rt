//! What a command writes.
ghost use Rattle.std.specs.Prelude.{◌≡◌, ◌≢◌, ◌≤◌, map, string_bytes, List, ℕ, Ok};
ghost use Rattle.flux_tools.specs.Tools.{AreReaderWords, AreToolWords, HasAnswer};
ghost use Rattle.flux_commands.specs.Faults.{status_of, IsComplete, IsTaken, IsToolFault};
ghost use Rattle.flux_commands.specs.Sides.{side, FailsAt, IsWritten};

use crate::faults::{Fault, Run};
use flux_tools::{ToolFault, tool};
use outside::{ReadFault, Sink, Source, write_all};
use std::alloc::Global;

/// Writes the output, and says what the sink took of it.
pub fn tell<K: Sink>(sink: &mut K, output: &[u8]) -> Fault
    ensures taken { IsTaken (side K.held K.faults sink.old sink.new) output.now result }
    ensures count { FailsAt 5 (side K.held K.faults sink.old sink.new) (status_of result) }
{
    match write_all(sink, output) {
        Ok(()) => Fault::Nothing,
        Err(fault) => Fault::Write {
            written: fault.written as u64,
        },
    }
}

/// Writes what a tool prints of the text that it is given.
pub fn run_tool<S: Source, K: Sink>(
    alloc: Global,
    words: &[String],
    source: &mut S,
    sink: &mut K,
) -> Run
    requires { AreToolWords (map string_bytes words.now) }
    ensures status { result.status ≡ status_of result.fault }
    ensures known { result.status ≢ 2 }
    ensures done { result.status ≡ 0 → (text : List ℕ)
        × HasAnswer
        (map string_bytes words.now)
        (S.left source.old)
        (S.left source.new)
        (Ok text)
        × IsWritten (side K.held K.faults sink.old sink.new) text }
    ensures cut { result.status ≡ 5 → (text : List ℕ)
        × HasAnswer
        (map string_bytes words.now)
        (S.left source.old)
        (S.left source.new)
        (Ok text)
        × IsTaken (side K.held K.faults sink.old sink.new) text result.fault }
    ensures unread { ¬ AreReaderWords (map string_bytes words.now) → source.new ≡ source.old }
    ensures refused { result.status ≡ 1
        → IsToolFault
        (map string_bytes words.now)
        (side S.left S.faults source.old source.new)
        result.fault }
    ensures source { FailsAt 3 (side S.left S.faults source.old source.new) result.status }
    ensures sink { FailsAt 5 (side K.held K.faults sink.old sink.new) result.status }
    ensures unwritten { (1 ≤ result.status) → (result.status ≤ 4) → sink.new ≡ sink.old }
    ensures complete { IsComplete
        (side S.left S.faults source.old source.new)
        (side K.held K.faults sink.old sink.new)
        result.status }
{
    let line = match tool(alloc, words, source) {
        Ok(line) => line,
        Err(ToolFault::NoMemory) => return Run::without_steps(alloc, Fault::Memory),
        Err(ToolFault::Read(ReadFault::Failed)) => return Run::without_steps(alloc, Fault::Read),
        Err(fault) => return Run::without_steps(alloc, Fault::Tool(fault)),
    };
    Run::without_steps(alloc, tell(sink, &line))
}
