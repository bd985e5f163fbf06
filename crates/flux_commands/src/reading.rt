//! What a run is asked for and reads.
ghost use Rattle.std.specs.Prelude.{◌≡◌, ◌≤◌, map, string_bytes, All, IfOk, IfErr, IfSome, OnOk};
ghost use Rattle.run_options.specs.Given.{AreWithin};
ghost use Rattle.workload.specs.Laws.{HasOwnLabels, IsBuilt, IsWithin, KeepsTallies};
ghost use Rattle.flux_commands.specs.Asked.{IsSpelled, run_options};
ghost use Rattle.flux_commands.specs.Sides.{side, FailsAt, IsSteady};
ghost use Rattle.flux_commands.specs.Faults.{HasReadCause, status_of};

use crate::faults::Fault;
use outside::{ReadFault, Source, read_all};
use run_limits::MOST_TEXT;
use run_options::{Options, read_options};
use std::alloc::{AllocError, Global};
use workload::Workload;
use workload_reader::laws::{
    spelled_commands_are_built, spelled_labels_are_their_own, spelled_tallies_are_kept,
    spelled_workloads_are_within,
};
use workload_reader::{LineFault, read};

/// The options of a run, where the words are a run's.
pub fn options_of_run(alloc: Global, words: &[String]) -> Result<Option<Options>, AllocError>
    ensures value { IfOk result (λ options.
        options ≡ run_options (map string_bytes words.now)) }
    ensures within { IfOk result (λ options. IfSome options AreWithin) }
{
    match words {
        [word, options @ ..] => if word.as_str() == "run" {
            read_options(alloc, options)
        } else {
            Ok(None)
        },
        [] => Ok(None),
    }
}

/// Reads the source to its end, for the workload that it spells for so many brokers. A text of more
/// than 16 MiB is refused at the first byte past them.
pub fn read_work<S: Source>(alloc: Global, size: u32, source: &mut S) -> Result<Workload, Fault>
    requires { (1 ≤ size) × (size ≤ 32) }
    ensures work { IfOk result (λ work.
        IsSpelled size (side S.left S.faults source.old source.new) work) }
    ensures within { IfOk result (λ work. IsWithin size work) }
    ensures built { IfOk result (λ work. All (λ line. IsBuilt line.command) work.lines) }
    ensures labels { IfOk result (λ work. HasOwnLabels work.lines) }
    ensures few { IfOk result (λ work. KeepsTallies work.lines) }
    ensures cause { IfErr result (λ fault.
        HasReadCause size (side S.left S.faults source.old source.new) fault) }
    ensures steady { OnOk result (IsSteady (side S.left S.faults source.old source.new)) }
    ensures count { IfErr result (λ fault.
        FailsAt 3 (side S.left S.faults source.old source.new) (status_of fault)) }
{
    let text = match read_all(alloc, source, MOST_TEXT) {
        Ok(text) => text,
        Err(ReadFault::TooLong) => return Err(Fault::Line(LineFault::TooLong)),
        Err(ReadFault::Failed) => return Err(Fault::Read),
        Err(ReadFault::NoMemory) => return Err(Fault::Memory),
    };
    match read(alloc, &text, size) {
        Ok(work) => {
            spelled_workloads_are_within();
            spelled_commands_are_built();
            spelled_labels_are_their_own();
            spelled_tallies_are_kept();
            Ok(work)
        }
        Err(LineFault::NoMemory) => Err(Fault::Memory),
        Err(fault) => Err(Fault::Line(fault)),
    }
}
