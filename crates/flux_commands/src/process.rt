//! The program as a process: its words, the notice in the end and the exit code.
ghost use Rattle.std.specs.Prelude.{◌≡◌, IfOk, drop, option_map, string_bytes};
ghost use Rattle.std.specs.Process.{exit_status};
ghost use Rattle.flux_commands.specs.Notices.{closing_text};
ghost use Rattle.flux_commands.specs.declared.faults.Fault.TheVariants.{Memory};

use crate::faults::{Fault, Run};
use crate::notices::notice;
use std::alloc::{AllocError, Global};
use std::env;
use std::io::ErrorKind;
use std::process::ExitCode;

/// The words of the command: all that the program was started with but the first, which is its
/// name.
pub fn command_words(all: &[String]) -> &[String]
    ensures { result.now ≡ drop 1 all.now }
{
    match all {
        [_, words @ ..] => words,
        [] => all,
    }
}

/// The run of a program that has no memory for its words.
pub fn run_without_memory(alloc: Global) -> Run
    ensures status { result.status ≡ 4 }
    ensures fault { result.fault ≡ Memory }
{
    Run::without_steps(alloc, Fault::Memory)
}

/// The exit code of the program: the status of its run.
pub fn exit_code(run: &Run) -> ExitCode
    ensures { exit_status result ≡ run.now.status }
{
    ExitCode::from(run.status)
}

/// What the program says on standard error in the end: the notice of the fault, and nothing at
/// status 0.
pub fn closing_notice(alloc: Global, run: &Run) -> Result<Option<String>, AllocError>
    ensures { IfOk result (λ text. option_map string_bytes text ≡ closing_text run.now) }
{
    if run.status == 0 {
        return Ok(None);
    }
    Ok(Some(notice(alloc, &run.fault)?))
}

/// All words that the program was started with. Words that aren't UTF-8 are no command's, and there
/// are none then.
pub fn all_words(rt: &HostRuntime) -> Result<Vec<String>, AllocError> {
    let mut words = Vec::new(rt.alloc());
    let args = match env::args(rt) {
        Ok(args) => args,
        Err(fault) if fault.kind() == ErrorKind::OutOfMemory => return Err(AllocError),
        Err(_) => return Ok(words),
    };
    for word in args {
        words.push(word)?;
    }
    Ok(words)
}

/// Says on standard error why a run ended otherwise than well, and gives the program's exit code.
pub fn end(rt: &HostRuntime, run: &Run) -> ExitCode
    ensures { exit_status result ≡ run.now.status }
{
    if let Ok(Some(text)) = closing_notice(rt.alloc(), run) {
        let _ = rt.eprintln(text.as_str());
    }
    exit_code(run)
}
