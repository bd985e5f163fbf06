//! What the command lines of a workload declare and ask for in all.
ghost use Rattle.std.specs.Prelude.{◌≡◌, ◌^◌, ◌-◌, min, IfOk};
ghost use Rattle.std.specs.Str.{bytes_eq};
ghost use Rattle.workload.specs.Tallies.{begins, begins_instance, declares, instances_in, is_declared, submits, submits_in, posts_on, posts_in, seconds_of, seconds_in};

use crate::work::{Command, Line};
use job_spec::SpecFault;
use lists::Bytes;
use shells::{Ending, ending};
use std::alloc::{AllocError, Global};

/// Whether a label is this one.
fn is_label(label: &Bytes, wanted: &str) -> bool
    ensures { result ≡ bytes_eq label.now wanted.now }
{
    label.as_slice() == wanted.as_bytes()
}

/// Whether a command submits a job under this label.
fn declares(command: &Command, wanted: &str) -> bool
    ensures { result ≡ declares wanted.now command.now }
{
    match command {
        Command::Submit { label, .. } => is_label(label, wanted),
        _ => false,
    }
}

/// Whether one of these lines submits a job under this label.
pub fn is_declared(lines: &[Line], label: &str) -> bool
    ensures { result ≡ is_declared label.now lines.now }
{
    lines.iter().any(|line| declares(&line.command, label))
}

fn submits(command: &Command) -> bool
    ensures { result ≡ submits command.now }
{
    match command {
        Command::Submit { .. } => true,
        _ => false,
    }
}

/// How many jobs these lines submit.
pub fn submits_in(lines: &[Line]) -> usize
    ensures { result ≡ submits_in lines.now }
{
    lines.iter().filter(|line| submits(&line.command)).count()
}

/// Whether a text is a jobspec whose command begins an instance.
#[tactic(auto, unfolding(crate::specs::Tallies::begins_instance))]
pub fn begins_instance(alloc: Global, text: &[u8]) -> Result<bool, AllocError>
    ensures { IfOk result (λ begins. begins ≡ begins_instance text.now) }
{
    match job_spec::read(alloc, text) {
        Ok(spec) => match ending(&spec, 0) {
            Ending::Child => Ok(true),
            Ending::At { .. } => Ok(false),
        },
        Err(SpecFault::NoMemory) => Err(AllocError),
        Err(_) => Ok(false),
    }
}

/// Whether a command submits a job that begins an instance.
fn begins(alloc: Global, command: &Command) -> Result<bool, AllocError>
    ensures { IfOk result (λ is. is ≡ begins command.now) }
{
    match command {
        Command::Submit { spec, .. } => begins_instance(alloc, spec.as_slice()),
        _ => Ok(false),
    }
}

/// How many instances there may be: the top, and one for each submission that begins one.
pub fn instances_in(alloc: Global, lines: &[Line]) -> Result<usize, AllocError>
    ensures { IfOk result (λ count. count ≡ instances_in lines.now) }
{
    let mut count = 1;
    for line in lines {
        if begins(alloc, &line.command)? {
            count += 1;
        }
    }
    Ok(count)
}

/// Whether a command asks for an event of the job of this label.
fn posts_on(command: &Command, wanted: &str) -> bool
    ensures { result ≡ posts_on wanted.now command.now }
{
    match command {
        Command::Cancel { label } => is_label(label, wanted),
        Command::Raise { label, .. } => is_label(label, wanted),
        Command::Urgency { label, .. } => is_label(label, wanted),
        _ => false,
    }
}

/// How many events these lines ask for of the job of this label.
pub fn posts_in(lines: &[Line], label: &str) -> usize
    ensures { result ≡ posts_in label.now lines.now }
{
    lines
        .iter()
        .filter(|line| posts_on(&line.command, label))
        .count()
}

fn seconds_of(command: &Command) -> u64
    ensures { result ≡ seconds_of command.now }
{
    match command {
        Command::Advance { seconds } => *seconds,
        _ => 0,
    }
}

/// How many seconds these lines let pass, at most 2^64 - 1.
pub fn seconds_in(lines: &[Line]) -> u64
    ensures { result ≡ min (2 ^ 64 - 1) (seconds_in lines.now) }
{
    let mut all = 0u64;
    for line in lines {
        all = all.saturating_add(seconds_of(&line.command));
    }
    all
}
