//! The instances in which actors stand, and which commands keep to them.
ghost use Rattle.std.specs.Prelude.{◌≡◌, ◌≤◌, length, option_map};
ghost use Rattle.outcomes.specs.Outcomes.{Reads, first_of};
ghost use Rattle.workload.specs.Actors.{are_together, home_of};
ghost use Rattle.workload.specs.Limits.{most_actors};
ghost use Rattle.workload.specs.Actors.{is_in_place};
ghost use Rattle.workload_reader.specs.Verbs.{faults_of, said_by, lasting};

use crate::faults::LineFault;
use crate::verbs::{Verb, command};
use lists::Bytes;
use std::alloc::Global;
use workload::work::{ActorList, Command, Workload};

/// The label of the job in whose child instance the actor of this number stands, or none in the
/// top.
fn home_of(actors: &ActorList, number: usize) -> Option<&Bytes>
    ensures { option_map (λ label. label.now) result ≡ home_of actors.now number }
{
    let actor = actors.as_slice().get(number)?;
    actor.of.as_ref()
}

/// Whether two homes are one instance.
fn are_together(one: Option<&Bytes>, other: Option<&Bytes>) -> bool
    ensures { result ≡ are_together (option_map (λ label. label.now) one.entry)
        (option_map (λ label. label.now) other.entry) }
{
    match (one, other) {
        (None, None) => true,
        (Some(one), Some(other)) => one.as_slice() == other.as_slice(),
        _ => false,
    }
}

/// Whether a command keeps to the instance of the actor of this number.
fn is_in_place(actors: &ActorList, by: usize, command: &Command) -> bool
    ensures { result ≡ is_in_place actors.now by command.now }
{
    match command {
        Command::Tell { actor } => {
            are_together(home_of(actors, by), home_of(actors, *actor as usize))
        }
        Command::Look => home_of(actors, by).is_none(),
        Command::Shutdown => home_of(actors, by).is_some(),
        _ => true,
    }
}

/// The command that a verb and the text behind it spell, in the line of this number, where the
/// actor of the number `by` says it.
pub fn said_by(
    alloc: Global,
    work: &Workload,
    by: usize,
    verb: Verb,
    line: u64,
    tail: &str,
) -> Result<Command, LineFault>
    requires { length work.now.actors ≤ most_actors }
    ensures { Reads lasting
        (first_of (faults_of line (said_by work.now by verb tail.now)))
        (λ c. c ≡ (said_by work.now by verb tail.now).command)
        result }
{
    let command = command(alloc, work, verb, line, tail)?;
    if !is_in_place(&work.actors, by, &command) {
        drop(command);
        return Err(LineFault::BadCommand { line });
    }
    Ok(command)
}
