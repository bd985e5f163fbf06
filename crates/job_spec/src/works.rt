//! The tasks of a jobspec.
ghost use Rattle.std.specs.Prelude.{◌≡◌, ◌<◌, IfOk, map, length};
ghost use Rattle.outcomes.specs.Outcomes.{Finds, Gives};
ghost use Rattle.serde_json.specs.Find.{as_str};
ghost use Rattle.serde_json.specs.View.{view};
ghost use Rattle.job_spec.specs.Fields.{each, of_kind, lasting};
ghost use Rattle.job_spec.specs.Works.{command_of, number_of_tasks, tasks_of, task_of, work_of};
ghost use Rattle.job_spec.specs.Seen.{work_seen, IsWork};
ghost use Rattle.job_spec.specs.Sound.{AreTasks};
ghost use Rattle.job_spec.specs.declared.faults.Place.TheVariants.{Command};

use crate::faults::{Place, SpecFault};
use crate::fields::{count, field, list, only, text};
use crate::spec::{Tasks, WordList};
use lists::{Bytes, ListOf};
use serde_json::Value;
use std::alloc::Global;

/// A command and its tasks.
#[derive(Drop)]
pub struct Work {
    pub command: WordList,
    pub tasks: Tasks,
}

/// A word of a command.
fn word_in(value: &Value) -> Result<&str, SpecFault>
    ensures { Finds (λ s. s.now) result (of_kind as_str Command (view value.now)) }
{
    match value.as_str() {
        Some(word) => Ok(word),
        None => Err(SpecFault::BadField(Place::Command)),
    }
}

/// The words of a command.
fn words_in(alloc: Global, values: &[Value]) -> Result<WordList, SpecFault>
    ensures found { Gives lasting (λ words. words) result
        (each (of_kind as_str Command) (map view values.now)) }
    ensures same { IfOk result (λ words. length words ≡ length values.now) }
{
    let mut words = ListOf::new(alloc);
    for value in values {
        let word = word_in(value)?;
        words.push(Bytes::of(alloc, word.as_bytes())?)?;
    }
    Ok(words)
}

/// A list of at least one text.
#[tactic(auto, unfolding(crate::specs::Works::command_of))]
fn command_in(alloc: Global, value: &Value) -> Result<WordList, SpecFault>
    ensures found { Gives lasting (λ words. words) result (command_of (view value.now)) }
    ensures some { IfOk result (λ words. 0 < length words) }
{
    let values = list(value, "command", Place::Command)?;
    if values.is_empty() {
        return Err(SpecFault::BadShape(Place::Command));
    }
    words_in(alloc, values)
}

/// How many tasks there are, from the object that says it.
#[tactic(auto, unfolding(crate::specs::Works::number_of_tasks))]
fn number_of_tasks(value: &Value) -> Result<Tasks, SpecFault>
    ensures found { Finds (λ tasks. tasks) result (number_of_tasks (view value.now)) }
    ensures tasks { IfOk result AreTasks }
{
    match (value.get("per_slot"), value.get("total")) {
        (Some(found), None) => Ok(Tasks::PerSlot(count(found, Place::Count)?)),
        (None, Some(found)) => Ok(Tasks::Total(count(found, Place::Count)?)),
        _ => Err(SpecFault::BadField(Place::Count)),
    }
}

/// The number of a task's tasks.
#[tactic(auto, unfolding(crate::specs::Works::tasks_of))]
fn tasks_in(value: &Value) -> Result<Tasks, SpecFault>
    ensures found { Finds (λ tasks. tasks) result (tasks_of (view value.now)) }
    ensures tasks { IfOk result AreTasks }
{
    number_of_tasks(field(value, "count", Place::Count)?)
}

/// The task, which runs in the slot of this label.
#[tactic(auto, unfolding(crate::specs::Works::task_of))]
fn task_in(alloc: Global, label: &str, value: &Value) -> Result<Work, SpecFault>
    ensures found { Gives lasting work_seen result (task_of label.now (view value.now)) }
    ensures work { IfOk result IsWork }
{
    let command = command_in(alloc, value)?;
    if text(value, "slot", Place::Task)? != label {
        return Err(SpecFault::NoSlot);
    }
    let tasks = tasks_in(value)?;
    Ok(Work { command, tasks })
}

/// What a jobspec runs in the slot of this label.
#[tactic(auto, unfolding(crate::specs::Works::work_of))]
pub fn work_in(alloc: Global, label: &str, value: &Value) -> Result<Work, SpecFault>
    ensures found { Gives lasting work_seen result (work_of label.now (view value.now)) }
    ensures work { IfOk result IsWork }
{
    let only = only(list(value, "tasks", Place::Task)?, Place::Task)?;
    if !only.is_object() {
        return Err(SpecFault::BadField(Place::Task));
    }
    task_in(alloc, label, only)
}
