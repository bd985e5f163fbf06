//! The commands on jobs, on time and on children but `submit`, each of the text behind its verb.
ghost use Rattle.std.specs.Prelude.{◌≡◌};
ghost use Rattle.outcomes.specs.Outcomes.{Reads, first_of};
ghost use Rattle.workload_reader.specs.Verbs.{faults_of, said, key_of, lasting};

use crate::faults::{LineFault, Which};
use crate::verbs::{Verb, one_name, value};
use lists::Bytes;
use run_limits::MOST_SECONDS;
use std::alloc::Global;
use workload::limits::{MOST_POSTS, MOST_SEVERITY, MOST_URGENCY};
use workload::tallies::{posts_in, seconds_in};
use workload::words::{can_name, cut, number, number_within};
use workload::work::{Command, InfoKey, Workload};

/// The fault of a line that asks for too many events of one job.
fn past_posts(line: u64) -> LineFault
    ensures { result ≡ LineFault.Limit line Which.Posts }
{
    LineFault::Limit {
        line,
        which: Which::Posts,
    }
}

/// The command `cancel LABEL`.
pub fn cancel(alloc: Global, work: &Workload, line: u64, tail: &str) -> Result<Command, LineFault>
    ensures { Reads lasting
        (first_of (faults_of line (said work.now Verb.Cancel tail.now)))
        (λ c. c ≡ (said work.now Verb.Cancel tail.now).command)
        result }
{
    let (label, rest) = cut(tail);
    let (more, _) = cut(rest);
    if !can_name(label) || !more.is_empty() {
        return Err(LineFault::BadCommand { line });
    }
    if MOST_POSTS <= posts_in(work.lines.as_slice(), label) {
        return Err(past_posts(line));
    }
    let label = Bytes::of(alloc, label.as_bytes())?;
    Ok(Command::Cancel { label })
}

/// The command `raise LABEL TYPE SEVERITY TEXT`.
pub fn raise(alloc: Global, work: &Workload, line: u64, tail: &str) -> Result<Command, LineFault>
    ensures { Reads lasting
        (first_of (faults_of line (said work.now Verb.Raise tail.now)))
        (λ c. c ≡ (said work.now Verb.Raise tail.now).command)
        result }
{
    let (label, rest) = cut(tail);
    let (kind, rest) = cut(rest);
    let (severity, note) = cut(rest);
    if !can_name(label) || !can_name(kind) || severity.is_empty() {
        return Err(LineFault::BadCommand { line });
    }
    let Some(severity) = number_within(severity, 0, MOST_SEVERITY) else {
        return Err(LineFault::BadNumber { line });
    };
    if MOST_POSTS <= posts_in(work.lines.as_slice(), label) {
        return Err(past_posts(line));
    }
    let note = value(alloc, line, note)?;
    let label = Bytes::of(alloc, label.as_bytes())?;
    let kind = Bytes::of(alloc, kind.as_bytes())?;
    Ok(Command::Raise {
        label,
        kind,
        severity: severity as u32,
        note,
    })
}

/// The command `urgency LABEL N`.
pub fn urgency(alloc: Global, work: &Workload, line: u64, tail: &str) -> Result<Command, LineFault>
    ensures { Reads lasting
        (first_of (faults_of line (said work.now Verb.Urgency tail.now)))
        (λ c. c ≡ (said work.now Verb.Urgency tail.now).command)
        result }
{
    let (label, rest) = cut(tail);
    let (urgency, rest) = cut(rest);
    let (more, _) = cut(rest);
    if !can_name(label) || urgency.is_empty() || !more.is_empty() {
        return Err(LineFault::BadCommand { line });
    }
    let Some(urgency) = number_within(urgency, 0, MOST_URGENCY) else {
        return Err(LineFault::BadNumber { line });
    };
    if MOST_POSTS <= posts_in(work.lines.as_slice(), label) {
        return Err(past_posts(line));
    }
    let label = Bytes::of(alloc, label.as_bytes())?;
    Ok(Command::Urgency {
        label,
        urgency: urgency as u32,
    })
}

/// The command `state LABEL`.
pub fn state(alloc: Global, work: &Workload, line: u64, tail: &str) -> Result<Command, LineFault>
    ensures { Reads lasting
        (first_of (faults_of line (said work.now Verb.State tail.now)))
        (λ c. c ≡ (said work.now Verb.State tail.now).command)
        result }
{
    let label = one_name(alloc, line, tail)?;
    Ok(Command::StateOf { label })
}

/// What of a job a word names.
fn key_of(word: &str) -> Option<InfoKey>
    ensures { result ≡ key_of word.now }
{
    match word {
        "jobspec" => Some(InfoKey::Jobspec),
        "R" => Some(InfoKey::R),
        "eventlog" => Some(InfoKey::Eventlog),
        _ => None,
    }
}

/// The command `info LABEL KEY`.
pub fn info(alloc: Global, work: &Workload, line: u64, tail: &str) -> Result<Command, LineFault>
    ensures { Reads lasting
        (first_of (faults_of line (said work.now Verb.Info tail.now)))
        (λ c. c ≡ (said work.now Verb.Info tail.now).command)
        result }
{
    let (label, rest) = cut(tail);
    let (key, rest) = cut(rest);
    let (more, _) = cut(rest);
    let Some(key) = key_of(key) else {
        return Err(LineFault::BadCommand { line });
    };
    if !can_name(label) || !more.is_empty() {
        return Err(LineFault::BadCommand { line });
    }
    let label = Bytes::of(alloc, label.as_bytes())?;
    Ok(Command::Info { label, key })
}

/// The command `jobs`, behind which no word stands.
pub fn jobs(work: &Workload, line: u64, tail: &str) -> Result<Command, LineFault>
    ensures { Reads lasting
        (first_of (faults_of line (said work.now Verb.Jobs tail.now)))
        (λ c. c ≡ (said work.now Verb.Jobs tail.now).command)
        result }
{
    let (word, _) = cut(tail);
    if !word.is_empty() {
        return Err(LineFault::BadCommand { line });
    }
    Ok(Command::Jobs)
}

/// The command `why LABEL`.
pub fn why(alloc: Global, work: &Workload, line: u64, tail: &str) -> Result<Command, LineFault>
    ensures { Reads lasting
        (first_of (faults_of line (said work.now Verb.Why tail.now)))
        (λ c. c ≡ (said work.now Verb.Why tail.now).command)
        result }
{
    let label = one_name(alloc, line, tail)?;
    Ok(Command::Why { label })
}

/// The command `result LABEL`.
pub fn result_of(
    alloc: Global,
    work: &Workload,
    line: u64,
    tail: &str,
) -> Result<Command, LineFault>
    ensures { Reads lasting
        (first_of (faults_of line (said work.now Verb.Result tail.now)))
        (λ c. c ≡ (said work.now Verb.Result tail.now).command)
        result }
{
    let label = one_name(alloc, line, tail)?;
    Ok(Command::ResultOf { label })
}

/// The command `watch LABEL`.
pub fn watch(alloc: Global, work: &Workload, line: u64, tail: &str) -> Result<Command, LineFault>
    ensures { Reads lasting
        (first_of (faults_of line (said work.now Verb.Watch tail.now)))
        (λ c. c ≡ (said work.now Verb.Watch tail.now).command)
        result }
{
    let label = one_name(alloc, line, tail)?;
    Ok(Command::Watch { label })
}

/// The command `advance SECONDS`.
pub fn advance(work: &Workload, line: u64, tail: &str) -> Result<Command, LineFault>
    ensures { Reads lasting
        (first_of (faults_of line (said work.now Verb.Advance tail.now)))
        (λ c. c ≡ (said work.now Verb.Advance tail.now).command)
        result }
{
    let (word, rest) = cut(tail);
    let (more, _) = cut(rest);
    if word.is_empty() || !more.is_empty() {
        return Err(LineFault::BadCommand { line });
    }
    let Some(seconds) = number(word) else {
        return Err(LineFault::BadNumber { line });
    };
    if MOST_SECONDS < seconds_in(work.lines.as_slice()).saturating_add(seconds) {
        return Err(LineFault::Limit {
            line,
            which: Which::Seconds,
        });
    }
    Ok(Command::Advance { seconds })
}

/// The command `shutdown`, behind which no word stands.
pub fn shutdown(work: &Workload, line: u64, tail: &str) -> Result<Command, LineFault>
    ensures { Reads lasting
        (first_of (faults_of line (said work.now Verb.Shutdown tail.now)))
        (λ c. c ≡ (said work.now Verb.Shutdown tail.now).command)
        result }
{
    let (word, _) = cut(tail);
    if !word.is_empty() {
        return Err(LineFault::BadCommand { line });
    }
    Ok(Command::Shutdown)
}
