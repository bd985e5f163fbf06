//! The command `submit LABEL [urgency=N] [dep=SCHEME:LABEL].. JSON`, of the text behind the verb.
ghost use Rattle.std.specs.Prelude.{◌≡◌, true, IfOk, Some, None, option_map, if◌then◌else◌};
ghost use Rattle.std.specs.Option.{option_map_or};
ghost use Rattle.outcomes.specs.Outcomes.{Reads, first_of};
ghost use Rattle.job_spec.specs.Limits.{scheme_of};
ghost use Rattle.workload.specs.Limits.{most_urgency};
ghost use Rattle.workload.specs.Words.{is_number_within, number_value};
ghost use Rattle.workload.specs.Tallies.{begins_instance};
ghost use Rattle.workload_reader.specs.Submits.{head_of, json_of, value_of, urgency_in, behind_urgency, dependency_of, needed_of, are_needs, needs_of};
ghost use Rattle.workload_reader.specs.Verbs.{faults_of, said, lasting};

use crate::faults::{LineFault, Which};
use crate::verbs::Verb;
use job_spec::Scheme;
use lists::{Bytes, ListOf};
use run_limits::MOST_SUBMITS;
use std::alloc::{AllocError, Global};
use workload::limits::{MOST_INSTANCES, MOST_NEEDS, MOST_URGENCY};
use workload::tallies::{begins_instance, instances_in, is_declared, submits_in};
use workload::words::{can_name, cut, number_within};
use workload::work::{Command, Needed, NeededList, Workload};

/// The urgency of a submission that names none.
const USUAL_URGENCY: u32 = 16;

/// The words before a jobspec's text, and that text, which begins at the first `{`.
pub fn before_json(tail: &str) -> (&str, &[u8])
    ensures head { result.0.now ≡ head_of tail.now }
    ensures json { result.1.now ≡ json_of tail.now }
{
    match tail.split_once('{') {
        Some((head, _)) => (head, &tail.as_bytes()[head.len()..]),
        None => (tail, &tail.as_bytes()[tail.len()..]),
    }
}

/// The value of an option of this name, where the word is one.
fn value_of<'a>(word: &'a str, name: &str) -> Option<&'a str>
    ensures { option_map (λ value. value.now) result ≡ value_of name.now word.now }
{
    match word.split_once('=') {
        Some((found, value)) => if found == name { Some(value) } else { None },
        None => None,
    }
}

/// The urgency's digits, where the first option is the urgency, and the words behind it.
fn urgency_in(options: &str) -> (Option<&str>, &str)
    ensures urgency { option_map (λ digits. digits.now) result.0 ≡ urgency_in options.now }
    ensures behind { result.1.now ≡ behind_urgency options.now }
{
    let (word, rest) = cut(options);
    match value_of(word, "urgency") {
        Some(digits) => (Some(digits), rest),
        None => (None, options),
    }
}

/// The urgency that these digits write, or the usual one; none where it is no number from 0 to 31.
fn urgency_of(digits: Option<&str>) -> Option<u32>
    ensures { result
        ≡ (if option_map_or (λ d. is_number_within 0 most_urgency d.now) digits.entry true
        then Some (option_map_or (λ d. number_value d.now) digits.entry 16) else None) }
{
    match digits {
        Some(digits) => {
            let urgency = number_within(digits, 0, MOST_URGENCY)?;
            Some(urgency as u32)
        }
        None => Some(USUAL_URGENCY),
    }
}

/// The scheme of this name (Flux RFC 26).
fn scheme_of(name: &str) -> Option<Scheme>
    ensures { result ≡ scheme_of name.now }
{
    match name {
        "after" => Some(Scheme::After),
        "afterany" => Some(Scheme::AfterAny),
        "afterok" => Some(Scheme::AfterOk),
        "afternotok" => Some(Scheme::AfterNotOk),
        _ => None,
    }
}

/// The scheme and the label of the dependency that SCHEME:LABEL is.
fn dependency_of(value: &str) -> Option<(Scheme, &str)>
    ensures { option_map (λ d. record { scheme = d.0; label = d.1.now }) result
        ≡ dependency_of value.now }
{
    let (scheme, label) = value.split_once(':')?;
    if !can_name(label) {
        return None;
    }
    let scheme = scheme_of(scheme)?;
    Some((scheme, label))
}

/// The scheme and the label of the dependency that a word names.
fn needed_of(word: &str) -> Option<(Scheme, &str)>
    ensures { option_map (λ d. record { scheme = d.0; label = d.1.now }) result
        ≡ needed_of word.now }
{
    let value = value_of(word, "dep")?;
    dependency_of(value)
}

/// Whether each of the words names a dependency.
fn are_needs(text: &str) -> bool
    ensures { result ≡ are_needs text.now }
{
    text.split(' ')
        .all(|word| word.is_empty() || needed_of(word).is_some())
}

/// The dependencies that the words name.
fn needs_of(alloc: Global, text: &str) -> Result<NeededList, AllocError>
    ensures { IfOk result (λ needs. needs ≡ needs_of text.now) }
{
    let mut needs = ListOf::new(alloc);
    for word in text.split(' ') {
        if let Some((scheme, label)) = needed_of(word) {
            let label = Bytes::of(alloc, label.as_bytes())?;
            needs.push(Needed { scheme, label })?;
        }
    }
    Ok(needs)
}

/// The command `submit`. A text that is no jobspec is no fault of the line: the submission is told
/// so.
pub fn submit(alloc: Global, work: &Workload, line: u64, tail: &str) -> Result<Command, LineFault>
    ensures { Reads lasting
        (first_of (faults_of line (said work.now Verb.Submit tail.now)))
        (λ c. c ≡ (said work.now Verb.Submit tail.now).command)
        result }
{
    let (head, json) = before_json(tail);
    let (label, options) = cut(head);
    let (digits, words) = urgency_in(options);
    let lines = work.lines.as_slice();
    if !can_name(label) || is_declared(lines, label) || json.is_empty() || !are_needs(words) {
        return Err(LineFault::BadCommand { line });
    }
    let depends = needs_of(alloc, words)?;
    if MOST_NEEDS < depends.as_slice().len() {
        return Err(LineFault::BadCommand { line });
    }
    let Some(urgency) = urgency_of(digits) else {
        return Err(LineFault::BadNumber { line });
    };
    if MOST_SUBMITS <= submits_in(lines) as u64 {
        return Err(LineFault::Limit {
            line,
            which: Which::Submits,
        });
    }
    if begins_instance(alloc, json)? && MOST_INSTANCES <= instances_in(alloc, lines)? {
        return Err(LineFault::Limit {
            line,
            which: Which::Instances,
        });
    }
    let label = Bytes::of(alloc, label.as_bytes())?;
    let spec = Bytes::of(alloc, json)?;
    Ok(Command::Submit {
        label,
        urgency,
        depends,
        spec,
    })
}
