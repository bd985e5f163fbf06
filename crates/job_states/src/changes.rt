//! What events ask of a job.
ghost use Rattle.std.specs.Prelude.{◌≡◌, IfOk, codes, option_map};
ghost use Rattle.std.specs.Str.{bytes_eq};
ghost use Rattle.serde_json.specs.View.{view};
ghost use Rattle.job_states.specs.Changes.{allows, number_at, number_to, text_at, truth_at, plain_change, submission, urging, exception, releasing, change_by, change_of};

use crate::job::Change;
use event_log::Event;
use fl_json::{JsonFault, Value, field, number, word};
use lists::Bytes;
use std::alloc::{AllocError, Global};

const MOST_URGENCY: u32 = 31;

const MOST_SEVERITY: u32 = 7;

/// The number that a context has under a key.
fn number_in(context: &Value, key: &str) -> Option<u64>
    ensures { result ≡ number_at key.now (view context.now) }
{
    number(context, key).ok()
}

/// The same, where it is at most this number.
fn number_within(context: &Value, key: &str, most: u32) -> Option<u32>
    ensures { result ≡ number_to most key.now (view context.now) }
{
    let found = number_in(context, key)?;
    if found <= u64::from(most) {
        Some(found as u32)
    } else {
        None
    }
}

/// Whether what a context has under a key, if anything, is a number that is at most this one.
fn allows(context: &Value, key: &str, most: u32) -> bool
    ensures { result ≡ allows most key.now (view context.now) }
{
    context.get(key).is_none() || number_within(context, key, most).is_some()
}

/// The text that a context has under a key.
fn text_in<'a>(context: &'a Value, key: &str) -> Option<&'a str>
    ensures { option_map (λ s. s.now) result ≡ text_at key.now (view context.now) }
{
    word(context, key).ok()
}

/// The `true` or `false` that a context has under a key.
fn truth_in(context: &Value, key: &str) -> Option<bool>
    ensures { result ≡ truth_at key.now (view context.now) }
{
    field(context, key).ok()?.as_bool()
}

/// Whether a name is this word.
fn is(name: &[u8], word: &str) -> bool
    ensures { result ≡ bytes_eq name.now word.now }
{
    name == word.as_bytes()
}

/// What an event asks that needs nothing of a context.
fn plain(name: &[u8]) -> Option<Change>
    ensures { result ≡ plain_change name.now }
{
    if is(name, "validate") {
        Some(Change::Validate)
    } else if is(name, "depend") {
        Some(Change::Depend)
    } else if is(name, "alloc") {
        Some(Change::Alloc)
    } else if is(name, "flux-restart") {
        Some(Change::Restart)
    } else if is(name, "start") {
        Some(Change::Start)
    } else if is(name, "free") {
        Some(Change::Free)
    } else if is(name, "clean") {
        Some(Change::Clean)
    } else {
        None
    }
}

fn submit_in(context: &Value) -> Option<Change>
    ensures { result ≡ submission (view context.now) }
{
    let userid = number_within(context, "userid", u32::MAX)?;
    let urgency = number_within(context, "urgency", MOST_URGENCY)?;
    number_in(context, "flags")?;
    number_in(context, "version")?;
    Some(Change::Submit { userid, urgency })
}

fn urgency_in(context: &Value) -> Option<Change>
    ensures { result ≡ urging (view context.now) }
{
    let urgency = number_within(context, "urgency", MOST_URGENCY)?;
    number_within(context, "userid", u32::MAX)?;
    Some(Change::Urge(urgency))
}

fn exception_in(context: &Value) -> Option<Change>
    ensures { result ≡ exception (view context.now) }
{
    let severity = number_within(context, "severity", MOST_SEVERITY)?;
    text_in(context, "type")?;
    if allows(context, "userid", u32::MAX) {
        Some(Change::Except(severity))
    } else {
        None
    }
}

fn release_in(context: &Value) -> Option<Change>
    ensures { result ≡ releasing (view context.now) }
{
    text_in(context, "ranks")?;
    let last = truth_in(context, "final")?;
    Some(Change::Release { last })
}

/// The description of a dependency.
fn description_in(alloc: Global, context: &Value) -> Result<Option<Bytes>, AllocError>
    ensures { IfOk result (λ on. on ≡ text_at (codes "description") (view context.now)) }
{
    match text_in(context, "description") {
        Some(on) => Ok(Some(Bytes::of(alloc, on.as_bytes())?)),
        None => Ok(None),
    }
}

/// What an event asks by its context.
fn change_in(alloc: Global, name: &[u8], context: &Value) -> Result<Option<Change>, AllocError>
    ensures { IfOk result (λ change. change ≡ change_by name.now (view context.now)) }
{
    if is(name, "submit") {
        Ok(submit_in(context))
    } else if is(name, "dependency-add") {
        Ok(description_in(alloc, context)?.map(Change::AddDependency))
    } else if is(name, "dependency-remove") {
        Ok(description_in(alloc, context)?.map(Change::RemoveDependency))
    } else if is(name, "priority") {
        Ok(number_within(context, "priority", u32::MAX).map(Change::Prioritize))
    } else if is(name, "urgency") {
        Ok(urgency_in(context))
    } else if is(name, "finish") {
        Ok(number_in(context, "status").map(Change::Finish))
    } else if is(name, "exception") {
        Ok(exception_in(context))
    } else if is(name, "release") {
        Ok(release_in(context))
    } else {
        Ok(None)
    }
}

/// What an event asks of its job; none where its name is unknown or its context lacks what is
/// needed.
pub fn asked(alloc: Global, event: &Event) -> Result<Option<Change>, AllocError>
    ensures { IfOk result (λ change. change ≡ change_of event.now) }
{
    let name = event.name.as_slice();
    if let Some(change) = plain(name) {
        return Ok(Some(change));
    }
    let Some(context) = &event.context else {
        return Ok(None);
    };
    match fl_json::read(alloc, context.as_slice()) {
        Ok(value) => change_in(alloc, name, &value),
        Err(JsonFault::NoMemory) => Err(AllocError),
        Err(_) => Ok(None),
    }
}
