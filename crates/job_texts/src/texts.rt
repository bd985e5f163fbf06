//! The texts that events tell: descriptions of dependencies, ranks and contexts (Flux RFC 18, 21,
//! 22 and 26).
ghost use Rattle.std.specs.Prelude.{◌≡◌, IfOk, false, true, codes};
ghost use Rattle.std.specs.Str.{IsUtf8};
ghost use Rattle.serde_json.specs.Data.{boolean, member, no_members, object, string};
ghost use Rattle.serde_json.specs.View.{view};
ghost use Rattle.serde_json.specs.Written.{has_float};
ghost use Rattle.resource_set.specs.Units.{AreHosts};
ghost use Rattle.manager_rules.specs.Jobs.{description_of, scheme_name};
ghost use Rattle.manager_rules.specs.Deeds.{event_with as with_members, plain_event as bare_event, exception_context, ranks_text, release_context, text_member, number_member};
ghost use Rattle.job_texts.specs.Texts.{event_telling};

use event_log::Event;
use fl_json::Value;
use fluid_ids::Form;
use idset::IdSet;
use job_spec::{Depend, Scheme};
use lists::{Bytes, ListOf};
use resource_set::Resources;
use serde_json::json;
use std::alloc::{AllocError, Global};

/// The name of a scheme.
fn name_of(scheme: Scheme) -> &'static str
    ensures { result.now ≡ scheme_name scheme }
{
    match scheme {
        Scheme::After => "after",
        Scheme::AfterAny => "afterany",
        Scheme::AfterOk => "afterok",
        Scheme::AfterNotOk => "afternotok",
    }
}

/// The description of a dependency: its scheme, a colon and the other job's id in base 58.
#[tactic(auto, unfolding(manager_rules::specs::Jobs::description_of))]
pub fn description(alloc: Global, need: &Depend) -> Result<Bytes, AllocError>
    ensures { IfOk result (λ text. text ≡ description_of need.now) }
{
    let mut text = Bytes::of(alloc, name_of(need.scheme).as_bytes())?;
    text.add(b":")?;
    let id = fluid_ids::print(alloc, need.on, Form::F58)?;
    text.add(id.as_slice())?;
    Ok(text)
}

/// The ranks of resources, as an idset.
pub fn ranks(alloc: Global, r: &Resources) -> Result<Bytes, AllocError>
    requires { AreHosts r.now.nodes }
    ensures { IfOk result (λ text. text ≡ ranks_text r.now) }
{
    let mut ranks = Vec::new(alloc);
    for node in r.nodes.as_slice() {
        ranks.push(node.rank)?;
    }
    let ranks = IdSet::of_ids(alloc, &ranks)?;
    Ok(Bytes::from_vec(ranks.print()?))
}

/// A text as a JSON value.
fn text_value(alloc: Global, text: &[u8]) -> Result<Value, AllocError>
    requires { IsUtf8 text.now }
    ensures { IfOk result (λ v. view v ≡ string text.now) }
{
    let text = Vec::from_slice(alloc, text)?;
    Ok(Value::String(String::from_utf8(text).unwrap()))
}

/// An event without a context.
pub fn plain_event(alloc: Global, now: u64, name: &str) -> Result<Event, AllocError>
    ensures { IfOk result (λ event. event ≡ bare_event now name.now) }
{
    Ok(Event {
        timestamp: now,
        name: Bytes::of(alloc, name.as_bytes())?,
        context: None,
    })
}

/// An event with a context.
fn event_with(alloc: Global, now: u64, name: &str, context: Value) -> Result<Event, AllocError>
    requires { has_float (view context) ≡ false }
    ensures { IfOk result (λ event. event ≡ event_telling now name.now (view context)) }
{
    Ok(Event {
        timestamp: now,
        name: Bytes::of(alloc, name.as_bytes())?,
        context: Some(Bytes::from_vec(fl_json::text(alloc, &context)?)),
    })
}

/// The context of a dependency's event.
fn dependency_context(alloc: Global, description: Value) -> Result<Value, AllocError>
    ensures { IfOk result (λ v. view v
        ≡ object (member (codes "description") (view description) no_members)) }
{
    json!(in alloc; {"description": description})
}

/// The context of a `priority`.
fn priority_context(alloc: Global, priority: u32) -> Result<Value, AllocError>
    ensures { IfOk result (λ v. view v
        ≡ object (number_member (codes "priority") priority no_members)) }
{
    json!(in alloc; {"priority": priority})
}

/// The context of a `finish`.
fn finish_context(alloc: Global, status: u64) -> Result<Value, AllocError>
    ensures { IfOk result (λ v. view v
        ≡ object (number_member (codes "status") status no_members)) }
{
    json!(in alloc; {"status": status})
}

/// The context of an `urgency`.
fn urgency_context(alloc: Global, urgency: u32, userid: u32) -> Result<Value, AllocError>
    ensures { IfOk result (λ v. view v ≡ object (number_member (codes "urgency") urgency
        (number_member (codes "userid") userid no_members))) }
{
    json!(in alloc; {"urgency": urgency, "userid": userid})
}

/// The context of an `exception`.
fn exception_in(
    alloc: Global,
    kind: Value,
    note: Value,
    severity: u32,
    userid: u32,
) -> Result<Value, AllocError>
    ensures { IfOk result (λ v. view v ≡ object (member (codes "note") (view note)
        (number_member (codes "severity") severity (member (codes "type") (view kind)
        (number_member (codes "userid") userid no_members))))) }
{
    json!(in alloc; {
        "note": note,
        "severity": severity,
        "type": kind,
        "userid": userid
    })
}

/// The context of a `release`.
fn release_in(alloc: Global, ranks: Value) -> Result<Value, AllocError>
    ensures { IfOk result (λ v. view v ≡ object (member (codes "final") (boolean true)
        (member (codes "ranks") (view ranks) no_members))) }
{
    json!(in alloc; {"final": true, "ranks": ranks})
}

/// An event of a dependency, by its description.
pub fn described_event(
    alloc: Global,
    now: u64,
    name: &str,
    description: &[u8],
) -> Result<Event, AllocError>
    requires { IsUtf8 description.now }
    ensures { IfOk result (λ event. event ≡ with_members now name.now
        (text_member (codes "description") description.now no_members)) }
{
    let description = text_value(alloc, description)?;
    let context = dependency_context(alloc, description)?;
    event_with(alloc, now, name, context)
}

/// A `priority`.
pub fn priority_event(alloc: Global, now: u64, priority: u32) -> Result<Event, AllocError>
    ensures { IfOk result (λ event. event ≡ with_members now (codes "priority")
        (number_member (codes "priority") priority no_members)) }
{
    let context = priority_context(alloc, priority)?;
    event_with(alloc, now, "priority", context)
}

/// A `finish` with the wait status of a command.
pub fn finish_event(alloc: Global, now: u64, status: u64) -> Result<Event, AllocError>
    ensures { IfOk result (λ event. event ≡ with_members now (codes "finish")
        (number_member (codes "status") status no_members)) }
{
    let context = finish_context(alloc, status)?;
    event_with(alloc, now, "finish", context)
}

/// An `urgency` by a user.
pub fn urgency_event(
    alloc: Global,
    now: u64,
    urgency: u32,
    userid: u32,
) -> Result<Event, AllocError>
    ensures { IfOk result (λ event. event ≡ with_members now (codes "urgency")
        (number_member (codes "urgency") urgency
        (number_member (codes "userid") userid no_members))) }
{
    let context = urgency_context(alloc, urgency, userid)?;
    event_with(alloc, now, "urgency", context)
}

/// An `exception` by a user.
pub fn exception_event(
    alloc: Global,
    now: u64,
    kind: &[u8],
    note: &[u8],
    severity: u32,
    userid: u32,
) -> Result<Event, AllocError>
    requires kind { IsUtf8 kind.now }
    requires note { IsUtf8 note.now }
    ensures { IfOk result (λ event. event ≡ with_members now (codes "exception")
        (exception_context kind.now note.now severity userid)) }
{
    let kind = text_value(alloc, kind)?;
    let note = text_value(alloc, note)?;
    let context = exception_in(alloc, kind, note, severity, userid)?;
    event_with(alloc, now, "exception", context)
}

/// The `release` of all ranks.
pub fn release_event(alloc: Global, now: u64, ranks: &[u8]) -> Result<Event, AllocError>
    requires { IsUtf8 ranks.now }
    ensures { IfOk result (λ event. event
        ≡ with_members now (codes "release") (release_context ranks.now)) }
{
    let ranks = text_value(alloc, ranks)?;
    let context = release_in(alloc, ranks)?;
    event_with(alloc, now, "release", context)
}
