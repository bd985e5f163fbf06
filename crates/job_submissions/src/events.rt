//! The event that begins the log of a job (Flux RFC 18 and 21).
ghost use Rattle.std.specs.Prelude.{◌≡◌, IfOk, codes};
ghost use Rattle.serde_json.specs.Data.{array, member, no_members, object, string};
ghost use Rattle.serde_json.specs.View.{view};
ghost use Rattle.manager_rules.specs.Deeds.{event_with, number_member};
ghost use Rattle.manager_rules.specs.Jobs.{description_of};
ghost use Rattle.manager_rules.specs.Posts.{depends_member, described};

use event_log::Event;
use fl_json::Value;
use job_spec::Depend;
use job_texts::description;
use lists::Bytes;
use serde_json::json;
use std::alloc::{AllocError, Global};

/// The description of a dependency, as a JSON value.
fn description_value(alloc: Global, need: &Depend) -> Result<Value, AllocError>
    ensures { IfOk result (λ v. view v ≡ string (description_of need.now)) }
{
    let text = description(alloc, need)?;
    Ok(Value::String(String::from_utf8(text.into_vec()).unwrap()))
}

/// The descriptions of dependencies, as a JSON value.
fn described(alloc: Global, needs: &[Depend]) -> Result<Value, AllocError>
    ensures { IfOk result (λ v. view v ≡ array (described needs.now)) }
{
    let mut values = Vec::new(alloc);
    for need in needs {
        values.push(description_value(alloc, need)?)?;
    }
    Ok(Value::Array(values))
}

/// What the submission of a job without dependencies tells.
fn lone_context(alloc: Global, userid: u32, urgency: u32) -> Result<Value, AllocError>
    ensures { IfOk result (λ v. view v ≡ object (number_member (codes "flags") 0
        (number_member (codes "urgency") urgency (number_member (codes "userid") userid
        (number_member (codes "version") 1 no_members))))) }
{
    json!(in alloc; {"flags": 0, "urgency": urgency, "userid": userid, "version": 1})
}

/// What the submission of a job with these dependencies tells.
fn listing_context(
    alloc: Global,
    depends: Value,
    userid: u32,
    urgency: u32,
) -> Result<Value, AllocError>
    ensures { IfOk result (λ v. view v ≡ object (member (codes "depends") (view depends)
        (number_member (codes "flags") 0 (number_member (codes "urgency") urgency
        (number_member (codes "userid") userid (number_member (codes "version") 1 no_members)))))) }
{
    json!(in alloc; {
        "depends": depends,
        "flags": 0,
        "urgency": urgency,
        "userid": userid,
        "version": 1
    })
}

/// What the submission of a job tells.
fn context(alloc: Global, userid: u32, urgency: u32, needs: &[Depend]) -> Result<Value, AllocError>
    ensures { IfOk result (λ v. view v ≡ object (depends_member needs.now
        (number_member (codes "flags") 0 (number_member (codes "urgency") urgency
        (number_member (codes "userid") userid (number_member (codes "version") 1 no_members)))))) }
{
    if needs.is_empty() {
        return lone_context(alloc, userid, urgency);
    }
    let depends = described(alloc, needs)?;
    listing_context(alloc, depends, userid, urgency)
}

/// The event by which a user submits a job at a second, with an urgency and dependencies on other
/// jobs.
pub fn submit_event(
    alloc: Global,
    now: u64,
    userid: u32,
    urgency: u32,
    needs: &[Depend],
) -> Result<Event, AllocError>
    ensures { IfOk result (λ event. event ≡ event_with now (codes "submit")
        (depends_member needs.now (number_member (codes "flags") 0
        (number_member (codes "urgency") urgency (number_member (codes "userid") userid
        (number_member (codes "version") 1 no_members)))))) }
{
    let context = context(alloc, userid, urgency, needs)?;
    Ok(Event {
        timestamp: now,
        name: Bytes::of(alloc, b"submit")?,
        context: Some(Bytes::from_vec(fl_json::text(alloc, &context)?)),
    })
}
