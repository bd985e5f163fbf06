//! What the book finds to do for a job, and the event of it (Flux RFC 21).
ghost use Rattle.std.specs.Prelude.{◌≡◌, [], IfOk, IfSome, codes};
ghost use Rattle.std.specs.Option.{option_map_or};
ghost use Rattle.std.specs.Str.{IsUtf8};
ghost use Rattle.serde_json.specs.Data.{no_members};
ghost use Rattle.manager_rules.specs.Scene.{IsAsked};
ghost use Rattle.manager_rules.specs.Deeds.{Releases, command_asked, command_carried, due_of, event_asked, event_of, event_with, fatal_event, r_given, ranks_text, text_member};
ghost use Rattle.manager_rules.specs.Jobs.{description_of};
ghost use Rattle.resource_set.specs.Units.{AreHosts};
ghost use Rattle.job_deeds.specs.Actions.{IsTellable, IsTold, deed_of};

use crate::row::Row;
use event_log::Event;
use job_spec::Depend as Need;
use job_texts::{
    described_event, description, exception_event, finish_event, plain_event, priority_event,
    ranks, release_event, urgency_event,
};
use kvs_txn::By;
use lists::{Bytes, Copied};
use manager_rules::{Asked, Due};
use resource_set::Resources;
use std::alloc::{AllocError, Global};

/// What a command that is ended by the manager has for its status.
const STOPPED: u64 = 15;

/// The user of the manager itself.
const MANAGER: u32 = u32::MAX;

/// What is due for a job.
#[derive(Drop)]
pub enum Action<'a> {
    Validate,
    Add(Need),
    Remove(Need),
    /// A dependency can't be met any more.
    Lose(Need),
    Depend,
    Prioritize(u32),
    NeverFits,
    /// The resources that the job takes, with their text.
    Take(Resources, Bytes),
    Start,
    Finish(u64),
    /// The job's resources have come to their end.
    Expire,
    /// The command of a job that is ending is ended.
    Stop,
    Release,
    Free,
    Clean,
    /// A command about the job.
    Carry(&'a Asked),
}

/// An exception of severity 0 by the manager.
fn fatal(alloc: Global, now: u64, kind: &str, note: &[u8]) -> Result<Event, AllocError>
    requires { IsUtf8 note.now }
    ensures { IfOk result (λ event. event ≡ fatal_event now kind.now note.now) }
{
    exception_event(alloc, now, kind.as_bytes(), note, 0, MANAGER)
}

/// The event of a dependency.
fn need_event(alloc: Global, now: u64, name: &str, need: &Need) -> Result<Event, AllocError>
    ensures { IfOk result (λ event. event
        ≡ event_with now name.now
        (text_member (codes "description") (description_of need.now) no_members)) }
{
    let description = description(alloc, need)?;
    described_event(alloc, now, name, description.as_slice())
}

/// The exception of a dependency that can't be met any more.
fn loss_event(alloc: Global, now: u64, need: &Need) -> Result<Event, AllocError>
    ensures { IfOk result (λ event. event
        ≡ fatal_event now (codes "dependency") (description_of need.now)) }
{
    let description = description(alloc, need)?;
    fatal(alloc, now, "dependency", description.as_slice())
}

/// The ranks of what a job holds, as an idset.
fn ranks_held(alloc: Global, r: &Option<Resources>) -> Result<Bytes, AllocError>
    requires { IfSome r.now (λ r. AreHosts r.nodes) }
    ensures { IfOk result (λ text. text ≡ option_map_or ranks_text r.now []) }
{
    match r {
        Some(r) => ranks(alloc, r),
        None => Ok(Bytes::new(alloc)),
    }
}

/// The release of what a job holds.
fn release(alloc: Global, now: u64, row: &Row) -> Result<Event, AllocError>
    requires { IsTellable row.now }
    ensures { IfOk result (λ event. event ≡ event_of now row.now Releases) }
{
    let ranks = ranks_held(alloc, &row.r)?;
    release_event(alloc, now, ranks.as_slice())
}

/// The event that carries a command out.
fn event_of_command(alloc: Global, now: u64, asked: &Asked) -> Result<Event, AllocError>
    requires { IsAsked asked.now }
    ensures { IfOk result (λ event. event ≡ event_asked now asked.now) }
{
    match asked {
        Asked::Cancel { by, .. } => exception_event(alloc, now, b"cancel", b"", 0, by.actor),
        Asked::Raise {
            by,
            kind,
            severity,
            note,
            ..
        } => {
            let kind = kind.as_slice();
            exception_event(alloc, now, kind, note.as_slice(), *severity, by.actor)
        }
        Asked::Urgency { by, urgency, .. } => urgency_event(alloc, now, *urgency, by.actor),
        Asked::Child { .. } => plain_event(alloc, now, ""),
    }
}

/// The command that is carried out.
fn command_in(asked: &Asked) -> Option<By>
    ensures { result ≡ command_asked asked.now }
{
    match asked {
        Asked::Cancel { by, .. } | Asked::Raise { by, .. } | Asked::Urgency { by, .. } => Some(*by),
        Asked::Child { .. } => None,
    }
}

/// The event of an action.
fn event(alloc: Global, now: u64, row: &Row, action: &Action<'_>) -> Result<Event, AllocError>
    requires told { IsTold action.now }
    requires tellable { IsTellable row.now }
    ensures { IfOk result (λ event. event ≡ event_of now row.now (deed_of action.now)) }
{
    match action {
        Action::Validate => plain_event(alloc, now, "validate"),
        Action::Add(need) => need_event(alloc, now, "dependency-add", need),
        Action::Remove(need) => need_event(alloc, now, "dependency-remove", need),
        Action::Lose(need) => loss_event(alloc, now, need),
        Action::Depend => plain_event(alloc, now, "depend"),
        Action::Prioritize(priority) => priority_event(alloc, now, *priority),
        Action::NeverFits => fatal(alloc, now, "alloc", b"never fits"),
        Action::Take(_, _) => plain_event(alloc, now, "alloc"),
        Action::Start => plain_event(alloc, now, "start"),
        Action::Finish(status) => finish_event(alloc, now, *status),
        Action::Expire => fatal(alloc, now, "timeout", b"expired"),
        Action::Stop => finish_event(alloc, now, STOPPED),
        Action::Release => release(alloc, now, row),
        Action::Free => plain_event(alloc, now, "free"),
        Action::Clean => plain_event(alloc, now, "clean"),
        Action::Carry(asked) => event_of_command(alloc, now, asked),
    }
}

/// The text of the resources that an action gives.
fn text_given(action: &Action<'_>) -> Result<Option<Bytes>, AllocError>
    requires { IsTold action.now }
    ensures { IfOk result (λ text. text ≡ r_given (deed_of action.now)) }
{
    match action {
        Action::Take(_, text) => Ok(Some(text.copy()?)),
        _ => Ok(None),
    }
}

/// The command that an action carries out.
fn command_of(action: &Action<'_>) -> Option<By>
    ensures { result ≡ command_carried (deed_of action.now) }
{
    match action {
        Action::Carry(asked) => command_in(asked),
        _ => None,
    }
}

/// What is posted for an action.
pub fn due(alloc: Global, now: u64, row: &Row, action: &Action<'_>) -> Result<Due, AllocError>
    requires told { IsTold action.now }
    requires tellable { IsTellable row.now }
    ensures { IfOk result (λ due. due ≡ due_of now row.now (deed_of action.now)) }
{
    Ok(Due {
        job: row.id,
        event: event(alloc, now, row, action)?,
        r: text_given(action)?,
        command: command_of(action),
    })
}
