//! What watches of jobs are fed.
ghost use Rattle.std.specs.Prelude.{◌≡◌, ◌&&◌, ◌<◌, ◌+◌, ◌++◌, ◌∷◌, All, [], None, Ok, Some, IfNone, IfOk, IfSome, IsOk, IsSome, OnOk, List, false, is_some, if◌then◌else◌};
ghost use Rattle.std.specs.Option.{option_copied};
ghost use Rattle.std.specs.Str.{bytes_eq};
ghost use Rattle.job_deeds.specs.event_log.declared.event.Event.{Event as EventValue};
ghost use Rattle.job_deeds.specs.event_log.Events.{IsEvent};
ghost use Rattle.job_deeds.specs.event_log.Logs.{log_text};
ghost use Rattle.job_deeds.specs.job_states.Replay.{replayed};
ghost use Rattle.job_deeds.specs.job_states.declared.job.Job.{Job as JobValue};
ghost use Rattle.job_deeds.specs.manager_rules.Limits.{names_shown, shows};
ghost use Rattle.job_manager.specs.Places.{log_seen};
ghost use Rattle.job_replies.specs.Ready.{is_inactive};
ghost use Rattle.job_service.specs.Watching.{IsFedNow, TellsWatched, fed_before, feed_of, has_more, has_news, is_feed_of, watched_by, without_feed};

use answers::{NameTexts, Reply};
use job_commands::{Commands, JobAsk, Row};
use job_deeds::event_log::{Event, LogFault, a_log_is_read_again, read};
use job_deeds::job_states::{ReplayFault, State, replay};
use job_deeds::kvs_txn::By;
use job_deeds::lists::{Bytes, Copied};
use job_deeds::manager_rules::Shown;
use job_manager::Manager;
use job_replies::Told;
use std::alloc::{AllocError, Global};

/// What a watch was fed: the number of the last root, how many events and how many bytes of its
/// job's log in all, and the names of those that are shown, once the job was over there.
#[derive(Drop)]
pub struct Feed {
    pub by: By,
    pub number: u64,
    pub count: u64,
    pub bytes: usize,
    pub names: Option<NameTexts>,
}

/// A feed: the number of the root, how many events the watch was fed before, and how many now.
#[derive(Clone, Copy, Debug, PartialEq, Eq)]
pub struct Fed {
    pub number: u64,
    pub first: u64,
    pub count: u64,
}

/// Whether this is what a command was fed.
fn is_of(feed: &Feed, by: By) -> bool
    ensures { result ≡ is_feed_of by feed.now }
{
    by.actor == feed.by.actor && by.command == feed.by.command
}

/// What a command was fed, if it was fed.
pub fn feed_of(list: &[Feed], by: By) -> Option<&Feed>
    ensures { option_copied result ≡ feed_of list.now by }
{
    list.iter().find(|feed| is_of(feed, by))
}

/// How many events a command was fed.
pub fn fed_before(list: &[Feed], by: By) -> u64
    ensures { result ≡ fed_before list.now by }
{
    match feed_of(list, by) {
        Some(feed) => feed.count,
        None => 0,
    }
}

/// Takes the feeds of a command out.
pub fn forget_feed(list: &mut Vec<Feed>, by: By)
    ensures { list.new.items ≡ without_feed by list.old.items }
{
    list.retain(|feed| !is_of(feed, by));
}

/// Puts a feed in the place of those before it.
pub fn put_feed(list: &mut Vec<Feed>, feed: Feed) -> Result<(), AllocError>
    ensures { OnOk result (list.new.items ≡ without_feed feed.by list.old.items ++ feed ∷ []) }
{
    forget_feed(list, feed.by);
    list.push(feed)?;
    Ok(())
}

/// Whether a broker's store has more of a job's log than a watch was fed. A broker that has heard
/// of no later root has none.
fn has_more(manager: &Manager, rank: u32, id: u64, feed: Option<&Feed>) -> bool
    requires ready { manager.now.spent ≡ false }
    requires within { rank < manager.now.core.size }
    ensures { result ≡ has_more manager.now.core rank (option_copied feed.entry)
        (log_seen manager.now.core rank id) }
{
    manager.keeps();
    match feed {
        None => manager.log_at(rank, id).is_some(),
        Some(feed) => {
            if feed.names.is_some() || manager.core().heard_primary(rank) <= feed.number {
                return false;
            }
            match manager.log_at(rank, id) {
                Some(log) => feed.bytes < log.as_slice().len(),
                None => false,
            }
        }
    }
}

/// Whether an open command is a watch that can be fed.
pub fn has_news(commands: &Commands, manager: &Manager, list: &[Feed], row: &Row) -> bool
    requires ready { manager.now.spent ≡ false }
    requires within { row.now.rank < manager.now.core.size }
    ensures { result ≡ has_news commands.now.labels manager.now row.now.rank
        (feed_of list.now row.now.by) row.now.ask }
{
    match &row.ask {
        JobAsk::Watch { label } => match commands.job_of(label.as_slice()) {
            Some(id) => has_more(manager, row.rank, id, feed_of(list, row.by)),
            None => false,
        },
        _ => false,
    }
}

/// Whether a name is this one, whose events are shown or aren't.
fn is_shown(shown: bool, name: &[u8], this: &[u8]) -> bool
    ensures { result ≡ (shown && bytes_eq name.now this.now) }
{
    shown && name == this
}

/// Whether the events of a name are shown.
fn shows(shown: &Shown, name: &[u8]) -> bool
    ensures { result ≡ shows shown.now name.now }
{
    is_shown(shown.submit, name, b"submit")
        | is_shown(shown.validate, name, b"validate")
        | is_shown(shown.dependency_add, name, b"dependency-add")
        | is_shown(shown.dependency_remove, name, b"dependency-remove")
        | is_shown(shown.depend, name, b"depend")
        | is_shown(shown.priority, name, b"priority")
        | is_shown(shown.urgency, name, b"urgency")
        | is_shown(shown.alloc, name, b"alloc")
        | is_shown(shown.flux_restart, name, b"flux-restart")
        | is_shown(shown.start, name, b"start")
        | is_shown(shown.finish, name, b"finish")
        | is_shown(shown.exception, name, b"exception")
        | is_shown(shown.release, name, b"release")
        | is_shown(shown.free, name, b"free")
        | is_shown(shown.clean, name, b"clean")
}

/// The names of the events that are shown, in order.
fn names_shown(alloc: Global, shown: &Shown, events: &[Event]) -> Result<NameTexts, AllocError>
    ensures { IfOk result (λ names. names ≡ names_shown shown.now events.now) }
{
    let mut names = NameTexts::new(alloc);
    for event in events {
        if shows(shown, event.name.as_slice()) {
            names.push(event.name.copy()?)?;
        }
    }
    Ok(names)
}

/// The events of a log that is one.
fn events_of(alloc: Global, log: &Bytes) -> Result<Vec<Event>, AllocError>
    requires { (events : List EventValue) × All IsEvent events × (log.now ≡ log_text events) }
    ensures { IfOk result (λ all. (events : List EventValue) → All IsEvent events
        → log.now ≡ log_text events → all.items ≡ events) }
{
    a_log_is_read_again();
    match read(alloc, log.as_slice()) {
        Ok(events) => Ok(events),
        Err(LogFault::NoMemory) => Err(AllocError),
        Err(_) => unreachable!(),
    }
}

/// The state of a job after the events of its log.
fn state_after(alloc: Global, events: &[Event]) -> Result<State, AllocError>
    requires { IsOk (replayed events.now) }
    ensures { IfOk result (λ state. (job : JobValue) → replayed events.now ≡ Ok job
        → state ≡ job.state) }
{
    match replay(alloc, events) {
        Ok(job) => Ok(job.state),
        Err(ReplayFault::NoMemory) => Err(AllocError),
        Err(_) => unreachable!(),
    }
}

/// The names that a watch is to tell of these events, once they end the job.
fn names_at_end(
    alloc: Global,
    shown: &Shown,
    state: State,
    events: &[Event],
) -> Result<Option<NameTexts>, AllocError>
    ensures { IfOk result (λ names. names
        ≡ (if is_inactive state then Some (names_shown shown.now events.now) else None)) }
{
    match state {
        State::Inactive => Ok(Some(names_shown(alloc, shown, events)?)),
        _ => Ok(None),
    }
}

/// What a command has been fed, once it is fed what its broker's store has of a job's log.
pub fn next_feed(
    alloc: Global,
    manager: &Manager,
    shown: &Shown,
    by: By,
    rank: u32,
    id: u64,
) -> Result<Feed, AllocError>
    requires ready { manager.now.spent ≡ false }
    requires within { rank < manager.now.core.size }
    requires some { IsSome (log_seen manager.now.core rank id) }
    ensures by { IfOk result (λ feed. feed.by ≡ by) }
    ensures fed { IfOk result (IsFedNow manager.now rank id shown.now) }
{
    // each root is sound, and its logs replay
    manager.keeps();
    let Some(log) = manager.log_at(rank, id) else {
        unreachable!()
    };
    let events = events_of(alloc, log)?;
    let state = state_after(alloc, events.as_slice())?;
    Ok(Feed {
        by,
        number: manager.core().heard_primary(rank),
        count: events.len() as u64,
        bytes: log.as_slice().len(),
        names: names_at_end(alloc, shown, state, events.as_slice())?,
    })
}

/// What a watch is fed now that has been fed this then, and at least one event.
pub fn fed_now(list: &[Feed], next: &Feed) -> Fed
    requires { fed_before list.now next.now.by < next.now.count }
    ensures number { result.number ≡ next.now.number }
    ensures first { result.first ≡ fed_before list.now next.now.by }
    ensures all { result.first + result.count ≡ next.now.count }
{
    let first = fed_before(list, next.by);
    Fed {
        number: next.number,
        first,
        count: next.count - first,
    }
}

/// Whether a command is a watch of a job that was over when it was fed last.
pub fn is_watched(list: &[Feed], by: By) -> bool
    ensures { result ≡ is_some (watched_by list.now by) }
{
    match feed_of(list, by) {
        Some(feed) => feed.names.is_some(),
        None => false,
    }
}

/// What a command is told that is a watch of a job that was over when it was fed last.
pub fn told_watch(list: &[Feed], by: By) -> Result<Option<Told>, AllocError>
    ensures some { IfOk result (λ told. IfSome told (TellsWatched list.now by)) }
    ensures none { IfOk result (λ told. IfNone told (watched_by list.now by ≡ None)) }
{
    let Some(feed) = feed_of(list, by) else {
        return Ok(None);
    };
    let Some(names) = &feed.names else {
        return Ok(None);
    };
    Ok(Some(Told {
        reply: Reply::Watched(names.copy()?),
        number: Some(feed.number),
    }))
}
