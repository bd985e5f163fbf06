//! The jobs of an instance, as its manager's transactions tell them.
ghost use Rattle.std.specs.Prelude.{◌≡◌, ◌<◌, ◌≤◌, ◌++◌, ◌∷◌, true, List, IfOk, OnOk, Ok, length, take, drop, nat_lt, option_map, slice_index_or, slice_set};
ghost use Rattle.std.specs.List.{AllByRecursion as Each, HoldsAt};
ghost use Rattle.std.specs.List.Sorted.{IsStrictlyIncreasing};
ghost use Rattle.event_log.specs.Events.{IsEvent, line_text};
ghost use Rattle.event_log.specs.declared.event.Event.{Event as Told};
ghost use Rattle.manager_rules.specs.Jobs.{StoredJob};
ghost use Rattle.manager_rules.specs.Posts.{Does, Submission, Submits, jobs_after};
ghost use Rattle.manager_rules.specs.declared.due.Due.{Due};
ghost use Rattle.resource_set.specs.Reading.{told};
ghost use Rattle.resource_set.specs.declared.node.Resources.{Resources};
ghost use Rattle.run_picture.specs.Rows.{AreRowsOf, IsNewRow, IsReadable, held_then, row_after, row_ids};
ghost use Rattle.run_picture.specs.declared.jobs.JobRow.{JobRow as Row};

use crate::drawing::PictureFault;
use event_log::{Event, LogFault};
use job_states::{Job, ReplayFault};
use lists::Bytes;
use resource_set::{NodeList, RFault};
use std::alloc::{AllocError, Global};

/// A job: the label under which it was submitted, what its log says of it so far, and its hosts
/// while it is live.
#[derive(Drop)]
pub struct JobRow {
    pub id: u64,
    pub label: Bytes,
    pub job: Job,
    pub held: Option<NodeList>,
}

/// The one event that a line tells.
fn event_in(alloc: Global, line: &Bytes) -> Result<Event, PictureFault>
    ensures { IfOk result (λ event. (told : Told) → IsEvent told → line.now ≡ line_text told
        → event ≡ told) }
{
    event_log::a_log_is_read_again();
    match event_log::read(alloc, line.as_slice()) {
        Ok(mut events) => match events.pop() {
            Some(event) => Ok(event),
            None => Err(PictureFault::Unread),
        },
        Err(LogFault::NoMemory) => Err(PictureFault::NoMemory),
        Err(_) => Err(PictureFault::Unread),
    }
}

/// The hosts of the resources that a text tells.
fn hosts_in(alloc: Global, text: &Bytes) -> Result<NodeList, PictureFault>
    ensures { IfOk result (λ nodes. (r : Resources) × (told text.now ≡ Ok r) × (nodes ≡ r.nodes)) }
{
    match resource_set::read(alloc, text.as_slice()) {
        Ok(r) => Ok(r.nodes),
        Err(RFault::NoMemory) => Err(PictureFault::NoMemory),
        Err(_) => Err(PictureFault::Unread),
    }
}

/// The fault of a replay.
fn replay_fault(fault: ReplayFault) -> PictureFault {
    match fault {
        ReplayFault::NoMemory => PictureFault::NoMemory,
        ReplayFault::NotAllowed { .. } => PictureFault::Unread,
    }
}

/// What a job holds behind an event: nothing unless it is live then, and what is put, if resources
/// are put.
fn held_after(
    alloc: Global,
    job: &Job,
    before: Option<NodeList>,
    r: Option<&Bytes>,
) -> Result<Option<NodeList>, PictureFault>
    ensures { IfOk result (λ held.
        held ≡ held_then job.now before (option_map (λ text. text.now) r.entry)) }
{
    if !job.allocated || job.freed {
        return Ok(None);
    }
    match r {
        Some(text) => Ok(Some(hosts_in(alloc, text)?)),
        None => Ok(before),
    }
}

/// Whether a job's id is lower.
fn is_before(row: &JobRow, id: u64) -> bool
    ensures { result ≡ nat_lt row.now.id id }
{
    row.id < id
}

/// Where a job stands by its id, or would stand.
fn place_of(rows: &[JobRow], id: u64) -> usize
    ensures within { result ≤ length rows.now }
    ensures before { IsStrictlyIncreasing (row_ids rows.now)
        → Each (λ row. row.id < id) (take result rows.now) }
    ensures behind { IsStrictlyIncreasing (row_ids rows.now)
        → Each (λ row. id ≤ row.id) (drop result rows.now) }
{
    rows.partition_point(|row| is_before(row, id))
}

/// Whether the job of this id stands at a place.
fn stands_at(rows: &[JobRow], at: usize, id: u64) -> bool
    ensures within { result ≡ true → at < length rows.now }
    ensures named { result ≡ true → HoldsAt (λ row. row.id ≡ id) rows.now at }
{
    at < rows.len() && rows[at].id == id
}

/// Adds an event to the log of a job.
fn add_event(
    alloc: Global,
    row: &mut JobRow,
    event: &Event,
    r: Option<&Bytes>,
) -> Result<(), PictureFault>
    ensures { OnOk result
        (row.new ≡ row_after event.now (option_map (λ text. text.now) r.entry) row.old) }
{
    match job_states::step(alloc, &mut row.job, event, 0) {
        Ok(()) => {}
        Err(fault) => return Err(replay_fault(fault)),
    }
    let before = row.held.take();
    row.held = held_after(alloc, &row.job, before, r)?;
    Ok(())
}

/// The same of the job at a place.
fn add_at(
    alloc: Global,
    rows: &mut Vec<JobRow>,
    at: usize,
    event: &Event,
    r: Option<&Bytes>,
) -> Result<(), PictureFault>
    requires { at < length rows.old.items }
    ensures { OnOk result ((d : Row) → rows.new.items ≡ slice_set rows.old.items at
        (row_after event.now (option_map (λ text. text.now) r.entry)
        (slice_index_or rows.old.items at d))) }
{
    add_event(alloc, &mut rows[at], event, r)
}

/// The row of a job whose log begins with this line.
fn new_row(alloc: Global, id: u64, label: Bytes, line: &Bytes) -> Result<JobRow, PictureFault>
    ensures { IfOk result (IsNewRow id line.now) }
{
    let event = event_in(alloc, line)?;
    match job_states::begin(alloc, &event) {
        Ok(job) => Ok(JobRow {
            id,
            label,
            job,
            held: None,
        }),
        Err(fault) => Err(replay_fault(fault)),
    }
}

/// Adds a row at a place.
fn insert(rows: &mut Vec<JobRow>, at: usize, row: JobRow) -> Result<(), AllocError>
    requires { at ≤ length rows.old.items }
    ensures { OnOk result
        (rows.new.items ≡ take at rows.old.items ++ row ∷ drop at rows.old.items) }
{
    rows.insert(at, row)?;
    Ok(())
}

/// Adds a job whose log begins with this line.
pub fn begin_job(
    alloc: Global,
    rows: &mut Vec<JobRow>,
    id: u64,
    label: Bytes,
    line: &Bytes,
) -> Result<(), PictureFault>
    ensures { OnOk result ((x : Submission) (jobs : List StoredJob) → x.id ≡ id
        → line.now ≡ line_text x.event → IsReadable (Submits x) jobs
        → AreRowsOf rows.old.items jobs
        → AreRowsOf rows.new.items (jobs_after (Submits x) jobs)) }
{
    let row = new_row(alloc, id, label, line)?;
    let at = place_of(rows, id);
    insert(rows, at, row)?;
    Ok(())
}

/// Adds a line to the log of a job, with resources that are put, if some are.
pub fn add_line(
    alloc: Global,
    rows: &mut Vec<JobRow>,
    id: u64,
    line: &Bytes,
    r: Option<&Bytes>,
) -> Result<(), PictureFault>
    ensures { OnOk result ((due : Due) (jobs : List StoredJob) → due.job ≡ id
        → line.now ≡ line_text due.event → due.r ≡ option_map (λ text. text.now) r.entry
        → IsReadable (Does due) jobs → AreRowsOf rows.old.items jobs
        → AreRowsOf rows.new.items (jobs_after (Does due) jobs)) }
{
    let event = event_in(alloc, line)?;
    let at = place_of(rows, id);
    if stands_at(rows, at, id) {
        add_at(alloc, rows, at, &event, r)
    } else {
        Err(PictureFault::Unread)
    }
}
