//! What a job is once an event of it has landed.
ghost use Rattle.std.specs.Prelude.{◌≡◌, ◌<◌, length, IfOk, IfSome, OnErr, OnOk, Ok, slice_index_or, slice_set};
ghost use Rattle.job_states.specs.Replay.{stepped};
ghost use Rattle.job_states.specs.declared.job.Job.{Job as JobNow};
ghost use Rattle.resource_set.specs.Reading.{told};
ghost use Rattle.resource_set.specs.declared.node.Resources.{Resources as Units};
ghost use Rattle.manager_rules.specs.Jobs.{StoredJob, is_live, started_by};
ghost use Rattle.job_deeds.specs.Landing.{CanHold, CanLand, IsNext, IsTold, held_by, holding_with, job_with};

use crate::row::Row;
use event_log::Event;
use graph_match::Graph;
use job_states::{Job, ReplayFault, step};
use lists::{Bytes, Copied};
use manager_rules::Due;
use resource_set::{RFault, Resources};
use std::alloc::{AllocError, Global};

/// What an event makes of the resources that a job holds.
#[derive(Drop)]
pub enum Held {
    AsBefore,
    Nothing,
    Given(Resources),
}

/// What an event makes of a job.
#[derive(Drop)]
pub struct Next {
    pub job: Job,
    pub start: Option<u64>,
    pub held: Held,
}

/// The job after an event that may stand.
fn job_after(alloc: Global, job: &Job, event: &Event) -> Result<Job, AllocError>
    requires { (next : JobNow) × (stepped 0 job.now event.now ≡ Ok next) }
    ensures { IfOk result (λ next. stepped 0 job.now event.now ≡ Ok next) }
{
    let mut next = job.copy()?;
    match step(alloc, &mut next, event, 0) {
        Ok(()) => Ok(next),
        Err(ReplayFault::NoMemory) => Err(AllocError),
        Err(ReplayFault::NotAllowed { .. }) => unreachable!(),
    }
}

/// The second of the start once an event has landed.
fn start_after(start: Option<u64>, event: &Event) -> Option<u64>
    ensures { result ≡ started_by start event.now }
{
    if event.name.as_slice() == b"start".as_slice() {
        Some(event.timestamp)
    } else {
        start
    }
}

/// Whether a job has units.
fn has_units(job: &Job) -> bool
    ensures { result ≡ is_live job.now }
{
    job.allocated && !job.freed
}

/// The resources that a text tells.
fn units_in(alloc: Global, text: &Bytes) -> Result<Resources, AllocError>
    requires { (r : Units) × (told text.now ≡ Ok r) }
    ensures { IfOk result (λ r. told text.now ≡ Ok r) }
{
    match resource_set::read(alloc, text.as_slice()) {
        Ok(r) => Ok(r),
        Err(RFault::NoMemory) => Err(AllocError),
        Err(_) => unreachable!(),
    }
}

/// What a job holds once an event has landed: nothing unless it is live then, and what the event
/// gives, if it does.
fn held_after(alloc: Global, job: &Job, due: &Due) -> Result<Held, AllocError>
    requires { IfSome due.now.r IsTold }
    ensures { IfOk result (λ held. held ≡ held_by due.now job.now) }
{
    if !has_units(job) {
        return Ok(Held::Nothing);
    }
    match &due.r {
        Some(text) => Ok(Held::Given(units_in(alloc, text)?)),
        None => Ok(Held::AsBefore),
    }
}

/// What a due event makes of its job.
pub fn next_of(alloc: Global, row: &Row, due: &Due) -> Result<Next, AllocError>
    requires { CanLand row.now due.now }
    ensures { IfOk result (IsNext row.now due.now) }
{
    let job = job_after(alloc, &row.job, &due.event)?;
    let held = held_after(alloc, &job, due)?;
    Ok(Next {
        job,
        start: start_after(row.start, &due.event),
        held,
    })
}

/// Lets the units of a job be taken, or be free.
pub fn hold(graph: &mut Graph, id: u64, held: &Held) -> Result<(), AllocError>
    requires { CanHold graph.old id held.now }
    ensures held { OnOk result (graph.new ≡ holding_with graph.old id held.now) }
    ensures kept { OnErr result (graph.new ≡ graph.old) }
{
    match held {
        Held::AsBefore => Ok(()),
        Held::Nothing => {
            graph.give(id);
            Ok(())
        }
        Held::Given(r) => graph.take(id, r),
    }
}

/// Lets a job be what an event makes of it.
fn change(row: &mut Row, next: Next)
    ensures { row.new ≡ job_with next row.old }
{
    row.job = next.job;
    row.start = next.start;
    match next.held {
        Held::AsBefore => {}
        Held::Nothing => row.r = None,
        Held::Given(r) => row.r = Some(r),
    }
}

/// The same of the job at a place.
pub fn change_at(rows: &mut Vec<Row>, at: usize, next: Next)
    requires { at < length rows.old.items }
    ensures { (d : StoredJob) → rows.new.items
        ≡ slice_set rows.old.items at (job_with next (slice_index_or rows.old.items at d)) }
{
    change(&mut rows[at], next);
}
