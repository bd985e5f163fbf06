//! The table of events and states, and what each event leaves in a job.
ghost use Rattle.std.specs.Prelude.{◌≡◌, OnOk, OnErr};
ghost use Rattle.std.specs.List.{list_any};
ghost use Rattle.job_states.specs.Table.{is_state, stands_in, leads_to, marked, made, submitted_job};

use crate::job::{Change, DependList, Job, State};
use std::alloc::{AllocError, Global};

/// The states in which a change may stand.
fn states_of(change: &Change, job: &Job) -> &'static [State]
    ensures { result.now ≡ stands_in change.now job.now }
{
    match change {
        Change::Submit { .. } => &[],
        Change::Validate => &[State::New],
        Change::AddDependency(_) | Change::RemoveDependency(_) => &[State::New, State::Depend],
        Change::Depend => &[State::Depend],
        Change::Prioritize(_) => &[State::Priority, State::Sched],
        Change::Urge(_) => &[State::Depend, State::Priority, State::Sched],
        Change::Alloc if job.allocated || job.freed => &[State::Sched],
        Change::Alloc => &[State::Sched, State::Cleanup],
        Change::Restart => &[State::Sched],
        Change::Start | Change::Finish(_) => &[State::Run, State::Cleanup],
        Change::Except(_) => &[
            State::Depend,
            State::Priority,
            State::Sched,
            State::Run,
            State::Cleanup,
        ],
        Change::Release { last: false } => &[State::Run, State::Cleanup],
        Change::Release { .. } | Change::Free | Change::Clean => &[State::Cleanup],
    }
}

/// Whether a change may stand at a job in its state.
pub fn can_stand(change: &Change, job: &Job) -> bool
    ensures { result ≡ list_any (is_state job.now.state) (stands_in change.now job.now) }
{
    states_of(change, job).contains(&job.state)
}

/// The state to which a change leads.
fn state_after(change: &Change, from: State) -> State
    ensures { result ≡ leads_to change.now from }
{
    match change {
        Change::Submit { .. } => State::New,
        Change::Validate => State::Depend,
        Change::Depend | Change::Restart => State::Priority,
        Change::Prioritize(_) => State::Sched,
        Change::Alloc if from == State::Sched => State::Run,
        Change::Finish(_) | Change::Except(0) => State::Cleanup,
        Change::Clean => State::Inactive,
        _ => from,
    }
}

/// Notes in a job what a change leaves besides its state.
fn mark(job: &mut Job, change: Change) -> Result<(), AllocError>
    ensures marked { OnOk result (job.new ≡ marked change job.old) }
    ensures kept { OnErr result (job.new ≡ job.old) }
{
    match change {
        Change::AddDependency(on) => job.added.push(on)?,
        Change::RemoveDependency(on) => job.removed.push(on)?,
        Change::Prioritize(priority) => job.priority = Some(priority),
        Change::Urge(urgency) => job.urgency = urgency,
        Change::Alloc => job.allocated = true,
        Change::Start => job.started = true,
        Change::Finish(status) => job.status = Some(status),
        Change::Except(severity) => job.severe = job.severe || severity == 0,
        Change::Release { last } => job.released = job.released || last,
        Change::Free => job.freed = true,
        Change::Submit { .. }
        | Change::Validate
        | Change::Depend
        | Change::Restart
        | Change::Clean => {}
    }
    Ok(())
}

/// Makes a change to a job.
pub fn make(job: &mut Job, change: Change) -> Result<(), AllocError>
    ensures made { OnOk result (job.new ≡ made change job.old) }
    ensures kept { OnErr result (job.new ≡ job.old) }
{
    let state = state_after(&change, job.state);
    mark(job, change)?;
    job.state = state;
    Ok(())
}

/// A job that is just submitted.
pub fn submitted(alloc: Global, userid: u32, urgency: u32) -> Job
    ensures { result ≡ submitted_job userid urgency }
{
    Job {
        state: State::New,
        userid,
        urgency,
        priority: None,
        status: None,
        severe: false,
        allocated: false,
        started: false,
        released: false,
        freed: false,
        added: DependList::new(alloc),
        removed: DependList::new(alloc),
    }
}
