//! Dependencies of jobs on others (Flux RFC 26, "dependencies").
ghost use Rattle.std.specs.Prelude.{◌≡◌, OnOk, IfOk, filter, filter_map};
ghost use Rattle.job_queue.specs.Dependencies.{is_of_another, verdict, settled_of, stays_open, AreInOrder};

use std::alloc::{AllocError, Global};

/// What a job waits for in another: its start, its end, its success or its failure.
#[derive(Clone, Copy, Debug, PartialEq, Eq)]
pub enum Scheme {
    After,
    AfterAny,
    AfterOk,
    AfterNotOk,
}

/// What became of a job: it started, or it ended, with success or not, and after a start or not.
#[derive(Clone, Copy, Debug, PartialEq, Eq)]
pub enum Outcome {
    Started,
    Ended { ok: bool, started: bool },
}

/// A dependency that nothing has decided yet: the job `id` waits for the job `on`.
#[derive(Clone, Copy, Debug, PartialEq, Eq)]
pub struct Open {
    pub id: u64,
    pub on: u64,
    pub scheme: Scheme,
}

/// A dependency that is decided: it is met, or can't be met any more.
#[derive(Clone, Copy, Debug, PartialEq, Eq)]
pub struct Settled {
    pub id: u64,
    pub on: u64,
    pub scheme: Scheme,
    pub met: bool,
}

/// Whether the outcome of the job that is waited for meets the dependency; `None` where it decides
/// nothing.
pub(crate) fn judge(scheme: Scheme, outcome: Outcome) -> Option<bool>
    ensures { result ≡ verdict scheme outcome }
{
    match (scheme, outcome) {
        (Scheme::After, Outcome::Started) => Some(true),
        (_, Outcome::Started) => None,
        (Scheme::After, Outcome::Ended { started, .. }) => Some(started),
        (Scheme::AfterAny, Outcome::Ended { .. }) => Some(true),
        (Scheme::AfterOk, Outcome::Ended { ok, .. }) => Some(ok),
        (Scheme::AfterNotOk, Outcome::Ended { ok, .. }) => Some(!ok),
    }
}

/// What the outcome of a job makes of an open dependency; `None` where it stays open.
pub(crate) fn decide(dependency: &Open, job: u64, outcome: Outcome) -> Option<Settled>
    ensures { result ≡ settled_of job outcome dependency.now }
{
    if dependency.on != job {
        return None;
    }
    let met = judge(dependency.scheme, outcome)?;
    Some(Settled {
        id: dependency.id,
        on: dependency.on,
        scheme: dependency.scheme,
        met,
    })
}

/// The dependencies that the outcome of a job decides.
pub(crate) fn decided(
    alloc: Global,
    dependencies: &[Open],
    job: u64,
    outcome: Outcome,
) -> Result<Vec<Settled>, AllocError>
    ensures { IfOk result (λ list. list.items
        ≡ filter_map (settled_of job outcome) dependencies.now) }
{
    dependencies
        .iter()
        .filter_map(|dependency| decide(dependency, job, outcome))
        .collect(alloc)
}

/// Orders them by the ids of the jobs that waited, and leaves those of one job in their order.
pub(crate) fn sort_by_id(list: &mut Vec<Settled>) -> Result<(), AllocError>
    ensures { OnOk result (AreInOrder list.old.items list.new.items) }
{
    list.sort_by_key(|settled| settled.id)
}

/// Drops the dependencies that the outcome of a job decides.
pub(crate) fn drop_decided(dependencies: &mut Vec<Open>, job: u64, outcome: Outcome)
    ensures { dependencies.new.items ≡ filter (stays_open job outcome) dependencies.old.items }
{
    dependencies.retain(|dependency| decide(dependency, job, outcome).is_none());
}

/// Drops the dependencies of a job.
pub(crate) fn drop_of(dependencies: &mut Vec<Open>, id: u64)
    ensures { dependencies.new.items ≡ filter (is_of_another id) dependencies.old.items }
{
    dependencies.retain(|dependency| dependency.id != id);
}
