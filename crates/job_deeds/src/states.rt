//! What is due for a job that has resources, by its state (Flux RFC 21 and 27).
ghost use Rattle.std.specs.Prelude.{◌≡◌, ◌&&◌, ◌↔◌, IsTrue, IsSomeAnd};
ghost use Rattle.job_states.specs.declared.job.State.TheVariants as state;
ghost use Rattle.manager_rules.specs.Due.{IsOver, is_in_time as ends_within, status_now};
ghost use Rattle.manager_rules.specs.Scene.{Scene, has_living_child, has_shut_child, is_child_of, is_living as is_living_child, is_shut as is_shut_child};
ghost use Rattle.job_deeds.specs.Actions.{AreTold, Finds};

use crate::action::Action;
use crate::row::Row;
use manager_rules::Asked;
use resource_set::Resources;
use shells::Ending;

/// Whether a job has a living child.
fn is_living(asked: &Asked, id: u64) -> bool
    ensures { result ≡ (is_child_of id asked.now && is_living_child asked.now) }
{
    match asked {
        Asked::Child { job, living, .. } => id == *job && *living,
        _ => false,
    }
}

/// Whether one of the jobs' children that ended by their own shutdown was this job's.
fn is_shut(asked: &Asked, id: u64) -> bool
    ensures { result ≡ (is_child_of id asked.now && is_shut_child asked.now) }
{
    match asked {
        Asked::Child { job, living, shut } => id == *job && !*living && *shut,
        _ => false,
    }
}

/// Whether one of the job's children lives.
fn has_living(asked: &[Asked], id: u64) -> bool
    ensures { result ≡ has_living_child asked.now id }
{
    asked.iter().any(|asked| is_living(asked, id))
}

/// Whether one of the job's children has shut down.
fn has_shut(asked: &[Asked], id: u64) -> bool
    ensures { result ≡ has_shut_child asked.now id }
{
    asked.iter().any(|asked| is_shut(asked, id))
}

/// Whether a second is none after the end of what a job holds.
fn is_in_time(r: &Option<Resources>, second: u64) -> bool
    ensures { result ≡ ends_within r.now second }
{
    match r {
        Some(r) => r.expiration == 0 || second <= r.expiration,
        None => true,
    }
}

/// The status with which a job's command ends at this second, if it does: by itself, or with its
/// child.
fn status_at(now: u64, asked: &[Asked], row: &Row) -> Option<u64>
    ensures { (s : Scene) → s.now ≡ now → s.asked ≡ asked.now → result ≡ status_now s row.now }
{
    match shells::ending(&row.spec, row.start?) {
        Ending::At { second, status } if second <= now && is_in_time(&row.r, second) => {
            Some(status)
        }
        Ending::At { .. } => None,
        Ending::Child => {
            if has_shut(asked, row.id) {
                Some(0)
            } else {
                None
            }
        }
    }
}

/// Whether resources have come to their end.
fn are_over(now: u64, r: &Option<Resources>) -> bool
    ensures { IsTrue result ↔ IsSomeAnd r.now (IsOver now) }
{
    match r {
        Some(r) => 0 < r.expiration && r.expiration <= now,
        None => false,
    }
}

/// What is due for a job in RUN: its start, its command's end, or that of its resources.
pub fn of_run(now: u64, asked: &[Asked], row: &Row) -> Option<Action<'static>>
    requires { row.now.job.state ≡ state.Run }
    ensures found { (s : Scene) → s.now ≡ now → s.asked ≡ asked.now → Finds s row.now result }
    ensures told { AreTold result }
{
    if !row.job.started {
        return Some(Action::Start);
    }
    if let Some(status) = status_at(now, asked, row) {
        return Some(Action::Finish(status));
    }
    if are_over(now, &row.r) {
        Some(Action::Expire)
    } else {
        None
    }
}

/// What is due for a job in CLEANUP: its command's end, the release of its resources once no child
/// has them, and its own.
pub fn of_cleanup(asked: &[Asked], row: &Row) -> Option<Action<'static>>
    requires { row.now.job.state ≡ state.Cleanup }
    ensures found { (s : Scene) → s.asked ≡ asked.now → Finds s row.now result }
    ensures told { AreTold result }
{
    let job = &row.job;
    if !job.allocated || job.freed {
        return Some(Action::Clean);
    }
    if job.released {
        return Some(Action::Free);
    }
    if has_living(asked, row.id) {
        return None;
    }
    if job.started && job.status.is_none() {
        Some(Action::Stop)
    } else {
        Some(Action::Release)
    }
}
