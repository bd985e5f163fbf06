//! From when on something may be due for a job.
ghost use Rattle.std.specs.Prelude.{◌≡◌, ◌<◌, ◌≤◌, ℕ, IfSome, IsTrue, Some, false, option_map};
ghost use Rattle.std.specs.List.{list_any};
ghost use Rattle.job_deeds.specs.manager_rules.Jobs.{StoredJob};
ghost use Rattle.job_deeds.specs.shells.Endings.{ending_of};
ghost use Rattle.job_deeds.specs.shells.declared.ends.Ending.TheVariants as ending;
ghost use Rattle.job_book.specs.Waking.{Sleeps, is_about as is_about_job};

use crate::active::Active;
use job_deeds::job_spec::JobSpec;
use job_deeds::job_states::{Job, State};
use job_deeds::manager_rules::Asked;
use job_deeds::resource_set::Resources;
use job_deeds::shells::Ending;

/// The second at which a command ends by itself, or the last one.
fn command_wakes(spec: &JobSpec, start: Option<u64>) -> u64
    ensures { (second status : ℕ)
        → option_map (ending_of spec.now) start ≡ Some (ending.At second status)
        → result ≤ second }
{
    let Some(start) = start else {
        return u64::MAX;
    };
    match job_deeds::shells::ending(spec, start) {
        Ending::At { second, .. } => second,
        Ending::Child => u64::MAX,
    }
}

/// The second at which resources end, or the last one.
fn units_wake(r: &Option<Resources>) -> u64
    ensures { IfSome r.now (λ r. 0 < r.expiration → result ≤ r.expiration) }
{
    match r {
        Some(r) if 0 < r.expiration => r.expiration,
        _ => u64::MAX,
    }
}

/// The second from which on something may be due for a job of which nothing is asked: for one that
/// runs, the end of its command or its resources.
pub fn wake_of(job: &Job, spec: &JobSpec, start: Option<u64>, r: &Option<Resources>) -> u64
    ensures { (j : StoredJob) → j.job ≡ job.now → j.spec ≡ spec.now → j.start ≡ start
        → j.r ≡ r.now → Sleeps j result }
{
    if job.state == State::Run && job.started {
        command_wakes(spec, start).min(units_wake(r))
    } else {
        0
    }
}

/// Whether it is of this job.
fn is_about(asked: &Asked, id: u64) -> bool
    ensures { result ≡ is_about_job id asked.now }
{
    match asked {
        Asked::Cancel { job, .. }
        | Asked::Raise { job, .. }
        | Asked::Urgency { job, .. }
        | Asked::Child { job, .. } => id == *job,
    }
}

/// Whether a command or a child is of this job.
fn is_asked(asked: &[Asked], id: u64) -> bool
    ensures { result ≡ list_any (is_about_job id) asked.now }
{
    asked.iter().any(|one| is_about(one, id))
}

/// Whether it isn't yet time for a job of which nothing is asked.
pub fn sleeps(entry: Active, now: u64, asked: &[Asked]) -> bool
    ensures early { IsTrue result → now < entry.wake }
    ensures quiet { IsTrue result → list_any (is_about_job entry.id) asked.now ≡ false }
{
    now < entry.wake && !is_asked(asked, entry.id)
}
