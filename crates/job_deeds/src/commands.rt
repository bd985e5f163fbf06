//! The commands about a job that its state allows.
ghost use Rattle.std.specs.Prelude.{◌≡◌, ◌≢◌, ◌↔◌, Contains, IfNone, IfSome, IsTrue};
ghost use Rattle.manager_rules.specs.declared.asked.Asked.{Asked as Command};
ghost use Rattle.manager_rules.specs.Due.{MayCarry, may_stand};
ghost use Rattle.job_states.specs.declared.job.Change.TheVariants as change;
ghost use Rattle.job_states.specs.declared.job.State.TheVariants as state;

use crate::row::Row;
use job_states::{Change, Job, State, can_stand};
use manager_rules::Asked;

/// Whether an exception of this severity may be raised: one of severity 0 ends the job, which it
/// does once.
fn can_except(job: &Job, severity: u32) -> bool
    ensures { IsTrue result ↔ (IsTrue (may_stand (change.Except severity) job.now)
        × (severity ≡ 0 → job.now.state ≢ state.Cleanup)) }
{
    can_stand(&Change::Except(severity), job) && (severity != 0 || job.state != State::Cleanup)
}

/// Whether a job's urgency may be changed.
fn can_urge(job: &Job, urgency: u32) -> bool
    ensures { result ≡ may_stand (change.Urge urgency) job.now }
{
    can_stand(&Change::Urge(urgency), job)
}

/// Whether a command is about this job, and its state allows it.
fn can_carry(row: &Row, asked: &Asked) -> bool
    ensures { IsTrue result ↔ MayCarry row.now asked.now }
{
    match asked {
        Asked::Cancel { job, .. } => *job == row.id && can_except(&row.job, 0),
        Asked::Raise { job, severity, .. } => *job == row.id && can_except(&row.job, *severity),
        Asked::Urgency { job, urgency, .. } => *job == row.id && can_urge(&row.job, *urgency),
        Asked::Child { .. } => false,
    }
}

/// The first command that may be carried out.
pub fn carried<'a>(row: &Row, asked: &'a [Asked]) -> Option<&'a Asked>
    ensures some { IfSome result (λ one. Contains asked.now one.now × MayCarry row.now one.now) }
    ensures none { IfNone result ((one : Command) → Contains asked.now one
        → MayCarry row.now one → ⊥) }
{
    asked.iter().find(|one| can_carry(row, one))
}
