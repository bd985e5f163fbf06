//! Why a job doesn't run.
ghost use Rattle.std.specs.Prelude.{◌≡◌, Contains, IfOk};
ghost use Rattle.job_rules.specs.Fits.{IsGrant};
ghost use Rattle.job_spec.specs.Sound.{IsSpec};
ghost use Rattle.manager_rules.specs.Scene.{Scene};
ghost use Rattle.manager_rules.specs.Whys.{IsFirst, IsSaidOf};
ghost use Rattle.job_deeds.specs.Choices.{IsDesk, IsSeen};
ghost use Rattle.job_deeds.specs.Waiting.{IsRanked};

use crate::decisions::Desk;
use crate::row::Row;
use graph_match::Fit;
use job_states::State;
use manager_rules::{JobList, Why};
use std::alloc::{AllocError, Global};

/// Why the first job in the queue doesn't run: the jobs in its way, none where it never fits, or
/// that its resources are due.
fn of_first(alloc: Global, desk: &Desk<'_>, row: &Row) -> Result<Why, AllocError>
    requires spec { IsSpec row.now.spec }
    requires grant { IsGrant desk.now.graph.now.grant }
    ensures { IfOk result (λ why. (s : Scene) → IsSeen desk.now s → IsFirst s.jobs row.now
        → IsSaidOf s row.now why) }
{
    match desk.graph.fit(&row.spec, desk.second)? {
        Fit::Units(_) => Ok(Why::Ready),
        Fit::Busy(ids) => Ok(Why::Busy(ids)),
        Fit::Never => Ok(Why::Busy(JobList::new(alloc))),
    }
}

/// Why a job of these doesn't run.
pub fn reason(alloc: Global, desk: &Desk<'_>, row: &Row) -> Result<Why, AllocError>
    requires desk { IsDesk desk.now }
    requires known { Contains desk.now.rows.now row.now }
    requires ranked { IsRanked row.now }
    requires spec { IsSpec row.now.spec }
    requires grant { IsGrant desk.now.graph.now.grant }
    ensures { IfOk result (λ why. (s : Scene) → IsSeen desk.now s → IsSaidOf s row.now why) }
{
    if row.job.state != State::Sched {
        return Ok(Why::NotWaiting(row.job.state));
    }
    if row.job.priority == Some(0) {
        return Ok(Why::Held);
    }
    let Some(first) = desk.head else {
        unreachable!();
    };
    if first == row.id {
        return of_first(alloc, desk, row);
    }
    if desk.passer == Some(row.id) {
        return Ok(Why::Ready);
    }
    Ok(Why::Behind(first))
}
