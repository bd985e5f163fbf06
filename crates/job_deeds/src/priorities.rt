//! The priorities of jobs.
ghost use Rattle.std.specs.Prelude.{◌≡◌};
ghost use Rattle.std.specs.Fn.{FnReturnsAt};
ghost use Rattle.job_spec.specs.Sound.{IsSpec};
ghost use Rattle.manager_rules.specs.Limits.{cores_of};
ghost use Rattle.manager_rules.specs.Scene.{Scene, ask_of, priority_of};
ghost use Rattle.tap.specs.Priorities.{AnswersOnce};
ghost use Rattle.job_deeds.specs.Choices.{SaysAs};

use crate::row::Row;
use job_spec::JobSpec;
use tap::{Ask, Tap};

/// The urgency that holds a job, and the one that expedites it.
const HELD: u32 = 0;

const EXPEDITED: u32 = 31;

/// The cores that a job asks for.
fn cores_asked(spec: &JobSpec) -> u64
    requires { IsSpec spec.now }
    ensures { result ≡ cores_of spec.now }
{
    let hosts = u64::from(spec.nodes.unwrap_or(1));
    hosts * (u64::from(spec.slots) * u64::from(spec.cores))
}

/// What the callback is told of a job.
fn ask_about(row: &Row) -> Ask
    requires { IsSpec row.now.spec }
    ensures { result ≡ ask_of row.now }
{
    Ask {
        id: row.id,
        urgency: row.job.urgency,
        userid: row.job.userid,
        cores: cores_asked(&row.spec),
    }
}

/// The priority that is defined for a job: urgency 0 holds it, 31 expedites it, and for every other
/// the callback answers.
pub fn priority<F: Fn(&Ask) -> u32>(row: &Row, tap: &Tap<F>) -> u32
    requires spec { IsSpec row.now.spec }
    requires callable { F.IsAlwaysCallable tap.now }
    requires once { AnswersOnce (λ ask n. FnReturnsAt F.Fn tap.now ask n) }
    ensures { (s : Scene) → SaysAs (FnReturnsAt F.Fn tap.now) s.answer
        → result ≡ priority_of s row.now }
{
    if row.job.urgency == HELD {
        0
    } else if row.job.urgency == EXPEDITED {
        u32::MAX
    } else {
        tap.answer(&ask_about(row))
    }
}
