//! The priority with which a job stands in the queue.
ghost use Rattle.std.specs.Prelude.{◌≡◌};
ghost use Rattle.job_deeds.specs.Waiting.{rank_of};

use job_states::{Job, State};

/// The priority with which a job waits for resources, or 0.
pub fn rank(job: &Job) -> u32
    ensures { result ≡ rank_of job.now }
{
    if job.state == State::Sched {
        job.priority.unwrap_or(0)
    } else {
        0
    }
}
