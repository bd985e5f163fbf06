//! The replay of a log.
ghost use Rattle.std.specs.Prelude.{◌≡◌, Ok, OnOk, OnErr, IfErr};
ghost use Rattle.outcomes.specs.Outcomes.{Fails, Gives};
ghost use Rattle.job_states.specs.Replay.{begun, stepped, replayed, lasting};

use crate::changes::asked;
use crate::job::{Change, Job, ReplayFault};
use crate::table::{can_stand, make, submitted};
use event_log::Event;
use std::alloc::Global;

/// The job that the first event of a log begins (Flux RFC 21). `NotAllowed` where it is no
/// submission.
pub fn begin(alloc: Global, event: &Event) -> Result<Job, ReplayFault>
    ensures { Gives lasting (λ job. job) result (begun event.now) }
{
    match asked(alloc, event)? {
        Some(Change::Submit { userid, urgency }) => Ok(submitted(alloc, userid, urgency)),
        _ => Err(ReplayFault::NotAllowed {
            index: 0,
            state: None,
        }),
    }
}

/// Does the event at this place of a log, counted from 0. `NotAllowed` where its name is unknown,
/// its context lacks what is needed, or it may not stand in the job's state. A job whose event
/// isn't done stays as it was.
pub fn step(alloc: Global, job: &mut Job, event: &Event, index: u64) -> Result<(), ReplayFault>
    ensures done { OnOk result (stepped index job.old event.now ≡ Ok job.new) }
    ensures refused { IfErr result (λ fault.
        Fails lasting fault (stepped index job.old event.now)) }
    ensures kept { OnErr result (job.new ≡ job.old) }
{
    let refusal = ReplayFault::NotAllowed {
        index,
        state: Some(job.state),
    };
    let Some(change) = asked(alloc, event)? else {
        return Err(refusal);
    };
    if !can_stand(&change, job) {
        return Err(refusal);
    }
    make(job, change)?;
    Ok(())
}

/// The job that a log tells (Flux RFC 21). `NotAllowed` at the first event that may not stand where
/// it does, and at the first place where there is no event.
pub fn replay(alloc: Global, events: &[Event]) -> Result<Job, ReplayFault>
    ensures { Gives lasting (λ job. job) result (replayed events.now) }
{
    let Some((first, later)) = events.split_first() else {
        return Err(ReplayFault::NotAllowed {
            index: 0,
            state: None,
        });
    };
    let mut job = begin(alloc, first)?;
    for (place, event) in later.iter().enumerate() {
        step(alloc, &mut job, event, place as u64 + 1)?;
    }
    Ok(job)
}
