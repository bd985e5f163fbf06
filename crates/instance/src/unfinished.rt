//! What the commands that didn't finish are told at the end.
ghost use Rattle.std.specs.Prelude.{◌≡◌, ◌<◌, ◌≤◌, ◌++◌, ◌-◌, false, length, count_by, option_and_then, option_map, All, IfOk, OnOk};
ghost use Rattle.services.specs.kvs_rules.Log.{Log};
ghost use Rattle.services.specs.kvs_rules.Namespaces.{Setting as Service};
ghost use Rattle.services.specs.kvs_core.Agrees.{Agrees};
ghost use Rattle.services.specs.job_service.Still.{awaited};
ghost use Rattle.instance.specs.Closings.{closings, closings_of, fence_at, is_served, left_reply, not_reached, numbers_in, open_command, unfinished_at, waiting_in, waits_in};
ghost use Rattle.instance.specs.Agrees.{is_of};

use crate::seats::{Seat, Waiting};
use services::answers::{Chronicle, Entry, Reply};
use services::job_service::JobService;
use services::job_states::State;
use services::kvs_core::Core;
use services::kvs_txn::By;
use services::lists::{Bytes, ListOf};
use services::workload::{Command, Line};
use std::alloc::{AllocError, Global};

/// Whether an actor waits for the service.
fn is_served(waiting: Waiting) -> bool
    ensures { result ≡ is_served waiting }
{
    matches!(waiting, Waiting::Service)
}

/// The fence in which the actor at this seat waits, and its count.
fn fence_at<'a>(lines: &'a [Line], seat: &Seat) -> Option<(&'a Bytes, u32)>
    ensures { option_map (λ fence. (fence.0.now, fence.1)) result ≡ fence_at lines.now seat.now }
{
    if !is_served(seat.waiting) {
        return None;
    }
    match &lines.get(seat.last)?.command {
        Command::Fence { name, count } => Some((name, *count)),
        _ => None,
    }
}

/// Whether an actor waits in this fence of the namespace.
fn waits_in(lines: &[Line], seats: &[Seat], space: &Bytes, name: &Bytes, actor: u32) -> bool
    ensures { result ≡ waits_in lines.now seats.now space.now name.now actor }
{
    let Some(seat) = seats.get(actor as usize) else {
        return false;
    };
    match fence_at(lines, seat) {
        Some((fence, _)) => {
            space.as_slice() == seat.subject.as_slice() && name.as_slice() == fence.as_slice()
        }
        None => false,
    }
}

/// How many actors wait in this fence of the namespace.
fn members(lines: &[Line], seats: &[Seat], space: &Bytes, name: &Bytes) -> u32
    requires { length seats.now ≤ 256 }
    ensures { result ≡ length (waiting_in lines.now seats.now space.now name.now) }
{
    let mut count = 0;
    for actor in 0..seats.len() as u32 {
        if waits_in(lines, seats, space, name, actor) {
            count += 1;
        }
    }
    count
}

/// How many commands an actor has.
fn commands(lines: &[Line], actor: u32) -> u32
    requires { length lines.now ≤ 10000 }
    ensures { result ≡ count_by (is_of actor) lines.now }
{
    lines.iter().filter(|line| line.actor == actor).count() as u32
}

/// Tells an actor of its commands from one number up to another that they were not reached.
fn pass_over(chronicle: &mut Chronicle, actor: u32, from: u32, to: u32) -> Result<(), AllocError>
    ensures { OnOk result (chronicle.new ≡ chronicle.old ++ not_reached actor from (to - from)) }
{
    for command in from..to {
        chronicle.push(Entry::Replied {
            actor,
            command,
            reply: Reply::NotReached,
            number: None,
        })?;
    }
    Ok(())
}

/// What an actor is told at the end that waits for the key-value service: how many have come of the
/// members of its fence, or which number its broker has heard of those for which it waits.
fn left_reply(lines: &[Line], seats: &[Seat], seat: &Seat, heard: u64) -> Option<Reply>
    requires { length seats.now ≤ 256 }
    ensures { result ≡ option_and_then
        (left_reply heard lines.now seats.now seat.now.subject)
        (open_command lines.now seat.now) }
{
    match &lines.get(seat.last)?.command {
        Command::Fence { name, count } => Some(Reply::UnfinishedFence {
            have: members(lines, seats, &seat.subject, name),
            want: *count,
        }),
        Command::Wait { number } => Some(Reply::UnfinishedWait {
            heard,
            number: *number,
        }),
        _ => None,
    }
}

/// What an actor is told at the end of its open command, if that didn't finish: of a result, the
/// state of its job.
fn unfinished(
    lines: &[Line],
    seats: &[Seat],
    seat: &Seat,
    heard: u64,
    left: Option<State>,
) -> Option<Reply>
    requires { length seats.now ≤ 256 }
    ensures { result ≡ unfinished_at heard left lines.now seats.now seat.now }
{
    match seat.waiting {
        Waiting::Service => left_reply(lines, seats, seat, heard),
        Waiting::Jobs => Some(Reply::UnfinishedJob(left?)),
        _ => None,
    }
}

/// Gives an actor its closing replies, if its open command didn't finish.
fn close_actor(
    chronicle: &mut Chronicle,
    core: &Core,
    jobs: &JobService,
    lines: &[Line],
    seats: &[Seat],
    actor: u32,
) -> Result<(), AllocError>
    requires ready { core.now.spent ≡ false }
    requires few { length seats.now ≤ 256 }
    requires short { length lines.now ≤ 10000 }
    requires within { All (λ seat. seat.broker < core.now.size) seats.now }
    ensures { OnOk result ((set : Service) (log : Log) → Agrees core.now set log
        → chronicle.new ≡ chronicle.old
        ++ closings_of (numbers_in log) (awaited jobs.now) lines.now seats.now actor) }
{
    let Some(seat) = seats.get(actor as usize) else {
        return Ok(());
    };
    let heard = core.heard(seat.broker, &seat.subject).unwrap_or(0);
    let command = seat.issued.saturating_sub(1);
    let left = jobs.awaited(By { actor, command });
    let Some(reply) = unfinished(lines, seats, seat, heard, left) else {
        return Ok(());
    };
    chronicle.push(Entry::Replied {
        actor,
        command,
        reply,
        number: None,
    })?;
    pass_over(chronicle, actor, seat.issued, commands(lines, actor))?;
    Ok(())
}

/// The closing replies of each command that didn't finish, by actor, where the service is at rest.
pub fn close_off(
    alloc: Global,
    core: &Core,
    jobs: &JobService,
    lines: &[Line],
    seats: &[Seat],
) -> Result<Chronicle, AllocError>
    requires ready { core.now.spent ≡ false }
    requires few { length seats.now ≤ 256 }
    requires short { length lines.now ≤ 10000 }
    requires within { All (λ seat. seat.broker < core.now.size) seats.now }
    ensures { IfOk result (λ left. (set : Service) (log : Log) → Agrees core.now set log
        → left ≡ closings (numbers_in log) (awaited jobs.now) lines.now seats.now) }
{
    let mut left = ListOf::new(alloc);
    for actor in 0..seats.len() as u32 {
        close_actor(&mut left, core, jobs, lines, seats, actor)?;
    }
    Ok(left)
}
