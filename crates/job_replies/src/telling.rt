//! What an open job command is told.
ghost use Rattle.std.specs.Prelude.{◌≡◌, ◌<◌, true, false, Contains, IfOk};
ghost use Rattle.instance_rules.specs.Log.{Instance, Log};
ghost use Rattle.job_commands.specs.declared.row.Row.{Row as Open};
ghost use Rattle.kvs_core.specs.Value.{CoreValue};
ghost use Rattle.job_replies.specs.Jobs.{IsSaidOf, IsSaidOfJob, IsToldLanded, IsToldOpen, too_late};
ghost use Rattle.job_replies.specs.Ready.{is_carried_out, is_open_ready, is_ready};
ghost use Rattle.job_replies.specs.Told.{MayTell, Stands};

use crate::jobs::{reply_of_why, states_of, text_of};
use crate::laws::what_is_told_is_legal;
use crate::ready::label_of;
use answers::Reply;
use job_commands::{Commands, JobAsk, Row, Stage};
use job_deeds::job_states::{Job, State};
use job_deeds::lists::Bytes;
use job_manager::Manager;
use std::alloc::{AllocError, Global};

/// A reply, with the number of the landing that it has seen, if it has seen one.
#[derive(Drop)]
pub struct Told {
    pub reply: Reply,
    pub number: Option<u64>,
}

/// What a command is told that comes too late for a job in this state: that it has ended, or, where
/// it would change the urgency of one that runs, that it doesn't wait.
fn too_late(ask: &JobAsk, state: State) -> Reply
    ensures { result ≡ too_late ask.now state }
{
    match (ask, state) {
        (JobAsk::Urge { .. }, State::Run | State::Cleanup) => Reply::NotWaiting(state),
        _ => Reply::Ended,
    }
}

/// What a command is told of the job that its label names.
fn of_job(
    alloc: Global,
    manager: &Manager,
    now: u64,
    ask: &JobAsk,
    id: u64,
    job: &Job,
) -> Result<Reply, AllocError>
    requires ready { manager.now.spent ≡ false }
    ensures { IfOk result (λ reply. IsSaidOfJob manager.now now ask.now id job.now reply) }
{
    match ask {
        JobAsk::StateOf { .. } => Ok(Reply::StateIs(job.state)),
        JobAsk::Info { key, .. } => Ok(Reply::Info(text_of(alloc, manager, *key, id)?)),
        JobAsk::Why { .. } => Ok(reply_of_why(manager.book().why(id, now)?)),
        JobAsk::ResultOf { .. } => Ok(Reply::EndedWith { status: job.status }),
        _ => Ok(too_late(ask, job.state)),
    }
}

/// What a command about the job of a label is told.
fn of_label(
    alloc: Global,
    commands: &Commands,
    manager: &Manager,
    now: u64,
    ask: &JobAsk,
    label: &Bytes,
) -> Result<Reply, AllocError>
    requires ready { manager.now.spent ≡ false }
    ensures { IfOk result (IsSaidOf commands.now.labels manager.now now ask.now label.now) }
{
    let Some(id) = commands.job_of(label.as_slice()) else {
        return Ok(Reply::NoJob);
    };
    let Some(job) = manager.book().job(id) else {
        return Ok(Reply::NoJob);
    };
    of_job(alloc, manager, now, ask, id, job)
}

/// What a command is told that no landing has carried out.
fn tell_open(
    alloc: Global,
    commands: &Commands,
    manager: &Manager,
    now: u64,
    row: &Row,
) -> Result<Told, AllocError>
    requires ready { manager.now.spent ≡ false }
    requires can { is_open_ready commands.now.labels
        manager.now.book.jobs now row.now.issued row.now.ask
        ≡ true }
    ensures { IfOk result (λ told. IsToldOpen commands.now.labels manager.now now row.now.issued
        row.now.ask told.reply told.number) }
{
    // the book tells the jobs of the newest store
    manager.keeps();
    let last = Some(manager.core().heard_primary(0));
    let reply = match &row.ask {
        JobAsk::Advance { seconds } => {
            let second = row.issued + *seconds;
            return Ok(Told {
                reply: Reply::Advanced { second },
                number: None,
            });
        }
        JobAsk::Jobs => Reply::Jobs(states_of(alloc, manager.book())?),
        ask => match label_of(ask) {
            Some(label) => of_label(alloc, commands, manager, now, ask, label)?,
            None => unreachable!(),
        },
    };
    Ok(Told {
        reply,
        number: last,
    })
}

/// What a command is told that the landing of this number carried out.
fn tell_carried_out(commands: &Commands, row: &Row, number: u64) -> Told
    requires can { (core : CoreValue) × (is_carried_out commands.now.labels core row.now.rank number
        row.now.ask ≡ true) }
    ensures { IsToldLanded commands.now.labels row.now.ask number result.reply result.number }
{
    let reply = match &row.ask {
        JobAsk::Submit { label, .. } => match commands.job_of(label.as_slice()) {
            Some(id) => Reply::Submitted(id),
            None => unreachable!(),
        },
        _ => Reply::Raised,
    };
    Told {
        reply,
        number: Some(number),
    }
}

/// What an open command is told, at this second.
pub fn tell(
    alloc: Global,
    commands: &Commands,
    manager: &Manager,
    now: u64,
    row: &Row,
) -> Result<Told, AllocError>
    requires ready { manager.now.spent ≡ false }
    requires within { row.now.rank < manager.now.core.size }
    requires can { is_ready commands.now.labels manager.now now row.now ≡ true }
    ensures legal { IfOk result (λ told. (inst : Instance) (log : Log)
        → Stands commands.now manager.now now inst log → Contains commands.now.rows row.now
        → MayTell inst log row.now.by told.reply told.number) }
{
    what_is_told_is_legal();
    // the book tells the jobs of the newest store, which the log of the core leaves
    manager.keeps();
    manager.core().standing();
    match row.stage {
        Stage::Waits => tell_open(alloc, commands, manager, now, row),
        Stage::Landed { number } => Ok(tell_carried_out(commands, row, number)),
    }
}
