//! Submissions that are refused at their issue.
ghost use Rattle.std.specs.Prelude.{◌≡◌, ◌++◌, Some, IfOk, OnOk, filter, not, option_map};
ghost use Rattle.answers.specs.Jobs.{job_reply_of};
ghost use Rattle.job_service.specs.Refusals.{IsFaultOf, fault_for, is_refusal_of, refusals_of, reply_to, row_in};
ghost use Rattle.job_commands.specs.Rows.{is_of};
ghost use Rattle.job_service.specs.Replies.{asks_manager, is_undone};
ghost use Rattle.std.specs.Option.{option_copied};

use answers::Reply;
use job_book::Book;
use job_commands::{Commands, JobAsk, Row, Stage};
use job_deeds::kvs_txn::By;
use job_deeds::manager_rules::Limits;
use job_submissions::{Fault, fault_of};
use std::alloc::{AllocError, Global};

/// A submission that was refused at its issue, and why.
#[derive(Clone, Copy, Debug, PartialEq, Eq)]
pub struct Refused {
    pub by: By,
    pub fault: Fault,
}

/// Whether this is of a command.
fn is_of(refused: &Refused, by: By) -> bool
    ensures { result ≡ is_refusal_of by refused.now }
{
    by.actor == refused.by.actor && by.command == refused.by.command
}

/// Why a command was refused, if it was.
pub fn refusal_of(list: &[Refused], by: By) -> Option<Fault>
    ensures { result ≡ fault_for list.now by }
{
    let refused = list.iter().find(|refused| is_of(refused, by))?;
    Some(refused.fault)
}

/// Takes the refusals of a command out.
pub fn forget(list: &mut Vec<Refused>, by: By)
    ensures { list.new.items ≡ filter (λ r. not (is_refusal_of by r)) list.old.items }
{
    list.retain(|refused| !is_of(refused, by));
}

/// Adds the refusal of a command, if it is refused.
pub fn remember(list: &mut Vec<Refused>, by: By, fault: Option<Fault>) -> Result<(), AllocError>
    ensures { OnOk result (list.new.items ≡ list.old.items ++ refusals_of by fault) }
{
    match fault {
        Some(fault) => {
            list.push(Refused { by, fault })?;
            Ok(())
        }
        None => Ok(()),
    }
}

/// Why a command is refused at its issue, if it is: a submission whose text tells no jobspec, that
/// a limit turns away, or with a dependency on no job.
pub fn fault_in(
    alloc: Global,
    commands: &Commands,
    book: &Book,
    limits: Limits,
    ask: &JobAsk,
) -> Result<Option<Fault>, AllocError>
    ensures { IfOk result (IsFaultOf limits commands.now book.now.jobs ask.now) }
{
    match ask {
        JobAsk::Submit { needs, text, .. } => {
            fault_of(alloc, commands, book, limits, needs, text)
        },
        _ => Ok(None),
    }
}

/// What a refused submission is told.
pub fn reply_of(fault: Fault) -> Reply
    ensures { job_reply_of result ≡ Some (reply_to fault) }
{
    match fault {
        Fault::BadSpec(number) => Reply::BadSpec(number),
        Fault::Checked(reason) => Reply::Checked(reason),
        Fault::NoJob => Reply::NoJob,
    }
}

/// Whether a post carries out commands that ask so: for a job or for an event.
fn asks_manager(ask: &JobAsk) -> bool
    ensures { result ≡ asks_manager ask.now }
{
    matches!(
        ask,
        JobAsk::Submit { .. } | JobAsk::Cancel { .. } | JobAsk::Raise { .. } | JobAsk::Urge { .. }
    )
}

/// Whether a command waits for a post to carry it out.
pub fn is_undone(row: &Row) -> bool
    ensures { result ≡ is_undone row.now }
{
    matches!(row.stage, Stage::Waits) && asks_manager(&row.ask)
}

/// Whether a row is of a command.
fn is_row_of(row: &Row, by: By) -> bool
    ensures { result ≡ is_of by row.now }
{
    by.actor == row.by.actor && by.command == row.by.command
}

/// The row of an open command.
pub fn row_of(commands: &Commands, by: By) -> Option<&Row>
    ensures { option_copied result ≡ row_in commands.now by }
{
    commands.rows().iter().find(|row| is_row_of(row, by))
}
