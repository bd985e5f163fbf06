//! What open commands wait for where nothing can go on.
ghost use Rattle.std.specs.Prelude.{◌≡◌};
ghost use Rattle.job_replies.specs.Ready.{state_in};
ghost use Rattle.job_service.specs.Still.{awaited_by, unless_over};

use job_book::Book;
use job_commands::{Commands, JobAsk, Row};
use job_deeds::job_states::State;
use job_deeds::lists::Bytes;

/// The state of the job that a label names, if it names one.
fn state_in(commands: &Commands, book: &Book, label: &Bytes) -> Option<State>
    ensures { result ≡ state_in commands.now.labels book.now.jobs label.now }
{
    let id = commands.job_of(label.as_slice())?;
    let job = book.job(id)?;
    Some(job.state)
}

/// The state of a job that isn't over.
fn unless_over(state: State) -> Option<State>
    ensures { result ≡ unless_over state }
{
    match state {
        State::Inactive => None,
        _ => Some(state),
    }
}

/// The state of the job whose result a command asks for, where that isn't over, or that it watches.
pub fn awaited(commands: &Commands, book: &Book, row: &Row) -> Option<State>
    ensures { result ≡ awaited_by commands.now.labels book.now.jobs row.now.ask }
{
    match &row.ask {
        JobAsk::ResultOf { label } => unless_over(state_in(commands, book, label)?),
        JobAsk::Watch { label } => state_in(commands, book, label),
        _ => None,
    }
}
