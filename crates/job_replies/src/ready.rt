//! Which open job commands can be told what became of them.
ghost use Rattle.std.specs.Prelude.{◌≡◌, false, option_map};
ghost use Rattle.job_replies.specs.Ready.{fits, is_carried_out, is_open_ready, is_ready, label_of, state_in};

use job_book::Book;
use job_commands::{Commands, JobAsk, Row, Stage};
use job_deeds::job_states::State;
use job_deeds::lists::Bytes;
use job_manager::Manager;

/// The label that a command names, of those that are about one job.
pub fn label_of(ask: &JobAsk) -> Option<&Bytes>
    ensures { option_map (λ label. label.now) result ≡ label_of ask.now }
{
    match ask {
        JobAsk::Cancel { label }
        | JobAsk::Raise { label, .. }
        | JobAsk::Urge { label, .. }
        | JobAsk::StateOf { label }
        | JobAsk::Info { label, .. }
        | JobAsk::Why { label }
        | JobAsk::ResultOf { label }
        | JobAsk::Watch { label } => Some(label),
        JobAsk::Submit { .. } | JobAsk::Jobs | JobAsk::Advance { .. } => None,
    }
}

/// The state of the job that a label names, if it names one.
fn state_in(commands: &Commands, book: &Book, label: &Bytes) -> Option<State>
    ensures { result ≡ state_in commands.now.labels book.now.jobs label.now }
{
    let id = commands.job_of(label.as_slice())?;
    let job = book.job(id)?;
    Some(job.state)
}

/// Whether a job in this state answers the command: it comes too late, or asks nothing of the job's
/// future.
fn fits(ask: &JobAsk, state: State) -> bool
    ensures { result ≡ fits ask.now state }
{
    match ask {
        JobAsk::Cancel { .. } => matches!(state, State::Cleanup | State::Inactive),
        JobAsk::Raise { severity, .. } => match state {
            State::Inactive => true,
            State::Cleanup => *severity == 0,
            _ => false,
        },
        JobAsk::Urge { .. } => matches!(state, State::Run | State::Cleanup | State::Inactive),
        JobAsk::ResultOf { .. } => matches!(state, State::Inactive),
        JobAsk::StateOf { .. } | JobAsk::Info { .. } | JobAsk::Why { .. } => true,
        JobAsk::Submit { .. } | JobAsk::Jobs | JobAsk::Watch { .. } | JobAsk::Advance { .. } => {
            false
        }
    }
}

/// Whether a command that no landing has carried out can be told.
fn is_open_ready(commands: &Commands, book: &Book, now: u64, row: &Row) -> bool
    ensures { result
        ≡ is_open_ready commands.now.labels book.now.jobs now row.now.issued row.now.ask }
{
    match &row.ask {
        JobAsk::Submit { .. } => false,
        JobAsk::Jobs => true,
        JobAsk::Advance { seconds } => row.issued <= now && *seconds <= now - row.issued,
        ask => match label_of(ask) {
            Some(label) => match state_in(commands, book, label) {
                Some(state) => fits(ask, state),
                None => true,
            },
            None => false,
        },
    }
}

/// Whether a command that the landing of this number carried out can be told: a submission where
/// its broker has heard the landing.
fn is_carried_out(commands: &Commands, manager: &Manager, row: &Row, number: u64) -> bool
    requires { manager.now.spent ≡ false }
    ensures { result
        ≡ is_carried_out commands.now.labels manager.now.core row.now.rank number row.now.ask }
{
    match &row.ask {
        JobAsk::Submit { label, .. } => {
            // the book tells the jobs of the newest store
            manager.keeps();
            commands.job_of(label.as_slice()).is_some()
                && number <= manager.core().heard_primary(row.rank)
        }
        JobAsk::Cancel { .. } | JobAsk::Raise { .. } | JobAsk::Urge { .. } => true,
        _ => false,
    }
}

/// Whether an open command can be told what became of it, at this second. This takes no memory.
pub fn is_ready(commands: &Commands, manager: &Manager, now: u64, row: &Row) -> bool
    requires { manager.now.spent ≡ false }
    ensures { result ≡ is_ready commands.now.labels manager.now now row.now }
{
    match row.stage {
        Stage::Waits => is_open_ready(commands, manager.book(), now, row),
        Stage::Landed { number } => is_carried_out(commands, manager, row, number),
    }
}
