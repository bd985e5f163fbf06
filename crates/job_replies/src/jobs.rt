//! What is told of jobs.
ghost use Rattle.std.specs.Prelude.{◌≡◌, false, IfOk};
ghost use Rattle.job_replies.specs.Jobs.{IsTextAt, key_by, reply_of_why, states_of};

use answers::{JobState, JobStates, Reply};
use job_book::Book;
use job_commands::Key;
use job_deeds::kvs_txn::{Found, Path};
use job_deeds::lists::Bytes;
use job_deeds::manager_rules::Why;
use job_manager::{Manager, log_path, r_path, spec_path};
use std::alloc::{AllocError, Global};

/// What is said of why a job doesn't run, as a reply.
pub fn reply_of_why(why: Why) -> Reply
    ensures { result ≡ reply_of_why why }
{
    match why {
        Why::Busy(ids) => Reply::Busy(ids),
        Why::Behind(head) => Reply::Behind(head),
        Why::Held => Reply::Held,
        Why::Ready => Reply::Ready,
        Why::NotWaiting(state) => Reply::NotWaiting(state),
        Why::NoJob => Reply::NoJob,
    }
}

/// The jobs of a book with their states, by id.
pub fn states_of(alloc: Global, book: &Book) -> Result<JobStates, AllocError>
    ensures { IfOk result (λ list. list ≡ states_of book.now.jobs) }
{
    // ids rise, so that each is found as its job's
    book.keeps();
    let ids = book.ids()?;
    let mut list = JobStates::new(alloc);
    for id in ids.as_slice() {
        match book.job(*id) {
            Some(job) => list.push(JobState {
                id: *id,
                state: job.state,
            })?,
            None => unreachable!(),
        }
    }
    Ok(list)
}

/// Where a store keeps this of a job.
fn path_of(alloc: Global, key: Key, id: u64) -> Result<Path, AllocError>
    ensures { IfOk result (λ path. path ≡ key_by key id) }
{
    match key {
        Key::Jobspec => spec_path(alloc, id),
        Key::R => r_path(alloc, id),
        Key::Eventlog => log_path(alloc, id),
    }
}

/// What the newest store of `primary` has under a key of a job.
pub fn text_of(
    alloc: Global,
    manager: &Manager,
    key: Key,
    id: u64,
) -> Result<Option<Bytes>, AllocError>
    requires { manager.now.spent ≡ false }
    ensures { IfOk result (λ text. IsTextAt manager.now key id text) }
{
    // no link stands below `job`, and the newest store is the core's
    manager.keeps();
    manager.core().standing();
    let path = path_of(alloc, key, id)?;
    match manager.core().newest(&path)? {
        Found::Value(text) => Ok(Some(text)),
        _ => Ok(None),
    }
}
