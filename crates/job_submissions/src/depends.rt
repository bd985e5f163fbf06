//! The dependencies of a submission.
ghost use Rattle.std.specs.Prelude.{◌≡◌, IfOk};
ghost use Rattle.std.specs.List.{list_all};
ghost use Rattle.job_commands.specs.Desks.{needs_of};
ghost use Rattle.job_submissions.specs.Faults.{is_on_job};

use job_book::Book;
use job_commands::{Commands, Named};
use job_spec::{Depend, Needs};
use std::alloc::{AllocError, Global};

/// Whether a dependency is on a job of the book.
fn is_known(book: &Book, need: &Depend) -> bool
    ensures { result ≡ is_on_job book.now.jobs need.now }
{
    book.job(need.on).is_some()
}

/// Whether all dependencies are on jobs of the book.
pub fn are_known(book: &Book, needs: &[Depend]) -> bool
    ensures { result ≡ list_all (is_on_job book.now.jobs) needs.now }
{
    needs.iter().all(|need| is_known(book, need))
}

/// The dependencies on the jobs that labels name, if each names one.
pub fn named_needs(
    alloc: Global,
    commands: &Commands,
    named: &[Named],
) -> Result<Option<Needs>, AllocError>
    ensures { IfOk result (λ needs. needs ≡ needs_of commands.now.labels named.now) }
{
    let mut needs = Needs::new(alloc);
    for one in named {
        let Some(on) = commands.job_of(one.label.as_slice()) else {
            return Ok(None);
        };
        needs.push(Depend {
            scheme: one.scheme,
            on,
        })?;
    }
    Ok(Some(needs))
}
