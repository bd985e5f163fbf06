//! Why a submission is refused.
ghost use Rattle.std.specs.Prelude.{◌≡◌, IfOk};
ghost use Rattle.job_submissions.specs.Faults.{IsReadAs, IsVerdict, Lacks};

use crate::depends::{are_known, named_needs};
use job_book::Book;
use job_commands::{Commands, NamedList};
use job_spec::JobSpec;
use lists::Bytes;
use manager_rules::{Limits, verdict};
use std::alloc::{AllocError, Global};

/// Why a submission is refused.
#[derive(Clone, Copy, Debug, PartialEq, Eq)]
pub enum Fault {
    /// The number of its jobspec's fault, from 1 to 7.
    BadSpec(u32),
    /// It asks for more than a limit allows, which has this reason, from 1 to 99.
    Checked(u32),
    /// A dependency is on no job.
    NoJob,
}

/// The jobspec that a text tells, or the number of its fault.
pub(crate) fn read(alloc: Global, text: &[u8]) -> Result<Result<JobSpec, u32>, AllocError>
    ensures { IfOk result (IsReadAs text.now) }
{
    match job_spec::read(alloc, text) {
        Ok(spec) => Ok(Ok(spec)),
        Err(fault) => match fault.number() {
            Some(number) => Ok(Err(number)),
            None => Err(AllocError),
        },
    }
}

/// Whether a dependency of an accepted jobspec, or one of its command, is on no job of the book.
fn lacks_job(
    alloc: Global,
    commands: &Commands,
    book: &Book,
    spec: &JobSpec,
    named: &NamedList,
) -> Result<bool, AllocError>
    ensures { IfOk result (Lacks commands.now.labels book.now.jobs spec.now.depends named.now) }
{
    if !are_known(book, spec.depends.as_slice()) {
        return Ok(true);
    }
    match named_needs(alloc, commands, named.as_slice())? {
        Some(needs) => Ok(!are_known(book, needs.as_slice())),
        None => Ok(true),
    }
}

/// Why a submission with these dependencies and this text is refused, if it is: its text tells no
/// jobspec, a limit turns it away, or a dependency is on no job of the book, one of the jobspec or
/// one on the job of a label.
pub fn fault_of(
    alloc: Global,
    commands: &Commands,
    book: &Book,
    limits: Limits,
    named: &NamedList,
    text: &Bytes,
) -> Result<Option<Fault>, AllocError>
    ensures { IfOk result (IsVerdict limits commands.now book.now.jobs named.now text.now) }
{
    match read(alloc, text.as_slice())? {
        Ok(spec) => {
            let reason = verdict(limits, &spec);
            if reason != 0 {
                return Ok(Some(Fault::Checked(reason)));
            }
            if lacks_job(alloc, commands, book, &spec, named)? {
                return Ok(Some(Fault::NoJob));
            }
            Ok(None)
        }
        Err(number) => Ok(Some(Fault::BadSpec(number))),
    }
}
