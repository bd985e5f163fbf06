//! Which submission is due, and what it posts (Flux RFC 19 and 21).
ghost use Rattle.std.specs.Prelude.{◌≡◌, ◌<◌, ◌≤◌, ◌*◌, ◌-◌, ◌^◌, ℕ, List, Contains, IfNone, IfOk, IfSome, length};
ghost use Rattle.fluid_ids.specs.Ids.{id_of as fluid_of};
ghost use Rattle.job_commands.specs.Agrees.{AreDrawn};
ghost use Rattle.job_commands.specs.Rows.{AreMarkedBy};
ghost use Rattle.job_commands.specs.declared.row.Row.{Row as Open};
ghost use Rattle.job_manager.specs.Posts.{told};
ghost use Rattle.job_spec.specs.declared.spec.Depend.{Depend as Need};
ghost use Rattle.job_spec.specs.declared.spec.JobSpec.{JobSpec as Spec};
ghost use Rattle.job_submissions.specs.Made.{IsAccepted, IsBuilt, IsMade, IsMadeOf, MakesNone};

use crate::depends::{are_known, named_needs};
use crate::events::submit_event;
use crate::faults::read;
use job_book::Book;
use job_commands::{Commands, JobAsk, NamedList, Row, Stage};
use job_manager::Submission;
use job_spec::{JobSpec, Needs};
use job_texts::needs_of;
use lists::{Bytes, Copied};
use manager_rules::{Limits, verdict};
use std::alloc::{AllocError, Global};

/// The id of a millisecond since an instance's birth, a rank and a sequence number (RFC 19).
fn id_of(millis: u64, rank: u32, sequence: u64) -> u64
    requires millis { millis < 2 ^ 40 }
    requires rank { rank < 2 ^ 14 }
    requires sequence { sequence < 2 ^ 10 }
    ensures { result ≡ fluid_of millis rank sequence }
{
    (millis * 16384 + u64::from(rank)) * 1024 + sequence
}

/// An accepted jobspec, and the dependencies of its command.
#[derive(Drop)]
struct Accepted {
    spec: JobSpec,
    needs: Needs,
}

/// The jobspec that a text tells with the dependencies on the jobs of labels, where it is accepted,
/// no limit turns it away, and all its dependencies are on jobs of the book.
fn take_up(
    alloc: Global,
    commands: &Commands,
    book: &Book,
    limits: Limits,
    named: &NamedList,
    text: &Bytes,
) -> Result<Option<Accepted>, AllocError>
    ensures some { IfOk result (λ found. IfSome found (λ a. IsAccepted limits commands.now.labels
        book.now.jobs named.now text.now a.spec a.needs)) }
    ensures none { IfOk result (λ found. IfNone found ((spec : Spec) (needs : List Need)
        → IsAccepted limits commands.now.labels book.now.jobs named.now text.now spec needs → ⊥)) }
{
    let Ok(spec) = read(alloc, text.as_slice())? else {
        return Ok(None);
    };
    if verdict(limits, &spec) != 0 {
        return Ok(None);
    }
    if !are_known(book, spec.depends.as_slice()) {
        return Ok(None);
    }
    let Some(needs) = named_needs(alloc, commands, named.as_slice())? else {
        return Ok(None);
    };
    if !are_known(book, needs.as_slice()) {
        return Ok(None);
    }
    Ok(Some(Accepted { spec, needs }))
}

/// What is submitted by a command that waits, with the urgency and the text that it asks for. The
/// id is that of the second of its issue.
fn make(
    alloc: Global,
    now: u64,
    birth: u64,
    row: &Row,
    urgency: u32,
    text: Bytes,
    taken: Accepted,
) -> Result<Submission, AllocError>
    requires order { birth ≤ row.now.issued }
    requires early { row.now.issued ≤ now }
    requires soon { 1000 * (row.now.issued - birth) < 2 ^ 40 }
    requires rank { row.now.rank < 2 ^ 14 }
    requires sequence { row.now.sequence < 2 ^ 10 }
    ensures { IfOk result (λ x. IsBuilt now birth row.now urgency taken.needs text taken.spec
        (told x)) }
{
    let Accepted { spec, needs } = taken;
    let event = submit_event(alloc, now, row.by.actor, urgency, needs.as_slice())?;
    let all = needs_of(alloc, &spec, &event)?;
    Ok(Submission {
        id: id_of(1000 * (row.issued - birth), row.rank, row.sequence),
        text,
        spec,
        event,
        needs: all,
        command: row.by,
    })
}

/// What a command submits, if it waits and what it asks for is accepted.
fn of_row(
    alloc: Global,
    commands: &Commands,
    book: &Book,
    limits: Limits,
    now: u64,
    birth: u64,
    row: &Row,
) -> Result<Option<Submission>, AllocError>
    requires soon { 1000 * (now - birth) < 2 ^ 40 }
    requires drawn { AreDrawn commands.now birth }
    requires marked { AreMarkedBy commands.now now }
    requires short { length commands.now.issued ≤ 2 ^ 14 }
    requires stands { Contains commands.now.rows row.now }
    ensures some { IfOk result (λ found. IfSome found (λ x. IsMadeOf limits commands.now.labels
        book.now.jobs now birth row.now (told x))) }
    ensures none { IfOk result (λ found. IfNone found
        (MakesNone limits commands.now.labels book.now.jobs row.now)) }
{
    let (
        Stage::Waits,
        JobAsk::Submit {
            urgency,
            needs,
            text,
            ..
        },
    ) = (row.stage, &row.ask)
    else {
        return Ok(None);
    };
    let Some(taken) = take_up(alloc, commands, book, limits, needs, text)? else {
        return Ok(None);
    };
    let x = make(alloc, now, birth, row, *urgency, text.copy()?, taken)?;
    Ok(Some(x))
}

/// The first submission that is due at this second, of an instance that was born at another: of the
/// commands that wait in their order, the first whose jobspec is accepted, which no limit turns
/// away, and whose dependencies are all on jobs of the book.
pub fn submission(
    alloc: Global,
    commands: &Commands,
    book: &Book,
    limits: Limits,
    now: u64,
    birth: u64,
) -> Result<Option<Submission>, AllocError>
    requires soon { 1000 * (now - birth) < 2 ^ 40 }
    requires drawn { AreDrawn commands.now birth }
    requires marked { AreMarkedBy commands.now now }
    requires short { length commands.now.issued ≤ 2 ^ 14 }
    ensures some { IfOk result (λ found. IfSome found (λ x.
        IsMade limits commands.now book.now.jobs now birth (told x))) }
    ensures none { IfOk result (λ found. IfNone found
        ((row : Open) → Contains commands.now.rows row
        → MakesNone limits commands.now.labels book.now.jobs row)) }
{
    for row in commands.rows() {
        if let Some(x) = of_row(alloc, commands, book, limits, now, birth, row)? {
            return Ok(Some(x));
        }
    }
    Ok(None)
}
