//! The commands on contents, each of the text behind its verb.
ghost use Rattle.std.specs.Prelude.{◌≡◌, true, false, IfNone, IfSome};
ghost use Rattle.outcomes.specs.Outcomes.{Reads, first_of};
ghost use Rattle.workload_reader.specs.References.{is_reference, reference_of};
ghost use Rattle.workload_reader.specs.Verbs.{faults_of, said, lasting};

use crate::faults::LineFault;
use crate::verbs::{Verb, value};
use fl_digest::BlobRef;
use std::alloc::Global;
use workload::words::cut;
use workload::work::{Command, Workload};

/// The reference that a word is, if it is one's (Flux RFC 10).
fn reference(word: &str) -> Option<BlobRef>
    ensures some { IfSome result (λ r. (is_reference word.now ≡ true)
        × (r ≡ reference_of word.now)) }
    ensures none { IfNone result (is_reference word.now ≡ false) }
{
    BlobRef::read(word.as_bytes()).ok()
}

/// The command `content-store TEXT`.
pub fn content_store(
    alloc: Global,
    work: &Workload,
    line: u64,
    tail: &str,
) -> Result<Command, LineFault>
    ensures { Reads lasting
        (first_of (faults_of line (said work.now Verb.ContentStore tail.now)))
        (λ c. c ≡ (said work.now Verb.ContentStore tail.now).command)
        result }
{
    let bytes = value(alloc, line, tail)?;
    Ok(Command::ContentStore { bytes })
}

/// The command `content-load REF`.
pub fn content_load(work: &Workload, line: u64, tail: &str) -> Result<Command, LineFault>
    ensures { Reads lasting
        (first_of (faults_of line (said work.now Verb.ContentLoad tail.now)))
        (λ c. c ≡ (said work.now Verb.ContentLoad tail.now).command)
        result }
{
    let (word, rest) = cut(tail);
    let (more, _) = cut(rest);
    let Some(reference) = reference(word) else {
        return Err(LineFault::BadCommand { line });
    };
    if !more.is_empty() {
        return Err(LineFault::BadCommand { line });
    }
    Ok(Command::ContentLoad { reference })
}

/// The command `content-flush`, behind which no word stands.
pub fn content_flush(work: &Workload, line: u64, tail: &str) -> Result<Command, LineFault>
    ensures { Reads lasting
        (first_of (faults_of line (said work.now Verb.ContentFlush tail.now)))
        (λ c. c ≡ (said work.now Verb.ContentFlush tail.now).command)
        result }
{
    let (word, _) = cut(tail);
    if !word.is_empty() {
        return Err(LineFault::BadCommand { line });
    }
    Ok(Command::ContentFlush)
}

/// The command `content-drop`, behind which no word stands.
pub fn content_drop(work: &Workload, line: u64, tail: &str) -> Result<Command, LineFault>
    ensures { Reads lasting
        (first_of (faults_of line (said work.now Verb.ContentDrop tail.now)))
        (λ c. c ≡ (said work.now Verb.ContentDrop tail.now).command)
        result }
{
    let (word, _) = cut(tail);
    if !word.is_empty() {
        return Err(LineFault::BadCommand { line });
    }
    Ok(Command::ContentDrop)
}
