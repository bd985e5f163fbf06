//! The summary of a run: how often each first word stands among its answers, how often `primary` of
//! the top instance landed, and the reference of the root that its last landing left.
#![tactic(auto)]

ghost use Rattle.std.specs.Prelude.{◌≡◌, ◌++◌, IfOk, None, OnOk};
ghost use Rattle.answers.specs.Chronicle.{Setup};
ghost use Rattle.answers.specs.Text.{answers_text};
ghost use Rattle.summaries.specs.Summary.{last_lines, IsSummary, IsTopLegal};

mod counts;
mod landings;
mod roots;

use answers::Chronicle;
use counts::{add_number, add_rows, first_words, tally};
use fl_digest::{BlobRef, Hash};
use landings::landings;
use lists::Bytes;
use roots::root_after;
use std::alloc::{AllocError, Global};

/// Adds the lines of the landings of `primary` and of its last root.
fn add_last_lines(
    alloc: Global,
    text: &mut Bytes,
    landings: usize,
    root: &BlobRef,
) -> Result<(), AllocError>
    ensures { OnOk result (text.new ≡ text.old ++ last_lines landings root.now) }
{
    text.add(b"landings ")?;
    add_number(text, landings as u64)?;
    text.add(b"\nroot ")?;
    text.add(root.print(alloc)?.as_slice())?;
    text.push(b'\n')
}

/// The summary of a run whose first store had this grant, which named its content by this hash, and
/// whose answers print as this text: one line for each first word of them, in byte order, with how
/// often it occurs; then the number of landings of `primary`, and the reference of its last root.
///
/// Two contents of one reference, which only a collision of the hash could make, are told as want
/// of memory.
pub fn summary(
    alloc: Global,
    grant: &Bytes,
    hash: Hash,
    answers: &[u8],
    chronicle: &Chronicle,
) -> Result<Vec<u8>, AllocError>
    requires { (set : Setup) × (set.base ≡ None) × (set.grant ≡ grant.now)
        × IsTopLegal set chronicle.now }
    ensures { (set : Setup) → set.base ≡ None → set.grant ≡ grant.now → set.hash ≡ hash
        → IsTopLegal set chronicle.now → answers.now ≡ answers_text set.work chronicle.now
        → IfOk result (λ text. IsSummary set chronicle.now text.items) }
{
    let landings = landings(alloc, chronicle)?;
    let root = root_after(alloc, hash, grant, &landings)?;
    let rows = tally(alloc, &first_words(alloc, answers)?)?;
    let mut text = Bytes::new(alloc);
    add_rows(&mut text, &rows)?;
    add_last_lines(alloc, &mut text, landings.len(), &root)?;
    Ok(text.into_vec())
}
