//! What a transaction of the job manager tells.
ghost use Rattle.std.specs.Prelude.{◌≡◌, ◌<◌, ◌^◌, ◌++◌, ◌∷◌, [], ℕ, List, Some, IfOk, OnOk};
ghost use Rattle.std.specs.Result.{result_ok};
ghost use Rattle.fluid_ids.specs.Texts.{meaning};
ghost use Rattle.manager_rules.specs.Jobs.{StoredJob};
ghost use Rattle.manager_rules.specs.Keys.{job_path};
ghost use Rattle.manager_rules.specs.Posts.{Post, jobs_after, ops_of};
ghost use Rattle.run_picture.specs.Follows.{KeepGroup, KeepGroups};
ghost use Rattle.run_picture.specs.Rows.{AreRowsOf, IsReadable};

use crate::drawing::PictureFault;
use crate::jobs::{JobRow, add_line, begin_job};
use crate::labels::{Labels, label_of};
use kvs_txn::{Author, Group, Op};
use lists::Bytes;
use std::alloc::{AllocError, Global};

/// The id whose four groups of hexadecimal digits these are.
fn id_of(
    alloc: Global,
    first: &Bytes,
    second: &Bytes,
    third: &Bytes,
    last: &Bytes,
) -> Result<Option<u64>, AllocError>
    ensures { IfOk result (λ id. id ≡ result_ok (meaning (first.now
        ++ (46 ∷ (second.now ++ (46 ∷ (third.now ++ (46 ∷ last.now)))))))) }
{
    let mut text = Bytes::new(alloc);
    text.add(first.as_slice())?;
    text.push(b'.')?;
    text.add(second.as_slice())?;
    text.push(b'.')?;
    text.add(third.as_slice())?;
    text.push(b'.')?;
    text.add(last.as_slice())?;
    Ok(fluid_ids::read(text.as_slice()).ok())
}

/// The job in whose directory a key stands.
fn job_at(alloc: Global, path: &[Bytes]) -> Result<Option<u64>, AllocError>
    ensures { IfOk result (λ found. (id : ℕ) (key : List ℕ) → id < 2 ^ 64
        → path.now ≡ job_path id ++ key ∷ [] → found ≡ Some id) }
{
    fluid_ids::printed_ids_are_read_again();
    match path {
        [_, first, second, third, last, _] => id_of(alloc, first, second, third, last),
        _ => Ok(None),
    }
}

/// The same, where there is one.
fn job_of(alloc: Global, path: &[Bytes]) -> Result<u64, PictureFault>
    ensures { IfOk result (λ found. (id : ℕ) (key : List ℕ) → id < 2 ^ 64
        → path.now ≡ job_path id ++ key ∷ [] → found ≡ id) }
{
    match job_at(alloc, path)? {
        Some(id) => Ok(id),
        None => Err(PictureFault::Unread),
    }
}

/// Lets the jobs be what the operations of a transaction of the manager's make of them: a job
/// begins, or an event is added to a job's log, and resources may be put beside it.
fn land(alloc: Global, rows: &mut Vec<JobRow>, label: Bytes, ops: &[Op]) -> Result<(), PictureFault>
    ensures { OnOk result ((post : Post) (jobs : List StoredJob) → ops.now ≡ ops_of post
        → IsReadable post jobs → AreRowsOf rows.old.items jobs
        → AreRowsOf rows.new.items (jobs_after post jobs)) }
{
    match ops {
        [Op::Put { .. }, Op::Put { path, bytes }] => {
            let id = job_of(alloc, path.as_slice())?;
            begin_job(alloc, rows, id, label, bytes)
        }
        [Op::Append { path, bytes }] => {
            let id = job_of(alloc, path.as_slice())?;
            add_line(alloc, rows, id, bytes, None)
        }
        [Op::Append { path, bytes }, Op::Put { bytes: r, .. }] => {
            let id = job_of(alloc, path.as_slice())?;
            add_line(alloc, rows, id, bytes, Some(r))
        }
        _ => Err(PictureFault::Unread),
    }
}

/// Lets the jobs be what a transaction that has landed in `primary` makes of them: only the
/// manager's do something.
fn land_group(
    alloc: Global,
    rows: &mut Vec<JobRow>,
    labels: &Labels,
    group: &Group,
) -> Result<(), PictureFault>
    ensures { OnOk result (KeepGroup rows.old.items group.now rows.new.items) }
{
    match group.txn.author {
        Author::User(_) => Ok(()),
        Author::Manager => {
            let label = label_of(alloc, labels, group.authors.as_slice().first())?;
            land(alloc, rows, label, group.txn.ops.as_slice())
        }
    }
}

/// The same of the transactions of a landing.
pub fn land_all(
    alloc: Global,
    rows: &mut Vec<JobRow>,
    labels: &Labels,
    groups: &[Group],
) -> Result<(), PictureFault>
    ensures { OnOk result (KeepGroups rows.old.items groups.now rows.new.items) }
{
    for group in groups {
        land_group(alloc, rows, labels, group)?;
    }
    Ok(())
}
