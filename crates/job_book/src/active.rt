//! The jobs that aren't over, by their ids.
ghost use Rattle.std.specs.Prelude.{◌≡◌, ◌==◌, ◌<◌, ◌⊎◌, List, All, Contains, filter, find, length, not, option_map, slice_index_or};
ghost use Rattle.std.specs.List.{HoldsAt};
ghost use Rattle.std.specs.List.Sorted.{IsStrictlyIncreasing};
ghost use Rattle.std.specs.Vec.{vec_capacity};
ghost use Rattle.job_deeds.specs.manager_rules.Jobs.{StoredJob, ids_of};
ghost use Rattle.job_deeds.specs.manager_rules.Posts.{with_job};
ghost use Rattle.job_book.specs.Active.{AreActive, IsEntryOf, active_of, follow_with, ids_in, is_to_bear as is_to_bear_child, with_entry};

use crate::seconds::{has_child, is_parent};
use crate::waking::wake_of;
use job_deeds::manager_rules::Asked;
use job_deeds::{Row, place_in};

/// What is kept of a job that isn't over, beside its row.
#[derive(Clone, Copy, Debug, PartialEq, Eq)]
pub struct Active {
    pub id: u64,
    /// Before this second nothing is due for the job, unless a command or a child is its.
    pub wake: u64,
    /// Whether it runs a child's command.
    pub parent: bool,
}

/// What is kept of a job.
pub fn entry_of(row: &Row) -> Active
    ensures named { result.id ≡ row.now.id }
    ensures entry { IsEntryOf row.now result }
{
    Active {
        id: row.id,
        wake: wake_of(&row.job, &row.spec, row.start, &row.r),
        parent: is_parent(row),
    }
}

/// Adds a job that is just submitted.
pub fn enter(active: &mut Vec<Active>, entry: Active)
    requires rising { IsStrictlyIncreasing (ids_in active.old.items) }
    requires room { length active.old.items < vec_capacity active.old }
    ensures ids { (jobs : List StoredJob) (j : StoredJob)
        → ids_in active.old.items ≡ ids_of jobs → j.id ≡ entry.id
        → ids_in active.new.items ≡ ids_of (with_job j jobs) }
    ensures from { All (λ a. (a ≡ entry) ⊎ Contains active.old.items a) active.new.items }
{
    let at = active.partition_point(|other| other.id < entry.id);
    if active.insert(at, entry).is_err() {
        unreachable!();
    }
}

/// Takes a job out.
fn take_out(active: &mut Vec<Active>, id: u64)
    ensures { active.new.items ≡ filter (λ other. not (other.id == id)) active.old.items }
{
    active.retain(|other| other.id != id);
}

/// Puts another entry in the place of a job's.
fn exchange(active: &mut Vec<Active>, entry: Active)
    requires { IsStrictlyIncreasing (ids_in active.old.items) }
    ensures { active.new.items ≡ with_entry entry active.old.items }
{
    let at = active.partition_point(|other| other.id < entry.id);
    if at < active.len() && active[at].id == entry.id {
        active[at] = entry;
    }
}

/// An event of a job has landed: it is over, or has this entry.
pub fn follow(active: &mut Vec<Active>, entry: Active, over: bool)
    requires { IsStrictlyIncreasing (ids_in active.old.items) }
    ensures { active.new.items ≡ follow_with entry over active.old.items }
{
    if over {
        take_out(active, entry.id);
    } else {
        exchange(active, entry);
    }
}

/// Whether a child of the job is to be born: it runs a child's command, and has had none.
fn is_to_bear(entry: &Active, asked: &[Asked]) -> bool
    ensures { result ≡ is_to_bear_child asked.now entry.now }
{
    entry.parent && !has_child(asked, entry.id)
}

/// The first job whose child is to be born.
pub fn first_bearing(active: &[Active], asked: &[Asked]) -> Option<u64>
    ensures { result ≡ option_map (λ a. a.id) (find (is_to_bear_child asked.now) active.now) }
{
    let entry = active.iter().find(|entry| is_to_bear(entry, asked))?;
    Some(entry.id)
}

/// Where a job of the list stands, which may be here.
fn place_near(rows: &[Row], near: usize, id: u64) -> usize
    requires rising { IsStrictlyIncreasing (ids_of rows.now) }
    requires known { Contains (ids_of rows.now) id }
    ensures within { result < length rows.now }
    ensures named { HoldsAt (λ j. j.id ≡ id) rows.now result }
{
    match rows.get(near) {
        Some(row) if row.id == id => near,
        _ => place_in(rows, id),
    }
}

/// Where the job stands whose id is at a place of those that aren't over. It may be at `near`.
pub fn place_of_active(rows: &[Row], active: &[Active], index: usize, near: usize) -> usize
    requires rising { IsStrictlyIncreasing (ids_of rows.now) }
    requires active { AreActive rows.now active.now }
    requires within { index < length active.now }
    ensures within { result < length rows.now }
    ensures job { (d : StoredJob) → slice_index_or rows.now result d
        ≡ slice_index_or (active_of rows.now) index d }
{
    place_near(rows, near, active[index].id)
}
