//! The open dependencies by the job that is waited for.
ghost use Rattle.std.specs.Prelude.{◌≡◌, ℕ, ◌++◌, ◌∷◌, [], IsSome, OnOk, OnErr, filter};
ghost use Rattle.std.specs.Ordering.{nat_cmp};
ghost use Rattle.std.specs.BTreeMap.{is_at};
ghost use Rattle.std.specs.Map.{lookup};
ghost use Rattle.job_queue.specs.Dependencies.{is_of_another, open_on, stays_open, ChangesOpen};

use crate::dependencies::{Open, Outcome, drop_decided, drop_of};
use lists::ListOf;
use std::alloc::{AllocError, Global};
use std::collections::BTreeMap;
use std::mem;

/// The open dependencies by the job that is waited for, those on one job in order of their arrival.
pub(crate) type OpenTable = BTreeMap<u64, ListOf<Open>>;

/// The open dependencies on a job.
pub(crate) fn waiting_on<'a>(table: &'a OpenTable, job: u64) -> &'a [Open]
    ensures { result.now ≡ open_on table.now.entries job }
{
    match table.get(&job) {
        Some(list) => list.as_slice(),
        None => &[],
    }
}

/// Adds a dependency behind others that wait for the same job.
fn append(table: &mut OpenTable, dependency: Open) -> Result<(), AllocError>
    requires { IsSome (lookup (is_at (nat_cmp dependency.on)) table.old.entries) }
    ensures added { OnOk result (ChangesOpen table.old.entries table.new.entries dependency.on
        (open_on table.old.entries dependency.on ++ dependency ∷ [])) }
    ensures kept { OnErr result (table.new.entries ≡ table.old.entries) }
{
    let Some(list) = table.get_mut(&dependency.on) else {
        unreachable!()
    };
    list.push(dependency)
}

/// Puts a dependency as the only one on its job.
fn begin(alloc: Global, table: &mut OpenTable, dependency: Open) -> Result<(), AllocError>
    ensures added { OnOk result
        (ChangesOpen table.old.entries table.new.entries dependency.on (dependency ∷ [])) }
    ensures kept { OnErr result (table.new.entries ≡ table.old.entries) }
{
    let mut list = ListOf::new(alloc);
    list.push(dependency)?;
    table.insert(dependency.on, list)?;
    Ok(())
}

/// Adds a dependency.
pub(crate) fn add(alloc: Global, table: &mut OpenTable, dependency: Open) -> Result<(), AllocError>
    ensures added { OnOk result (ChangesOpen table.old.entries table.new.entries dependency.on
        (open_on table.old.entries dependency.on ++ dependency ∷ [])) }
    ensures kept { OnErr result (table.new.entries ≡ table.old.entries) }
{
    if table.contains_key(&dependency.on) {
        append(table, dependency)
    } else {
        begin(alloc, table, dependency)
    }
}

/// Drops those of a list that the outcome of a job decides.
fn shorten(alloc: Global, list: &mut ListOf<Open>, job: u64, outcome: Outcome)
    ensures { list.new ≡ filter (stays_open job outcome) list.old }
{
    let mut items = mem::replace(list, ListOf::new(alloc)).into_vec();
    drop_decided(&mut items, job, outcome);
    *list = ListOf::from_vec(items);
}

/// Drops the dependencies on a job that its outcome decides.
fn drop_decided_on(alloc: Global, table: &mut OpenTable, job: u64, outcome: Outcome)
    ensures { ChangesOpen table.old.entries table.new.entries job
        (filter (stays_open job outcome) (open_on table.old.entries job)) }
{
    let Some(list) = table.get_mut(&job) else {
        return;
    };
    shorten(alloc, list, job, outcome);
}

/// Drops a job's dependencies of a list.
fn drop_job(alloc: Global, list: &mut ListOf<Open>, id: u64)
    ensures { list.new ≡ filter (is_of_another id) list.old }
{
    let mut items = mem::replace(list, ListOf::new(alloc)).into_vec();
    drop_of(&mut items, id);
    *list = ListOf::from_vec(items);
}

/// Drops a job's dependencies on another one.
fn drop_job_on(alloc: Global, table: &mut OpenTable, id: u64, on: u64)
    ensures { ChangesOpen
        table.old.entries
        table.new.entries
        on
        (filter (is_of_another id) (open_on table.old.entries on)) }
{
    let Some(list) = table.get_mut(&on) else {
        return;
    };
    drop_job(alloc, list, id);
}

/// Forgets a list that is empty, so that the table has no more lists than jobs that are waited for.
fn drop_empty(table: &mut OpenTable, job: u64)
    ensures { (other : ℕ) → open_on table.new.entries other ≡ open_on table.old.entries other }
{
    if !waiting_on(table, job).is_empty() {
        return;
    }
    table.remove(&job);
}

/// Keeps those dependencies on a job that its outcome leaves open. It takes no memory.
pub(crate) fn keep_undecided(alloc: Global, table: &mut OpenTable, job: u64, outcome: Outcome)
    ensures { ChangesOpen table.old.entries table.new.entries job
        (filter (stays_open job outcome) (open_on table.old.entries job)) }
{
    drop_decided_on(alloc, table, job, outcome);
    drop_empty(table, job);
}

/// Forgets a job's dependencies on another one. It takes no memory.
pub(crate) fn forget(alloc: Global, table: &mut OpenTable, id: u64, on: u64)
    ensures { ChangesOpen
        table.old.entries
        table.new.entries
        on
        (filter (is_of_another id) (open_on table.old.entries on)) }
{
    drop_job_on(alloc, table, id, on);
    drop_empty(table, on);
}
