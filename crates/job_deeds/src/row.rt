//! The jobs of a book by id.
ghost use Rattle.std.specs.Prelude.{◌≡◌, ◌<◌, ◌≤◌, length, take, drop, nat_lt, option_map, Contains};
ghost use Rattle.std.specs.List.{AllByRecursion as Each, HoldsAt};
ghost use Rattle.std.specs.List.Sorted.{IsStrictlyIncreasing};
ghost use Rattle.manager_rules.specs.Jobs.{ids_of};
ghost use Rattle.manager_rules.specs.Dependencies.{job_at};

use job_spec::{JobSpec, Needs};
use job_states::Job;
use resource_set::Resources;
use std::marker::Model;

/// A job with its jobspec, its dependencies, what its log says of it, the second of its start, and
/// its resources while it is live.
///
/// Contracts see the job.
#[derive(Drop)]
pub struct Row {
    pub id: u64,
    pub spec: JobSpec,
    pub needs: Needs,
    pub job: Job,
    pub start: Option<u64>,
    pub r: Option<Resources>,
}

impl Model for Row {
    ghost use Rattle.manager_rules.specs.Jobs.{StoredJob};

    ghost Value = { StoredJob };

    ghost view = { λ row. record {
      id = row.id;
      spec = row.spec;
      needs = row.needs;
      job = row.job;
      start = row.start;
      r = row.r;
    } };
}

/// Whether a job's id is lower.
fn is_before(row: &Row, id: u64) -> bool
    ensures { result ≡ nat_lt row.now.id id }
{
    row.id < id
}

/// Where a job stands by its id, or would stand.
pub fn place_of(rows: &[Row], id: u64) -> usize
    requires { IsStrictlyIncreasing (ids_of rows.now) }
    ensures within { result ≤ length rows.now }
    ensures before { Each (λ j. j.id < id) (take result rows.now) }
    ensures after { Each (λ j. id ≤ j.id) (drop result rows.now) }
{
    rows.partition_point(|row| is_before(row, id))
}

/// Where a job of the list stands.
pub fn place_in(rows: &[Row], id: u64) -> usize
    requires rising { IsStrictlyIncreasing (ids_of rows.now) }
    requires known { Contains (ids_of rows.now) id }
    ensures within { result < length rows.now }
    ensures named { HoldsAt (λ j. j.id ≡ id) rows.now result }
{
    place_of(rows, id)
}

/// The job of an id.
pub fn find(rows: &[Row], id: u64) -> Option<&Row>
    requires { IsStrictlyIncreasing (ids_of rows.now) }
    ensures { option_map (λ row. row.now) result ≡ job_at rows.now id }
{
    let row = rows.get(place_of(rows, id))?;
    if row.id == id { Some(row) } else { None }
}
