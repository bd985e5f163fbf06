//! When something happens by itself, and whose child is to be born.
ghost use Rattle.std.specs.Prelude.{◌≡◌, ◌++◌, List, ℕ, [], false, filter, flat_map, nat_lt};
ghost use Rattle.std.specs.Option.{option_map_or, option_to_list};
ghost use Rattle.job_deeds.specs.shells.Endings.{ending_of};
ghost use Rattle.job_deeds.specs.manager_rules.Scene.{has_child as has_child_in, is_child_of};
ghost use Rattle.job_deeds.specs.manager_rules.Times.{command_seconds, expiry_seconds, seconds_of};
ghost use Rattle.job_deeds.specs.manager_rules.Jobs.{ids_of};
ghost use Rattle.std.specs.List.Sorted.{IsStrictlyIncreasing};
ghost use Rattle.job_book.specs.Active.{AreActive};
ghost use Rattle.job_book.specs.Seconds.{IsSoonest, begins_child as begins_child_at, is_parent as is_parent_at, sooner_of};

use crate::active::{Active, place_of_active};
use job_deeds::Row;
use job_deeds::job_spec::JobSpec;
use job_deeds::job_states::State;
use job_deeds::manager_rules::Asked;
use job_deeds::shells::Ending;

/// Whether this is a child of the job.
fn is_child(asked: &Asked, id: u64) -> bool
    ensures { result ≡ is_child_of id asked.now }
{
    match asked {
        Asked::Child { job, .. } => id == *job,
        _ => false,
    }
}

/// Whether a job has had a child.
pub fn has_child(asked: &[Asked], id: u64) -> bool
    ensures { result ≡ has_child_in asked.now id }
{
    asked.iter().any(|asked| is_child(asked, id))
}

/// Whether a command that starts at a second is a child's.
fn is_childs(spec: &JobSpec, start: u64) -> bool
    ensures { result ≡ begins_child_at (ending_of spec.now start) }
{
    match job_deeds::shells::ending(spec, start) {
        Ending::Child => true,
        Ending::At { .. } => false,
    }
}

/// Whether a job has begun with a child's command.
fn begins_child(row: &Row) -> bool
    ensures { result
        ≡ option_map_or (λ start. begins_child_at (ending_of row.now.spec start))
        row.now.start false }
{
    match row.start {
        Some(start) => is_childs(&row.spec, start),
        None => false,
    }
}

/// Whether a job runs a child's command.
pub fn is_parent(row: &Row) -> bool
    ensures { result ≡ is_parent_at row.now }
{
    row.job.state == State::Run && row.job.started && begins_child(row)
}

/// The second at which a started command ends by itself.
fn end_of_command(row: &Row) -> Option<u64>
    ensures { option_to_list result ≡ command_seconds row.now }
{
    match job_deeds::shells::ending(&row.spec, row.start?) {
        Ending::At { second, .. } => Some(second),
        Ending::Child => None,
    }
}

/// The second at which resources end.
fn end_of_units(row: &Row) -> Option<u64>
    ensures { option_to_list result ≡ option_map_or expiry_seconds row.now.r [] }
{
    match &row.r {
        Some(r) if r.expiration != 0 => Some(r.expiration),
        _ => None,
    }
}

/// The sooner of two seconds, of which the latter counts where it is ahead.
fn sooner(now: u64, next: Option<u64>, second: Option<u64>) -> Option<u64>
    ensures { result ≡ sooner_of now next second }
{
    let Some(second) = second else {
        return next;
    };
    if second <= now {
        return next;
    }
    match next {
        Some(first) => Some(first.min(second)),
        None => Some(second),
    }
}

/// The sooner of a second and those ahead at which a job's command and resources end, which they do
/// while it runs.
fn sooner_with(now: u64, next: Option<u64>, row: &Row) -> Option<u64>
    ensures { (seconds : List ℕ) → IsSoonest seconds next
        → IsSoonest (seconds ++ filter (λ second. nat_lt now second) (seconds_of row.now)) result }
{
    if row.job.state != State::Run {
        return next;
    }
    sooner(
        now,
        sooner(now, next, end_of_command(row)),
        end_of_units(row),
    )
}

/// The next second at which a job's command ends or its resources do.
pub fn next_of_rows(rows: &[Row], active: &[Active], now: u64) -> Option<u64>
    requires rising { IsStrictlyIncreasing (ids_of rows.now) }
    requires active { AreActive rows.now active.now }
    ensures { IsSoonest
        (filter (λ second. nat_lt now second) (flat_map seconds_of rows.now)) result }
{
    let mut next = None;
    let mut near = 0;
    for index in 0..active.len() {
        let at = place_of_active(rows, active, index, near);
        next = sooner_with(now, next, &rows[at]);
        near = at + 1;
    }
    next
}
