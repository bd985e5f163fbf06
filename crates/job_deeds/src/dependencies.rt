//! What is due for a job with dependencies (Flux RFC 26).
ghost use Rattle.std.specs.Prelude.{◌≡◌, None, Contains, IfNone, IfOk, IfSome, IsTrue, find};
ghost use Rattle.std.specs.Option.{option_copied};
ghost use Rattle.std.specs.List.{list_any};
ghost use Rattle.std.specs.List.Sorted.{IsStrictlyIncreasing};
ghost use Rattle.std.specs.Str.{bytes_eq};
ghost use Rattle.job_states.specs.declared.job.State.TheVariants as state;
ghost use Rattle.manager_rules.specs.Dependencies.{ended_well, first_unadded, is_inactive, is_lost, is_met, meets, open_needs};
ghost use Rattle.manager_rules.specs.Jobs.{ids_of};
ghost use Rattle.manager_rules.specs.Scene.{Scene};
ghost use Rattle.job_spec.specs.declared.spec.Depend.{Depend as Need};
ghost use Rattle.job_deeds.specs.Actions.{AreTold, Finds};

use crate::action::Action;
use crate::row::{Row, find as job_of};
use job_spec::{Depend, Needs, Scheme};
use job_states::{DependList, Job, State};
use job_texts::description;
use std::alloc::{AllocError, Global};

/// Whether a list has a description.
fn has(list: &DependList, description: &[u8]) -> bool
    ensures { result ≡ list_any (bytes_eq description.now) list.now }
{
    list.as_slice()
        .iter()
        .any(|other| description == other.as_slice())
}

/// The first dependency that isn't added yet.
fn first_new(alloc: Global, row: &Row) -> Result<Option<Depend>, AllocError>
    ensures { IfOk result (λ need. need ≡ first_unadded row.now) }
{
    for need in row.needs.as_slice() {
        let description = description(alloc, need)?;
        if !has(&row.job.added, description.as_slice()) {
            return Ok(Some(*need));
        }
    }
    Ok(None)
}

/// The dependencies that are added and not removed, in their order.
fn still_open(alloc: Global, row: &Row) -> Result<Needs, AllocError>
    ensures { IfOk result (λ needs. needs ≡ open_needs row.now) }
{
    let mut needs = Needs::new(alloc);
    for need in row.needs.as_slice() {
        let description = description(alloc, need)?;
        let added = has(&row.job.added, description.as_slice());
        if added && !has(&row.job.removed, description.as_slice()) {
            needs.push(*need)?;
        }
    }
    Ok(needs)
}

/// Whether a job is at its end.
pub fn is_over(job: &Job) -> bool
    ensures { result ≡ is_inactive job.now }
{
    job.state == State::Inactive
}

/// Whether a job came to its end well.
fn went_well(job: &Job) -> bool
    ensures { result ≡ ended_well job.now }
{
    job.status.is_some_and(|status| status == 0) && !job.severe
}

/// Whether a job has done what another of this scheme waits for.
fn does_meet(scheme: Scheme, job: &Job) -> bool
    ensures { result ≡ meets scheme job.now }
{
    match scheme {
        Scheme::After => job.started,
        Scheme::AfterAny => is_over(job),
        Scheme::AfterOk => is_over(job) && went_well(job),
        Scheme::AfterNotOk => is_over(job) && !went_well(job),
    }
}

/// Whether a dependency is met.
fn is_done(rows: &[Row], need: &Depend) -> bool
    requires { IsStrictlyIncreasing (ids_of rows.now) }
    ensures { result ≡ is_met rows.now need.now }
{
    match job_of(rows, need.on) {
        Some(other) => does_meet(need.scheme, &other.job),
        None => false,
    }
}

/// Whether a dependency can't be met any more.
fn cannot_be_met(rows: &[Row], need: &Depend) -> bool
    requires { IsStrictlyIncreasing (ids_of rows.now) }
    ensures { result ≡ is_lost rows.now need.now }
{
    match job_of(rows, need.on) {
        Some(other) => is_over(&other.job) && !does_meet(need.scheme, &other.job),
        None => false,
    }
}

/// The first dependency that can't be met any more.
fn first_lost<'a>(rows: &[Row], needs: &'a [Depend]) -> Option<&'a Depend>
    requires { IsStrictlyIncreasing (ids_of rows.now) }
    ensures some { IfSome result (λ need. Contains needs.now need.now
        × IsTrue (is_lost rows.now need.now)) }
    ensures none { IfNone result ((need : Need) → Contains needs.now need
        → IsTrue (is_lost rows.now need) → ⊥) }
{
    needs.iter().find(|need| cannot_be_met(rows, need))
}

/// The first dependency that is met.
fn first_met<'a>(rows: &[Row], needs: &'a [Depend]) -> Option<&'a Depend>
    requires { IsStrictlyIncreasing (ids_of rows.now) }
    ensures { option_copied result ≡ find (is_met rows.now) needs.now }
{
    needs.iter().find(|need| is_done(rows, need))
}

/// What is due for a job all of whose dependencies are added, and with these open.
fn of_open(rows: &[Row], row: &Row, needs: &[Depend]) -> Option<Action<'static>>
    requires rising { IsStrictlyIncreasing (ids_of rows.now) }
    requires waits { row.now.job.state ≡ state.Depend }
    requires added { first_unadded row.now ≡ None }
    requires still_open { needs.now ≡ open_needs row.now }
    ensures found { (s : Scene) → s.jobs ≡ rows.now → Finds s row.now result }
    ensures told { AreTold result }
{
    if needs.is_empty() {
        return Some(Action::Depend);
    }
    if let Some(need) = first_lost(rows, needs) {
        return Some(Action::Lose(*need));
    }
    match first_met(rows, needs) {
        Some(need) => Some(Action::Remove(*need)),
        None => None,
    }
}

/// What is due for a job in DEPEND: each dependency is added, and removed once it is met or lost.
pub fn of_depend(
    alloc: Global,
    rows: &[Row],
    row: &Row,
) -> Result<Option<Action<'static>>, AllocError>
    requires rising { IsStrictlyIncreasing (ids_of rows.now) }
    requires waits { row.now.job.state ≡ state.Depend }
    ensures found { IfOk result (λ found. (s : Scene) → s.jobs ≡ rows.now → Finds s row.now found) }
    ensures told { IfOk result AreTold }
{
    if let Some(need) = first_new(alloc, row)? {
        return Ok(Some(Action::Add(need)));
    }
    let open = still_open(alloc, row)?;
    Ok(of_open(rows, row, open.as_slice()))
}
