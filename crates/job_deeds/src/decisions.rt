//! What is due for a job, whatever its state.
ghost use Rattle.std.specs.Prelude.{◌≡◌, ◌↔◌, ◌⊎◌, All, Contains, IfOk, IsTrue, Some};
ghost use Rattle.std.specs.Fn.{FnReturnsAt};
ghost use Rattle.resource_set.specs.Valid.{IsR};
ghost use Rattle.job_rules.specs.Fits.{CanFit, NeverFits, free_of};
ghost use Rattle.job_spec.specs.Sound.{IsSpec};
ghost use Rattle.job_states.specs.declared.job.State.TheVariants as state;
ghost use Rattle.manager_rules.specs.Scene.{IsAsked, Scene, priority_of};
ghost use Rattle.tap.specs.Priorities.{AnswersOnce};
ghost use Rattle.job_deeds.specs.Actions.{AreTold, Finds};
ghost use Rattle.job_deeds.specs.Choices.{Chooses, IsDesk, IsSeen, IsTaking, SaysAs};

use crate::action::Action;
use crate::commands::carried;
use crate::dependencies::of_depend;
use crate::priorities::priority;
use crate::row::Row;
use crate::states::{of_cleanup, of_run};
use graph_match::{Fit, Graph};
use job_states::State;
use lists::Bytes;
use manager_rules::{Asked, Policy};
use resource_set::Resources;
use std::alloc::{AllocError, Global};
use tap::{Ask, Tap};

/// What the jobs of a book are decided by.
#[derive(Clone, Copy)]
pub struct Desk<'a> {
    pub second: u64,
    pub graph: &'a Graph,
    pub policy: Policy,
    /// By rising ids.
    pub rows: &'a [Row],
    pub head: Option<u64>,
    /// The one that passes the first in the queue.
    pub passer: Option<u64>,
    pub asked: &'a [Asked],
}

/// The taking of units.
fn take(alloc: Global, r: Resources) -> Result<Option<Action<'static>>, AllocError>
    requires { IsR r }
    ensures { IfOk result (IsTaking r) }
{
    let text = resource_set::print(alloc, &r)?;
    Ok(Some(Action::Take(r, Bytes::from_vec(text))))
}

/// Whether a job goes first, or passes the one that does.
fn may_go(head: Option<u64>, passer: Option<u64>, id: u64) -> bool
    ensures { IsTrue result ↔ ((head ≡ Some id) ⊎ (passer ≡ Some id)) }
{
    head == Some(id) || passer == Some(id)
}

/// Whether a job may go, and there is room for it.
fn goes_now(desk: &Desk<'_>, row: &Row) -> bool
    requires { IsSpec row.now.spec }
    ensures { IsTrue result ↔ (((desk.now.head ≡ Some row.now.id)
        ⊎ (desk.now.passer ≡ Some row.now.id))
        × CanFit row.now.spec desk.now.graph.now.grant
        (free_of desk.now.graph.now.grant desk.now.graph.now.live)) }
{
    may_go(desk.head, desk.passer, row.id) && desk.graph.has_room(&row.spec)
}

/// The resources of a job that may go, where they are free.
fn first_fit(
    alloc: Global,
    desk: &Desk<'_>,
    row: &Row,
) -> Result<Option<Action<'static>>, AllocError>
    requires desk { IsDesk desk.now }
    requires known { Contains desk.now.rows.now row.now }
    requires spec { IsSpec row.now.spec }
    requires waits { row.now.job.state ≡ state.Sched }
    requires fits { NeverFits row.now.spec desk.now.graph.now.grant → ⊥ }
    requires room { CanFit row.now.spec desk.now.graph.now.grant
        (free_of desk.now.graph.now.grant desk.now.graph.now.live) }
    requires goes { (desk.now.head ≡ Some row.now.id) ⊎ (desk.now.passer ≡ Some row.now.id) }
    ensures found { IfOk result (λ found. (s : Scene) → IsSeen desk.now s
        → Finds s row.now found) }
    ensures told { IfOk result AreTold }
{
    // live jobs hold units of the grant, no two of them one in common
    desk.graph.keeps();
    match desk.graph.fit(&row.spec, desk.second)? {
        Fit::Units(r) => {
            let found = take(alloc, r)?;
            Ok(found)
        }
        Fit::Busy(_) => unreachable!(),
        Fit::Never => unreachable!(),
    }
}

/// What is due for a job that waits for resources with the priority that is defined for it. Where
/// one that may go has no room, the jobs in its way aren't asked for.
fn of_ranked(
    alloc: Global,
    desk: &Desk<'_>,
    row: &Row,
) -> Result<Option<Action<'static>>, AllocError>
    requires desk { IsDesk desk.now }
    requires known { Contains desk.now.rows.now row.now }
    requires spec { IsSpec row.now.spec }
    requires waits { row.now.job.state ≡ state.Sched }
    ensures found { IfOk result (λ found. (s : Scene) → IsSeen desk.now s
        → row.now.job.priority ≡ Some (priority_of s row.now) → Finds s row.now found) }
    ensures told { IfOk result AreTold }
{
    if desk.graph.never(&row.spec) {
        return Ok(Some(Action::NeverFits));
    }
    // live jobs hold units of the grant, no two of them one in common
    desk.graph.keeps();
    if !goes_now(desk, row) {
        return Ok(None);
    }
    first_fit(alloc, desk, row)
}

/// What is due for a job in SCHED: another priority, an exception where it never fits, and its
/// resources where it may go.
fn of_sched<F: Fn(&Ask) -> u32>(
    alloc: Global,
    desk: &Desk<'_>,
    row: &Row,
    tap: &Tap<F>,
) -> Result<Option<Action<'static>>, AllocError>
    requires desk { IsDesk desk.now }
    requires known { Contains desk.now.rows.now row.now }
    requires spec { IsSpec row.now.spec }
    requires waits { row.now.job.state ≡ state.Sched }
    requires callable { F.IsAlwaysCallable tap.now }
    requires once { AnswersOnce (λ ask n. FnReturnsAt F.Fn tap.now ask n) }
    ensures found { IfOk result (λ found. (s : Scene) → IsSeen desk.now s
        → SaysAs (FnReturnsAt F.Fn tap.now) s.answer → Finds s row.now found) }
    ensures told { IfOk result AreTold }
{
    let priority = priority(row, tap);
    if row.job.priority != Some(priority) {
        return Ok(Some(Action::Prioritize(priority)));
    }
    of_ranked(alloc, desk, row)
}

/// What is due for a job by the manager's own doing.
fn own<F: Fn(&Ask) -> u32>(
    alloc: Global,
    desk: &Desk<'_>,
    row: &Row,
    tap: &Tap<F>,
) -> Result<Option<Action<'static>>, AllocError>
    requires desk { IsDesk desk.now }
    requires known { Contains desk.now.rows.now row.now }
    requires spec { IsSpec row.now.spec }
    requires callable { F.IsAlwaysCallable tap.now }
    requires once { AnswersOnce (λ ask n. FnReturnsAt F.Fn tap.now ask n) }
    ensures found { IfOk result (λ found. (s : Scene) → IsSeen desk.now s
        → SaysAs (FnReturnsAt F.Fn tap.now) s.answer → Finds s row.now found) }
    ensures told { IfOk result AreTold }
{
    match row.job.state {
        State::New => Ok(Some(Action::Validate)),
        State::Depend => of_depend(alloc, desk.rows, row),
        State::Priority => Ok(Some(Action::Prioritize(priority(row, tap)))),
        State::Sched => of_sched(alloc, desk, row, tap),
        State::Run => Ok(of_run(desk.second, desk.asked, row)),
        State::Cleanup => Ok(of_cleanup(desk.asked, row)),
        State::Inactive => Ok(None),
    }
}

/// What is due for a job: a command first.
pub fn choice<'a, F: Fn(&Ask) -> u32>(
    alloc: Global,
    desk: &Desk<'a>,
    row: &Row,
    tap: &Tap<F>,
) -> Result<Option<Action<'a>>, AllocError>
    requires desk { IsDesk desk.now }
    requires known { Contains desk.now.rows.now row.now }
    requires spec { IsSpec row.now.spec }
    requires asked { All IsAsked desk.now.asked.now }
    requires callable { F.IsAlwaysCallable tap.now }
    requires once { AnswersOnce (λ ask n. FnReturnsAt F.Fn tap.now ask n) }
    ensures found { IfOk result (λ found. (s : Scene) → IsSeen desk.now s
        → SaysAs (FnReturnsAt F.Fn tap.now) s.answer → Chooses s row.now found) }
    ensures told { IfOk result AreTold }
{
    if let Some(asked) = carried(row, desk.asked) {
        return Ok(Some(Action::Carry(asked)));
    }
    let found = own(alloc, desk, row, tap)?;
    Ok(found)
}
