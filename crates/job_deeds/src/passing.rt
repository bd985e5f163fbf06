//! The job that passes the first in the queue (EASY backfill).
ghost use Rattle.std.specs.Prelude.{◌≡◌, ◌≢◌, ◌<◌, ◌↔◌, ◌⊎◌, ◌++◌, ◌∷◌, [], ℕ, false, Contains, IfOk, IsTrue, OnOk};
ghost use Rattle.std.specs.List.{AllByRecursion as Each};
ghost use Rattle.backfill.specs.Reservations.{IsReservation};
ghost use Rattle.job_rules.specs.Fits.{IsGrant};
ghost use Rattle.job_spec.specs.Sound.{IsSpec};
ghost use Rattle.manager_rules.specs.Scene.{Scene};
ghost use Rattle.job_deeds.specs.Choices.{IsLook, IsSeen};
ghost use Rattle.job_deeds.specs.Passing.{FindsRoom, IsFirstLeaving, IsOffer, IsPasserOf, Leaves, asks_of, leases_of};
ghost use Rattle.job_deeds.specs.Waiting.{waits_with};

use crate::decisions::Desk;
use crate::row::{Row, place_in};
use crate::waiting::rank;
use backfill::{Hold, Reservation};
use graph_match::Fit;
use job_spec::JobSpec;
use lists::Copied;
use manager_rules::Policy;
use resource_set::Resources;
use std::alloc::{AllocError, Global};

/// What live jobs hold until their resources end.
fn leases(alloc: Global, rows: &[Row]) -> Result<Vec<Hold>, AllocError>
    ensures { IfOk result (λ live. live.items ≡ leases_of rows.now) }
{
    let mut live = Vec::new(alloc);
    for row in rows {
        if let Some(r) = &row.r {
            live.push(Hold {
                id: row.id,
                units: r.copy()?,
                until: r.expiration,
            })?;
        }
    }
    Ok(live)
}

/// What a job would hold that starts now. Where it has no room, the jobs in its way aren't asked
/// for.
fn offer(desk: &Desk<'_>, row: &Row) -> Result<Option<Hold>, AllocError>
    requires spec { IsSpec row.now.spec }
    requires grant { IsGrant desk.now.graph.now.grant }
    ensures { IfOk result (IsOffer desk.now.graph.now desk.now.second row.now) }
{
    if !desk.graph.has_room(&row.spec) {
        return Ok(None);
    }
    match desk.graph.fit(&row.spec, desk.second)? {
        Fit::Units(units) => Ok(Some(Hold {
            id: row.id,
            until: units.expiration,
            units,
        })),
        Fit::Busy(_) => Ok(None),
        Fit::Never => Ok(None),
    }
}

/// How many kinds of refused jobs are kept through a look.
const KINDS: usize = 8;

/// What decides which units a job gets, and until when.
#[derive(Clone, Copy, Debug, PartialEq, Eq)]
pub struct Asks {
    pub nodes: Option<u32>,
    pub exclusive: bool,
    pub slots: u32,
    pub cores: u32,
    pub gpus: u32,
    pub duration: u64,
}

/// What a jobspec asks for.
fn asked_by(spec: &JobSpec) -> Asks
    ensures { result ≡ asks_of spec.now }
{
    Asks {
        nodes: spec.nodes,
        exclusive: spec.exclusive,
        slots: spec.slots,
        cores: spec.cores,
        gpus: spec.gpus,
        duration: spec.duration,
    }
}

/// Whether a job asks for what a refused one asked for.
fn is_refused(refused: &[Asks], spec: &JobSpec) -> bool
    ensures { IsTrue result → Contains refused.now (asks_of spec.now) }
{
    let wanted = asked_by(spec);
    refused.contains(&wanted)
}

/// Keeps what a refused job asks for, up to so many kinds.
fn keep_refused(refused: &mut Vec<Asks>, spec: &JobSpec) -> Result<(), AllocError>
    ensures { OnOk result ((refused.new.items ≡ refused.old.items)
        ⊎ (refused.new.items ≡ refused.old.items ++ asks_of spec.now ∷ [])) }
{
    if refused.len() < KINDS {
        refused.push(asked_by(spec))?;
    }
    Ok(())
}

/// Whether a job behind the first leaves the second that is reserved for it.
fn leaves(
    alloc: Global,
    desk: &Desk<'_>,
    grant: &Resources,
    live: &[Hold],
    reserved: &mut Reservation,
    head: &Row,
    row: &Row,
) -> Result<bool, AllocError>
    requires look { IsLook desk.now grant.now }
    requires live { live.now ≡ leases_of desk.now.rows.now }
    requires reserved { IsReservation head.now.spec grant.now.nodes live.now desk.now.second
        reserved.old }
    requires head { IsSpec head.now.spec }
    requires known { Contains desk.now.rows.now row.now }
    requires behind { row.now.id ≢ head.now.id }
    requires ranked { 0 < waits_with row.now }
    ensures leaves { IfOk result (λ leaves. (s : Scene) → IsSeen desk.now s
        → IsTrue leaves ↔ Leaves s head.now row.now) }
    ensures kept { OnOk result (reserved.new ≡ reserved.old) }
{
    // live jobs hold units of the grant, no two of them one in common
    desk.graph.keeps();
    let Some(offer) = offer(desk, row)? else {
        return Ok(false);
    };
    let kept = reserved.keeps(grant, live, &head.spec, &offer, desk.second)?;
    if !kept {
        return Ok(false);
    }
    // the text of the units is read again
    let _text = resource_set::print(alloc, &offer.units)?;
    Ok(true)
}

/// Whether a job stands behind the first, and before all that wait with this priority.
fn goes_before(row: &Row, head: u64, most: u32) -> bool
    ensures { IsTrue result ↔ ((most < waits_with row.now) × (row.now.id ≢ head)) }
{
    most < rank(&row.job) && row.id != head
}

/// Whether a job behind the first finds room.
fn finds_room(desk: &Desk<'_>, head: u64, row: &Row) -> bool
    requires { IsSpec row.now.spec }
    ensures { IsTrue result ↔ FindsRoom desk.now.graph.now head row.now }
{
    goes_before(row, head, 0) && desk.graph.has_room(&row.spec)
}

/// Whether one of the jobs behind the first finds room.
fn has_some(desk: &Desk<'_>, head: u64) -> bool
    requires { Each (λ j. IsSpec j.spec) desk.now.rows.now }
    ensures { result ≡ false
        → Each (λ j. FindsRoom desk.now.graph.now head j → ⊥) desk.now.rows.now }
{
    for row in desk.rows {
        if finds_room(desk, head, row) {
            return true;
        }
    }
    false
}

/// The first job behind the first in the queue that leaves the second that is reserved for it. The
/// ids rise, so of those that wait with the same priority the first is met first. Jobs that ask for
/// the same are answered the same, so one that is refused answers for them all.
fn first_beside(
    alloc: Global,
    desk: &Desk<'_>,
    grant: &Resources,
    live: &[Hold],
    reserved: &mut Reservation,
    head: &Row,
) -> Result<Option<u64>, AllocError>
    requires look { IsLook desk.now grant.now }
    requires live { live.now ≡ leases_of desk.now.rows.now }
    requires reserved { IsReservation head.now.spec grant.now.nodes live.now desk.now.second
        reserved.old }
    requires head { IsSpec head.now.spec }
    ensures { IfOk result (λ id. (s : Scene) → IsSeen desk.now s
        → (most : ℕ) × IsFirstLeaving s head.now desk.now.rows.now most id) }
{
    let mut first = None;
    let mut most = 0;
    let mut refused = Vec::new(alloc);
    for row in desk.rows {
        if !goes_before(row, head.id, most) {
            continue;
        }
        if is_refused(&refused, &row.spec) {
            continue;
        }
        if !leaves(alloc, desk, grant, live, reserved, head, row)? {
            keep_refused(&mut refused, &row.spec)?;
            continue;
        }
        first = Some(row.id);
        most = rank(&row.job);
    }
    Ok(first)
}

/// The same, where none of them may find room, and the first may have no reserved second.
fn first_leaving(
    alloc: Global,
    desk: &Desk<'_>,
    grant: &Resources,
    head: &Row,
) -> Result<Option<u64>, AllocError>
    requires look { IsLook desk.now grant.now }
    requires head { IsSpec head.now.spec }
    ensures { IfOk result (λ id. (s : Scene) → IsSeen desk.now s
        → (most : ℕ) × IsFirstLeaving s head.now desk.now.rows.now most id) }
{
    // live jobs hold units of the grant, no two of them one in common
    desk.graph.keeps();
    if !has_some(desk, head.id) {
        return Ok(None);
    }
    let live = leases(alloc, desk.rows)?;
    let found = Reservation::of(alloc, grant, &live, &head.spec, desk.second)?;
    let Some(mut reserved) = found else {
        return Ok(None);
    };
    let first = first_beside(alloc, desk, grant, &live, &mut reserved, head)?;
    Ok(first)
}

/// The job that passes the first in the queue at this second, if one does. Where the policy lets
/// none pass, or the first finds room, the other jobs aren't looked at.
pub fn passer(alloc: Global, desk: &Desk<'_>, grant: &Resources) -> Result<Option<u64>, AllocError>
    requires { IsLook desk.now grant.now }
    ensures { IfOk result (λ id. (s : Scene) → IsSeen desk.now s → IsPasserOf s id) }
{
    if desk.policy == Policy::FirstFit {
        return Ok(None);
    }
    let Some(first) = desk.head else {
        return Ok(None);
    };
    // live jobs hold units of the grant, no two of them one in common
    desk.graph.keeps();
    let head = &desk.rows[place_in(desk.rows, first)];
    if desk.graph.has_room(&head.spec) {
        return Ok(None);
    }
    let found = first_leaving(alloc, desk, grant, head)?;
    Ok(found)
}
