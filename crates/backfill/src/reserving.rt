//! The second that is reserved for the head of a queue, found by halving.
ghost use Rattle.std.specs.Prelude.{◌≡◌, ◌≤◌, ◌<◌, ◌+◌, ◌++◌, ◌∷◌, [], ◌↔◌, List, length, IfOk, OnOk, IsTrue};
ghost use Rattle.std.specs.List.{AllByRecursion as Each};
ghost use Rattle.resource_set.specs.Units.{AreHosts};
ghost use Rattle.resource_set.specs.declared.node.Node.{Node};
ghost use Rattle.graph_match.specs.Rooms.{AreRooms};
ghost use Rattle.job_rules.specs.Fits.{AreApart, AreWithin, IsSpec, free_of, nodes_of};
ghost use Rattle.backfill.specs.Held.{AreHeld, held_at};
ghost use Rattle.backfill.specs.Reserved.{FitsAt, IsReserved, KeepsReservation, Reserves};
ghost use Rattle.backfill.specs.Reservations.{AsReserved, IsReservation};

use crate::hold::Hold;
use graph_match::{Graph, Spare};
use job_spec::JobSpec;
use resource_set::Resources;
use std::alloc::{AllocError, Global};

#[cfg(test)]
mod tests;

/// Lets a job hold what it has at a second, under its place for its id.
fn hold_at(graph: &mut Graph, place: usize, hold: &Hold, second: u64) -> Result<(), AllocError>
    requires free { AreWithin hold.now.units.nodes (free_of graph.old.grant graph.old.live) }
    requires new { Each (λ h. h.id < place) graph.old.live }
    ensures grant { OnOk result (graph.new.grant ≡ graph.old.grant) }
    ensures nodes { OnOk result (nodes_of graph.new.live
        ≡ nodes_of graph.old.live ++ nodes_of (held_at second (hold.now ∷ []))) }
    ensures ids { OnOk result (Each (λ h. h.id < place + 1) graph.new.live) }
{
    if hold.is_held_at(second) {
        graph.take(place as u64, &hold.units)?;
    }
    Ok(())
}

/// Lets live jobs hold what they have at a second, each under its place for its id.
fn hold_all(graph: &mut Graph, live: &[Hold], second: u64) -> Result<(), AllocError>
    requires free { graph.old.live ≡ [] }
    requires held { AreHeld graph.old.grant live.now }
    ensures grant { OnOk result (graph.new.grant ≡ graph.old.grant) }
    ensures nodes { OnOk result (nodes_of graph.new.live
        ≡ nodes_of (held_at second live.now)) }
    ensures ids { OnOk result (Each (λ h. h.id < length live.now) graph.new.live) }
{
    for (place, hold) in live.iter().enumerate() {
        hold_at(graph, place, hold, second)?;
    }
    Ok(())
}

/// The grant with what live jobs hold of it at a second.
fn graph_at(
    alloc: Global,
    grant: &Resources,
    live: &[Hold],
    second: u64,
) -> Result<Graph, AllocError>
    requires grant { AreHosts grant.now.nodes }
    requires held { AreHeld grant.now.nodes live.now }
    ensures grant { IfOk result (λ graph. graph.grant ≡ grant.now.nodes) }
    ensures nodes { IfOk result (λ graph. nodes_of graph.live
        ≡ nodes_of (held_at second live.now)) }
    ensures ids { IfOk result (λ graph. Each (λ h. h.id < length live.now) graph.live) }
{
    let mut graph = Graph::new(alloc, grant)?;
    hold_all(&mut graph, live, second)?;
    Ok(graph)
}

/// Takes what a job holds at a second in what is left beside other units.
fn take_at(graph: &Graph, spec: &JobSpec, spare: &mut Spare, hold: &Hold, second: u64)
    requires spec { IsSpec spec.now }
    requires nodes { AreWithin hold.now.units.nodes graph.now.grant }
    requires left { (others : List Node) × AreApart hold.now.units.nodes others
        × AreRooms spec.now graph.now.grant others spare.old.rooms.items spare.old.sum }
    ensures { (others : List Node) → AreApart hold.now.units.nodes others
        → AreRooms spec.now graph.now.grant others spare.old.rooms.items spare.old.sum
        → AreRooms spec.now graph.now.grant
        (nodes_of (held_at second (hold.now ∷ [])) ++ others) spare.new.rooms.items spare.new.sum }
{
    if hold.is_held_at(second) {
        graph.take_in(spec, spare, hold.units.nodes.as_slice());
    }
}

/// Whether some of the units that live jobs leave at a second satisfy a job, told by how much is
/// left on each host of a grant that is free.
fn fits_at(graph: &Graph, live: &[Hold], spec: &JobSpec, second: u64) -> Result<bool, AllocError>
    requires spec { IsSpec spec.now }
    requires free { graph.now.live ≡ [] }
    requires held { AreHeld graph.now.grant live.now }
    ensures { IfOk result (λ fits. IsTrue fits ↔ FitsAt spec.now graph.now.grant live.now second) }
{
    let mut spare = graph.spare(spec)?;
    let mut at = live.len();
    while 0 < at {
        at -= 1;
        take_at(graph, spec, &mut spare, &live[at], second);
    }
    Ok(graph.serves(spec, &spare))
}

/// A second from this one on at which each live job that ends has ended.
fn last_end(live: &[Hold], now: u64) -> u64
    ensures from { now ≤ result }
    ensures ended { Each (λ hold. hold.until ≤ result) live.now }
{
    let mut last = now;
    for hold in live {
        last = last.max(hold.until);
    }
    last
}

/// The first end of a live job past a second, or the last second where none comes before it.
fn next_end(live: &[Hold], second: u64, last: u64) -> u64
    requires { second < last }
    ensures past { (second < result) × (result ≤ last) }
    ensures first { Each (λ hold. second < hold.until → result ≤ hold.until) live.now }
{
    let mut next = last;
    for hold in live {
        if second < hold.until {
            next = next.min(hold.until);
        }
    }
    next
}

/// The last end of a live job by a second, or the first second where none comes behind it.
fn end_by(live: &[Hold], first: u64, second: u64) -> u64
    requires { first ≤ second }
    ensures by { (first ≤ result) × (result ≤ second) }
    ensures last { Each (λ hold. hold.until ≤ second → hold.until ≤ result) live.now }
{
    let mut end = first;
    for hold in live {
        if hold.until <= second {
            end = end.max(hold.until);
        }
    }
    end
}

/// The least second at which a job fits, where it fits at the last one. What fits at a second fits
/// later too, and between two ends of live jobs nothing changes: so each look at a second halves
/// those that are left, and goes on at an end.
fn least_fitting(
    graph: &Graph,
    live: &[Hold],
    spec: &JobSpec,
    now: u64,
    last: u64,
) -> Result<u64, AllocError>
    requires spec { IsSpec spec.now }
    requires free { graph.now.live ≡ [] }
    requires held { AreHeld graph.now.grant live.now }
    requires order { now ≤ last }
    requires fits { FitsAt spec.now graph.now.grant live.now last }
    ensures { IfOk result (IsReserved spec.now graph.now.grant live.now now) }
{
    let mut low = now;
    let mut high = last;
    while low < high {
        let middle = low + (high - low) / 2;
        if fits_at(graph, live, spec, middle)? {
            high = end_by(live, low, middle);
        } else {
            low = next_end(live, middle, high);
        }
    }
    Ok(low)
}

/// The reserved second of a job, by a graph of the grant that is free.
fn reserved_in(
    graph: &Graph,
    live: &[Hold],
    spec: &JobSpec,
    now: u64,
) -> Result<Option<u64>, AllocError>
    requires spec { IsSpec spec.now }
    requires free { graph.now.live ≡ [] }
    requires held { AreHeld graph.now.grant live.now }
    ensures { IfOk result (Reserves spec.now graph.now.grant live.now now) }
{
    let last = last_end(live, now);
    if !fits_at(graph, live, spec, last)? {
        return Ok(None);
    }
    Ok(Some(least_fitting(graph, live, spec, now, last)?))
}

/// The reserved second of a job: the least one from now on at which the units that live jobs leave
/// satisfy it; None exactly where there is none. The holds lie in the grant, by rank and name, and
/// no two have a unit in common.
pub fn reserve(
    alloc: Global,
    grant: &Resources,
    live: &[Hold],
    spec: &JobSpec,
    now: u64,
) -> Result<Option<u64>, AllocError>
    requires spec { IsSpec spec.now }
    requires grant { AreHosts grant.now.nodes }
    requires held { AreHeld grant.now.nodes live.now }
    ensures { IfOk result (Reserves spec.now grant.now.nodes live.now now) }
{
    let graph = Graph::new(alloc, grant)?;
    reserved_in(&graph, live, spec, now)
}

/// Whether the head of a queue has a reserved second and keeps it where the offer is one more live
/// job. The holds, the offer among them, lie in the grant, by rank and name, and no two have a unit
/// in common.
pub fn passes(
    alloc: Global,
    grant: &Resources,
    live: &[Hold],
    head: &JobSpec,
    offer: &Hold,
    now: u64,
) -> Result<bool, AllocError>
    requires spec { IsSpec head.now }
    requires grant { AreHosts grant.now.nodes }
    requires held { AreHeld grant.now.nodes (live.now ++ offer.now ∷ []) }
    ensures { IfOk result (λ passes. IsTrue passes
        ↔ KeepsReservation head.now grant.now.nodes live.now offer.now now) }
{
    let Some(second) = reserve(alloc, grant, live, head, now)? else {
        return Ok(false);
    };
    let mut graph = graph_at(alloc, grant, live, second)?;
    hold_at(&mut graph, live.len(), offer, second)?;
    Ok(graph.has_room(head))
}

/// The second that is reserved for the head of a queue, and the grant with what live jobs hold of
/// it then.
#[derive(Drop)]
pub struct Reservation {
    pub second: u64,
    pub graph: Graph,
}

impl Reservation {
    /// The reserved second of a job, with what live jobs hold then, so that several offers can be
    /// asked for; None exactly where it has none.
    pub fn of(
        alloc: Global,
        grant: &Resources,
        live: &[Hold],
        spec: &JobSpec,
        now: u64,
    ) -> Result<Option<Reservation>, AllocError>
        requires spec { IsSpec spec.now }
        requires grant { AreHosts grant.now.nodes }
        requires held { AreHeld grant.now.nodes live.now }
        ensures { IfOk result (AsReserved spec.now grant.now.nodes live.now now) }
    {
        let mut graph = Graph::new(alloc, grant)?;
        let Some(second) = reserved_in(&graph, live, spec, now)? else {
            return Ok(None);
        };
        hold_all(&mut graph, live, second)?;
        Ok(Some(Reservation { second, graph }))
    }

    /// Whether the head of a queue keeps its reserved second where the offer is one more live job,
    /// as `passes` tells it.
    pub fn keeps(
        &mut self,
        _grant: &Resources,
        live: &[Hold],
        head: &JobSpec,
        offer: &Hold,
        _now: u64,
    ) -> Result<bool, AllocError>
        requires spec { IsSpec head.now }
        requires held { AreHeld _grant.now.nodes (live.now ++ offer.now ∷ []) }
        requires reserved { IsReservation head.now _grant.now.nodes live.now _now self.old }
        ensures keeps { IfOk result (λ keeps. IsTrue keeps
            ↔ KeepsReservation head.now _grant.now.nodes live.now offer.now _now) }
        ensures kept { OnOk result (self.new ≡ self.old) }
    {
        if !offer.is_held_at(self.second) {
            return Ok(true);
        }
        let place = live.len() as u64;
        self.graph.take(place, &offer.units)?;
        let keeps = self.graph.has_room(head);
        self.graph.give(place);
        Ok(keeps)
    }
}
