//! The units of a grant, and who holds them.
ghost use Rattle.std.specs.Prelude.{◌≡◌, slice_index_or, ◌<◌, ◌≤◌, ◌↔◌, ◌+◌, ◌-◌, ◌^◌, ◌++◌, ◌∷◌, List, [], length, map, take, drop, IfNone, IfSome, nat_le, nat_lt, Contains, IfOk, OnOk, OnErr, IsTrue, MatchBool, Some, None, All, remove, if◌then◌else◌};
ghost use Rattle.std.specs.Bool.{OnFalse};
ghost use Rattle.std.specs.List.{HoldsAt, AllByRecursion as Each};
ghost use Rattle.std.specs.List.Sorted.{IsStrictlyIncreasing};
ghost use Rattle.resource_set.specs.Units.{AreHosts};
ghost use Rattle.job_rules.specs.Fits.{AreWithin, CanFit, HasIdSets, IsGrant, IsSpec, IsWithin, NeverFits, end_of, first_fit, free_of, sooner, without_nodes};
ghost use Rattle.job_rules.specs.Worths.{total, wanted as wanted_of, worth as worth_of};
ghost use Rattle.resource_set.specs.declared.node.Node.{Node as Taken};
ghost use Rattle.job_rules.specs.Fits.{AreApart, AreBlockers, AreLive, nodes_of};
ghost use Rattle.graph_match.specs.Answers.{NamesBlockers};
ghost use Rattle.graph_match.specs.Holds.{IsNew, with_hold, without_hold};
ghost use Rattle.graph_match.specs.Kept.{IsKept};
ghost use Rattle.graph_match.specs.Places.{after_each, free_node, fresh_place, node_of};
ghost use Rattle.graph_match.specs.Racks.{rack_of};
ghost use Rattle.graph_match.specs.Rooms.{AreRooms, room_of, worth_of as worth_in};

use crate::fit::{Fit, JobList};
use crate::place::Place;
use crate::racks::{Cluster, Free};
use crate::rooms::{Room, Spare, wanted, worth};
use job_rules::Hold;
use job_spec::JobSpec;
use lists::Copied;
use resource_set::{Node, NodeList, Resources};
use std::alloc::{AllocError, Global};
use std::marker::Model;

/// The units of a grant, and the live jobs with what they hold of it.
#[derive(Drop)]
pub struct Graph {
    places: Cluster,
    /// In seconds; 0 is none.
    expiration: u64,
    /// By rising ids.
    live: Vec<Hold>,
}

impl Model for Graph {
    ghost use Rattle.std.specs.Prelude.{map};
    ghost use Rattle.graph_match.specs.Allotment.{Allotment};

    ghost Value = { Allotment };

    ghost use Rattle.graph_match.specs.Places.{node_of};
    ghost use Rattle.graph_match.specs.Kept.{IsKept};

    ghost view = { λ g. record {
      grant = map node_of g.places;
      expiration = g.expiration;
      live = g.live.items;
    } };

    ghost invariant = { λ g. IsKept g.places g.live.items };
}

/// The hosts of a grant, all of them free.
fn fresh(alloc: Global, nodes: &[Node]) -> Result<Vec<Place>, AllocError>
    ensures places { IfOk result (λ places. places.items ≡ map fresh_place nodes.now) }
    ensures sets { OnOk result (All HasIdSets nodes.now) }
{
    let mut places = Vec::new(alloc);
    for node in nodes {
        places.push(Place::new(alloc, node)?)?;
    }
    Ok(places)
}

/// The place of a host by its rank.
fn place_of(places: &[Place], rank: u32) -> usize
    requires rising { IsStrictlyIncreasing (map (λ p. p.rank) places.now) }
    requires there { Contains (map (λ p. p.rank) places.now) rank }
    ensures within { result < length places.now }
    ensures rank { HoldsAt (λ p. p.rank ≡ rank) places.now result }
{
    places.partition_point(|p| p.rank < rank)
}

/// Whether a job's id is lower.
fn is_before(hold: &Hold, id: u64) -> bool
    ensures { result ≡ nat_lt hold.now.id id }
{
    hold.id < id
}

/// Where a job stands by its id, or would stand.
fn hold_of(live: &[Hold], id: u64) -> usize
    requires { IsStrictlyIncreasing (map (λ hold. hold.id) live.now) }
    ensures within { result ≤ length live.now }
    ensures before { Each (λ hold. hold.id < id) (take result live.now) }
    ensures after { Each (λ hold. id ≤ hold.id) (drop result live.now) }
{
    live.partition_point(|hold| is_before(hold, id))
}

/// Where a job stands, if it is live.
fn find_hold(live: &[Hold], id: u64) -> Option<usize>
    requires { IsStrictlyIncreasing (map (λ hold. hold.id) live.now) }
    ensures none { IfNone result (IsNew id live.now) }
    ensures some { IfSome result (λ at. (at < length live.now)
        × HoldsAt (λ hold. hold.id ≡ id) live.now at) }
{
    let at = hold_of(live, id);
    match live.get(at) {
        None => None,
        Some(hold) => { if hold.id == id { Some(at) } else { None } }
    }
}

/// Marks the units of a job as free, or as held.
fn mark_nodes(places: &mut Cluster, nodes: &[Node], free: bool)
    requires grant { IsGrant (map node_of places.old) }
    requires there { Each (IsWithin (map node_of places.old)) nodes.now }
    ensures { places.new ≡ map (after_each free nodes.now) places.old }
{
    for node in nodes {
        let at = place_of(places.hosts(), node.rank);
        places.mark(at, node, free);
    }
}

/// Whether all hosts together, each of them free, bring less than a job asks for.
fn is_small(places: &[Place], spec: &JobSpec) -> bool
    requires spec { IsSpec spec.now }
    requires grant { IsGrant (map node_of places.now) }
    ensures { result ≡ nat_lt (total (worth_of spec.now (map node_of places.now))
        (map node_of places.now)) (wanted_of spec.now) }
{
    let mut lacking = wanted(spec);
    for place in places {
        if lacking == 0 {
            return false;
        }
        lacking = lacking.saturating_sub(place.could_bring(spec));
    }
    0 < lacking
}

/// Whether what is free on all hosts brings less than a job asks for.
fn is_busy(places: &Cluster, spec: &JobSpec) -> bool
    requires spec { IsSpec spec.now }
    requires grant { IsGrant (map node_of places.now) }
    ensures { result ≡ nat_lt (total (worth_of spec.now (map node_of places.now))
        (map free_node places.now)) (wanted_of spec.now) }
{
    let hosts = places.hosts();
    let mut lacking = wanted(spec);
    let mut at = 0;
    while at < hosts.len() && 0 < lacking {
        lacking = lacking.saturating_sub(hosts[at].brings(spec));
        at += places.skip(at, spec).max(1);
    }
    0 < lacking
}

/// The units that a job takes, where there are enough.
fn take_first(alloc: Global, places: &Cluster, spec: &JobSpec) -> Result<NodeList, AllocError>
    requires spec { IsSpec spec.now }
    requires grant { IsGrant (map node_of places.now) }
    requires enough { wanted_of spec.now
        ≤ total (worth_of spec.now (map node_of places.now)) (map free_node places.now) }
    ensures { IfOk result (λ nodes.
        first_fit spec.now (map node_of places.now) (map free_node places.now) ≡ Some nodes) }
{
    let hosts = places.hosts();
    let mut nodes = NodeList::new(alloc);
    let mut left = wanted(spec);
    let mut at = 0;
    while at < hosts.len() && 0 < left {
        let place = &hosts[at];
        let here = left.min(place.brings(spec));
        if 0 < here {
            nodes.push(place.pick(spec, here)?)?;
            left -= here;
        }
        at += places.skip(at, spec).max(1);
    }
    Ok(nodes)
}

/// How much is free on each host.
fn rooms(alloc: Global, places: &[Place]) -> Result<Vec<Room>, AllocError>
    ensures { IfOk result (λ rooms. rooms.items ≡ map room_of (map free_node places.now)) }
{
    let mut rooms = Vec::new(alloc);
    for place in places {
        rooms.push(place.room())?;
    }
    Ok(rooms)
}

/// What is free on all hosts brings to a job.
fn brings(places: &[Place], spec: &JobSpec) -> u64
    requires spec { IsSpec spec.now }
    requires grant { IsGrant (map node_of places.now) }
    ensures { result
        ≡ total (worth_of spec.now (map node_of places.now)) (map free_node places.now) }
{
    let mut sum = 0u64;
    for place in places {
        sum += u64::from(place.brings(spec));
    }
    sum
}

/// How many units a job has on a host.
fn count(node: &Node) -> Room
    ensures count { result ≡ room_of node.now }
    ensures sets { HasIdSets node.now }
{
    Room {
        cores: node.cores.count(),
        gpus: node.gpus.count(),
    }
}

/// A host's room with so many units more, where they are freed, or so many less.
fn changed(room: Room, units: Room, free: bool) -> Room
    requires { MatchBool free
        ((room.cores + units.cores < 2 ^ 32) × (room.gpus + units.gpus < 2 ^ 32))
        ((units.cores ≤ room.cores) × (units.gpus ≤ room.gpus)) }
    ensures { result ≡ if free
        then record { cores = room.cores + units.cores; gpus = room.gpus + units.gpus }
        else record { cores = room.cores - units.cores; gpus = room.gpus - units.gpus } }
{
    if free {
        Room {
            cores: room.cores + units.cores,
            gpus: room.gpus + units.gpus,
        }
    } else {
        Room {
            cores: room.cores - units.cores,
            gpus: room.gpus - units.gpus,
        }
    }
}

/// What all hosts bring once one has another room than before.
fn moved(place: &Place, spec: &JobSpec, sum: u64, old: Room, new: Room) -> u64
    requires spec { IsSpec spec.now }
    requires sets { HasIdSets (node_of place.now) }
    requires old { worth_in spec.now (room_of (node_of place.now)) old ≤ sum }
    requires sum { sum ≤ 2 ^ 32 }
    ensures { result + worth_in spec.now (room_of (node_of place.now)) old
        ≡ sum + worth_in spec.now (room_of (node_of place.now)) new }
{
    let whole = place.whole();
    sum - u64::from(worth(spec, whole, old)) + u64::from(worth(spec, whole, new))
}

/// Frees a node's units in the room of its host, or takes them there, where other nodes' units are
/// taken too, and gives what all hosts bring then.
fn exchange(
    places: &[Place],
    spec: &JobSpec,
    rooms: &mut [Room],
    sum: u64,
    node: &Node,
    free: bool,
) -> u64
    requires spec { IsSpec spec.now }
    requires grant { IsGrant (map node_of places.now) }
    requires inside { IsWithin (map node_of places.now) node.now }
    requires taken { (others : List Taken) × AreApart (node.now ∷ []) others
        × AreRooms spec.now (map node_of places.now)
        (if free then node.now ∷ others else others) rooms.old sum }
    ensures { (others : List Taken) → AreApart (node.now ∷ []) others
        → AreRooms spec.now (map node_of places.now)
        (if free then node.now ∷ others else others) rooms.old sum
        → AreRooms spec.now (map node_of places.now)
        (if free then others else node.now ∷ others) rooms.new result }
{
    let at = place_of(places, node.rank);
    let place = &places[at];
    let old = rooms[at];
    let new = changed(old, count(node), free);
    rooms[at] = new;
    moved(place, spec, sum, old, new)
}

/// Frees a job's units in the rooms of hosts where other nodes' units stay taken, and gives what
/// they bring then.
fn add(places: &[Place], spec: &JobSpec, rooms: &mut [Room], sum: u64, nodes: &[Node]) -> u64
    requires spec { IsSpec spec.now }
    requires grant { IsGrant (map node_of places.now) }
    requires nodes { AreWithin nodes.now (map node_of places.now) }
    requires taken { (others : List Taken) × AreApart nodes.now others
        × AreRooms spec.now (map node_of places.now) (nodes.now ++ others) rooms.old sum }
    ensures { (others : List Taken) → AreApart nodes.now others
        → AreRooms spec.now (map node_of places.now) (nodes.now ++ others) rooms.old sum
        → AreRooms spec.now (map node_of places.now) others rooms.new result }
{
    let mut sum = sum;
    for node in nodes {
        sum = exchange(places, spec, rooms, sum, node, true);
    }
    sum
}

/// Takes a job's units in the rooms of hosts where other nodes' units are taken, and gives what
/// they bring then.
fn take_back(places: &[Place], spec: &JobSpec, rooms: &mut [Room], sum: u64, nodes: &[Node]) -> u64
    requires spec { IsSpec spec.now }
    requires grant { IsGrant (map node_of places.now) }
    requires nodes { AreWithin nodes.now (map node_of places.now) }
    requires left { (others : List Taken) × AreApart nodes.now others
        × AreRooms spec.now (map node_of places.now) others rooms.old sum }
    ensures { (others : List Taken) → AreApart nodes.now others
        → AreRooms spec.now (map node_of places.now) others rooms.old sum
        → AreRooms spec.now (map node_of places.now) (nodes.now ++ others) rooms.new result }
{
    let mut sum = sum;
    for node in nodes {
        sum = exchange(places, spec, rooms, sum, node, false);
    }
    sum
}

/// Whether what hosts bring is as much as a job asks for.
fn is_enough(spec: &JobSpec, sum: u64) -> bool
    ensures { result ≡ nat_le (wanted_of spec.now) sum }
{
    u64::from(wanted(spec)) <= sum
}

/// The live jobs that stand in a job's way, where the rooms and what they bring are those that all
/// of them leave. Each is left out, in order of id, without which the rest still leaves no room.
fn sift(
    alloc: Global,
    places: &[Place],
    live: &[Hold],
    spec: &JobSpec,
    rooms: &mut [Room],
    sum: u64,
) -> Result<JobList, AllocError>
    requires spec { IsSpec spec.now }
    requires kept { IsKept places.now live.now }
    requires rooms { AreRooms spec.now (map node_of places.now) (nodes_of live.now) rooms.old sum }
    requires few { sum < wanted_of spec.now }
    ensures { IfOk result (AreBlockers spec.now (map node_of places.now) live.now) }
{
    let mut sum = sum;
    let mut list = JobList::new(alloc);
    for hold in live {
        let nodes = hold.nodes.as_slice();
        sum = add(places, spec, rooms, sum, nodes);
        if is_enough(spec, sum) {
            sum = take_back(places, spec, rooms, sum, nodes);
            list.push(hold.id)?;
        }
    }
    Ok(list)
}

/// That live jobs stand in a job's way, and which.
fn busy(alloc: Global, places: &[Place], live: &[Hold], spec: &JobSpec) -> Result<Fit, AllocError>
    requires spec { IsSpec spec.now }
    requires kept { IsKept places.now live.now }
    requires few { total (worth_of spec.now (map node_of places.now)) (map free_node places.now)
        < wanted_of spec.now }
    ensures { IfOk result (NamesBlockers spec.now (map node_of places.now) live.now) }
{
    let mut rooms = rooms(alloc, places)?;
    let sum = brings(places, spec);
    Ok(Fit::Busy(sift(alloc, places, live, spec, &mut rooms, sum)?))
}

/// The second at which a job ends that starts now, or 0.
fn ending(spec: &JobSpec, now: u64) -> u64
    ensures { result ≡ end_of spec.now now }
{
    if spec.duration == 0 {
        0
    } else {
        now.saturating_add(spec.duration)
    }
}

/// The sooner of two seconds, of which 0 is none.
fn sooner_of(a: u64, b: u64) -> u64
    ensures { result ≡ sooner a b }
{
    if a == 0 {
        b
    } else if b == 0 {
        a
    } else {
        a.min(b)
    }
}

/// The units of a job that starts now, until it ends or the grant does.
fn units_from(nodes: NodeList, spec: &JobSpec, now: u64, expiration: u64) -> Resources
    ensures { result ≡ record {
      nodes = nodes;
      starttime = now;
      expiration = sooner (end_of spec.now now) expiration;
    } }
{
    Resources {
        nodes,
        starttime: now,
        expiration: sooner_of(ending(spec, now), expiration),
    }
}

/// Takes out the job that stands there.
fn leave(live: &mut Vec<Hold>, at: usize) -> Hold
    requires { at < length live.old.items }
    ensures job { result ≡ slice_index_or live.old.items at result }
    ensures rest { live.new.items ≡ remove live.old.items at }
{
    live.remove(at)
}

impl Graph {
    ghost use Rattle.graph_match.specs.Answers.{Answers};

    /// A grant, all of it free. Its ranks rise and are below 65,536, and its hosts differ.
    pub fn new(alloc: Global, grant: &Resources) -> Result<Graph, AllocError>
        requires { AreHosts grant.now.nodes }
        ensures { IfOk result (λ g. g
            ≡ record { grant = grant.now.nodes; expiration = grant.now.expiration; live = [] }) }
    {
        let places = fresh(alloc, grant.nodes.as_slice())?;
        Ok(Graph {
            places: Cluster::new(alloc, places)?,
            expiration: grant.expiration,
            live: Vec::new(alloc),
        })
    }

    /// What the grant has for a job at this second: units by first fit, the live jobs that stand in
    /// its way, or that it never fits. Its slots, cores and hosts are at least 1, and it asks for
    /// at most 65,536 of each.
    pub fn fit(&self, spec: &JobSpec, now: u64) -> Result<Fit, AllocError>
        requires { IsSpec spec.now }
        ensures { IfOk result (Answers self.now spec.now now) }
    {
        let alloc = *self.live.allocator();
        if self.never(spec) {
            return Ok(Fit::Never);
        }
        if is_busy(&self.places, spec) {
            return busy(alloc, self.places.hosts(), &self.live, spec);
        }
        let nodes = take_first(alloc, &self.places, spec)?;
        Ok(Fit::Units(units_from(nodes, spec, now, self.expiration)))
    }

    /// Whether no units of the whole grant satisfy a job. It takes no memory.
    pub fn never(&self, spec: &JobSpec) -> bool
        requires { IsSpec spec.now }
        ensures { IsTrue result ↔ NeverFits spec.now self.now.grant }
    {
        is_small(self.places.hosts(), spec)
    }

    /// Whether free units satisfy a job. It takes no memory, and lists no jobs in the way.
    pub fn has_room(&self, spec: &JobSpec) -> bool
        requires { IsSpec spec.now }
        ensures { IsTrue result
            ↔ CanFit spec.now self.now.grant (free_of self.now.grant self.now.live) }
    {
        !is_busy(&self.places, spec)
    }

    /// How much is free on each host, and what that brings to a job.
    pub fn spare(&self, spec: &JobSpec) -> Result<Spare, AllocError>
        requires { IsSpec spec.now }
        ensures { IfOk result (λ spare. AreRooms spec.now self.now.grant (nodes_of self.now.live)
            spare.rooms.items spare.sum) }
    {
        let alloc = *self.live.allocator();
        let hosts = self.places.hosts();
        let rooms = rooms(alloc, hosts)?;
        let sum = brings(hosts, spec);
        Ok(Spare { rooms, sum })
    }

    /// Takes nodes' units in what is left where other nodes' units are taken. It takes no memory.
    pub fn take_in(&self, spec: &JobSpec, spare: &mut Spare, nodes: &[Node])
        requires spec { IsSpec spec.now }
        requires nodes { AreWithin nodes.now self.now.grant }
        requires left { (others : List Taken) × AreApart nodes.now others
            × AreRooms spec.now self.now.grant others spare.old.rooms.items spare.old.sum }
        ensures { (others : List Taken) → AreApart nodes.now others
            → AreRooms spec.now self.now.grant others spare.old.rooms.items spare.old.sum
            → AreRooms spec.now self.now.grant (nodes.now ++ others)
            spare.new.rooms.items spare.new.sum }
    {
        let hosts = self.places.hosts();
        let sum = take_back(hosts, spec, &mut spare.rooms, spare.sum, nodes);
        spare.sum = sum;
    }

    /// Whether what is left beside the units that are taken satisfies a job. It takes no memory.
    pub fn serves(&self, spec: &JobSpec, spare: &Spare) -> bool
        requires { IsSpec spec.now }
        ensures { (taken : List Taken)
            → AreRooms spec.now self.now.grant taken spare.now.rooms.items spare.now.sum
            → IsTrue result
            ↔ CanFit spec.now self.now.grant (map (without_nodes taken) self.now.grant) }
    {
        let _live = &self.live;
        is_enough(spec, spare.sum)
    }

    /// How much is free in a rack of 32 hosts in rank order; racks are counted from 0, and there is
    /// none past the last one. It takes no memory.
    pub fn rack_free(&self, rack: u32) -> Option<Free>
        ensures { result ≡ rack_of (free_of self.now.grant self.now.live) rack }
    {
        self.places.rack_free(rack)
    }

    /// What every graph keeps: its hosts are a grant's, and the live jobs hold units of it, no two
    /// of them one in common.
    pub fn keeps(&self)
        ensures grant { IsGrant self.now.grant }
        ensures live { AreLive self.now.grant self.now.live }
    {
        let _live = &self.live;
    }

    /// Lets a new job hold free units, by their hosts' ranks and names, as `fit` gives them.
    pub fn take(&mut self, id: u64, units: &Resources) -> Result<(), AllocError>
        requires free { AreWithin units.now.nodes (free_of self.old.grant self.old.live) }
        requires new { IsNew id self.old.live }
        ensures taken { OnOk result (self.new
            ≡ record self.old
            { live = with_hold (record { id = id; nodes = units.now.nodes }) self.old.live }) }
        ensures kept { OnErr result (self.new ≡ self.old) }
    {
        let nodes = units.nodes.copy()?;
        let at = hold_of(&self.live, id);
        self.live.insert(at, Hold { id, nodes })?;
        mark_nodes(&mut self.places, units.nodes.as_slice(), false);
        Ok(())
    }

    /// Gives back what a job holds, if it is live. It takes no memory.
    pub fn give(&mut self, id: u64) -> bool
        ensures found { IsTrue result ↔ Contains (map (λ hold. hold.id) self.old.live) id }
        ensures given { self.new ≡ record self.old { live = without_hold id self.old.live } }
        ensures kept { OnFalse result (self.new ≡ self.old) }
    {
        match find_hold(&self.live, id) {
            None => false,
            Some(at) => {
                let hold = leave(&mut self.live, at);
                mark_nodes(&mut self.places, hold.nodes.as_slice(), true);
                true
            }
        }
    }
}
