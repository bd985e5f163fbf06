//! The hosts of a grant in racks and rows of racks, with counts of what is free.
ghost use Rattle.std.specs.Prelude.{◌≡◌, ◌+◌, ◌-◌, ◌^◌, ◌≤◌, ◌<◌, List, length, map, set, get_or};
ghost use Rattle.std.specs.Prelude.{take, drop, IfOk, IsTrue};
ghost use Rattle.std.specs.List.{AllByRecursion as Each};
ghost use Rattle.job_rules.specs.Fits.{HasIdSets};
ghost use Rattle.graph_match.specs.Places.{free_node, marked_place, node_of};
ghost use Rattle.graph_match.specs.Racks.{AreCounts, IsRoom, Lacks, free_in, rack_of};
ghost use Rattle.graph_match.specs.Rooms.{room_of};
ghost use Rattle.graph_match.specs.declared.place.Place.{Place as Host};

use crate::place::Place;
use crate::rooms::Room;
use job_spec::JobSpec;
use resource_set::Node;
use std::alloc::{AllocError, Global};
use std::marker::Model;

/// The hosts of a rack, of a row of racks, and the most that a grant has.
const RACK: usize = 32;

const ROW: usize = 1024;

const CLUSTER: usize = 65_536;

/// How many cores and GPUs are free.
#[derive(Clone, Copy, Debug, PartialEq, Eq)]
pub struct Free {
    pub cores: u64,
    pub gpus: u64,
}

/// The hosts of a grant in rank order, with the counts of what is free in each rack, in each row
/// of racks and in all.
#[derive(Drop)]
pub struct Cluster {
    places: Vec<Place>,
    racks: Vec<Free>,
    rows: Vec<Free>,
    all: Vec<Free>,
}

impl Model for Cluster {
    ghost use Rattle.std.specs.Prelude.{List};
    ghost use Rattle.graph_match.specs.declared.place.Place.{Place as Host};
    ghost use Rattle.graph_match.specs.Racks.{AreCounts};

    ghost Value = { List Host };

    ghost view = { λ c. c.places.items };

    ghost invariant = { λ c. AreCounts 32 c.places.items c.racks.items
        × AreCounts 1024 c.places.items c.rows.items
        × AreCounts 65536 c.places.items c.all.items };
}

/// How much is free on hosts.
fn sum(places: &[Place]) -> Free
    requires { length places.now ≤ 65536 }
    ensures { result ≡ free_in places.now }
{
    let mut cores = 0;
    let mut gpus = 0;
    for place in places {
        let room = place.room();
        cores += u64::from(room.cores);
        gpus += u64::from(room.gpus);
    }
    Free { cores, gpus }
}

/// How much is free in each block of so many hosts.
fn counts(alloc: Global, places: &[Place], width: usize) -> Result<Vec<Free>, AllocError>
    requires width { 1 ≤ width }
    requires few { length places.now ≤ 65536 }
    ensures { IfOk result (λ counts. AreCounts width places.now counts.items) }
{
    let mut counts = Vec::new(alloc);
    let mut rest = places;
    while !rest.is_empty() {
        let (block, more) = rest.split_at(width.min(rest.len()));
        counts.push(sum(block))?;
        rest = more;
    }
    Ok(counts)
}

/// Whether a block of hosts begins there that has too little for one slot of a job.
fn lacks(counts: &[Free], width: usize, at: usize, spec: &JobSpec) -> bool
    requires { 1 ≤ width }
    ensures { (hosts : List Host) → AreCounts width hosts counts.now → IsTrue result
        → Each (Lacks spec.now) (take width (drop at hosts)) }
{
    if at % width != 0 {
        return false;
    }
    match counts.get(at / width) {
        None => false,
        Some(free) => free.cores < u64::from(spec.cores) || free.gpus < u64::from(spec.gpus),
    }
}

/// A count once a host has another room than before.
fn moved(free: Free, old: Room, new: Room) -> Free
    requires cores { old.cores ≤ free.cores }
    requires gpus { old.gpus ≤ free.gpus }
    requires fits { (free.cores ≤ 2 ^ 48) × (free.gpus ≤ 2 ^ 48) }
    ensures { result ≡ record {
      cores = free.cores - old.cores + new.cores;
      gpus = free.gpus - old.gpus + new.gpus;
    } }
{
    Free {
        cores: free.cores - u64::from(old.cores) + u64::from(new.cores),
        gpus: free.gpus - u64::from(old.gpus) + u64::from(new.gpus),
    }
}

/// Counts once a host has another room than before.
fn shift(counts: &mut Vec<Free>, width: usize, at: usize, old: Room, new: Room)
    requires width { 1 ≤ width }
    requires counted { (hosts : List Host) × AreCounts width hosts counts.old.items
        × IsRoom hosts at old × (length hosts ≤ 65536)
        × Each (λ place. HasIdSets (node_of place)) hosts }
    ensures { (hosts : List Host) (host : Host) → AreCounts width hosts counts.old.items
        → IsRoom hosts at old → new ≡ room_of (free_node host)
        → AreCounts width (set hosts at host) counts.new.items }
{
    let block = at / width;
    if block < counts.len() {
        counts[block] = moved(counts[block], old, new);
    }
}

impl Cluster {
    /// Hosts with their counts.
    pub fn new(alloc: Global, places: Vec<Place>) -> Result<Cluster, AllocError>
        requires { length places.items ≤ 65536 }
        ensures { IfOk result (λ cluster. cluster ≡ places.items) }
    {
        Ok(Cluster {
            racks: counts(alloc, &places, RACK)?,
            rows: counts(alloc, &places, ROW)?,
            all: counts(alloc, &places, CLUSTER)?,
            places,
        })
    }

    /// The hosts.
    pub fn hosts(&self) -> &[Place]
        ensures { result.now ≡ self.now }
    {
        &self.places
    }

    /// How many hosts from a place on can be left out, since each has too little for one slot of a
    /// job.
    pub fn skip(&self, at: usize, spec: &JobSpec) -> usize
        ensures lack { Each (Lacks spec.now) (take result (drop at self.now)) }
        ensures few { result ≤ 65536 }
    {
        if lacks(&self.all, CLUSTER, at, spec) {
            CLUSTER
        } else if lacks(&self.rows, ROW, at, spec) {
            ROW
        } else if lacks(&self.racks, RACK, at, spec) {
            RACK
        } else {
            0
        }
    }

    /// How much is free in a rack, if there is one of this number.
    pub fn rack_free(&self, rack: u32) -> Option<Free>
        ensures { result ≡ rack_of (map free_node self.now) rack }
    {
        match self.racks.get(rack as usize) {
            None => None,
            Some(free) => Some(*free),
        }
    }

    /// Marks the units that a job has on a host as free, or as held.
    pub fn mark(&mut self, at: usize, node: &Node, free: bool)
        requires there { at < length self.old }
        requires sets { Each (λ place. HasIdSets (node_of place)) self.old }
        requires few { length self.old ≤ 65536 }
        ensures { (host : Host) → self.new
            ≡ set self.old at (marked_place free node.now (get_or self.old at host)) }
    {
        let old = self.places[at].room();
        self.places[at].mark(node, free);
        let new = self.places[at].room();
        shift(&mut self.racks, RACK, at, old, new);
        shift(&mut self.rows, ROW, at, old, new);
        shift(&mut self.all, CLUSTER, at, old, new);
    }
}
