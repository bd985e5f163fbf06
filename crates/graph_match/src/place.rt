//! A host of a grant, with what is free there.
ghost use Rattle.std.specs.Prelude.{◌≡◌, ◌≤◌, IfOk, OnOk};
ghost use Rattle.job_rules.specs.Fits.{HasIdSets, IsSpec, lowest};
ghost use Rattle.job_rules.specs.Worths.{give_as};
ghost use Rattle.graph_match.specs.Places.{free_node, fresh_place, marked_place, node_of};
ghost use Rattle.graph_match.specs.Rooms.{room_of, slot_count, worth_of};

use crate::pool::Pool;
use crate::rooms::{Room, worth};
use job_spec::JobSpec;
use lists::{Bytes, Copied};
use resource_set::Node;
use std::alloc::{AllocError, Global};

/// A host of the grant, with what is free there.
#[derive(Drop)]
pub struct Place {
    pub rank: u32,
    pub host: Bytes,
    pub cores: Pool,
    pub gpus: Pool,
}

impl Place {
    /// A host that is free.
    pub fn new(alloc: Global, node: &Node) -> Result<Place, AllocError>
        ensures place { IfOk result (λ place. place ≡ fresh_place node.now) }
        ensures sets { OnOk result (HasIdSets node.now) }
    {
        Ok(Place {
            rank: node.rank,
            host: node.host.copy()?,
            cores: Pool::new(alloc, &node.cores)?,
            gpus: Pool::new(alloc, &node.gpus)?,
        })
    }

    /// How much is free.
    pub fn room(&self) -> Room
        ensures { result ≡ room_of (free_node self.now) }
    {
        Room {
            cores: self.cores.free(),
            gpus: self.gpus.free(),
        }
    }

    /// How much there is in all.
    pub fn whole(&self) -> Room
        requires { HasIdSets (node_of self.now) }
        ensures { result ≡ room_of (node_of self.now) }
    {
        Room {
            cores: self.cores.whole(),
            gpus: self.gpus.whole(),
        }
    }

    /// What is free here brings so much to a job.
    pub fn brings(&self, spec: &JobSpec) -> u32
        requires spec { 1 ≤ spec.now.cores }
        requires sets { HasIdSets (node_of self.now) }
        ensures { result
            ≡ worth_of spec.now (room_of (node_of self.now)) (room_of (free_node self.now)) }
    {
        worth(spec, self.whole(), self.room())
    }

    /// The whole host brings so much to a job.
    pub fn could_bring(&self, spec: &JobSpec) -> u32
        requires spec { 1 ≤ spec.now.cores }
        requires sets { HasIdSets (node_of self.now) }
        ensures { result
            ≡ worth_of spec.now (room_of (node_of self.now)) (room_of (node_of self.now)) }
    {
        let whole = self.whole();
        worth(spec, whole, whole)
    }

    /// The lowest free units for so many slots.
    fn lowest(&self, spec: &JobSpec, slots: u32) -> Result<Node, AllocError>
        requires spec { IsSpec spec.now }
        requires sets { HasIdSets (node_of self.now) }
        requires room { slots ≤ slot_count spec.now (room_of (free_node self.now)) }
        ensures { IfOk result (λ node. node ≡ lowest spec.now slots (free_node self.now)) }
    {
        Ok(Node {
            rank: self.rank,
            host: self.host.copy()?,
            cores: self.cores.lowest(slots * spec.cores)?,
            gpus: self.gpus.lowest(slots * spec.gpus)?,
        })
    }

    /// All that is free.
    fn all(&self) -> Result<Node, AllocError>
        requires { HasIdSets (node_of self.now) }
        ensures { IfOk result (λ node. node ≡ free_node self.now) }
    {
        Ok(Node {
            rank: self.rank,
            host: self.host.copy()?,
            cores: self.cores.lowest(self.cores.free())?,
            gpus: self.gpus.lowest(self.gpus.free())?,
        })
    }

    /// The units that a job takes here: the lowest for so many slots, or those of one of its hosts.
    pub fn pick(&self, spec: &JobSpec, here: u32) -> Result<Node, AllocError>
        requires spec { IsSpec spec.now }
        requires sets { HasIdSets (node_of self.now) }
        requires some { 1 ≤ here }
        requires room { here
            ≤ worth_of spec.now (room_of (node_of self.now)) (room_of (free_node self.now)) }
        ensures { IfOk result
            (λ node. node ≡ give_as spec.now.nodes spec.now here (free_node self.now)) }
    {
        match spec.nodes {
            None => self.lowest(spec, here),
            Some(_) if spec.exclusive => self.all(),
            Some(_) => self.lowest(spec, spec.slots),
        }
    }

    /// Marks the units that a job has here as free, or as held.
    pub fn mark(&mut self, node: &Node, free: bool)
        requires { HasIdSets (node_of self.old) }
        ensures { self.new ≡ marked_place free node.now self.old }
    {
        self.cores.mark(&node.cores, free);
        self.gpus.mark(&node.gpus, free);
    }
}
