//! The queue of waiting jobs.
ghost use Rattle.std.specs.Prelude.{◌≡◌, ◌++◌, ◌∷◌, [], ◌↔◌, false, Some, None, is_some, IsTrue, IfSome, IsNone, OnOk, OnErr, IfOk, filter};
ghost use Rattle.job_queue.specs.Queue.{priority_of, Changes, IsHead, AreHeld};
ghost use Rattle.job_queue.specs.Dependencies.{decided_by, is_of_another, stays_open, open_on, AreInOrder, ChangesOpen};

use crate::dependencies::{Open, Outcome, Scheme, Settled, decided, sort_by_id};
use crate::open_table::{OpenTable, add, forget, keep_undecided, waiting_on};
use crate::ranks::{Priorities, Ranks, drop_outdated, rank};
use std::alloc::{AllocError, Global};
use std::cmp::Reverse;
use std::marker::Model;

/// The waiting jobs with their priorities, and the open dependencies.
///
/// Contracts see the list of the jobs, each with its priority, and the open dependencies by the job
/// that is waited for.
#[derive(Drop)]
pub struct Queue {
    priorities: Priorities,
    ranks: Ranks,
    dependencies: OpenTable,
    alloc: Global,
}

impl Model for Queue {
    ghost use Rattle.std.specs.Prelude.{List, ℕ, ◌≤◌};
    ghost use Rattle.std.specs.BinaryHeap.{heap_items, heap_capacity};
    ghost use Rattle.std.specs.BTreeMap.{btree_map_len};
    ghost use Rattle.job_queue.specs.declared.dependencies.Open.{Open};

    ghost Value = { List (ℕ × ℕ) × List (ℕ × List Open) };

    ghost use Rattle.job_queue.specs.Ranks.{IsRanked, IsInOrder, IsTopLive};

    ghost view = { λ q. (q.priorities.entries, q.dependencies.entries) };

    ghost invariant = { λ q. (btree_map_len q.priorities ≤ heap_capacity q.ranks)
        × IsRanked q.priorities (heap_items q.ranks)
        × IsInOrder (heap_items q.ranks) × IsTopLive q.priorities (heap_items q.ranks) };
}

impl Queue {
    /// The queue without jobs.
    pub fn new(alloc: Global) -> Queue
        ensures { result ≡ ([], []) }
    {
        Queue {
            priorities: Priorities::new(alloc),
            ranks: Ranks::new(alloc),
            dependencies: OpenTable::new(alloc),
            alloc,
        }
    }

    /// Adds a job, and makes the room that a later change of its priority needs.
    pub fn put(&mut self, id: u64, priority: u32) -> Result<(), AllocError>
        requires { priority_of self.old.0 id ≡ None }
        ensures added { OnOk result (Changes self.old.0 self.new.0 id (Some priority)) }
        ensures kept { OnErr result (self.new.0 ≡ self.old.0) }
        ensures dependencies { self.new.1 ≡ self.old.1 }
    {
        let room = self.priorities.len().saturating_mul(2).saturating_add(2);
        if self.ranks.capacity() < room {
            self.ranks.reserve(room)?;
        }
        self.priorities.insert(id, priority)?;
        rank(&mut self.ranks, &self.priorities, id, priority);
        Ok(())
    }

    /// The job that goes first: the greatest priority, then the smallest id; none where each
    /// priority is 0.
    pub fn head(&self) -> Option<u64>
        ensures first { IfSome result (IsHead self.now.0) }
        ensures none { IsNone result ↔ AreHeld self.now.0 }
    {
        match self.ranks.peek() {
            Some((priority, Reverse(id))) if 0 < *priority => Some(*id),
            _ => None,
        }
    }

    /// Takes a job out, and says whether it was there.
    pub fn take(&mut self, id: u64) -> bool
        ensures found { result ≡ is_some (priority_of self.old.0 id) }
        ensures gone { Changes self.old.0 self.new.0 id None }
        ensures dependencies { self.new.1 ≡ self.old.1 }
    {
        let found = self.priorities.remove(&id).is_some();
        drop_outdated(&mut self.ranks, &self.priorities);
        found
    }

    /// Gives a job another priority, and says whether it is there.
    pub fn set_priority(&mut self, id: u64, priority: u32) -> bool
        ensures found { result ≡ is_some (priority_of self.old.0 id) }
        ensures changed { IsTrue result → Changes self.old.0 self.new.0 id (Some priority) }
        ensures kept { result ≡ false → self.new.0 ≡ self.old.0 }
        ensures dependencies { self.new.1 ≡ self.old.1 }
    {
        if !self.priorities.contains_key(&id) {
            return false;
        }
        // A new value for a key that is there takes no memory.
        let changed: Result<_, _> = self.priorities.insert(id, priority);
        changed.unwrap();
        rank(&mut self.ranks, &self.priorities, id, priority);
        true
    }

    /// Notes that the job `id` waits for the job `on`.
    pub fn depend(&mut self, id: u64, on: u64, scheme: Scheme) -> Result<(), AllocError>
        ensures added { OnOk result (ChangesOpen self.old.1 self.new.1 on
            (open_on self.old.1 on ++ record { id = id; on = on; scheme = scheme } ∷ [])) }
        ensures kept { OnErr result (self.new.1 ≡ self.old.1) }
        ensures jobs { self.new.0 ≡ self.old.0 }
    {
        add(self.alloc, &mut self.dependencies, Open { id, on, scheme })
    }

    /// Forgets the open dependencies of the job `id` on the job `on`, as where it ends while it
    /// waits. It takes no memory.
    pub fn forget(&mut self, id: u64, on: u64)
        ensures gone { ChangesOpen self.old.1 self.new.1 on
            (filter (is_of_another id) (open_on self.old.1 on)) }
        ensures jobs { self.new.0 ≡ self.old.0 }
    {
        forget(self.alloc, &mut self.dependencies, id, on);
    }

    /// Removes and lists the open dependencies that the outcome of a job decides: by id, and those
    /// of one job in the order in which they were added.
    pub fn settle(&mut self, job: u64, outcome: Outcome) -> Result<Vec<Settled>, AllocError>
        ensures listed { IfOk result (λ list.
            AreInOrder (decided_by self.old.1 job outcome) list.items) }
        ensures rest { OnOk result (ChangesOpen self.old.1 self.new.1 job
            (filter (stays_open job outcome) (open_on self.old.1 job))) }
        ensures kept { OnErr result (self.new.1 ≡ self.old.1) }
        ensures jobs { self.new.0 ≡ self.old.0 }
    {
        let waiting = waiting_on(&self.dependencies, job);
        let mut list = decided(self.alloc, waiting, job, outcome)?;
        sort_by_id(&mut list)?;
        keep_undecided(self.alloc, &mut self.dependencies, job, outcome);
        Ok(list)
    }
}
