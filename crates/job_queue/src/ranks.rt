//! The heap of ranks beside the table of priorities.
ghost use Rattle.std.specs.Prelude.{◌≡◌, ◌≤◌, ◌↔◌, Some, IsTrue};
ghost use Rattle.std.specs.BinaryHeap.{heap_items, heap_capacity};
ghost use Rattle.std.specs.BTreeMap.{btree_map_len, get};
ghost use Rattle.std.specs.Ordering.{nat_cmp};
ghost use Rattle.job_queue.specs.Ranks.{IsLive, IsRanked, IsRankedBut, IsInOrder, IsTopLive};

use std::cmp::Reverse;
use std::collections::{BTreeMap, BinaryHeap};

/// A job's place in the queue: the greater rank goes first.
pub(crate) type Rank = (u32, Reverse<u64>);

pub(crate) type Priorities = BTreeMap<u64, u32>;

pub(crate) type Ranks = BinaryHeap<Rank>;

/// Whether the job still has this priority.
pub(crate) fn is_live(priorities: &Priorities, rank: &Rank) -> bool
    ensures { IsTrue result ↔ IsLive priorities.now rank.now }
{
    match priorities.get(&rank.1.0) {
        Some(priority) => *priority == rank.0,
        None => false,
    }
}

/// Takes outdated ranks off the top, until the top is a job's own.
pub(crate) fn drop_outdated(ranks: &mut Ranks, priorities: &Priorities)
    requires ranked { IsRanked priorities.now (heap_items ranks.old) }
    requires order { IsInOrder (heap_items ranks.old) }
    ensures ranked { IsRanked priorities.now (heap_items ranks.new) }
    ensures order { IsInOrder (heap_items ranks.new) }
    ensures top { IsTopLive priorities.now (heap_items ranks.new) }
    ensures room { heap_capacity ranks.new ≡ heap_capacity ranks.old }
{
    while let Some(top) = ranks.peek() {
        if is_live(priorities, top) {
            return;
        }
        ranks.pop();
    }
}

/// Ranks each job anew, with room that is there.
pub(crate) fn rank_all(ranks: &mut Ranks, priorities: &Priorities)
    requires room { btree_map_len priorities.now ≤ heap_capacity ranks.old }
    ensures ranked { IsRanked priorities.now (heap_items ranks.new) }
    ensures order { IsInOrder (heap_items ranks.new) }
    ensures room { heap_capacity ranks.old ≤ heap_capacity ranks.new }
{
    ranks.clear();
    for (id, priority) in priorities {
        ranks.push((*priority, Reverse(*id))).unwrap();
    }
}

/// Ranks a job whose priority is new.
pub(crate) fn rank(ranks: &mut Ranks, priorities: &Priorities, id: u64, priority: u32)
    requires room { btree_map_len priorities.now ≤ heap_capacity ranks.old }
    requires new { get nat_cmp priorities.now id ≡ Some priority }
    requires ranked { IsRankedBut id priorities.now (heap_items ranks.old) }
    requires order { IsInOrder (heap_items ranks.old) }
    ensures ranked { IsRanked priorities.now (heap_items ranks.new) }
    ensures order { IsInOrder (heap_items ranks.new) }
    ensures top { IsTopLive priorities.now (heap_items ranks.new) }
    ensures room { heap_capacity ranks.old ≤ heap_capacity ranks.new }
{
    // Outdated ranks fill the heap at most once in as many changes as there are jobs.
    if ranks.len() < ranks.capacity() {
        ranks.push((priority, Reverse(id))).unwrap();
    } else {
        rank_all(ranks, priorities);
    }
    drop_outdated(ranks, priorities);
}
