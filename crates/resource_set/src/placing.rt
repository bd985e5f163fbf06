//! Which entry has a rank, and which host belongs to it.
ghost use Rattle.std.specs.Prelude.{◌≡◌, ℕ, length, IfOk, OnOk, Some, None, is_some, unwrap_or, cond, option_copied, []};
ghost use Rattle.std.specs.List.{find};
ghost use Rattle.std.specs.List.Sorted.{IsStrictlyIncreasing};
ghost use Rattle.std.specs.Ordering.{nat_cmp};
ghost use Rattle.std.specs.BTreeMap.{get};
ghost use Rattle.outcomes.specs.Outcomes.{Gives};
ghost use Rattle.idset.specs.Ids.{has, IsIdSet};
ghost use Rattle.resource_set.specs.Units.{AreHosts, host_names};
ghost use Rattle.resource_set.specs.Places.{IsRankIndex};
ghost use Rattle.resource_set.specs.Reading.{has_rank, twice_behind, ranks_of, node_with, nodes_with, nodes_of, are_distinct, unless_twice, told_count, no_entry, lasting};

use crate::entries::Entry;
use crate::faults::RFault;
use crate::node::Node;
use idset::IdSet;
use lists::{Bytes, Copied};
use std::alloc::{AllocError, Global};
use std::collections::{BTreeMap, BTreeSet};

/// Writes down the entry that has some ranks, none of which may have an entry yet.
fn place_ranks(places: &mut BTreeMap<u32, usize>, ranks: &[u32], place: usize) -> Result<(), RFault>
    requires { IsStrictlyIncreasing ranks.now }
    ensures placed { OnOk result ((rank : ℕ) → get nat_cmp places.new rank
        ≡ cond (has ranks.now rank) (Some place) (get nat_cmp places.old rank)) }
    ensures once { Gives lasting (λ _. 0) result
        (unless_twice (find (λ rank. is_some (get nat_cmp places.old rank)) ranks.now)) }
{
    for rank in ranks {
        if places.insert(*rank, place)?.is_some() {
            return Err(RFault::RankTwice { rank: *rank });
        }
    }
    Ok(())
}

/// Which entry has a rank.
fn places_of(alloc: Global, entries: &[Entry]) -> Result<BTreeMap<u32, usize>, RFault>
    ensures placed { IfOk result (λ places. IsRankIndex places entries.now) }
    ensures once { Gives lasting (λ _. 0) result (unless_twice (twice_behind [] entries.now)) }
{
    let mut places = BTreeMap::new(alloc);
    for (place, entry) in entries.iter().enumerate() {
        let ranks = entry.ranks.ids()?;
        place_ranks(&mut places, &ranks, place)?;
    }
    Ok(places)
}

/// The ranks of all entries in order.
fn all_ranks(alloc: Global, entries: &[Entry]) -> Result<Vec<u32>, AllocError>
    ensures ranks { IfOk result (λ ranks. ranks.items ≡ ranks_of entries.now) }
    ensures set { OnOk result (IsIdSet (ranks_of entries.now)) }
{
    let mut ranks = Vec::new(alloc);
    for entry in entries {
        ranks.extend_from_slice(&entry.ranks.ids()?)?;
    }
    IdSet::of_ids(alloc, &ranks)?.ids()
}

/// The entry that has a rank, if there is one.
fn entry_with<'a>(
    entries: &'a [Entry],
    places: &BTreeMap<u32, usize>,
    rank: u32,
) -> Option<&'a Entry>
    requires { IsRankIndex places.now entries.now }
    ensures { option_copied result ≡ find (has_rank rank) entries.now }
{
    match places.get(&rank) {
        Some(place) => entries.get(*place),
        None => None,
    }
}

/// The host of a rank with the cores and GPUs of an entry, and with none where there is no entry.
fn node_of(
    alloc: Global,
    entry: Option<&Entry>,
    rank: u32,
    host: &Bytes,
) -> Result<Node, AllocError>
    ensures { IfOk result (λ node. node
        ≡ node_with (unwrap_or (option_copied entry.entry) no_entry) rank host.now) }
{
    let host = host.copy()?;
    Ok(match entry {
        Some(entry) => Node {
            rank,
            host,
            cores: entry.cores.copy()?,
            gpus: entry.gpus.copy()?,
        },
        None => Node {
            rank,
            host,
            cores: IdSet::new(alloc),
            gpus: IdSet::new(alloc),
        },
    })
}

/// The hosts at their ranks.
fn joined(
    alloc: Global,
    entries: &[Entry],
    places: &BTreeMap<u32, usize>,
    ranks: &[u32],
    hosts: &[Bytes],
) -> Result<Vec<Node>, AllocError>
    requires placed { IsRankIndex places.now entries.now }
    requires same { length ranks.now ≡ length hosts.now }
    ensures { IfOk result (λ nodes. nodes.items ≡ nodes_with entries.now ranks.now hosts.now) }
{
    let mut nodes = Vec::new(alloc);
    for (i, rank) in ranks.iter().enumerate() {
        let entry = entry_with(entries, places, *rank);
        nodes.push(node_of(alloc, entry, *rank, &hosts[i])?)?;
    }
    Ok(nodes)
}

/// Whether no name stands twice.
fn are_different(alloc: Global, names: &[Bytes]) -> Result<bool, AllocError>
    ensures { IfOk result (λ b. b ≡ are_distinct names.now) }
{
    let mut seen = BTreeSet::new(alloc);
    for name in names {
        if !seen.insert(name.copy()?)? {
            return Ok(false);
        }
    }
    Ok(true)
}

/// A count, as far as 32 bits tell it.
fn count_told(count: usize) -> u32
    ensures { result ≡ told_count count }
{
    count.min(u32::MAX as usize) as u32
}

/// The hosts at the ranks of entries, to which they belong in order.
#[tactic(auto, unfolding(crate::specs::Reading::nodes_of))]
pub(crate) fn hosts_at_ranks(
    alloc: Global,
    entries: &[Entry],
    hosts: &[Bytes],
) -> Result<Vec<Node>, RFault>
    ensures found { Gives lasting (λ nodes. nodes.items) result (nodes_of entries.now hosts.now) }
    ensures valid { IfOk result (λ nodes. AreHosts nodes.items) }
    ensures names { IfOk result (λ nodes. host_names nodes.items ≡ hosts.now) }
{
    let places = places_of(alloc, entries)?;
    let ranks = all_ranks(alloc, entries)?;
    if ranks.len() != hosts.len() {
        return Err(RFault::HostsDiffer {
            ranks: count_told(ranks.len()),
            hosts: count_told(hosts.len()),
        });
    }
    if !are_different(alloc, hosts)? {
        return Err(RFault::HostTwice);
    }
    Ok(joined(alloc, entries, &places, &ranks, hosts)?)
}
