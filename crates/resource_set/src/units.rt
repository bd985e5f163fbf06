//! What is left of resources without others, and whether some lie in others.
ghost use Rattle.std.specs.Prelude.{◌≡◌, ◌<◌, ◌≤◌, ◌↔◌, IfOk, IsTrue, map, ◌==◌, ◌&&◌, not, length, false, true, IfSome, MatchOption, option_copied};
ghost use Rattle.std.specs.List.{list_all, list_any, find, HoldsAt};
ghost use Rattle.idset.specs.Ids.{has, ids_from};
ghost use Rattle.resource_set.specs.Places.{place_of, IsHostIndex};
ghost use Rattle.resource_set.specs.Units.{LiesIn, AreHosts, AreDistinct, IsDifference, host_names, is_named, without_ids, without_node, without_nodes, has_ids_of, one_has_units_of, lies_on};
ghost use Rattle.resource_set.specs.Valid.{IsR};

use crate::node::{Node, NodeList, Resources};
use idset::IdSet;
use idset::ranges::IdRange;
use lists::{Bytes, Copied};
use std::alloc::{AllocError, Global};
use std::collections::BTreeMap;

/// Where each host stands.
fn places_of(alloc: Global, nodes: &[Node]) -> Result<BTreeMap<Bytes, usize>, AllocError>
    requires { AreDistinct (host_names nodes.now) }
    ensures { IfOk result (λ places. IsHostIndex places nodes.now) }
{
    let mut places = BTreeMap::new(alloc);
    for (place, node) in nodes.iter().enumerate() {
        places.insert(node.host.copy()?, place)?;
    }
    Ok(places)
}

/// The ids of a set that another doesn't have.
fn ids_without(ids: &IdSet, taken: &IdSet) -> Result<IdSet, AllocError>
    ensures { IfOk result (λ left. left ≡ without_ids ids.now taken.now) }
{
    if ids.count() == 0 || taken.count() == 0 {
        return ids.copy();
    }
    ids.minus(taken)
}

/// A host without what another has.
fn node_without(node: &Node, taken: &Node) -> Result<Node, AllocError>
    ensures { IfOk result (λ left. left ≡ without_node taken.now node.now) }
{
    Ok(Node {
        rank: node.rank,
        host: node.host.copy()?,
        cores: ids_without(&node.cores, &taken.cores)?,
        gpus: ids_without(&node.gpus, &taken.gpus)?,
    })
}

/// The host of this name, if it is there.
fn node_there<'a>(
    nodes: &'a [Node],
    places: &BTreeMap<Bytes, usize>,
    host: &Bytes,
) -> Option<&'a Node>
    requires { IsHostIndex places.now nodes.now }
    ensures { option_copied result ≡ find (is_named host.now) nodes.now }
{
    match places.get(host) {
        Some(place) => nodes.get(*place),
        None => None,
    }
}

/// A host without what others have of it, by their places.
fn node_left(
    node: &Node,
    taken: &[Node],
    places: &BTreeMap<Bytes, usize>,
) -> Result<Node, AllocError>
    requires distinct { AreDistinct (host_names taken.now) }
    requires placed { IsHostIndex places.now taken.now }
    ensures { IfOk result (λ left. left ≡ without_nodes taken.now node.now) }
{
    match node_there(taken, places, &node.host) {
        Some(there) => node_without(node, there),
        None => node.copy(),
    }
}

/// The hosts of the first, each without what the second has of it. They stay, also where nothing is
/// left of them, and so do the seconds.
pub fn minus(alloc: Global, a: &Resources, b: &Resources) -> Result<Resources, AllocError>
    requires { AreHosts b.now.nodes }
    ensures left { IfOk result (λ r. r
        ≡ record a.now { nodes = map (without_nodes b.now.nodes) a.now.nodes }) }
    ensures units { IfOk result (λ r. IsDifference a.now.nodes b.now.nodes r.nodes) }
    ensures valid { IfOk result (λ r. IsR a.now → IsR r) }
{
    let taken = b.nodes.as_slice();
    let places = places_of(alloc, taken)?;
    let mut nodes = NodeList::new(alloc);
    for node in a.nodes.as_slice() {
        nodes.push(node_left(node, taken, &places)?)?;
    }
    Ok(Resources {
        nodes,
        starttime: a.starttime,
        expiration: a.expiration,
    })
}

/// Where a host stands first, if it stands there.
fn place_in(nodes: &[Node], host: &Bytes) -> Option<usize>
    ensures place { result ≡ place_of (is_named host.now) nodes.now }
    ensures inside { IfSome result (λ place. place < length nodes.now) }
{
    for (place, node) in nodes.iter().enumerate() {
        if node.host.as_slice() == host.as_slice() {
            return Some(place);
        }
    }
    None
}

/// A host among several that are walked from a place on, and then from the first one.
fn place_around(nodes: &[Node], host: &Bytes, from: usize) -> Option<usize>
    requires { from ≤ length nodes.now }
    ensures { MatchOption result (list_any (is_named host.now) nodes.now ≡ false) (λ place.
        (place < length nodes.now)
        × HoldsAt (λ node. is_named host.now node ≡ true) nodes.now place) }
{
    let (front, back) = nodes.split_at(from);
    match place_in(back, host) {
        Some(place) => Some(from + place),
        None => place_in(front, host),
    }
}

/// Whether all ids of a range are in a set.
fn is_range_among(range: IdRange, others: &IdSet) -> bool
    requires { range.last < 65536 }
    ensures { result ≡ list_all (has others.now) (ids_from range.first range.last) }
{
    for id in range.first..range.last + 1 {
        if !others.has(id) {
            return false;
        }
    }
    true
}

/// Whether all of some ids are among others.
fn are_among(ids: &IdSet, others: &IdSet) -> bool
    ensures { result ≡ list_all (has others.now) ids.now }
{
    for range in ids.ranges() {
        if !is_range_among(*range, others) {
            return false;
        }
    }
    true
}

/// Whether a host has all ids of another.
fn has_ids(whole: &Node, part: &Node) -> bool
    ensures { result ≡ has_ids_of whole.now part.now }
{
    are_among(&part.cores, &whole.cores) && are_among(&part.gpus, &whole.gpus)
}

/// The place of the host that has all units of another one, if there is one.
fn place_with_units(whole: &[Node], part: &Node, from: usize) -> Option<usize>
    requires distinct { AreDistinct (host_names whole.now) }
    requires from { from ≤ length whole.now }
    ensures { MatchOption result (one_has_units_of whole.now part.now ≡ false)
        (λ place. (place < length whole.now) × (one_has_units_of whole.now part.now ≡ true)) }
{
    match place_around(whole, &part.host, from) {
        Some(place) => {
            if !has_ids(&whole[place], part) {
                return None;
            }
            Some(place)
        }
        None => None,
    }
}

/// Whether a host has units.
fn has_units(node: &Node) -> bool
    ensures { result ≡ not (length node.now.cores == 0 && length node.now.gpus == 0) }
{
    node.cores.first().is_some() || node.gpus.first().is_some()
}

/// Whether every unit of some hosts is one of others. Hosts are sought from the last one that was
/// found on.
fn are_within(part: &[Node], whole: &[Node]) -> bool
    requires { AreDistinct (host_names whole.now) }
    ensures { result ≡ list_all (lies_on whole.now) part.now }
{
    let mut next = 0;
    for node in part {
        if has_units(node) {
            match place_with_units(whole, node, next) {
                Some(place) => next = place + 1,
                None => return false,
            }
        }
    }
    true
}

/// Whether every unit of the first is one of the second. It takes no memory: two lists of hosts in
/// one order are walked once.
pub fn within(a: &Resources, b: &Resources) -> bool
    requires { AreHosts b.now.nodes }
    ensures { IsTrue result ↔ LiesIn a.now.nodes b.now.nodes }
{
    are_within(a.nodes.as_slice(), b.nodes.as_slice())
}
