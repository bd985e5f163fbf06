//! Printing an R.
ghost use Rattle.std.specs.Prelude.{◌≡◌, ◌<◌, ◌≤◌, ◌∷◌, ◌++◌, [], IfOk, OnOk, Ok, map, length, All, slice_set, slice_index_or};
ghost use Rattle.std.specs.List.{AllByRecursion};
ghost use Rattle.std.specs.Str.{IsUtf8};
ghost use Rattle.serde_json.specs.Data.{string, depth};
ghost use Rattle.serde_json.specs.Read.{max_depth};
ghost use Rattle.fl_json.specs.Valid.{IsValid};
ghost use Rattle.serde_json.specs.View.{view};
ghost use Rattle.idset.specs.Ids.{list_of};
ghost use Rattle.idset.specs.Runs.{printed};
ghost use Rattle.hostlist.specs.Names.{AreHostNames};
ghost use Rattle.resource_set.specs.Units.{AreHosts, host_names};
ghost use Rattle.resource_set.specs.Writing.{framed, data_of, r_text, single, entries_of, entries_data, names_data, written, with_rank, children_data, group_data, AreNamesSpelled, IsSpelled, IsWritten, IsEntrySpelled};
ghost use Rattle.resource_set.specs.Reading.{told};
ghost use Rattle.resource_set.specs.Valid.{IsR};
ghost use Rattle.resource_set.specs.declared.entries.Group.{Group};

use crate::entries::Group;
use crate::node::{Node, Resources};
use fl_json::Value;
use hostlist::HostList;
use idset::IdSet;
use lists::{Bytes, Copied, ListOf};
use serde_json::json;
use std::alloc::{AllocError, Global};
use std::collections::BTreeMap;

/// The texts of a host's cores and GPUs.
fn texts_of(alloc: Global, node: &Node) -> Result<ListOf<Bytes>, AllocError>
    ensures texts { IfOk result (λ texts. texts
        ≡ printed node.now.cores ∷ printed node.now.gpus ∷ []) }
    ensures spelled { OnOk result (IsSpelled node.now.cores × IsSpelled node.now.gpus) }
{
    let mut texts = ListOf::new(alloc);
    texts.push(Bytes::from_vec(node.cores.print()?))?;
    texts.push(Bytes::from_vec(node.gpus.print()?))?;
    Ok(texts)
}

/// The group of one host.
fn group_of(alloc: Global, node: &Node) -> Result<Group, AllocError>
    ensures { IfOk result (λ group. group ≡ written (single node.now)) }
{
    let mut ranks = ListOf::new(alloc);
    ranks.push(node.rank)?;
    Ok(Group {
        ranks,
        cores: Bytes::from_vec(node.cores.print()?),
        gpus: Bytes::from_vec(node.gpus.print()?),
    })
}

/// Adds a rank to the group at a place.
fn add_rank(groups: &mut Vec<Group>, place: usize, rank: u32) -> Result<(), AllocError>
    requires { place < length groups.old.items }
    ensures { OnOk result ((d : Group) → groups.new.items
        ≡ slice_set groups.old.items place
        (with_rank rank (slice_index_or groups.old.items place d))) }
{
    let group = &mut groups[place];
    group.ranks.push(rank)?;
    Ok(())
}

/// The hosts put together by their cores and GPUs, in the order of their first hosts.
fn groups_of(alloc: Global, nodes: &[Node]) -> Result<Vec<Group>, AllocError>
    ensures groups { IfOk result (λ groups. groups.items ≡ map written (entries_of nodes.now)) }
    ensures spelled { OnOk result (AllByRecursion IsWritten (entries_of nodes.now)) }
{
    let mut groups = Vec::new(alloc);
    let mut places: BTreeMap<ListOf<Bytes>, usize> = BTreeMap::new(alloc);
    for node in nodes {
        let texts = texts_of(alloc, node)?;
        match places.get(&texts).copied() {
            Some(place) => add_rank(&mut groups, place, node.rank)?,
            None => {
                places.insert(texts, groups.len())?;
                groups.push(group_of(alloc, node)?)?;
            }
        }
    }
    Ok(groups)
}

/// A text as a JSON value.
fn text_value(text: Vec<u8>) -> Value
    requires { IsUtf8 text.items }
    ensures { view result ≡ string text.items }
{
    Value::String(String::from_utf8(text).unwrap())
}

/// The cores and GPUs of a group as a JSON value.
fn children_value(alloc: Global, group: &Group) -> Result<Value, AllocError>
    requires cores { IsUtf8 group.now.cores }
    requires gpus { IsUtf8 group.now.gpus }
    ensures { IfOk result (λ v. view v ≡ children_data group.now) }
{
    let core = text_value(group.cores.copy()?.into_vec());
    if group.gpus.as_slice().is_empty() {
        return json!(in alloc; {"core": core});
    }
    let gpu = text_value(group.gpus.copy()?.into_vec());
    json!(in alloc; {"core": core, "gpu": gpu})
}

/// A group as a JSON value.
fn group_value(alloc: Global, group: &Group) -> Result<Value, AllocError>
    requires ranks { All (λ rank. rank < 65536) group.now.ranks }
    requires cores { IsUtf8 group.now.cores }
    requires gpus { IsUtf8 group.now.gpus }
    ensures value { IfOk result (λ v. view v ≡ group_data group.now (list_of group.now.ranks)) }
    ensures spelled { OnOk result (IsSpelled (list_of group.now.ranks)) }
{
    let children = children_value(alloc, group)?;
    let ranks = IdSet::of_ids(alloc, group.ranks.as_slice())?;
    let rank = text_value(ranks.print()?);
    json!(in alloc; {"children": children, "rank": rank})
}

/// Adds a group to entries that stand as JSON values.
fn push_group(alloc: Global, values: &mut Vec<Value>, group: &Group) -> Result<(), AllocError>
    requires ranks { All (λ rank. rank < 65536) group.now.ranks }
    requires cores { IsUtf8 group.now.cores }
    requires gpus { IsUtf8 group.now.gpus }
    ensures value { OnOk result (map view values.new.items
        ≡ map view values.old.items ++ group_data group.now (list_of group.now.ranks) ∷ []) }
    ensures spelled { OnOk result (IsSpelled (list_of group.now.ranks)) }
{
    let value = group_value(alloc, group)?;
    values.push(value)?;
    Ok(())
}

/// The entries of hosts as a JSON value.
fn entries_value(alloc: Global, nodes: &[Node]) -> Result<Value, AllocError>
    requires { AreHosts nodes.now }
    ensures value { IfOk result (λ v. view v ≡ entries_data nodes.now) }
    ensures spelled { OnOk result (AllByRecursion IsEntrySpelled (entries_of nodes.now)) }
{
    let groups = groups_of(alloc, nodes)?;
    let mut values = Vec::new(alloc);
    for group in groups.as_slice() {
        push_group(alloc, &mut values, group)?;
    }
    Ok(Value::Array(values))
}

/// The hosts' names.
fn names_of(alloc: Global, nodes: &[Node]) -> Result<HostList, AllocError>
    requires { AreHostNames (host_names nodes.now) }
    ensures { IfOk result (λ names. names ≡ host_names nodes.now) }
{
    let mut hosts = HostList::new(alloc);
    for node in nodes {
        hosts.push(node.host.as_slice())?;
    }
    Ok(hosts)
}

/// The hosts' names as a JSON value: a list of one text, or of none.
fn hosts_value(alloc: Global, nodes: &[Node]) -> Result<Value, AllocError>
    requires named { AreHostNames (host_names nodes.now) }
    requires few { length nodes.now ≤ 65536 }
    ensures value { IfOk result (λ v. view v ≡ names_data nodes.now) }
    ensures spelled { OnOk result (AreNamesSpelled nodes.now) }
{
    let mut texts = Vec::new(alloc);
    if !nodes.is_empty() {
        let names = names_of(alloc, nodes)?;
        texts.push(text_value(names.print()?))?;
    }
    Ok(Value::Array(texts))
}

/// Entries and hosts in an R.
fn framed_value(
    alloc: Global,
    entries: Value,
    hosts: Value,
    starttime: u64,
    expiration: u64,
) -> Result<Value, AllocError>
    ensures { IfOk result (λ v. view v
        ≡ framed (view entries) (view hosts) starttime expiration) }
{
    json!(in alloc; {
        "execution": {
            "R_lite": entries,
            "expiration": expiration,
            "nodelist": hosts,
            "starttime": starttime
        },
        "version": 1u32
    })
}

/// Resources as a JSON value.
#[tactic(auto, unfolding(crate::specs::Writing::data_of))]
fn value_of(alloc: Global, r: &Resources) -> Result<Value, AllocError>
    requires { IsR r.now }
    ensures value { IfOk result (λ v. view v ≡ data_of r.now) }
    ensures valid { IfOk result (λ v. IsValid (view v)) }
    ensures nests { IfOk result (λ v. depth (view v) ≤ max_depth) }
    ensures entries { OnOk result (AllByRecursion IsEntrySpelled (entries_of r.now.nodes)) }
    ensures hosts { OnOk result (AreNamesSpelled r.now.nodes) }
{
    let nodes = r.nodes.as_slice();
    let entries = entries_value(alloc, nodes)?;
    let hosts = hosts_value(alloc, nodes)?;
    let value = framed_value(alloc, entries, hosts, r.starttime, r.expiration)?;
    Ok(value)
}

/// The canonical text of resources (R, version 1, of Flux RFC 20), which is read again as these
/// resources.
pub fn print(alloc: Global, r: &Resources) -> Result<Vec<u8>, AllocError>
    requires { IsR r.now }
    ensures canonical { IfOk result (λ text. text.items ≡ r_text r.now) }
    ensures read_again { IfOk result (λ text. told text.items ≡ Ok r.now) }
{
    let value = value_of(alloc, r)?;
    fl_json::text(alloc, &value)
}
