//! The fields of an R.
ghost use Rattle.std.specs.Prelude.{◌≡◌, IfOk, OnOk, option_and_then, ◌++◌};
ghost use Rattle.std.specs.Option.{ok_or};
ghost use Rattle.outcomes.specs.Outcomes.{Gives};
ghost use Rattle.serde_json.specs.Find.{get, as_str};
ghost use Rattle.serde_json.specs.View.{view, items_view};
ghost use Rattle.hostlist.specs.Names.{AreHostNames};
ghost use Rattle.resource_set.specs.Reading.{object_at, list_at, ids_of, ids_at, ids_if_there, seconds_at, is_version_1, hosts_of, hosts_at, lasting};
ghost use Rattle.resource_set.specs.declared.faults.RFault.TheVariants.{BadField};
ghost use Rattle.resource_set.specs.declared.faults.RKey.TheVariants.{Nodelist};

use crate::faults::{RFault, RKey};
use fl_json::Value;
use hostlist::{HostFault, HostList};
use idset::{IdFault, IdSet};
use lists::Bytes;
use std::alloc::{AllocError, Global};

/// The object under a key.
pub(crate) fn object_under<'a>(
    value: &'a Value,
    key: &str,
    field: RKey,
) -> Result<&'a Value, RFault>
    ensures { Gives lasting (λ v. view v.now) result
        (ok_or (object_at key.now (view value.now)) (BadField field)) }
{
    match value.get(key) {
        Some(found) if found.is_object() => Ok(found),
        _ => Err(RFault::BadField(field)),
    }
}

/// The list under a key.
pub(crate) fn list_under<'a>(
    value: &'a Value,
    key: &str,
    field: RKey,
) -> Result<&'a [Value], RFault>
    ensures { Gives lasting (λ vs. items_view vs.now) result
        (ok_or (list_at key.now (view value.now)) (BadField field)) }
{
    match value.get(key).and_then(Value::as_array) {
        Some(items) => Ok(items.as_slice()),
        None => Err(RFault::BadField(field)),
    }
}

/// The ids that a text spells.
fn ids_in(alloc: Global, text: &str, field: RKey) -> Result<IdSet, RFault>
    ensures { Gives lasting (λ s. s) result (ok_or (ids_of text.now) (BadField field)) }
{
    match IdSet::read(alloc, text.as_bytes()) {
        Ok(ids) => Ok(ids),
        Err(IdFault::NoMemory) => Err(RFault::NoMemory),
        Err(_) => Err(RFault::BadField(field)),
    }
}

/// The ids that the text under a key spells.
pub(crate) fn ids_under(
    alloc: Global,
    value: &Value,
    key: &str,
    field: RKey,
) -> Result<IdSet, RFault>
    ensures { Gives lasting (λ s. s) result
        (ok_or (ids_at key.now (view value.now)) (BadField field)) }
{
    match value.get(key).and_then(Value::as_str) {
        Some(text) => ids_in(alloc, text, field),
        None => Err(RFault::BadField(field)),
    }
}

/// The ids that the text under a key spells; none where the key is missing.
pub(crate) fn ids_or_none(
    alloc: Global,
    value: &Value,
    key: &str,
    field: RKey,
) -> Result<IdSet, RFault>
    ensures { Gives lasting (λ s. s) result
        (ok_or (ids_if_there key.now (view value.now)) (BadField field)) }
{
    if value.get(key).is_none() {
        return Ok(IdSet::new(alloc));
    }
    ids_under(alloc, value, key, field)
}

/// The seconds under a key; 0 where the key is missing.
pub(crate) fn seconds_under(value: &Value, key: &str, field: RKey) -> Result<u64, RFault>
    ensures { Gives lasting (λ n. n) result
        (ok_or (seconds_at key.now (view value.now)) (BadField field)) }
{
    match value.get(key) {
        Some(found) => found.as_u64().ok_or(RFault::BadField(field)),
        None => Ok(0),
    }
}

/// Whether the version is 1.
pub(crate) fn has_version_1(value: &Value) -> bool
    ensures { result ≡ is_version_1 (view value.now) }
{
    match value.get("version").and_then(Value::as_u64) {
        Some(version) => version == 1,
        None => false,
    }
}

/// The hosts that a text spells.
fn hosts_in(alloc: Global, text: &str) -> Result<HostList, RFault>
    ensures hosts { Gives lasting (λ names. names) result
        (ok_or (hosts_of text.now) (BadField Nodelist)) }
    ensures named { IfOk result AreHostNames }
{
    match HostList::read(alloc, text.as_bytes()) {
        Ok(names) => Ok(names),
        Err(HostFault::NoMemory) => Err(RFault::NoMemory),
        Err(_) => Err(RFault::BadField(RKey::Nodelist)),
    }
}

/// The hosts that a value's text spells.
fn hosts_told(alloc: Global, value: &Value) -> Result<HostList, RFault>
    ensures hosts { Gives lasting (λ names. names) result
        (ok_or (option_and_then hosts_of (as_str (view value.now))) (BadField Nodelist)) }
    ensures named { IfOk result AreHostNames }
{
    match value.as_str() {
        Some(text) => hosts_in(alloc, text),
        None => Err(RFault::BadField(RKey::Nodelist)),
    }
}

/// Adds a list of hosts to others.
fn add_hosts(hosts: &mut Vec<Bytes>, names: &HostList) -> Result<(), AllocError>
    ensures { OnOk result (hosts.new.items ≡ hosts.old.items ++ names.now) }
{
    let alloc = *hosts.allocator();
    for name in names.as_slice() {
        hosts.push(Bytes::of(alloc, name.as_slice())?)?;
    }
    Ok(())
}

/// The hosts that the texts of a list spell, joined in their order.
pub(crate) fn hosts_under(alloc: Global, value: &Value, key: &str) -> Result<Vec<Bytes>, RFault>
    ensures hosts { Gives lasting (λ names. names.items) result
        (ok_or (hosts_at key.now (view value.now)) (BadField Nodelist)) }
    ensures named { IfOk result (λ names. AreHostNames names.items) }
{
    let texts = list_under(value, key, RKey::Nodelist)?;
    let mut hosts = Vec::new(alloc);
    for text in texts {
        add_hosts(&mut hosts, &hosts_told(alloc, text)?)?;
    }
    Ok(hosts)
}
