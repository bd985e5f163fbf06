//! Reading an R.
ghost use Rattle.std.specs.Prelude.{IfOk};
ghost use Rattle.outcomes.specs.Outcomes.{Gives};
ghost use Rattle.serde_json.specs.View.{view, items_view};
ghost use Rattle.resource_set.specs.Reading.{entry_of, entries_in, executed, resources_of, told, lasting};
ghost use Rattle.resource_set.specs.Valid.{IsR};

use crate::entries::Entry;
use crate::faults::{RFault, RKey};
use crate::fields::{
    has_version_1, hosts_under, ids_or_none, ids_under, list_under, object_under, seconds_under,
};
use crate::node::{NodeList, Resources};
use crate::placing::hosts_at_ranks;
use fl_json::{JsonFault, Value};
use std::alloc::Global;

/// The entry that a value tells.
#[tactic(auto, unfolding(crate::specs::Reading::entry_of))]
fn entry_in(alloc: Global, value: &Value) -> Result<Entry, RFault>
    ensures { Gives lasting (λ e. e) result (entry_of (view value.now)) }
{
    if !value.is_object() {
        return Err(RFault::BadField(RKey::RLite));
    }
    let ranks = ids_under(alloc, value, "rank", RKey::Rank)?;
    let children = object_under(value, "children", RKey::Children)?;
    let cores = ids_under(alloc, children, "core", RKey::Core)?;
    let gpus = ids_or_none(alloc, children, "gpu", RKey::Gpu)?;
    Ok(Entry { ranks, cores, gpus })
}

/// The entries that values tell.
fn entries_told(alloc: Global, values: &[Value]) -> Result<Vec<Entry>, RFault>
    ensures { Gives lasting (λ entries. entries.items) result (entries_in (items_view values.now)) }
{
    let mut entries = Vec::new(alloc);
    for value in values {
        entries.push(entry_in(alloc, value)?)?;
    }
    Ok(entries)
}

/// The resources of the object under `execution`.
#[tactic(auto, unfolding(crate::specs::Reading::executed))]
fn executed_in(alloc: Global, value: &Value) -> Result<Resources, RFault>
    ensures found { Gives lasting (λ r. r) result (executed (view value.now)) }
    ensures valid { IfOk result IsR }
{
    let entries = entries_told(alloc, list_under(value, "R_lite", RKey::RLite)?)?;
    let hosts = hosts_under(alloc, value, "nodelist")?;
    let starttime = seconds_under(value, "starttime", RKey::Starttime)?;
    let expiration = seconds_under(value, "expiration", RKey::Expiration)?;
    let nodes = NodeList::from_vec(hosts_at_ranks(alloc, &entries, &hosts)?);
    Ok(Resources {
        nodes,
        starttime,
        expiration,
    })
}

/// The resources that a value tells.
#[tactic(auto, unfolding(crate::specs::Reading::resources_of))]
fn resources_in(alloc: Global, value: &Value) -> Result<Resources, RFault>
    ensures found { Gives lasting (λ r. r) result (resources_of (view value.now)) }
    ensures valid { IfOk result IsR }
{
    if !has_version_1(value) {
        return Err(RFault::BadVersion);
    }
    executed_in(alloc, object_under(value, "execution", RKey::Execution)?)
}

/// The resources that a text tells (R, version 1, of Flux RFC 20). Other keys are read over. The
/// hosts belong to the ranks in order, whatever the order of the entries is. Of several bad fields
/// the first is answered: `execution`, `R_lite` and its entries from first to last (`rank`,
/// `children`, `core` and `gpu` of each), `nodelist`, `starttime`, `expiration`.
pub fn read(alloc: Global, text: &[u8]) -> Result<Resources, RFault>
    ensures found { Gives lasting (λ r. r) result (told text.now) }
    ensures valid { IfOk result IsR }
{
    match fl_json::read(alloc, text) {
        Ok(value) => resources_in(alloc, &value),
        Err(JsonFault::NoMemory) => Err(RFault::NoMemory),
        Err(fault) => Err(RFault::NotJson(fault)),
    }
}
