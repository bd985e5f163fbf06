//! The resources of a jobspec: slots, and the nodes that have them.
ghost use Rattle.std.specs.Prelude.{IfOk, map};
ghost use Rattle.outcomes.specs.Outcomes.{Finds};
ghost use Rattle.serde_json.specs.View.{view};
ghost use Rattle.job_spec.specs.Resources.{is_core, units_alone, units_at, units_of_one, units_of_two, units_of, slots_of, exclusive_of, nodes_of, spread_of, wanted_of};
ghost use Rattle.job_spec.specs.Seen.{units_seen, slots_seen, wanted_seen, AreUnits, AreSlots, IsWanted};

use crate::faults::{Place, SpecFault};
use crate::fields::{count_at, list, only, text};
use serde_json::Value;

/// The units of a slot.
#[derive(Clone, Copy)]
pub struct Units {
    pub cores: u32,
    pub gpus: u32,
}

/// So many slots of these units, and their label.
#[derive(Clone, Copy)]
pub struct Slots<'a> {
    pub count: u32,
    pub label: &'a str,
    pub units: Units,
}

/// Slots spread over hosts, or the same on each of so many nodes.
#[derive(Clone, Copy)]
pub struct Wanted<'a> {
    pub nodes: Option<u32>,
    pub exclusive: bool,
    pub slots: Slots<'a>,
}

/// Whether a vertex of a slot is its core; else it is its gpu.
#[tactic(auto, unfolding(crate::specs::Resources::is_core))]
fn is_core(value: &Value) -> Result<bool, SpecFault>
    ensures { Finds (λ b. b) result (is_core (view value.now)) }
{
    let kind = text(value, "type", Place::Slot)?;
    if kind == "core" {
        Ok(true)
    } else if kind == "gpu" {
        Ok(false)
    } else {
        Err(SpecFault::BadShape(Place::Slot))
    }
}

/// The units of a core without a gpu.
#[tactic(auto, unfolding(crate::specs::Resources::units_alone))]
fn units_alone(core: &Value) -> Result<Units, SpecFault>
    ensures found { Finds units_seen result (units_alone (view core.now)) }
    ensures units { IfOk result AreUnits }
{
    let cores = count_at(core, Place::Core)?;
    Ok(Units { cores, gpus: 0 })
}

/// The units of a core and a gpu.
#[tactic(auto, unfolding(crate::specs::Resources::units_at))]
fn units_at(core: &Value, gpu: &Value) -> Result<Units, SpecFault>
    ensures found { Finds units_seen result (units_at (view core.now) (view gpu.now)) }
    ensures units { IfOk result AreUnits }
{
    let cores = count_at(core, Place::Core)?;
    let gpus = count_at(gpu, Place::Gpu)?;
    Ok(Units { cores, gpus })
}

/// The units of two vertices, one of each type.
#[tactic(auto, unfolding(crate::specs::Resources::units_of_two))]
fn units_of_two(first: &Value, second: &Value) -> Result<Units, SpecFault>
    ensures found { Finds units_seen result (units_of_two (view first.now) (view second.now)) }
    ensures units { IfOk result AreUnits }
{
    let is_first = is_core(first)?;
    let is_second = is_core(second)?;
    if is_first == is_second {
        return Err(SpecFault::BadShape(Place::Slot));
    }
    if is_first {
        units_at(first, second)
    } else {
        units_at(second, first)
    }
}

/// The units of one vertex.
#[tactic(auto, unfolding(crate::specs::Resources::units_of_one))]
fn units_of_one(only: &Value) -> Result<Units, SpecFault>
    ensures found { Finds units_seen result (units_of_one (view only.now)) }
    ensures units { IfOk result AreUnits }
{
    if is_core(only)? {
        units_alone(only)
    } else {
        Err(SpecFault::BadShape(Place::Slot))
    }
}

/// One core, and at most one gpu.
#[tactic(auto, unfolding(crate::specs::Resources::units_of))]
fn units_in(vertices: &[Value]) -> Result<Units, SpecFault>
    ensures found { Finds units_seen result (units_of (map view vertices.now)) }
    ensures units { IfOk result AreUnits }
{
    match vertices {
        [only] => units_of_one(only),
        [first, second] => units_of_two(first, second),
        _ => Err(SpecFault::BadShape(Place::Slot)),
    }
}

/// The slots of a vertex.
#[tactic(auto, unfolding(crate::specs::Resources::slots_of))]
fn slots_in(value: &Value) -> Result<Slots<'_>, SpecFault>
    ensures found { Finds slots_seen result (slots_of (view value.now)) }
    ensures slots { IfOk result AreSlots }
{
    let count = count_at(value, Place::Slot)?;
    let label = text(value, "label", Place::Slot)?;
    let vertices = list(value, "with", Place::Slot)?;
    let units = units_in(vertices)?;
    Ok(Slots {
        count,
        label,
        units,
    })
}

/// Whether a node is exclusive, which may not be said.
#[tactic(auto, unfolding(crate::specs::Resources::exclusive_of))]
fn exclusive_in(value: &Value) -> Result<bool, SpecFault>
    ensures { Finds (λ b. b) result (exclusive_of (view value.now)) }
{
    match value.get("exclusive") {
        Some(found) => found.as_bool().ok_or(SpecFault::BadField(Place::Node)),
        None => Ok(false),
    }
}

/// The same slots on each of so many nodes.
#[tactic(auto, unfolding(crate::specs::Resources::nodes_of))]
fn nodes_in(value: &Value) -> Result<Wanted<'_>, SpecFault>
    ensures found { Finds wanted_seen result (nodes_of (view value.now)) }
    ensures wanted { IfOk result IsWanted }
{
    let count = count_at(value, Place::Node)?;
    let exclusive = exclusive_in(value)?;
    let vertex = only(list(value, "with", Place::Node)?, Place::Node)?;
    if text(vertex, "type", Place::Node)? != "slot" {
        return Err(SpecFault::BadShape(Place::Node));
    }
    let slots = slots_in(vertex)?;
    Ok(Wanted {
        nodes: Some(count),
        exclusive,
        slots,
    })
}

/// Slots spread over hosts.
#[tactic(auto, unfolding(crate::specs::Resources::spread_of))]
fn spread_in(value: &Value) -> Result<Wanted<'_>, SpecFault>
    ensures found { Finds wanted_seen result (spread_of (view value.now)) }
    ensures wanted { IfOk result IsWanted }
{
    let slots = slots_in(value)?;
    Ok(Wanted {
        nodes: None,
        exclusive: false,
        slots,
    })
}

/// What a jobspec asks for.
#[tactic(auto, unfolding(crate::specs::Resources::wanted_of))]
pub fn wanted_in(value: &Value) -> Result<Wanted<'_>, SpecFault>
    ensures found { Finds wanted_seen result (wanted_of (view value.now)) }
    ensures wanted { IfOk result IsWanted }
{
    let vertex = only(
        list(value, "resources", Place::Resources)?,
        Place::Resources,
    )?;
    let kind = text(vertex, "type", Place::Resources)?;
    if kind == "slot" {
        spread_in(vertex)
    } else if kind == "node" {
        nodes_in(vertex)
    } else {
        Err(SpecFault::BadShape(Place::Resources))
    }
}
