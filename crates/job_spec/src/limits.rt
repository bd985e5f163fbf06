//! The attributes of a jobspec: its duration and its dependencies (Flux RFC 25 and 26).
ghost use Rattle.std.specs.Prelude.{◌≡◌, map};
ghost use Rattle.std.specs.Option.{ok_or};
ghost use Rattle.outcomes.specs.Outcomes.{Finds, Gives};
ghost use Rattle.serde_json.specs.View.{view};
ghost use Rattle.job_spec.specs.Fields.{each, lasting};
ghost use Rattle.job_spec.specs.Limits.{attributes_of, system_of, duration_of, scheme_of, need_of, needs_of, limits_of};
ghost use Rattle.job_spec.specs.Seen.{value_seen, limits_seen};

use crate::faults::{Place, SpecFault};
use crate::fields::{elements, text};
use crate::spec::{Depend, Needs, Scheme};
use lists::ListOf;
use serde_json::Value;
use std::alloc::Global;

/// How long a job may run, and on which jobs it depends.
#[derive(Drop)]
pub struct Limits {
    pub duration: u64,
    pub depends: Needs,
}

/// The attributes, unless they are missing or null.
#[tactic(auto, unfolding(crate::specs::Limits::attributes_of))]
fn attributes_in(value: &Value) -> Result<Option<&Value>, SpecFault>
    ensures { Finds value_seen result (attributes_of (view value.now)) }
{
    match value.get("attributes") {
        None => Ok(None),
        Some(found) if found.is_null() => Ok(None),
        Some(found) if found.is_object() => Ok(Some(found)),
        Some(_) => Err(SpecFault::BadField(Place::Attributes)),
    }
}

/// The attributes of the system, unless they are missing.
#[tactic(auto, unfolding(crate::specs::Limits::system_of))]
fn system_in(value: &Value) -> Result<Option<&Value>, SpecFault>
    ensures { Finds value_seen result (system_of (view value.now)) }
{
    let Some(attributes) = attributes_in(value)? else {
        return Ok(None);
    };
    match attributes.get("system") {
        None => Ok(None),
        Some(found) if found.is_object() => Ok(Some(found)),
        Some(_) => Err(SpecFault::BadField(Place::Attributes)),
    }
}

/// In seconds; 0 is no limit.
#[tactic(auto, unfolding(crate::specs::Limits::duration_of))]
fn duration_in(system: &Value) -> Result<u64, SpecFault>
    ensures { Finds (λ n. n) result (duration_of (view system.now)) }
{
    match system.get("duration") {
        None => Ok(0),
        Some(found) => found.as_u64().ok_or(SpecFault::BadField(Place::Duration)),
    }
}

/// The scheme of this name.
fn scheme_of(name: &str) -> Option<Scheme>
    ensures { result ≡ scheme_of name.now }
{
    if name == "after" {
        Some(Scheme::After)
    } else if name == "afterany" {
        Some(Scheme::AfterAny)
    } else if name == "afterok" {
        Some(Scheme::AfterOk)
    } else if name == "afternotok" {
        Some(Scheme::AfterNotOk)
    } else {
        None
    }
}

/// A dependency.
#[tactic(auto, unfolding(crate::specs::Limits::need_of))]
fn need_in(value: &Value) -> Result<Depend, SpecFault>
    ensures { Finds (λ need. need) result (need_of (view value.now)) }
{
    let name = text(value, "scheme", Place::Dependencies)?;
    let Some(scheme) = scheme_of(name) else {
        return Err(SpecFault::BadShape(Place::Dependencies));
    };
    let id = text(value, "value", Place::Dependencies)?;
    match fluid_ids::read(id.as_bytes()) {
        Ok(on) => Ok(Depend { scheme, on }),
        Err(_) => Err(SpecFault::BadField(Place::Dependencies)),
    }
}

/// The dependencies of a list.
fn needs_in_list(alloc: Global, values: &[Value]) -> Result<Needs, SpecFault>
    ensures { Gives lasting (λ needs. needs) result (each need_of (map view values.now)) }
{
    let mut needs = ListOf::new(alloc);
    for value in values {
        needs.push(need_in(value)?)?;
    }
    Ok(needs)
}

/// The dependencies, of which there may be none.
#[tactic(auto, unfolding(crate::specs::Limits::needs_of))]
fn needs_in(alloc: Global, system: &Value) -> Result<Needs, SpecFault>
    ensures { Gives lasting (λ needs. needs) result (needs_of (view system.now)) }
{
    match system.get("dependencies") {
        None => Ok(ListOf::new(alloc)),
        Some(found) => needs_in_list(alloc, elements(found, Place::Dependencies)?),
    }
}

/// What the attributes of a jobspec say.
#[tactic(auto, unfolding(crate::specs::Limits::limits_of, crate::specs::Limits::duration_of, crate::specs::Limits::needs_of))]
pub fn limits_in(alloc: Global, value: &Value) -> Result<Limits, SpecFault>
    ensures { Gives lasting limits_seen result (limits_of (view value.now)) }
{
    let Some(system) = system_in(value)? else {
        return Ok(Limits {
            duration: 0,
            depends: ListOf::new(alloc),
        });
    };
    let duration = duration_in(system)?;
    let depends = needs_in(alloc, system)?;
    Ok(Limits { duration, depends })
}
