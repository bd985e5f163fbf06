//! The values under the keys of a jobspec.
ghost use Rattle.std.specs.Prelude.{IfOk, map, codes};
ghost use Rattle.outcomes.specs.Outcomes.{Finds};
ghost use Rattle.serde_json.specs.Find.{as_str};
ghost use Rattle.serde_json.specs.View.{view};
ghost use Rattle.job_spec.specs.Fields.{as_any, as_list, of_kind, field, only, count_of, count_at};
ghost use Rattle.job_spec.specs.Sound.{IsCount};

use crate::faults::{Place, SpecFault};
use serde_json::Value;

/// The value under a key that must be there.
pub fn field<'a>(value: &'a Value, key: &str, place: Place) -> Result<&'a Value, SpecFault>
    ensures { Finds (λ v. view v.now) result (field as_any place key.now (view value.now)) }
{
    match value.get(key) {
        Some(found) => Ok(found),
        None => Err(SpecFault::BadField(place)),
    }
}

/// The text under a key that must be there.
pub fn text<'a>(value: &'a Value, key: &str, place: Place) -> Result<&'a str, SpecFault>
    ensures { Finds (λ s. s.now) result (field as_str place key.now (view value.now)) }
{
    match field(value, key, place)?.as_str() {
        Some(text) => Ok(text),
        None => Err(SpecFault::BadField(place)),
    }
}

/// The elements of a list.
pub fn elements(value: &Value, place: Place) -> Result<&[Value], SpecFault>
    ensures { Finds (λ vs. map view vs.now) result (of_kind as_list place (view value.now)) }
{
    match value.as_array() {
        Some(items) => Ok(items.as_slice()),
        None => Err(SpecFault::BadField(place)),
    }
}

/// The list under a key that must be there.
pub fn list<'a>(value: &'a Value, key: &str, place: Place) -> Result<&'a [Value], SpecFault>
    ensures { Finds (λ vs. map view vs.now) result (field as_list place key.now (view value.now)) }
{
    elements(field(value, key, place)?, place)
}

/// The one element of a list.
pub fn only(values: &[Value], place: Place) -> Result<&Value, SpecFault>
    ensures { Finds (λ v. view v.now) result (only place (map view values.now)) }
{
    match values {
        [value] => Ok(value),
        _ => Err(SpecFault::BadShape(place)),
    }
}

/// A count: a number from 1 to 65,536.
pub fn count(value: &Value, place: Place) -> Result<u32, SpecFault>
    ensures found { Finds (λ n. n) result (count_of place (view value.now)) }
    ensures count { IfOk result IsCount }
{
    if !value.is_number() {
        return Err(SpecFault::BadField(place));
    }
    match value.as_u64() {
        Some(count) if 1 <= count && count <= 65_536 => Ok(count as u32),
        _ => Err(SpecFault::BadCount(place)),
    }
}

/// The count of a vertex.
pub fn count_at(value: &Value, place: Place) -> Result<u32, SpecFault>
    ensures found { Finds (λ n. n) result (count_at place (codes "count") (view value.now)) }
    ensures count { IfOk result IsCount }
{
    count(field(value, "count", place)?, place)
}
