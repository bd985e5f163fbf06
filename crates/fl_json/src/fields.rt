//! The fields of an object.
ghost use Rattle.std.specs.Prelude.{◌<◌, IfOk};
ghost use Rattle.outcomes.specs.Outcomes.{Finds};
ghost use Rattle.serde_json.specs.Data.{depth, items_depth};
ghost use Rattle.serde_json.specs.Find.{as_str, as_array};
ghost use Rattle.serde_json.specs.View.{view, items_view};
ghost use Rattle.fl_json.specs.Reading.{field_as, as_any, as_natural};
ghost use Rattle.fl_json.specs.Valid.{IsValid, AreValid};

use crate::faults::JsonFault;
use serde_json::Value;

/// What an object has under a key. `Missing` where it has nothing there, `WrongKind` where the
/// value is no object.
pub fn field<'a>(value: &'a Value, key: &str) -> Result<&'a Value, JsonFault>
    ensures value { Finds (λ v. view v.now) result (field_as as_any key.now (view value.now)) }
    ensures valid { IsValid (view value.now) → IfOk result (λ v. IsValid (view v.now)) }
    ensures inside { IfOk result (λ v. depth (view v.now) < depth (view value.now)) }
{
    match value.get(key) {
        Some(found) => Ok(found),
        None if value.is_object() => Err(JsonFault::Missing),
        None => Err(JsonFault::WrongKind),
    }
}

/// The whole number from 0 to 2^64 - 1 that an object has under a key; `WrongKind` where it is
/// something else.
pub fn number(value: &Value, key: &str) -> Result<u64, JsonFault>
    ensures { Finds (λ n. n) result (field_as as_natural key.now (view value.now)) }
{
    field(value, key)?.as_u64().ok_or(JsonFault::WrongKind)
}

/// The text that an object has under a key; `WrongKind` where it is something else.
pub fn word<'a>(value: &'a Value, key: &str) -> Result<&'a str, JsonFault>
    ensures { Finds (λ s. s.now) result (field_as as_str key.now (view value.now)) }
{
    field(value, key)?.as_str().ok_or(JsonFault::WrongKind)
}

/// The list that an object has under a key; `WrongKind` where it is something else.
pub fn list<'a>(value: &'a Value, key: &str) -> Result<&'a [Value], JsonFault>
    ensures value { Finds (λ vs. items_view vs.now) result
        (field_as as_array key.now (view value.now)) }
    ensures valid { IsValid (view value.now) → IfOk result (λ vs. AreValid (items_view vs.now)) }
    ensures inside { IfOk result (λ vs. items_depth (items_view vs.now) < depth (view value.now)) }
{
    match field(value, key)?.as_array() {
        Some(items) => Ok(items.as_slice()),
        None => Err(JsonFault::WrongKind),
    }
}
