//! The reader of JSON with whole numbers.
ghost use Rattle.std.specs.Prelude.{◌≡◌, ◌≤◌, IfOk, Ok, false};
ghost use Rattle.outcomes.specs.Outcomes.{Gives};
ghost use Rattle.serde_json.specs.Data.{depth};
ghost use Rattle.serde_json.specs.Read.{max_depth};
ghost use Rattle.serde_json.specs.View.{view};
ghost use Rattle.serde_json.specs.Written.{compact_text, has_float};
ghost use Rattle.fl_json.specs.Reading.{reading, lasting};
ghost use Rattle.fl_json.specs.Valid.{IsValid};

use crate::faults::JsonFault;
use crate::numbers::with_whole_numbers;
use serde_json::Value;
use std::alloc::{AllocError, Global};

/// The value of a JSON text whose numbers are whole, from -2^63 to 2^64 - 1. A fraction of zeros is
/// read over.
/// `BadNumber` at the first other number, and else `NotJson` where the text is no JSON for
/// `serde_json`.
pub fn read(alloc: Global, text: &[u8]) -> Result<Value, JsonFault>
    ensures value { Gives lasting (λ v. view v) result (reading text.now) }
    ensures valid { IfOk result (λ v. IsValid (view v)) }
    ensures nests { IfOk result (λ v. depth (view v) ≤ max_depth) }
{
    let text = with_whole_numbers(alloc, text)?;
    match Value::from_slice(alloc, &text) {
        Ok(value) => Ok(value),
        Err(error) if error.is_memory() => Err(JsonFault::NoMemory),
        Err(_) => Err(JsonFault::NotJson),
    }
}

/// The canonical text of a value with whole numbers: compact, with keys sorted by their bytes.
pub fn text(alloc: Global, value: &Value) -> Result<Vec<u8>, AllocError>
    ensures compact { IfOk result (λ t. has_float (view value.now) ≡ false
        → t.items ≡ compact_text (view value.now)) }
    ensures canonical { IfOk result (λ t. IsValid (view value.now)
        → t.items ≡ compact_text (view value.now)) }
    // What is written of a valid value is read again as that value.
    ensures reads_back { IfOk result (λ t. IsValid (view value.now)
        → depth (view value.now) ≤ max_depth
        → reading t.items ≡ Ok (view value.now)) }
{
    value.to_vec(alloc)
}
