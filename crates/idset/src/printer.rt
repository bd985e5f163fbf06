//! The printer of idsets (Flux RFC 22).
ghost use Rattle.std.specs.Prelude.{◌≡◌, ◌++◌, IfOk, OnOk, map, string_bytes};
ghost use Rattle.std.specs.List.{join_with_byte};
ghost use Rattle.idset.specs.Runs.{range_text};

use crate::ranges::IdRange;
use std::alloc::{AllocError, Global};

/// Adds a range's text: its one id, or its first and last one with a dash between.
fn add(text: &mut String, range: IdRange) -> Result<(), AllocError>
    ensures { OnOk result (string_bytes text.new ≡ string_bytes text.old ++ range_text range) }
{
    let first = range.first;
    let last = range.last;
    if first == last {
        write!(text, "{first}")
    } else {
        write!(text, "{first}-{last}")
    }
}

/// The text of ranges, with a comma between each two.
pub fn text_of(alloc: Global, ranges: &[IdRange]) -> Result<String, AllocError>
    ensures { IfOk result (λ text. string_bytes text
        ≡ join_with_byte 44 (map range_text ranges.now)) }
{
    let mut text = String::new(alloc);
    for (place, range) in ranges.iter().enumerate() {
        if place != 0 {
            text.push(',')?;
        }
        add(&mut text, *range)?;
    }
    Ok(text)
}
