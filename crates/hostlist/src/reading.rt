//! The reader of hostlists (Flux RFC 29).
ghost use Rattle.std.specs.Prelude.{◌≡◌, ◌≤◌, ◌<◌, ◌+◌, ◌-◌, ◌^◌, true, length, IfOk, option_copied, min, None, IfSome, not, ◌==◌};
ghost use Rattle.std.specs.Prelude.{◌∷◌, [], if◌then◌else◌};
ghost use Rattle.std.specs.List.{take_while, prefix_len, slice_split, position_or_len};
ghost use Rattle.std.specs.Char.{is_ascii_digit};
ghost use Rattle.std.specs.Str.{all_ascii_digits};
ghost use Rattle.outcomes.specs.Outcomes.{Reads};
ghost use Rattle.hostlist.specs.Names.{is_name_byte, IsHostName, AreHostNames};
ghost use Rattle.hostlist.specs.Reading.{behind, digits_at, behind_digits, number_fault, end_fault, range_fault, piece_fault, piece_hosts, bracket_behind, pieces, text_fault, spelled, lasting};
ghost use Rattle.hostlist.specs.Parts.{IsRange, part_hosts, part_bracket, left};

use crate::faults::HostFault;
use crate::names::{HostName, Padded, is_of_name, value};
use crate::parts::{Part, Range};
use std::alloc::{AllocError, Global};

/// What stands behind this byte, where a text begins with it.
fn behind(byte: u8, text: &[u8]) -> Option<&[u8]>
    ensures { option_copied result ≡ behind byte text.now }
{
    match text {
        [first, rest @ ..] if *first == byte => Some(rest),
        _ => None,
    }
}

/// How many digits a text begins with.
fn digits_count(text: &[u8]) -> usize
    ensures count { result ≡ prefix_len is_ascii_digit text.now }
    ensures within { result ≤ length text.now }
{
    text.iter().take_while(|byte| byte.is_ascii_digit()).count()
}

/// How many bytes of a name a text begins with.
fn name_count(text: &[u8]) -> usize
    ensures count { result ≡ prefix_len is_name_byte text.now }
    ensures within { result ≤ length text.now }
{
    text.iter().take_while(|byte| is_of_name(**byte)).count()
}

/// The digits of the number that a text begins with, and what stands behind them.
fn number(place: usize, text: &[u8]) -> Result<(&[u8], &[u8]), HostFault>
    requires { place + length text.now < 2 ^ 64 }
    ensures read { Reads lasting (number_fault place text.now) (λ parts.
        (parts.0.now ≡ digits_at text.now) × (parts.1.now ≡ behind_digits text.now)) result }
    ensures digits { IfOk result (λ parts. (all_ascii_digits parts.0.now ≡ true)
        × (length parts.0.now ≤ 9) × (0 < length parts.0.now)) }
{
    let count = digits_count(text);
    if count == 0 {
        return Err(HostFault::BadText { place });
    }
    if 9 < count {
        return Err(HostFault::BadText { place: place + 9 });
    }
    Ok(text.split_at(count))
}

/// Whether the bracket ends behind a range, where the text behind the range is this.
fn ends_bracket(place: usize, text: &[u8]) -> Result<bool, HostFault>
    requires { place + length text.now < 2 ^ 64 }
    ensures { Reads lasting (end_fault place text.now) (λ ends. ends ≡ not (length text.now == 0))
        result }
{
    match text {
        [] => Ok(false),
        [b']'] => Ok(true),
        [b']', ..] => Err(HostFault::BadText { place: place + 1 }),
        _ => Err(HostFault::BadText { place }),
    }
}

/// The range that a text at this place spells.
fn read_range(place: usize, text: &[u8]) -> Result<Range, HostFault>
    requires { place + length text.now < 2 ^ 64 }
    ensures { Reads lasting (range_fault place text.now) (IsRange text.now) result }
{
    let (first, rest) = number(place, text)?;
    let tail = behind(b'-', rest).unwrap_or(text);
    let (last, rest) = number(place + (text.len() - tail.len()), tail)?;
    let width = first.len();
    let first = value(first);
    let last = value(last);
    if last < first {
        return Err(HostFault::Backwards { place });
    }
    let is_last = ends_bracket(place + (text.len() - rest.len()), rest)?;
    Ok(Range {
        width,
        first,
        last,
        is_last,
    })
}

/// The part that a piece outside of brackets spells: a host, or a name with a bracket behind it.
fn read_item<'a>(place: usize, piece: &'a [u8]) -> Result<Part<'a>, HostFault>
    requires { place + length piece.now < 2 ^ 64 }
    ensures read { Reads lasting (piece_fault place None piece.now)
        (λ part. (part_hosts part ≡ piece_hosts None piece.now)
        × (part_bracket part ≡ bracket_behind None piece.now)) result }
    ensures named { IfOk result (λ part. IsHostName part.prefix.now) }
{
    let count = name_count(piece);
    if count == 0 {
        return Err(HostFault::BadText { place });
    }
    let (prefix, rest) = piece.split_at(count);
    if rest.is_empty() {
        return Ok(Part {
            prefix,
            range: None,
        });
    }
    let Some(text) = behind(b'[', rest) else {
        return Err(HostFault::BadText {
            place: place + count,
        });
    };
    let range = read_range(place + (piece.len() - text.len()), text)?;
    Ok(Part {
        prefix,
        range: Some(range),
    })
}

/// The part that a piece spells, in the bracket behind this prefix or outside of one.
fn read_part<'a>(
    place: usize,
    bracket: Option<&'a [u8]>,
    piece: &'a [u8],
) -> Result<Part<'a>, HostFault>
    requires { place + length piece.now < 2 ^ 64 }
    ensures read { Reads lasting (piece_fault place (option_copied bracket.entry) piece.now)
        (λ part. (part_hosts part ≡ piece_hosts (option_copied bracket.entry) piece.now)
        × (part_bracket part ≡ bracket_behind (option_copied bracket.entry) piece.now)) result }
    ensures named { IfOk result (λ part. IfSome (option_copied bracket.entry) IsHostName
        → IsHostName part.prefix.now) }
{
    let Some(prefix) = bracket else {
        return read_item(place, piece);
    };
    let range = read_range(place, piece)?;
    Ok(Part {
        prefix,
        range: Some(range),
    })
}

/// What a text that isn't empty is cut into at its commas: nothing of the empty text.
fn uncut(text: &[u8]) -> Option<&[u8]>
    ensures left { left (option_copied result) ≡ pieces text.now }
    ensures whole { IfSome (option_copied result) (λ rest. rest ≡ text.now) }
{
    if text.is_empty() { None } else { Some(text) }
}

/// How many bytes stand before the first comma of a text.
fn before_comma(text: &[u8]) -> usize
    ensures count { result ≡ position_or_len (λ c. c == 44) text.now }
    ensures within { result ≤ length text.now }
{
    text.iter().take_while(|byte| **byte != b',').count()
}

/// What stands before the first comma of a text, and what stands behind it if there is one.
fn cut(text: &[u8]) -> (&[u8], Option<&[u8]>)
    ensures pieces { slice_split (λ c. c == 44) text.now
        ≡ result.0.now ∷ left (option_copied result.1) }
    ensures behind { IfSome (option_copied result.1)
        (λ rest. length result.0.now + 1 + length rest ≡ length text.now) }
    ensures within { length result.0.now ≤ length text.now }
{
    let (piece, rest) = text.split_at(before_comma(text));
    match rest {
        [] => (piece, None),
        [_, behind @ ..] => (piece, Some(behind)),
    }
}

/// How many hosts a text spells, up to the greatest number of its type.
pub(crate) fn count_hosts(text: &[u8]) -> Result<u64, HostFault>
    ensures { Reads lasting (text_fault text.now)
        (λ count. count ≡ min (length (spelled text.now)) (2 ^ 64 - 1)) result }
{
    let mut rest = uncut(text);
    let mut bracket = None;
    let mut count = 0u64;
    while let Some(tail) = rest {
        let (piece, behind) = cut(tail);
        let part = read_part(text.len() - tail.len(), bracket, piece)?;
        count = count.saturating_add(part.count());
        bracket = part.bracket();
        rest = behind;
    }
    match bracket {
        None => Ok(count),
        Some(_) => Err(HostFault::BadText { place: text.len() }),
    }
}

/// The hosts that a text spells.
pub(crate) fn read_hosts(alloc: Global, text: &[u8]) -> Result<Vec<HostName>, HostFault>
    ensures read { Reads lasting (text_fault text.now) (λ names. names.items ≡ spelled text.now)
        result }
    ensures named { IfOk result (λ names. AreHostNames names.items) }
{
    let mut names = Vec::new(alloc);
    let mut rest = uncut(text);
    let mut bracket = None;
    while let Some(tail) = rest {
        let (piece, behind) = cut(tail);
        let part = read_part(text.len() - tail.len(), bracket, piece)?;
        part.add_hosts(&mut names)?;
        bracket = part.bracket();
        rest = behind;
    }
    match bracket {
        None => Ok(names),
        Some(_) => Err(HostFault::BadText { place: text.len() }),
    }
}
