//! The reader of idsets (Flux RFC 22).
ghost use Rattle.std.specs.Prelude.{◌≡◌, ◌+◌, ◌-◌, ◌^◌, ◌<◌, ◌≤◌, nat_lt, ◌==◌, ◌∷◌, [], length, map, All, MatchOption};
ghost use Rattle.std.specs.List.{position_or_len, slice_split};
ghost use Rattle.std.specs.Option.{SomeIff};
ghost use Rattle.std.specs.Str.Parse.{AllDigits};
ghost use Rattle.outcomes.specs.Outcomes.{Reads, first_of};
ghost use Rattle.idset.specs.Ranges.{IsRange};
ghost use Rattle.idset.specs.Text.{is_comma, is_no_digit, leading_digits, behind_digits, behind_zeros, number_value, body, body_place, pair_faults, pair_of, item_faults, range_of, items, faults_in, end_faults, first_fault, spelled, lasting};

use crate::faults::IdFault;
use crate::ranges::{IdRange, LAST_ID};
use crate::set::IdSet;
use std::alloc::{AllocError, Global};

/// How many bytes stand before the first one of this value, or all where there is none.
fn count_before(text: &[u8], byte: u8) -> usize
    ensures count { result ≡ position_or_len (λ b. b == byte) text.now }
    ensures within { result ≤ length text.now }
{
    text.iter().position(|b| *b == byte).unwrap_or(text.len())
}

/// How many digits a text begins with.
fn count_digits(text: &[u8]) -> usize
    ensures count { result ≡ position_or_len is_no_digit text.now }
    ensures within { result ≤ length text.now }
{
    text.iter()
        .position(|b| !b.is_ascii_digit())
        .unwrap_or(text.len())
}

/// The digits that a text begins with, and what stands behind them.
fn digits(text: &[u8]) -> (&[u8], &[u8])
    ensures digits { result.0.now ≡ leading_digits text.now }
    ensures behind { result.1.now ≡ behind_digits text.now }
    ensures all { AllDigits 10 result.0.now }
    ensures len { length result.0.now + length result.1.now ≡ length text.now }
{
    text.split_at(count_digits(text))
}

/// The id that digits write, if it is one.
fn number(digits: &[u8]) -> Option<u32>
    requires { AllDigits 10 digits.now }
    ensures { SomeIff result (number_value digits.now < 65536) (number_value digits.now) }
{
    let mut value = 0;
    for digit in digits {
        value = value * 10 + u32::from(*digit - b'0');
        if LAST_ID < value {
            return None;
        }
    }
    Some(value)
}

/// Digits without the zeros at their start.
fn without_zeros(digits: &[u8]) -> &[u8]
    ensures { result.now ≡ behind_zeros digits.now }
{
    let mut rest = digits;
    while let [b'0', shorter @ ..] = rest {
        rest = shorter;
    }
    rest
}

/// Whether a number is below another one. Both may have any number of digits.
fn is_below(digits: &[u8], others: &[u8]) -> bool
    requires digits { AllDigits 10 digits.now }
    requires others { AllDigits 10 others.now }
    ensures { result ≡ nat_lt (number_value digits.now) (number_value others.now) }
{
    let digits = without_zeros(digits);
    let others = without_zeros(others);
    digits.len() < others.len() || digits.len() == others.len() && digits.cmp(&others).is_lt()
}

/// The range of two numbers: the digits of the first one, and what stands behind the dash.
fn pair(first: &[u8], tail: &[u8], place: usize) -> Result<IdRange, IdFault>
    requires digits { AllDigits 10 first.now }
    requires place { place + length first.now + 1 + length tail.now < 2 ^ 64 }
    ensures { Reads lasting (first_of (pair_faults place first.now tail.now))
        (λ r. (r ≡ pair_of first.now tail.now) × IsRange r) result }
{
    let (second, rest) = digits(tail);
    let start = place + first.len() + 1;
    if !second.is_empty() && is_below(second, first) {
        return Err(IdFault::Backwards { place });
    }
    let Some(first) = number(first) else {
        return Err(IdFault::TooLarge { place });
    };
    if second.is_empty() {
        return Err(IdFault::BadText { place: start });
    }
    let Some(last) = number(second) else {
        return Err(IdFault::TooLarge { place: start });
    };
    if !rest.is_empty() {
        return Err(IdFault::BadText {
            place: start + second.len(),
        });
    }
    Ok(IdRange { first, last })
}

/// The range of an item that begins at a place of the text.
fn range(item: &[u8], place: usize) -> Result<IdRange, IdFault>
    requires { place + length item.now < 2 ^ 64 }
    ensures { Reads lasting (first_of (item_faults place item.now)) (λ r. (r ≡ range_of item.now)
        × IsRange r) result }
{
    let (first, behind) = digits(item);
    if first.is_empty() {
        return Err(IdFault::BadText { place });
    }
    if let [b'-', tail @ ..] = behind {
        return pair(first, tail, place);
    }
    let Some(id) = number(first) else {
        return Err(IdFault::TooLarge { place });
    };
    if !behind.is_empty() {
        return Err(IdFault::BadText {
            place: place + first.len(),
        });
    }
    Ok(IdRange {
        first: id,
        last: id,
    })
}

/// What stands before a text's first comma, and what stands behind it if there is one.
fn cut(text: &[u8]) -> (&[u8], Option<&[u8]>)
    ensures parts { MatchOption result.1 (slice_split is_comma text.now ≡ result.0.now ∷ [])
        (λ more. slice_split is_comma text.now ≡ result.0.now ∷ slice_split is_comma more.now) }
    ensures len { MatchOption result.1 (length result.0.now ≡ length text.now)
        (λ more. length result.0.now + length more.now + 1 ≡ length text.now) }
{
    let count = count_before(text, b',');
    if count == text.len() {
        (text, None)
    } else {
        (&text[..count], Some(&text[count + 1..]))
    }
}

/// The ranges of a text's items. The text is what ends at a place of a longer one.
fn ranges(alloc: Global, text: &[u8], end: usize) -> Result<Vec<IdRange>, IdFault>
    requires { length text.now ≤ end }
    ensures { Reads lasting (faults_in (end - length text.now) (slice_split is_comma text.now))
        (λ rs. (rs.items ≡ map range_of (slice_split is_comma text.now)) × All IsRange rs.items)
        result }
{
    let mut ranges = Vec::new(alloc);
    let mut rest = text;
    loop {
        let (item, more) = cut(rest);
        let range = range(item, end - rest.len())?;
        ranges.push(range).map_err(AllocError::from)?;
        let Some(more) = more else {
            return Ok(ranges);
        };
        rest = more;
    }
}

/// The ranges of a text's items, where an empty text has none. The text is what ends at a place of
/// a longer one.
fn item_ranges(alloc: Global, text: &[u8], end: usize) -> Result<Vec<IdRange>, IdFault>
    requires { length text.now ≤ end }
    ensures { Reads lasting (faults_in (end - length text.now) (items text.now))
        (λ rs. (rs.items ≡ map range_of (items text.now)) × All IsRange rs.items) result }
{
    if text.is_empty() {
        return Ok(Vec::new(alloc));
    }
    ranges(alloc, text, end)
}

/// What stands between a text's brackets, or all of it where it has none, and the place behind
/// that.
fn inside(text: &[u8]) -> (&[u8], usize)
    ensures body { result.0.now ≡ body text.now }
    ensures end { result.1 ≡ body_place text.now + length (body text.now) }
    ensures within { result.1 ≤ length text.now }
{
    let Some((first, rest)) = text.split_first() else {
        return (text, 0);
    };
    if *first != b'[' {
        return (text, text.len());
    }
    let count = count_before(rest, b']');
    (&rest[..count], count + 1)
}

/// Tests what stands behind the items, from a place on.
fn close(text: &[u8], end: usize) -> Result<(), IdFault>
    requires { end ≡ body_place text.now + length (body text.now) }
    ensures { Reads lasting (first_of (end_faults text.now)) (λ _. end ≤ length text.now) result }
{
    if text.first() != Some(&b'[') {
        return Ok(());
    }
    if end == text.len() {
        return Err(IdFault::BadText { place: end });
    }
    if end + 1 < text.len() {
        return Err(IdFault::BadText { place: end + 1 });
    }
    Ok(())
}

impl IdSet {
    /// The set that a text spells: numbers and ranges joined by commas, which may stand in
    /// brackets. Numbers may have leading zeros, and items stand in any order and may overlap. Of
    /// several faults the leftmost is answered, and at one place Backwards before TooLarge.
    pub fn read(alloc: Global, text: &[u8]) -> Result<IdSet, IdFault>
        ensures { Reads lasting (first_fault text.now) (λ s. s ≡ spelled text.now) result }
    {
        let (items, end) = inside(text);
        let ranges = item_ranges(alloc, items, end)?;
        close(text, end)?;
        let set = IdSet::of_ranges(ranges)?;
        Ok(set)
    }
}
