//! The number tokens of a text, and where fractions of zeros are read over.
ghost use Rattle.std.specs.Prelude.{◌≡◌, ◌≤◌, ◌<◌, length, option_map, false, Some, None, Ok, Err};
ghost use Rattle.std.specs.List.{prefix_len};
ghost use Rattle.outcomes.specs.Outcomes.{Gives};
ghost use Rattle.json.specs.Word.{head, after_minus};
ghost use Rattle.fl_json.specs.Numbers.{begins_number, continues_number, string_len, piece_len, is_number, natural, is_whole, point_at, are_zeros, is_no_fraction, kept_number, kept, first_bad_number, rewritten};
ghost use Rattle.fl_json.specs.Reading.{unless_bad, lasting};

use crate::faults::JsonFault;
use std::alloc::Global;
use std::str;

/// Whether a number token begins with this byte.
fn can_begin(byte: u8) -> bool
    ensures { result ≡ begins_number byte }
{
    byte == b'-' || byte.is_ascii_digit()
}

/// Whether a number token that has begun goes on with this byte.
fn can_continue(byte: u8) -> bool
    ensures { result ≡ continues_number byte }
{
    byte.is_ascii_digit()
        || byte == b'+'
        || byte == b'-'
        || byte == b'.'
        || byte == b'e'
        || byte == b'E'
}

/// How far a string reaches behind its first quote.
fn string_end(text: &[u8]) -> usize
    ensures value { result ≡ string_len false text.now }
    ensures bound { result ≤ length text.now }
{
    let mut escaped = false;
    for (i, byte) in text.iter().enumerate() {
        if escaped {
            escaped = false;
        } else if *byte == b'"' {
            return i + 1;
        } else {
            escaped = *byte == b'\\';
        }
    }
    text.len()
}

/// How far a number token reaches behind its first byte.
fn number_end(text: &[u8]) -> usize
    ensures value { result ≡ prefix_len continues_number text.now }
    ensures bound { result ≤ length text.now }
{
    for (i, byte) in text.iter().enumerate() {
        if !can_continue(*byte) {
            return i;
        }
    }
    text.len()
}

/// How long the first piece of a text is: a string, a number token or another byte.
fn first_len(text: &[u8]) -> usize
    ensures value { result ≡ piece_len text.now }
    ensures bound { result ≤ length text.now }
    ensures some { 0 < length text.now → 0 < result }
{
    match text {
        [] => 0,
        [b'"', behind @ ..] => 1 + string_end(behind),
        [first, behind @ ..] => if can_begin(*first) {
            1 + number_end(behind)
        } else {
            1
        },
    }
}

/// Where the first point of a token stands; its length where there is none.
fn point_of(token: &[u8]) -> usize
    ensures value { result ≡ point_at token.now }
    ensures bound { result ≤ length token.now }
{
    for (i, byte) in token.iter().enumerate() {
        if *byte == b'.' {
            return i;
        }
    }
    token.len()
}

/// Whether a token is a JSON number.
fn is_json_number(token: &[u8]) -> bool
    ensures { result ≡ is_number token.now }
{
    match str::from_utf8(token) {
        Ok(token) => json::is_number(token),
        Err(_) => false,
    }
}

/// The number below 2^64 that decimal digits write.
fn number_of(digits: &str) -> Option<u64>
    ensures { result ≡ natural digits.now }
{
    if digits.starts_with('+') {
        return None;
    }
    digits.parse::<u64>().ok()
}

/// The number below 2^64 that a token writes in decimal digits.
fn natural_of(token: &[u8]) -> Option<u64>
    ensures { result ≡ natural token.now }
{
    match str::from_utf8(token) {
        Ok(digits) => number_of(digits),
        Err(_) => None,
    }
}

/// The first byte of a token, and a space where it has none.
fn first_of(token: &[u8]) -> u8
    ensures { result ≡ head token.now }
{
    match token {
        [] => b' ',
        [first, ..] => *first,
    }
}

/// A token without the minus in front of it.
fn behind_minus(token: &[u8]) -> &[u8]
    ensures { result.now ≡ after_minus token.now }
{
    if first_of(token) == b'-' {
        &token[1..]
    } else {
        token
    }
}

/// Whether a token is a whole number from -2^63 to 2^64 - 1 other than -0.
#[tactic(auto, unfolding(crate::specs::Numbers::is_whole))]
fn stays(token: &[u8]) -> bool
    ensures { result ≡ is_whole token.now }
{
    if !is_json_number(token) {
        return false;
    }
    let number = natural_of(behind_minus(token));
    if first_of(token) == b'-' {
        number.is_some_and(|n| 0 < n && n <= 1 << 63)
    } else {
        number.is_some()
    }
}

/// Whether all digits are zeros.
fn are_all_zeros(digits: &[u8]) -> bool
    ensures { result ≡ are_zeros digits.now }
{
    digits.iter().all(|digit| *digit == b'0')
}

/// Whether what stands behind a whole part is nothing, or a point and zeros.
fn adds_nothing(fraction: &[u8]) -> bool
    ensures { result ≡ is_no_fraction fraction.now }
{
    fraction.is_empty() || 1 < fraction.len() && are_all_zeros(&fraction[1..])
}

/// What is kept of a number token.
#[tactic(auto, unfolding(crate::specs::Numbers::kept_number))]
fn kept_of_number(token: &[u8]) -> Option<&[u8]>
    ensures { option_map (λ s. s.now) result ≡ kept_number token.now }
{
    let (whole, fraction) = token.split_at(point_of(token));
    if stays(whole) && adds_nothing(fraction) {
        Some(whole)
    } else if is_json_number(token) {
        None
    } else {
        Some(token)
    }
}

/// What is kept of a piece.
#[tactic(auto, unfolding(crate::specs::Numbers::kept))]
fn kept_of(piece: &[u8]) -> Option<&[u8]>
    ensures { option_map (λ s. s.now) result ≡ kept piece.now }
{
    if can_begin(first_of(piece)) {
        kept_of_number(piece)
    } else {
        Some(piece)
    }
}

/// The text in which whole numbers have no fraction.
pub fn with_whole_numbers(alloc: Global, text: &[u8]) -> Result<Vec<u8>, JsonFault>
    ensures { Gives lasting (λ out. out.items) result
        (unless_bad (first_bad_number text.now) (Ok (rewritten text.now))) }
{
    let mut out = Vec::with_capacity(alloc, text.len())?;
    let mut rest = text;
    'pieces: while !rest.is_empty() {
        let (piece, behind) = rest.split_at(first_len(rest));
        let Some(kept) = kept_of(piece) else {
            let place = text.len() - rest.len();
            return Err(JsonFault::BadNumber { place });
        };
        out.extend_from_slice(kept)?;
        rest = behind;
    }
    Ok(out)
}
