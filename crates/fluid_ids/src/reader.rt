//! The reader of ids (Flux RFC 19).
ghost use Rattle.std.specs.Prelude.{◌≡◌, ℕ, ◌+◌, ◌*◌, ◌^◌, ◌<◌, ◌≤◌, ◌==◌, length, MatchOption, Some, None};
ghost use Rattle.std.specs.List.{position_or_len, list_all};
ghost use Rattle.std.specs.Option.{SomeIff};
ghost use Rattle.fluid_ids.specs.Texts.{value_in, is_digit_in, read_in, meaning, groups, is_dotted, after_mark, plain, base_16};

use crate::faults::FluidFault;

/// The digits in base 58, each at the place of its value.
pub const BASE_58: &[u8; 58] = b"123456789ABCDEFGHJKLMNPQRSTUVWXYZabcdefghijkmnopqrstuvwxyz";

/// The decimal digits, each at the place of its value.
pub const BASE_10: &[u8; 10] = b"0123456789";

/// The digits in base 16, each at the place of its value.
pub const BASE_16: &[u8; 16] = b"0123456789abcdef";

/// The value of a digit, or the base where it is none.
fn value(base: &[u8], digit: u8) -> usize
    ensures value { result ≡ value_in base.now digit }
    ensures within { result ≤ length base.now }
{
    base.iter().position(|d| *d == digit).unwrap_or(base.len())
}

/// Whether each byte is a digit.
fn are_digits(base: &[u8], text: &[u8]) -> bool
    ensures { result ≡ list_all (is_digit_in base.now) text.now }
{
    for byte in text {
        if value(base, *byte) == base.len() {
            return false;
        }
    }
    true
}

/// A number with a digit behind it, if that is below 2^64.
fn with_digit(number: u64, base: u64, digit: u64) -> Option<u64>
    ensures { SomeIff result (number * base + digit < 2 ^ 64) (number * base + digit) }
{
    let shifted = number.checked_mul(base)?;
    shifted.checked_add(digit)
}

/// The number that one or more digits of a base spell.
fn number(base: &[u8], text: &[u8]) -> Result<u64, FluidFault>
    requires { 0 < length base.now }
    ensures { result ≡ read_in base.now text.now }
{
    if text.is_empty() {
        return Err(FluidFault::BadText);
    }
    if !are_digits(base, text) {
        return Err(FluidFault::BadText);
    }
    let mut number = 0;
    for byte in text {
        let digit = value(base, *byte) as u64;
        let Some(more) = with_digit(number, base.len() as u64, digit) else {
            return Err(FluidFault::TooLarge);
        };
        number = more;
    }
    Ok(number)
}

/// The number that the digits of a dotted text spell.
fn dotted(text: &[u8]) -> Result<u64, FluidFault>
    requires { length text.now ≡ 19 }
    ensures { result ≡ read_in base_16 (groups text.now) }
{
    let digits = [
        text[0], text[1], text[2], text[3], text[5], text[6], text[7], text[8], text[10], text[11],
        text[12], text[13], text[15], text[16], text[17], text[18],
    ];
    number(BASE_16, &digits)
}

/// Whether a text has dots at the places between four groups of four bytes.
fn is_dotted(text: &[u8]) -> bool
    ensures { result ≡ is_dotted text.now }
{
    text.len() == 19 && text[4] == b'.' && text[9] == b'.' && text[14] == b'.'
}

/// What stands behind the `f` or `ƒ` that a text begins with.
fn behind_mark(text: &[u8]) -> Option<&[u8]>
    ensures { MatchOption result (after_mark text.now ≡ None)
        (λ digits. after_mark text.now ≡ Some digits.now) }
{
    let (first, rest) = text.split_first()?;
    if *first == b'f' {
        return Some(rest);
    }
    let (second, rest) = rest.split_first()?;
    if *first == 0xC6 && *second == 0x92 {
        return Some(rest);
    }
    None
}

/// The number that a text without a dot spells.
fn plain(text: &[u8]) -> Result<u64, FluidFault>
    ensures { result ≡ plain text.now }
{
    match behind_mark(text) {
        Some(digits) => number(BASE_58, digits),
        None => number(BASE_10, text),
    }
}

/// The id that a text spells. With a dot it is dothex, behind `f` or `ƒ` F58, and else decimal;
/// leading zeros are read in the last two.
pub fn read(text: &[u8]) -> Result<u64, FluidFault>
    ensures { result ≡ meaning text.now }
{
    if !text.contains(&b'.') {
        return plain(text);
    }
    if !is_dotted(text) {
        return Err(FluidFault::BadText);
    }
    dotted(text)
}
