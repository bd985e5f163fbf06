//! The name of one host.
ghost use Rattle.std.specs.Prelude.{◌≡◌, ◌≤◌, ◌<◌, ◌+◌, ◌-◌, ◌++◌, ◌↔◌, true, false, length, IfOk, IsTrue, MatchOption, IfSome, ◌==◌};
ghost use Rattle.std.specs.Prelude.{bytes_eq};
ghost use Rattle.std.specs.Cmp.{nat_eq_equiv, partial_equiv_from_equiv};
ghost use Rattle.std.specs.Cmp.Lexicographic.{lists_per, lists_equiv};
ghost use Rattle.std.specs.List.{list_all};
ghost use Rattle.std.specs.Str.{all_ascii_digits};
ghost use Rattle.hostlist.specs.Names.{is_name_byte, is_host_name, IsHostName, digits_len, number_digits, number_prefix, is_numbered, value_of, padded, shares_prefix, follows};

use std::alloc::{AllocError, Global};
use std::marker::Model;

/// The name of one host, which contracts see as its list of bytes.
#[derive(Drop)]
pub struct HostName {
    bytes: Vec<u8>,
}

impl Model for HostName {
    ghost use Rattle.std.specs.Prelude.{List, ℕ};

    ghost Value = { List ℕ };

    ghost view = { λ n. n.bytes.items };
}

impl HostName {
    /// The name of these bytes.
    pub fn of(alloc: Global, bytes: &[u8]) -> Result<HostName, AllocError>
        ensures { IfOk result (λ name. name ≡ bytes.now) }
    {
        let bytes = Vec::from_slice(alloc, bytes)?;
        Ok(HostName { bytes })
    }

    /// The name that these two parts make.
    pub fn joined(alloc: Global, front: &[u8], back: &[u8]) -> Result<HostName, AllocError>
        ensures { IfOk result (λ name. name ≡ front.now ++ back.now) }
    {
        let mut bytes = Vec::with_capacity(alloc, front.len() + back.len())?;
        bytes.extend_from_slice(front)?;
        bytes.extend_from_slice(back)?;
        Ok(HostName { bytes })
    }

    /// The bytes of the name.
    pub fn as_slice(&self) -> &[u8]
        ensures { result.now ≡ self.now }
    {
        self.bytes.as_slice()
    }

    /// A copy of the name.
    pub fn copy(&self) -> Result<HostName, AllocError>
        ensures { IfOk result (λ twin. twin ≡ self.now) }
    {
        HostName::of(*self.bytes.allocator(), self.bytes.as_slice())
    }
}

impl PartialEq for HostName {
    ghost eq = { bytes_eq };

    ghost laws = { lists_per (partial_equiv_from_equiv nat_eq_equiv) };

    fn eq(&self, other: &Self) -> bool {
        self.as_slice() == other.as_slice()
    }
}

impl Eq for HostName {
    ghost laws = { lists_equiv nat_eq_equiv };
}

/// Whether a byte may stand in a host's name: a letter, a digit, `-`, `.` or `_`.
pub(crate) fn is_of_name(byte: u8) -> bool
    ensures { result ≡ is_name_byte byte }
{
    byte.is_ascii_alphanumeric() || byte == b'-' || byte == b'.' || byte == b'_'
}

/// Whether each of these bytes may stand in a host's name.
fn are_of_name(bytes: &[u8]) -> bool
    ensures { result ≡ list_all is_name_byte bytes.now }
{
    bytes.iter().all(|byte| is_of_name(*byte))
}

/// Whether these bytes are the name of one host of a hostlist: one or more letters, digits, `-`,
/// `.` and `_`.
pub fn is_host_name(name: &[u8]) -> bool
    ensures { IsTrue result ↔ IsHostName name.now }
{
    !name.is_empty() && are_of_name(name)
}

/// The number that at most nine digits write.
pub(crate) fn value(digits: &[u8]) -> u32
    requires digits { all_ascii_digits digits.now ≡ true }
    requires short { length digits.now ≤ 9 }
    ensures value { result ≡ value_of digits.now }
    ensures small { result < 1000000000 }
{
    let mut value = 0u32;
    for digit in digits {
        value = value * 10 + u32::from(*digit - b'0');
    }
    value
}

/// A number in decimal digits, which contracts see as the list of these.
#[derive(Drop)]
pub(crate) struct Padded {
    bytes: [u8; 10],
    start: usize,
}

impl Model for Padded {
    ghost use Rattle.std.specs.Prelude.{List, ℕ, ◌≤◌, ◌≡◌, drop, length};

    ghost Value = { List ℕ };

    ghost view = { λ p. drop p.start p.bytes };

    ghost invariant = { λ p. p.start ≤ 10 };
}

impl Padded {
    /// The digits of a number, with zeros before them up to this width.
    pub(crate) fn of(width: usize, number: u32) -> Padded
        requires { width ≤ 10 }
        ensures { result ≡ padded width number }
    {
        let mut bytes = [b'0'; 10];
        let mut at = 9;
        let mut rest = number;
        while 10 <= rest {
            bytes[at] = b'0' + (rest % 10) as u8;
            at -= 1;
            rest /= 10;
        }
        bytes[at] = b'0' + rest as u8;
        Padded {
            bytes,
            start: at.min(10 - width),
        }
    }

    pub(crate) fn as_slice(&self) -> &[u8]
        ensures { result.now ≡ self.now }
    {
        &self.bytes[self.start..]
    }
}

/// How long the longest run of digits at a name's end is.
fn digits_len(name: &[u8]) -> usize
    ensures len { result ≡ digits_len name.now }
    ensures within { result ≤ length name.now }
{
    name.iter()
        .rev()
        .take_while(|byte| byte.is_ascii_digit())
        .count()
}

/// What stands before the longest run of digits at a name's end, and these digits.
pub(crate) fn split_digits(name: &[u8]) -> (&[u8], &[u8])
    ensures prefix { result.0.now ≡ number_prefix name.now }
    ensures digits { result.1.now ≡ number_digits name.now }
{
    name.split_at(name.len() - digits_len(name))
}

/// What stands before the number of a host, and the number's digits, if the host has a number.
fn number_of(name: &[u8]) -> Option<(&[u8], &[u8])>
    ensures parts { MatchOption result (is_numbered name.now ≡ false)
        (λ parts. (is_numbered name.now ≡ true) × (parts.0.now ≡ number_prefix name.now)
        × (parts.1.now ≡ number_digits name.now)) }
    ensures digits { IfSome result (λ parts. (all_ascii_digits parts.1.now ≡ true)
        × (length parts.1.now ≤ 9)) }
{
    let digits = digits_len(name);
    if 0 < digits && digits <= 9 && digits < name.len() {
        Some(split_digits(name))
    } else {
        None
    }
}

/// Whether both hosts have numbers and what stands before these is the same.
pub(crate) fn shares_prefix(a: &[u8], b: &[u8]) -> bool
    ensures { result ≡ shares_prefix a.now b.now }
{
    let (Some((front, _)), Some((other, _))) = (number_of(a), number_of(b)) else {
        return false;
    };
    front == other
}

/// Whether besides the number of b is that of a plus one, padded to the digits of a.
pub(crate) fn follows(a: &[u8], b: &[u8]) -> bool
    ensures { result ≡ follows a.now b.now }
{
    let (Some((_, digits)), Some((_, others))) = (number_of(a), number_of(b)) else {
        return false;
    };
    let next = Padded::of(digits.len(), value(digits) + 1);
    shares_prefix(a, b) && others == next.as_slice()
}
