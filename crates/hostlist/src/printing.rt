//! The printer of hostlists (Flux RFC 29).
ghost use Rattle.std.specs.Prelude.{◌≡◌, ◌≤◌, ◌<◌, ◌+◌, ◌++◌, ◌∷◌, [], map, length, OnOk, IfOk};
ghost use Rattle.std.specs.List.{join_with_byte};
ghost use Rattle.hostlist.specs.Names.{shares_prefix, follows};
ghost use Rattle.hostlist.specs.Printing.{chunks_by, run_text, group_text, canonical};
ghost use Rattle.hostlist.specs.Ties.{goes};

use crate::names::{HostName, follows, shares_prefix, split_digits};
use std::alloc::AllocError;

/// What holds a part of a list of hosts together: the same prefix makes a group, and followers make
/// a run.
#[derive(Clone, Copy)]
pub(crate) enum Tie {
    Prefix,
    Follower,
}

impl Tie {
    ghost use Rattle.hostlist.specs.Ties.{goes};

    /// Whether b goes with a, which stands before it.
    fn goes(self, a: &[u8], b: &[u8]) -> bool
        ensures { result ≡ goes self a.now b.now }
    {
        match self {
            Tie::Prefix => shares_prefix(a, b),
            Tie::Follower => follows(a, b),
        }
    }
}

/// The first part of a list that such a tie holds together, and what stands behind it.
fn first_chunk(tie: Tie, names: &[HostName]) -> (&[HostName], &[HostName])
    requires { 0 < length names.now }
    ensures chunks { chunks_by (goes tie) names.now
        ≡ result.0.now ∷ chunks_by (goes tie) result.1.now }
    ensures some { 0 < length result.0.now }
    ensures less { length result.1.now < length names.now }
{
    let mut at = 1;
    while at < names.len() && tie.goes(names[at - 1].as_slice(), names[at].as_slice()) {
        at += 1;
    }
    names.split_at(at)
}

/// Writes a run of followers.
fn print_run(text: &mut Vec<u8>, run: &[HostName]) -> Result<(), AllocError>
    requires { 0 < length run.now }
    ensures { OnOk result (text.new.items ≡ text.old.items ++ run_text run.now) }
{
    let (_, first) = split_digits(run[0].as_slice());
    text.extend_from_slice(first)?;
    if run.len() == 1 {
        return Ok(());
    }
    let (_, last) = split_digits(run[run.len() - 1].as_slice());
    text.push(b'-')?;
    text.extend_from_slice(last)?;
    Ok(())
}

/// Writes the runs of a group.
fn print_runs(text: &mut Vec<u8>, group: &[HostName]) -> Result<(), AllocError>
    requires { 0 < length group.now }
    ensures { OnOk result (text.new.items
        ≡ text.old.items ++ join_with_byte 44 (map run_text (chunks_by follows group.now))) }
{
    let (run, mut rest) = first_chunk(Tie::Follower, group);
    print_run(text, run)?;
    while !rest.is_empty() {
        text.push(b',')?;
        let (run, behind) = first_chunk(Tie::Follower, rest);
        print_run(text, run)?;
        rest = behind;
    }
    Ok(())
}

/// Writes a group of hosts with one prefix.
fn print_group(text: &mut Vec<u8>, group: &[HostName]) -> Result<(), AllocError>
    requires { 0 < length group.now }
    ensures { OnOk result (text.new.items ≡ text.old.items ++ group_text group.now) }
{
    let first = group[0].as_slice();
    if group.len() == 1 {
        text.extend_from_slice(first)?;
        return Ok(());
    }
    let (prefix, _) = split_digits(first);
    text.extend_from_slice(prefix)?;
    text.push(b'[')?;
    print_runs(text, group)?;
    text.push(b']')?;
    Ok(())
}

/// Writes the groups of a list of hosts.
pub(crate) fn print_groups(text: &mut Vec<u8>, names: &[HostName]) -> Result<(), AllocError>
    requires { 0 < length names.now }
    ensures { OnOk result (text.new.items ≡ text.old.items ++ canonical names.now) }
{
    let (group, mut rest) = first_chunk(Tie::Prefix, names);
    print_group(text, group)?;
    while !rest.is_empty() {
        text.push(b',')?;
        let (group, behind) = first_chunk(Tie::Prefix, rest);
        print_group(text, group)?;
        rest = behind;
    }
    Ok(())
}
