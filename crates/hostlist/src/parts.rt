//! The pieces of a hostlist: one host, or a range behind a prefix.
ghost use Rattle.std.specs.Prelude.{◌≡◌, ◌≤◌, ◌<◌, ◌++◌, ◌+◌, ◌-◌, map, length, OnOk};
ghost use Rattle.std.specs.List.{range_with_len};
ghost use Rattle.hostlist.specs.Names.{padded};

use crate::names::{HostName, Padded};
use std::alloc::AllocError;

/// A range of numbers in a bracket: the digits that its first number is written with, its first and
/// last number, and whether the bracket ends behind it.
#[derive(Clone, Copy)]
pub(crate) struct Range {
    pub(crate) width: usize,
    pub(crate) first: u32,
    pub(crate) last: u32,
    pub(crate) is_last: bool,
    ghost narrow: { width ≤ 9 },
    ghost ordered: { first ≤ last },
    ghost small: { last < 1000000000 },
}

/// A piece of a text: one host, or the hosts of a range behind a prefix.
#[derive(Clone, Copy)]
pub(crate) struct Part<'a> {
    pub(crate) prefix: &'a [u8],
    pub(crate) range: Option<Range>,
}

impl<'a> Part<'a> {
    ghost use Rattle.hostlist.specs.Parts.{part_hosts, part_bracket};
    ghost use Rattle.std.specs.Prelude.{option_copied};

    #[tactic(auto, unfolding(crate::specs::Parts::part_hosts))]
    /// How many hosts the part has.
    pub(crate) fn count(&self) -> u64
        ensures { result ≡ length (part_hosts self.now) }
    {
        match self.range {
            Some(range) => u64::from(range.last - range.first) + 1,
            None => 1,
        }
    }

    #[tactic(auto, unfolding(crate::specs::Parts::part_bracket))]
    /// The prefix of the bracket in which the next piece stands, if it stands in one.
    pub(crate) fn bracket(&self) -> Option<&'a [u8]>
        ensures { option_copied result ≡ part_bracket self.now }
    {
        match self.range {
            Some(range) if !range.is_last => Some(self.prefix),
            _ => None,
        }
    }

    #[tactic(auto, unfolding(crate::specs::Parts::part_hosts))]
    /// Adds the hosts of the part to a list.
    pub(crate) fn add_hosts(&self, names: &mut Vec<HostName>) -> Result<(), AllocError>
        ensures { OnOk result (names.new.items ≡ names.old.items ++ part_hosts self.now) }
    {
        let Some(range) = self.range else {
            let alloc = *names.allocator();
            names.push(HostName::of(alloc, self.prefix)?)?;
            return Ok(());
        };
        add_range(self.prefix, range, names)
    }
}

/// Adds the hosts of a range behind a prefix to a list.
fn add_range(prefix: &[u8], range: Range, names: &mut Vec<HostName>) -> Result<(), AllocError>
    ensures { OnOk result (names.new.items ≡ names.old.items ++ map (λ number. prefix.now
        ++ padded range.width number) (range_with_len range.first (range.last + 1 - range.first))) }
{
    let alloc = *names.allocator();
    for number in range.first..range.last + 1 {
        let digits = Padded::of(range.width, number);
        names.push(HostName::joined(alloc, prefix, digits.as_slice())?)?;
    }
    Ok(())
}
