//! Hosts in an order.
ghost use Rattle.std.specs.Prelude.{◌≡◌, ◌≢◌, ◌≤◌, ◌<◌, ◌++◌, ◌∷◌, [], ℕ, Some, None, length, IfOk, OnOk, OnErr, IfSome, IsNone, slice_get, option_copied, IsTrue, ◌↔◌, nat_lt, if◌then◌else◌};
ghost use Rattle.outcomes.specs.Outcomes.{Reads};
ghost use Rattle.hostlist.specs.declared.faults.HostFault.TheVariants.{TooMany};
ghost use Rattle.std.specs.Prelude.{bytes_eq};
ghost use Rattle.std.specs.Cmp.{nat_eq_equiv, partial_equiv_from_equiv};
ghost use Rattle.std.specs.Cmp.Lexicographic.{pointwise, lists_per, lists_equiv};
ghost use Rattle.hostlist.specs.Names.{IsHostName, AreHostNames};
ghost use Rattle.hostlist.specs.Printing.{canonical};
ghost use Rattle.hostlist.specs.Reading.{first_fault, spelled, lasting};

use crate::faults::HostFault;
use crate::names::HostName;
use crate::printing::print_groups;
use crate::reading::{count_hosts, read_hosts};
use std::alloc::{AllocError, Global};
use std::marker::Model;

/// Hosts in an order, each as often as it stands there, which contracts see as the list of their
/// names.
#[derive(Drop)]
pub struct HostList {
    names: Vec<HostName>,
}

impl Model for HostList {
    ghost use Rattle.std.specs.Prelude.{List, ℕ};
    ghost use Rattle.hostlist.specs.Names.{AreHostNames};

    ghost Value = { List (List ℕ) };

    ghost view = { λ s. s.names.items };

    ghost invariant = { λ s. AreHostNames s.names.items };
}

const MOST_HOSTS: u64 = 65_536;

impl HostList {
    /// The list of no hosts.
    pub fn new(alloc: Global) -> HostList
        ensures { result ≡ [] }
    {
        HostList {
            names: Vec::new(alloc),
        }
    }

    /// The list of hosts that a text spells (Flux RFC 29), or the text's first fault with its place
    /// in bytes. `TooMany` where it spells more than 65,536 hosts.
    pub fn read(alloc: Global, text: &[u8]) -> Result<HostList, HostFault>
        ensures read { Reads lasting (first_fault text.now) (λ hosts. hosts ≡ spelled text.now)
            result }
        ensures named { IfOk result AreHostNames }
        ensures few { IfOk result (λ hosts. length hosts ≤ 65536) }
    {
        if MOST_HOSTS < count_hosts(text)? {
            return Err(HostFault::TooMany);
        }
        let names = read_hosts(alloc, text)?;
        Ok(HostList { names })
    }

    /// Adds a host at the end.
    pub fn push(&mut self, name: &[u8]) -> Result<(), AllocError>
        requires { IsHostName name.now }
        ensures added { OnOk result (self.new ≡ self.old ++ name.now ∷ []) }
        ensures kept { OnErr result (self.new ≡ self.old) }
    {
        let name = HostName::of(*self.names.allocator(), name)?;
        self.names.push(name)?;
        Ok(())
    }

    /// The names of the hosts.
    pub fn as_slice(&self) -> &[HostName]
        ensures names { result.now ≡ self.now }
        ensures named { AreHostNames result.now }
    {
        self.names.as_slice()
    }

    /// How many hosts there are.
    pub fn len(&self) -> usize
        ensures { result ≡ length self.now }
    {
        self.names.len()
    }

    /// Whether there are no hosts.
    pub fn is_empty(&self) -> bool
        ensures { IsTrue result ↔ (self.now ≡ []) }
    {
        self.names.is_empty()
    }

    /// The name of the host at a place, counted from 0.
    pub fn nth(&self, place: usize) -> Option<&[u8]>
        ensures { option_copied result ≡ slice_get self.now place }
    {
        let name = self.names.get(place)?;
        Some(name.as_slice())
    }

    /// The first place at which a host of this name stands, counted from 0.
    pub fn find(&self, name: &[u8]) -> Option<usize>
        ensures found { IfSome result (λ place. slice_get self.now place ≡ Some name.now) }
        ensures first { IfSome result (λ place. (k : ℕ)
            → k < place → slice_get self.now k ≢ Some name.now) }
        ensures absent { IsNone result → (k : ℕ) → slice_get self.now k ≢ Some name.now }
    {
        for (place, own) in self.names.as_slice().iter().enumerate() {
            if own.as_slice() == name {
                return Some(place);
            }
        }
        None
    }

    /// The canonical text of the list (Flux RFC 29), which spells the list again.
    pub fn print(&self) -> Result<Vec<u8>, AllocError>
        ensures canonical { IfOk result (λ text. text.items ≡ canonical self.now) }
        ensures read_again { IfOk result (λ text. spelled text.items ≡ self.now) }
        ensures fault { IfOk result (λ text. first_fault text.items
            ≡ (if nat_lt 65536 (length self.now) then Some TooMany else None)) }
    {
        let mut text = Vec::new(*self.names.allocator());
        let names = self.as_slice();
        if names.is_empty() {
            return Ok(text);
        }
        print_groups(&mut text, names)?;
        Ok(text)
    }

    /// A copy of the list.
    pub fn copy(&self) -> Result<HostList, AllocError>
        ensures { IfOk result (λ twin. twin ≡ self.now) }
    {
        let mut names = Vec::with_capacity(*self.names.allocator(), self.names.len())?;
        for name in self.names.as_slice() {
            names.push(name.copy()?)?;
        }
        Ok(HostList { names })
    }
}

impl PartialEq for HostList {
    ghost eq = { pointwise bytes_eq };

    ghost laws = { lists_per (lists_per (partial_equiv_from_equiv nat_eq_equiv)) };

    fn eq(&self, other: &Self) -> bool {
        self.as_slice() == other.as_slice()
    }
}

impl Eq for HostList {
    ghost laws = { lists_equiv (lists_equiv nat_eq_equiv) };
}
