//! Sets of ids.
ghost use Rattle.std.specs.Prelude.{◌≡◌, ℕ, ◌<◌, ◌≤◌, List, [], All, IfOk, IsTrue, ◌↔◌, None, length, slice_get};
ghost use Rattle.idset.specs.Ids.{has, ids_from, union_of, minus_of, IsIdSet, list_of};
ghost use Rattle.idset.specs.Runs.{runs, printed};
ghost use Rattle.idset.specs.Text.{first_fault, spelled};
ghost use Rattle.idset.specs.Ranges.{IsRange, are_in, ids_in};

use crate::printer::text_of;
use crate::ranges::{IdRange, are_same, count_in, gaps, has_in, joined, list, singles};
use std::alloc::{AllocError, Global};
use std::marker::Model;

/// A set of ids, which are numbers below 65,536. It is kept as ranges in order, with an id between
/// each two that is in none.
#[derive(Drop)]
pub struct IdSet {
    ranges: Vec<IdRange>,
}

impl Model for IdSet {
    ghost use Rattle.std.specs.Prelude.{List, ℕ};

    ghost Value = { List ℕ };

    ghost use Rattle.idset.specs.Ranges.{AreApart, ids_in};

    ghost view = { λ s. ids_in s.ranges.items };

    ghost invariant = { λ s. AreApart 0 s.ranges.items };
}

impl IdSet {
    /// The empty set.
    pub fn new(alloc: Global) -> Self
        ensures { result ≡ [] }
    {
        IdSet {
            ranges: Vec::new(alloc),
        }
    }

    /// The ids of some ranges, in any order.
    pub fn of_ranges(ranges: Vec<IdRange>) -> Result<Self, AllocError>
        requires { All IsRange ranges.items }
        ensures { IfOk result (λ s. s ≡ ids_in ranges.items) }
    {
        let ranges = joined(ranges)?;
        Ok(IdSet { ranges })
    }

    /// The ids from `first` to `last`, both among them.
    pub fn of_range(alloc: Global, first: u32, last: u32) -> Result<Self, AllocError>
        requires { (first ≤ last) × (last < 65536) }
        ensures { IfOk result (λ s. s ≡ ids_from first last) }
    {
        let mut ranges = Vec::with_capacity(alloc, 1)?;
        ranges.push(IdRange { first, last })?;
        Ok(IdSet { ranges })
    }

    /// These ids, in any order.
    pub fn of_ids(alloc: Global, ids: &[u32]) -> Result<Self, AllocError>
        requires { All (λ id. id < 65536) ids.now }
        ensures { IfOk result (λ s. s ≡ list_of ids.now) }
    {
        let ranges = singles(alloc, ids)?;
        let set = IdSet::of_ranges(ranges)?;
        Ok(set)
    }

    /// The allocator that the set keeps.
    pub fn alloc(&self) -> Global {
        *self.ranges.allocator()
    }

    /// The same set once more.
    pub fn copy(&self) -> Result<Self, AllocError>
        ensures { IfOk result (λ twin. twin ≡ self.now) }
    {
        let ranges = Vec::from_slice(self.alloc(), &self.ranges)?;
        Ok(IdSet { ranges })
    }

    /// The maximal runs of neighbouring ids, in order.
    pub fn ranges(&self) -> &[IdRange]
        ensures runs { result.now ≡ runs self.now }
        ensures set { IsIdSet self.now }
    {
        self.ranges.as_slice()
    }

    /// The ids in order.
    pub fn ids(&self) -> Result<Vec<u32>, AllocError>
        ensures ids { IfOk result (λ ids. ids.items ≡ self.now) }
        ensures set { IsIdSet self.now }
    {
        list(self.alloc(), &self.ranges)
    }

    /// Whether the set has an id.
    pub fn has(&self, id: u32) -> bool
        ensures { result ≡ has self.now id }
    {
        has_in(&self.ranges, id)
    }

    /// How many ids the set has.
    pub fn count(&self) -> u32
        ensures count { result ≡ length self.now }
        ensures set { IsIdSet self.now }
    {
        count_in(&self.ranges)
    }

    /// The least id, if there is one.
    pub fn first(&self) -> Option<u32>
        ensures { result ≡ slice_get self.now 0 }
    {
        match self.ranges.first() {
            Some(range) => Some(range.first),
            None => None,
        }
    }

    /// Whether two sets have the same ids.
    pub fn equals(&self, other: &IdSet) -> bool
        ensures { IsTrue result ↔ (self.now ≡ other.now) }
    {
        are_same(&self.ranges, &other.ranges)
    }

    /// The ids of either set.
    pub fn union(&self, other: &IdSet) -> Result<IdSet, AllocError>
        ensures { IfOk result (λ s. s ≡ union_of self.now other.now) }
    {
        let mut ranges = Vec::from_slice(self.alloc(), &self.ranges)?;
        ranges.extend_from_slice(&other.ranges)?;
        let set = IdSet::of_ranges(ranges)?;
        Ok(set)
    }

    /// The ids of this set that the other one doesn't have.
    pub fn minus(&self, other: &IdSet) -> Result<IdSet, AllocError>
        ensures { IfOk result (λ s. s ≡ minus_of self.now other.now) }
    {
        let alloc = self.alloc();
        let mut ranges = gaps(alloc, &self.ranges)?;
        ranges.extend_from_slice(&other.ranges)?;
        let ranges = gaps(alloc, &joined(ranges)?)?;
        Ok(IdSet { ranges })
    }

    /// The canonical text: the maximal runs of neighbours in order, joined by commas, with no
    /// brackets. It is read again as the same set.
    pub fn print(&self) -> Result<Vec<u8>, AllocError>
        ensures text { IfOk result (λ text. text.items ≡ printed self.now) }
        ensures read { IfOk result (λ text. (first_fault text.items ≡ None)
            × (spelled text.items ≡ self.now)) }
    {
        let text = text_of(self.alloc(), &self.ranges)?;
        Ok(text.into_bytes())
    }
}
