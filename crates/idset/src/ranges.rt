//! Ranges of ids.
ghost use Rattle.std.specs.Prelude.{◌≡◌, ℕ, ◌<◌, ◌≤◌, ◌++◌, not, All, map, IfOk, OnOk, IsTrue, ◌↔◌, length};
ghost use Rattle.idset.specs.Ids.{ids_from};
ghost use Rattle.idset.specs.Ranges.{IsRange, AreApart, AreSorted, are_in, gap, ids_in, single};

use std::alloc::{AllocError, Global};

/// The greatest id.
pub const LAST_ID: u32 = 65_535;

/// The ids from `first` to `last`, both among them.
#[derive(Clone, Copy, Debug, PartialEq, Eq)]
pub struct IdRange {
    pub first: u32,
    pub last: u32,
}

/// The ranges of sorted ones, joined where they overlap or are neighbours.
fn join_sorted(alloc: Global, ranges: &[IdRange]) -> Result<Vec<IdRange>, AllocError>
    requires { AreSorted 0 ranges.now }
    ensures apart { IfOk result (λ joined. AreApart 0 joined.items) }
    ensures same { IfOk result (λ joined. (id : ℕ)
        → are_in joined.items id ≡ are_in ranges.now id) }
{
    let mut done = Vec::new(alloc);
    let Some((first, rest)) = ranges.split_first() else {
        return Ok(done);
    };
    let mut lead = *first;
    for range in rest {
        if range.first <= lead.last + 1 {
            lead.last = lead.last.max(range.last);
        } else {
            done.push(lead)?;
            lead = *range;
        }
    }
    done.push(lead)?;
    Ok(done)
}

/// The same ids as ranges in order, joined where they overlap or are neighbours.
pub fn joined(mut ranges: Vec<IdRange>) -> Result<Vec<IdRange>, AllocError>
    requires { All IsRange ranges.items }
    ensures apart { IfOk result (λ joined. AreApart 0 joined.items) }
    ensures same { IfOk result (λ joined. (id : ℕ)
        → are_in joined.items id ≡ are_in ranges.items id) }
{
    ranges.sort_unstable_by_key(|r| r.first);
    let joined = join_sorted(*ranges.allocator(), &ranges)?;
    Ok(joined)
}

/// Adds the ids from `next` on that are below `first`, if there are any.
fn add_gap(gaps: &mut Vec<IdRange>, next: u32, first: u32) -> Result<(), AllocError>
    ensures { OnOk result (gaps.new.items ≡ gaps.old.items ++ gap next first) }
{
    if next < first {
        gaps.push(IdRange {
            first: next,
            last: first - 1,
        })?;
    }
    Ok(())
}

/// The ids that are in none of these ranges.
pub fn gaps(alloc: Global, ranges: &[IdRange]) -> Result<Vec<IdRange>, AllocError>
    requires { AreApart 0 ranges.now }
    ensures apart { IfOk result (λ gaps. AreApart 0 gaps.items) }
    ensures others { IfOk result (λ gaps. (id : ℕ)
        → id < 65536 → are_in gaps.items id ≡ not (are_in ranges.now id)) }
{
    let mut gaps = Vec::new(alloc);
    let mut next = 0;
    for range in ranges {
        add_gap(&mut gaps, next, range.first)?;
        next = range.last + 1;
    }
    add_gap(&mut gaps, next, LAST_ID + 1)?;
    Ok(gaps)
}

/// Whether an id is in one of these ranges.
pub fn has_in(ranges: &[IdRange], id: u32) -> bool
    requires { AreApart 0 ranges.now }
    ensures { result ≡ are_in ranges.now id }
{
    let place = ranges.partition_point(|r| r.last < id);
    match ranges.get(place) {
        Some(range) => range.first <= id,
        None => false,
    }
}

/// How many ids are in these ranges.
pub fn count_in(ranges: &[IdRange]) -> u32
    requires { AreApart 0 ranges.now }
    ensures { result ≡ length (ids_in ranges.now) }
{
    let mut count = 0;
    for range in ranges {
        count += range.last - range.first + 1;
    }
    count
}

/// Adds a range's ids.
fn add_ids(ids: &mut Vec<u32>, range: IdRange) -> Result<(), AllocError>
    requires { IsRange range }
    ensures { OnOk result (ids.new.items ≡ ids.old.items ++ ids_from range.first range.last) }
{
    for id in range.first..range.last + 1 {
        ids.push(id)?;
    }
    Ok(())
}

/// The ids of ranges, in order.
pub fn list(alloc: Global, ranges: &[IdRange]) -> Result<Vec<u32>, AllocError>
    requires { AreApart 0 ranges.now }
    ensures { IfOk result (λ ids. ids.items ≡ ids_in ranges.now) }
{
    let mut ids = Vec::new(alloc);
    for range in ranges {
        add_ids(&mut ids, *range)?;
    }
    Ok(ids)
}

/// Whether two lists of ranges are the same.
pub fn are_same(ranges: &[IdRange], others: &[IdRange]) -> bool
    ensures { IsTrue result ↔ (ranges.now ≡ others.now) }
{
    ranges == others
}

/// A range for each of these ids.
pub fn singles(alloc: Global, ids: &[u32]) -> Result<Vec<IdRange>, AllocError>
    ensures { IfOk result (λ ranges. ranges.items ≡ map single ids.now) }
{
    ids.iter()
        .map(|id| IdRange {
            first: *id,
            last: *id,
        })
        .collect(alloc)
}
