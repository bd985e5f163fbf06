//! How many names lie directly in each place.
ghost use Rattle.std.specs.Prelude.{◌≡◌, ◌+◌, ◌≤◌, ◌<◌, ◌^◌, IsSome, OnOk};
ghost use Rattle.kvs_model.specs.Store.{Path as Places};
ghost use Rattle.plain_store.specs.Counted.{count_at, kept_at, weight, times, IsCountable};

use crate::slots::copy_of;
use lists::Bytes;
use std::alloc::{AllocError, Global};
use std::collections::BTreeMap;

/// The counts by their places. Where none is kept, no names lie.
pub type Counts = BTreeMap<Vec<Bytes>, usize>;

/// How many names lie in the place.
pub fn count_in(counts: &Counts, place: &[Bytes]) -> usize
    ensures { result ≡ count_at counts.now.entries place.now }
{
    counts.get(place).copied().unwrap_or(0)
}

/// Sees that a count is kept for the place in which the path lies.
pub fn make_count(alloc: Global, counts: &mut Counts, path: &[Bytes]) -> Result<(), AllocError>
    ensures made { OnOk result (IsCountable counts.new.entries path.now) }
    ensures same { (q : Places) → count_at counts.new.entries q ≡ count_at counts.old.entries q }
    ensures stays { (q : Places) → IsSome (kept_at counts.old.entries q)
        → IsSome (kept_at counts.new.entries q) }
{
    let Some((_, place)) = path.split_last() else {
        return Ok(());
    };
    if counts.contains_key(place) {
        return Ok(());
    }
    counts.insert(copy_of(alloc, place)?, 0)?;
    Ok(())
}

/// A count after something stood at a path of the place, and stands there now.
fn counted(count: usize, stood: bool, stands: bool) -> usize
    requires stood { times stood 1 ≤ count }
    requires bound { count < 2 ^ 63 }
    ensures { result + times stood 1 ≡ count + times stands 1 }
{
    match (stood, stands) {
        (true, false) => count - 1,
        (false, true) => count + 1,
        _ => count,
    }
}

/// Counts a path at which something stood, or now stands, in the place in which it lies.
pub fn recount(counts: &mut Counts, path: &[Bytes], stood: bool, stands: bool)
    requires kept { IsCountable counts.old.entries path.now }
    requires stood { (q : Places) → times stood (weight q path.now)
        ≤ count_at counts.old.entries q }
    requires bound { (q : Places) → count_at counts.old.entries q < 2 ^ 63 }
    ensures counted { (q : Places)
        → count_at counts.new.entries q + times stood (weight q path.now)
        ≡ count_at counts.old.entries q + times stands (weight q path.now) }
    ensures stays { (q : Places) → IsSome (kept_at counts.old.entries q)
        → IsSome (kept_at counts.new.entries q) }
{
    let Some((_, place)) = path.split_last() else {
        return;
    };
    let Some(count) = counts.get_mut(place) else {
        unreachable!()
    };
    *count = counted(*count, stood, stands);
}

/// Forgets the count of the place in which the path lies, where it is 0.
pub fn forget_count(counts: &mut Counts, path: &[Bytes])
    ensures { (q : Places) → count_at counts.new.entries q ≡ count_at counts.old.entries q }
{
    let Some((_, place)) = path.split_last() else {
        return;
    };
    let _count = counts.len();
    if count_in(counts, place) == 0 {
        let _zero = counts.remove(place);
    }
}
