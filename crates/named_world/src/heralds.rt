//! The words of the brokers, as the chronicle grows.
ghost use Rattle.std.specs.Prelude.{◌≡◌, ◌≤◌, ◌<◌, ℕ, Some, None, length, slice_get, slice_index, take};
ghost use Rattle.kvs_rules.specs.Namespaces.{is_primary};
ghost use Rattle.root_feed.specs.Values.{HeraldValue};
ghost use Rattle.world.specs.hierarchy.Heard.{HearUpwards, hearing};
ghost use Rattle.named_world.specs.Words.{AreRaisedBy, AreSameWords, AreWords, IsAbove};

use lists::Bytes;
use root_feed::{Feed, FeedName, Herald, Note, Seen};
use world::answers::Entry;

/// Whether a namespace is `primary`.
fn is_primary(namespace: &Bytes) -> bool
    ensures { result ≡ is_primary namespace.now }
{
    namespace.as_slice() == b"primary".as_slice()
}

/// The broker of the top that an entry lets hear a root of `primary`, and the root's number.
fn hearing(entry: &Entry) -> Option<(u32, u64)>
    ensures { result ≡ hearing entry.now }
{
    let Entry::Heard {
        instance,
        broker,
        namespace,
        number,
    } = entry
    else {
        return None;
    };
    if *instance == 0 && is_primary(namespace) {
        Some((*broker, *number))
    } else {
        None
    }
}

/// Raises the word of a broker that hears a root by this entry.
fn raise_by<N: FeedName>(heralds: &mut Vec<Herald<N>>, feed: &Feed<N>, entry: &Entry)
    requires above { (heard : ℕ × ℕ) → hearing entry.now ≡ Some heard
        → IsAbove heralds.old.items heard.0 heard.1 }
    ensures { AreRaisedBy entry.now heralds.old.items heralds.new.items }
{
    if let Some((broker, number)) = hearing(entry) {
        heralds[broker as usize].raise(feed, number);
    }
}

/// Raises the words of the brokers that hear a root by the entries from this place on.
pub fn raise_heard<N: FeedName>(
    heralds: &mut Vec<Herald<N>>,
    feed: &Feed<N>,
    entries: &[Entry],
    from: usize,
)
    requires within { from ≤ length entries.now }
    requires words { AreWords (take from entries.now) heralds.old.items }
    requires hears { HearUpwards (length heralds.old.items) entries.now }
    ensures all { length heralds.new.items ≡ length heralds.old.items }
    ensures words { AreWords entries.now heralds.new.items }
{
    for at in from..entries.len() {
        raise_by(heralds, feed, &entries[at]);
    }
}

/// Lets the herald of a broker meet the note of what was seen there, so that the broker's word is no
/// less than that.
pub fn meet<N: FeedName>(
    heralds: &mut Vec<Herald<N>>,
    feed: &Feed<N>,
    seen: &Seen<N>,
    note: Note<N>,
)
    requires noted { seen.now.1 ≤ slice_index note seen.now.0 }
    requires inside { seen.now.0 < length heralds.old.items }
    requires brokers { (h : HeraldValue) → slice_get heralds.old.items seen.now.0 ≡ Some h
        → h.broker ≡ seen.now.0 }
    ensures same { AreSameWords heralds.old.items heralds.new.items }
    ensures reached { (h : HeraldValue) → slice_get heralds.old.items seen.now.0 ≡ Some h
        → seen.now.1 ≤ h.number }
{
    heralds[seen.broker() as usize].meet(feed, note);
}
