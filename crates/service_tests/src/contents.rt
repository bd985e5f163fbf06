//! Runs of trees of brokers, with what each load is told known from the texts that were stored.
ghost use Rattle.std.specs.Prelude.{◌≡◌, ◌<◌, ◌≤◌, true, IfOk, OnOk};
ghost use Rattle.kvs_content.specs.Sound.{IsSoundContent};
ghost use Rattle.kvs_content.specs.Steps.{can_deliver};
ghost use Rattle.kvs_content.specs.Value.{size_of};

use fl_digest::{BlobRef, Hash};
use kvs_content::{Contents, Delivery, Flush, KvsEvents, Load, Loaded, Stored};
use kvs_rules::KvsEvent;
use kvs_txn::By;
use lists::{Bytes, ListOf};
use std::alloc::{AllocError, Global};
use std::process::Abort;
use std::test::Fail;

const SIZE: u32 = 7;

const FANOUT: u32 = 2;

/// The beginning of two contents with one SHA-1 digest (shattered.io).
pub(crate) const SHARED: [u8; 192] = [
    37, 80, 68, 70, 45, 49, 46, 51, 10, 37, 226, 227, 207, 211, 10, 10, 10, 49, 32, 48, 32, 111,
    98, 106, 10, 60, 60, 47, 87, 105, 100, 116, 104, 32, 50, 32, 48, 32, 82, 47, 72, 101, 105, 103,
    104, 116, 32, 51, 32, 48, 32, 82, 47, 84, 121, 112, 101, 32, 52, 32, 48, 32, 82, 47, 83, 117,
    98, 116, 121, 112, 101, 32, 53, 32, 48, 32, 82, 47, 70, 105, 108, 116, 101, 114, 32, 54, 32,
    48, 32, 82, 47, 67, 111, 108, 111, 114, 83, 112, 97, 99, 101, 32, 55, 32, 48, 32, 82, 47, 76,
    101, 110, 103, 116, 104, 32, 56, 32, 48, 32, 82, 47, 66, 105, 116, 115, 80, 101, 114, 67, 111,
    109, 112, 111, 110, 101, 110, 116, 32, 56, 62, 62, 10, 115, 116, 114, 101, 97, 109, 10, 255,
    216, 255, 254, 0, 36, 83, 72, 65, 45, 49, 32, 105, 115, 32, 100, 101, 97, 100, 33, 33, 33, 33,
    33, 133, 47, 236, 9, 35, 57, 117, 156, 57, 177, 161, 198, 60, 76, 151, 225, 255, 254, 1,
];

const ONE_END: [u8; 128] = [
    127, 70, 220, 147, 166, 182, 126, 1, 59, 2, 154, 170, 29, 178, 86, 11, 69, 202, 103, 214, 136,
    199, 248, 75, 140, 76, 121, 31, 224, 43, 61, 246, 20, 248, 109, 177, 105, 9, 1, 197, 107, 69,
    193, 83, 10, 254, 223, 183, 96, 56, 233, 114, 114, 47, 231, 173, 114, 143, 14, 73, 4, 224, 70,
    194, 48, 87, 15, 233, 212, 19, 152, 171, 225, 46, 245, 188, 148, 43, 227, 53, 66, 164, 128, 45,
    152, 181, 215, 15, 42, 51, 46, 195, 127, 172, 53, 20, 231, 77, 220, 15, 44, 193, 168, 116, 205,
    12, 120, 48, 90, 33, 86, 100, 97, 48, 151, 137, 96, 107, 208, 191, 63, 152, 205, 168, 4, 70,
    41, 161,
];

const OTHER_END: [u8; 128] = [
    115, 70, 220, 145, 102, 182, 126, 17, 143, 2, 154, 182, 33, 178, 86, 15, 249, 202, 103, 204,
    168, 199, 248, 91, 168, 76, 121, 3, 12, 43, 61, 226, 24, 248, 109, 179, 169, 9, 1, 213, 223,
    69, 193, 79, 38, 254, 223, 179, 220, 56, 233, 106, 194, 47, 231, 189, 114, 143, 14, 69, 188,
    224, 70, 210, 60, 87, 15, 235, 20, 19, 152, 187, 85, 46, 245, 160, 168, 43, 227, 49, 254, 164,
    128, 55, 184, 181, 215, 31, 14, 51, 46, 223, 147, 172, 53, 0, 235, 77, 220, 13, 236, 193, 168,
    100, 121, 12, 120, 44, 118, 33, 86, 96, 221, 48, 151, 145, 208, 107, 208, 175, 63, 152, 205,
    164, 188, 70, 41, 177,
];

/// A content that is stored or loaded. One and Other have one digest.
#[derive(Clone, Copy)]
pub(crate) enum Text {
    Abc,
    Empty,
    Foo,
    One,
    Other,
}

/// The bytes of a content.
pub(crate) fn bytes_of(alloc: Global, text: Text) -> Result<Bytes, AllocError> {
    match text {
        Text::Abc => Bytes::of(alloc, b"abc"),
        Text::Empty => Bytes::of(alloc, b""),
        Text::Foo => Bytes::of(alloc, b"foo\n"),
        Text::One => joined(alloc, &ONE_END),
        Text::Other => joined(alloc, &OTHER_END),
    }
}

/// The shared bytes with others behind them.
fn joined(alloc: Global, end: &[u8]) -> Result<Bytes, AllocError> {
    let mut bytes = Vec::new(alloc);
    bytes.extend_from_slice(&SHARED)?;
    bytes.extend_from_slice(end)?;
    Ok(Bytes::from_vec(bytes))
}

/// The name of the content with these bytes, by the first byte in which One and Other differ.
fn name_of(bytes: &Option<Bytes>) -> &'static str {
    let Some(bytes) = bytes else {
        return "NoBlob";
    };
    match bytes.as_slice().get(SHARED.len()).copied() {
        None => "abc",
        Some(127) => "one",
        Some(_) => "other",
    }
}

/// What is asked at a broker, or the broker from which a message comes to it.
#[derive(Clone, Copy)]
enum Act {
    Store(Text),
    Load(Text),
    Flush,
    Drop,
    From(u32),
}

/// What an act is answered.
#[derive(Drop)]
struct Reply {
    word: &'static str,
    events: KvsEvents,
}

impl Reply {
    /// The word, and behind it the brokers that got (+) and dropped (-) a content.
    fn text(&self, alloc: Global) -> Result<String, AllocError> {
        let mut text = format!(in alloc; "{}", self.word)?;
        for event in self.events.as_slice() {
            match event {
                KvsEvent::Got { broker, .. } => write!(text, " +{broker}")?,
                KvsEvent::Dropped { broker, .. } => write!(text, " -{broker}")?,
                _ => {}
            }
        }
        Ok(text)
    }
}

fn begin(alloc: Global) -> Result<Contents, Fail>
    ensures { IfOk result (λ c. IsSoundContent c × (size_of c ≡ 7)) }
{
    Ok(Contents::new(alloc, SIZE, FANOUT, Hash::Sha1)?)
}

/// Delivers a message on a link, if there is one.
fn deliver_on(contents: &mut Contents, alloc: Global, from: u32, to: u32) -> Result<Reply, Fail>
    requires sound { IsSoundContent contents.old }
    ensures sound { OnOk result (IsSoundContent contents.new) }
    ensures size { OnOk result (size_of contents.new ≡ size_of contents.old) }
{
    if !contents.can_deliver(from, to) {
        return Ok(Reply {
            word: "nothing",
            events: ListOf::new(alloc),
        });
    }
    let Delivery { answer, events } = contents.deliver(from, to)?;
    let word = match answer {
        Some(answer) => name_of(&answer.bytes),
        None => "-",
    };
    Ok(Reply { word, events })
}

/// Loads a content at a broker for the command of a place.
fn load_at(
    contents: &mut Contents,
    alloc: Global,
    place: u32,
    text: Text,
    at: u32,
) -> Result<Reply, Fail>
    requires sound { IsSoundContent contents.old }
    requires within { at < size_of contents.old }
    ensures sound { OnOk result (IsSoundContent contents.new) }
    ensures size { OnOk result (size_of contents.new ≡ size_of contents.old) }
{
    let reference = BlobRef::of(Hash::Sha1, bytes_of(alloc, text)?.as_slice());
    let by = By {
        actor: 0,
        command: place,
    };
    let Loaded { load, events } = contents.load(by, at, reference)?;
    let word = match load {
        Load::Waits => "waits",
        Load::Told(bytes) => name_of(&bytes),
    };
    Ok(Reply { word, events })
}

/// Makes an act at a broker. A load is of the command of its place.
fn reply_to(
    contents: &mut Contents,
    alloc: Global,
    place: u32,
    act: Act,
    at: u32,
) -> Result<Reply, Fail>
    requires sound { IsSoundContent contents.old }
    requires within { at < size_of contents.old }
    ensures sound { OnOk result (IsSoundContent contents.new) }
    ensures size { OnOk result (size_of contents.new ≡ size_of contents.old) }
{
    match act {
        Act::Store(text) => {
            let made = contents.store(at, bytes_of(alloc, text)?)?;
            Ok(Reply {
                word: "stored",
                events: made.events,
            })
        }
        Act::Load(text) => load_at(contents, alloc, place, text, at),
        Act::Flush => {
            let word = match contents.flush(at) {
                Flush::Waits => "waits",
                Flush::Clashed(_) => "clashed",
                Flush::Flushed => "flushed",
            };
            Ok(Reply {
                word,
                events: ListOf::new(alloc),
            })
        }
        Act::Drop => {
            let events = contents.drop_clean(at)?;
            Ok(Reply {
                word: "dropped",
                events,
            })
        }
        Act::From(from) => deliver_on(contents, alloc, from, at),
    }
}

/// Makes acts in their order.
fn walk(rt: &impl Abort, alloc: Global, turns: &[(Act, u32, &str)]) -> Result<(), Fail> {
    let mut contents = begin(alloc)?;
    let mut place = 0;
    for (act, at, wanted) in turns {
        assert!(rt; *at < SIZE);
        let answer = reply_to(&mut contents, alloc, place, *act, *at)?;
        assert_eq!(rt; answer.text(alloc)?.as_str(), *wanted);
        place = place.saturating_add(1);
    }
    Ok(())
}

/// A content goes up from broker 3, and comes down to others: below 1 it isn't kept while 1 has it
/// dirty.
const UP_AND_DOWN: [(Act, u32, &str); 35] = [
    (Act::Flush, 3, "flushed"),
    (Act::Store(Text::Abc), 3, "stored"),
    (Act::Load(Text::Abc), 3, "abc"),
    (Act::Flush, 3, "waits"),
    (Act::Drop, 3, "dropped"),
    (Act::Load(Text::Abc), 4, "waits"),
    (Act::From(4), 1, "-"),
    (Act::From(1), 0, "-"),
    (Act::From(3), 1, "-"),
    (Act::From(3), 1, "nothing"),
    (Act::Load(Text::Abc), 4, "waits"),
    (Act::From(4), 1, "-"),
    (Act::From(0), 1, "-"),
    (Act::From(1), 4, "abc"),
    (Act::From(1), 4, "NoBlob"),
    (Act::Drop, 4, "dropped"),
    (Act::From(1), 3, "nothing"),
    (Act::From(1), 0, "- +0"),
    (Act::Flush, 1, "waits"),
    (Act::From(0), 1, "- +1"),
    (Act::Flush, 1, "flushed"),
    (Act::Flush, 3, "waits"),
    (Act::From(1), 3, "- +3"),
    (Act::Flush, 3, "flushed"),
    (Act::Load(Text::Abc), 6, "waits"),
    (Act::From(6), 2, "-"),
    (Act::From(2), 0, "-"),
    (Act::From(0), 2, "- +2"),
    (Act::From(2), 6, "abc +6"),
    (Act::Drop, 6, "dropped -6"),
    (Act::Drop, 0, "dropped -0"),
    (Act::Load(Text::Abc), 0, "abc +0"),
    (Act::Store(Text::Abc), 6, "stored"),
    (Act::From(6), 2, "-"),
    (Act::From(2), 6, "- +6"),
];

/// Rank 0 keeps the bytes that came first. The others are refused on their way and told by the next
/// flush.
const CLASH: [(Act, u32, &str); 24] = [
    (Act::Store(Text::One), 0, "stored +0"),
    (Act::Store(Text::Other), 5, "stored"),
    (Act::From(5), 2, "-"),
    (Act::Store(Text::One), 6, "stored"),
    (Act::From(6), 2, "-"),
    (Act::Load(Text::One), 5, "other"),
    (Act::From(2), 0, "-"),
    (Act::Flush, 2, "waits"),
    (Act::From(0), 2, "-"),
    (Act::Flush, 2, "clashed"),
    (Act::Flush, 2, "flushed"),
    (Act::From(2), 5, "-"),
    (Act::From(2), 6, "-"),
    (Act::Flush, 5, "clashed"),
    (Act::Flush, 5, "flushed"),
    (Act::Load(Text::Other), 5, "waits"),
    (Act::From(5), 2, "-"),
    (Act::From(2), 0, "-"),
    (Act::From(0), 2, "- +2"),
    (Act::From(2), 5, "one +5"),
    (Act::Store(Text::Other), 0, "stored"),
    (Act::Flush, 0, "clashed"),
    (Act::Flush, 0, "flushed"),
    (Act::Load(Text::Other), 0, "one"),
];

/// Where both meet below rank 0, the one that is kept is accepted and the other refused, on its way
/// up and at a broker that has the first one clean.
const MEETING: [(Act, u32, &str); 20] = [
    (Act::Store(Text::Other), 5, "stored"),
    (Act::Store(Text::One), 6, "stored"),
    (Act::From(5), 2, "-"),
    (Act::From(6), 2, "-"),
    (Act::Flush, 6, "waits"),
    (Act::From(2), 0, "- +0"),
    (Act::From(0), 2, "- +2"),
    (Act::From(2), 5, "- +5"),
    (Act::From(2), 6, "-"),
    (Act::Flush, 5, "flushed"),
    (Act::Flush, 6, "clashed"),
    (Act::Flush, 6, "flushed"),
    (Act::Store(Text::One), 6, "stored"),
    (Act::From(6), 2, "-"),
    (Act::From(2), 6, "-"),
    (Act::Flush, 6, "clashed"),
    (Act::Store(Text::Other), 6, "stored"),
    (Act::From(6), 2, "-"),
    (Act::From(2), 6, "- +6"),
    (Act::Load(Text::One), 6, "other"),
];

/// A clean content comes down to a broker that has stored it since, and is waited for there.
const CROSSING: [(Act, u32, &str); 17] = [
    (Act::Store(Text::Abc), 0, "stored +0"),
    (Act::Load(Text::Abc), 3, "waits"),
    (Act::From(3), 1, "-"),
    (Act::From(1), 0, "-"),
    (Act::Store(Text::Abc), 1, "stored"),
    (Act::Store(Text::Abc), 4, "stored"),
    (Act::From(4), 1, "-"),
    (Act::Flush, 1, "waits"),
    (Act::From(0), 1, "- +1"),
    (Act::Flush, 1, "flushed"),
    (Act::From(1), 0, "-"),
    (Act::From(0), 1, "-"),
    (Act::From(1), 4, "- +4"),
    (Act::From(1), 3, "abc +3"),
    (Act::From(0), 1, "nothing"),
    (Act::Drop, 1, "dropped -1"),
    (Act::Load(Text::Abc), 4, "abc"),
];

#[test]
fn contents_go_up_and_come_down(rt: HostRuntime) -> Result<(), Fail> {
    walk(&rt, rt.alloc(), &UP_AND_DOWN)?;
    walk(&rt, rt.alloc(), &CLASH)?;
    walk(&rt, rt.alloc(), &MEETING)?;
    walk(&rt, rt.alloc(), &CROSSING)
}
