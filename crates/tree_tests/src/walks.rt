//! Walks over a cache that is filled with what they need, in a small store and after drawn
//! transactions.
use crate::drawn::{KEYS, land, transaction};
use blob_store::BlobStore;
use cache_node::CacheNode;
use fl_digest::{BlobRef, Hash, RefList};
use kvs_txn::{Author, Found, Kind, Op, Path, Query, Scope, Target, Txn};
use lists::{Bytes, Copied};
use plain_store::Store;
use rand_core::SeedableRng;
use rand_pcg::Pcg32;
use std::alloc::Global;
use std::test::Fail;
use tree_objects::{Object, read};
use tree_store::{apply, first};
use tree_walk::{Advance, Cursor};

/// A value that stands by its reference.
const LONG: &str = "0123456789012345678901234567890123456789012345678901234567890123456789";

/// The operations that make the small store: ten links from `l0` on lead to a value.
const OPERATIONS: [(&str, &str, &str); 20] = [
    ("put", "a", "short"),
    ("put", "long", LONG),
    ("put", "d.v", "inner"),
    ("put", "d.e.w", LONG),
    ("link", "d.up", "a"),
    ("link", "to", "d.e"),
    ("link", "nowhere", "b.c"),
    ("link", "self", "self"),
    ("link", "l0", "l1"),
    ("link", "l1", "l2"),
    ("link", "l2", "l3"),
    ("link", "l3", "l4"),
    ("link", "l4", "l5"),
    ("link", "l5", "l6"),
    ("link", "l6", "l7"),
    ("link", "l7", "l8"),
    ("link", "l8", "l9"),
    ("link", "l9", "a"),
    ("link", "l", "l0"),
    ("mkdir", "none", ""),
];

/// What is asked of which key, what is found, and the places whose contents are needed, in their
/// order.
type Walk = (Query, &'static str, &'static [u8], &'static [&'static str]);

/// Walks in the small store.
const WALKS: [Walk; 34] = [
    (Query::Get, ".", b"IsDir", &[]),
    (
        Query::List,
        ".",
        b"names a d. l@ l0@ l1@ l2@ l3@ l4@ l5@ l6@ l7@ l8@ l9@ long none. nowhere@ self@ to@",
        &["."],
    ),
    (Query::Link, ".", b"NotLink", &[]),
    (Query::Get, "a", b"value short", &["."]),
    (Query::List, "a", b"NotDir", &["."]),
    (Query::Link, "a", b"NotLink", &["."]),
    (Query::Get, "b", b"Nothing", &["."]),
    (Query::Get, "d.b.c", b"Nothing", &[".", "d"]),
    (Query::Get, "a.b", b"NotDir", &["."]),
    (Query::List, "a.b", b"NotDir", &["."]),
    (Query::Link, "a.b", b"NotDir", &["."]),
    (
        Query::Get,
        "long",
        b"value 0123456789012345678901234567890123456789012345678901234567890123456789",
        &[".", "long"],
    ),
    (Query::List, "long", b"NotDir", &["."]),
    (Query::Link, "long", b"NotLink", &["."]),
    (Query::Get, "long.b", b"NotDir", &["."]),
    (Query::Get, "d", b"IsDir", &["."]),
    (Query::List, "d", b"names e. up@ v", &[".", "d"]),
    (Query::Link, "d", b"NotLink", &["."]),
    (Query::List, "none", b"names", &[".", "none"]),
    (Query::Get, "d.v", b"value inner", &[".", "d"]),
    (
        Query::Get,
        "d.e.w",
        b"value 0123456789012345678901234567890123456789012345678901234567890123456789",
        &[".", "d", "d.e", "d.e.w"],
    ),
    (Query::Get, "to", b"IsDir", &[".", "d"]),
    (Query::List, "to", b"names w", &[".", "d", "d.e"]),
    (Query::Link, "to", b"target d.e", &["."]),
    (Query::Link, "to.w", b"NotLink", &[".", "d", "d.e"]),
    (Query::Get, "d.up", b"value short", &[".", "d"]),
    (Query::Link, "d.up", b"target a", &[".", "d"]),
    (Query::Get, "nowhere", b"Nothing", &["."]),
    (Query::Get, "self", b"Loop", &["."]),
    (Query::Link, "self", b"target self", &["."]),
    (Query::Link, "self.b", b"Loop", &["."]),
    (Query::Get, "l0", b"value short", &["."]),
    (Query::Get, "l", b"Loop", &["."]),
    (Query::List, "l", b"Loop", &["."]),
];

fn operation_of(alloc: Global, verb: &str, key: &str, text: &str) -> Result<Op, Fail> {
    let path = Path::read(alloc, key)?;
    Ok(match verb {
        "put" => Op::Put {
            path,
            bytes: Bytes::of(alloc, text.as_bytes())?,
        },
        "mkdir" => Op::Mkdir { path },
        _ => Op::Link {
            path,
            target: Target {
                path: Path::read(alloc, text)?,
                namespace: None,
            },
        },
    })
}

/// Adds the blobs of the small store, and gives its root.
fn small_store(alloc: Global, blobs: &mut BlobStore) -> Result<BlobRef, Fail> {
    let Ok(root) = first(alloc, blobs, None, Hash::Sha1) else {
        return Err(Fail::from("no first root"));
    };
    let mut txn = Txn::new(alloc, Author::User(7));
    for (verb, key, text) in &OPERATIONS {
        txn.stage(operation_of(alloc, verb, key, text)?)
            .ok()
            .ok_or("full")?;
    }
    match apply(alloc, blobs, &root, &txn, Scope::Other, Hash::Sha1) {
        Ok(root) => Ok(root),
        Err(_) => Err(Fail::from("no root")),
    }
}

/// The reference of the directory or long value at a key.
fn reference_at(
    alloc: Global,
    blobs: &BlobStore,
    root: &BlobRef,
    key: &str,
) -> Result<BlobRef, Fail> {
    let path = Path::read(alloc, key)?;
    let mut reference = *root;
    for name in path.as_slice() {
        let text = blobs.get(&reference).ok_or("no text")?;
        let mut directory = match read(alloc, text.as_slice())? {
            Object::Dir(directory) => directory,
            _ => return Err(Fail::from("no directory")),
        };
        reference = match directory.remove(name) {
            Some(Object::Dirref(next)) => next,
            Some(Object::Valref(list)) => *list.as_slice().first().ok_or("no reference")?,
            _ => return Err(Fail::from("nothing by reference")),
        };
    }
    Ok(reference)
}

/// The same of several keys.
fn references_at(
    alloc: Global,
    blobs: &BlobStore,
    root: &BlobRef,
    keys: &[&str],
) -> Result<RefList, Fail> {
    let mut references = RefList::new(alloc);
    for key in keys {
        references.push(reference_at(alloc, blobs, root, *key)?)?;
    }
    Ok(references)
}

/// Makes the content under a reference clean.
fn fill(cache: &mut CacheNode, blobs: &BlobStore, reference: &BlobRef) -> Result<(), Fail> {
    let bytes = blobs.get(reference).ok_or("no blob")?.copy()?;
    let named = BlobRef::of(Hash::Sha1, bytes.as_slice());
    cache.fill(named, bytes)?;
    Ok(())
}

/// Makes all contents clean.
fn fill_all(cache: &mut CacheNode, blobs: &BlobStore) -> Result<(), Fail> {
    for place in 0..blobs.len() {
        let pair = blobs.nth(place).ok_or("no blob")?;
        let named = BlobRef::of(Hash::Sha1, pair.bytes.as_slice());
        cache.fill(named, pair.bytes.copy()?)?;
    }
    Ok(())
}

/// Goes on with a walk, and drops all that isn't pinned. A content that is missing is noted, and
/// made clean.
fn step(
    cursor: &mut Cursor,
    cache: &mut CacheNode,
    blobs: &BlobStore,
    needs: &mut RefList,
) -> Result<Option<Found>, Fail> {
    let told = cursor.advance(cache)?;
    let _gone = cache.drop_clean()?;
    match told {
        Advance::Done(found) => Ok(Some(found)),
        Advance::Needs(reference) => {
            needs.push(reference)?;
            fill(cache, blobs, &reference)?;
            Ok(None)
        }
    }
}

/// What a walk finds, with what it needs besides what is clean, in order.
fn walked(
    alloc: Global,
    blobs: &BlobStore,
    cache: &mut CacheNode,
    root: BlobRef,
    asked: Query,
    path: &Path,
) -> Result<(Found, RefList), Fail> {
    let mut cursor = Cursor::new(alloc, root, asked, path)?;
    let mut needs = RefList::new(alloc);
    for _ in 0..100u32 {
        if let Some(found) = step(&mut cursor, cache, blobs, &mut needs)? {
            cursor.finish(cache);
            return Ok((found, needs));
        }
    }
    Err(Fail::from("no end"))
}

fn names_shown(text: &mut Bytes, name: &[u8], kind: Kind) -> Result<(), Fail> {
    text.push(b' ')?;
    text.add(name)?;
    match kind {
        Kind::Value => {}
        Kind::Dir => text.push(b'.')?,
        Kind::Link => text.push(b'@')?,
    }
    Ok(())
}

/// What was found, in words.
fn shown(alloc: Global, found: &Found) -> Result<Bytes, Fail> {
    let mut text = Bytes::new(alloc);
    match found {
        Found::Value(bytes) => {
            text.add(b"value ".as_slice())?;
            text.add(bytes.as_slice())?;
        }
        Found::Names(names) => {
            text.add(b"names".as_slice())?;
            for listed in names.as_slice() {
                names_shown(&mut text, listed.name.as_slice(), listed.kind)?;
            }
        }
        Found::Target(target) => {
            text.add(b"target ".as_slice())?;
            text.add(target.path.print(alloc)?.as_slice())?;
        }
        Found::Nothing => text.add(b"Nothing".as_slice())?,
        Found::IsDir => text.add(b"IsDir".as_slice())?,
        Found::NotDir => text.add(b"NotDir".as_slice())?,
        Found::NotLink => text.add(b"NotLink".as_slice())?,
        Found::Loop => text.add(b"Loop".as_slice())?,
    }
    Ok(text)
}

/// Whether a walk finds what it should, and needs the contents of these places.
fn tells_so(
    alloc: Global,
    blobs: &BlobStore,
    cache: &mut CacheNode,
    root: BlobRef,
    walk: Walk,
    places: &[&str],
) -> Result<bool, Fail> {
    let path = Path::read(alloc, walk.1)?;
    let (found, needs) = walked(alloc, blobs, cache, root, walk.0, &path)?;
    let references = references_at(alloc, blobs, &root, places)?;
    let text = shown(alloc, &found)?;
    Ok(text.as_slice() == walk.2 && needs.as_slice() == references.as_slice())
}

/// Whether a walk does so from an empty cache, in which nothing stays pinned, and from one of all
/// contents.
fn does_so(alloc: Global, blobs: &BlobStore, root: BlobRef, walk: Walk) -> Result<bool, Fail> {
    let mut cache = CacheNode::new(alloc)?;
    let cold = tells_so(alloc, blobs, &mut cache, root, walk, walk.3)?;
    let left = cache.drop_clean()?.as_slice().len() == walk.3.len();
    fill_all(&mut cache, blobs)?;
    let warm = tells_so(alloc, blobs, &mut cache, root, walk, &[])?;
    Ok(cold && left && warm)
}

#[test]
fn walks_need_their_contents_in_order(rt: HostRuntime) -> Result<(), Fail> {
    let alloc = rt.alloc();
    let mut blobs = BlobStore::new(alloc);
    let root = small_store(alloc, &mut blobs)?;
    for walk in &WALKS {
        assert!(rt; does_so(alloc, &blobs, root, *walk)?, "{}", walk.1);
    }
    Ok(())
}

/// What a walk to a value at the top of the small store tells: whether it is missing the root's
/// text.
fn misses_root(cursor: &mut Cursor, cache: &mut CacheNode, root: BlobRef) -> Result<bool, Fail> {
    Ok(match cursor.advance(cache)? {
        Advance::Done(_) => false,
        Advance::Needs(reference) => reference == root,
    })
}

/// The root of the small store, whose text is dirty.
fn dirty_root(alloc: Global, cache: &mut CacheNode) -> Result<BlobRef, Fail> {
    let mut blobs = BlobStore::new(alloc);
    let root = small_store(alloc, &mut blobs)?;
    let bytes = blobs.get(&root).ok_or("no text")?.copy()?;
    let named = BlobRef::of(Hash::Sha1, bytes.as_slice());
    cache.put_dirty(named, bytes)?;
    Ok(root)
}

/// Whether the root's text is missing while it is dirty, and no more once it is clean, and stays
/// until the end.
fn reads_clean_alone(alloc: Global, cache: &mut CacheNode) -> Result<bool, Fail> {
    let root = dirty_root(alloc, cache)?;
    let path = Path::read(alloc, "a")?;
    let mut cursor = Cursor::new(alloc, root, Query::Get, &path)?;
    let dirty = misses_root(&mut cursor, cache, root)?;
    let acknowledged = cache.ack(&root)?;
    let clean = misses_root(&mut cursor, cache, root)?;
    let kept = cache.drop_clean()?.as_slice().is_empty();
    cursor.finish(cache);
    let dropped = cache.drop_clean()?.as_slice() == [root].as_slice();
    Ok(dirty && acknowledged && !clean && kept && dropped)
}

#[test]
fn dirty_contents_are_not_read(rt: HostRuntime) -> Result<(), Fail> {
    let mut cache = CacheNode::new(rt.alloc())?;
    assert!(rt; reads_clean_alone(rt.alloc(), &mut cache)?);
    Ok(())
}

/// Whether a walk from an empty cache finds what the store in memory has, and leaves nothing
/// pinned.
fn agrees(
    alloc: Global,
    blobs: &BlobStore,
    cache: &mut CacheNode,
    root: BlobRef,
    store: &Store,
    asked: Query,
    path: &Path,
) -> Result<bool, Fail> {
    let (found, needs) = walked(alloc, blobs, cache, root, asked, path)?;
    let left = cache.drop_clean()?.as_slice().len() == needs.as_slice().len();
    let wanted = shown(alloc, &store.look(asked, path)?)?;
    Ok(left && shown(alloc, &found)?.as_slice() == wanted.as_slice())
}

/// Whether all queries at all keys do.
fn all_agree(alloc: Global, blobs: &BlobStore, root: BlobRef, store: &Store) -> Result<bool, Fail> {
    let mut cache = CacheNode::new(alloc)?;
    for key in &KEYS {
        let path = Path::read(alloc, key)?;
        for asked in [Query::Get, Query::List, Query::Link] {
            if !agrees(alloc, blobs, &mut cache, root, store, asked, &path)? {
                return Ok(false);
            }
        }
    }
    Ok(true)
}

#[test]
fn drawn_stores_are_read_as_in_memory(rt: HostRuntime) -> Result<(), Fail> {
    let alloc = rt.alloc();
    let mut draws = Pcg32::seed_from_u64(23);
    let mut store = Store::empty(alloc)?;
    let mut blobs = BlobStore::new(alloc);
    let Ok(mut root) = first(alloc, &mut blobs, None, Hash::Sha1) else {
        return Err(Fail::from("no root"));
    };
    let mut landed = 0u32;
    for number in 0..60u32 {
        let txn = transaction(alloc, &mut draws)?;
        let lands = land(alloc, &mut blobs, &mut root, &txn, Scope::Other, Hash::Sha1).is_ok();
        assert_eq!(rt;
            lands,
            store.apply(&txn, Scope::Other).is_ok(),
            "the answer of {number}"
        );
        if lands {
            landed = landed.saturating_add(1);
            assert!(rt;
                all_agree(alloc, &blobs, root, &store)?,
                "the store after {number}"
            );
        }
    }
    assert!(rt; 10 < landed, "{landed}");
    Ok(())
}
