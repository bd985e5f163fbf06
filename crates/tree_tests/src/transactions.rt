//! Transactions on blobs against those on a store in memory, and the reference of a first store.
use crate::drawn::{land, land_kept, transaction, value, word};
use blob_store::BlobStore;
use fl_digest::{BlobRef, Hash};
use kvs_txn::{Found, Kind, Listed, Op, Path, Query, Scope};
use lists::Bytes;
use plain_store::{ApplyFault, Store};
use rand_core::SeedableRng;
use rand_pcg::Pcg32;
use std::alloc::Global;
use std::test::Fail;
use tree_objects::{Object, ObjectMap, read};
use tree_store::{Kept, TreeFault, first};

/// The grant of seven hosts with four cores each.
const GRANT: &str =
    "{\"execution\":{\"R_lite\":[{\"children\":{\"core\":\"0-3\"},\"rank\":\"0-6\"}],\
        \"expiration\":0,\"nodelist\":[\"node[0-6]\"],\"starttime\":0},\"version\":1}";

/// The reference of the first store with this grant, as other programs compute it.
const FIRST: &str = "sha1-7c76e6293a7b129f1c2af42517287437a3a4559c";

/// That of the store without names.
const EMPTY: &str = "sha1-c0a9faf907dda6216fd73bf81d0b3b21a1a8cb91";

/// Whether both answers are the same.
fn are_same(plain: &Result<(), ApplyFault>, tree: &Result<(), TreeFault>) -> bool {
    match (plain, tree) {
        (Ok(()), Ok(())) => true,
        (Err(ApplyFault::Refused(one)), Err(TreeFault::Refused(other))) => one == other,
        _ => false,
    }
}

/// The bytes that an object stands for, if it is a value.
fn bytes_of<'a>(blobs: &'a BlobStore, object: &'a Object) -> Option<&'a [u8]> {
    match object {
        Object::Val(bytes) => Some(bytes.as_slice()),
        Object::Valref(references) => Some(blobs.get(references.as_slice().first()?)?.as_slice()),
        _ => None,
    }
}

/// Whether an object is what the store has at the path.
fn is_at(
    blobs: &BlobStore,
    store: &Store,
    path: &Path,
    listed: &Listed,
    object: &Object,
) -> Result<bool, Fail> {
    Ok(match listed.kind {
        Kind::Value => match store.look(Query::Get, path)? {
            Found::Value(bytes) => {
                let long = matches!(object, Object::Valref(_));
                long == (64 < bytes.as_slice().len())
                    && bytes_of(blobs, object) == Some(bytes.as_slice())
            }
            _ => false,
        },
        Kind::Link => match (store.look(Query::Link, path)?, object) {
            (Found::Target(target), Object::Symlink(other)) => {
                target.path.as_slice() == other.path.as_slice()
                    && target.namespace.is_none()
                    && other.namespace.is_none()
            }
            _ => false,
        },
        Kind::Dir => matches!(object, Object::Dirref(_)),
    })
}

/// The directory whose text has the reference.
fn decoded(alloc: Global, blobs: &BlobStore, reference: &BlobRef) -> Result<ObjectMap, Fail> {
    let text = blobs.get(reference).ok_or("no text")?;
    match read(alloc, text.as_slice())? {
        Object::Dir(directory) => Ok(directory),
        _ => Err(Fail::from("no directory")),
    }
}

/// A directory's path as it is written, with its reference.
type Place = (Bytes, BlobRef);

/// Compares a directory with the store's, and adds those in it to the rest.
fn same_directory(
    alloc: Global,
    blobs: &BlobStore,
    store: &Store,
    place: &Place,
    rest: &mut Vec<Place>,
) -> Result<bool, Fail> {
    let directory = decoded(alloc, blobs, &place.1)?;
    let text = std::str::from_utf8(place.0.as_slice())
        .ok()
        .ok_or("not UTF-8")?;
    let names = match store.look(Query::List, &Path::read(alloc, text)?)? {
        Found::Names(names) => names,
        _ => return Ok(false),
    };
    if names.as_slice().len() != directory.names().len() {
        return Ok(false);
    }
    for listed in names.as_slice() {
        let object = directory.get(&listed.name).ok_or("no object")?;
        let mut text = Bytes::of(alloc, place.0.as_slice())?;
        text.push(b'.')?;
        text.add(listed.name.as_slice())?;
        let path = Path::read(
            alloc,
            std::str::from_utf8(text.as_slice())
                .ok()
                .ok_or("not UTF-8")?,
        )?;
        if !is_at(blobs, store, &path, listed, object)? {
            return Ok(false);
        }
        if let Object::Dirref(reference) = object {
            rest.push((text, *reference))?;
        }
    }
    Ok(true)
}

/// Whether a root's blobs tell the store, and how many directories they tell.
fn same_store(
    alloc: Global,
    blobs: &BlobStore,
    root: &BlobRef,
    store: &Store,
) -> Result<Option<u32>, Fail> {
    let mut rest = Vec::new(alloc);
    rest.push((Bytes::of(alloc, b".")?, *root))?;
    for count in 0..10_000u32 {
        let Some(place) = rest.pop() else {
            return Ok(Some(count));
        };
        if !same_directory(alloc, blobs, store, &place, &mut rest)? {
            return Ok(None);
        }
    }
    Ok(None)
}

/// Whether the first store of a namespace has so many directories, and a root with this reference.
fn has_first(
    alloc: Global,
    grant: Option<&Bytes>,
    store: &Store,
    name: &[u8],
    directories: u32,
) -> Result<bool, Fail> {
    let mut blobs = BlobStore::new(alloc);
    let Ok(root) = first(alloc, &mut blobs, grant, Hash::Sha1) else {
        return Ok(false);
    };
    let told = same_store(alloc, &blobs, &root, store)?;
    Ok(told == Some(directories) && root.print(alloc)?.as_slice() == name)
}

#[test]
fn the_first_stores_have_their_references(rt: HostRuntime) -> Result<(), Fail> {
    let alloc = rt.alloc();
    let grant = Bytes::of(alloc, GRANT.as_bytes())?;
    let store = Store::first(alloc, &grant)?;
    assert!(rt; has_first(alloc, Some(&grant), &store, FIRST.as_bytes(), 3)?);
    let store = Store::empty(alloc)?;
    assert!(rt; has_first(alloc, None, &store, EMPTY.as_bytes(), 1)?);
    Ok(())
}

#[test]
fn drawn_transactions_do_as_in_memory(rt: HostRuntime) -> Result<(), Fail> {
    let alloc = rt.alloc();
    let mut draws = Pcg32::seed_from_u64(11);
    let grant = Bytes::of(alloc, b"grant".as_slice())?;
    let mut store = Store::first(alloc, &grant)?;
    let mut blobs = BlobStore::new(alloc);
    let Ok(mut root) = first(alloc, &mut blobs, Some(&grant), Hash::Sha256) else {
        return Err(Fail::from("no root"));
    };
    let mut landed = 0u32;
    for number in 0..500u32 {
        let scope = match word(&mut draws, 2) {
            0 => Scope::Primary,
            _ => Scope::Other,
        };
        let txn = transaction(alloc, &mut draws)?;
        let tree = land(alloc, &mut blobs, &mut root, &txn, scope, Hash::Sha256);
        let plain = store.apply(&txn, scope);
        assert!(rt; are_same(&plain, &tree), "the answer of {number}");
        landed = landed.saturating_add(u32::from(tree.is_ok()));
        let told = same_store(alloc, &blobs, &root, &store)?;
        assert!(rt; told.is_some(), "the store after {number}");
    }
    assert!(rt; 100 < landed && landed < 400, "{landed}");
    Ok(())
}

/// Whether both answers of transactions on blobs are the same.
fn are_alike(plain: &Result<(), TreeFault>, kept: &Result<(), TreeFault>) -> bool {
    match (plain, kept) {
        (Ok(()), Ok(())) => true,
        (Err(TreeFault::Refused(one)), Err(TreeFault::Refused(other))) => one == other,
        _ => false,
    }
}

/// Whether two stores have the same blobs in the same order, from a place on.
fn have_same(one: &BlobStore, other: &BlobStore, from: usize) -> bool {
    if one.len() != other.len() {
        return false;
    }
    for place in from..one.len() {
        let same = match (one.nth(place), other.nth(place)) {
            (Some(one), Some(other)) => {
                one.reference == other.reference && *one.bytes == *other.bytes
            }
            _ => false,
        };
        if !same {
            return false;
        }
    }
    true
}

/// A put into one of 50 directories, more than stay decoded.
fn wide(alloc: Global, draws: &mut Pcg32) -> Result<Op, Fail> {
    let text = format!(in alloc; "w{}.{}", word(draws, 50), word(draws, 9))?;
    Ok(Op::Put {
        path: Path::read(alloc, text.as_str())?,
        bytes: value(alloc, draws)?,
    })
}

#[test]
fn decoded_directories_change_no_answer(rt: HostRuntime) -> Result<(), Fail> {
    let alloc = rt.alloc();
    let mut draws = Pcg32::seed_from_u64(12);
    let mut blobs = BlobStore::new(alloc);
    let mut others = BlobStore::new(alloc);
    let mut kept = Kept::new(alloc);
    let Ok(mut root) = first(alloc, &mut blobs, None, Hash::Sha1) else {
        return Err(Fail::from("no root"));
    };
    let Ok(mut other) = first(alloc, &mut others, None, Hash::Sha1) else {
        return Err(Fail::from("no root"));
    };
    let mut landed = 0u32;
    for number in 0..500u32 {
        let mut txn = transaction(alloc, &mut draws)?;
        txn.stage(wide(alloc, &mut draws)?).ok().ok_or("full")?;
        let from = blobs.len();
        let plain = land(alloc, &mut blobs, &mut root, &txn, Scope::Other, Hash::Sha1);
        let same = land_kept(
            alloc,
            &mut others,
            &mut kept,
            &mut other,
            &txn,
            Scope::Other,
            Hash::Sha1,
        );
        assert!(rt; are_alike(&plain, &same), "the answer of {number}");
        assert!(rt; root == other, "the root after {number}");
        assert!(rt;
            have_same(&blobs, &others, from),
            "the blobs after {number}"
        );
        landed = landed.saturating_add(u32::from(same.is_ok()));
    }
    assert!(rt; 100 < landed && landed < 500, "{landed}");
    Ok(())
}
