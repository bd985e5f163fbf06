//! Contents by reference.
use blob_store::{BlobStore, PutFault};
use fl_digest::{BlobRef, Hash};
use lists::Bytes;
use std::alloc::Global;
use std::test::Fail;

/// Whether a store takes a text under a reference.
fn takes(
    alloc: Global,
    store: &mut BlobStore,
    reference: BlobRef,
    text: &str,
) -> Result<bool, Fail> {
    let bytes = Bytes::of(alloc, text.as_bytes())?;
    Ok(store.put(reference, bytes).is_ok())
}

/// Whether a store hands a text back as another content than that which stands.
fn hands_back(
    alloc: Global,
    store: &mut BlobStore,
    reference: BlobRef,
    text: &str,
) -> Result<bool, Fail> {
    let other = Bytes::of(alloc, text.as_bytes())?;
    Ok(match store.put(reference, other) {
        Ok(()) => false,
        Err(PutFault::NoMemory(_back)) => false,
        Err(PutFault::Clash(back)) => back.as_slice() == text.as_bytes(),
    })
}

/// Whether a store has a text under a reference.
fn has(store: &BlobStore, reference: &BlobRef, text: &str) -> bool {
    store
        .get(reference)
        .is_some_and(|kept| kept.as_slice() == text.as_bytes())
}

/// Whether a store without a text takes it twice, and no other under its reference then.
fn keeps_one(alloc: Global, store: &mut BlobStore, hash: Hash, text: &str) -> Result<bool, Fail> {
    let reference = BlobRef::of(hash, text.as_bytes());
    let is_new = store.get(&reference).is_none();
    let first = takes(alloc, store, reference, text)?;
    let second = takes(alloc, store, reference, text)?;
    let clashes = hands_back(alloc, store, reference, "xyz")?;
    Ok(is_new && first && second && clashes && has(store, &reference, text))
}

#[test]
fn one_content_under_each_reference(rt: HostRuntime) -> Result<(), Fail> {
    let mut store = BlobStore::new(rt.alloc());
    assert!(rt; keeps_one(rt.alloc(), &mut store, Hash::Sha1, "abc")?);
    assert!(rt; keeps_one(rt.alloc(), &mut store, Hash::Sha256, "abc")?);
    assert!(rt; keeps_one(rt.alloc(), &mut store, Hash::Sha1, "")?);
    Ok(())
}

/// Whether a store takes a number's text.
fn takes_number(alloc: Global, store: &mut BlobStore, number: u32) -> Result<bool, Fail> {
    let text = format!(in alloc; "{number}")?;
    let reference = BlobRef::of(Hash::Sha1, text.as_bytes());
    takes(alloc, store, reference, text.as_str())
}

/// Whether a store has a number's text.
fn has_number(alloc: Global, store: &BlobStore, number: u32) -> Result<bool, Fail> {
    let text = format!(in alloc; "{number}")?;
    let reference = BlobRef::of(Hash::Sha1, text.as_bytes());
    Ok(has(store, &reference, text.as_str()))
}

#[test]
fn a_thousand_contents_stand_at_once(rt: HostRuntime) -> Result<(), Fail> {
    let mut store = BlobStore::new(rt.alloc());
    for number in 0..1000u32 {
        assert!(rt; takes_number(rt.alloc(), &mut store, number)?);
    }
    for number in 0..1000u32 {
        assert!(rt; has_number(rt.alloc(), &store, number)?);
    }
    Ok(())
}

/// Whether a text stands at a place.
fn stands_at(store: &BlobStore, place: usize, text: &str) -> bool {
    let reference = BlobRef::of(Hash::Sha256, text.as_bytes());
    store.nth(place).is_some_and(|pair| {
        pair.reference == reference && pair.bytes.as_slice() == text.as_bytes()
    })
}

#[test]
fn contents_stand_in_the_order_of_first_puts(rt: HostRuntime) -> Result<(), Fail> {
    let mut store = BlobStore::new(rt.alloc());
    let texts = ["b", "", "a", "b", "c", "a"];
    let order = ["b", "", "a", "c"];
    for text in &texts {
        let reference = BlobRef::of(Hash::Sha256, text.as_bytes());
        assert!(rt; takes(rt.alloc(), &mut store, reference, text)?);
    }
    assert!(rt; store.len() == order.len());
    for (place, text) in order.iter().enumerate() {
        assert!(rt; stands_at(&store, place, text));
    }
    assert!(rt; store.nth(order.len()).is_none());
    assert!(rt; store.nth(usize::MAX).is_none());
    Ok(())
}
