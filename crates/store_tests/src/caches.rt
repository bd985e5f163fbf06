//! The contents of a broker: what is used, dropped and pinned.
ghost use Rattle.std.specs.Prelude.{IfOk};
ghost use Rattle.cache_node.specs.Order.{Names};

use cache_node::{CacheNode, UNPINNED_LIMIT};
use fl_digest::{BlobRef, Hash, RefList};
use lists::Bytes;
use std::alloc::{AllocError, Global};
use std::test::Fail;

#[derive(Clone, Copy)]
enum Act {
    PutDirty,
    Ack,
    Nack,
    Fill,
    Clean,
    Any,
    Pin,
    Unpin,
    DropClean,
    HasDirty,
}

/// How many bytes the content of a value has, which are all this value: those of 0 to 3 are
/// together as many as the limit.
fn size_of(value: u8) -> usize {
    match value {
        0 => UNPINNED_LIMIT as usize - 3,
        1 | 2 | 3 | 5 => 1,
        4 => 0,
        6 => UNPINNED_LIMIT as usize + 1,
        _ => 3,
    }
}

/// Whether these are the references of the contents of these values, of which all are known.
fn are(references: &RefList, values: &[u8], known: &[BlobRef]) -> bool {
    let references = references.as_slice();
    references.len() == values.len()
        && references.iter().zip(values).all(|(reference, value)| known.get(*value as usize)
            == Some(reference))
}

/// Whether so many bytes of the value are there.
fn is_of(bytes: Option<&Bytes>, value: u8) -> bool {
    bytes.is_some_and(|bytes| {
        bytes.as_slice().len() == size_of(value)
            && bytes.as_slice().iter().all(|byte| *byte == value)
    })
}

/// Makes the content of a value, and notes its reference.
fn made(alloc: Global, value: u8, known: &mut Vec<BlobRef>) -> Result<(BlobRef, Bytes), AllocError>
    ensures { IfOk result (λ content. Names content.0 content.1) }
{
    let bytes = Bytes::from_vec(vec![in alloc; value; size_of(value)]?);
    let reference = BlobRef::of(Hash::Sha1, bytes.as_slice());
    if let Some(place) = known.get_mut(value as usize) {
        *place = reference;
    }
    Ok((reference, bytes))
}

/// Whether an act on the content of a value answers so, and lists the contents of these values.
fn agrees(
    cache: &mut CacheNode,
    known: &mut Vec<BlobRef>,
    alloc: Global,
    act: Act,
    value: u8,
    wanted: bool,
    listed: &[u8],
) -> Result<bool, AllocError> {
    let Some(reference) = known.get(value as usize).copied() else {
        return Ok(false);
    };
    let answer = match act {
        Act::PutDirty => {
            let (reference, bytes) = made(alloc, value, known)?;
            cache.put_dirty(reference, bytes).is_ok()
        }
        Act::Fill => {
            let (reference, bytes) = made(alloc, value, known)?;
            are(&cache.fill(reference, bytes)?, listed, known.as_slice())
        }
        Act::DropClean => are(&cache.drop_clean()?, listed, known.as_slice()),
        Act::Ack => cache.ack(&reference)?,
        Act::Nack => is_of(cache.nack(&reference).as_ref(), value),
        Act::Clean => is_of(cache.clean(&reference), value),
        Act::Any => is_of(cache.any(&reference), value),
        Act::Pin => cache.pin(&reference),
        Act::Unpin => cache.unpin(&reference),
        Act::HasDirty => cache.has_dirty(),
    };
    Ok(answer == wanted)
}

/// An act on the content of a value, its answer, and the values of the contents that it lists.
type Step = (Act, u8, bool, &'static [u8]);

/// A content from its put to its drop, and one that is refused.
const STORED: [Step; 36] = [
    (Act::PutDirty, 7, true, &[]),
    (Act::HasDirty, 7, true, &[]),
    (Act::Clean, 7, false, &[]),
    (Act::Any, 7, true, &[]),
    (Act::Pin, 7, false, &[]),
    (Act::Unpin, 7, false, &[]),
    (Act::DropClean, 7, true, &[]),
    (Act::Ack, 7, true, &[]),
    (Act::HasDirty, 7, false, &[]),
    (Act::Ack, 7, false, &[]),
    (Act::Nack, 7, false, &[]),
    (Act::Clean, 7, true, &[]),
    (Act::Any, 7, true, &[]),
    (Act::Pin, 7, true, &[]),
    (Act::DropClean, 7, true, &[]),
    (Act::Unpin, 7, true, &[]),
    (Act::DropClean, 7, true, &[7]),
    (Act::Any, 7, false, &[]),
    (Act::Pin, 7, false, &[]),
    (Act::Unpin, 7, false, &[]),
    (Act::Nack, 8, false, &[]),
    (Act::Ack, 8, false, &[]),
    (Act::PutDirty, 8, true, &[]),
    (Act::PutDirty, 8, true, &[]),
    (Act::PutDirty, 9, true, &[]),
    (Act::Nack, 8, true, &[]),
    (Act::Nack, 8, false, &[]),
    (Act::HasDirty, 8, true, &[]),
    (Act::Fill, 9, true, &[]),
    (Act::HasDirty, 9, false, &[]),
    (Act::Clean, 9, true, &[]),
    (Act::PutDirty, 9, true, &[]),
    (Act::HasDirty, 9, false, &[]),
    (Act::Fill, 8, true, &[]),
    (Act::Fill, 9, true, &[]),
    (Act::DropClean, 8, true, &[8, 9]),
];

/// What goes at the limit, in the order of use, past what is pinned.
const FILLED: [Step; 29] = [
    (Act::Fill, 0, true, &[]),
    (Act::Fill, 1, true, &[]),
    (Act::Fill, 2, true, &[]),
    (Act::Fill, 3, true, &[]),
    (Act::Fill, 4, true, &[]),
    (Act::Pin, 0, true, &[]),
    (Act::Pin, 0, true, &[]),
    (Act::Unpin, 0, true, &[]),
    (Act::Pin, 1, true, &[]),
    (Act::Unpin, 1, true, &[]),
    (Act::Unpin, 1, true, &[]),
    (Act::PutDirty, 5, true, &[]),
    (Act::Ack, 5, true, &[]),
    (Act::Fill, 2, true, &[]),
    (Act::Unpin, 0, true, &[]),
    (Act::Clean, 3, true, &[]),
    (Act::Fill, 4, true, &[3]),
    (Act::Clean, 0, true, &[]),
    (Act::Fill, 7, true, &[0]),
    (Act::Pin, 5, true, &[]),
    (Act::Fill, 6, true, &[1, 2, 4, 7, 6]),
    (Act::Clean, 6, false, &[]),
    (Act::Clean, 5, true, &[]),
    (Act::Any, 7, false, &[]),
    (Act::DropClean, 4, true, &[]),
    (Act::Unpin, 5, true, &[]),
    (Act::Fill, 8, true, &[]),
    (Act::DropClean, 4, true, &[5, 8]),
    (Act::Any, 5, false, &[]),
];

/// References of other contents, as many as there are values.
fn others(alloc: Global) -> Result<Vec<BlobRef>, AllocError> {
    let mut others = vec![in alloc]?;
    for value in 0..210u8 {
        others.push(BlobRef::of(Hash::Sha256, &[value]))?;
    }
    Ok(others)
}

/// The place of the first of these steps that a cache answers otherwise.
fn first_amiss_in(
    alloc: Global,
    cache: &mut CacheNode,
    known: &mut Vec<BlobRef>,
    steps: &[Step],
) -> Result<Option<usize>, AllocError> {
    for (place, (act, value, wanted, listed)) in steps.iter().enumerate() {
        if !agrees(cache, known, alloc, *act, *value, *wanted, *listed)? {
            return Ok(Some(place));
        }
    }
    Ok(None)
}

/// The same of a new cache.
fn first_amiss(alloc: Global, steps: &[Step]) -> Result<Option<usize>, AllocError> {
    let mut known = others(alloc)?;
    let mut cache = CacheNode::new(alloc)?;
    let place = first_amiss_in(alloc, &mut cache, &mut known, steps);
    drop(cache);
    drop(known);
    place
}

#[test]
fn contents_are_stored_refused_and_dropped(rt: HostRuntime) -> Result<(), Fail> {
    assert!(rt; first_amiss(rt.alloc(), &STORED)? == None);
    assert!(rt; first_amiss(rt.alloc(), &FILLED)? == None);
    Ok(())
}

#[test]
fn two_hundred_contents_are_kept_at_once(rt: HostRuntime) -> Result<(), Fail> {
    let alloc = rt.alloc();
    let mut known = others(alloc)?;
    let mut cache = CacheNode::new(alloc)?;
    let mut values = vec![in alloc]?;
    for value in 10..210u8 {
        let filled = agrees(&mut cache, &mut known, alloc, Act::Fill, value, true, &[])?;
        assert!(rt; filled, "{value}");
        values.push(value)?;
    }
    let dropped = agrees(
        &mut cache,
        &mut known,
        alloc,
        Act::DropClean,
        0,
        true,
        values.as_slice(),
    )?;
    assert!(rt; dropped);
    Ok(())
}
