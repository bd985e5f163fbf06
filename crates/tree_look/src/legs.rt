//! Where a walk comes to along a path, and past links.
ghost use Rattle.std.specs.Prelude.{◌≡◌, ◌≤◌, ◌++◌, length, option_map, option_copied, IfOk};
ghost use Rattle.fl_digest.specs.declared.Hash.{Hash};
ghost use Rattle.kvs_model.specs.Store.{Store};
ghost use Rattle.kvs_model.specs.OneStore.{own_walk};
ghost use Rattle.tree_rules.specs.OneStore.{own_needs};
ghost use Rattle.tree_objects.specs.Level.{tree_of};
ghost use Rattle.tree_look.specs.Looks.{EndTells, Reads};
ghost use Rattle.tree_look.specs.Legs.{directory_in, target_in, leaves_link, LegTells, StopsAt, StopsWithin, TurnTells, GoesFrom};

use crate::Advance;
use crate::ends::found;
use crate::texts::{Texts, directory_at};
use fl_digest::BlobRef;
use kvs_txn::{Found, Query, Target};
use lists::{Bytes, Copied};
use std::alloc::{AllocError, Global};
use tree_objects::Object;

/// The most links that one walk follows.
const MOST_LINKS: u32 = 10;

/// Where a walk along a path comes to.
#[derive(Drop)]
pub enum Leg {
    /// To a directory whose text isn't known.
    Needs(BlobRef),
    /// Behind so many components, to the first place where no directory stands, or to the path's
    /// end.
    Stops {
        count: usize,
        object: Option<Object>,
    },
}

/// How a walk goes on at the end of a path.
#[derive(Drop)]
pub enum Turn {
    /// Not before this text is known.
    Needs(BlobRef),
    /// Along the path behind a link.
    Follows(Vec<Bytes>),
    /// No further than to this object, if one stands there. Components may be left.
    Ends { object: Option<Object>, whole: bool },
}

/// The reference of a directory.
fn directory_in(object: &Option<Object>) -> Option<BlobRef>
    ensures { result ≡ directory_in (option_map tree_of object.now) }
{
    match object {
        Some(Object::Dirref(reference)) => Some(*reference),
        Some(Object::Val(_)) => None,
        Some(Object::Valref(_)) => None,
        Some(Object::Dir(_)) => None,
        Some(Object::Symlink(_)) => None,
        None => None,
    }
}

/// The target of a link.
fn target_in(object: &Option<Object>) -> Option<&Target>
    ensures { option_copied result ≡ target_in (option_map tree_of object.now) }
{
    match object {
        Some(Object::Symlink(target)) => Some(target),
        Some(Object::Val(_)) => None,
        Some(Object::Valref(_)) => None,
        Some(Object::Dir(_)) => None,
        Some(Object::Dirref(_)) => None,
        None => None,
    }
}

/// Where a walk along a path comes to, from the root on. It notes the references that it passes.
fn walk_leg<T: Texts>(
    alloc: Global,
    texts: &T,
    root: &BlobRef,
    path: &[Bytes],
    passed: &mut Vec<BlobRef>,
) -> Result<Leg, AllocError>
    ensures within { IfOk result (StopsWithin path.now) }
    ensures told { (hash : Hash) (st : Store) → Reads hash st root.now (T.seen texts.now)
        → IfOk result (LegTells hash st path.now (T.seen texts.now)
        passed.old.items passed.new.items) }
{
    let mut reference = *root;
    for (index, name) in path.iter().enumerate() {
        let found = directory_at(alloc, texts, &reference)?;
        let Some(mut directory) = found else {
            return Ok(Leg::Needs(reference));
        };
        passed.push(reference)?;
        let object = directory.remove(name);
        let Some(next) = directory_in(&object) else {
            let count = index + 1;
            return Ok(Leg::Stops { count, object });
        };
        reference = next;
    }
    Ok(Leg::Stops {
        count: path.len(),
        object: Some(Object::Dirref(reference)),
    })
}

/// The components of two paths, one after the other.
fn joined(alloc: Global, front: &[Bytes], back: &[Bytes]) -> Result<Vec<Bytes>, AllocError>
    ensures { IfOk result (λ whole. whole.items ≡ front.now ++ back.now) }
{
    let mut whole = copy_of(alloc, front)?;
    for component in back {
        whole.push(component.copy()?)?;
    }
    Ok(whole)
}

/// The components, in memory of their own.
fn copy_of(alloc: Global, path: &[Bytes]) -> Result<Vec<Bytes>, AllocError>
    ensures { IfOk result (λ twin. twin.items ≡ path.now) }
{
    let mut twin = Vec::new(alloc);
    for component in path {
        twin.push(component.copy()?)?;
    }
    Ok(twin)
}

/// Whether a query leaves a link at which its walk stops: a query for a link does so in the last
/// place.
fn leaves(asked: Query, whole: bool) -> bool
    ensures { result ≡ leaves_link asked whole }
{
    match asked {
        Query::Get => false,
        Query::List => false,
        Query::Link => whole,
    }
}

/// How a walk goes on that stops behind so many components of a path.
fn past_link(
    alloc: Global,
    asked: Query,
    path: &[Bytes],
    count: usize,
    object: Option<Object>,
) -> Result<Turn, AllocError>
    requires { count ≤ length path.now }
    ensures { (hash : Hash) (st : Store) → StopsAt hash st path.now count object
        → IfOk result (GoesFrom hash st asked path.now) }
{
    let whole = count == path.len();
    if leaves(asked, whole) {
        return Ok(Turn::Ends { object, whole });
    }
    match target_in(&object) {
        None => Ok(Turn::Ends { object, whole }),
        Some(target) => {
            let next = joined(alloc, target.path.as_slice(), &path[count..])?;
            Ok(Turn::Follows(next))
        }
    }
}

/// How a walk along a path goes on where it stops. It notes the references that it passes.
fn next_turn<T: Texts>(
    alloc: Global,
    texts: &T,
    root: &BlobRef,
    asked: Query,
    path: &[Bytes],
    passed: &mut Vec<BlobRef>,
) -> Result<Turn, AllocError>
    ensures { (hash : Hash) (st : Store) → Reads hash st root.now (T.seen texts.now)
        → IfOk result
        (TurnTells hash st asked path.now (T.seen texts.now) passed.old.items passed.new.items) }
{
    let leg = walk_leg(alloc, texts, root, path, passed)?;
    match leg {
        Leg::Needs(reference) => Ok(Turn::Needs(reference)),
        Leg::Stops { count, object } => past_link(alloc, asked, path, count, object),
    }
}

/// What a query finds at a path, or the first reference that it needs and that isn't known.
/// It notes the references that it passes.
pub fn look_in<T: Texts>(
    alloc: Global,
    texts: &T,
    root: &BlobRef,
    asked: Query,
    path: &[Bytes],
    passed: &mut Vec<BlobRef>,
) -> Result<Advance, AllocError>
    ensures { (hash : Hash) (st : Store) → Reads hash st root.now (T.seen texts.now)
        → IfOk result (EndTells (own_walk st asked path.now)
        (own_needs hash st asked path.now) (T.seen texts.now) passed.old.items passed.new.items) }
{
    let mut here = copy_of(alloc, path)?;
    let mut links = 0u32;
    while links <= MOST_LINKS {
        let turn = next_turn(alloc, texts, root, asked, here.as_slice(), passed)?;
        match turn {
            Turn::Needs(reference) => return Ok(Advance::Needs(reference)),
            Turn::Ends { object, whole } => {
                return found(alloc, texts, asked, object, whole, passed);
            }
            Turn::Follows(next) => here = next,
        }
        links += 1;
    }
    Ok(Advance::Done(Found::Loop))
}
