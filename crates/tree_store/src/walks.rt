//! Where a path leads.
ghost use Rattle.std.specs.Prelude.{◌≡◌, ◌≤◌, ◌<◌, ◌++◌, ℕ, length, take, drop, None, IfOk};
ghost use Rattle.std.specs.Prelude.{OnOk, IsSome, option_map, false};
ghost use Rattle.fl_digest.specs.declared.Hash.{Hash};
ghost use Rattle.kvs_model.specs.Operation.{is_directory};
ghost use Rattle.kvs_model.specs.Store.{Store, node_at};
ghost use Rattle.kvs_model.specs.Walk.{stop, past_inner_link};
ghost use Rattle.plain_store.specs.Next.{LeadsTo};
ghost use Rattle.tree_store.specs.Landing.{table};
ghost use Rattle.tree_store.specs.Shown.{opened_at, own_path, path_further, Shows, IsShown, OpensAbove};

use crate::kept::Kept;
use crate::opened::{Opened, copy_of};
use blob_store::BlobStore;
use kvs_txn::Cause;
use lists::{Bytes, Copied};
use std::alloc::{AllocError, Global};

/// How many components a walk along the path passes, to the first place where no directory stands.
/// Those that it passes are open then.
fn passed(
    alloc: Global,
    store: &BlobStore,
    kept: &mut Kept,
    opened: &mut Opened,
    path: &[Bytes],
) -> Result<usize, AllocError>
    requires { IsShown (table store.now) opened.old }
    ensures bound { IfOk result (λ n. n ≤ length path.now) }
    ensures opens { IfOk result (λ n. (k : ℕ) → k < n
        → IsSome (opened_at opened.new (take k path.now))) }
    ensures stop { (hash : Hash) (st : Store) → Shows hash (table store.now) opened.old st
        → IfOk result (λ n.
        stop st path.now ≡ record { place = take n path.now; rest = drop n path.now }) }
    ensures ends { (hash : Hash) (st : Store) → Shows hash (table store.now) opened.old st
        → IfOk result (λ n. n < length path.now
        → is_directory (node_at st (take n path.now)) ≡ false) }
    ensures shown { (hash : Hash) (st : Store) → Shows hash (table store.now) opened.old st
        → OnOk result (Shows hash (table store.now) opened.new st) }
{
    let mut count = 0;
    while count < path.len() {
        if !opened.enter(alloc, store, kept, &path[..count])? {
            return Ok(count);
        }
        count += 1;
    }
    Ok(count)
}

/// The components of two paths, one after the other.
fn joined(alloc: Global, front: &[Bytes], back: &[Bytes]) -> Result<Vec<Bytes>, AllocError>
    ensures { IfOk result (λ whole. whole.items ≡ front.now ++ back.now) }
{
    let mut whole = copy_of(alloc, front)?;
    for component in back {
        whole.push(component.copy()?)?;
    }
    Ok(whole)
}

/// Where a link leads.
#[derive(Drop)]
pub enum Further {
    /// To this path of its own store.
    Inside(Vec<Bytes>),
    /// Into the namespace that it names.
    Outside,
}

/// Where the first link before the path's last place leads, if there is one.
fn past_inner_link(
    alloc: Global,
    store: &BlobStore,
    kept: &mut Kept,
    opened: &mut Opened,
    path: &[Bytes],
) -> Result<Option<Further>, AllocError>
    requires { IsShown (table store.now) opened.old }
    ensures next { (hash : Hash) (st : Store) → Shows hash (table store.now) opened.old st
        → IfOk result (λ next.
        option_map path_further next ≡ option_map own_path (past_inner_link st path.now)) }
    ensures shown { (hash : Hash) (st : Store) → Shows hash (table store.now) opened.old st
        → OnOk result (Shows hash (table store.now) opened.new st) }
    ensures opens { (hash : Hash) (st : Store) → Shows hash (table store.now) opened.old st
        → IfOk result (λ next. next ≡ None → OpensAbove opened.new st path.now) }
{
    let count = passed(alloc, store, kept, opened, path)?;
    if count == path.len() {
        return Ok(None);
    }
    let Some(target) = opened.link(&path[..count]) else {
        return Ok(None);
    };
    if target.namespace.is_some() {
        return Ok(Some(Further::Outside));
    }
    let next = joined(alloc, target.path.as_slice(), &path[count..])?;
    Ok(Some(Further::Inside(next)))
}

/// Where an operation at the path works, or why it works nowhere. The directories above that place
/// are open then, down to the first where none stands.
pub fn resolve(
    alloc: Global,
    store: &BlobStore,
    kept: &mut Kept,
    opened: &mut Opened,
    path: &[Bytes],
) -> Result<Result<Vec<Bytes>, Cause>, AllocError>
    requires { IsShown (table store.now) opened.old }
    ensures end { (hash : Hash) (st : Store) → Shows hash (table store.now) opened.old st
        → IfOk result (LeadsTo st path.now) }
    ensures shown { (hash : Hash) (st : Store) → Shows hash (table store.now) opened.old st
        → OnOk result (Shows hash (table store.now) opened.new st) }
    ensures opens { (hash : Hash) (st : Store) → Shows hash (table store.now) opened.old st
        → IfOk result (λ end. IfOk end (λ at. OpensAbove opened.new st at.items)) }
{
    let mut here = copy_of(alloc, path)?;
    let mut links = 0u32;
    while links < 10 {
        match past_inner_link(alloc, store, kept, opened, here.as_slice())? {
            None => return Ok(Ok(here)),
            Some(Further::Outside) => return Ok(Err(Cause::OtherSpace)),
            Some(Further::Inside(next)) => here = next,
        }
        links += 1;
    }
    match past_inner_link(alloc, store, kept, opened, here.as_slice())? {
        None => Ok(Ok(here)),
        Some(_) => Ok(Err(Cause::Loop)),
    }
}
