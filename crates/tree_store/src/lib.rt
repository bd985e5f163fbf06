//! Stores as blobs (Flux RFC 11): texts of directories and long values, by their references.
#![tactic(auto)]

ghost use Rattle.std.specs.Prelude.{Ok, IfOk, option_map};
ghost use Rattle.fl_digest.specs.declared.Hash.{Hash};
ghost use Rattle.kvs_model.specs.Operation.{effect};
ghost use Rattle.kvs_model.specs.Store.{Store};
ghost use Rattle.tree_rules.specs.Held.{IsRootOf, IsRootIn};
ghost use Rattle.tree_store.specs.Landing.{table, opening, Leaves};
ghost use Rattle.tree_store.specs.Shown.{Shows, IsShown, Gives};

pub mod faults;
mod fresh;
pub mod kept;
mod opened;
mod operations;
mod walks;

use blob_store::BlobStore;
pub use faults::TreeFault;
use fl_digest::{BlobRef, Hash};
use fresh::Fresh;
pub use kept::Kept;
use kvs_txn::{Refusal, Scope, Txn};
use lists::Bytes;
use opened::Opened;
use operations::operate;
use std::alloc::{AllocError, Global};

/// Does the operations of a transaction in their order, up to the first that is refused.
fn run(
    alloc: Global,
    store: &BlobStore,
    kept: &mut Kept,
    opened: &mut Opened,
    txn: &Txn,
    scope: Scope,
) -> Result<Option<Refusal>, AllocError>
    requires { IsShown (table store.now) opened.old }
    ensures { (digests : Hash) (st : Store) → Shows digests (table store.now) opened.old st
        → IfOk result (λ refusal.
        Gives digests (table store.now) (effect st txn.now scope) refusal opened.new) }
{
    let mut number = 1u32;
    for op in txn.ops.as_slice() {
        if let Some(cause) = operate(alloc, store, kept, opened, txn.author, scope, op)? {
            return Ok(Some(Refusal { op: number, cause }));
        }
        let Some(next) = number.checked_add(1) else {
            return Err(AllocError);
        };
        number = next;
    }
    Ok(None)
}

/// Adds the blobs of the store that the open directories show, and gives its root.
fn written(
    alloc: Global,
    store: &mut BlobStore,
    kept: &mut Kept,
    opened: Opened,
    hash: Hash,
) -> Result<BlobRef, TreeFault>
    requires { (st : Store) × Shows hash (table store.old) opened st }
    ensures { (st : Store) → Shows hash (table store.old) opened st
        → Leaves hash store.old store.new (Ok st) result }
{
    let mut fresh = Fresh::new(alloc);
    let root = fresh.write(alloc, store, hash, opened, kept)?;
    fresh.put_into(store)?;
    Ok(root)
}

/// The root of the first store of a namespace, with a grant that of `primary`. Its blobs are added.
pub fn first(
    alloc: Global,
    store: &mut BlobStore,
    grant: Option<&Bytes>,
    hash: Hash,
) -> Result<BlobRef, TreeFault>
    ensures { Leaves hash store.old store.new
        (Ok (opening (option_map (λ g. g.now) grant.entry))) result }
{
    let mut opened = Opened::new(alloc)?;
    if let Some(grant) = grant {
        opened.grant(alloc, grant)?;
    }
    written(alloc, store, &mut Kept::new(alloc), opened, hash)
}

/// The root of the store after a transaction, whose blobs are added behind those that are there.
/// After a refusal or a clash the blobs are as before; after want of memory some may be added.
pub fn apply(
    alloc: Global,
    store: &mut BlobStore,
    root: &BlobRef,
    txn: &Txn,
    scope: Scope,
    hash: Hash,
) -> Result<BlobRef, TreeFault>
    requires { IsRootIn hash (table store.old) root.now }
    ensures { (st : Store) → IsRootOf hash (table store.old) root.now st
        → Leaves hash store.old store.new (effect st txn.now scope) result }
{
    apply_kept(alloc, store, &mut Kept::new(alloc), root, txn, scope, hash)
}

/// As `apply`, with directories that stay decoded: one whose text is among theirs isn't read, and
/// those that the transaction opened are kept with their new texts. After a refusal, those that it
/// opened aren't kept.
pub fn apply_kept(
    alloc: Global,
    store: &mut BlobStore,
    kept: &mut Kept,
    root: &BlobRef,
    txn: &Txn,
    scope: Scope,
    hash: Hash,
) -> Result<BlobRef, TreeFault>
    requires { IsRootIn hash (table store.old) root.now }
    ensures { (st : Store) → IsRootOf hash (table store.old) root.now st
        → Leaves hash store.old store.new (effect st txn.now scope) result }
{
    let mut opened = Opened::read(alloc, store, kept, root)?;
    if let Some(refusal) = run(alloc, store, kept, &mut opened, txn, scope)? {
        return Err(TreeFault::Refused(refusal));
    }
    written(alloc, store, kept, opened, hash)
}
