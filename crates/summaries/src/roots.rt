//! The root that landings leave.
ghost use Rattle.std.specs.Prelude.{◌≡◌, ◌++◌, flat_map, map, IfOk, IsSome, OnOk, Some};
ghost use Rattle.kvs_model.specs.Store.{Store};
ghost use Rattle.tree_rules.specs.Texts.{root_reference};
ghost use Rattle.summaries.specs.Roots.{ops_of, store_left};

use blob_store::BlobStore;
use fl_digest::{BlobRef, Hash};
use kvs_txn::{Author, GroupList, OpList, Scope, Txn};
use lists::{Bytes, Copied, ListOf};
use std::alloc::{AllocError, Global};
use tree_store::{TreeFault, apply, first};

/// Adds copies of operations.
fn add_ops(ops: &mut OpList, more: &OpList) -> Result<(), AllocError>
    ensures { OnOk result (ops.new ≡ ops.old ++ more.now) }
{
    for op in more.as_slice() {
        ops.push(op.copy()?)?;
    }
    Ok(())
}

/// Adds copies of the operations of a landing's transactions.
fn add_landing(ops: &mut OpList, groups: &GroupList) -> Result<(), AllocError>
    ensures { OnOk result (ops.new ≡ ops.old ++ ops_of groups.now) }
{
    for group in groups.as_slice() {
        add_ops(ops, &group.txn.ops)?;
    }
    Ok(())
}

/// The operations of landings in their order, as one transaction of the manager's, to whom nothing
/// is forbidden that isn't to users.
fn joined(alloc: Global, landings: &[&GroupList]) -> Result<Txn, AllocError>
    ensures author { IfOk result (λ txn. txn.author ≡ Author.Manager) }
    ensures ops { IfOk result (λ txn.
        txn.ops ≡ flat_map (λ groups. ops_of groups.now) landings.now) }
{
    let mut ops = ListOf::new(alloc);
    for groups in landings {
        add_landing(&mut ops, groups)?;
    }
    Ok(Txn {
        author: Author::Manager,
        ops,
    })
}

/// The reference of the root of `primary` after these landings, all done in one step, so that each
/// directory is written once.
pub fn root_after(
    alloc: Global,
    hash: Hash,
    grant: &Bytes,
    landings: &[&GroupList],
) -> Result<BlobRef, AllocError>
    requires { IsSome (store_left grant.now (map (λ groups. groups.now) landings.now)) }
    ensures { (st : Store)
        → store_left grant.now (map (λ groups. groups.now) landings.now) ≡ Some st
        → IfOk result (λ root. root ≡ root_reference hash st) }
{
    let txn = joined(alloc, landings)?;
    let mut blobs = BlobStore::new(alloc);
    let begun = match first(alloc, &mut blobs, Some(grant), hash) {
        Ok(root) => root,
        Err(_) => return Err(AllocError),
    };
    match apply(alloc, &mut blobs, &begun, &txn, Scope::Primary, hash) {
        Ok(root) => Ok(root),
        Err(TreeFault::NoMemory | TreeFault::Clash { .. }) => Err(AllocError),
        // the landings were legal, so none of their operations is refused
        Err(TreeFault::Refused(_)) => unreachable!(),
    }
}
