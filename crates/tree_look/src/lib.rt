//! What a reader finds in stored texts, by their references (Flux RFC 11): in those of a store that
//! holds all, or in those that a cache has clean, as far as they go.
#![tactic(auto)]

ghost use Rattle.std.specs.Prelude.{◌≡◌, IfOk};
ghost use Rattle.fl_digest.specs.declared.Hash.{Hash};
ghost use Rattle.kvs_model.specs.OneStore.{own_walk};
ghost use Rattle.kvs_model.specs.Store.{Store};
ghost use Rattle.tree_rules.specs.Held.{IsRootOf};
ghost use Rattle.tree_store.specs.Landing.{table};

mod ends;
mod legs;
mod texts;

use blob_store::BlobStore;
use fl_digest::BlobRef;
use kvs_txn::{Found, Path, Query};
pub use legs::look_in;
use std::alloc::{AllocError, Global};
pub use texts::Texts;

/// What a reader is told: what it finds, or the reference of the first content that is missing.
#[derive(Drop)]
pub enum Advance {
    Done(Found),
    Needs(BlobRef),
}

/// What a query finds at a path in the store whose root this is.
/// A text that is missing or tells no directory counts as one of a directory without names.
pub fn look(
    alloc: Global,
    store: &BlobStore,
    root: &BlobRef,
    asked: Query,
    path: &Path,
) -> Result<Found, AllocError>
    ensures { (hash : Hash) (st : Store) → IsRootOf hash (table store.now) root.now st
        → IfOk result (λ found. found ≡ own_walk st asked path.now) }
{
    let mut passed = Vec::new(alloc);
    match look_in(alloc, store, root, asked, path.as_slice(), &mut passed)? {
        Advance::Done(found) => Ok(found),
        // the store of a root has all that its walks need
        Advance::Needs(_) => Ok(Found::Nothing),
    }
}
