//! What a landing makes of rank 0's blobs, and what the log says of them.
ghost use Rattle.std.specs.Prelude.{◌≡◌, ℕ, ◌∷◌, ◌++◌, List, Some, Err, Option};
ghost use Rattle.fl_digest.specs.declared.BlobRef.{BlobRef};
ghost use Rattle.fl_digest.specs.declared.Hash.{Hash};
ghost use Rattle.kvs_txn.specs.declared.txn.By.{By};
ghost use Rattle.kvs_txn.specs.declared.txn.Group.{Group};
ghost use Rattle.kvs_txn.specs.declared.txn.Scope.{Scope};
ghost use Rattle.kvs_txn.specs.declared.txn.Txn.{Txn};
ghost use Rattle.kvs_model.specs.Operation.{effect};
ghost use Rattle.kvs_model.specs.Store.{Name, Store};
ghost use Rattle.kvs_rules.specs.declared.events.KvsEvent.TheVariants as event;
ghost use Rattle.kvs_rules.specs.Landings.{IsRefusal, clash};
ghost use Rattle.kvs_rules.specs.Log.{Happened, Log};
ghost use Rattle.kvs_rules.specs.Namespaces.{Setting, scope_of};
ghost use Rattle.tree_rules.specs.Held.{IsRootOf};
ghost use Rattle.tree_store.specs.Landing.{Leaves, table};
ghost use Rattle.tree_store.specs.declared.faults.TreeFault.TheVariants.{Clash};
ghost use Rattle.tree_landings.specs.Applied.{AreApplied, AreContents, Blobs, HasGrown, StandsLast};

/// Transactions that were applied one behind another, from a root whose store the blobs hold, take
/// effect on that store in this order, and the blobs hold the store that they make under the new
/// root. All that stood among the blobs stands there still, and what is new are blobs of the stores
/// after each of the transactions.
pub fn what_is_applied_lands()
    ensures { (hash : Hash) (space : Scope) (before : Blobs) (root : BlobRef) (groups : List Group)
        (after : Blobs) (new : BlobRef) (st : Store)
        → AreApplied hash space before root groups after new
        → IsRootOf hash (table before) root st
        → HasGrown hash space before groups after new st }
{}

/// Where all that rank 0 keeps are contents of the instance, it is so once transactions have landed
/// that were applied to the last store of a namespace, and from then on.
pub fn what_lands_is_content()
    ensures { (set : Setting) (log more : Log) (space : Name) (number : ℕ)
        (authors : List (Option By)) (group : Group) (groups : List Group)
        (before after : Blobs) (root new : BlobRef) (st : Store)
        → AreApplied set.hash (scope_of space) before root (group ∷ groups) after new
        → IsRootOf set.hash (table before) root st
        → StandsLast set log space st → AreContents set log before
        → AreContents set
        (log ++ Happened (event.Landed space number authors (group ∷ groups)) ∷ more) after }
{}

/// A transaction whose blobs clash with those of rank 0, which are contents of the instance, may be
/// refused for a clash.
pub fn what_clashes_is_refused()
    ensures { (set : Setting) (log : Log) (space : Name) (before after : Blobs) (root : BlobRef)
        (st : Store) (txn : Txn) (reference : BlobRef) (kept offered : List ℕ)
        → IsRootOf set.hash (table before) root st → AreContents set log before
        → Leaves set.hash before after (effect st txn (scope_of space))
        (Err (Clash reference kept offered))
        → IsRefusal set log space st txn clash }
{}
