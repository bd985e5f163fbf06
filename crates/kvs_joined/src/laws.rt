//! What follows from the words of the contracts.
ghost use Rattle.std.specs.Prelude.{◌≡◌, ℕ, ◌+◌, ◌<◌, ◌^◌, List, [], ◌∷◌, ◌++◌, Some, Ok, Contains, IsSome, IsTrue, is_some, length, slice_index_or, slice_set};
ghost use Rattle.std.specs.List.{remove};
ghost use Rattle.fl_digest.specs.declared.BlobRef.{BlobRef};
ghost use Rattle.fl_digest.specs.declared.Hash.{Hash};
ghost use Rattle.kvs_txn.specs.declared.answers.Found.{Found};
ghost use Rattle.kvs_txn.specs.declared.txn.By.{By};
ghost use Rattle.kvs_model.specs.OneStore.{HasOwnLinks, own_walk};
ghost use Rattle.kvs_model.specs.Store.{Name, Store};
ghost use Rattle.kvs_model.specs.History.{after};
ghost use Rattle.cache_node.specs.Cache.{Cache, clean_at};
ghost use Rattle.content_fetches.specs.declared.fetches.Fetch.{Fetch};
ghost use Rattle.kvs_rules.specs.Answers.{HasHeldNeeds, IsFresh, WalkTells};
ghost use Rattle.kvs_rules.specs.Brokers.{HeldAtOnce, holds};
ghost use Rattle.kvs_rules.specs.Log.{Log, is_asked};
ghost use Rattle.kvs_rules.specs.Namespaces.{Request, Setting, store_after};
ghost use Rattle.tree_rules.specs.Held.{Holds, IsRootOf, Keeps, Table};
ghost use Rattle.tree_rules.specs.OneStore.{own_needs};
ghost use Rattle.tree_walk.specs.Walks.{GoesOn, TellsNext, Walk, without_pins};
ghost use Rattle.tree_look.specs.declared.Advance.TheVariants.{Done};
ghost use Rattle.walk_pins.specs.Pins.{pins_at};
ghost use Rattle.kvs_joined.specs.Joined.{AreFit, ArePinned, ArePinnedOnce, AreRooted, IsFit, IsSpaceOf, OpenWalk, OthersStay, RootedSpace};

/// Where no broker asks for a content that its walks need, no walk is open below rank 0.
pub fn no_walk_waits_alone()
    ensures { (size : ℕ) (spaces : List RootedSpace) (walks : List OpenWalk)
        → AreFit size spaces [] walks → walks ≡ [] }
{}

/// What holds of roots holds still where rank 0's store has grown; and a walk reads the store of
/// its number, which rank 0's store holds.
pub fn walks_stay_joined()
    ensures roots { (hash : Hash) (before later : Table) (s : RootedSpace) → Keeps before later
        → AreRooted hash before s → AreRooted hash later s }
    ensures walks { (hash : Hash) (table : Table) (size : ℕ) (spaces : List RootedSpace)
        (fetches : List Fetch) (w : OpenWalk) (s : RootedSpace)
        → s ≡ slice_index_or spaces w.space s → AreRooted hash table s
        → IsFit size spaces fetches w
        → (st : Store) × (after s.scope s.history w.number s.first ≡ Some st)
        × IsRootOf hash table w.walk.root st }
{}

/// Where a namespace is as the log has it, a root of each number stands for the store after this
/// landing, and rank 0's store holds each of these stores.
pub fn roots_are_those_of_the_log()
    ensures stores { (set : Setting) (log : Log) (name : Name) (table : Table) (s : RootedSpace)
        (number : ℕ) (st : Store) → IsSpaceOf set log name s → AreRooted set.hash table s
        → store_after set log name number ≡ Some st → Holds set.hash table st }
    ensures stands { (set : Setting) (log : Log) (name : Name) (s : RootedSpace) (number : ℕ)
        (st : Store) → IsSpaceOf set log name s
        → after s.scope s.history number s.first ≡ Some st
        → store_after set log name number ≡ Some st }
{}

/// The pins at each broker stay those of its open walks: where a walk begins that has pinned
/// nothing, where one goes on whose pinned contents are clean, and where one ends that unpins what
/// it has pinned. Where no walk is open nothing is pinned.
pub fn pins_are_those_of_open_walks()
    ensures begins { (nodes : ℕ → Cache) (size : ℕ) (walks : List OpenWalk) (w : OpenWalk)
        → w.walk.pinned ≡ [] → length walks + 1 < 2 ^ 32 → ArePinned nodes size walks
        → ArePinned nodes size (walks ++ w ∷ []) }
    ensures goes { (nodes later : ℕ → Cache) (size k : ℕ) (walks : List OpenWalk)
        (old new : OpenWalk) → k < length walks → old ≡ slice_index_or walks k old
        → new.broker ≡ old.broker → OthersStay old.broker nodes later
        → GoesOn old.walk new.walk (nodes old.broker) (later old.broker)
        → ((reference : BlobRef) → Contains new.walk.pinned reference
        → IsSome (clean_at reference (later old.broker)))
        → ArePinnedOnce (slice_set walks k new) → ArePinned nodes size walks
        → ArePinned later size (slice_set walks k new) }
    ensures ends { (nodes later : ℕ → Cache) (size k : ℕ) (walks : List OpenWalk) (w : OpenWalk)
        → k < length walks → w ≡ slice_index_or walks k w → OthersStay w.broker nodes later
        → later w.broker ≡ without_pins w.walk.pinned (nodes w.broker)
        → ArePinnedOnce walks → ArePinned nodes size walks
        → ArePinned later size (remove walks k) }
    ensures none { (nodes : ℕ → Cache) (size broker : ℕ) (reference : BlobRef) → broker < size
        → ArePinned nodes size [] → pins_at reference (nodes broker) ≡ 0 }
{}

/// A walk that ends has found what stands in the store, and its broker holds all that the walk
/// needs, where it holds what is clean there. These are the grounds for the answer to a read in a
/// store none of whose links names a namespace, where its number is fresh.
pub fn a_walk_that_ends_was_held()
    ensures held { (hash : Hash) (log : Log) (by : By) (broker : ℕ) (st : Store) (w : Walk)
        (cache : Cache) (found : Found) → IsTrue (is_asked by log)
        → ((reference : BlobRef) → holds log broker reference
        ≡ is_some (clean_at reference cache))
        → TellsNext hash st w cache (Done found)
        → (found ≡ own_walk st w.asked w.path)
        × HeldAtOnce by broker (own_needs hash st w.asked w.path) log }
    ensures grounds { (set : Setting) (log : Log) (by : By) (r : Request) (number : ℕ) (st : Store)
        (w : Walk) (cache : Cache) (found : Found) → IsTrue (is_asked by log)
        → ((reference : BlobRef) → holds log r.broker reference
        ≡ is_some (clean_at reference cache))
        → TellsNext set.hash st w cache (Done found)
        → store_after set log r.namespace number ≡ Some st → HasOwnLinks st
        → IsFresh log by r.broker r.namespace number
        → WalkTells set log by r w.asked w.path [] (Ok found) number
        × HasHeldNeeds set log by r w.asked w.path [] number }
{}
