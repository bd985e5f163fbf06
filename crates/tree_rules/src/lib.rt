//! How the content of a key-value store is stored (Flux RFC 11): its objects and their texts, the
//! references of these, and what a walk needs of them. The definitions stand in `specs/`, and the
//! functions below state their laws.
#![tactic(auto)]

ghost use Rattle.std.specs.Prelude.{◌≡◌, ◌++◌, ◌∷◌, [], List, ℕ, Some, true, IsTrue, Contains};
ghost use Rattle.std.specs.FinMap.Entries as finite;
ghost use Rattle.fl_digest.specs.declared.BlobRef.{BlobRef};
ghost use Rattle.fl_digest.specs.declared.Hash.{Hash};
ghost use Rattle.kvs_txn.specs.declared.answers.Query.{Query};
ghost use Rattle.kvs_model.specs.Store.{Name, Path, Store, Directory, Value, IsStore, node_at, is_within};
ghost use Rattle.tree_rules.specs.Texts.{is_long, objects, objects_in, stored_at, directory_text, blobs, IsOfBlob};
ghost use Rattle.kvs_model.specs.Walk.{Family};
ghost use Rattle.kvs_model.specs.OneStore.{HasOwnLinks};
ghost use Rattle.tree_rules.specs.Needs.{needs};
ghost use Rattle.tree_rules.specs.OneStore.{own_needs};
ghost use Rattle.tree_rules.specs.Held.{Table, Keeps, IsRootOf};
ghost use Rattle.tree_rules.specs.Names.{name_cmp};

/// In the text of a directory each name has the object of its path in the store, and the names
/// rise.
pub fn a_directory_has_the_objects_of_its_paths()
    ensures found { (hash : Hash) (st : Store) (path : Path) (name : Name) → IsStore st
        → finite.find name_cmp name (objects_in path (objects hash st))
        ≡ stored_at hash st (path ++ name ∷ []) }
    ensures rise { (hash : Hash) (st : Store) (path : Path) → IsStore st
        → IsTrue (finite.is_sorted name_cmp (objects_in path (objects hash st))) }
{}

/// The text of a directory depends on what stands in it and below alone.
pub fn a_text_tells_what_lies_below()
    ensures { (hash : Hash) (st other : Store) (path : Path) → IsStore st → IsStore other
        → ((place : Path) → is_within path place ≡ true → node_at st place ≡ node_at other place)
        → directory_text hash st path ≡ directory_text hash other path }
{}

/// The text of each directory and each long value of a store is one of its blobs.
pub fn what_stands_by_reference_is_a_blob()
    ensures text { (hash : Hash) (st : Store) (path : Path) → node_at st path ≡ Some Directory
        → Contains (blobs hash st) (directory_text hash st path) }
    ensures value { (hash : Hash) (st : Store) (path : Path) (bytes : List ℕ)
        → node_at st path ≡ Some (Value bytes) → is_long bytes ≡ true
        → Contains (blobs hash st) bytes }
{}

/// All that a walk needs are blobs of stores of its family.
pub fn a_walk_needs_blobs()
    ensures { (hash : Hash) (family : Family) (space : Name) (asked : Query) (path : Path)
        (reference : BlobRef) → Contains (needs hash family space asked path) reference
        → (name : Name) × (st : Store) × (family name ≡ Some st) × IsOfBlob hash st reference }
{}

/// Where no link of a store names a namespace, its walks need its blobs alone.
pub fn own_links_need_their_store()
    ensures needs { (hash : Hash) (family : Family) (space : Name) (st : Store) (asked : Query)
        (path : Path) → family space ≡ Some st → HasOwnLinks st
        → needs hash family space asked path ≡ own_needs hash st asked path }
    ensures blobs { (hash : Hash) (st : Store) (asked : Query) (path : Path) (reference : BlobRef)
        → Contains (own_needs hash st asked path) reference → IsOfBlob hash st reference }
{}

/// A table that keeps what it has holds the stores that it held.
pub fn stores_stay_held()
    ensures { (hash : Hash) (before after : Table) (root : BlobRef) (st : Store)
        → IsRootOf hash before root st → Keeps before after → IsRootOf hash after root st }
{}
