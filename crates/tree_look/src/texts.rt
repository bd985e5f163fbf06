//! Texts by their references, and the directories that they tell.
ghost use Rattle.std.specs.Prelude.{◌≡◌, is_some, option_copied, IsErr, IfOk, IfSome};
ghost use Rattle.fl_digest.specs.declared.BlobRef.{BlobRef as Reference};
ghost use Rattle.fl_digest.specs.declared.Hash.{Hash};
ghost use Rattle.kvs_model.specs.Store.{Path as Place, Store, Directory, IsStore, node_at};
ghost use Rattle.blob_store.specs.Blobs.{blob_at};
ghost use Rattle.cache_node.specs.Cache.{clean_at};
ghost use Rattle.tree_rules.specs.Held.{IsStorable, Table};
ghost use Rattle.tree_rules.specs.Objects.{Entries, listed, dir};
ghost use Rattle.tree_rules.specs.Texts.{objects, objects_in, directory_text, directory_reference};
ghost use Rattle.tree_objects.specs.Level.{tree_of};
ghost use Rattle.tree_look.specs.Looks.{Reads};

use blob_store::BlobStore;
use cache_node::CacheNode;
use fl_digest::BlobRef;
use lists::Bytes;
use std::alloc::{AllocError, Global};
use tree_objects::{Object, ObjectFault, ObjectMap, read};

/// Texts of directories and long values, by their references.
pub trait Texts {
    ghost seen: { Self → Table };

    /// The bytes under a reference, if they are known.
    fn text(&self, reference: &BlobRef) -> Option<&Bytes>
        ensures found { option_copied result ≡ seen self.now reference.now };
}

/// All that the store has.
impl Texts for BlobStore {
    ghost seen = { λ store reference. blob_at reference store };

    fn text(&self, reference: &BlobRef) -> Option<&Bytes> {
        self.get(reference)
    }
}

/// What is clean in the cache.
impl Texts for CacheNode {
    ghost seen = { λ cache reference. clean_at reference cache };

    fn text(&self, reference: &BlobRef) -> Option<&Bytes> {
        self.clean(reference)
    }
}

/// The directory that an object is. Another object counts as one without names.
fn directory_of(alloc: Global, object: Object) -> ObjectMap
    ensures { (es : Entries) → tree_of object ≡ dir es → result ≡ es }
{
    match object {
        Object::Dir(directory) => directory,
        _ => ObjectMap::new(alloc),
    }
}

/// A directory without names for a text with a fault, if it isn't want of memory.
fn without_names(alloc: Global, fault: ObjectFault) -> Result<ObjectMap, AllocError>
    ensures { fault ≡ ObjectFault.NoMemory → IsErr result }
{
    match fault {
        ObjectFault::NoMemory => Err(AllocError),
        _ => Ok(ObjectMap::new(alloc)),
    }
}

/// The directory that a text tells. One that tells none counts as one without names.
fn directory_told(alloc: Global, text: &[u8]) -> Result<ObjectMap, AllocError>
    ensures { (hash : Hash) (st : Store) (place : Place) → IsStore st → IsStorable st
        → text.now ≡ directory_text hash st place
        → IfOk result (λ es. listed es ≡ objects_in place (objects hash st)) }
{
    match read(alloc, text) {
        Ok(object) => Ok(directory_of(alloc, object)),
        Err(fault) => without_names(alloc, fault),
    }
}

/// The directory whose text has this reference, if the text is known.
pub fn directory_at<T: Texts>(
    alloc: Global,
    texts: &T,
    reference: &BlobRef,
) -> Result<Option<ObjectMap>, AllocError>
    ensures known { IfOk result (λ found.
        is_some found ≡ is_some (T.seen texts.now reference.now)) }
    ensures told { (hash : Hash) (st : Store) (root : Reference) (place : Place)
        → Reads hash st root (T.seen texts.now)
        → node_at st place ≡ Some Directory
        → reference.now ≡ directory_reference hash st place
        → IfOk result (λ found.
        IfSome found (λ es. listed es ≡ objects_in place (objects hash st))) }
{
    let Some(text) = texts.text(reference) else {
        return Ok(None);
    };
    let directory = directory_told(alloc, text.as_slice())?;
    Ok(Some(directory))
}
