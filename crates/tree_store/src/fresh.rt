//! The blobs of a new store that aren't kept yet.
ghost use Rattle.std.specs.Prelude.{◌≡◌, ◌<◌, ◌++◌, ◌∷◌, [], Some, None, IfOk, IfErr, OnOk, OnErr};
ghost use Rattle.std.specs.Prelude.{length, List, ℕ, Ok};
ghost use Rattle.std.specs.Prelude.{option_copied};
ghost use Rattle.blob_store.specs.Blobs.{blob_at};
ghost use Rattle.fl_digest.specs.Reference.{reference_of};
ghost use Rattle.kvs_model.specs.Store.{Store};
ghost use Rattle.tree_rules.specs.Held.{IsRootOf};
ghost use Rattle.tree_objects.specs.Directories.{names_of};
ghost use Rattle.tree_objects.specs.Level.{tree_of};
ghost use Rattle.tree_objects.specs.Reading.{Gives};
ghost use Rattle.tree_objects.specs.declared.object.Object.TheVariants as object;
ghost use Rattle.tree_rules.specs.Objects.{valref};
ghost use Rattle.tree_rules.specs.Texts.{blobs};
ghost use Rattle.tree_store.specs.Fresh.{AreNew, AddsSome, HasAll, ClashesIn, IsClashOf, IsPart};
ghost use Rattle.tree_store.specs.Fresh.{HasLongAt};
ghost use Rattle.tree_store.specs.Landing.{table, IsClashIn};
ghost use Rattle.tree_store.specs.Shown.{Shows, all_shortened, long_values};
ghost use Rattle.tree_store.specs.Shown.{shortened_at, long_values_at};
ghost use Rattle.tree_store.specs.Shown.{entries_text, strings_of};
ghost use Rattle.tree_store.specs.Long.{is_long_value};

use crate::faults::TreeFault;
use crate::kept::Kept;
use crate::opened::Opened;
use blob_store::{BlobStore, PutFault};
use fl_digest::{BlobRef, Hash, RefList};
use indexmap::IndexMap;
use lists::{Bytes, Copied};
use std::alloc::{AllocError, Global};
use std::marker::Model;
use tree_objects::{Object, ObjectMap};

/// The most bytes of a value that stands in the text of its directory.
const MOST_INLINE: usize = 64;

/// Whether an object is a value that is too long for the text of its directory.
fn is_long(object: &Object) -> bool
    ensures { result ≡ is_long_value (tree_of object.now) }
{
    match object {
        Object::Val(bytes) => MOST_INLINE < bytes.as_slice().len(),
        Object::Valref(_) => false,
        Object::Dir(_) => false,
        Object::Dirref(_) => false,
        Object::Symlink(_) => false,
    }
}

/// Blobs under their references, which contracts see as a list of pairs, the first added first.
#[derive(Drop)]
pub struct Fresh {
    blobs: IndexMap<BlobRef, Bytes>,
}

impl Model for Fresh {
    ghost use Rattle.std.specs.Prelude.{List, ℕ};
    ghost use Rattle.fl_digest.specs.declared.BlobRef.{BlobRef};

    ghost Value = { List (BlobRef × List ℕ) };

    ghost view = { λ f. f.blobs.entries };
}

impl Fresh {
    /// No blobs.
    pub fn new(alloc: Global) -> Fresh
        ensures { result ≡ [] }
    {
        Fresh {
            blobs: IndexMap::new(alloc),
        }
    }

    /// Adds bytes unless the store has them or they were added before, and gives their reference.
    fn add(&mut self, store: &BlobStore, hash: Hash, bytes: Bytes) -> Result<BlobRef, TreeFault>
        requires { AreNew store.now self.old }
        ensures reference { IfOk result (λ r. r ≡ reference_of hash bytes) }
        ensures apart { OnOk result (AreNew store.now self.new) }
        ensures held { OnOk result (blob_at (reference_of hash bytes) (store.now ++ self.new)
            ≡ Some bytes) }
        ensures only { AddsSome hash (bytes ∷ []) self.old self.new }
        ensures kept { OnErr result (self.new ≡ self.old) }
        ensures clash { IfErr result (λ fault. IsClashOf hash (store.now ++ self.old) bytes fault) }
    {
        let reference = BlobRef::of(hash, bytes.as_slice());
        match self.kept(store, &reference) {
            Some(kept) if *kept == bytes => Ok(reference),
            Some(kept) => Err(TreeFault::Clash {
                reference,
                kept: kept.copy()?,
                offered: bytes,
            }),
            None => self.insert(store, reference, bytes),
        }
    }

    /// The bytes under a reference, of the store or among these.
    fn kept<'a>(&'a self, store: &'a BlobStore, reference: &BlobRef) -> Option<&'a Bytes>
        ensures { option_copied result ≡ blob_at reference.now (store.now ++ self.now) }
    {
        match store.get(reference) {
            Some(kept) => Some(kept),
            None => self.blobs.get(reference),
        }
    }

    /// Adds bytes under a reference that is new.
    fn insert(
        &mut self,
        store: &BlobStore,
        reference: BlobRef,
        bytes: Bytes,
    ) -> Result<BlobRef, TreeFault>
        requires apart { AreNew store.now self.old }
        requires free { blob_at reference (store.now ++ self.old) ≡ None }
        ensures same { IfOk result (λ r. r ≡ reference) }
        ensures added { OnOk result (self.new ≡ self.old ++ (reference, bytes) ∷ []) }
        ensures apart { OnOk result (AreNew store.now self.new) }
        ensures kept { OnErr result (self.new ≡ self.old) }
        ensures memory { IfErr result (λ fault. fault ≡ TreeFault.NoMemory) }
    {
        match self.blobs.insert(reference, bytes) {
            Ok(_) => Ok(reference),
            Err(_) => Err(TreeFault::NoMemory),
        }
    }

    /// Adds a value, and gives the object that stands for it.
    fn long_value(
        &mut self,
        alloc: Global,
        store: &BlobStore,
        hash: Hash,
        bytes: &Bytes,
    ) -> Result<Object, TreeFault>
        requires { AreNew store.now self.old }
        ensures object { IfOk result (λ object.
            tree_of object ≡ valref (reference_of hash bytes.now ∷ [])) }
        ensures apart { AreNew store.now self.new }
        ensures held { OnOk result (blob_at (reference_of hash bytes.now) (store.now ++ self.new)
            ≡ Some bytes.now) }
        ensures only { AddsSome hash (bytes.now ∷ []) self.old self.new }
        ensures clash { IfErr result (λ fault.
            IsClashOf hash (store.now ++ self.new) bytes.now fault) }
    {
        let reference = self.add(store, hash, bytes.copy()?)?;
        let mut references = RefList::new(alloc);
        references.push(reference)?;
        Ok(Object::Valref(references))
    }

    /// Adds the value at a place of a directory, if it is long. It stands by its reference then.
    fn shorten_at(
        &mut self,
        alloc: Global,
        store: &BlobStore,
        hash: Hash,
        directory: &mut ObjectMap,
        index: usize,
    ) -> Result<(), TreeFault>
        requires apart { AreNew store.now self.old }
        requires within { index < length (names_of directory.old) }
        ensures shortened { OnOk result (directory.new ≡ shortened_at hash index directory.old) }
        ensures apart { AreNew store.now self.new }
        ensures held { OnOk result (HasLongAt hash directory.old index (store.now ++ self.new)) }
        ensures only { AddsSome hash (long_values_at index directory.old) self.old self.new }
        ensures clash { IfErr result (λ fault.
            ClashesIn hash (long_values_at index directory.old) (store.now ++ self.new) fault) }
    {
        directory.is_directory();
        let Object::Val(bytes) = &directory.objects()[index] else {
            return Ok(());
        };
        if bytes.as_slice().len() <= MOST_INLINE {
            return Ok(());
        }
        let object = self.long_value(alloc, store, hash, bytes)?;
        let name = directory.names()[index].copy()?;
        directory.put(&name, object)?;
        Ok(())
    }

    /// Adds the long values of a directory, which stand by their references then.
    fn shorten(
        &mut self,
        alloc: Global,
        store: &BlobStore,
        hash: Hash,
        directory: &mut ObjectMap,
    ) -> Result<(), TreeFault>
        requires { AreNew store.now self.old }
        ensures shortened { OnOk result (directory.new ≡ all_shortened hash directory.old) }
        ensures apart { AreNew store.now self.new }
        ensures held { OnOk result (HasAll hash (long_values directory.old)
            (store.now ++ self.new)) }
        ensures only { AddsSome hash (long_values directory.old) self.old self.new }
        ensures clash { IfErr result (λ fault.
            ClashesIn hash (long_values directory.old) (store.now ++ self.new) fault) }
    {
        for index in 0..directory.names().len() {
            if !is_long(&directory.objects()[index]) {
                continue;
            }
            self.shorten_at(alloc, store, hash, directory, index)?;
        }
        Ok(())
    }

    /// Adds the text of a directory and its long values, which stand by their references then, and
    /// gives its reference.
    fn directory(
        &mut self,
        alloc: Global,
        store: &BlobStore,
        hash: Hash,
        directory: &mut ObjectMap,
    ) -> Result<BlobRef, TreeFault>
        requires { AreNew store.now self.old }
        ensures reference { IfOk result (λ r.
            r ≡ reference_of hash (entries_text hash directory.old)) }
        ensures shortened { OnOk result (directory.new ≡ all_shortened hash directory.old) }
        ensures apart { OnOk result (AreNew store.now self.new) }
        ensures held { OnOk result (HasAll hash (strings_of hash directory.old)
            (store.now ++ self.new)) }
        ensures only { AddsSome hash (strings_of hash directory.old) self.old self.new }
        ensures clash { IfErr result (λ fault.
            ClashesIn hash (strings_of hash directory.old) (store.now ++ self.new) fault) }
    {
        self.shorten(alloc, store, hash, directory)?;
        let text = directory.print(alloc)?;
        self.add(store, hash, Bytes::from_vec(text))
    }

    /// Keeps a directory decoded whose text is there. Where memory is wanting, it isn't kept.
    fn keep(
        &self,
        alloc: Global,
        store: &BlobStore,
        reference: BlobRef,
        directory: ObjectMap,
        kept: &mut Kept,
    )
        requires { (text : List ℕ) → blob_at reference (store.now ++ self.now) ≡ Some text
            → Gives text (Ok (object.Dir directory)) }
    {
        let Some(text) = self.kept(store, &reference) else {
            return;
        };
        let Ok(text) = Bytes::of(alloc, text.as_slice()) else {
            return;
        };
        let _kept = kept.put(reference, text, directory);
    }

    /// Adds the blobs of open directories, the deepest first, and gives the root's reference. The
    /// directories stay decoded.
    pub fn write(
        &mut self,
        alloc: Global,
        store: &BlobStore,
        hash: Hash,
        mut opened: Opened,
        kept: &mut Kept,
    ) -> Result<BlobRef, TreeFault>
        requires { (self.old ≡ []) × ((st : Store) × Shows hash (table store.now) opened st) }
        ensures apart { OnOk result (AreNew store.now self.new) }
        ensures root { (st : Store) → Shows hash (table store.now) opened st
            → IfOk result (λ r. IsRootOf hash (table (store.now ++ self.new)) r st) }
        ensures only { (st : Store) → Shows hash (table store.now) opened st
            → OnOk result (AddsSome hash (blobs hash st) [] self.new) }
        ensures clash { (st : Store) → Shows hash (table store.now) opened st
            → IfErr result (λ fault. IsClashIn hash st (table store.now) fault) }
    {
        let mut root = None;
        while let Some((path, mut directory)) = opened.pop() {
            directory.is_directory();
            let reference = self.directory(alloc, store, hash, &mut directory)?;
            self.keep(alloc, store, reference, directory, kept);
            opened.put(path.as_slice(), Object::Dirref(reference))?;
            root = Some(reference);
        }
        Ok(root.unwrap())
    }

    /// Keeps the blobs behind those of the store. After want of memory it has the first of them.
    pub fn put_into(self, store: &mut BlobStore) -> Result<(), AllocError>
        requires { AreNew store.old self }
        ensures all { OnOk result (store.new ≡ store.old ++ self) }
        ensures some { OnErr result (IsPart store.old self store.new) }
    {
        for (reference, bytes) in self.blobs {
            match store.put(reference, bytes) {
                Ok(()) => {}
                Err(PutFault::NoMemory(_)) => return Err(AllocError),
                Err(PutFault::Clash(_)) => return Err(AllocError),
            }
        }
        Ok(())
    }
}
