//! The directories that a transaction has looked into.
ghost use Rattle.std.specs.Prelude.{◌≡◌, ◌<◌, ◌++◌, [], ◌∷◌, length, nat_le, is_none, Some, IfOk};
ghost use Rattle.std.specs.Prelude.{OnOk, IfSome, IfNone, IsSome, IsTrue, option_map};
ghost use Rattle.std.specs.Prelude.{option_copied, not};
ghost use Rattle.std.specs.FinMap.Entries as finite;
ghost use Rattle.std.specs.Ordering.{eq_by_cmp};
ghost use Rattle.std.specs.Str.{IsUtf8};
ghost use Rattle.fl_digest.specs.declared.Hash.{Hash};
ghost use Rattle.kvs_model.specs.History.{first_store};
ghost use Rattle.kvs_model.specs.Operation.{is_directory, most_names};
ghost use Rattle.kvs_model.specs.Store.{Path as Place, Store, Directory, root, node_at, names_in};
ghost use Rattle.kvs_model.specs.Store.{empty_store, is_within, path_cmp};
ghost use Rattle.tree_objects.specs.Level.{tree_of};
ghost use Rattle.tree_rules.specs.Held.{Table, IsRootOf, IsRootIn};
ghost use Rattle.tree_rules.specs.Names.{name_cmp};
ghost use Rattle.tree_rules.specs.Objects.{Entries, no_entries, listed, dir};
ghost use Rattle.tree_store.specs.Landing.{table};
ghost use Rattle.std.specs.List.{All};
ghost use Rattle.tree_store.specs.Shown.{opened_at, above, object_at, entries_at, IsDirectoryOf};
ghost use Rattle.tree_store.specs.Shown.{closed_at};
ghost use Rattle.tree_store.specs.Shown.{IsBefore, IsOfDirectory, Shows, IsShown, OpensAbove};
ghost use Rattle.tree_store.specs.Shown.{link_target, with_object, without_object, closed_within};
ghost use Rattle.tree_store.specs.Shown.{with_open};

use crate::kept::Kept;
use blob_store::BlobStore;
use fl_digest::BlobRef;
use kvs_model::MOST_NAMES;
use kvs_txn::Target;
use lists::{Bytes, Copied};
use std::alloc::{AllocError, Global};
use std::collections::BTreeMap;
use std::marker::Model;
use tree_objects::{Object, ObjectFault, ObjectMap, read};

/// Decoded directories, which contracts see as a list in the order of their paths. In the directory
/// above, an open one stands as one without names. What the transaction wrote stands as a whole
/// value, however long.
#[derive(Drop)]
pub struct Opened {
    directories: BTreeMap<Vec<Bytes>, ObjectMap>,
}

impl Model for Opened {
    ghost use Rattle.std.specs.Prelude.{List};
    ghost use Rattle.kvs_model.specs.Store.{Path};
    ghost use Rattle.tree_rules.specs.Objects.{Entries};
    ghost use Rattle.tree_store.specs.Shown.{keyed};

    ghost Value = { List (Path × Entries) };

    ghost use Rattle.tree_store.specs.Codes.{directories_code};

    ghost coded = { directories_code };

    ghost view = { λ o. keyed o.directories.entries };
}

/// Bytes are below 256.
pub fn are_bytes(bytes: &[u8])
    ensures { All (λ b. b < 256) bytes.now }
{
    let _length = bytes.len();
}

/// The components, in memory of their own.
pub fn copy_of(alloc: Global, path: &[Bytes]) -> Result<Vec<Bytes>, AllocError>
    ensures { IfOk result (λ twin. twin.items ≡ path.now) }
{
    let mut twin = Vec::new(alloc);
    for component in path {
        twin.push(component.copy()?)?;
    }
    Ok(twin)
}

/// Whether the place is the path or lies below it.
fn is_inside(path: &[Bytes], place: &[Bytes]) -> bool
    ensures { result ≡ is_within path.now place.now }
{
    place.starts_with(path)
}

/// The directory whose text has this reference, which is taken out of those that are kept or read.
fn directory_of(
    alloc: Global,
    store: &BlobStore,
    kept: &mut Kept,
    reference: &BlobRef,
) -> Result<ObjectMap, AllocError>
    requires { IsOfDirectory (table store.now) reference.now }
    ensures { (hash : Hash) (st : Store) (path : Place)
        → IsDirectoryOf hash (table store.now) st path reference.now
        → IfOk result (λ es. es ≡ entries_at hash st path) }
{
    let Some(text) = store.get(reference) else {
        unreachable!()
    };
    if let Some(directory) = kept.take(reference, text) {
        return Ok(directory);
    }
    match read(alloc, text.as_slice()) {
        Ok(object) => Ok(directory_in(object)),
        Err(fault) => Err(want_of_memory(fault)),
    }
}

/// The directory that an object is.
fn directory_in(object: Object) -> ObjectMap
    requires { (es : Entries) × (tree_of object ≡ dir es) }
    ensures { tree_of object ≡ dir result }
{
    match object {
        Object::Dir(directory) => directory,
        _ => unreachable!(),
    }
}

/// A fault that is want of memory.
fn want_of_memory(fault: ObjectFault) -> AllocError
    requires { fault ≡ ObjectFault.NoMemory }
{
    match fault {
        ObjectFault::NoMemory => AllocError,
        _ => unreachable!(),
    }
}

/// Takes the object under a name out of a directory.
fn take_out(directory: &mut ObjectMap, name: &Bytes)
    ensures { listed directory.new
        ≡ finite.where_key name_cmp (λ other. not (eq_by_cmp name_cmp name.now other))
        (listed directory.old) }
{
    let _gone = directory.remove(name);
}

impl Opened {
    /// The root alone, without names.
    pub fn new(alloc: Global) -> Result<Opened, AllocError>
        ensures { IfOk result (λ opened. opened ≡ (root, no_entries) ∷ []) }
    {
        let mut directories = BTreeMap::new(alloc);
        directories.insert(Vec::new(alloc), ObjectMap::new(alloc))?;
        Ok(Opened { directories })
    }

    /// The root of a store.
    pub fn read(
        alloc: Global,
        store: &BlobStore,
        kept: &mut Kept,
        reference: &BlobRef,
    ) -> Result<Opened, AllocError>
        requires { (hash : Hash) × IsRootIn hash (table store.now) reference.now }
        ensures { (hash : Hash) (st : Store) → IsRootOf hash (table store.now) reference.now st
            → IfOk result (λ opened. opened ≡ (root, entries_at hash st root) ∷ []) }
    {
        let directory = directory_of(alloc, store, kept, reference)?;
        let mut directories = BTreeMap::new(alloc);
        directories.insert(Vec::new(alloc), directory)?;
        Ok(Opened { directories })
    }

    /// The object that stands at a path below the root, if the directory above is open.
    pub fn at(&self, path: &[Bytes]) -> Option<&Object>
        ensures { option_map (λ o. tree_of o.now) result ≡ object_at self.now path.now }
    {
        let (name, above) = path.split_last()?;
        self.directories.get(above)?.get(name)
    }

    /// Whether a directory stands at the path.
    pub fn is_directory(&self, path: &[Bytes]) -> bool
        ensures { (hash : Hash) (held : Table) (st : Store) → Shows hash held self.now st
            → OpensAbove self.now st path.now
            → result ≡ is_directory (node_at st path.now) }
    {
        if path.is_empty() {
            return true;
        }
        match self.at(path) {
            Some(Object::Dir(_)) => true,
            Some(Object::Dirref(_)) => true,
            Some(Object::Val(_)) => false,
            Some(Object::Valref(_)) => false,
            Some(Object::Symlink(_)) => false,
            None => false,
        }
    }

    /// The target of the link at the path, if one stands there.
    pub fn link(&self, path: &[Bytes]) -> Option<&Target>
        ensures { (hash : Hash) (held : Table) (st : Store) → Shows hash held self.now st
            → OpensAbove self.now st path.now
            → option_copied result ≡ link_target (node_at st path.now) }
    {
        match self.at(path) {
            Some(Object::Symlink(target)) => Some(target),
            Some(Object::Val(_)) => None,
            Some(Object::Valref(_)) => None,
            Some(Object::Dir(_)) => None,
            Some(Object::Dirref(_)) => None,
            None => None,
        }
    }

    /// Whether nothing stands at a path below the root.
    pub fn is_free(&self, path: &[Bytes]) -> bool
        requires { 0 < length path.now }
        ensures { (hash : Hash) (held : Table) (st : Store) → Shows hash held self.now st
            → OpensAbove self.now st path.now
            → result ≡ is_none (node_at st path.now) }
    {
        self.at(path).is_none()
    }

    /// Whether the directory at the path has as many names as it may have.
    pub fn is_full(&self, path: &[Bytes]) -> bool
        ensures { (hash : Hash) (held : Table) (st : Store) → Shows hash held self.now st
            → (node_at st path.now ≡ Some Directory → IsSome (opened_at self.now path.now))
            → result ≡ nat_le most_names (length (names_in st path.now)) }
    {
        match self.directories.get(path) {
            Some(directory) => {
                directory.is_directory();
                MOST_NAMES <= directory.names().len()
            }
            None => false,
        }
    }

    /// The reference of a directory that stands closed at a path below the root.
    fn closed(&self, path: &[Bytes]) -> Option<&BlobRef>
        ensures { option_copied result ≡ closed_at self.now path.now }
    {
        match self.at(path) {
            Some(Object::Dirref(reference)) => Some(reference),
            Some(Object::Val(_)) => None,
            Some(Object::Valref(_)) => None,
            Some(Object::Dir(_)) => None,
            Some(Object::Symlink(_)) => None,
            None => None,
        }
    }

    /// Whether a directory stands at the path, which is open then. The one above is open.
    pub fn enter(
        &mut self,
        alloc: Global,
        store: &BlobStore,
        kept: &mut Kept,
        path: &[Bytes],
    ) -> Result<bool, AllocError>
        requires { IsShown (table store.now) self.old }
        ensures is { (hash : Hash) (st : Store) → Shows hash (table store.now) self.old st
            → OpensAbove self.old st path.now
            → IfOk result (λ is. is ≡ is_directory (node_at st path.now)) }
        ensures shown { (hash : Hash) (st : Store) → Shows hash (table store.now) self.old st
            → OnOk result (Shows hash (table store.now) self.new st) }
        ensures opens { IfOk result (λ is. IsTrue is → IsSome (opened_at self.new path.now)) }
        ensures kept { OnOk result ((q : Place) → IsSome (opened_at self.old q)
            → IsSome (opened_at self.new q)) }
    {
        if self.directories.contains_key(path) {
            return Ok(true);
        }
        let Some(reference) = self.closed(path) else {
            return Ok(false);
        };
        let directory = directory_of(alloc, store, kept, reference)?;
        self.keep_open(alloc, path, directory)?;
        Ok(true)
    }

    /// Puts an open directory at a path where none is open.
    fn keep_open(
        &mut self,
        alloc: Global,
        path: &[Bytes],
        directory: ObjectMap,
    ) -> Result<(), AllocError>
        requires { IfSome (above path.now) (λ at. IsUtf8 at.1) }
        ensures { OnOk result (self.new ≡ with_open self.old path.now directory) }
    {
        self.put(path, Object::Dir(ObjectMap::new(alloc)))?;
        self.directories.insert(copy_of(alloc, path)?, directory)?;
        Ok(())
    }

    /// Puts a directory without names at a path where no directory stands.
    pub fn make(&mut self, alloc: Global, path: &[Bytes]) -> Result<(), AllocError>
        requires { IfSome (above path.now) (λ at. IsUtf8 at.1) }
        ensures { OnOk result (self.new ≡ with_open self.old path.now no_entries) }
    {
        self.keep_open(alloc, path, ObjectMap::new(alloc))
    }

    /// Puts an object at a path below the root. The directory above is open.
    pub fn put(&mut self, path: &[Bytes], object: Object) -> Result<(), AllocError>
        requires { IfSome (above path.now) (λ at. IsUtf8 at.1) }
        ensures { OnOk result (self.new ≡ with_object self.old path.now (tree_of object)) }
    {
        let Some((name, above)) = path.split_last() else {
            return Ok(());
        };
        let Some(directory) = self.directories.get_mut(above) else {
            return Ok(());
        };
        directory.put(name, object)
    }

    /// Takes away what stands at a path below the root, and all below it.
    pub fn cut(&mut self, path: &[Bytes])
        ensures { self.new ≡ closed_within (without_object self.old path.now) path.now }
    {
        self.take(path);
        self.close(path);
    }

    /// Takes the object at a path away. The directory above is open.
    fn take(&mut self, path: &[Bytes])
        ensures { self.new ≡ without_object self.old path.now }
    {
        let Some((name, above)) = path.split_last() else {
            return;
        };
        let Some(directory) = self.directories.get_mut(above) else {
            return;
        };
        take_out(directory, name);
    }

    /// Forgets the open directories at and below a path.
    pub fn close(&mut self, path: &[Bytes])
        ensures { self.new ≡ closed_within self.old path.now }
    {
        self.directories
            .retain(|place, _| !is_inside(path, place.as_slice()));
    }

    /// Puts the directories of jobs and resources into the root, with the grant's text.
    pub fn grant(&mut self, alloc: Global, grant: &Bytes) -> Result<(), AllocError>
        ensures { (hash : Hash) (held : Table) → Shows hash held self.old empty_store
            → OnOk result (Shows hash held self.new (first_store grant.now)) }
    {
        are_bytes(grant.as_slice());
        let job = [Bytes::of(alloc, b"job")?];
        self.make(alloc, &job)?;
        let text = [Bytes::of(alloc, b"resource")?, Bytes::of(alloc, b"R")?];
        self.make(alloc, &text[..1])?;
        self.put(&text, Object::Val(grant.copy()?))
    }

    /// Takes the last open directory out, before which all others stand.
    pub fn pop(&mut self) -> Option<(Vec<Bytes>, ObjectMap)>
        ensures last { IfSome result (λ last. (place : Place) → IsSome (opened_at self.new place)
            → IsBefore place last.0.items) }
        ensures order { IsTrue (finite.is_sorted path_cmp self.new) }
        ensures some { IfSome result (λ last. self.old ≡ self.new ++ (last.0.items, last.1) ∷ []) }
        ensures none { IfNone result ((self.old ≡ []) × (self.new ≡ [])) }
    {
        self.directories.pop_last()
    }
}
