//! Objects and directories of objects.
ghost use Rattle.std.specs.Prelude.{◌≡◌, ◌<◌, ◌≤◌, ◌++◌, ◌∷◌, [], length, not, option_map};
ghost use Rattle.std.specs.Prelude.{vec_len, vec_capacity, IsTrue, IfOk, OnOk, OnErr};
ghost use Rattle.std.specs.List.{insert};
ghost use Rattle.std.specs.Ordering.{eq_by_cmp};
ghost use Rattle.std.specs.FinMap.Entries as finite;
ghost use Rattle.std.specs.Str.{IsUtf8};
ghost use Rattle.tree_rules.specs.Objects.{no_entries, listed};
ghost use Rattle.tree_objects.specs.Directories.{names_of, with_last, IsDirectory};
ghost use Rattle.tree_rules.specs.Names.{name_cmp};
ghost use Rattle.tree_objects.specs.Level.{tree_of, paired};
ghost use Rattle.tree_rules.specs.Objects.{dir, tree_text};

use crate::pieces::directory_text;
use fl_digest::{BlobRef, RefList};
use kvs_txn::Target;
use lists::{Bytes, Copied};
use std::alloc::{AllocError, Global};
use std::marker::Model;

/// An object: a value or references to its bytes, a directory or the reference of its text, or a
/// link.
#[cycle(object)]
#[derive(Drop)]
pub enum Object {
    Val(Bytes),
    Valref(RefList),
    Dir(ObjectMap),
    Dirref(BlobRef),
    Symlink(Target),
}

/// Objects by their names, which contracts see as entries in the byte order of the names. The text
/// of an entry is kept once it is printed, and is empty before.
#[cycle(object)]
#[derive(Drop)]
pub struct ObjectMap {
    names: Vec<Bytes>,
    objects: Vec<Object>,
    texts: Vec<Bytes>,
}

impl Model for ObjectMap {
    ghost use Rattle.std.specs.Prelude.{◌≡◌, length};
    ghost use Rattle.tree_rules.specs.Objects.{Entries};
    ghost use Rattle.tree_objects.specs.Codes.{entries_code};

    ghost Value = { Entries };

    ghost coded = { entries_code };

    ghost use Rattle.tree_objects.specs.Directories.{entries_size, IsDirectory};
    ghost use Rattle.tree_objects.specs.Level.{paired};
    ghost use Rattle.tree_objects.specs.Pieces.{AreTexts};

    ghost view = { λ m. paired m.names.items m.objects.items };

    ghost invariant = { λ m. (length m.names.items ≡ length m.objects.items)
        × IsDirectory (paired m.names.items m.objects.items)
        × (length m.texts.items ≡ length m.names.items)
        × AreTexts m.names.items m.objects.items m.texts.items };

    ghost size = { entries_size };

    ghost use Rattle.std.proofs.Common.{arith};
    ghost use Rattle.tree_objects.specs.Falls.{falls};

    ghost size_decreases = { λ m h. Prim.omega (arith, falls m.names.items m.objects.items h.0) };
}

/// Puts a text at a place of texts that have room for it.
fn insert_text(texts: &mut Vec<Bytes>, place: usize, text: Bytes)
    requires within { place ≤ vec_len texts.old }
    requires room { vec_len texts.old < vec_capacity texts.old }
    ensures { texts.new.items ≡ insert texts.old.items place text }
{
    if texts.insert(place, text).is_err() {
        unreachable!()
    }
}

impl ObjectMap {
    /// The directory without names.
    pub fn new(alloc: Global) -> ObjectMap
        ensures { result ≡ no_entries }
    {
        ObjectMap {
            names: Vec::new(alloc),
            objects: Vec::new(alloc),
            texts: Vec::new(alloc),
        }
    }

    /// The object under a name. It takes no memory.
    pub fn get(&self, name: &Bytes) -> Option<&Object>
        ensures { option_map (λ o. tree_of o.now) result
            ≡ finite.find name_cmp name.now (listed self.now) }
    {
        match self.names.binary_search(name) {
            Ok(place) => Some(&self.objects[place]),
            Err(_) => None,
        }
    }

    /// Puts an object under a name, in the place of one that is there.
    pub fn put(&mut self, name: &Bytes, object: Object) -> Result<(), AllocError>
        requires { IsUtf8 name.now }
        ensures put { OnOk result (listed self.new
            ≡ finite.put name_cmp name.now (tree_of object) (listed self.old)) }
        ensures kept { OnErr result (self.new ≡ self.old) }
    {
        let text = Bytes::new(*self.names.allocator());
        match self.names.binary_search(name) {
            Ok(place) => {
                self.texts[place] = text;
                self.objects[place] = object;
                Ok(())
            }
            Err(place) => {
                let name = name.copy()?;
                self.objects.reserve(1)?;
                self.texts.reserve(1)?;
                self.names.insert(place, name)?;
                if self.objects.insert(place, object).is_err() {
                    unreachable!()
                }
                insert_text(&mut self.texts, place, text);
                Ok(())
            }
        }
    }

    /// Takes the object under a name out, if there is one. It takes no memory.
    pub fn remove(&mut self, name: &Bytes) -> Option<Object>
        ensures taken { option_map tree_of result
            ≡ finite.find name_cmp name.now (listed self.old) }
        ensures rest { listed self.new
            ≡ finite.where_key name_cmp (λ other. not (eq_by_cmp name_cmp name.now other))
            (listed self.old) }
    {
        match self.names.binary_search(name) {
            Ok(place) => {
                let _name = self.names.remove(place);
                let _text = self.texts.remove(place);
                Some(self.objects.remove(place))
            }
            Err(_) => None,
        }
    }

    /// Adds an object under a name behind the others.
    pub(crate) fn push(&mut self, name: Bytes, object: Object) -> Result<(), AllocError>
        requires sorted { IsTrue
            (finite.is_sorted name_cmp (listed self.old ++ (name, tree_of object) ∷ [])) }
        requires text { IsUtf8 name }
        ensures added { OnOk result (self.new ≡ with_last self.old name (tree_of object)) }
        ensures kept { OnErr result (self.new ≡ self.old) }
    {
        let text = Bytes::new(*self.names.allocator());
        self.objects.reserve(1)?;
        self.texts.reserve(1)?;
        self.names.push(name)?;
        self.objects.push_reserved(object);
        self.texts.push_reserved(text);
        Ok(())
    }

    /// The names in byte order.
    pub fn names(&self) -> &[Bytes]
        ensures { result.now ≡ names_of self.now }
    {
        self.names.as_slice()
    }

    /// The objects in the byte order of their names.
    pub fn objects(&self) -> &[Object]
        ensures objects { paired (names_of self.now) result.now ≡ self.now }
        ensures length { length result.now ≡ length (names_of self.now) }
    {
        self.objects.as_slice()
    }

    /// The stored text of the directory. The texts of its entries are kept, so that those of the
    /// entries that stay are copied the next time.
    pub fn print(&mut self, alloc: Global) -> Result<Vec<u8>, AllocError>
        ensures canonical { IfOk result (λ text. text.items ≡ tree_text (dir self.old)) }
        ensures kept { self.new ≡ self.old }
    {
        directory_text(
            alloc,
            self.names.as_slice(),
            self.objects.as_slice(),
            self.texts.as_mut_slice(),
        )
    }

    /// The names rise, and are texts.
    pub fn is_directory(&self)
        ensures { IsDirectory self.now }
    {
        let _names = &self.names;
    }
}

/// An equal object.
#[cycle(copied)]
fn copy_object(object: &Object) -> Result<Object, AllocError>
    ensures { IfOk result (λ twin. twin ≡ object.now) }
{
    Ok(match object {
        Object::Val(bytes) => Object::Val(bytes.copy()?),
        Object::Valref(references) => Object::Valref(references.copy()?),
        Object::Dir(map) => Object::Dir(copy_map(map)?),
        Object::Dirref(reference) => Object::Dirref(*reference),
        Object::Symlink(target) => Object::Symlink(target.copy()?),
    })
}

/// An equal directory.
#[cycle(copied)]
fn copy_map(map: &ObjectMap) -> Result<ObjectMap, AllocError>
    ensures { IfOk result (λ twin. twin ≡ map.now) }
{
    let alloc = *map.names.allocator();
    let names = copy_names(alloc, map.names.as_slice())?;
    let texts = copy_names(alloc, map.texts.as_slice())?;
    let objects = map.objects.as_slice();
    let mut twins = Vec::new(alloc);
    for index in 0..objects.len() {
        twins.push(copy_object(&objects[index])?)?;
    }
    Ok(ObjectMap {
        names,
        objects: twins,
        texts,
    })
}

/// Equal names or texts.
fn copy_names(alloc: Global, names: &[Bytes]) -> Result<Vec<Bytes>, AllocError>
    ensures { IfOk result (λ twins. twins.items ≡ names.now) }
{
    let mut twins = Vec::new(alloc);
    for name in names {
        twins.push(name.copy()?)?;
    }
    Ok(twins)
}

impl Copied for Object {
    fn copy(&self) -> Result<Object, AllocError> {
        copy_object(self)
    }
}

impl Copied for ObjectMap {
    fn copy(&self) -> Result<ObjectMap, AllocError> {
        copy_map(self)
    }
}
