//! What a query finds at the end of a path.
ghost use Rattle.std.specs.Prelude.{◌≡◌, ◌∷◌, [], ℕ, List, Some, true, map, IfOk};
ghost use Rattle.fl_digest.specs.declared.BlobRef.{BlobRef as Reference};
ghost use Rattle.fl_digest.specs.declared.Hash.{Hash};
ghost use Rattle.fl_digest.specs.Reference.{reference_of};
ghost use Rattle.kvs_model.specs.Store.{Path as Place, Node, Value, Directory, Store, node_at, names_in};
ghost use Rattle.kvs_model.specs.Walk.{found_at, found_in};
ghost use Rattle.tree_rules.specs.OneStore.{own_found_needs};
ghost use Rattle.tree_rules.specs.Objects.{listed};
ghost use Rattle.tree_rules.specs.Texts.{is_long, directory_reference, stored_at};
ghost use Rattle.tree_objects.specs.Level.{tree_of};
ghost use Rattle.tree_look.specs.Looks.{EndTells, Reads};
ghost use Rattle.tree_look.specs.Legs.{kind_shown, shown, EndsAt};

use crate::Advance;
use crate::texts::{Texts, directory_at};
use fl_digest::BlobRef;
use kvs_txn::{Found, Kind, Listed, NameList, Query};
use lists::{Copied, ListOf};
use std::alloc::{AllocError, Global};
use tree_objects::{Object, ObjectMap};

/// What an object is, as a listing shows it.
fn kind_of(object: &Object) -> Kind
    ensures { result ≡ kind_shown (tree_of object.now) }
{
    match object {
        Object::Val(_) => Kind::Value,
        Object::Valref(_) => Kind::Value,
        Object::Dir(_) => Kind::Dir,
        Object::Dirref(_) => Kind::Dir,
        Object::Symlink(_) => Kind::Link,
    }
}

/// The names of a directory, in byte order.
fn names_of(alloc: Global, directory: &ObjectMap) -> Result<NameList, AllocError>
    ensures { IfOk result (λ names. names ≡ map shown (listed directory.now)) }
{
    let names = directory.names();
    let objects = directory.objects();
    let mut list = ListOf::new(alloc);
    for index in 0..names.len() {
        let name = names[index].copy()?;
        let kind = kind_of(&objects[index]);
        list.push(Listed { name, kind })?;
    }
    Ok(list)
}

/// What a query for names finds at a directory.
fn names_at<T: Texts>(
    alloc: Global,
    texts: &T,
    reference: &BlobRef,
    passed: &mut Vec<BlobRef>,
) -> Result<Advance, AllocError>
    ensures { (hash : Hash) (st : Store) (root : Reference) (place : Place)
        → Reads hash st root (T.seen texts.now)
        → node_at st place ≡ Some Directory
        → reference.now ≡ directory_reference hash st place
        → IfOk result (EndTells (Found.Names (names_in st place))
        (reference.now ∷ []) (T.seen texts.now) passed.old.items passed.new.items) }
{
    let found = directory_at(alloc, texts, reference)?;
    let Some(directory) = found else {
        return Ok(Advance::Needs(*reference));
    };
    passed.push(*reference)?;
    let names = names_of(alloc, &directory)?;
    Ok(Advance::Done(Found::Names(names)))
}

/// What a query for names finds where this object stands.
fn names<T: Texts>(
    alloc: Global,
    texts: &T,
    object: Object,
    passed: &mut Vec<BlobRef>,
) -> Result<Advance, AllocError>
    ensures { (hash : Hash) (st : Store) (root : Reference) (place : Place) (node : Node)
        → Reads hash st root (T.seen texts.now)
        → node_at st place ≡ Some node
        → Some (tree_of object) ≡ stored_at hash st place
        → let what = found_at st Query.List place node in
        IfOk result (EndTells what
        (own_found_needs hash st (Some place) what) (T.seen texts.now)
        passed.old.items passed.new.items) }
{
    match object {
        Object::Dirref(reference) => names_at(alloc, texts, &reference, passed),
        Object::Dir(directory) => {
            let names = names_of(alloc, &directory)?;
            Ok(Advance::Done(Found::Names(names)))
        }
        Object::Val(_) => Ok(Advance::Done(Found::NotDir)),
        Object::Valref(_) => Ok(Advance::Done(Found::NotDir)),
        Object::Symlink(_) => Ok(Advance::Done(Found::Loop)),
    }
}

/// What a query for a value finds at a long one. Its bytes stand under one reference.
fn long_value<T: Texts>(
    texts: &T,
    references: &[BlobRef],
    passed: &mut Vec<BlobRef>,
) -> Result<Advance, AllocError>
    ensures { (hash : Hash) (st : Store) (root : Reference) (place : Place) (bytes : List ℕ)
        → Reads hash st root (T.seen texts.now)
        → node_at st place ≡ Some (Value bytes)
        → is_long bytes ≡ true
        → references.now ≡ reference_of hash bytes ∷ []
        → IfOk result
        (EndTells (Found.Value bytes) references.now (T.seen texts.now)
        passed.old.items passed.new.items) }
{
    let Some(first) = references.first() else {
        return Ok(Advance::Done(Found::Nothing));
    };
    let Some(bytes) = texts.text(first) else {
        return Ok(Advance::Needs(*first));
    };
    let bytes = bytes.copy()?;
    passed.push(*first)?;
    Ok(Advance::Done(Found::Value(bytes)))
}

/// What a query for a value finds where this object stands.
fn value<T: Texts>(
    texts: &T,
    object: Object,
    passed: &mut Vec<BlobRef>,
) -> Result<Advance, AllocError>
    ensures { (hash : Hash) (st : Store) (root : Reference) (place : Place) (node : Node)
        → Reads hash st root (T.seen texts.now)
        → node_at st place ≡ Some node
        → Some (tree_of object) ≡ stored_at hash st place
        → let what = found_at st Query.Get place node in
        IfOk result (EndTells what
        (own_found_needs hash st (Some place) what) (T.seen texts.now)
        passed.old.items passed.new.items) }
{
    match object {
        Object::Val(bytes) => Ok(Advance::Done(Found::Value(bytes))),
        Object::Valref(references) => long_value(texts, references.as_slice(), passed),
        Object::Dir(_) => Ok(Advance::Done(Found::IsDir)),
        Object::Dirref(_) => Ok(Advance::Done(Found::IsDir)),
        Object::Symlink(_) => Ok(Advance::Done(Found::Loop)),
    }
}

/// What a query for a link finds where this object stands.
fn target(object: Object) -> Found
    ensures { (hash : Hash) (st : Store) (place : Place) (node : Node)
        → node_at st place ≡ Some node
        → Some (tree_of object) ≡ stored_at hash st place
        → result ≡ found_at st Query.Link place node }
{
    match object {
        Object::Symlink(target) => Found::Target(target),
        Object::Val(_) => Found::NotLink,
        Object::Valref(_) => Found::NotLink,
        Object::Dir(_) => Found::NotLink,
        Object::Dirref(_) => Found::NotLink,
    }
}

/// What a query finds where this object stands in the last place.
fn last<T: Texts>(
    alloc: Global,
    texts: &T,
    asked: Query,
    object: Object,
    passed: &mut Vec<BlobRef>,
) -> Result<Advance, AllocError>
    ensures { (hash : Hash) (st : Store) (root : Reference) (place : Place) (node : Node)
        → Reads hash st root (T.seen texts.now)
        → node_at st place ≡ Some node
        → Some (tree_of object) ≡ stored_at hash st place
        → let what = found_at st asked place node in
        IfOk result (EndTells what
        (own_found_needs hash st (Some place) what) (T.seen texts.now)
        passed.old.items passed.new.items) }
{
    match asked {
        Query::Get => value(texts, object, passed),
        Query::List => names(alloc, texts, object, passed),
        Query::Link => Ok(Advance::Done(target(object))),
    }
}

/// What a query finds where its walk ends, at this object or at none, with components left or
/// without.
pub fn found<T: Texts>(
    alloc: Global,
    texts: &T,
    asked: Query,
    object: Option<Object>,
    whole: bool,
    passed: &mut Vec<BlobRef>,
) -> Result<Advance, AllocError>
    ensures { (hash : Hash) (st : Store) (root : Reference) (path : Place)
        → Reads hash st root (T.seen texts.now)
        → EndsAt hash st path object whole
        → let what = found_in st asked path in
        IfOk result (EndTells what
        (own_found_needs hash st (Some path) what) (T.seen texts.now)
        passed.old.items passed.new.items) }
{
    let Some(object) = object else {
        return Ok(Advance::Done(Found::Nothing));
    };
    if !whole {
        return Ok(Advance::Done(Found::NotDir));
    }
    last(alloc, texts, asked, object, passed)
}
