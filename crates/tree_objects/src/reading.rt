//! Objects from their texts.
ghost use Rattle.std.specs.Prelude.{◌≡◌, codes};
ghost use Rattle.serde_json.specs.Data.{Data};
ghost use Rattle.serde_json.specs.View.{view, items_view, members_view};
ghost use Rattle.tree_objects.specs.Reading.{is_version_1, IsObject, TellsReference, TellReferences, TellsPath, TellsSpace, TellsTarget, TellsBytes, TellsList, TellEntries, GivesObject, GivesPart, Gives, TellsKind, NamesKind, IsOnly, AreSome, inner_fault};
ghost use Rattle.fl_json.specs.Valid.{IsValid, HaveValid};

use crate::faults::ObjectFault;
use crate::object::{Object, ObjectMap};
use crate::scanning::at_once;
use base64::DecodeAllocError;
use base64::engine::general_purpose::STANDARD;
use fl_digest::{BlobRef, RefList};
use fl_json::{JsonFault, Value};
use kvs_txn::{Path, PathFault, SpaceName, Target};
use lists::Bytes;
use serde_json::Map;
use std::alloc::Global;

/// The types of objects.
#[derive(Clone, Copy, Debug, PartialEq, Eq)]
pub enum Kind {
    Val,
    Valref,
    Dir,
    Dirref,
    Symlink,
}

/// Whether the version is 1.
fn has_version_1(value: &Value) -> bool
    ensures { result ≡ is_version_1 (view value.now) }
{
    match value.get("ver") {
        Some(found) => found.as_u64() == Some(1),
        None => false,
    }
}

/// The type of a name.
fn kind_named(text: &str) -> Option<Kind>
    ensures { NamesKind text.now result }
{
    if text == "val" {
        Some(Kind::Val)
    } else if text == "valref" {
        Some(Kind::Valref)
    } else if text == "dir" {
        Some(Kind::Dir)
    } else if text == "dirref" {
        Some(Kind::Dirref)
    } else if text == "symlink" {
        Some(Kind::Symlink)
    } else {
        None
    }
}

/// The type of an object.
fn kind_in(value: &Value) -> Option<Kind>
    ensures { TellsKind (view value.now) result }
{
    let Some(found) = value.get("type") else {
        return None;
    };
    match found.as_str() {
        Some(text) => kind_named(text),
        None => None,
    }
}

/// The bytes that a text in base64 writes.
fn bytes_in(alloc: Global, content: &Value) -> Result<Bytes, ObjectFault>
    ensures { GivesPart (TellsBytes (view content.now)) result }
{
    let Some(text) = content.as_str() else {
        return Err(ObjectFault::BadData);
    };
    match STANDARD.decode(alloc, text.as_bytes()) {
        Ok(bytes) => Ok(Bytes::from_vec(bytes)),
        Err(DecodeAllocError::OutOfMemory) => Err(ObjectFault::NoMemory),
        Err(DecodeAllocError::DecodeError(_)) => Err(ObjectFault::BadData),
    }
}

/// The reference that a text spells.
fn reference_in(value: &Value) -> Result<BlobRef, ObjectFault>
    ensures { GivesPart (TellsReference (view value.now)) result }
{
    let Some(text) = value.as_str() else {
        return Err(ObjectFault::BadData);
    };
    match BlobRef::read(text.as_bytes()) {
        Ok(reference) => Ok(reference),
        Err(_) => Err(ObjectFault::BadData),
    }
}

/// The references that texts spell.
fn references_told(alloc: Global, items: &[Value]) -> Result<RefList, ObjectFault>
    ensures { GivesPart (TellReferences (items_view items.now)) result }
{
    let mut references = RefList::new(alloc);
    for item in items {
        match reference_in(item) {
            Ok(reference) => references.push(reference)?,
            Err(fault) => return Err(fault),
        }
    }
    Ok(references)
}

/// References of which there is one at least.
fn some_of(references: RefList) -> Result<RefList, ObjectFault>
    ensures { AreSome references result }
{
    if references.as_slice().is_empty() {
        return Err(ObjectFault::BadData);
    }
    Ok(references)
}

/// The references of a list, of which there is one at least.
fn references_in(alloc: Global, content: &Value) -> Result<RefList, ObjectFault>
    ensures { GivesPart (TellsList (view content.now)) result }
{
    let Some(items) = content.as_array() else {
        return Err(ObjectFault::BadData);
    };
    match references_told(alloc, items.as_slice()) {
        Ok(references) => some_of(references),
        Err(fault) => Err(fault),
    }
}

/// The namespace that a link names, if it names one.
fn namespace_in(alloc: Global, content: &Value) -> Result<Option<SpaceName>, ObjectFault>
    ensures { GivesPart (TellsSpace (view content.now)) result }
{
    let Some(found) = content.get("namespace") else {
        return Ok(None);
    };
    let Some(text) = found.as_str() else {
        return Err(ObjectFault::BadData);
    };
    match SpaceName::of(Bytes::of(alloc, text.as_bytes())?) {
        Some(name) => Ok(Some(name)),
        None => Err(ObjectFault::BadData),
    }
}

/// The path of a link.
fn path_in(alloc: Global, content: &Value) -> Result<Path, ObjectFault>
    ensures { GivesPart (TellsPath (view content.now)) result }
{
    let Some(target) = content.get("target") else {
        return Err(ObjectFault::BadData);
    };
    let Some(text) = target.as_str() else {
        return Err(ObjectFault::BadData);
    };
    match Path::read(alloc, text) {
        Ok(path) => Ok(path),
        Err(PathFault::NoMemory) => Err(ObjectFault::NoMemory),
        Err(_) => Err(ObjectFault::BadData),
    }
}

/// Where a link leads.
fn target_in(alloc: Global, content: &Value) -> Result<Target, ObjectFault>
    ensures { GivesPart (TellsTarget (view content.now)) result }
{
    let namespace = match namespace_in(alloc, content) {
        Ok(namespace) => namespace,
        Err(fault) => return Err(fault),
    };
    match path_in(alloc, content) {
        Ok(path) => Ok(Target { path, namespace }),
        Err(fault) => Err(fault),
    }
}

/// The value with these data.
fn val_in(alloc: Global, content: &Value) -> Result<Object, ObjectFault>
    ensures { (d : Data) → IsObject (codes "val") (view content.now) d → GivesObject d result }
{
    match bytes_in(alloc, content) {
        Ok(bytes) => Ok(Object::Val(bytes)),
        Err(fault) => Err(fault),
    }
}

/// The references with these data.
fn valref_in(alloc: Global, content: &Value) -> Result<Object, ObjectFault>
    ensures { (d : Data) → IsObject (codes "valref") (view content.now) d → GivesObject d result }
{
    match references_in(alloc, content) {
        Ok(references) => Ok(Object::Valref(references)),
        Err(fault) => Err(fault),
    }
}

/// The reference of a list of exactly one.
fn only(references: &[BlobRef]) -> Option<BlobRef>
    ensures { IsOnly references.now result }
{
    if references.len() == 1 {
        Some(references[0])
    } else {
        None
    }
}

/// The directory's reference with these data.
fn dirref_in(alloc: Global, content: &Value) -> Result<Object, ObjectFault>
    ensures { (d : Data) → IsObject (codes "dirref") (view content.now) d → GivesObject d result }
{
    match references_in(alloc, content) {
        Ok(references) => match only(references.as_slice()) {
            Some(reference) => Ok(Object::Dirref(reference)),
            None => Err(ObjectFault::BadData),
        },
        Err(fault) => Err(fault),
    }
}

/// The link with these data.
fn symlink_in(alloc: Global, content: &Value) -> Result<Object, ObjectFault>
    ensures { (d : Data) → IsObject (codes "symlink") (view content.now) d → GivesObject d result }
{
    match target_in(alloc, content) {
        Ok(target) => Ok(Object::Symlink(target)),
        Err(fault) => Err(fault),
    }
}

/// The object that a value tells.
#[cycle(object)]
fn object_in(alloc: Global, value: &Value) -> Result<Object, ObjectFault>
    requires { IsValid (view value.now) }
    ensures { GivesObject (view value.now) result }
{
    if !has_version_1(value) {
        return Err(ObjectFault::BadVersion);
    }
    let Some(kind) = kind_in(value) else {
        return Err(ObjectFault::BadType);
    };
    let Some(content) = value.get("data") else {
        return Err(ObjectFault::BadData);
    };
    match kind {
        Kind::Val => val_in(alloc, content),
        Kind::Valref => valref_in(alloc, content),
        Kind::Dir => dir_in(alloc, content),
        Kind::Dirref => dirref_in(alloc, content),
        Kind::Symlink => symlink_in(alloc, content),
    }
}

/// The directory with these data.
#[cycle(object)]
fn dir_in(alloc: Global, content: &Value) -> Result<Object, ObjectFault>
    requires { IsValid (view content.now) }
    ensures { (d : Data) → IsObject (codes "dir") (view content.now) d → GivesObject d result }
{
    let Some(members) = content.as_object() else {
        return Err(ObjectFault::BadData);
    };
    match entries_in(alloc, members) {
        Ok(entries) => Ok(Object::Dir(entries)),
        Err(fault) => Err(fault),
    }
}

/// The fault of a directory in which an object has this fault.
fn inner_fault(fault: ObjectFault) -> ObjectFault
    ensures { result ≡ inner_fault fault }
{
    match fault {
        ObjectFault::NoMemory => ObjectFault::NoMemory,
        _ => ObjectFault::BadData,
    }
}

/// The entries that members tell.
#[cycle(object)]
fn entries_in(alloc: Global, members: &Map<String, Value>) -> Result<ObjectMap, ObjectFault>
    requires { HaveValid (members_view members.now.entries) }
    ensures { GivesPart (TellEntries (members_view members.now.entries)) result }
{
    let mut entries = ObjectMap::new(alloc);
    for (name, value) in members.iter() {
        let name = Bytes::of(alloc, name.as_str().as_bytes())?;
        match object_in(alloc, value) {
            Ok(object) => entries.push(name, object)?,
            Err(fault) => return Err(inner_fault(fault)),
        }
    }
    Ok(entries)
}

/// The object that a text tells (Flux RFC 11), or the first fault: `NotJson`, `BadVersion`,
/// `BadType`, `BadData`. Other keys are read over. A directory in which an object has a fault is
/// `BadData`.
pub fn read(alloc: Global, text: &[u8]) -> Result<Object, ObjectFault>
    ensures { Gives text.now result }
{
    if let Some(found) = at_once(alloc, text) {
        return Ok(found);
    }
    match fl_json::read(alloc, text) {
        Ok(value) => object_in(alloc, &value),
        Err(JsonFault::NoMemory) => Err(ObjectFault::NoMemory),
        Err(fault) => Err(ObjectFault::NotJson(fault)),
    }
}
