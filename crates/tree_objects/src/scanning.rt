//! Stored texts of directories, read without JSON values.
ghost use Rattle.std.specs.Prelude.{◌<◌, ◌≤◌, Ok, IfSome, IsTrue, length};
ghost use Rattle.base64.specs.GeneralPurpose.{IsBytes};
ghost use Rattle.std.specs.List.{All};
ghost use Rattle.fl_digest.specs.Reference.{IsWhole};
ghost use Rattle.serde_json.specs.Data.{depth};
ghost use Rattle.serde_json.specs.Read.{max_depth};
ghost use Rattle.tree_rules.specs.Objects.{dir, tree_data};
ghost use Rattle.tree_objects.specs.Level.{tree_of};
ghost use Rattle.tree_objects.specs.Reading.{Gives, IsFlat, IsReadable};
ghost use Rattle.tree_objects.specs.declared.object.Object.TheVariants.{Dir};

use crate::object::{Object, ObjectMap};
use crate::printing::print;
use base64::engine::general_purpose::STANDARD;
use fl_digest::{BlobRef, RefList};
use kvs_txn::{Path, SpaceName, Target};
use lists::Bytes;
use std::alloc::Global;

/// How long the string is that ends at the next quote. None where an escape comes first.
fn length_inside(text: &[u8]) -> Option<usize>
    ensures { IfSome result (λ n. n < length text.now) }
{
    for index in 0..text.len() {
        match text[index] {
            b'"' => return Some(index),
            b'\\' => return None,
            _ => {}
        }
    }
    None
}

/// The string that ends at the next quote, and what stands behind it.
fn string_first(text: &[u8]) -> Option<(&[u8], &[u8])> {
    let length = length_inside(text)?;
    Some((&text[..length], &text[length + 1..]))
}

/// A value, and what stands behind it.
fn value_first(alloc: Global, text: &[u8]) -> Option<(Object, &[u8])> {
    let (letters, rest) = string_first(text)?;
    let bytes = STANDARD.decode(alloc, letters).ok()?;
    let rest = rest.strip_prefix(b",\"type\":\"val\",\"ver\":1}".as_slice())?;
    Some((Object::Val(Bytes::from_vec(bytes)), rest))
}

/// A link with the namespace that it names, and what stands behind it.
fn link_first(alloc: Global, namespace: Option<SpaceName>, text: &[u8]) -> Option<(Object, &[u8])> {
    let (letters, rest) = string_first(text)?;
    let path = Path::read(alloc, std::str::from_utf8(letters).ok()?).ok()?;
    let rest = rest.strip_prefix(b"},\"type\":\"symlink\",\"ver\":1}".as_slice())?;
    Some((Object::Symlink(Target { path, namespace }), rest))
}

/// A link that names a namespace, and what stands behind it.
fn named_link_first(alloc: Global, text: &[u8]) -> Option<(Object, &[u8])> {
    let (letters, rest) = string_first(text)?;
    let name = SpaceName::of(Bytes::of(alloc, letters).ok()?)?;
    let inside = rest.strip_prefix(b",\"target\":\"".as_slice())?;
    link_first(alloc, Some(name), inside)
}

/// An object that is a reference, and what stands behind it.
fn reference_first(alloc: Global, text: &[u8]) -> Option<(Object, &[u8])> {
    let (letters, rest) = string_first(text)?;
    let reference = BlobRef::read(letters).ok()?;
    if let Some(rest) = rest.strip_prefix(b"],\"type\":\"dirref\",\"ver\":1}".as_slice()) {
        return Some((Object::Dirref(reference), rest));
    }
    let rest = rest.strip_prefix(b"],\"type\":\"valref\",\"ver\":1}".as_slice())?;
    let mut references = RefList::new(alloc);
    references.push(reference).ok()?;
    Some((Object::Valref(references), rest))
}

/// The object that comes first, and what stands behind it.
fn object_first(alloc: Global, text: &[u8]) -> Option<(Object, &[u8])> {
    let text = text.strip_prefix(b":{\"data\":".as_slice())?;
    if let Some(inside) = text.strip_prefix(b"\"".as_slice()) {
        return value_first(alloc, inside);
    }
    if let Some(inside) = text.strip_prefix(b"[\"".as_slice()) {
        return reference_first(alloc, inside);
    }
    if let Some(inside) = text.strip_prefix(b"{\"target\":\"".as_slice()) {
        return link_first(alloc, None, inside);
    }
    named_link_first(alloc, text.strip_prefix(b"{\"namespace\":\"".as_slice())?)
}

/// Adds the entry that comes first to a directory, and gives what stands behind it.
fn take_entry<'a>(alloc: Global, directory: &mut ObjectMap, text: &'a [u8]) -> Option<&'a [u8]> {
    let (name, rest) = string_first(text)?;
    std::str::from_utf8(name).ok()?;
    let name = Bytes::of(alloc, name).ok()?;
    let (object, rest) = object_first(alloc, rest)?;
    directory.put(&name, object).ok()?;
    Some(rest.strip_prefix(b",".as_slice()).unwrap_or(rest))
}

/// A directory whose text begins so.
fn directory_first(alloc: Global, text: &[u8]) -> Option<ObjectMap> {
    let mut rest = text.strip_prefix(b"{\"data\":{".as_slice())?;
    let mut directory = ObjectMap::new(alloc);
    for _ in 0..text.len() {
        let Some(inside) = rest.strip_prefix(b"\"".as_slice()) else {
            break;
        };
        rest = take_entry(alloc, &mut directory, inside)?;
    }
    Some(directory)
}

/// Bytes are below 256.
fn are_bytes(bytes: &[u8])
    ensures { All (λ b. b < 256) bytes.now }
{
    let _length = bytes.len();
}

/// Whether a reference is read again.
fn is_whole(alloc: Global, reference: &BlobRef) -> bool
    ensures { IsTrue result → IsWhole reference.now }
{
    match reference.print(alloc) {
        Ok(text) => BlobRef::read(text.as_slice()).is_ok(),
        Err(_) => false,
    }
}

/// Whether an object is read again and is no directory.
fn is_flat(alloc: Global, object: &Object) -> bool
    ensures { IsTrue result → IsFlat (tree_of object.now) }
{
    match object {
        Object::Val(bytes) => {
            are_bytes(bytes.as_slice());
            true
        }
        Object::Symlink(target) => {
            target.is_target();
            true
        }
        Object::Dirref(reference) => is_whole(alloc, reference),
        Object::Valref(references) => match references.as_slice() {
            [reference] => is_whole(alloc, reference),
            _ => false,
        },
        Object::Dir(_) => false,
    }
}

/// Whether a directory is read again, none being inside it.
fn has_flat(alloc: Global, directory: &ObjectMap) -> bool
    ensures readable { IsTrue result → IsReadable (dir directory.now) }
    ensures shallow { IsTrue result → depth (tree_data (dir directory.now)) ≤ max_depth }
{
    directory.is_directory();
    let names = directory.names();
    let objects = directory.objects();
    for index in 0..names.len() {
        if !is_flat(alloc, &objects[index]) {
            return false;
        }
    }
    true
}

/// The directory whose stored text this is, if it is found at once. That it is the text's is seen
/// by its own text, so nothing is asked of the way in which it was found.
pub(crate) fn at_once(alloc: Global, text: &[u8]) -> Option<Object>
    ensures { IfSome result (λ found. Gives text.now (Ok found)) }
{
    let directory = directory_first(alloc, text)?;
    if !has_flat(alloc, &directory) {
        return None;
    }
    let found = Object::Dir(directory);
    let Ok(again) = print(alloc, &found) else {
        return None;
    };
    if again.as_slice() == text {
        return Some(found);
    }
    None
}
