//! The texts of objects, written token by token.
ghost use Rattle.std.specs.Prelude.{OnOk, ◌∷◌, [], decimal};
ghost use Rattle.std.specs.Str.{IsUtf8};
ghost use Rattle.json.specs.Token.{begin_object, end_object, key, string, number};
ghost use Rattle.kvs_txn.specs.Keys.{IsKey};
ghost use Rattle.kvs_txn.specs.Words.{path_text};
ghost use Rattle.std.specs.Prelude.{codes};
ghost use Rattle.tree_rules.specs.Objects.{references_data, target_data, entries_data, tree_data};
ghost use Rattle.serde_json.specs.Data.{object};
ghost use Rattle.tree_objects.specs.Level.{tree_of};
ghost use Rattle.tree_objects.specs.Reading.{HasTextNames, HaveTextNames};
ghost use Rattle.tree_objects.specs.Tokens.{Adds, tokens_of};

use crate::object::{Object, ObjectMap};
use base64::engine::general_purpose::STANDARD;
use fl_digest::BlobRef;
use json::Writer;
use kvs_txn::{Path, SpaceName, Target};
use lists::Bytes;
use std::alloc::{AllocError, Global};

/// Begins an object of a type, up to its data.
fn begin(out: &mut Writer) -> Result<(), AllocError>
    ensures { OnOk result (Adds out.old out.new (begin_object ∷ key (codes "data") ∷ [])) }
{
    out.begin_object()?;
    out.key("data")
}

/// Ends an object of a type, behind its data.
fn end(out: &mut Writer, kind: &str) -> Result<(), AllocError>
    ensures { OnOk result (Adds out.old out.new (key (codes "type") ∷ string kind.now
        ∷ key (codes "ver") ∷ number (decimal 1) ∷ end_object ∷ [])) }
{
    out.key("type")?;
    out.string(kind)?;
    out.key("ver")?;
    out.u64(1)?;
    out.end_object()
}

/// Adds bytes that are a text as a string.
pub(crate) fn add_text(out: &mut Writer, text: &[u8]) -> Result<(), AllocError>
    requires { IsUtf8 text.now }
    ensures { OnOk result (Adds out.old out.new (string text.now ∷ [])) }
{
    out.string(std::str::from_utf8(text).unwrap())
}

/// Adds a name as a key.
fn add_name(out: &mut Writer, name: &Bytes) -> Result<(), AllocError>
    requires { IsUtf8 name.now }
    ensures { OnOk result (Adds out.old out.new (key name.now ∷ [])) }
{
    out.key(std::str::from_utf8(name.as_slice()).unwrap())
}

/// Adds a list of references.
fn add_references(alloc: Global, out: &mut Writer, references: &[BlobRef]) -> Result<(), AllocError>
    ensures { OnOk result (Adds out.old out.new (tokens_of (references_data references.now))) }
{
    out.begin_array()?;
    for reference in references {
        reference.is_text();
        add_text(out, reference.print(alloc)?.as_slice())?;
    }
    out.end_array()
}

/// Adds the path of a link, and ends its data.
fn add_path(alloc: Global, out: &mut Writer, path: &Path) -> Result<(), AllocError>
    ensures { OnOk result (Adds out.old out.new
        (key (codes "target") ∷ string (path_text path.now) ∷ end_object ∷ [])) }
{
    path.is_key();
    kvs_txn::words::keys_are_read_again();
    out.key("target")?;
    add_text(out, path.print(alloc)?.as_slice())?;
    out.end_object()
}

/// Adds the namespace that a link names.
fn add_namespace(out: &mut Writer, name: &SpaceName) -> Result<(), AllocError>
    ensures { OnOk result (Adds out.old out.new
        (key (codes "namespace") ∷ string name.now ∷ [])) }
{
    name.is_name();
    kvs_txn::words::names_are_texts();
    out.key("namespace")?;
    add_text(out, name.as_slice())
}

/// Adds the data of a link.
fn add_target(alloc: Global, out: &mut Writer, target: &Target) -> Result<(), AllocError>
    ensures { OnOk result (Adds out.old out.new (tokens_of (target_data target.now))) }
{
    out.begin_object()?;
    match &target.namespace {
        None => add_path(alloc, out, &target.path),
        Some(name) => {
            add_namespace(out, name)?;
            add_path(alloc, out, &target.path)
        }
    }
}

/// Adds an object.
#[cycle(written)]
pub(crate) fn add_object(alloc: Global, out: &mut Writer, object: &Object) -> Result<(), AllocError>
    ensures written { OnOk result
        (Adds out.old out.new (tokens_of (tree_data (tree_of object.now)))) }
    ensures names { OnOk result (HasTextNames (tree_of object.now)) }
{
    begin(out)?;
    match object {
        Object::Val(bytes) => {
            out.string(STANDARD.encode(alloc, bytes.as_slice())?.as_str())?;
            end(out, "val")
        }
        Object::Valref(references) => {
            add_references(alloc, out, references.as_slice())?;
            end(out, "valref")
        }
        Object::Dir(map) => {
            add_members(alloc, out, map)?;
            end(out, "dir")
        }
        Object::Dirref(reference) => {
            add_references(alloc, out, &[*reference])?;
            end(out, "dirref")
        }
        Object::Symlink(target) => {
            add_target(alloc, out, target)?;
            end(out, "symlink")
        }
    }
}

/// Adds the data of a directory.
#[cycle(written)]
fn add_members(alloc: Global, out: &mut Writer, map: &ObjectMap) -> Result<(), AllocError>
    ensures written { OnOk result
        (Adds out.old out.new (tokens_of (object (entries_data map.now)))) }
    ensures names { OnOk result (HaveTextNames map.now) }
{
    map.is_directory();
    let names = map.names();
    let objects = map.objects();
    out.begin_object()?;
    for index in 0..names.len() {
        add_name(out, &names[index])?;
        add_object(alloc, out, &objects[index])?;
    }
    out.end_object()
}
