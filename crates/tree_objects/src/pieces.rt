//! The texts of entries, of which that of their directory is made.
ghost use Rattle.std.specs.Prelude.{◌≡◌, ◌++◌, false, length, IfOk, OnOk};
ghost use Rattle.std.specs.Str.{IsUtf8};
ghost use Rattle.serde_json.specs.Written.{comma_if, members_text};
ghost use Rattle.tree_rules.specs.Objects.{dir, entries_data, tree_text};
ghost use Rattle.tree_objects.specs.Directories.{IsDirectory};
ghost use Rattle.tree_objects.specs.Level.{tree_of, paired};
ghost use Rattle.tree_objects.specs.Pieces.{entry_text, IsTextOf, AreTexts};

use crate::object::Object;
use crate::printing::print;
use crate::writing::add_text;
use json::Writer;
use lists::Bytes;
use std::alloc::{AllocError, Global};

/// The room for the text of an entry that isn't printed yet.
const ROOM: usize = 128;

/// About how many bytes the text of a directory has, of whose entries these are the texts.
fn room_for(texts: &[Bytes]) -> usize {
    let mut room = ROOM;
    for text in texts {
        let length = text.as_slice().len();
        room = room.saturating_add(if length == 0 { ROOM } else { length + 1 });
    }
    room
}

/// The text of an entry, in no more memory than it needs, since it stays.
fn text_of(alloc: Global, name: &Bytes, object: &Object) -> Result<Bytes, AllocError>
    requires { IsUtf8 name.now }
    ensures { IfOk result (λ text. text ≡ entry_text name.now (tree_of object.now)) }
{
    let mut key = Writer::new(Vec::new(alloc));
    add_text(&mut key, name.as_slice())?;
    let mut text = key.into_inner();
    text.push(b':')?;
    text.extend_from_slice(print(alloc, object)?.as_slice())?;
    Bytes::of(alloc, text.as_slice())
}

/// Prints the text of an entry that isn't there.
fn fill(alloc: Global, name: &Bytes, object: &Object, text: &mut Bytes) -> Result<(), AllocError>
    requires named { IsUtf8 name.now }
    requires text { IsTextOf name.now (tree_of object.now) text.old }
    ensures text { IsTextOf name.now (tree_of object.now) text.new }
    ensures there { OnOk result (text.new ≡ entry_text name.now (tree_of object.now)) }
{
    if !text.as_slice().is_empty() {
        return Ok(());
    }
    *text = text_of(alloc, name, object)?;
    Ok(())
}

/// Adds the text of an entry, which is printed if it isn't there.
fn add_entry(
    alloc: Global,
    out: &mut Vec<u8>,
    name: &Bytes,
    object: &Object,
    text: &mut Bytes,
) -> Result<(), AllocError>
    requires named { IsUtf8 name.now }
    requires text { IsTextOf name.now (tree_of object.now) text.old }
    ensures text { IsTextOf name.now (tree_of object.now) text.new }
    ensures added { OnOk result
        (out.new.items ≡ out.old.items ++ entry_text name.now (tree_of object.now)) }
{
    fill(alloc, name, object, text)?;
    out.extend_from_slice(text.as_slice())
}

/// Adds a comma, where something stands before.
fn add_comma(out: &mut Vec<u8>, later: bool) -> Result<(), AllocError>
    ensures { OnOk result (out.new.items ≡ out.old.items ++ comma_if later) }
{
    if !later {
        return Ok(());
    }
    out.push(b',')?;
    Ok(())
}

/// Adds the texts of the entries of a directory, and its closing bracket. Those that aren't there
/// are printed.
fn add_entries(
    alloc: Global,
    out: &mut Vec<u8>,
    names: &[Bytes],
    objects: &[Object],
    texts: &mut [Bytes],
) -> Result<(), AllocError>
    requires same { length names.now ≡ length objects.now }
    requires counted { length texts.old ≡ length names.now }
    requires named { IsDirectory (paired names.now objects.now) }
    requires texts { AreTexts names.now objects.now texts.old }
    ensures counted { length texts.new ≡ length texts.old }
    ensures texts { AreTexts names.now objects.now texts.new }
    ensures added { OnOk result (out.new.items
        ≡ out.old.items ++ members_text false (entries_data (paired names.now objects.now))) }
{
    let mut later = false;
    for index in 0..names.len() {
        add_comma(out, later)?;
        add_entry(
            alloc,
            out,
            &names[index],
            &objects[index],
            &mut texts[index],
        )?;
        later = true;
    }
    out.push(b'}')?;
    Ok(())
}

/// The stored text of the directory with these entries, whose texts are kept.
pub(crate) fn directory_text(
    alloc: Global,
    names: &[Bytes],
    objects: &[Object],
    texts: &mut [Bytes],
) -> Result<Vec<u8>, AllocError>
    requires same { length names.now ≡ length objects.now }
    requires counted { length texts.old ≡ length names.now }
    requires named { IsDirectory (paired names.now objects.now) }
    requires texts { AreTexts names.now objects.now texts.old }
    ensures counted { length texts.new ≡ length texts.old }
    ensures texts { AreTexts names.now objects.now texts.new }
    ensures canonical { IfOk result (λ text.
        text.items ≡ tree_text (dir (paired names.now objects.now))) }
{
    let mut out = Vec::with_capacity(alloc, room_for(texts))?;
    out.extend_from_slice(b"{\"data\":{")?;
    add_entries(alloc, &mut out, names, objects, texts)?;
    out.extend_from_slice(b",\"type\":\"dir\",\"ver\":1}")?;
    Ok(out)
}
