//! What operations do to a store whose directories are opened as they are needed.
ghost use Rattle.std.specs.Prelude.{◌≡◌, ◌<◌, ◌∷◌, ◌++◌, [], ℕ, List, length, IfOk, OnOk};
ghost use Rattle.std.specs.Prelude.{Some, None, if◌then◌else◌, option_map};
ghost use Rattle.std.specs.List.{AllByRecursion};
ghost use Rattle.fl_digest.specs.declared.Hash.{Hash};
ghost use Rattle.kvs_model.specs.Operation.{is_reserved, key_of, op_effect, with_places_above};
ghost use Rattle.kvs_model.specs.Operation.{placed, appended, changed, enters_full_from};
ghost use Rattle.kvs_model.specs.Operation.{first_cause, refusals};
ghost use Rattle.kvs_model.specs.Store.{Path as Place, Node, Store, Directory, is_within, node_at};
ghost use Rattle.kvs_model.specs.Store.{with_node};
ghost use Rattle.kvs_txn.specs.Keys.{IsComponent};
ghost use Rattle.tree_objects.specs.Level.{tree_of};
ghost use Rattle.tree_rules.specs.Held.{Table, IsStorableNode};
ghost use Rattle.tree_store.specs.Landing.{table};
ghost use Rattle.tree_store.specs.Shown.{Directories, Stands, Shows, IsShown, OpensAbove, Gives};
ghost use Rattle.tree_store.specs.Shown.{IsNodeOf, IsInDirectory, HasBlob, too_long, append_cause};
ghost use Rattle.fl_digest.specs.Reference.{reference_of};

use crate::kept::Kept;
use crate::opened::{Opened, are_bytes};
use crate::walks::resolve;
use blob_store::BlobStore;
use fl_digest::BlobRef;
use kvs_model::MOST_BYTES;
use kvs_txn::{Author, Cause, Op, Path, Scope};
use lists::{Bytes, Copied};
use std::alloc::{AllocError, Global};
use tree_objects::Object;

/// Puts a directory at a path below the root, unless one stands there. The one above is open.
fn make_place(alloc: Global, opened: &mut Opened, at: &[Bytes]) -> Result<(), AllocError>
    requires named { AllByRecursion IsComponent at.now }
    requires below { 0 < length at.now }
    ensures made { (hash : Hash) (held : Table) (st : Store) → Shows hash held opened.old st
        → OpensAbove opened.old st at.now → IsInDirectory st at.now
        → OnOk result (Shows hash held opened.new (with_node st at.now Directory)) }
    ensures opens { (hash : Hash) (held : Table) (st : Store) (whole : Place)
        → Shows hash held opened.old st → OpensAbove opened.old st at.now
        → IsInDirectory st at.now → OpensAbove opened.old st whole
        → OnOk result (OpensAbove opened.new (with_node st at.now Directory) whole) }
{
    if opened.is_directory(at) {
        return Ok(());
    }
    opened.make(alloc, at)
}

/// Puts a directory at each place above the path where none stands.
fn make_places(alloc: Global, opened: &mut Opened, at: &[Bytes]) -> Result<(), AllocError>
    requires { AllByRecursion IsComponent at.now }
    ensures made { (hash : Hash) (held : Table) (st : Store) → Shows hash held opened.old st
        → OpensAbove opened.old st at.now
        → OnOk result (Shows hash held opened.new (with_places_above st at.now)) }
    ensures opens { (hash : Hash) (held : Table) (st : Store) → Shows hash held opened.old st
        → OpensAbove opened.old st at.now
        → OnOk result (OpensAbove opened.new (with_places_above st at.now) at.now) }
{
    let mut count = 1;
    while count < at.len() {
        make_place(alloc, opened, &at[..count])?;
        count += 1;
    }
    Ok(())
}

/// Puts an object at the path, in the place of all that stood there and below.
fn place(alloc: Global, opened: &mut Opened, at: &[Bytes], object: Object) -> Result<(), AllocError>
    requires { AllByRecursion IsComponent at.now }
    ensures { (hash : Hash) (held : Table) (st : Store) (node : Node)
        → Shows hash held opened.old st → OpensAbove opened.old st at.now
        → 0 < length at.now → IsNodeOf (tree_of object) node → IsStorableNode node
        → OnOk result (Shows hash held opened.new (placed st at.now node)) }
{
    make_places(alloc, opened, at)?;
    opened.close(at);
    opened.put(at, object)
}

/// The bytes of a value, and none of another object.
fn bytes_at<'a>(store: &'a BlobStore, object: Option<&'a Object>) -> &'a [u8]
    ensures { (hash : Hash) (directories : Directories) (st : Store) (path : Place)
        → Stands hash (table store.now) directories st path
        (option_map (λ o. tree_of o.now) object.entry)
        → result.now ≡ appended (node_at st path) [] }
{
    match object {
        Some(Object::Val(bytes)) => bytes.as_slice(),
        Some(Object::Valref(references)) => long_bytes(store, references.as_slice()),
        Some(Object::Dir(_)) => &[],
        Some(Object::Dirref(_)) => &[],
        Some(Object::Symlink(_)) => &[],
        None => &[],
    }
}

/// The bytes of a value that stands by its reference.
fn long_bytes<'a>(store: &'a BlobStore, references: &[BlobRef]) -> &'a [u8]
    ensures { (hash : Hash) (bytes : List ℕ) → references.now ≡ reference_of hash bytes ∷ []
        → HasBlob hash (table store.now) bytes → result.now ≡ bytes }
{
    match references {
        [reference] => match store.get(reference) {
            Some(bytes) => bytes.as_slice(),
            None => &[],
        },
        _ => &[],
    }
}

/// Does an operation that isn't refused.
fn change(
    alloc: Global,
    store: &BlobStore,
    opened: &mut Opened,
    op: &Op,
    at: &[Bytes],
) -> Result<(), AllocError>
    requires named { AllByRecursion IsComponent at.now }
    requires below { 0 < length at.now }
    ensures { (hash : Hash) (st : Store) → Shows hash (table store.now) opened.old st
        → OpensAbove opened.old st at.now
        → OnOk result (Shows hash (table store.now) opened.new (changed st op.now at.now)) }
{
    match op {
        Op::Put { path: _, bytes } => {
            are_bytes(bytes.as_slice());
            let value = bytes.copy()?;
            place(alloc, opened, at, Object::Val(value))
        }
        Op::Append { path: _, bytes } => {
            let mut value = Bytes::of(alloc, bytes_at(store, opened.at(at)))?;
            value.add(bytes.as_slice())?;
            are_bytes(value.as_slice());
            place(alloc, opened, at, Object::Val(value))
        }
        Op::Unlink { path: _ } => {
            opened.cut(at);
            Ok(())
        }
        Op::Mkdir { path: _ } => {
            if opened.is_directory(at) {
                return Ok(());
            }
            make_places(alloc, opened, at)?;
            opened.make(alloc, at)
        }
        Op::Link { path: _, target } => {
            target.is_target();
            let target = Copied::copy(target)?;
            place(alloc, opened, at, Object::Symlink(target))
        }
    }
}

/// Whether the first component is this name.
fn begins_with(name: &[u8], at: &[Bytes]) -> bool
    ensures { result ≡ is_within (name.now ∷ []) at.now }
{
    match at {
        [] => false,
        [first, ..] => name == first.as_slice(),
    }
}

/// Whether a user's operation at the path is refused in `primary`.
fn reserves(who: Author, space: Scope, at: &[Bytes]) -> bool
    ensures { result ≡ is_reserved who space at.now }
{
    match who {
        Author::Manager => false,
        Author::User(_) => match space {
            Scope::Other => false,
            Scope::Primary => begins_with(b"job", at) || begins_with(b"resource", at),
        },
    }
}

/// Why a user's value of these bytes and more is refused.
fn length_refusal(who: Author, old: &[u8], more: &Bytes) -> Option<Cause>
    ensures { result ≡ too_long who (old.now ++ more.now) }
{
    match who {
        Author::Manager => None,
        Author::User(_) if MOST_BYTES < old.len() + more.as_slice().len() => Some(Cause::ValueFull),
        Author::User(_) => None,
    }
}

/// Why an append to an object is refused.
fn object_refusal(store: &BlobStore, object: &Object, who: Author, more: &Bytes) -> Option<Cause>
    ensures { (hash : Hash) (directories : Directories) (st : Store) (path : Place)
        → Stands hash (table store.now) directories st path (Some (tree_of object.now))
        → result ≡ append_cause who (node_at st path) more.now }
{
    match object {
        Object::Dir(_) => Some(Cause::IsDir),
        Object::Dirref(_) => Some(Cause::IsDir),
        Object::Symlink(_) => Some(Cause::IsLink),
        Object::Val(bytes) => length_refusal(who, bytes.as_slice(), more),
        Object::Valref(references) => {
            length_refusal(who, long_bytes(store, references.as_slice()), more)
        }
    }
}

/// Why an append is refused at what stands there.
fn append_refusal(
    store: &BlobStore,
    object: Option<&Object>,
    who: Author,
    more: &Bytes,
) -> Option<Cause>
    ensures { (hash : Hash) (directories : Directories) (st : Store) (path : Place)
        → Stands hash (table store.now) directories st path
        (option_map (λ o. tree_of o.now) object.entry)
        → result ≡ append_cause who (node_at st path) more.now }
{
    match object {
        Some(object) => object_refusal(store, object, who, more),
        None => length_refusal(who, &[], more),
    }
}

/// Whether a name on the way to the path is new in a full directory.
fn enters_full(opened: &Opened, at: &[Bytes]) -> bool
    ensures { (hash : Hash) (held : Table) (st : Store) → Shows hash held opened.now st
        → OpensAbove opened.now st at.now
        → result ≡ enters_full_from st [] at.now }
{
    let mut count = 0;
    while count < at.len() {
        if opened.is_free(&at[..count + 1]) && opened.is_full(&at[..count]) {
            return true;
        }
        count += 1;
    }
    false
}

/// Why a new name is refused.
fn name_refusal(opened: &Opened, at: &[Bytes]) -> Option<Cause>
    ensures { (hash : Hash) (held : Table) (st : Store) → Shows hash held opened.now st
        → OpensAbove opened.now st at.now
        → result ≡ if enters_full_from st [] at.now then Some Cause.DirFull else None }
{
    if enters_full(opened, at) {
        return Some(Cause::DirFull);
    }
    None
}

/// The first cause that refuses an operation at the path where it works.
fn refusal(
    store: &BlobStore,
    opened: &Opened,
    who: Author,
    space: Scope,
    op: &Op,
    at: &[Bytes],
) -> Option<Cause>
    requires { 0 < length at.now }
    ensures { (hash : Hash) (st : Store) → Shows hash (table store.now) opened.now st
        → OpensAbove opened.now st at.now
        → result ≡ first_cause (refusals st who space op.now at.now) }
{
    if reserves(who, space, at) {
        return Some(Cause::Reserved);
    }
    match op {
        Op::Unlink { path: _ } => None,
        Op::Append { path: _, bytes } => {
            match append_refusal(store, opened.at(at), who, bytes) {
                Some(cause) => Some(cause),
                None => name_refusal(opened, at),
            }
        }
        Op::Put { path: _, bytes: _ } => name_refusal(opened, at),
        Op::Mkdir { path: _ } => name_refusal(opened, at),
        Op::Link { path: _, target: _ } => name_refusal(opened, at),
    }
}

/// The path that an operation names.
fn key_in(op: &Op) -> &Path
    ensures { result.now ≡ key_of op.now }
{
    match op {
        Op::Put { path, bytes: _ } => path,
        Op::Append { path, bytes: _ } => path,
        Op::Unlink { path } => path,
        Op::Mkdir { path } => path,
        Op::Link { path, target: _ } => path,
    }
}

/// Does an operation, or answers why it is refused.
pub fn operate(
    alloc: Global,
    store: &BlobStore,
    kept: &mut Kept,
    opened: &mut Opened,
    who: Author,
    space: Scope,
    op: &Op,
) -> Result<Option<Cause>, AllocError>
    requires { IsShown (table store.now) opened.old }
    ensures { (hash : Hash) (st : Store) → Shows hash (table store.now) opened.old st
        → IfOk result (λ why.
        Gives hash (table store.now) (op_effect st who space op.now) why opened.new) }
{
    let key = key_in(op);
    key.is_key();
    let key = key.as_slice();
    if key.is_empty() {
        return Ok(Some(Cause::RootOp));
    }
    let end = resolve(alloc, store, kept, opened, key)?;
    let at = match end {
        Ok(at) => at,
        Err(why) => return Ok(Some(why)),
    };
    let at = at.as_slice();
    if let Some(why) = refusal(store, opened, who, space, op, at) {
        return Ok(Some(why));
    }
    change(alloc, store, opened, op, at)?;
    Ok(None)
}
