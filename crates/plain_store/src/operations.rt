//! What operations do to a table.
ghost use Rattle.std.specs.Prelude.{◌≡◌, ◌∷◌, [], ◌&&◌, length, nat_le, is_none, IfOk, OnOk, option_map};
ghost use Rattle.std.specs.Option.{option_copied};
ghost use Rattle.kvs_model.specs.Store.{IsStore, is_within, node_at, names_in, with_node, Directory};
ghost use Rattle.kvs_model.specs.Operation.{placed, changed, with_places_above, is_reserved, appends_to_directory, appends_to_link, overfills_value, enters_full_directory, enters_full_from, refusals, first_cause, appended, op_effect, key_of, most_names};
ghost use Rattle.plain_store.specs.Held.{IsInOrder, store_of, node_of, undone};
ghost use Rattle.plain_store.specs.Effects.{Gives};

use crate::slots::{Item, Table};
use crate::walks::resolve;
use kvs_model::MOST_BYTES;
use kvs_txn::{Author, Cause, Op, Path, Scope};
use lists::{Bytes, Copied};
use std::alloc::{AllocError, Global};

/// Puts a directory at the path, unless one stands there.
fn make_directory(table: &mut Table, at: &[Bytes]) -> Result<(), AllocError>
    requires { IsInOrder (store_of table.old.slots.entries) }
    ensures made { OnOk result (store_of table.new.slots.entries
        ≡ with_node (store_of table.old.slots.entries) at.now Directory) }
    ensures before { undone table.new.log.items (store_of table.new.slots.entries)
        ≡ undone table.old.log.items (store_of table.old.slots.entries) }
{
    if table.is_directory(at) {
        return Ok(());
    }
    table.set(at, Some(Item::Directory))
}

/// Puts a directory at each place above the path where none stands.
fn make_places(table: &mut Table, at: &[Bytes]) -> Result<(), AllocError>
    requires { IsStore (store_of table.old.slots.entries) }
    ensures made { OnOk result (store_of table.new.slots.entries
        ≡ with_places_above (store_of table.old.slots.entries) at.now) }
    ensures before { undone table.new.log.items (store_of table.new.slots.entries)
        ≡ undone table.old.log.items (store_of table.old.slots.entries) }
{
    let mut count = 0;
    while count < at.len() {
        make_directory(table, &at[..count])?;
        count += 1;
    }
    Ok(())
}

/// Puts an item at the path, in the place of all that stood there and below.
fn place(table: &mut Table, at: &[Bytes], item: Item) -> Result<(), AllocError>
    requires { IsStore (store_of table.old.slots.entries) }
    ensures placed { OnOk result (store_of table.new.slots.entries
        ≡ placed (store_of table.old.slots.entries) at.now (node_of item)) }
    ensures before { undone table.new.log.items (store_of table.new.slots.entries)
        ≡ undone table.old.log.items (store_of table.old.slots.entries) }
{
    if table.is_directory(at) {
        make_places(table, at)?;
        table.cut(at)?;
        return table.set(at, Some(item));
    }
    make_places(table, at)?;
    table.set(at, Some(item))
}

/// The value after an append to what stands at a place.
fn extended(alloc: Global, old: Option<&Item>, bytes: &Bytes) -> Result<Bytes, AllocError>
    ensures { IfOk result
        (λ value. value ≡ appended (option_map node_of (option_copied old.entry)) bytes.now) }
{
    match old {
        Some(Item::Value(value)) => {
            let mut whole = Bytes::of(alloc, value.as_slice())?;
            whole.add(bytes.as_slice())?;
            Ok(whole)
        }
        Some(Item::Directory) => bytes.copy(),
        Some(Item::Link(_)) => bytes.copy(),
        None => bytes.copy(),
    }
}

/// Does an operation that isn't refused.
fn change(alloc: Global, table: &mut Table, op: &Op, at: &[Bytes]) -> Result<(), AllocError>
    requires { IsStore (store_of table.old.slots.entries) }
    ensures changed { OnOk result (store_of table.new.slots.entries
        ≡ changed (store_of table.old.slots.entries) op.now at.now) }
    ensures before { undone table.new.log.items (store_of table.new.slots.entries)
        ≡ undone table.old.log.items (store_of table.old.slots.entries) }
{
    match op {
        Op::Put { path: _, bytes } => {
            let value = bytes.copy()?;
            place(table, at, Item::Value(value))
        }
        Op::Append { path: _, bytes } => {
            let value = extended(alloc, table.at(at), bytes)?;
            place(table, at, Item::Value(value))
        }
        Op::Unlink { path: _ } => table.cut(at),
        Op::Mkdir { path: _ } => {
            if table.is_directory(at) {
                return Ok(());
            }
            place(table, at, Item::Directory)
        }
        Op::Link { path: _, target } => {
            let target = Copied::copy(target)?;
            place(table, at, Item::Link(target))
        }
    }
}

/// Whether the first component is this name.
fn begins_with(name: &[u8], at: &[Bytes]) -> bool
    ensures { result ≡ is_within (name.now ∷ []) at.now }
{
    match at {
        [] => false,
        [first, ..] => name == first.as_slice(),
    }
}

/// Whether a user's operation at the path is refused in `primary`.
fn reserves(who: Author, space: Scope, at: &[Bytes]) -> bool
    ensures { result ≡ is_reserved who space at.now }
{
    match who {
        Author::Manager => false,
        Author::User(_) => match space {
            Scope::Other => false,
            Scope::Primary => begins_with(b"job", at) || begins_with(b"resource", at),
        },
    }
}

/// Whether the operation is an append to a directory.
fn meets_directory(table: &Table, op: &Op, at: &[Bytes]) -> bool
    ensures { result ≡ appends_to_directory (store_of table.now.slots.entries) op.now at.now }
{
    match op {
        Op::Append { path: _, bytes: _ } => table.is_directory(at),
        Op::Put { path: _, bytes: _ } => false,
        Op::Unlink { path: _ } => false,
        Op::Mkdir { path: _ } => false,
        Op::Link { path: _, target: _ } => false,
    }
}

/// Whether the operation is an append to a link.
fn meets_link(table: &Table, op: &Op, at: &[Bytes]) -> bool
    ensures { result ≡ appends_to_link (store_of table.now.slots.entries) op.now at.now }
{
    match op {
        Op::Append { path: _, bytes: _ } => table.is_link(at),
        Op::Put { path: _, bytes: _ } => false,
        Op::Unlink { path: _ } => false,
        Op::Mkdir { path: _ } => false,
        Op::Link { path: _, target: _ } => false,
    }
}

/// How long the value is after an append to what stands at a place.
fn length_after(old: Option<&Item>, bytes: &Bytes) -> usize
    ensures { result ≡ length (appended (option_map node_of (option_copied old.entry)) bytes.now) }
{
    let more = bytes.as_slice().len();
    match old {
        Some(Item::Value(value)) => value.as_slice().len() + more,
        Some(Item::Directory) => more,
        Some(Item::Link(_)) => more,
        None => more,
    }
}

/// Whether a user's append makes a value that is too long.
fn overfills(table: &Table, who: Author, op: &Op, at: &[Bytes]) -> bool
    ensures { result ≡ overfills_value (store_of table.now.slots.entries) who op.now at.now }
{
    match who {
        Author::Manager => false,
        Author::User(_) => match op {
            Op::Append { path: _, bytes } => MOST_BYTES < length_after(table.at(at), bytes),
            Op::Put { path: _, bytes: _ } => false,
            Op::Unlink { path: _ } => false,
            Op::Mkdir { path: _ } => false,
            Op::Link { path: _, target: _ } => false,
        },
    }
}

/// Whether a child is new in a full directory.
fn is_new_child(table: &Table, place: &[Bytes], child: &[Bytes]) -> bool
    ensures { result ≡ (is_none (node_at (store_of table.now.slots.entries) child.now)
        && nat_le most_names (length (names_in (store_of table.now.slots.entries) place.now))) }
{
    table.is_free(child) && table.is_full(place)
}

/// Whether a name on the way to the path is new in a full directory.
fn enters_full(table: &Table, at: &[Bytes]) -> bool
    ensures { result ≡ enters_full_from (store_of table.now.slots.entries) [] at.now }
{
    let mut count = 0;
    while count < at.len() {
        if is_new_child(table, &at[..count], &at[..count + 1]) {
            return true;
        }
        count += 1;
    }
    false
}

/// Whether the operation makes a new name in a full directory.
fn overfills_directory(table: &Table, op: &Op, at: &[Bytes]) -> bool
    ensures { result ≡ enters_full_directory (store_of table.now.slots.entries) op.now at.now }
{
    match op {
        Op::Unlink { path: _ } => false,
        Op::Put { path: _, bytes: _ } => enters_full(table, at),
        Op::Append { path: _, bytes: _ } => enters_full(table, at),
        Op::Mkdir { path: _ } => enters_full(table, at),
        Op::Link { path: _, target: _ } => enters_full(table, at),
    }
}

/// The first cause that refuses an operation at the path where it works.
fn refusal(table: &Table, who: Author, space: Scope, op: &Op, at: &[Bytes]) -> Option<Cause>
    ensures { result
        ≡ first_cause (refusals (store_of table.now.slots.entries) who space op.now at.now) }
{
    if reserves(who, space, at) {
        return Some(Cause::Reserved);
    }
    if meets_directory(table, op, at) {
        return Some(Cause::IsDir);
    }
    if meets_link(table, op, at) {
        return Some(Cause::IsLink);
    }
    if overfills(table, who, op, at) {
        return Some(Cause::ValueFull);
    }
    if overfills_directory(table, op, at) {
        return Some(Cause::DirFull);
    }
    None
}

/// The path that an operation names.
fn key_in(op: &Op) -> &Path
    ensures { result.now ≡ key_of op.now }
{
    match op {
        Op::Put { path, bytes: _ } => path,
        Op::Append { path, bytes: _ } => path,
        Op::Unlink { path } => path,
        Op::Mkdir { path } => path,
        Op::Link { path, target: _ } => path,
    }
}

/// Does an operation, or answers why it is refused.
pub fn operate(
    alloc: Global,
    table: &mut Table,
    who: Author,
    space: Scope,
    op: &Op,
) -> Result<Option<Cause>, AllocError>
    requires { IsStore (store_of table.old.slots.entries) }
    ensures effect { IfOk result (λ why. Gives (op_effect (store_of table.old.slots.entries)
        who space op.now) why (store_of table.new.slots.entries)) }
    ensures before { undone table.new.log.items (store_of table.new.slots.entries)
        ≡ undone table.old.log.items (store_of table.old.slots.entries) }
{
    let key = key_in(op).as_slice();
    if key.is_empty() {
        return Ok(Some(Cause::RootOp));
    }
    let end = resolve(alloc, table, key)?;
    let at = match end {
        Ok(at) => at,
        Err(why) => return Ok(Some(why)),
    };
    let at = at.as_slice();
    if let Some(why) = refusal(table, who, space, op, at) {
        return Ok(Some(why));
    }
    change(alloc, table, op, at)?;
    Ok(None)
}
