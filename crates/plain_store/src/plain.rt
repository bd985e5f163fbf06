//! A store, on which transactions take effect whole or not at all.
ghost use Rattle.std.specs.Prelude.{◌≡◌, ◌∷◌, [], Ok, Err, Some, IfOk, OnOk, OnErr, IfErr, codes};
ghost use Rattle.std.specs.Option.{option_copied};
ghost use Rattle.kvs_model.specs.Store.{IsStore, Directory, empty_store, node_at};
ghost use Rattle.kvs_model.specs.History.{first_store};
ghost use Rattle.kvs_model.specs.Operation.{effect};
ghost use Rattle.kvs_model.specs.OneStore.{own_walk};
ghost use Rattle.plain_store.specs.Held.{store_of, undone, written};
ghost use Rattle.plain_store.specs.Effects.{IsRefusalOf, Answers};
ghost use Rattle.plain_store.specs.Values.{value_in};

use crate::operations::operate;
use crate::slots::{Item, Table};
use crate::walks::look;
use kvs_txn::{Found, Path, Query, Refusal, Scope, Txn};
use lists::{Bytes, Copied};
use std::alloc::{AllocError, Global};
use std::marker::Model;

/// Why a transaction has no effect.
#[derive(Clone, Copy, Debug, PartialEq, Eq)]
pub enum ApplyFault {
    NoMemory,
    Refused(Refusal),
}

/// What stands at each path.
#[derive(Drop)]
pub struct Store {
    alloc: Global,
    table: Table,
}

impl Model for Store {
    ghost use Rattle.std.specs.Prelude.{List, ◌≡◌, []};
    ghost use Rattle.kvs_model.specs.Store.{Path, Node, IsStore};

    ghost Value = { List (Path × Node) };

    ghost use Rattle.plain_store.specs.Held.{store_of};

    ghost view = { λ s. store_of s.table.slots.entries };

    ghost invariant = { λ s. IsStore (store_of s.table.slots.entries) × (s.table.log.items ≡ []) };
}

/// Does the operations of a transaction in their order, up to the first that is refused.
fn run(
    alloc: Global,
    table: &mut Table,
    txn: &Txn,
    space: Scope,
) -> Result<Option<Refusal>, AllocError>
    requires { IsStore (store_of table.old.slots.entries) }
    ensures effect { IfOk result (λ refusal. Answers (effect (store_of table.old.slots.entries)
        txn.now space) refusal (store_of table.new.slots.entries)) }
    ensures before { undone table.new.log.items (store_of table.new.slots.entries)
        ≡ undone table.old.log.items (store_of table.old.slots.entries) }
{
    let mut number = 1u32;
    for op in txn.ops.as_slice() {
        if let Some(cause) = operate(alloc, table, txn.author, space, op)? {
            return Ok(Some(Refusal { op: number, cause }));
        }
        let Some(next) = number.checked_add(1) else {
            return Err(AllocError);
        };
        number = next;
    }
    Ok(None)
}

/// The path of one component.
fn key_of_name(alloc: Global, name: &[u8]) -> Result<Vec<Bytes>, AllocError>
    ensures { IfOk result (λ key. key.items ≡ name.now ∷ []) }
{
    let mut key = Vec::new(alloc);
    key.push(Bytes::of(alloc, name)?)?;
    Ok(key)
}

/// A table with the root alone.
fn rooted(alloc: Global) -> Result<Table, AllocError>
    ensures { IfOk result (λ table. store_of table.slots.entries ≡ empty_store) }
{
    let mut table = Table::new(alloc);
    table.set(&[], Some(Item::Directory))?;
    Ok(table)
}

/// Puts a directory of one component.
fn add_directory(alloc: Global, table: &mut Table, name: &[u8]) -> Result<(), AllocError>
    ensures { OnOk result (store_of table.new.slots.entries
        ≡ written (store_of table.old.slots.entries) (name.now ∷ []) (Some Directory)) }
{
    let key = key_of_name(alloc, name)?;
    table.set(key.as_slice(), Some(Item::Directory))
}

/// Where the grant's text stands.
fn grant_place(alloc: Global) -> Result<Vec<Bytes>, AllocError>
    ensures { IfOk result (λ place. place.items ≡ codes "resource" ∷ codes "R" ∷ []) }
{
    let mut place = key_of_name(alloc, b"resource")?;
    place.push(Bytes::of(alloc, b"R")?)?;
    Ok(place)
}

/// Makes the first store of `primary` in a table with the root alone.
fn fill(alloc: Global, table: &mut Table, grant: &Bytes) -> Result<(), AllocError>
    requires { store_of table.old.slots.entries ≡ empty_store }
    ensures { OnOk result (store_of table.new.slots.entries ≡ first_store grant.now) }
{
    add_directory(alloc, table, b"job")?;
    add_directory(alloc, table, b"resource")?;
    let place = grant_place(alloc)?;
    table.set(place.as_slice(), Some(Item::Value(grant.copy()?)))?;
    Ok(())
}

/// A table with the first store of `primary`.
fn granted(alloc: Global, grant: &Bytes) -> Result<Table, AllocError>
    ensures { IfOk result (λ table. store_of table.slots.entries ≡ first_store grant.now) }
{
    let mut table = rooted(alloc)?;
    fill(alloc, &mut table, grant)?;
    Ok(table)
}

impl Store {
    /// The first store of a namespace other than `primary`.
    pub fn empty(alloc: Global) -> Result<Store, AllocError>
        ensures { IfOk result (λ store. store ≡ empty_store) }
    {
        let mut table = rooted(alloc)?;
        table.keep();
        Ok(Store { alloc, table })
    }

    /// The first store of `primary`, with the grant's text.
    pub fn first(alloc: Global, grant: &Bytes) -> Result<Store, AllocError>
        ensures { IfOk result (λ store. store ≡ first_store grant.now) }
    {
        let mut table = granted(alloc, grant)?;
        table.keep();
        Ok(Store { alloc, table })
    }

    /// Does a transaction, or answers why it has no effect.
    pub fn apply(&mut self, txn: &Txn, space: Scope) -> Result<(), ApplyFault>
        ensures effect { OnOk result (effect self.old txn.now space ≡ Ok self.new) }
        ensures refused { IfErr result
            (λ fault. IsRefusalOf fault (effect self.old txn.now space)) }
        ensures kept { OnErr result (self.new ≡ self.old) }
    {
        let alloc = self.alloc;
        match run(alloc, &mut self.table, txn, space) {
            Ok(None) => {
                self.table.keep();
                Ok(())
            }
            Ok(Some(refusal)) => {
                self.table.undo();
                Err(ApplyFault::Refused(refusal))
            }
            Err(_) => {
                self.table.undo();
                Err(ApplyFault::NoMemory)
            }
        }
    }

    /// What a reader finds who asks this of the path.
    pub fn look(&self, query: Query, path: &Path) -> Result<Found, AllocError>
        ensures { IfOk result (λ found. found ≡ own_walk self.now query path.now) }
    {
        look(self.alloc, &self.table, query, path.as_slice())
    }

    /// The value at a path, if one stands there. No link is followed.
    pub fn value(&self, path: &Path) -> Option<&Bytes>
        ensures { option_copied result ≡ value_in (node_at self.now path.now) }
    {
        match self.table.at(path.as_slice()) {
            Some(Item::Value(bytes)) => Some(bytes),
            _ => None,
        }
    }
}
