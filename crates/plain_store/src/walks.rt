//! Where a path leads, and what a reader finds there.
ghost use Rattle.std.specs.Prelude.{◌≡◌, ◌≤◌, length, take, drop, IfOk, option_map};
ghost use Rattle.kvs_model.specs.Walk.{stop, found_at, most_links, past_inner_link};
ghost use Rattle.kvs_model.specs.OneStore.{own_walk};
ghost use Rattle.plain_store.specs.Held.{store_of, node_of};
ghost use Rattle.plain_store.specs.Next.{next_of, is_outside, leaves_last, followed, LeadsTo};

use crate::slots::{Item, Table, copy_of, joined};
use kvs_txn::{Cause, Found, Query};
use lists::{Bytes, Copied};
use std::alloc::{AllocError, Global};

/// How many components a walk along the path passes, up to the first place where no directory
/// stands.
pub fn passed(table: &Table, path: &[Bytes]) -> usize
    ensures bound { result ≤ length path.now }
    ensures stop { stop (store_of table.now.slots.entries) path.now
        ≡ record { place = take result path.now; rest = drop result path.now } }
{
    let mut count = 0;
    while count < path.len() {
        if !table.is_directory(&path[..count]) {
            return count;
        }
        count += 1;
    }
    count
}

/// The path after the first link on it is followed, if there is one; with `inner`, one in the last
/// place stays.
fn past_link(
    alloc: Global,
    table: &Table,
    path: &[Bytes],
    inner: bool,
) -> Result<Option<Vec<Bytes>>, AllocError>
    ensures { IfOk result (λ next. option_map (λ v. v.items) next
        ≡ next_of inner (store_of table.now.slots.entries) path.now) }
{
    let count = passed(table, path);
    if inner && count == path.len() {
        return Ok(None);
    }
    match table.link(&path[..count]) {
        None => Ok(None),
        Some(target) => Ok(Some(joined(alloc, target.path.as_slice(), &path[count..])?)),
    }
}

/// The path after at most ten links on it are followed, if no more are left.
pub fn follow(
    alloc: Global,
    table: &Table,
    path: &[Bytes],
    inner: bool,
) -> Result<Option<Vec<Bytes>>, AllocError>
    ensures { IfOk result (λ end. option_map (λ v. v.items) end
        ≡ followed (next_of inner (store_of table.now.slots.entries)) most_links path.now) }
{
    let mut here = copy_of(alloc, path)?;
    let mut links = 0u32;
    while links < 10 {
        match past_link(alloc, table, here.as_slice(), inner)? {
            None => return Ok(Some(here)),
            Some(next) => here = next,
        }
        links += 1;
    }
    match past_link(alloc, table, here.as_slice(), inner)? {
        None => Ok(Some(here)),
        Some(_) => Ok(None),
    }
}

/// Whether the first link before the path's last place names a namespace.
fn leads_outside(table: &Table, path: &[Bytes]) -> bool
    ensures { result
        ≡ is_outside (past_inner_link (store_of table.now.slots.entries) path.now) }
{
    let count = passed(table, path);
    if count == path.len() {
        return false;
    }
    match table.link(&path[..count]) {
        None => false,
        Some(target) => target.namespace.is_some(),
    }
}

/// Where an operation at the path works, or why it works nowhere.
pub fn resolve(
    alloc: Global,
    table: &Table,
    path: &[Bytes],
) -> Result<Result<Vec<Bytes>, Cause>, AllocError>
    ensures { IfOk result (LeadsTo (store_of table.now.slots.entries) path.now) }
{
    let mut here = copy_of(alloc, path)?;
    let mut count = 0u32;
    while count < 10 {
        if leads_outside(table, here.as_slice()) {
            return Ok(Err(Cause::OtherSpace));
        }
        match past_link(alloc, table, here.as_slice(), true)? {
            None => return Ok(Ok(here)),
            Some(next) => here = next,
        }
        count += 1;
    }
    match past_link(alloc, table, here.as_slice(), true)? {
        None => Ok(Ok(here)),
        Some(_) => Ok(Err(Cause::Loop)),
    }
}

/// Whether a query leaves a link in the last place.
fn is_of_links(query: Query) -> bool
    ensures { result ≡ leaves_last query }
{
    match query {
        Query::Get => false,
        Query::List => false,
        Query::Link => true,
    }
}

/// What a query finds where this item stands in the last place.
fn found_in(table: &Table, query: Query, place: &[Bytes], item: &Item) -> Result<Found, AllocError>
    ensures { IfOk result (λ found. found
        ≡ found_at (store_of table.now.slots.entries) query place.now (node_of item.now)) }
{
    match query {
        Query::Get => match item {
            Item::Value(bytes) => Ok(Found::Value(bytes.copy()?)),
            Item::Directory => Ok(Found::IsDir),
            Item::Link(_) => Ok(Found::Loop),
        },
        Query::List => match item {
            Item::Value(_) => Ok(Found::NotDir),
            Item::Directory => Ok(Found::Names(table.names(place)?)),
            Item::Link(_) => Ok(Found::Loop),
        },
        Query::Link => match item {
            Item::Value(_) => Ok(Found::NotLink),
            Item::Directory => Ok(Found::NotLink),
            Item::Link(target) => Ok(Found::Target(Copied::copy(target)?)),
        },
    }
}

/// What a reader finds who asks this of the path.
pub fn look(alloc: Global, table: &Table, query: Query, path: &[Bytes]) -> Result<Found, AllocError>
    ensures { IfOk result
        (λ found. found ≡ own_walk (store_of table.now.slots.entries) query path.now) }
{
    let Some(end) = follow(alloc, table, path, is_of_links(query))? else {
        return Ok(Found::Loop);
    };
    let end = end.as_slice();
    let count = passed(table, end);
    let Some(item) = table.at(&end[..count]) else {
        return Ok(Found::Nothing);
    };
    if count < end.len() {
        return Ok(Found::NotDir);
    }
    found_in(table, query, &end[..count], item)
}
