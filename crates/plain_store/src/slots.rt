//! What stands at each path, with a log by which all changes since the last landing can be undone
//! without memory.
ghost use Rattle.std.specs.Prelude.{◌≡◌, ◌++◌, [], nat_le, length, map, filter, is_none, OnOk, IfOk, IsTrue, IsSome, Some, None, option_map};
ghost use Rattle.std.specs.Option.{option_copied, option_to_list};
ghost use Rattle.kvs_model.specs.Store.{Path as Places, node_at, names_in, without, is_within, child_name, kind_of};
ghost use Rattle.kvs_model.specs.Operation.{is_directory, is_link, most_names};
ghost use Rattle.plain_store.specs.Counted.{AreCounts, AreCountable, from_on, stand_together};
ghost use Rattle.plain_store.specs.Held.{node_of, store_of, slot_at, written, undone, are_logged, link_target, listing};

use crate::counts::{Counts, count_in, forget_count, make_count, recount};
use kvs_model::MOST_NAMES;
use kvs_txn::{Kind, Listed, NameList, Target};
use lists::{Bytes, Copied, ListOf};
use std::alloc::{AllocError, Global};
use std::collections::BTreeMap;
use std::collections::btree_map::Range;
use std::mem;

/// What stands at a path.
#[derive(Drop)]
pub enum Item {
    Value(Bytes),
    Directory,
    Link(Target),
}

/// What stood at a path before a change.
#[derive(Drop)]
pub struct Change {
    path: Vec<Bytes>,
    was: Option<Item>,
}

/// The items by their paths, and how many names lie in each place. An empty slot is a path where
/// nothing stands.
#[derive(Drop)]
pub struct Table {
    slots: BTreeMap<Vec<Bytes>, Option<Item>>,
    counts: Counts,
    log: Vec<Change>,
    pub ghost logged: { IsTrue (are_logged log.items slots.entries) },
    pub ghost counted: { AreCounts slots.entries counts.entries },
    pub ghost countable: { AreCountable log.items counts.entries },
}

/// The components, in memory of their own.
pub fn copy_of(alloc: Global, path: &[Bytes]) -> Result<Vec<Bytes>, AllocError>
    ensures { IfOk result (λ twin. twin.items ≡ path.now) }
{
    let mut twin = Vec::new(alloc);
    for component in path {
        twin.push(component.copy()?)?;
    }
    Ok(twin)
}

/// The components of two paths, one after the other.
pub fn joined(alloc: Global, front: &[Bytes], back: &[Bytes]) -> Result<Vec<Bytes>, AllocError>
    ensures { IfOk result (λ whole. whole.items ≡ front.now ++ back.now) }
{
    let mut whole = copy_of(alloc, front)?;
    for component in back {
        whole.push(component.copy()?)?;
    }
    Ok(whole)
}

type Slots = BTreeMap<Vec<Bytes>, Option<Item>>;

/// The item in the slot of a path.
fn item_in<'a>(slots: &'a Slots, path: &[Bytes]) -> Option<&'a Item>
    ensures { option_map node_of (option_copied result)
        ≡ node_at (store_of slots.now.entries) path.now }
{
    let _count = slots.len();
    match slots.get(path) {
        Some(slot) => slot.as_ref(),
        None => None,
    }
}

/// Puts an item, or nothing, into a slot that is there.
fn replace(slots: &mut Slots, path: Vec<Bytes>, item: Option<Item>)
    requires { IsSome (slot_at slots.old.entries path.items) }
    ensures store { store_of slots.new.entries
        ≡ written (store_of slots.old.entries) path.items (option_map node_of item) }
    ensures slots { (q : Places) → IsSome (slot_at slots.old.entries q)
        → IsSome (slot_at slots.new.entries q) }
{
    let done: Result<_, _> = slots.insert(path, item);
    let _old = done.unwrap();
}

/// Takes a slot away that is empty.
fn purge(slots: &mut Slots, path: &[Bytes])
    ensures { store_of slots.new.entries ≡ store_of slots.old.entries }
{
    if is_empty(slots, path) {
        let _empty = slots.remove(path);
    }
}

/// Whether the path has a slot in which nothing stands.
fn is_empty(slots: &Slots, path: &[Bytes]) -> bool
    ensures { IsTrue result → slot_at slots.now.entries path.now ≡ Some None }
{
    match slots.get(path) {
        Some(slot) => slot.is_none(),
        None => false,
    }
}

/// Whether the key is the path or lies below it.
fn is_inside(path: &[Bytes], key: &[Bytes]) -> bool
    ensures { result ≡ is_within path.now key.now }
{
    key.starts_with(path)
}

/// The slots from a path on. Those at and below the path stand together, before all others.
fn slots_from(slots: &Slots, path: Vec<Bytes>) -> Range<'_, Vec<Bytes>, Option<Item>>
    ensures from { result ≡ from_on path.items slots.now.entries }
    ensures together { IsTrue (stand_together path.items result) }
{
    slots.range(path..)
}

/// The keys at and below a path.
fn keys_within(alloc: Global, slots: &Slots, path: &[Bytes]) -> Result<Vec<Vec<Bytes>>, AllocError>
    ensures { IfOk result (λ keys. map (λ k. k.items) keys.items
        ≡ filter (is_within path.now) (map (λ e. e.0.items) slots.now.entries)) }
{
    let mut keys = Vec::new(alloc);
    for (key, _) in slots_from(slots, copy_of(alloc, path)?) {
        if !is_inside(path, key.as_slice()) {
            break;
        }
        keys.push(copy_of(alloc, key.as_slice())?)?;
    }
    Ok(keys)
}

fn kind_shown(item: &Item) -> Kind
    ensures { result ≡ kind_of (node_of item.now) }
{
    match item {
        Item::Value(_) => Kind::Value,
        Item::Directory => Kind::Dir,
        Item::Link(_) => Kind::Link,
    }
}

/// The name by which the key lies directly in the path.
fn name_under<'a>(path: &[Bytes], key: &'a [Bytes]) -> Option<&'a Bytes>
    ensures { option_copied result ≡ child_name path.now key.now }
{
    if key.len() == path.len() + 1 && is_inside(path, key) {
        return Some(&key[path.len()]);
    }
    None
}

/// The line of a slot in the listing of a directory.
fn line_of(path: &[Bytes], key: &[Bytes], slot: &Option<Item>) -> Result<Option<Listed>, AllocError>
    ensures { IfOk result (λ line. line ≡ listing path.now key.now slot.now) }
{
    match slot {
        None => Ok(None),
        Some(item) => match name_under(path, key) {
            None => Ok(None),
            Some(name) => Ok(Some(Listed {
                name: name.copy()?,
                kind: kind_shown(item),
            })),
        },
    }
}

/// Adds the line of a slot to the listing of a directory.
fn add_line(
    names: &mut NameList,
    path: &[Bytes],
    key: &[Bytes],
    slot: &Option<Item>,
) -> Result<(), AllocError>
    ensures { OnOk result
        (names.new ≡ names.old ++ option_to_list (listing path.now key.now slot.now)) }
{
    match line_of(path, key, slot)? {
        Some(line) => names.push(line),
        None => Ok(()),
    }
}

impl Table {
    /// The table of a new namespace, in which nothing stands.
    pub fn new(alloc: Global) -> Table
        ensures store { store_of result.slots.entries ≡ [] }
        ensures log { result.log.items ≡ [] }
    {
        Table {
            slots: BTreeMap::new(alloc),
            counts: BTreeMap::new(alloc),
            log: Vec::new(alloc),
        }
    }

    /// The names in a directory, in byte order.
    pub fn names(&self, path: &[Bytes]) -> Result<NameList, AllocError>
        ensures { IfOk result
            (λ names. names ≡ names_in (store_of self.now.slots.entries) path.now) }
    {
        let alloc = *self.log.allocator();
        let start = copy_of(alloc, path)?;
        let mut names = ListOf::new(alloc);
        for (key, slot) in slots_from(&self.slots, start) {
            if !is_inside(path, key.as_slice()) {
                break;
            }
            add_line(&mut names, path, key.as_slice(), slot)?;
        }
        Ok(names)
    }

    /// Whether a directory has as many names as it may have.
    pub fn is_full(&self, path: &[Bytes]) -> bool
        ensures { result
            ≡ nat_le most_names (length (names_in (store_of self.now.slots.entries) path.now)) }
    {
        MOST_NAMES <= count_in(&self.counts, path)
    }

    /// Whether a directory stands at the path.
    pub fn is_directory(&self, path: &[Bytes]) -> bool
        ensures { result ≡ is_directory (node_at (store_of self.now.slots.entries) path.now) }
    {
        match self.at(path) {
            Some(Item::Directory) => true,
            Some(Item::Value(_)) => false,
            Some(Item::Link(_)) => false,
            None => false,
        }
    }

    /// Whether a link stands at the path.
    pub fn is_link(&self, path: &[Bytes]) -> bool
        ensures { result ≡ is_link (node_at (store_of self.now.slots.entries) path.now) }
    {
        match self.at(path) {
            Some(Item::Link(_)) => true,
            Some(Item::Value(_)) => false,
            Some(Item::Directory) => false,
            None => false,
        }
    }

    /// Whether nothing stands at the path.
    pub fn is_free(&self, path: &[Bytes]) -> bool
        ensures { result ≡ is_none (node_at (store_of self.now.slots.entries) path.now) }
    {
        self.at(path).is_none()
    }

    /// The target of the link at the path, if one stands there.
    pub fn link(&self, path: &[Bytes]) -> Option<&Target>
        ensures { option_copied result
            ≡ link_target (node_at (store_of self.now.slots.entries) path.now) }
    {
        match self.at(path) {
            Some(Item::Link(target)) => Some(target),
            Some(Item::Value(_)) => None,
            Some(Item::Directory) => None,
            None => None,
        }
    }

    /// Takes away the path and all that lies below it.
    pub fn cut(&mut self, path: &[Bytes]) -> Result<(), AllocError>
        ensures cut { OnOk result (store_of self.new.slots.entries
            ≡ without (store_of self.old.slots.entries) path.now) }
        ensures before { undone self.new.log.items (store_of self.new.slots.entries)
            ≡ undone self.old.log.items (store_of self.old.slots.entries) }
    {
        let _count = self.slots.len();
        let alloc = *self.log.allocator();
        let keys = keys_within(alloc, &self.slots, path)?;
        for key in &keys {
            self.set(key.as_slice(), None)?;
        }
        Ok(())
    }

    /// What stands at the path.
    pub fn at(&self, path: &[Bytes]) -> Option<&Item>
        ensures { option_map node_of (option_copied result)
            ≡ node_at (store_of self.now.slots.entries) path.now }
    {
        item_in(&self.slots, path)
    }

    /// Puts an item at the path, or nothing, and logs what stood there.
    pub fn set(&mut self, path: &[Bytes], item: Option<Item>) -> Result<(), AllocError>
        ensures set { OnOk result (store_of self.new.slots.entries
            ≡ written (store_of self.old.slots.entries) path.now (option_map node_of item)) }
        ensures before { undone self.new.log.items (store_of self.new.slots.entries)
            ≡ undone self.old.log.items (store_of self.old.slots.entries) }
    {
        let _count = self.slots.len();
        let alloc = *self.log.allocator();
        let key = copy_of(alloc, path)?;
        let logged = copy_of(alloc, path)?;
        self.log.reserve(1)?;
        make_count(alloc, &mut self.counts, path)?;
        let stands = item.is_some();
        let was = self.slots.insert(key, item)?.flatten();
        recount(&mut self.counts, path, was.is_some(), stands);
        self.log.push_reserved(Change { path: logged, was });
        Ok(())
    }

    /// Takes back all changes that are logged.
    pub fn undo(&mut self)
        ensures undone { store_of self.new.slots.entries
            ≡ undone self.old.log.items (store_of self.old.slots.entries) }
        ensures log { self.new.log.items ≡ [] }
    {
        while let Some(change) = self.log.pop() {
            let _count = self.slots.len();
            let path = change.path.as_slice();
            let stood = item_in(&self.slots, path).is_some();
            recount(&mut self.counts, path, stood, change.was.is_some());
            replace(&mut self.slots, change.path, change.was);
        }
    }

    /// Forgets the log, and the slots that are empty.
    pub fn keep(&mut self)
        ensures same { store_of self.new.slots.entries ≡ store_of self.old.slots.entries }
        ensures log { self.new.log.items ≡ [] }
    {
        let alloc = *self.log.allocator();
        let log = mem::replace(&mut self.log, Vec::new(alloc));
        for change in log {
            purge(&mut self.slots, change.path.as_slice());
            forget_count(&mut self.counts, change.path.as_slice());
        }
    }
}
