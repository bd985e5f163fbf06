//! Walks over a broker's cache of stored texts (Flux RFC 11).
#![tactic(auto)]

ghost use Rattle.std.specs.Prelude.{◌≡◌, [], false, Contains, IfOk, OnOk, OnErr, IsTrue};
ghost use Rattle.fl_digest.specs.declared.Hash.{Hash};
ghost use Rattle.kvs_model.specs.Store.{Store};
ghost use Rattle.tree_walk.specs.Pins.{AddsOnce, AreFresh, IsOnce};
ghost use Rattle.tree_walk.specs.Walks.{Reads, GoesOn, Tells, without_pins, with_pins};

use cache_node::CacheNode;
use fl_digest::BlobRef;
use kvs_txn::{Path, Query};
use lists::Copied;
use std::alloc::{AllocError, Global};
use std::marker::Model;
pub use tree_look::Advance;
use tree_look::look_in;

/// A walk from a root over the clean contents of a cache. What it passes stays pinned until it is
/// finished.
#[derive(Drop)]
pub struct Cursor {
    alloc: Global,
    root: BlobRef,
    asked: Query,
    path: Path,
    pinned: Vec<BlobRef>,
}

impl Model for Cursor {
    ghost use Rattle.tree_walk.specs.Walks.{Walk};

    ghost Value = { Walk };

    ghost view = { λ c. record {
      root = c.root;
      asked = c.asked;
      path = c.path;
      pinned = c.pinned.items;
    } };
}

/// Whether a reference is among these.
fn has(references: &[BlobRef], reference: &BlobRef) -> bool
    ensures there { IsTrue result → Contains references.now reference.now }
    ensures none { result ≡ false → Contains references.now reference.now → ⊥ }
{
    references.contains(reference)
}

/// Adds a reference to those that are to be pinned, if it is neither among them nor pinned.
fn add_once(
    pinned: &[BlobRef],
    fresh: &mut Vec<BlobRef>,
    reference: BlobRef,
) -> Result<(), AllocError>
    ensures { OnOk result (AddsOnce pinned.now fresh.old.items fresh.new.items reference) }
{
    if has(pinned, &reference) {
        return Ok(());
    }
    if has(fresh.as_slice(), &reference) {
        return Ok(());
    }
    fresh.push(reference)?;
    Ok(())
}

/// The references that a walk has passed and not pinned yet, each once.
fn unpinned(
    alloc: Global,
    pinned: &[BlobRef],
    passed: &[BlobRef],
) -> Result<Vec<BlobRef>, AllocError>
    ensures { IfOk result (λ fresh. AreFresh pinned.now passed.now fresh.items) }
{
    let mut fresh = Vec::new(alloc);
    for reference in passed {
        add_once(pinned, &mut fresh, *reference)?;
    }
    Ok(fresh)
}

/// Pins contents, one after another.
fn pin(cache: &mut CacheNode, references: &[BlobRef])
    ensures { cache.new ≡ with_pins references.now cache.old }
{
    for reference in references {
        cache.pin(reference);
    }
}

impl Cursor {
    /// A walk that has passed nothing.
    pub fn new(
        alloc: Global,
        root: BlobRef,
        asked: Query,
        path: &Path,
    ) -> Result<Cursor, AllocError>
        ensures { IfOk result
            (λ c. c ≡ record { root = root; asked = asked; path = path.now; pinned = [] }) }
    {
        Ok(Cursor {
            alloc,
            root,
            asked,
            path: Copied::copy(path)?,
            pinned: Vec::new(alloc),
        })
    }

    /// Walks on, over contents that are clean in this cache, and pins those that it passes.
    /// It walks from the root each time: what it has passed is pinned, and so is clean still.
    /// A text that tells no directory counts as one of a directory without names.
    pub fn advance(&mut self, cache: &mut CacheNode) -> Result<Advance, AllocError>
        ensures on { OnOk result (GoesOn self.old self.new cache.old cache.new) }
        ensures kept { OnErr result (self.new ≡ self.old) }
        ensures cache { OnErr result (cache.new ≡ cache.old) }
        ensures once { OnOk result (IsOnce self.old.pinned → IsOnce self.new.pinned) }
        ensures told { (hash : Hash) (st : Store) → Reads hash st self.old.root cache.old
            → IfOk result (Tells hash st self.old self.new cache.new) }
    {
        let mut passed = Vec::new(self.alloc);
        let path = self.path.as_slice();
        let told = look_in(
            self.alloc,
            &*cache,
            &self.root,
            self.asked,
            path,
            &mut passed,
        )?;
        let fresh = unpinned(self.alloc, self.pinned.as_slice(), passed.as_slice())?;
        self.pinned.extend_from_slice(fresh.as_slice())?;
        pin(cache, fresh.as_slice());
        Ok(told)
    }

    /// Unpins what was passed.
    pub fn finish(self, cache: &mut CacheNode)
        ensures { cache.new ≡ without_pins self.pinned cache.old }
    {
        for reference in self.pinned.as_slice() {
            cache.unpin(reference);
        }
    }
}
