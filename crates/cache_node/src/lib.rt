//! A broker's cache of contents (Flux RFC 10): dirty ones, which its parent hasn't acknowledged,
//! and clean ones.
#![tactic(auto)]

ghost use Rattle.std.specs.Prelude.{◌≡◌, ◌≢◌, ◌≤◌, ◌↔◌, [], None, IfOk, OnOk, OnErr, IfSome, IsSome, IsTrue, is_some, option_copied, filter, not, reverse};
ghost use Rattle.std.specs.Map.{keys_of, lookup, set_value};
ghost use Rattle.lru.specs.LruCache.{lru_cache};
ghost use Rattle.fl_digest.specs.Reference.{same_reference};
ghost use Rattle.cache_node.specs.Order.{Names, is_pinned, unpinned_bytes, filled, stays_within, remaining, dropped};
ghost use Rattle.cache_node.specs.Cache.{HasDropped, IsSound, empty_cache, dirty_at, held_at, clean_at, any_at, stored, refused, acknowledged, with_clean, with_pin, without_pin};

mod content;
mod use_order;

pub use content::Held;
use fl_digest::{BlobRef, RefList};
use lists::Bytes;
use lru::LruCache;
use std::alloc::{AllocError, Global};
use std::marker::Model;
use std::mem;
use use_order::UseOrder;

/// The most bytes of clean contents that aren't pinned, after each fill.
pub const UNPINNED_LIMIT: u64 = 4 * 1024 * 1024;

/// The contents of a broker. Contracts see the dirty ones, the last put first, and the clean ones,
/// the most recently used first.
#[derive(Drop)]
pub struct CacheNode {
    dirty: LruCache<BlobRef, Bytes>,
    clean: UseOrder,
}

impl Model for CacheNode {
    ghost use Rattle.std.specs.Prelude.{◌≡◌, ◌^◌, ◌-◌};
    ghost use Rattle.cache_node.specs.Cache.{Cache, IsSound};

    ghost Value = { Cache };

    ghost view = { λ c. record { dirty = c.dirty.entries; clean = c.clean } };

    ghost invariant = { λ c. IsSound c.dirty.entries c.clean × (c.dirty.cap ≡ 2 ^ 64 - 1) };
}

/// Puts other bytes under a reference that is there, and hands those back that were.
fn exchange(
    dirty: &mut LruCache<BlobRef, Bytes>,
    reference: &BlobRef,
    bytes: Bytes,
) -> Option<Bytes>
    ensures was { result ≡ lookup (same_reference reference.now) dirty.old.entries }
    ensures entries { dirty.new ≡ lru_cache
        (set_value (same_reference reference.now) dirty.old.entries bytes) dirty.old.cap }
{
    let kept = dirty.peek_mut(reference)?;
    Some(mem::replace(kept, bytes))
}

impl CacheNode {
    /// A cache of nothing.
    pub fn new(alloc: Global) -> Result<CacheNode, AllocError>
        ensures { IfOk result (λ cache. cache ≡ empty_cache) }
    {
        let dirty = LruCache::unbounded(alloc)?;
        let clean = UseOrder::new(alloc)?;
        Ok(CacheNode { dirty, clean })
    }

    /// Each dirty content stands once, under the digest of its bytes, and isn't clean too.
    pub fn is_sound(&self)
        ensures { IsSound self.now.dirty self.now.clean }
    {
        let _dirty = &self.dirty;
    }

    /// Keeps bytes as dirty. A content that is there under the reference stays, dirty or clean.
    pub fn put_dirty(&mut self, reference: BlobRef, bytes: Bytes) -> Result<(), AllocError>
        requires { Names reference bytes }
        ensures stored { OnOk result (self.new ≡ stored reference bytes self.old) }
        ensures kept { OnErr result (self.new ≡ self.old) }
    {
        if self.any(&reference).is_some() {
            return Ok(());
        }
        // Below its capacity a put drops nothing.
        let count = self.dirty.len();
        prove!(count < usize::MAX);
        self.dirty.put(reference, bytes)?;
        Ok(())
    }

    /// Makes a dirty content clean, which is a use, and says whether one was there.
    pub fn ack(&mut self, reference: &BlobRef) -> Result<bool, AllocError>
        ensures found { IfOk result (λ found. found ≡ is_some (dirty_at reference.now self.old)) }
        ensures clean { OnOk result (self.new ≡ acknowledged reference.now self.old) }
        ensures kept { OnErr result (self.new ≡ self.old) }
    {
        let blank = Bytes::new(*self.dirty.allocator());
        let Some(bytes) = exchange(&mut self.dirty, reference, blank) else {
            return Ok(false);
        };
        match self.clean.add(*reference, Held::new(bytes)) {
            Ok(()) => {
                self.dirty.pop(reference);
                Ok(true)
            }
            Err(refused) => {
                exchange(&mut self.dirty, reference, refused.value.bytes);
                Err(AllocError)
            }
        }
    }

    /// Takes a dirty content out. It takes no memory.
    pub fn nack(&mut self, reference: &BlobRef) -> Option<Bytes>
        ensures taken { result ≡ dirty_at reference.now self.old }
        ensures rest { self.new ≡ refused reference.now self.old }
    {
        self.dirty.pop(reference)
    }

    /// Keeps bytes as clean, in place of dirty ones, which is a use. A clean content that is there
    /// stays. Then the least recently used unpinned contents go that are over the limit, and are
    /// listed as they go.
    pub fn fill(&mut self, reference: BlobRef, bytes: Bytes) -> Result<RefList, AllocError>
        requires { Names reference bytes }
        ensures gone { IfOk result (λ gone. gone
            ≡ dropped (stays_within UNPINNED_LIMIT) (filled reference bytes self.old.clean)) }
        ensures rest { OnOk result (self.new ≡ with_clean (remaining (stays_within UNPINNED_LIMIT)
            (filled reference bytes self.old.clean)) (refused reference self.old)) }
        ensures limit { OnOk result (unpinned_bytes self.new.clean ≤ UNPINNED_LIMIT) }
        ensures left { IfOk result
            (λ gone. HasDropped (filled reference bytes self.old.clean) self.new.clean gone) }
        ensures kept { OnErr result (self.new ≡ self.old) }
    {
        self.clean.are_once();
        let gone = self.clean.fill(&reference, bytes)?;
        self.dirty.pop(&reference);
        Ok(gone)
    }

    /// The clean bytes under a reference. It takes no memory.
    pub fn clean(&self, reference: &BlobRef) -> Option<&Bytes>
        ensures found { option_copied result ≡ clean_at reference.now self.now }
        ensures named { IfSome result (λ bytes. Names reference.now bytes.now) }
        ensures never_dirty { IsSome result → dirty_at reference.now self.now ≡ None }
    {
        self.clean.get(reference).map(|held| &held.bytes)
    }

    /// The bytes under a reference, clean or dirty. It takes no memory.
    pub fn any(&self, reference: &BlobRef) -> Option<&Bytes>
        ensures found { option_copied result ≡ any_at reference.now self.now }
        ensures named { IfSome result (λ bytes. Names reference.now bytes.now) }
    {
        match self.clean(reference) {
            Some(bytes) => Some(bytes),
            None => self.dirty.peek(reference),
        }
    }

    /// Whether a content is dirty.
    pub fn has_dirty(&self) -> bool
        ensures { IsTrue result ↔ (self.now.dirty ≢ []) }
    {
        !self.dirty.is_empty()
    }

    /// Pins a clean content, which is a use, and says whether one was there. It takes no memory.
    /// The count of its pins stays at its last number for good.
    pub fn pin(&mut self, reference: &BlobRef) -> bool
        ensures found { result ≡ is_some (held_at reference.now self.old) }
        ensures pinned { self.new ≡ with_pin reference.now self.old }
    {
        self.clean.pin(reference)
    }

    /// Takes a pin of a clean content back, if it has one, and says whether the content was there.
    /// It takes no memory.
    pub fn unpin(&mut self, reference: &BlobRef) -> bool
        ensures found { result ≡ is_some (held_at reference.now self.old) }
        ensures released { self.new ≡ without_pin reference.now self.old }
    {
        self.clean.unpin(reference)
    }

    /// Drops each clean content that isn't pinned, and lists them, the least recently used first.
    pub fn drop_clean(&mut self) -> Result<RefList, AllocError>
        ensures gone { IfOk result
            (λ gone. gone ≡ keys_of (filter (λ e. not (is_pinned e.1)) (reverse self.old.clean))) }
        ensures rest { OnOk result
            (self.new ≡ with_clean (filter (λ e. is_pinned e.1) self.old.clean) self.old) }
        ensures left { IfOk result (λ gone. HasDropped self.old.clean self.new.clean gone) }
        ensures kept { OnErr result (self.new ≡ self.old) }
    {
        self.clean.are_once();
        self.clean.drop_unpinned()
    }
}
