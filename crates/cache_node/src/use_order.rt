//! The clean contents in the order of their use.
ghost use Rattle.std.specs.Prelude.{◌≡◌, [], ◌∷◌, None, IfOk, IfErr, OnOk, OnErr, IfSome, IsSome, is_some, option_copied, unwrap_or, filter, not, reverse};
ghost use Rattle.std.specs.Option.{option_map_or};
ghost use Rattle.std.specs.List.{IsDistinct};
ghost use Rattle.std.specs.Map.{keys_of, lookup, remove_entry, set_value};
ghost use Rattle.fl_digest.specs.Reference.{same_reference};
ghost use Rattle.cache_node.specs.Order.{Names, unpinned, pinned, released, is_pinned, used, unpinned_bytes, filled, stays_within, remaining, dropped, without};

use crate::UNPINNED_LIMIT;
use crate::content::Held;
use fl_digest::{BlobRef, RefList};
use lists::Bytes;
use lru::LruCache;
use std::alloc::{AllocError, AllocFailed, Global};
use std::marker::Model;

/// The clean contents and the sums of their bytes, which contracts see as a list, the most recently
/// used first.
#[derive(Drop)]
pub(crate) struct UseOrder {
    entries: LruCache<BlobRef, Held>,
    /// The bytes of all entries, and of those that aren't pinned.
    total: u64,
    loose: u64,
}

impl Model for UseOrder {
    ghost use Rattle.std.specs.Prelude.{List, ◌≡◌, ◌^◌, ◌-◌};
    ghost use Rattle.fl_digest.specs.declared.BlobRef.{BlobRef};
    ghost use Rattle.cache_node.specs.declared.content.Held.{Held};
    ghost use Rattle.cache_node.specs.Kept.{IsKept};

    ghost Value = { List (BlobRef × Held) };

    ghost view = { λ o. o.entries.entries };

    ghost invariant = { λ o. IsKept o.entries.entries o.total o.loose
        × (o.entries.cap ≡ 2 ^ 64 - 1) };
}

impl UseOrder {
    /// No contents.
    pub(crate) fn new(alloc: Global) -> Result<UseOrder, AllocError>
        ensures { IfOk result (λ order. order ≡ []) }
    {
        let entries = LruCache::unbounded(alloc)?;
        Ok(UseOrder {
            entries,
            total: 0,
            loose: 0,
        })
    }

    /// Each reference stands once.
    pub(crate) fn are_once(&self)
        ensures { IsDistinct same_reference (keys_of self.now) }
    {
        let _entries = &self.entries;
    }

    /// The content under a reference.
    pub(crate) fn get(&self, reference: &BlobRef) -> Option<&Held>
        ensures found { option_copied result ≡ lookup (same_reference reference.now) self.now }
        ensures named { IfSome result (λ held. Names reference.now held.now.bytes) }
    {
        self.entries.peek(reference)
    }

    /// Adds a content as the most recently used one, or hands it back.
    pub(crate) fn add(&mut self, reference: BlobRef, held: Held) -> Result<(), AllocFailed<Held>>
        requires absent { lookup (same_reference reference) self.old ≡ None }
        requires named { Names reference held.bytes }
        ensures added { OnOk result (self.new ≡ (reference, held) ∷ self.old) }
        ensures kept { OnErr result (self.new ≡ self.old) }
        ensures back { IfErr result (λ refused. refused.value ≡ held) }
    {
        let Some(total) = self.total.checked_add(held.size()) else {
            return Err(AllocFailed { value: held });
        };
        // Below its capacity a put drops nothing.
        let count = self.entries.len();
        prove!(count < usize::MAX);
        let loose = self.loose + held.unpinned_size();
        match self.entries.put(reference, held) {
            Ok(_) => {
                self.total = total;
                self.loose = loose;
                Ok(())
            }
            Err(refused) => Err(AllocFailed {
                value: refused.value.1,
            }),
        }
    }

    /// Takes a content out.
    pub(crate) fn remove(&mut self, reference: &BlobRef)
        ensures { self.new ≡ remove_entry (same_reference reference.now) self.old }
    {
        if let Some(held) = self.entries.pop(reference) {
            self.total -= held.size();
            self.loose -= held.unpinned_size();
        }
    }

    /// Makes a content the most recently used one.
    fn touch(&mut self, reference: &BlobRef)
        ensures { self.new ≡ option_map_or (λ held. used reference.now held self.old)
            (lookup (same_reference reference.now) self.old) self.old }
    {
        self.entries.promote(reference);
    }

    /// Pins a content, which is a use.
    pub(crate) fn pin(&mut self, reference: &BlobRef) -> bool
        ensures found { result ≡ is_some (lookup (same_reference reference.now) self.old) }
        ensures pinned { self.new ≡ option_map_or (λ held. used reference.now
            (pinned held) self.old) (lookup (same_reference reference.now) self.old) self.old }
    {
        let Some(held) = self.entries.get_mut(reference) else {
            return false;
        };
        let size = held.unpinned_size();
        held.pin();
        self.loose -= size;
        true
    }

    /// Takes a pin of a content back, which is no use.
    pub(crate) fn unpin(&mut self, reference: &BlobRef) -> bool
        ensures found { result ≡ is_some (lookup (same_reference reference.now) self.old) }
        ensures released { self.new ≡ option_map_or
            (λ held. set_value (same_reference reference.now) self.old (released held))
            (lookup (same_reference reference.now) self.old) self.old }
    {
        let Some(held) = self.entries.peek_mut(reference) else {
            return false;
        };
        let before = held.unpinned_size();
        held.release();
        let after = held.unpinned_size();
        self.loose = self.loose - before + after;
        true
    }

    /// The references that go once a content is used, where so many unpinned bytes are there then.
    /// The content may be new.
    fn surplus(&self, reference: &BlobRef, held: &Held, loose: u64) -> Result<RefList, AllocError>
        requires { loose ≡ unpinned_bytes (used reference.now held.now self.now) }
        ensures { IfOk result (λ gone. gone
            ≡ dropped (stays_within UNPINNED_LIMIT) (used reference.now held.now self.now)) }
    {
        let mut gone = RefList::new(*self.entries.allocator());
        let mut left = loose;
        let mut walk = self.entries.iter();
        while UNPINNED_LIMIT < left {
            let Some((key, other)) = walk.next_back() else {
                gone.push(*reference)?;
                return Ok(gone);
            };
            if *reference != *key && !other.is_pinned() {
                gone.push(*key)?;
                left -= other.size();
            }
        }
        Ok(gone)
    }

    /// Takes contents out, one after another.
    fn remove_all(&mut self, gone: &RefList)
        ensures { self.new ≡ without gone.now self.old }
    {
        for reference in gone.as_slice() {
            self.remove(reference);
        }
    }

    /// Uses the content under a reference, which is new where there is none. What is over the limit
    /// then goes.
    pub(crate) fn fill(&mut self, reference: &BlobRef, bytes: Bytes) -> Result<RefList, AllocError>
        requires { Names reference.now bytes }
        ensures gone { IfOk result (λ gone. gone
            ≡ dropped (stays_within UNPINNED_LIMIT) (filled reference.now bytes self.old)) }
        ensures rest { OnOk result (self.new
            ≡ remaining (stays_within UNPINNED_LIMIT) (filled reference.now bytes self.old)) }
        ensures kept { OnErr result (self.new ≡ self.old) }
    {
        if let Some(held) = self.entries.peek(reference) {
            let gone = self.surplus(reference, held, self.loose)?;
            self.touch(reference);
            self.remove_all(&gone);
            return Ok(gone);
        }
        let held = Held::new(bytes);
        let Some(loose) = self.loose.checked_add(held.size()) else {
            return Err(AllocError);
        };
        let gone = self.surplus(reference, &held, loose)?;
        self.add(*reference, held)?;
        self.remove_all(&gone);
        Ok(gone)
    }

    /// Drops what isn't pinned, and lists it, the least recently used first.
    pub(crate) fn drop_unpinned(&mut self) -> Result<RefList, AllocError>
        ensures gone { IfOk result
            (λ gone. gone ≡ keys_of (filter (λ e. not (is_pinned e.1)) (reverse self.old))) }
        ensures rest { OnOk result (self.new ≡ filter (λ e. is_pinned e.1) self.old) }
        ensures kept { OnErr result (self.new ≡ self.old) }
    {
        let mut gone = RefList::new(*self.entries.allocator());
        let mut walk = self.entries.iter();
        while let Some((key, held)) = walk.next_back() {
            if !held.is_pinned() {
                gone.push(*key)?;
            }
        }
        self.remove_all(&gone);
        Ok(gone)
    }
}
