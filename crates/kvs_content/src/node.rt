//! What one broker keeps of contents.
ghost use Rattle.std.specs.Prelude.{◌≡◌, ◌≢◌, ◌↔◌, ◌++◌, ◌∷◌, [], Some, None, IfOk, IfSome, OnOk, IsTrue, option_copied, option_map, is_some};
ghost use Rattle.cache_node.specs.Order.{Names};
ghost use Rattle.cache_node.specs.Cache.{acknowledged, any_at, clean_at, dirty_at, stored};
ghost use Rattle.kvs_content.specs.Messages.{same_bytes};
ghost use Rattle.kvs_content.specs.Node.{IsDropping, IsFlush, IsGetting, dropping, empty_node, getting, rejected, with_cache};

use cache_node::CacheNode;
use fl_digest::{BlobRef, RefList};
use kvs_rules::KvsEvent;
use lists::{Bytes, ListOf};
use std::alloc::{AllocError, Global};
use std::collections::VecDeque;
use std::marker::Model;

/// What happens in the service, the oldest first.
pub type KvsEvents = ListOf<KvsEvent>;

/// A broker's cache, and the references that were refused it and no flush has told yet, the oldest
/// first.
#[derive(Drop)]
pub struct Node {
    cache: CacheNode,
    refused: VecDeque<BlobRef>,
}

impl Model for Node {
    ghost use Rattle.kvs_content.specs.Node.{NodeValue};

    ghost Value = { NodeValue };

    ghost view = { λ n. record { cache = n.cache; refused = n.refused.items } };
}

/// What a flush is told: nothing while a content is dirty, then the first reference that was
/// refused, or that all went well.
#[derive(Clone, Copy, Debug, PartialEq, Eq)]
pub enum Flush {
    Waits,
    Clashed(BlobRef),
    Flushed,
}

/// The event of a broker that gets a content, where it does.
fn got(alloc: Global, broker: u32, reference: BlobRef, gets: bool) -> Result<KvsEvents, AllocError>
    ensures { IfOk result (λ events. events ≡ getting broker reference gets) }
{
    let mut events = ListOf::new(alloc);
    if gets {
        events.push(KvsEvent::Got { broker, reference })?;
    }
    Ok(events)
}

/// Adds the drops of these references at a broker.
fn add_drops(events: &mut KvsEvents, broker: u32, gone: &RefList) -> Result<(), AllocError>
    ensures { OnOk result (events.new ≡ events.old ++ dropping broker gone.now) }
{
    for reference in gone.as_slice() {
        events.push(KvsEvent::Dropped {
            broker,
            reference: *reference,
        })?;
    }
    Ok(())
}

impl Node {
    /// A broker that keeps nothing.
    pub fn new(alloc: Global) -> Result<Node, AllocError>
        ensures { IfOk result (λ node. node ≡ empty_node) }
    {
        let cache = CacheNode::new(alloc)?;
        Ok(Node {
            cache,
            refused: VecDeque::new(alloc),
        })
    }

    /// The bytes under a reference, clean or dirty.
    pub fn any(&self, reference: &BlobRef) -> Option<&Bytes>
        ensures found { option_copied result ≡ any_at reference.now self.now.cache }
        ensures named { IfSome result (λ bytes. Names reference.now bytes.now) }
    {
        self.cache.any(reference)
    }

    /// The clean bytes under a reference.
    pub fn clean(&self, reference: &BlobRef) -> Option<&Bytes>
        ensures found { option_copied result ≡ clean_at reference.now self.now.cache }
        ensures named { IfSome result (λ bytes. Names reference.now bytes.now) }
    {
        self.cache.clean(reference)
    }

    /// Whether the clean bytes under a reference are these, where there are some.
    pub fn has_clean(&self, reference: &BlobRef, bytes: &Bytes) -> Option<bool>
        ensures { result ≡ option_map (λ kept. same_bytes kept bytes.now)
            (clean_at reference.now self.now.cache) }
    {
        match self.cache.clean(reference) {
            Some(kept) => Some(*kept == *bytes),
            None => None,
        }
    }

    /// Whether these bytes are dirty under a reference.
    pub fn is_dirty(&self, reference: &BlobRef, bytes: &Bytes) -> bool
        ensures { IsTrue result ↔ (dirty_at reference.now self.now.cache ≡ Some bytes.now) }
    {
        if self.cache.clean(reference).is_some() {
            return false;
        }
        match self.cache.any(reference) {
            Some(kept) => *kept == *bytes,
            None => false,
        }
    }

    /// Whether a content is dirty.
    pub fn has_dirty(&self) -> bool
        ensures { IsTrue result ↔ (self.now.cache.dirty ≢ []) }
    {
        self.cache.has_dirty()
    }

    /// Keeps bytes as dirty, where there are none under the reference.
    pub fn put_dirty(&mut self, reference: BlobRef, bytes: Bytes) -> Result<(), AllocError>
        requires { Names reference bytes }
        ensures { OnOk result (self.new
            ≡ with_cache (stored reference bytes self.old.cache) self.old) }
    {
        self.cache.put_dirty(reference, bytes)
    }

    /// Keeps bytes as clean, which the broker gets where it hadn't them so, and drops what goes for
    /// them.
    pub fn get(
        &mut self,
        alloc: Global,
        broker: u32,
        reference: BlobRef,
        bytes: Bytes,
    ) -> Result<KvsEvents, AllocError>
        requires { Names reference bytes }
        ensures { IfOk result
            (λ events. IsGetting broker reference bytes self.old self.new events) }
    {
        self.cache.is_sound();
        let gets = self.cache.clean(&reference).is_none();
        let gone = self.cache.fill(reference, bytes)?;
        let mut events = got(alloc, broker, reference, gets)?;
        add_drops(&mut events, broker, &gone)?;
        Ok(events)
    }

    /// Makes a dirty content clean, which the broker gets then.
    pub fn accept(
        &mut self,
        alloc: Global,
        broker: u32,
        reference: BlobRef,
    ) -> Result<KvsEvents, AllocError>
        ensures node { OnOk result (self.new
            ≡ with_cache (acknowledged reference self.old.cache) self.old) }
        ensures out { OnOk result (dirty_at reference self.new.cache ≡ None) }
        ensures told { IfOk result (λ events. events
            ≡ getting broker reference (is_some (dirty_at reference self.old.cache))) }
    {
        self.cache.is_sound();
        let gets = self.cache.ack(&reference)?;
        got(alloc, broker, reference, gets)
    }

    /// Takes a dirty content out that was refused, which the next flush tells.
    pub fn reject(&mut self, reference: BlobRef) -> Result<(), AllocError>
        ensures node { OnOk result (self.new ≡ rejected reference self.old) }
        ensures out { OnOk result (dirty_at reference self.new.cache ≡ None) }
    {
        self.cache.is_sound();
        if self.cache.nack(&reference).is_some() {
            self.refused.push_back(reference)?;
        }
        Ok(())
    }

    /// Notes a reference that was refused, which the next flush tells.
    pub fn note(&mut self, reference: BlobRef) -> Result<(), AllocError>
        ensures { OnOk result (self.new
            ≡ record self.old { refused = self.old.refused ++ reference ∷ [] }) }
    {
        self.refused.push_back(reference)?;
        Ok(())
    }

    /// Drops each clean content that isn't pinned.
    pub fn drop_clean(&mut self, alloc: Global, broker: u32) -> Result<KvsEvents, AllocError>
        ensures { IfOk result (λ events. IsDropping broker self.old self.new events) }
    {
        let mut events = ListOf::new(alloc);
        let gone = self.cache.drop_clean()?;
        add_drops(&mut events, broker, &gone)?;
        Ok(events)
    }

    /// What a flush is told now. A reference that it tells is taken off.
    pub fn flush(&mut self) -> Flush
        ensures { IsFlush self.old self.new result }
    {
        if self.cache.has_dirty() {
            return Flush::Waits;
        }
        if let Some(reference) = self.refused.pop_front() {
            return Flush::Clashed(reference);
        }
        Flush::Flushed
    }
}
