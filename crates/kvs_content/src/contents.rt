//! The contents of an instance, at all brokers.
ghost use Rattle.std.specs.Prelude.{◌≡◌, ◌≢◌, ℕ, ◌+◌, ◌-◌, ◌*◌, ◌<◌, ◌≤◌, ◌↔◌, ◌++◌, ◌∷◌, [], true, ◌⊎◌, IsTrue, IsSome, IfOk, IfSome, OnOk, List, Contains, Some, None, is_some, length, map, option_map, slice_index_or, slice_set, sum_by};
ghost use Rattle.std.specs.List.{AllByRecursion as Each, list_any};
ghost use Rattle.fl_digest.specs.declared.BlobRef.{BlobRef as Reference};
ghost use Rattle.fl_digest.specs.Reference.{reference_of};
ghost use Rattle.blob_store.specs.Blobs.{blob_at};
ghost use Rattle.cache_node.specs.Order.{Names};
ghost use Rattle.cache_node.specs.Cache.{any_at, clean_at, dirty_at};
ghost use Rattle.kvs_txn.specs.declared.txn.By.{By as Command};
ghost use Rattle.kvs_rules.specs.Log.{Happened, Log, same_command};
ghost use Rattle.kvs_rules.specs.Namespaces.{Request as Asked, Setting};
ghost use Rattle.kvs_rules.specs.Brokers.{IsContent, has_got, holds, parent};
ghost use Rattle.kvs_rules.specs.declared.events.KvsEvent.TheVariants as event;
ghost use Rattle.kvs_content.specs.Messages.{AreSettled, IsAbove, deliveries_left, is_offer_on, is_want_on, loads_of, offer_of, offers_left, outcome, same_bytes, want_of, wants_left};
ghost use Rattle.kvs_content.specs.Node.{GetsOrDrops, IsDropping, IsFlush, IsGetting, empty_node};
ghost use Rattle.kvs_content.specs.Steps.{AreAlike, AreLinksEmpty, IsLighter, answered, can_deliver, waiting};
ghost use Rattle.kvs_content.specs.Sound.{ArePlaced, IsCarried, IsDirty, IsGiftNamed, IsGiftSame, IsSoundBut, IsSoundContent, IsWantNamed, IsWantSame};
ghost use Rattle.kvs_content.specs.Value.{node_at, size_of};
ghost use Rattle.kvs_content.specs.Agrees.{AgreesContent, Follows, FollowsAlways, GiftAgrees, IsBlob, IsFound, IsFrom, IsKept, IsLoad, IsNoted, IsRefused, IsRuled, MayAnswer, MayLoad, WantAgrees};

use crate::node::{Flush, KvsEvents, Node};
use crate::offers::{Offer, OfferStage, first_offer, is_offered, settle};
use crate::outcomes::{Answer, Delivery, Load, Loaded, Stored};
use crate::wants::{Gift, Want, WantStage, bytes_of, first_want, is_waiting, is_wanted, toward};
use blob_store::{BlobStore, PutFault};
use fl_digest::{BlobRef, Hash};
use kvs_txn::By;
use lists::{Bytes, Copied, ListOf};
use std::alloc::{AllocError, Global};
use std::marker::Model;

/// Rank 0's store, what each broker keeps, and the messages between brokers. After want of memory
/// nothing is said of it.
#[derive(Drop)]
pub struct Contents {
    alloc: Global,
    fanout: u32,
    hash: Hash,
    store: BlobStore,
    nodes: Vec<Node>,
    offers: Vec<Offer>,
    wants: Vec<Want>,
}

impl Model for Contents {
    ghost use Rattle.kvs_content.specs.Value.{ContentValue};

    ghost Value = { ContentValue };

    ghost view = { λ c. record {
      fanout = c.fanout;
      hash = c.hash;
      store = c.store;
      nodes = c.nodes.items;
      offers = c.offers.items;
      wants = c.wants.items;
    } };
}

/// What became of a content that came to rank 0.
#[derive(Drop)]
struct Taken {
    accepted: bool,
    events: KvsEvents,
}

/// What a broker found under a reference: at rank 0 there may be nothing, and any other broker that
/// has nothing asks on.
#[derive(Drop)]
struct Found {
    stage: WantStage,
    events: KvsEvents,
}

impl Contents {
    /// No contents, at so many brokers.
    pub fn new(alloc: Global, size: u32, fanout: u32, hash: Hash) -> Result<Contents, AllocError>
        requires size { 1 ≤ size }
        requires fanout { 0 < fanout }
        ensures setting { IfOk result (λ c. (size_of c ≡ size) × (c.fanout ≡ fanout)
            × (c.hash ≡ hash)) }
        ensures empty { IfOk result (λ c. (c.store ≡ []) × (c.offers ≡ []) × (c.wants ≡ [])) }
        ensures nodes { IfOk result (λ c. (broker : ℕ) → node_at c broker ≡ empty_node) }
        ensures sound { IfOk result IsSoundContent }
        ensures agrees { IfOk result (λ c. (set : Setting) → set.size ≡ size → set.fanout ≡ fanout
            → set.hash ≡ hash → AgreesContent c set []) }
    {
        let mut nodes = Vec::new(alloc);
        for broker in 0..size {
            let _ = broker;
            nodes.push(Node::new(alloc)?)?;
        }
        Ok(Contents {
            alloc,
            fanout,
            hash,
            store: BlobStore::new(alloc),
            nodes,
            offers: Vec::new(alloc),
            wants: Vec::new(alloc),
        })
    }

    /// Whether a message is on the link between two brokers.
    pub fn can_deliver(&self, from: u32, to: u32) -> bool
        requires { IsSoundContent self.now }
        ensures { result ≡ can_deliver self.now from to }
    {
        is_offered(&self.offers, self.fanout, from, to)
            || is_wanted(&self.wants, self.fanout, from, to)
    }

    /// Whether a broker has no dirty content.
    pub fn is_flushed(&self, broker: u32) -> bool
        requires { broker < size_of self.now }
        ensures { IsTrue result ↔ ((node_at self.now broker).cache.dirty ≡ []) }
    {
        !self.nodes[broker as usize].has_dirty()
    }

    /// Whether the load of a command waits.
    pub fn is_waiting(&self, by: By) -> bool
        ensures { result ≡ list_any (λ want. same_command want.by by) self.now.wants }
    {
        is_waiting(&self.wants, by)
    }

    /// Stores bytes at a broker: rank 0 keeps them, and any other broker offers them to the one
    /// above.
    pub fn store(&mut self, broker: u32, bytes: Bytes) -> Result<Stored, AllocError>
        requires sound { IsSoundContent self.old }
        requires within { broker < size_of self.old }
        ensures sound { OnOk result (IsSoundContent self.new) }
        ensures alike { OnOk result (AreAlike self.old self.new) }
        ensures wants { OnOk result (self.new.wants ≡ self.old.wants) }
        ensures reference { IfOk result (λ made. made.reference
            ≡ reference_of self.old.hash bytes) }
        ensures made { IfOk result (λ made. Each (GetsOrDrops broker) made.events) }
        ensures follows { IfOk result (λ made. (set : Setting) (log : Log)
            → AgreesContent self.old set log → IsContent set log bytes
            → Follows self.old self.new made.events set log) }
        ensures kept { IfOk result (λ made. (set : Setting) (log : Log)
            → AgreesContent self.old set log → IsContent set log bytes
            → IsKept self.new set (log ++ map Happened made.events) broker made.reference) }
        ensures noted { IfOk result (λ made. (set : Setting) (log : Log)
            → AgreesContent self.old set log → IsContent set log bytes → broker ≡ 0
            → IsTrue (has_got (log ++ map Happened made.events) 0 made.reference)
            ⊎ IsNoted self.new 0 made.reference) }
    {
        let reference = BlobRef::of(self.hash, bytes.as_slice());
        if broker == 0 {
            let taken = self.take_up(reference, bytes)?;
            let events = taken.events;
            if taken.accepted {
                return Ok(Stored { reference, events });
            }
            self.nodes[0].note(reference)?;
            return Ok(Stored { reference, events });
        }
        self.offer(broker, reference, bytes)?;
        let events = ListOf::new(self.alloc);
        Ok(Stored { reference, events })
    }

    /// Keeps a content at rank 0, unless other bytes stand there under the reference.
    fn take_up(&mut self, reference: BlobRef, bytes: Bytes) -> Result<Taken, AllocError>
        requires placed { ArePlaced self.old }
        requires named { Names reference bytes }
        ensures placed { OnOk result (ArePlaced self.new) }
        ensures alike { OnOk result (AreAlike self.old self.new) }
        ensures lighter { OnOk result (IsLighter self.old self.new) }
        ensures left { OnOk result (sum_by offers_left self.new.offers
            ≡ sum_by offers_left self.old.offers) }
        ensures wants { OnOk result (self.new.wants ≡ self.old.wants) }
        ensures made { IfOk result (λ taken. Each (GetsOrDrops 0) taken.events) }
        ensures follows { IfOk result (λ taken. (set : Setting) (log : Log)
            → AgreesContent self.old set log
            → IsBlob set log reference bytes → Follows self.old self.new taken.events set log) }
        ensures told { IfOk result (λ taken. (set : Setting) (log : Log)
            → AgreesContent self.old set log
            → IsBlob set log reference bytes
            → IsRuled set (log ++ map Happened taken.events) reference taken.accepted) }
        ensures same { IfOk result (λ taken. taken.accepted ≡ true
            → blob_at reference self.new.store ≡ Some bytes) }
    {
        let kept = bytes.copy()?;
        match self.store.put(reference, kept) {
            Ok(()) => {
                let events = self.get(0, reference, bytes)?;
                Ok(Taken {
                    accepted: true,
                    events,
                })
            }
            Err(PutFault::Clash(_)) => Ok(Taken {
                accepted: false,
                events: ListOf::new(self.alloc),
            }),
            Err(PutFault::NoMemory(_)) => Err(AllocError),
        }
    }

    /// Keeps a content as dirty at a broker that has none under the reference, and offers it to the
    /// broker above.
    fn offer(&mut self, broker: u32, reference: BlobRef, bytes: Bytes) -> Result<(), AllocError>
        requires placed { ArePlaced self.old }
        requires below { 0 < broker }
        requires within { broker < size_of self.old }
        requires named { Names reference bytes }
        ensures placed { OnOk result (ArePlaced self.new) }
        ensures carried { OnOk result ((b : ℕ) (name : Reference) (kept : List ℕ)
            → b < size_of self.old → IsCarried self.old b name kept
            → IsCarried self.new b name kept) }
        ensures alike { OnOk result (AreAlike self.old self.new) }
        ensures wants { OnOk result (self.new.wants ≡ self.old.wants) }
        ensures left { OnOk result (sum_by offers_left self.new.offers
            ≤ sum_by offers_left self.old.offers + 2 * broker) }
        ensures has { OnOk result (IsSome (clean_at reference (node_at self.old broker).cache)
            ⊎ IsDirty self.new broker reference) }
        ensures follows { OnOk result ((set : Setting) (log : Log) → AgreesContent self.old set log
            → IsBlob set log reference bytes → Follows self.old self.new [] set log) }
    {
        let node = &mut self.nodes[broker as usize];
        if node.any(&reference).is_some() {
            return Ok(());
        }
        let offered = bytes.copy()?;
        node.put_dirty(reference, bytes)?;
        self.offers.push(Offer {
            child: broker,
            reference,
            bytes: offered,
            stage: OfferStage::Rising,
        })?;
        Ok(())
    }

    /// Keeps a content as clean at a broker. Of the offers that wait there for one under the
    /// reference those of the same bytes are accepted then.
    fn get(
        &mut self,
        broker: u32,
        reference: BlobRef,
        bytes: Bytes,
    ) -> Result<KvsEvents, AllocError>
        requires placed { ArePlaced self.old }
        requires within { broker < size_of self.old }
        requires named { Names reference bytes }
        ensures rest { OnOk result (self.new ≡ record self.old {
          nodes = slice_set self.old.nodes broker (node_at self.new broker);
          offers = self.new.offers;
        }) }
        ensures got { IfOk result (λ events. IsGetting broker reference bytes
            (node_at self.old broker) (node_at self.new broker) events) }
        ensures settled { OnOk result (AreSettled self.old.fanout broker reference (Some bytes)
            self.old.offers self.new.offers) }
    {
        settle(
            &mut self.offers,
            self.fanout,
            broker,
            &reference,
            Some(&bytes),
        );
        let node = &mut self.nodes[broker as usize];
        let events = node.get(self.alloc, broker, reference, bytes)?;
        Ok(events)
    }

    /// What a broker keeps under a reference.
    fn kept(&self, broker: u32, reference: &BlobRef) -> Result<Option<Gift>, AllocError>
        requires { broker < size_of self.now }
        ensures found { IfOk result (λ gift. option_map (λ g. g.bytes) gift
            ≡ any_at reference.now (node_at self.now broker).cache) }
        ensures clean { IfOk result (λ gift. IfSome gift (λ g. g.clean
            ≡ is_some (clean_at reference.now (node_at self.now broker).cache))) }
        ensures named { IfOk result (IsGiftNamed reference.now) }
    {
        let node = &self.nodes[broker as usize];
        if let Some(bytes) = node.clean(reference) {
            let bytes = bytes.copy()?;
            return Ok(Some(Gift { bytes, clean: true }));
        }
        match node.any(reference) {
            Some(bytes) => {
                let bytes = bytes.copy()?;
                Ok(Some(Gift {
                    bytes,
                    clean: false,
                }))
            }
            None => Ok(None),
        }
    }

    /// What rank 0's store has under a reference, which its cache gets.
    fn fetch(&mut self, reference: &BlobRef) -> Result<Found, AllocError>
        requires sound { IsSoundContent self.old }
        ensures sound { OnOk result (IsSoundContent self.new) }
        ensures alike { OnOk result (AreAlike self.old self.new) }
        ensures left { OnOk result (sum_by offers_left self.new.offers
            ≡ sum_by offers_left self.old.offers) }
        ensures wants { OnOk result (self.new.wants ≡ self.old.wants) }
        ensures named { IfOk result (λ found. IsWantNamed reference.now found.stage) }
        ensures made { IfOk result (λ found. Each (GetsOrDrops 0) found.events) }
        ensures follows { IfOk result (λ found. FollowsAlways self.old self.new found.events) }
        ensures told { IfOk result (λ found. (set : Setting) (log : Log)
            → AgreesContent self.old set log
            → IsFound set (log ++ map Happened found.events) reference.now 0 found.stage) }
        ensures falls { IfOk result (λ found. found.stage ≢ WantStage.Rising) }
        ensures same { IfOk result (λ found. IsWantSame self.new.store reference.now found.stage) }
    {
        let Some(kept) = self.store.get(reference) else {
            return Ok(Found {
                stage: WantStage::Falling(None),
                events: ListOf::new(self.alloc),
            });
        };
        let bytes = kept.copy()?;
        let twin = kept.copy()?;
        let events = self.get(0, *reference, twin)?;
        let gift = Gift { bytes, clean: true };
        Ok(Found {
            stage: WantStage::Falling(Some(gift)),
            events,
        })
    }

    /// What a broker has under a reference, or that it has to ask the broker above.
    fn find(&mut self, broker: u32, reference: &BlobRef) -> Result<Found, AllocError>
        requires sound { IsSoundContent self.old }
        requires within { broker < size_of self.old }
        ensures sound { OnOk result (IsSoundContent self.new) }
        ensures alike { OnOk result (AreAlike self.old self.new) }
        ensures left { OnOk result (sum_by offers_left self.new.offers
            ≡ sum_by offers_left self.old.offers) }
        ensures wants { OnOk result (self.new.wants ≡ self.old.wants) }
        ensures named { IfOk result (λ found. IsWantNamed reference.now found.stage) }
        ensures made { IfOk result (λ found. Each (GetsOrDrops broker) found.events) }
        ensures follows { IfOk result (λ found. FollowsAlways self.old self.new found.events) }
        ensures told { IfOk result (λ found. (set : Setting) (log : Log)
            → AgreesContent self.old set log
            → IsFound set (log ++ map Happened found.events) reference.now broker found.stage) }
        ensures none { IfOk result (λ found. found.stage ≡ WantStage.Rising → (0 < broker)
            × (any_at reference.now (node_at self.old broker).cache ≡ None)) }
        ensures same { IfOk result (λ found. IsWantSame self.new.store reference.now found.stage) }
    {
        if let Some(gift) = self.kept(broker, reference)? {
            return Ok(Found {
                stage: WantStage::Falling(Some(gift)),
                events: ListOf::new(self.alloc),
            });
        }
        if broker == 0 {
            return self.fetch(reference);
        }
        Ok(Found {
            stage: WantStage::Rising,
            events: ListOf::new(self.alloc),
        })
    }

    /// Loads a content for a command at a broker, which asks the broker above where it has none.
    pub fn load(&mut self, by: By, broker: u32, reference: BlobRef) -> Result<Loaded, AllocError>
        requires sound { IsSoundContent self.old }
        requires within { broker < size_of self.old }
        ensures sound { OnOk result (IsSoundContent self.new) }
        ensures alike { OnOk result (AreAlike self.old self.new) }
        ensures waits { IfOk result (λ made. (other : Command)
            → loads_of other self.new.wants
            ≡ loads_of other self.old.wants + waiting by other made.load) }
        ensures made { IfOk result (λ made. Each (GetsOrDrops broker) made.events) }
        ensures follows { IfOk result (λ made. (set : Setting) (log : Log)
            → AgreesContent self.old set log
            → IsLoad self.old set log by broker reference
            → Follows self.old self.new made.events set log) }
        ensures told { IfOk result (λ made. (set : Setting) (log : Log)
            → AgreesContent self.old set log
            → IsLoad self.old set log by broker reference
            → MayLoad set (log ++ map Happened made.events) by made.load) }
    {
        let Found { stage, events } = self.find(broker, &reference)?;
        if let WantStage::Falling(gift) = stage {
            let load = Load::Told(bytes_of(gift));
            return Ok(Loaded { load, events });
        }
        self.wants.push(Want {
            by,
            broker,
            child: broker,
            reference,
            stage: WantStage::Rising,
        })?;
        Ok(Loaded {
            load: Load::Waits,
            events,
        })
    }

    /// What a flush at a broker is told now. A reference that it tells is taken off.
    pub fn flush(&mut self, broker: u32) -> Flush
        requires sound { IsSoundContent self.old }
        requires within { broker < size_of self.old }
        ensures sound { IsSoundContent self.new }
        ensures told { IsFlush (node_at self.old broker) (node_at self.new broker) result }
        ensures rest { self.new ≡ record self.old {
          nodes = slice_set self.old.nodes broker (node_at self.new broker);
        } }
        ensures agrees { (set : Setting) (log : Log) → AgreesContent self.old set log
            → AgreesContent self.new set log }
    {
        let node = &mut self.nodes[broker as usize];
        node.flush()
    }

    /// Drops the clean contents of a broker that aren't pinned: all that it holds.
    pub fn drop_clean(&mut self, broker: u32) -> Result<KvsEvents, AllocError>
        requires sound { IsSoundContent self.old }
        requires within { broker < size_of self.old }
        ensures sound { OnOk result (IsSoundContent self.new) }
        ensures dropped { IfOk result (λ events. IsDropping broker (node_at self.old broker)
            (node_at self.new broker) events) }
        ensures rest { OnOk result (self.new ≡ record self.old {
          nodes = slice_set self.old.nodes broker (node_at self.new broker);
        }) }
        ensures made { IfOk result (λ events. Each (GetsOrDrops broker) events) }
        ensures follows { IfOk result (λ events. FollowsAlways self.old self.new events) }
        ensures all { IfOk result (λ events. (set : Setting) (log : Log)
            → AgreesContent self.old set log → (reference : Reference)
            → IsTrue (holds log broker reference)
            → Contains events (event.Dropped broker reference)) }
    {
        let node = &mut self.nodes[broker as usize];
        let events = node.drop_clean(self.alloc, broker)?;
        Ok(events)
    }

    /// Delivers the oldest message on the link between two brokers: an offer, where there is one,
    /// or else a want.
    pub fn deliver(&mut self, from: u32, to: u32) -> Result<Delivery, AllocError>
        requires sound { IsSoundContent self.old }
        requires can { can_deliver self.old from to ≡ true }
        ensures sound { OnOk result (IsSoundContent self.new) }
        ensures alike { OnOk result (AreAlike self.old self.new) }
        ensures shorter { OnOk result (deliveries_left
            (size_of self.new) self.new.offers self.new.wants
            < deliveries_left (size_of self.old) self.old.offers self.old.wants) }
        ensures waits { IfOk result (λ made. (by : Command)
            → loads_of by self.old.wants ≡ loads_of by self.new.wants + answered by made.answer) }
        ensures made { IfOk result (λ made. Each (GetsOrDrops to) made.events) }
        ensures follows { IfOk result (λ made. FollowsAlways self.old self.new made.events) }
        ensures told { IfOk result (λ made. (set : Setting) (log : Log)
            → AgreesContent self.old set log
            → MayAnswer set (log ++ map Happened made.events) made.answer) }
    {
        if let Some(i) = first_offer(&self.offers, self.fanout, from, to) {
            let events = self.deliver_offer(i, to)?;
            return Ok(Delivery {
                answer: None,
                events,
            });
        }
        match first_want(&self.wants, self.fanout, from, to) {
            Some(i) => self.deliver_want(i, to),
            None => unreachable!(),
        }
    }

    /// Delivers the offer of a place to a broker.
    fn deliver_offer(&mut self, i: usize, to: u32) -> Result<KvsEvents, AllocError>
        requires sound { IsSoundContent self.old }
        requires within { i < length self.old.offers }
        requires on { (d : Offer) → (from : ℕ)
            × (is_offer_on self.old.fanout from to (slice_index_or self.old.offers i d) ≡ true) }
        ensures sound { OnOk result (IsSoundContent self.new) }
        ensures alike { OnOk result (AreAlike self.old self.new) }
        ensures wants { OnOk result (self.new.wants ≡ self.old.wants) }
        ensures left { OnOk result (sum_by offers_left self.new.offers
            < sum_by offers_left self.old.offers) }
        ensures made { IfOk result (λ events. Each (GetsOrDrops to) events) }
        ensures follows { IfOk result (λ events. FollowsAlways self.old self.new events) }
    {
        let Offer {
            child,
            reference,
            bytes,
            stage,
        } = self.offers.remove(i);
        match stage {
            OfferStage::Rising => self.receive(child, to, reference, bytes),
            OfferStage::Waiting => unreachable!(),
            OfferStage::Accepted => self.accept(to, reference, bytes),
            OfferStage::Refused => self.reject(to, reference, bytes),
        }
    }

    /// Whether a broker has these bytes dirty under a reference.
    fn is_dirty(&self, broker: u32, reference: &BlobRef, bytes: &Bytes) -> bool
        requires { broker < size_of self.now }
        ensures { IsTrue result
            ↔ (dirty_at reference.now (node_at self.now broker).cache ≡ Some bytes.now) }
    {
        self.nodes[broker as usize].is_dirty(reference, bytes)
    }

    /// Whether the bytes that a broker has clean under a reference are these, where it has some.
    fn has_clean(&self, broker: u32, reference: &BlobRef, bytes: &Bytes) -> Option<bool>
        requires { broker < size_of self.now }
        ensures { result ≡ option_map (λ kept. same_bytes kept bytes.now)
            (clean_at reference.now (node_at self.now broker).cache) }
    {
        self.nodes[broker as usize].has_clean(reference, bytes)
    }

    /// A broker hears that the one above has got a content, and so do those that wait there for it.
    /// Where other bytes are dirty there under the reference, they stay so: they have an offer of
    /// their own.
    fn accept(&mut self, at: u32, reference: BlobRef, bytes: Bytes) -> Result<KvsEvents, AllocError>
        requires but { IsSoundBut at reference bytes self.old }
        requires within { at < size_of self.old }
        requires same { blob_at reference self.old.store ≡ Some bytes }
        ensures sound { OnOk result (IsSoundContent self.new) }
        ensures alike { OnOk result (AreAlike self.old self.new) }
        ensures wants { OnOk result (self.new.wants ≡ self.old.wants) }
        ensures left { OnOk result (sum_by offers_left self.new.offers
            ≡ sum_by offers_left self.old.offers) }
        ensures made { IfOk result (λ events. Each (GetsOrDrops at) events) }
        ensures follows { IfOk result (λ events. (set : Setting) (log : Log)
            → AgreesContent self.old set log → (0 < at)
            × IsTrue (has_got log (parent self.old.fanout at) reference)
            → Follows self.old self.new events set log) }
    {
        if !self.is_dirty(at, &reference, &bytes) {
            return Ok(ListOf::new(self.alloc));
        }
        let node = &mut self.nodes[at as usize];
        let events = node.accept(self.alloc, at, reference)?;
        settle(&mut self.offers, self.fanout, at, &reference, Some(&bytes));
        Ok(events)
    }

    /// A broker hears that a content was refused, and so do those that wait there for it. Where
    /// other bytes are dirty there under the reference, they stay so.
    fn reject(&mut self, at: u32, reference: BlobRef, bytes: Bytes) -> Result<KvsEvents, AllocError>
        requires but { IsSoundBut at reference bytes self.old }
        requires within { at < size_of self.old }
        ensures sound { OnOk result (IsSoundContent self.new) }
        ensures alike { OnOk result (AreAlike self.old self.new) }
        ensures wants { OnOk result (self.new.wants ≡ self.old.wants) }
        ensures left { OnOk result (sum_by offers_left self.new.offers
            ≡ sum_by offers_left self.old.offers) }
        ensures made { IfOk result (λ events. events ≡ []) }
        ensures follows { IfOk result (λ events. (set : Setting) (log : Log)
            → AgreesContent self.old set log → IsRefused set log reference
            → Follows self.old self.new events set log) }
    {
        if !self.is_dirty(at, &reference, &bytes) {
            return Ok(ListOf::new(self.alloc));
        }
        let node = &mut self.nodes[at as usize];
        node.reject(reference)?;
        settle(&mut self.offers, self.fanout, at, &reference, None);
        Ok(ListOf::new(self.alloc))
    }

    /// Takes a content that a broker's child offers: rank 0 decides, and so does a broker that has
    /// one clean under the reference, by its bytes. Any other broker keeps it as dirty too, unless
    /// it has one, and the child waits.
    fn receive(
        &mut self,
        child: u32,
        at: u32,
        reference: BlobRef,
        bytes: Bytes,
    ) -> Result<KvsEvents, AllocError>
        requires but { IsSoundBut child reference bytes self.old }
        requires child { (0 < child) × (child < size_of self.old)
            × (at ≡ parent self.old.fanout child) }
        requires named { Names reference bytes }
        ensures sound { OnOk result (IsSoundContent self.new) }
        ensures alike { OnOk result (AreAlike self.old self.new) }
        ensures wants { OnOk result (self.new.wants ≡ self.old.wants) }
        ensures left { OnOk result (sum_by offers_left self.new.offers
            < sum_by offers_left self.old.offers + 2 * child) }
        ensures made { IfOk result (λ events. Each (GetsOrDrops at) events) }
        ensures follows { IfOk result (λ events. (set : Setting) (log : Log)
            → AgreesContent self.old set log → IsBlob set log reference bytes
            → Follows self.old self.new events set log) }
    {
        if at == 0 {
            let kept = bytes.copy()?;
            let Taken { accepted, events } = self.take_up(reference, kept)?;
            self.answer_offer(child, reference, bytes, accepted)?;
            return Ok(events);
        }
        if let Some(accepted) = self.has_clean(at, &reference, &bytes) {
            self.answer_offer(child, reference, bytes, accepted)?;
            return Ok(ListOf::new(self.alloc));
        }
        let twin = bytes.copy()?;
        self.offer(at, reference, twin)?;
        self.offers.push(Offer {
            child,
            reference,
            bytes,
            stage: OfferStage::Waiting,
        })?;
        Ok(ListOf::new(self.alloc))
    }

    /// Sends an offer down.
    fn answer_offer(
        &mut self,
        child: u32,
        reference: BlobRef,
        bytes: Bytes,
        accepted: bool,
    ) -> Result<(), AllocError>
        requires but { IsSoundBut child reference bytes self.old }
        requires child { (0 < child) × (child < size_of self.old) }
        requires named { Names reference bytes }
        requires same { accepted ≡ true → blob_at reference self.old.store ≡ Some bytes }
        ensures sound { OnOk result (IsSoundContent self.new) }
        ensures sent { OnOk result (self.new
            ≡ record self.old {
              offers = self.old.offers
                  ++ offer_of child reference bytes (outcome accepted) ∷ [];
            }) }
    {
        self.offers.push(Offer {
            child,
            reference,
            bytes,
            stage: OfferStage::outcome(accepted),
        })?;
        Ok(())
    }

    /// Delivers the want of a place to a broker.
    fn deliver_want(&mut self, i: usize, to: u32) -> Result<Delivery, AllocError>
        requires sound { IsSoundContent self.old }
        requires within { i < length self.old.wants }
        requires on { (d : Want) → (from : ℕ)
            × (is_want_on self.old.fanout from to (slice_index_or self.old.wants i d) ≡ true) }
        ensures sound { OnOk result (IsSoundContent self.new) }
        ensures alike { OnOk result (AreAlike self.old self.new) }
        ensures shorter { OnOk result (deliveries_left
            (size_of self.new) self.new.offers self.new.wants
            < deliveries_left (size_of self.old) self.old.offers self.old.wants) }
        ensures waits { IfOk result (λ made. (by : Command)
            → loads_of by self.old.wants ≡ loads_of by self.new.wants + answered by made.answer) }
        ensures made { IfOk result (λ made. Each (GetsOrDrops to) made.events) }
        ensures follows { IfOk result (λ made. FollowsAlways self.old self.new made.events) }
        ensures told { IfOk result (λ made. (set : Setting) (log : Log)
            → AgreesContent self.old set log
            → MayAnswer set (log ++ map Happened made.events) made.answer) }
    {
        let Want {
            by,
            broker,
            child,
            reference,
            stage,
        } = self.wants.remove(i);
        match stage {
            WantStage::Rising => self.ask_on(by, broker, child, to, reference),
            WantStage::Falling(gift) => self.hand_down(by, broker, to, reference, gift),
        }
    }

    /// A broker is asked for a content: it gives what it has, or asks the broker above.
    fn ask_on(
        &mut self,
        by: By,
        broker: u32,
        child: u32,
        at: u32,
        reference: BlobRef,
    ) -> Result<Delivery, AllocError>
        requires sound { IsSoundContent self.old }
        requires child { (0 < child) × (at ≡ parent self.old.fanout child) }
        requires way { (broker < size_of self.old) × IsAbove self.old.fanout child broker }
        ensures sound { OnOk result (IsSoundContent self.new) }
        ensures alike { OnOk result (AreAlike self.old self.new) }
        ensures left { OnOk result (sum_by offers_left self.new.offers
            ≡ sum_by offers_left self.old.offers) }
        ensures shorter { OnOk result (sum_by (wants_left (size_of self.old)) self.new.wants
            < sum_by (wants_left (size_of self.old)) self.old.wants + (size_of self.old + child)) }
        ensures waits { IfOk result (λ made. (other : Command)
            → loads_of other self.old.wants + waiting by other Load.Waits
            ≡ loads_of other self.new.wants + answered other made.answer) }
        ensures made { IfOk result (λ made. Each (GetsOrDrops at) made.events) }
        ensures follows { IfOk result (λ made. (set : Setting) (log : Log)
            → AgreesContent self.old set log
            → WantAgrees set log self.old.fanout
            (want_of by broker child reference WantStage.Rising)
            → Follows self.old self.new made.events set log) }
        ensures told { IfOk result (λ made. (set : Setting) (log : Log)
            → AgreesContent self.old set log
            → WantAgrees set log self.old.fanout
            (want_of by broker child reference WantStage.Rising)
            → MayAnswer set (log ++ map Happened made.events) made.answer) }
    {
        let Found { stage, events } = self.find(at, &reference)?;
        let child = stage.link(child, at);
        self.wants.push(Want {
            by,
            broker,
            child,
            reference,
            stage,
        })?;
        Ok(Delivery {
            answer: None,
            events,
        })
    }

    /// A broker keeps what comes down where the one that gave it had it clean.
    fn keep(
        &mut self,
        at: u32,
        reference: BlobRef,
        gift: &Option<Gift>,
    ) -> Result<KvsEvents, AllocError>
        requires sound { IsSoundContent self.old }
        requires within { (0 < at) × (at < size_of self.old) }
        requires named { IsGiftNamed reference gift.now }
        requires same { IsGiftSame self.old.store reference gift.now }
        ensures sound { OnOk result (IsSoundContent self.new) }
        ensures alike { OnOk result (AreAlike self.old self.new) }
        ensures store { OnOk result (self.new.store ≡ self.old.store) }
        ensures wants { OnOk result (self.new.wants ≡ self.old.wants) }
        ensures left { OnOk result (sum_by offers_left self.new.offers
            ≡ sum_by offers_left self.old.offers) }
        ensures made { IfOk result (λ events. Each (GetsOrDrops at) events) }
        ensures follows { IfOk result (λ events. (set : Setting) (log : Log) (by : Command)
            (request : Asked) → AgreesContent self.old set log
            → GiftAgrees set log self.old.fanout at by request reference gift.now
            → Follows self.old self.new events set log) }
        ensures told { IfOk result (λ events. (set : Setting) (log : Log) (by : Command)
            (request : Asked) → AgreesContent self.old set log
            → GiftAgrees set log self.old.fanout at by request reference gift.now
            → IfSome gift.now (IsFrom (log ++ map Happened events) at reference)) }
    {
        let Some(gift) = gift else {
            return Ok(ListOf::new(self.alloc));
        };
        if !gift.clean {
            return Ok(ListOf::new(self.alloc));
        }
        let twin = gift.bytes.copy()?;
        let events = self.get(at, reference, twin)?;
        Ok(events)
    }

    /// What was found comes down to a broker: to the command's own, which is told, or to one above
    /// it, which hands it on.
    fn hand_down(
        &mut self,
        by: By,
        broker: u32,
        at: u32,
        reference: BlobRef,
        gift: Option<Gift>,
    ) -> Result<Delivery, AllocError>
        requires sound { IsSoundContent self.old }
        requires below { 0 < at }
        requires way { (broker < size_of self.old) × IsAbove self.old.fanout at broker }
        requires named { IsGiftNamed reference gift }
        requires same { IsGiftSame self.old.store reference gift }
        ensures sound { OnOk result (IsSoundContent self.new) }
        ensures alike { OnOk result (AreAlike self.old self.new) }
        ensures left { OnOk result (sum_by offers_left self.new.offers
            ≡ sum_by offers_left self.old.offers) }
        ensures shorter { OnOk result (sum_by (wants_left (size_of self.old)) self.new.wants
            < sum_by (wants_left (size_of self.old)) self.old.wants + (size_of self.old - at)) }
        ensures waits { IfOk result (λ made. (other : Command)
            → loads_of other self.old.wants + waiting by other Load.Waits
            ≡ loads_of other self.new.wants + answered other made.answer) }
        ensures made { IfOk result (λ made. Each (GetsOrDrops at) made.events) }
        ensures follows { IfOk result (λ made. (set : Setting) (log : Log)
            → AgreesContent self.old set log
            → WantAgrees set log self.old.fanout (want_of by broker at reference
            (WantStage.Falling gift))
            → Follows self.old self.new made.events set log) }
        ensures told { IfOk result (λ made. (set : Setting) (log : Log)
            → AgreesContent self.old set log
            → WantAgrees set log self.old.fanout (want_of by broker at reference
            (WantStage.Falling gift))
            → MayAnswer set (log ++ map Happened made.events) made.answer) }
    {
        let events = self.keep(at, reference, &gift)?;
        if at == broker {
            let bytes = bytes_of(gift);
            return Ok(Delivery {
                answer: Some(Answer { by, bytes }),
                events,
            });
        }
        self.wants.push(Want {
            by,
            broker,
            child: toward(self.fanout, at, broker),
            reference,
            stage: WantStage::Falling(gift),
        })?;
        Ok(Delivery {
            answer: None,
            events,
        })
    }

    /// Whether no message is on any link.
    pub fn is_idle(&self) -> bool
        requires { IsSoundContent self.now }
        ensures { IsTrue result ↔ AreLinksEmpty self.now }
    {
        self.offers.is_empty() && self.wants.is_empty()
    }

    /// A message goes from a broker to the one above it, or to one below it.
    pub fn links(&self)
        requires { IsSoundContent self.now }
        ensures { (from to : ℕ) → can_deliver self.now from to ≡ true
            → (from < size_of self.now) × ((to ≡ parent self.now.fanout from)
            ⊎ ((0 < to) × (to < size_of self.now) × (parent self.now.fanout to ≡ from))) }
    {}

    /// Where no message is on any link, no content is dirty and no load waits.
    pub fn at_rest(&self)
        requires sound { IsSoundContent self.now }
        requires rest { AreLinksEmpty self.now }
        ensures offers { self.now.offers ≡ [] }
        ensures wants { self.now.wants ≡ [] }
        ensures clean { (broker : ℕ) → broker < size_of self.now
            → (node_at self.now broker).cache.dirty ≡ [] }
    {}
}
