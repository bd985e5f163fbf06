//! The dirty contents on their way up the tree, and what became of them on its way down.
ghost use Rattle.std.specs.Prelude.{◌≡◌, ◌<◌, option_copied};
ghost use Rattle.std.specs.List.{list_any, position};
ghost use Rattle.kvs_rules.specs.Brokers.{parent};
ghost use Rattle.kvs_content.specs.Messages.{AreSettled, is_kept, is_offer_on, outcome, settled, waits_at};

use fl_digest::BlobRef;
use lists::Bytes;

/// Where an offer is.
#[derive(Drop)]
pub enum OfferStage {
    /// On its way to the broker above.
    Rising,
    /// At the broker above, which has offered the content to its own.
    Waiting,
    /// On its way down: the broker above has got the content.
    Accepted,
    /// On its way down: rank 0 has other bytes under the reference.
    Refused,
}

/// A broker offers a dirty content to the broker above. The offer keeps the bytes to its end.
#[derive(Drop)]
pub struct Offer {
    pub child: u32,
    pub reference: BlobRef,
    pub bytes: Bytes,
    pub stage: OfferStage,
}

/// The broker above another one; rank 0 stands above itself.
pub(crate) fn parent(fanout: u32, broker: u32) -> u32
    requires { 0 < fanout }
    ensures { result ≡ parent fanout broker }
{
    broker.saturating_sub(1) / fanout
}

impl OfferStage {
    /// What became of a content at rank 0.
    pub(crate) fn outcome(accepted: bool) -> OfferStage
        ensures { result ≡ outcome accepted }
    {
        if accepted {
            OfferStage::Accepted
        } else {
            OfferStage::Refused
        }
    }
}

impl Offer {
    /// Whether the offer is a message on the link between two brokers.
    fn is_on(&self, fanout: u32, from: u32, to: u32) -> bool
        requires { 0 < fanout }
        ensures { result ≡ is_offer_on fanout from to self.now }
    {
        let above = parent(fanout, self.child);
        match self.stage {
            OfferStage::Rising => from == self.child && to == above,
            OfferStage::Waiting => false,
            OfferStage::Accepted => to == self.child && from == above,
            OfferStage::Refused => to == self.child && from == above,
        }
    }

    /// Whether the offer waits at a broker for what becomes of the content there.
    fn waits_at(&self, fanout: u32, broker: u32, reference: &BlobRef) -> bool
        requires { 0 < fanout }
        ensures { result ≡ waits_at fanout broker reference.now self.now }
    {
        match self.stage {
            OfferStage::Waiting => {
                parent(fanout, self.child) == broker && self.reference == *reference
            }
            _ => false,
        }
    }

    /// Whether the offer's bytes are those that are kept, if any are.
    fn is_kept(&self, kept: Option<&Bytes>) -> bool
        ensures { result ≡ is_kept (option_copied kept.entry) self.now.bytes }
    {
        match kept {
            Some(kept) => *kept == self.bytes,
            None => false,
        }
    }

    /// Sends the offer down, if it waits at a broker for what becomes of the content there: it is
    /// accepted where its bytes are those that are kept.
    fn settle(&mut self, fanout: u32, broker: u32, reference: &BlobRef, kept: Option<&Bytes>)
        requires { 0 < fanout }
        ensures { self.new
            ≡ settled fanout broker reference.now (option_copied kept.entry) self.old }
    {
        if self.waits_at(fanout, broker, reference) {
            self.stage = OfferStage::outcome(self.is_kept(kept));
        }
    }
}

/// Whether an offer is a message on the link between two brokers.
pub(crate) fn is_offered(offers: &Vec<Offer>, fanout: u32, from: u32, to: u32) -> bool
    requires { 0 < fanout }
    ensures { result ≡ list_any (is_offer_on fanout from to) offers.now.items }
{
    offers.iter().any(|offer| offer.is_on(fanout, from, to))
}

/// The place of the oldest offer on the link between two brokers.
pub(crate) fn first_offer(offers: &Vec<Offer>, fanout: u32, from: u32, to: u32) -> Option<usize>
    requires { 0 < fanout }
    ensures { result ≡ position (is_offer_on fanout from to) offers.now.items }
{
    offers
        .iter()
        .position(|offer| offer.is_on(fanout, from, to))
}

/// Sends the offers down that wait at a broker for what becomes of the content there: those of the
/// bytes that are kept are accepted.
pub(crate) fn settle(
    offers: &mut Vec<Offer>,
    fanout: u32,
    broker: u32,
    reference: &BlobRef,
    kept: Option<&Bytes>,
)
    requires { 0 < fanout }
    ensures { AreSettled fanout broker reference.now (option_copied kept.entry)
        offers.old.items offers.new.items }
{
    for i in 0..offers.len() {
        offers[i].settle(fanout, broker, reference, kept);
    }
}
