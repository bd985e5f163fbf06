//! The contents that loads want, on their way up the tree, and what was found on its way down.
ghost use Rattle.std.specs.Prelude.{◌≡◌, ◌<◌, option_map};
ghost use Rattle.std.specs.List.{list_any, position};
ghost use Rattle.kvs_rules.specs.Log.{same_command};
ghost use Rattle.kvs_rules.specs.Brokers.{parent};
ghost use Rattle.kvs_content.specs.Messages.{IsAbove, is_want_on, link_now};

use crate::offers::parent;
use fl_digest::BlobRef;
use kvs_txn::By;
use lists::Bytes;

/// The bytes under a reference, and whether the broker that gave them had them clean: each broker
/// on the way down keeps them then.
#[derive(Drop)]
pub struct Gift {
    pub bytes: Bytes,
    pub clean: bool,
}

/// The bytes of a gift, if there is one.
pub(crate) fn bytes_of(gift: Option<Gift>) -> Option<Bytes>
    ensures { result ≡ option_map (λ g. g.bytes) gift }
{
    match gift {
        Some(Gift { bytes, clean: _ }) => Some(bytes),
        None => None,
    }
}

/// What a want is now.
#[derive(Drop)]
pub enum WantStage {
    /// On its way to the broker above.
    Rising,
    /// On its way down, with what was found; rank 0 may have had nothing.
    Falling(Option<Gift>),
}

/// A load of a command at a broker, on the link between a broker on the way to rank 0 and the one
/// above that.
#[derive(Drop)]
pub struct Want {
    pub by: By,
    pub broker: u32,
    pub child: u32,
    pub reference: BlobRef,
    pub stage: WantStage,
}

impl WantStage {
    /// The link on which a want of a broker below is once the one above was asked.
    pub(crate) fn link(&self, child: u32, at: u32) -> u32
        ensures { result ≡ link_now child at self.now }
    {
        match self {
            WantStage::Rising => at,
            WantStage::Falling(_) => child,
        }
    }
}

impl Want {
    /// Whether the want is a message on the link between two brokers.
    fn is_on(&self, fanout: u32, from: u32, to: u32) -> bool
        requires { 0 < fanout }
        ensures { result ≡ is_want_on fanout from to self.now }
    {
        let above = parent(fanout, self.child);
        match self.stage {
            WantStage::Rising => from == self.child && to == above,
            WantStage::Falling(_) => to == self.child && from == above,
        }
    }
}

/// Whether a want is a message on the link between two brokers.
pub(crate) fn is_wanted(wants: &Vec<Want>, fanout: u32, from: u32, to: u32) -> bool
    requires { 0 < fanout }
    ensures { result ≡ list_any (is_want_on fanout from to) wants.now.items }
{
    wants.iter().any(|want| want.is_on(fanout, from, to))
}

/// The place of the oldest want on the link between two brokers.
pub(crate) fn first_want(wants: &Vec<Want>, fanout: u32, from: u32, to: u32) -> Option<usize>
    requires { 0 < fanout }
    ensures { result ≡ position (is_want_on fanout from to) wants.now.items }
{
    wants.iter().position(|want| want.is_on(fanout, from, to))
}

/// Whether the load of a command waits.
pub(crate) fn is_waiting(wants: &Vec<Want>, by: By) -> bool
    ensures { result ≡ list_any (λ want. same_command want.by by) wants.now.items }
{
    wants.iter().any(|want| want.by.actor == by.actor && want.by.command == by.command)
}

/// The next broker on the way down from one broker to another that is below it.
pub(crate) fn toward(fanout: u32, at: u32, home: u32) -> u32
    requires fanout { 0 < fanout }
    requires below { at < home }
    requires above { IsAbove fanout at home }
    ensures { (0 < result) × (at ≡ parent fanout result) × IsAbove fanout result home }
{
    let mut next = home;
    while (next - 1) / fanout != at {
        next = (next - 1) / fanout;
    }
    next
}
