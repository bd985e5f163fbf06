//! Announcements that are lost, repeated or swapped, and brokers that ask anew.
ghost use Rattle.std.specs.Prelude.{◌≡◌, true, false, IfOk, OnErr};
ghost use Rattle.kvs_keys.specs.Makes.{Makes};
ghost use Rattle.kvs_keys.specs.Order.{loss_step};
ghost use Rattle.kvs_keys.specs.Steps.{has_missed, is_announced};

use super::{Keys, KeysFault};
use kvs_rules::KvsStep;
use kvs_space::{KvsEvents, Loss, first_news, is_behind, is_news, let_rest, resync};
use lists::ListOf;

impl Keys {
    /// Whether a broker has missed an announcement: it is behind the broker above it, and none is
    /// on the way to it.
    pub(super) fn has_missed(&self, broker: u32) -> bool
        requires { self.now.spent ≡ false }
        ensures { result ≡ has_missed self.now broker }
    {
        broker < self.size
            && !is_news(&self.roll, &self.spaces, broker)
            && is_behind(&self.roll, &self.spaces, self.fanout, broker)
    }

    /// Lets the oldest announcement on the way between two brokers be lost, repeated or moved.
    pub(super) fn lose(&mut self, kind: Loss, from: u32, to: u32) -> Result<KvsEvents, KeysFault>
        requires ready { self.old.spent ≡ false }
        requires can { is_announced self.old from to ≡ true }
        ensures makes { IfOk result (Makes (loss_step kind from to) self.old self.new) }
        ensures spent { OnErr result (self.new.spent ≡ true) }
    {
        match first_news(&self.roll, &self.spaces, to) {
            Some(k) => {
                self.spent = true;
                let space = &mut self.spaces[k];
                space.lose(kind, to)?;
                let_rest(&mut self.roll, &self.spaces, k);
                self.spent = false;
                Ok(ListOf::new(self.alloc))
            }
            None => unreachable!(),
        }
    }

    /// Announces to a broker what it has missed.
    pub(super) fn resync(&mut self, broker: u32) -> Result<KvsEvents, KeysFault>
        requires ready { self.old.spent ≡ false }
        requires can { has_missed self.old broker ≡ true }
        ensures makes { IfOk result (Makes (KvsStep.Resync broker) self.old self.new) }
        ensures spent { OnErr result (self.new.spent ≡ true) }
    {
        self.spent = true;
        resync(&self.roll, &mut self.spaces, self.fanout, broker)?;
        self.spent = false;
        Ok(ListOf::new(self.alloc))
    }
}
