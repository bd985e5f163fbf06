//! Raising one broker's word.
ghost use Rattle.std.specs.Prelude.{◌≡◌, ◌<◌, ◌≤◌, [], ◌∷◌, ◌++◌, true, slice_index};
ghost use Rattle.root_feed.specs.Numbers.{AreRising, IsWithin, load_of};
ghost use Rattle.root_feed.specs.Rule.{heralded};
ghost use Rattle.root_feed.specs.Values.{new_herald};

use crate::feed::{Feed, FeedName, Token};
use crate::pass::Note;
use std::marker::Model;

/// The only one that raises the word of its broker. Contracts see its broker, the number in that
/// word, what it has seen of each word, and its loads.
#[derive(Drop)]
pub struct Herald<N: FeedName> {
    broker: u32,
    token: Token<N>,
}

impl<N: FeedName> Model for Herald<N> {
    ghost use Rattle.std.specs.Prelude.{◌≡◌, ◌<◌, true};
    ghost use Rattle.root_feed.specs.Values.{HeraldValue};

    ghost Value = { HeraldValue };

    ghost view = { λ h. record {
      broker = h.broker;
      number = h.token.number;
      seen = h.token.seen;
      loads = h.token.loads;
    } };

    ghost invariant = { λ h. (h.broker < N.table.words)
        × (h.token.is_herald ≡ true) × (h.token.broker ≡ h.broker) };
}

impl<N: FeedName> Herald<N> {
    // A herald that has stored nothing.
    pub(crate) fn of_token(broker: u32, token: Token<N>) -> Herald<N>
        requires inside { broker < N.table.words }
        requires new { token ≡ heralded broker [] }
        ensures { result ≡ new_herald broker }
    {
        Herald { broker, token }
    }

    /// Stores a number in the broker's word, in one atomic step and without waiting. It takes no
    /// memory.
    pub fn raise(&mut self, feed: &Feed<N>, number: u64)
        requires { self.old.number ≤ number }
        ensures raised { self.new ≡ record self.old { number = number; seen = self.new.seen } }
        ensures later { IsWithin self.old.seen self.new.seen
            × (slice_index self.new.seen self.old.broker ≡ number) }
    {
        self.token.store(feed, self.broker, number);
    }

    /// Joins a note, and then loads the broker's own word, which is the herald's number and isn't
    /// below what the note saw there. It takes no memory and waits for nobody.
    pub fn meet(&mut self, feed: &Feed<N>, note: Note<N>) -> u64
        ensures own { result ≡ self.old.number }
        ensures reached { slice_index note self.old.broker ≤ result }
        ensures later { IsWithin self.old.seen self.new.seen × IsWithin note self.new.seen }
        ensures loaded { self.new ≡ record self.old {
          seen = self.new.seen;
          loads = self.old.loads ++ load_of self.old.broker result ∷ [];
        } }
        ensures rising { AreRising self.new.loads }
    {
        self.token.join(feed, note.into_token());
        self.token.load(feed, self.broker)
    }
}
