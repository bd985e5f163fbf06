//! Looking at one broker's word, and what was seen.
ghost use Rattle.std.specs.Prelude.{◌≡◌, ◌<◌, ◌≤◌, [], ◌∷◌, ◌++◌, slice_index};
ghost use Rattle.root_feed.specs.Looks.{IsAnswer, found_by};
ghost use Rattle.root_feed.specs.Numbers.{AreRising, IsWithin, greater, load_of};
ghost use Rattle.root_feed.specs.Values.{new_pass};

use crate::feed::{Feed, FeedName, Token};
use std::marker::{Model, PhantomData};

/// The number that a pass found in its broker's word. Only `Pass::look` makes one. Contracts see it
/// as broker and number.
#[derive(Drop)]
pub struct Seen<N: FeedName> {
    broker: u32,
    number: u64,
    of: PhantomData<N>,
}

impl<N: FeedName> Model for Seen<N> {
    ghost use Rattle.std.specs.Prelude.{ℕ};

    ghost Value = { ℕ × ℕ };

    ghost view = { λ s. (s.broker, s.number) };
}

impl<N: FeedName> Seen<N> {
    /// The broker whose word was loaded.
    pub fn broker(&self) -> u32
        ensures { result ≡ self.now.0 }
    {
        self.broker
    }

    /// The number that was found.
    pub fn number(&self) -> u64
        ensures { result ≡ self.now.1 }
    {
        self.number
    }
}

/// What a look found: the needed number or a later one, or a number below it.
#[derive(Drop)]
pub enum Looked<N: FeedName> {
    Seen(Seen<N>),
    Behind { have: u64, need: u64 },
}

/// What was seen of each broker's word, to be carried elsewhere. Contracts see it as these numbers,
/// by broker.
#[derive(Drop)]
pub struct Note<N: FeedName> {
    token: Token<N>,
}

impl<N: FeedName> Model for Note<N> {
    ghost use Rattle.std.specs.Prelude.{ℕ, List};

    ghost Value = { List ℕ };

    ghost view = { λ n. n.token.seen };
}

impl<N: FeedName> Note<N> {
    pub(crate) fn into_token(self) -> Token<N>
        ensures { result.seen ≡ self }
    {
        let Note { token } = self;
        token
    }
}

/// Looks at the word of one broker. Contracts see its broker, what it has seen of each word, and
/// its loads.
#[derive(Drop)]
pub struct Pass<N: FeedName> {
    broker: u32,
    token: Token<N>,
}

impl<N: FeedName> Model for Pass<N> {
    ghost use Rattle.std.specs.Prelude.{◌<◌};
    ghost use Rattle.root_feed.specs.Values.{PassValue};

    ghost Value = { PassValue };

    ghost view = { λ p. record { broker = p.broker; seen = p.token.seen; loads = p.token.loads } };

    ghost invariant = { λ p. p.broker < N.table.words };
}

impl<N: FeedName> Pass<N> {
    // A pass that has seen nothing.
    pub(crate) fn of_token(broker: u32, token: Token<N>) -> Pass<N>
        requires inside { broker < N.table.words }
        requires new { (token.seen ≡ []) × (token.loads ≡ []) }
        ensures { result ≡ new_pass broker }
    {
        Pass { broker, token }
    }

    /// Loads the broker's word, in one atomic step and without waiting, and says whether it has
    /// reached `need`. The number is none below one that this pass saw there. It takes no memory.
    pub fn look(&mut self, feed: &Feed<N>, need: u64) -> Looked<N>
        ensures answer { IsAnswer self.old.broker need result }
        ensures not_back { slice_index self.old.seen self.old.broker ≤ found_by result }
        ensures loaded { self.new ≡ record self.old {
          seen = self.new.seen;
          loads = self.old.loads ++ load_of self.old.broker (found_by result) ∷ [];
        } }
        ensures rising { AreRising self.new.loads }
        ensures later { IsWithin self.old.seen self.new.seen
            × (slice_index self.new.seen self.old.broker ≡ found_by result) }
    {
        let number = self.token.load(feed, self.broker);
        if number < need {
            return Looked::Behind { have: number, need };
        }
        Looked::Seen(Seen {
            broker: self.broker,
            number,
            of: PhantomData,
        })
    }

    /// Splits off what was seen. It takes no memory and waits for nobody.
    pub fn note(&mut self, feed: &Feed<N>) -> Note<N>
        ensures same { self.new ≡ self.old }
        ensures noted { result ≡ self.old.seen }
    {
        Note {
            token: self.token.split(feed),
        }
    }

    /// Joins what was seen elsewhere: of each broker the greater number. It takes no memory and
    /// waits for nobody.
    pub fn hear(&mut self, feed: &Feed<N>, note: Note<N>)
        ensures { self.new ≡ record self.old { seen = greater self.old.seen note } }
    {
        self.token.join(feed, note.into_token());
    }
}
