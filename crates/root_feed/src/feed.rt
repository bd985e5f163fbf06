//! The words, and the token of a seat at them.
ghost use Rattle.std.specs.Prelude.{◌≡◌, ◌≤◌, ◌<◌, [], true, slice_index};
ghost use Rattle.root_feed.specs.Rule.{LoadsWord, StoresWord, heralded, joined, next_made, reader};

use crate::rule::{Heralds, Loads, Makes, Notes, Stores, View};
use atomic_table::{Seat, Table};
use std::alloc::Global;
use std::marker::{Brand, Model, PhantomData};

/// Names one feed. It has no functions.
pub trait FeedName {
    ghost use Rattle.atomic_table.specs.Seated.{TableId};

    ghost table: { TableId };
}

impl FeedName for Brand {
    ghost table = { record {
      words = 0;
      slots = 0;
      views_name = 0;
      atom = 0;
      block = 0;
      offset = 0;
      slot_names = [];
    } };
}

/// A word for each broker, with the number of the newest root that it has heard.
#[derive(Drop)]
pub struct Feed<N: FeedName> {
    table: Table<(), View, usize, Heralds, Global>,
    of: PhantomData<N>,
    ghost named: { table.shared.table_id ≡ N.table },
    ghost counted: { table.shared.key ≡ N.table.words },
}

impl<N: FeedName> Feed<N> {
    pub(crate) fn of_table(table: Table<(), View, usize, Heralds, Global>) -> Feed<N>
        requires { (table.shared.table_id ≡ N.table) × (table.shared.key ≡ N.table.words) }
    {
        Feed {
            table,
            of: PhantomData,
        }
    }
}

/// A seat at the words of the feed. Contracts see what it knows.
#[derive(Drop)]
pub(crate) struct Token<N: FeedName> {
    seat: Seat<(), View>,
    of: PhantomData<N>,
}

impl<N: FeedName> Model for Token<N> {
    ghost use Rattle.std.specs.Prelude.{◌≡◌, []};
    ghost use Rattle.root_feed.specs.declared.rule.View.{View};

    ghost Value = { View };

    ghost view = { λ t. t.seat.me.0 };

    ghost invariant = { λ t. (t.seat.table_id ≡ N.table) × (t.seat.me.1 ≡ []) };
}

impl<N: FeedName> Token<N> {
    pub(crate) fn of_seat(seat: Seat<(), View>) -> Token<N>
        requires { (seat.table_id ≡ N.table) × (seat.me.1 ≡ []) }
        ensures { result ≡ seat.me.0 }
    {
        Token {
            seat,
            of: PhantomData,
        }
    }

    /// Loads a broker's word.
    pub(crate) fn load(&mut self, feed: &Feed<N>, broker: u32) -> u64
        requires { broker < N.table.words }
        ensures { LoadsWord broker self.old result self.new }
    {
        feed.table
            .shared
            .load::<Loads>(&mut self.seat, broker as usize)
    }

    /// Stores a number in the word of a herald's broker.
    pub(crate) fn store(&mut self, feed: &Feed<N>, broker: u32, number: u64)
        requires inside { broker < N.table.words }
        requires herald { (self.old.is_herald ≡ true) × (self.old.broker ≡ broker) }
        requires up { self.old.number ≤ number }
        ensures { StoresWord broker self.old number self.new }
    {
        feed.table
            .shared
            .store::<Stores>(&mut self.seat, broker as usize, number);
    }

    /// Splits off what was seen.
    pub(crate) fn split(&mut self, feed: &Feed<N>) -> Token<N>
        requires { 0 < N.table.words }
        ensures { (self.new ≡ self.old) × (result ≡ reader self.old.seen) }
    {
        Token {
            seat: feed.table.shared.split_seat::<Notes>(&mut self.seat),
            of: PhantomData,
        }
    }

    /// Joins what another seat has seen.
    pub(crate) fn join(&mut self, feed: &Feed<N>, other: Token<N>)
        requires { 0 < N.table.words }
        ensures { self.new ≡ joined self.old other }
    {
        let Token { seat, of: _ } = other;
        feed.table.shared.join_seat::<Notes>(&mut self.seat, seat);
    }

    /// Splits off the herald of the next broker.
    pub(crate) fn herald(&mut self, feed: &Feed<N>) -> Token<N>
        requires some { 0 < N.table.words }
        requires maker { self.old.is_maker ≡ true }
        ensures { (self.new ≡ next_made self.old)
            × (result ≡ heralded self.old.made self.old.seen) }
    {
        Token {
            seat: feed.table.shared.split_seat::<Makes>(&mut self.seat),
            of: PhantomData,
        }
    }
}
