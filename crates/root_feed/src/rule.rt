//! What every step on the words keeps, and what each kind of step tells its seat.
ghost use Rattle.std.specs.Prelude.{◌≡◌, []};
ghost use Rattle.root_feed.specs.Rule.{Keeps, LoadsWord, StoresWord, first_view, heralded, joined, next_made, reader};

use atomic_table::{Join, Play, Split, TableRule};
use std::collections::LinkedList;

/// The number that was found in a broker's word.
pub struct Load {
    pub broker: u64,
    pub number: u64,
}

/// What a seat knows: the number that it has seen of each broker's word, and its loads in order. A
/// herald knows its broker and the number in that word. The maker of heralds knows how many it has
/// made. Its values exist in proofs alone.
pub struct View {
    pub seen: LinkedList<u64>,
    pub loads: LinkedList<Load>,
    pub is_herald: bool,
    pub broker: u64,
    pub number: u64,
    pub is_maker: bool,
    pub made: u64,
}

/// Each word has at most one herald, which knows its number, and no seat has seen more of a word
/// than the word.
pub struct Heralds;

impl TableRule<(), View, usize> for Heralds {
    ghost holds = { λ count state. Keeps count state };

    ghost first = { λ _. first_view };
}

/// Loads a word.
pub struct Loads;

impl Play<(), View> for Loads {
    ghost then = { λ step before found after.
        LoadsWord step.word before.0 found after.0 × (after.1 ≡ before.1) };
}

/// A herald stores a number in its word.
pub struct Stores;

impl Play<(), View> for Stores {
    ghost then = { λ step before found after.
        StoresWord step.word before.0 step.first after.0 × (after.1 ≡ before.1) };
}

/// Splits off what was seen, and joins it elsewhere.
pub struct Notes;

impl Split<View> for Notes {
    ghost left = { λ view. view };

    ghost right = { λ view. reader view.seen };
}

impl Join<View> for Notes {
    ghost both = { joined };

    ghost spent = { reader [] };
}

/// Splits off the herald of the next broker.
pub struct Makes;

impl Split<View> for Makes {
    ghost left = { next_made };

    ghost right = { λ view. heralded view.made view.seen };
}
