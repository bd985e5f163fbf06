//! Making the words and the seats.
ghost use Rattle.std.specs.Prelude.{◌≡◌, ◌≤◌, ◌<◌, [], map, length, IfOk, All};
ghost use Rattle.root_feed.specs.Rule.{maker_of};
ghost use Rattle.root_feed.specs.Values.{new_herald, new_heralds, new_pass};

use crate::feed::{Feed, FeedName, Token};
use crate::herald::Herald;
use crate::pass::Pass;
use crate::rule::{Heralds, View};
use atomic_table::{Seat, Table};
use std::alloc::{AllocError, Global};
use std::marker::Model;

/// The words and the first seat, which have no name yet. Contracts see which table they are, for
/// how many brokers, and at which brokers there shall be passes.
#[derive(Drop)]
pub struct Blank {
    table: Table<(), View, usize, Heralds, Global>,
    seat: Seat<(), View>,
    brokers: u32,
    at: Vec<u32>,
}

impl Model for Blank {
    ghost use Rattle.std.specs.Prelude.{◌≡◌, ◌<◌, [], All};
    ghost use Rattle.root_feed.specs.Rule.{first_view};
    ghost use Rattle.root_feed.specs.Values.{BlankValue};

    ghost Value = { BlankValue };

    ghost view = { λ b. record {
      table = b.table.shared.table_id;
      brokers = b.brokers;
      at = b.at.items;
    } };

    ghost invariant = { λ b. (b.seat.table_id ≡ b.table.shared.table_id)
        × (b.seat.me ≡ (first_view, [])) × (b.table.shared.key ≡ b.brokers)
        × (b.table.shared.table_id.words ≡ b.brokers)
        × (0 < b.brokers) × All (λ rank. rank < b.brokers) b.at.items };
}

/// The feed, a herald for each broker, and a pass for each place that was asked for.
#[derive(Drop)]
pub struct Opened<N: FeedName> {
    pub feed: Feed<N>,
    pub heralds: Vec<Herald<N>>,
    pub passes: Vec<Pass<N>>,
}

impl Blank {
    /// Words for 1 to 32 brokers, all 0, and the brokers at which there shall be passes, at most
    /// 256.
    pub fn new(alloc: Global, brokers: u32, at: &[u32]) -> Result<Blank, AllocError>
        requires brokers { (1 ≤ brokers) × (brokers ≤ 32) }
        requires ranks { All (λ rank. rank < brokers) at.now × (length at.now ≤ 256) }
        ensures { IfOk result (λ b. (b.brokers ≡ brokers) × (b.at ≡ at.now)) }
    {
        let words = vec![in alloc; 0u64; brokers as usize]?;
        let at = at.to_vec(alloc)?;
        let count = words.len();
        let (table, seat) = Table::of_words(alloc, words.as_slice(), &count)?;
        Ok(Blank {
            table,
            seat,
            brokers,
            at,
        })
    }

    /// The feed that N names, with its seats, none of which has seen or stored anything. The caller
    /// picks the name with
    /// `std::marker::Brand`.
    pub fn open<N: FeedName>(self, alloc: Global) -> Result<Opened<N>, AllocError>
        requires { self.table ≡ N.table }
        ensures heralds { IfOk result (λ o. o.heralds.items ≡ new_heralds self.brokers) }
        ensures passes { IfOk result (λ o. o.passes.items ≡ map new_pass self.at) }
    {
        let Blank {
            table,
            seat,
            brokers,
            at,
        } = self;
        let feed = Feed::of_table(table);
        let mut first = Token::of_seat(seat);
        let heralds = heralds(alloc, &feed, &mut first, brokers)?;
        let passes = passes(alloc, &feed, &mut first, at.as_slice())?;
        Ok(Opened {
            feed,
            heralds,
            passes,
        })
    }
}

// A herald for each broker.
fn heralds<N: FeedName>(
    alloc: Global,
    feed: &Feed<N>,
    first: &mut Token<N>,
    brokers: u32,
) -> Result<Vec<Herald<N>>, AllocError>
    requires brokers { (0 < brokers) × (brokers ≤ N.table.words) }
    requires first { first.old ≡ maker_of 0 }
    ensures made { IfOk result (λ v. v.items ≡ new_heralds brokers) }
    ensures first { IfOk result (λ _. first.new ≡ maker_of brokers) }
{
    let mut heralds = Vec::new(alloc);
    for rank in 0..brokers {
        heralds.push(Herald::of_token(rank, first.herald(feed)))?;
    }
    Ok(heralds)
}

// A pass at each of the brokers.
fn passes<N: FeedName>(
    alloc: Global,
    feed: &Feed<N>,
    first: &mut Token<N>,
    at: &[u32],
) -> Result<Vec<Pass<N>>, AllocError>
    requires some { 0 < N.table.words }
    requires ranks { All (λ rank. rank < N.table.words) at.now }
    requires first { first.old.seen ≡ [] }
    ensures { IfOk result (λ v. v.items ≡ map new_pass at.now) }
{
    let mut passes = Vec::new(alloc);
    for rank in at {
        passes.push(Pass::of_token(*rank, first.split(feed)))?;
    }
    Ok(passes)
}
