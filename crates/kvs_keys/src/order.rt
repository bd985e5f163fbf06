//! The order in which deliveries are made: by sender, then by receiver.
ghost use Rattle.std.specs.Prelude.{◌≡◌, ℕ, ◌<◌, ◌⊎◌, true, IfSome};
ghost use Rattle.std.specs.List.{list_any};
ghost use Rattle.kvs_rules.specs.Brokers.{parent};
ghost use Rattle.kvs_requests.specs.Stages.{is_on};
ghost use Rattle.kvs_space.specs.Roll.{IsRoll};
ghost use Rattle.kvs_space.specs.Space.{has_news};
ghost use Rattle.kvs_keys.specs.Order.{IsAnnouncing, Leads};

use kvs_requests::{Row, Stage};
use kvs_space::{Roll, Space, first_news};

/// A sender and a receiver.
#[derive(Clone, Copy, Debug, PartialEq, Eq)]
pub struct Hop {
    pub from: u32,
    pub to: u32,
}

/// The one of two that comes first, where there is one.
fn earlier(one: Option<Hop>, other: Option<Hop>) -> Option<Hop>
    ensures either { (result ≡ one) ⊎ (result ≡ other) }
    ensures one { IfSome one (λ hop. Leads result hop.from hop.to) }
    ensures other { IfSome other (λ hop. Leads result hop.from hop.to) }
{
    match (one, other) {
        (Some(a), Some(b)) => {
            if a.from < b.from || (a.from == b.from && a.to <= b.to) {
                Some(a)
            } else {
                Some(b)
            }
        }
        (Some(a), None) => Some(a),
        (None, b) => b,
    }
}

/// The link on which a request is a message.
fn hop_of(row: &Row) -> Option<Hop>
    ensures some { IfSome result (λ hop. is_on hop.from hop.to row.now ≡ true) }
    ensures first { (from to : ℕ) → is_on from to row.now ≡ true → Leads result from to }
{
    match &row.stage {
        Stage::Rising { from, to, .. } => Some(Hop {
            from: *from,
            to: *to,
        }),
        Stage::Falling { from, to, .. } => Some(Hop {
            from: *from,
            to: *to,
        }),
        Stage::Returning { from, to, .. } => Some(Hop {
            from: *from,
            to: *to,
        }),
        _ => None,
    }
}

/// The first link on which a request is a message.
pub fn first_message(rows: &Vec<Row>) -> Option<Hop>
    ensures some { IfSome result (λ hop. list_any (is_on hop.from hop.to) rows.now.items ≡ true) }
    ensures first { (from to : ℕ) → list_any (is_on from to) rows.now.items ≡ true
        → Leads result from to }
{
    let mut first = None;
    for row in rows {
        first = earlier(first, hop_of(row));
    }
    first
}

/// The link to a broker, where an announcement is on the way.
fn announced_to(roll: &Roll, spaces: &Vec<Space>, fanout: u32, to: u32) -> Option<Hop>
    requires roll { IsRoll roll.now spaces.now.items }
    requires fanout { 0 < fanout }
    requires above { 0 < to }
    ensures some { IfSome result (λ hop. (hop.to ≡ to)
        × IsAnnouncing fanout spaces.now.items hop.from hop.to) }
    ensures first { list_any (has_news to) spaces.now.items ≡ true
        → Leads result (parent fanout to) to }
{
    match first_news(roll, spaces, to) {
        Some(_) => Some(Hop {
            from: (to - 1) / fanout,
            to,
        }),
        None => None,
    }
}

/// The first link on which an announcement is.
pub fn first_announced(roll: &Roll, spaces: &Vec<Space>, fanout: u32, size: u32) -> Option<Hop>
    requires roll { IsRoll roll.now spaces.now.items }
    requires fanout { 0 < fanout }
    ensures some { IfSome result (λ hop. (hop.to < size)
        × IsAnnouncing fanout spaces.now.items hop.from hop.to) }
    ensures first { (to : ℕ) → 0 < to → to < size
        → list_any (has_news to) spaces.now.items ≡ true → Leads result (parent fanout to) to }
{
    let mut first = None;
    for to in 1..size {
        first = earlier(first, announced_to(roll, spaces, fanout, to));
    }
    first
}

/// The first link on which a message is.
pub fn first_delivery(
    roll: &Roll,
    spaces: &Vec<Space>,
    rows: &Vec<Row>,
    fanout: u32,
    size: u32,
) -> Option<Hop>
    requires roll { IsRoll roll.now spaces.now.items }
    requires fanout { 0 < fanout }
    ensures some { IfSome result (λ hop. ((hop.to < size)
        × IsAnnouncing fanout spaces.now.items hop.from hop.to)
        ⊎ (list_any (is_on hop.from hop.to) rows.now.items ≡ true)) }
    ensures announced { (to : ℕ) → 0 < to → to < size
        → list_any (has_news to) spaces.now.items ≡ true → Leads result (parent fanout to) to }
    ensures carried { (from to : ℕ) → list_any (is_on from to) rows.now.items ≡ true
        → Leads result from to }
{
    earlier(
        first_announced(roll, spaces, fanout, size),
        first_message(rows),
    )
}
