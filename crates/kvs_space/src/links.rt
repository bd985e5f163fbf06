//! The numbers of landings on their way down the tree.
ghost use Rattle.std.specs.Prelude.{◌≡◌, ℕ, ◌+◌, ◌<◌, ◌≤◌, ◌==◌, List, [], ◌∷◌, ◌++◌, nat_lt, length, OnOk, IfOk, option_to_list, slice_index, slice_set, IsSome, ◌↔◌};
ghost use Rattle.std.specs.List.{list_all};
ghost use Rattle.kvs_space.specs.Space.{link_at};
ghost use Rattle.kvs_space.specs.Links.{AreTold, IsAnnounced, IsAnnouncedBut, IsNext, after_loss};

use std::alloc::{AllocError, Global};
use std::collections::VecDeque;
use std::marker::Model;

/// What may befall the number that was sent first.
#[derive(Clone, Copy, Debug, PartialEq, Eq)]
pub enum Loss {
    /// It never comes.
    Lost,
    /// A copy of it comes behind the others too.
    Repeated,
    /// It comes behind the others.
    Swapped,
}

/// The numbers that are on the way to one broker, the oldest first.
#[derive(Drop)]
pub struct Link {
    numbers: VecDeque<u64>,
}

impl Model for Link {
    ghost use Rattle.std.specs.Prelude.{List, ℕ};

    ghost Value = { List ℕ };

    ghost view = { λ l. l.numbers.items };
}

impl Link {
    /// The link with nothing on its way.
    pub fn new(alloc: Global) -> Link
        ensures { result ≡ [] }
    {
        Link {
            numbers: VecDeque::new(alloc),
        }
    }

    /// Sends a number behind those on their way.
    pub fn push(&mut self, number: u64) -> Result<(), AllocError>
        ensures { OnOk result (self.new ≡ self.old ++ number ∷ []) }
    {
        self.numbers.push_back(number)?;
        Ok(())
    }

    /// Takes the number that was sent first.
    pub fn pop(&mut self) -> Option<u64>
        ensures first { self.old ≡ option_to_list result ++ self.new }
        ensures some { IsSome result ↔ (0 < length self.old) }
    {
        self.numbers.pop_front()
    }

    /// Lets the number that was sent first be lost, repeated or moved behind the others.
    pub fn lose(&mut self, loss: Loss) -> Result<(), AllocError>
        ensures { OnOk result (self.new ≡ after_loss loss self.old) }
    {
        match self.pop() {
            Some(number) => match loss {
                Loss::Lost => Ok(()),
                Loss::Repeated => {
                    self.numbers.push_front(number)?;
                    self.push(number)
                }
                Loss::Swapped => self.push(number),
            },
            None => Ok(()),
        }
    }

    /// Whether nothing is on its way.
    pub fn is_empty(&self) -> bool
        ensures { result ≡ (length self.now == 0) }
    {
        self.numbers.is_empty()
    }
}

/// Whether nothing is on its way to any broker.
pub fn are_empty(links: &Vec<Link>) -> bool
    ensures { result ≡ list_all (λ link. length link == 0) links.now.items }
{
    links.iter().all(|link| link.is_empty())
}

/// Sends a number to each child of a broker.
pub fn announce(
    links: &mut Vec<Link>,
    fanout: usize,
    from: usize,
    number: u64,
) -> Result<(), AllocError>
    requires { 0 < fanout }
    ensures { OnOk result (AreTold fanout from number links.old.items links.new.items) }
{
    for child in 1..links.len() {
        if (child - 1) / fanout == from {
            let link = &mut links[child];
            link.push(number)?;
        }
    }
    Ok(())
}

/// A broker hears a landing, and sends its number to its children.
pub fn hear(
    heard: &mut Vec<u64>,
    links: &mut Vec<Link>,
    fanout: usize,
    broker: usize,
    number: u64,
) -> Result<(), AllocError>
    requires fanout { 0 < fanout }
    requires announced { IsAnnouncedBut broker number fanout heard.old.items links.old.items }
    ensures heard { OnOk result (heard.new.items ≡ slice_set heard.old.items broker number) }
    ensures announced { OnOk result (IsAnnounced fanout heard.new.items links.new.items) }
    ensures told { OnOk result (AreTold fanout broker number links.old.items links.new.items) }
{
    heard[broker] = number;
    announce(links, fanout, broker, number)?;
    Ok(())
}

/// Delivers the oldest number on a link, which the broker hears where it is higher than its own.
/// Gives the number that it has heard then.
pub fn deliver(
    heard: &mut Vec<u64>,
    links: &mut Vec<Link>,
    fanout: usize,
    broker: usize,
) -> Result<u64, AllocError>
    requires fanout { 0 < fanout }
    requires above { 0 < broker }
    requires broker { broker < length heard.old.items }
    requires announced { IsAnnounced fanout heard.old.items links.old.items }
    requires some { 0 < length (link_at links.old.items broker) }
    ensures heard { IfOk result (λ r. heard.new.items ≡ slice_set heard.old.items broker r) }
    ensures next { IfOk result (λ r. IsNext fanout heard.old.items broker r) }
    ensures announced { OnOk result (IsAnnounced fanout heard.new.items links.new.items) }
    ensures shorter { OnOk result (length (link_at links.new.items broker) < length
        (link_at links.old.items broker)) }
{
    let link = &mut links[broker];
    match link.pop() {
        Some(number) => {
            if number > heard[broker] {
                hear(heard, links, fanout, broker, number)?;
                Ok(number)
            } else {
                Ok(heard[broker])
            }
        }
        None => unreachable!(),
    }
}
