//! Which namespaces there are, and in which of them something may still happen.
ghost use Rattle.std.specs.Prelude.{◌≡◌, ◌≢◌, ◌<◌, ◌++◌, ◌∷◌, List, [], ◌==◌, not, None, OnOk, length, map};
ghost use Rattle.std.specs.List.{All, AllPairs, filter, list_any, position};
ghost use Rattle.std.specs.Str.{bytes_eq};
ghost use Rattle.kvs_space.specs.Roll.{IsRoll};
ghost use Rattle.kvs_space.specs.Space.{SpaceValue, has_news, is_behind, is_known_to, is_named, is_ready, live_in};
ghost use Rattle.kvs_space.specs.Losses.{resynced};

use crate::space::Space;
use indexmap::IndexSet;
use lists::Bytes;
use std::alloc::{AllocError, Global};
use std::marker::Model;

/// The roll of a table of namespaces, by which no step goes over all that were ever opened: their
/// names, and the places of those that are awake, in order. Each other one is at rest.
#[derive(Drop)]
pub struct Roll {
    names: IndexSet<Vec<u8>>,
    awake: Vec<usize>,
}

impl Model for Roll {
    ghost use Rattle.std.specs.Prelude.{map};
    ghost use Rattle.kvs_space.specs.Roll.{RollValue};

    ghost Value = { RollValue };

    ghost view = { λ r. record {
      names = map (λ key. key.items) r.names.keys;
      awake = r.awake.items;
    } };
}

impl Roll {
    /// The roll of a table without namespaces.
    pub fn new(alloc: Global) -> Roll
        ensures { result ≡ record { names = []; awake = [] } }
    {
        Roll {
            names: IndexSet::new(alloc),
            awake: Vec::new(alloc),
        }
    }

    /// The place in the table of the namespace of a name.
    pub fn find(&self, name: &Bytes) -> Option<usize>
        ensures place { result ≡ position (bytes_eq name.now) self.now.names }
        ensures found { (spaces : List SpaceValue) → IsRoll self.now spaces
            → result ≡ position (is_named name.now) spaces }
    {
        self.names.get_index_of(name.as_slice())
    }

    /// Enters the name of a namespace that comes last in the table; it is awake.
    pub fn enter(&mut self, alloc: Global, name: &Bytes) -> Result<(), AllocError>
        requires new { position (bytes_eq name.now) self.old.names ≡ None }
        ensures entered { OnOk result (self.new ≡ record {
          names = self.old.names ++ name.now ∷ [];
          awake = self.old.awake ++ length self.old.names ∷ [];
        }) }
    {
        let place = self.names.len();
        self.names.insert(Vec::from_slice(alloc, name.as_slice())?)?;
        self.awake.push(place)?;
        Ok(())
    }

    /// Lets a place rest.
    fn let_rest(&mut self, place: usize)
        ensures { self.new ≡ record {
          names = self.old.names;
          awake = filter (λ other. not (other == place)) self.old.awake;
        } }
    {
        self.awake.retain(|other| *other != place);
    }
}

/// Lets the namespace of a place rest, if nothing happens in it any more.
pub fn let_rest(roll: &mut Roll, spaces: &Vec<Space>, place: usize)
    requires within { place < length spaces.now.items }
    requires roll { IsRoll roll.old spaces.now.items }
    ensures { IsRoll roll.new spaces.now.items }
{
    if spaces[place].is_at_rest() {
        roll.let_rest(place);
    }
}

/// The place in the table of the namespace of a name, if a broker has heard of it.
pub fn find_known(roll: &Roll, spaces: &Vec<Space>, name: &Bytes, broker: u32) -> Option<usize>
    requires roll { IsRoll roll.now spaces.now.items }
    requires apart { AllPairs (λ one other. one.name ≢ other.name) spaces.now.items }
    ensures { result ≡ position (is_known_to broker name.now) spaces.now.items }
{
    match roll.find(name) {
        Some(place) => {
            if 0 < spaces[place].known(broker) {
                Some(place)
            } else {
                None
            }
        }
        None => None,
    }
}

/// How many of the namespaces are live.
pub fn count_live(roll: &Roll, spaces: &Vec<Space>) -> usize
    requires { IsRoll roll.now spaces.now.items }
    ensures { result ≡ live_in spaces.now.items }
{
    let mut live = 0;
    for place in &roll.awake {
        if !spaces[*place].is_removed() {
            live += 1;
        }
    }
    live
}

/// The place of the first namespace of which an announcement is on the way to a broker.
pub fn first_news(roll: &Roll, spaces: &Vec<Space>, broker: u32) -> Option<usize>
    requires { IsRoll roll.now spaces.now.items }
    ensures { result ≡ position (has_news broker) spaces.now.items }
{
    for place in &roll.awake {
        if spaces[*place].has_news(broker) {
            return Some(*place);
        }
    }
    None
}

/// Whether an announcement is on the way to a broker.
pub fn is_news(roll: &Roll, spaces: &Vec<Space>, broker: u32) -> bool
    requires { IsRoll roll.now spaces.now.items }
    ensures { result ≡ list_any (has_news broker) spaces.now.items }
{
    first_news(roll, spaces, broker).is_some()
}

/// The place of the first namespace of which a broker knows fewer roots than the broker above it.
fn first_behind(roll: &Roll, spaces: &Vec<Space>, fanout: u32, broker: u32) -> Option<usize>
    requires roll { IsRoll roll.now spaces.now.items }
    requires fanout { 0 < fanout }
    ensures { result ≡ position (is_behind fanout broker) spaces.now.items }
{
    for place in &roll.awake {
        if spaces[*place].is_behind(fanout, broker) {
            return Some(*place);
        }
    }
    None
}

/// Whether a broker knows of fewer roots of a namespace than the broker above it.
pub fn is_behind(roll: &Roll, spaces: &Vec<Space>, fanout: u32, broker: u32) -> bool
    requires roll { IsRoll roll.now spaces.now.items }
    requires fanout { 0 < fanout }
    ensures { result ≡ list_any (is_behind fanout broker) spaces.now.items }
{
    first_behind(roll, spaces, fanout, broker).is_some()
}

/// Announces to a broker each root that the broker above it knows and it does not: the newest of
/// each namespace in which it is behind.
pub fn resync(
    roll: &Roll,
    spaces: &mut Vec<Space>,
    fanout: u32,
    broker: u32,
) -> Result<(), AllocError>
    requires roll { IsRoll roll.now spaces.old.items }
    requires fanout { 0 < fanout }
    requires linked { All (λ s. length s.links ≡ length s.known) spaces.old.items }
    ensures resynced { OnOk result
        (spaces.new.items ≡ map (resynced fanout broker) spaces.old.items) }
    ensures roll { OnOk result (IsRoll roll.now spaces.new.items) }
{
    for place in &roll.awake {
        let space = &mut spaces[*place];
        space.resync(fanout, broker)?;
    }
    Ok(())
}

/// The place of the first namespace in which something is ready to land.
pub fn first_landing(roll: &Roll, spaces: &Vec<Space>) -> Option<usize>
    requires { IsRoll roll.now spaces.now.items }
    ensures { result ≡ position is_ready spaces.now.items }
{
    for place in &roll.awake {
        if spaces[*place].is_ready() {
            return Some(*place);
        }
    }
    None
}
