//! How far an actor has seen, namespace by namespace.
ghost use Rattle.std.specs.Prelude.{◌≡◌, max, OnOk, Some};
ghost use Rattle.services.specs.kvs_model.Store.{Name};
ghost use Rattle.instance.specs.Floors.{floor_in, risen_in};

use services::lists::{Bytes, Copied};
use std::alloc::{AllocError, Global};
use std::collections::BTreeMap;
use std::marker::Model;

/// The greatest number that an actor has seen in each namespace, or was told of, which contracts
/// see as pairs.
#[derive(Drop)]
pub struct Floors {
    numbers: BTreeMap<Bytes, u64>,
}

impl Model for Floors {
    ghost use Rattle.instance.specs.Floors.{Floors as Pairs};

    ghost Value = { Pairs };

    ghost view = { λ floors. floors.numbers.entries };
}

impl Floors {
    /// The floors of an actor that has seen nothing.
    pub fn new(alloc: Global) -> Floors
        ensures { (space : Name) → floor_in result space ≡ 0 }
    {
        Floors {
            numbers: BTreeMap::new(alloc),
        }
    }

    /// The floor in a namespace.
    pub fn of(&self, space: &Bytes) -> u64
        ensures { result ≡ floor_in self.now space.now }
    {
        self.numbers.get(space).copied().unwrap_or(0)
    }

    /// Raises the floor in a namespace to a number.
    pub fn raise(&mut self, space: &Bytes, number: u64) -> Result<(), AllocError>
        ensures { OnOk result ((other : Name)
            → floor_in self.new other ≡ risen_in self.old space.now (Some number) other) }
    {
        let number = self.of(space).max(number);
        self.numbers.insert(space.copy()?, number)?;
        Ok(())
    }

    /// Raises each floor to that of another actor.
    pub fn join(&mut self, other: &Floors) -> Result<(), AllocError>
        ensures { OnOk result ((space : Name) → floor_in self.new space
            ≡ max (floor_in self.old space) (floor_in other.now space)) }
    {
        for space in other.numbers.keys() {
            self.raise(space, other.of(space))?;
        }
        Ok(())
    }
}
