//! The cores or the GPUs of a host.
ghost use Rattle.std.specs.Prelude.{◌≡◌, ℕ, ◌≤◌, ◌<◌, length, take, map, IfOk, OnOk};
ghost use Rattle.idset.specs.Ids.{IsIdSet};
ghost use Rattle.graph_match.specs.Spots.{ids_of, free_ids, free_spot, marked_at};

use crate::spot::Spot;
use idset::IdSet;
use std::alloc::{AllocError, Global};
use std::marker::Model;

/// The cores, or the GPUs, of a host, with the count of those that are free.
#[derive(Drop)]
pub struct Pool {
    spots: Vec<Spot>,
    free: u32,
}

impl Model for Pool {
    ghost use Rattle.std.specs.Prelude.{List, ◌≡◌, length};
    ghost use Rattle.graph_match.specs.declared.spot.Spot.{Spot};

    ghost Value = { List Spot };

    ghost use Rattle.graph_match.specs.Spots.{free_ids};

    ghost view = { λ p. p.spots.items };

    ghost invariant = { λ p. p.free ≡ length (free_ids p.spots.items) };
}

/// A spot once these ids are free, or held.
fn marked(spot: Spot, ids: &IdSet, free: bool) -> Spot
    ensures { result ≡ marked_at free ids.now spot }
{
    if ids.has(spot.id) {
        Spot { id: spot.id, free }
    } else {
        spot
    }
}

/// Marks the ids as free, or as held.
fn mark_all(spots: &mut [Spot], ids: &IdSet, free: bool)
    ensures { spots.new ≡ map (marked_at free ids.now) spots.old }
{
    for spot in spots.iter_mut() {
        *spot = marked(*spot, ids, free);
    }
}

/// How many spots are free.
fn count_free(spots: &[Spot]) -> u32
    requires { length spots.now ≤ 65536 }
    ensures { result ≡ length (free_ids spots.now) }
{
    let mut count = 0;
    for spot in spots {
        if spot.free {
            count += 1;
        }
    }
    count
}

/// The first so many free ids.
fn first_free(alloc: Global, spots: &[Spot], count: u32) -> Result<Vec<u32>, AllocError>
    ensures { IfOk result (λ ids. ids.items ≡ take count (free_ids spots.now)) }
{
    let mut ids = Vec::new(alloc);
    for spot in spots {
        if spot.free && ids.len() < count as usize {
            ids.push(spot.id)?;
        }
    }
    Ok(ids)
}

/// These ids, all of them free.
fn all_free(alloc: Global, ids: &[u32]) -> Result<Vec<Spot>, AllocError>
    ensures { IfOk result (λ spots. spots.items ≡ map free_spot ids.now) }
{
    ids.iter()
        .map(|id| Spot {
            id: *id,
            free: true,
        })
        .collect(alloc)
}

impl Pool {
    /// These ids, all of them free.
    pub fn new(alloc: Global, ids: &IdSet) -> Result<Pool, AllocError>
        ensures pool { IfOk result (λ pool. pool ≡ map free_spot ids.now) }
        ensures set { OnOk result (IsIdSet ids.now) }
    {
        let free = ids.count();
        let ids = ids.ids()?;
        let spots = all_free(alloc, &ids)?;
        Ok(Pool { spots, free })
    }

    /// How many ids are free.
    pub fn free(&self) -> u32
        ensures { result ≡ length (free_ids self.now) }
    {
        self.free
    }

    /// How many ids there are.
    pub fn whole(&self) -> u32
        requires { length self.now ≤ 65536 }
        ensures { result ≡ length self.now }
    {
        self.spots.len() as u32
    }

    /// The lowest so many free ids.
    pub fn lowest(&self, count: u32) -> Result<IdSet, AllocError>
        requires { IsIdSet (ids_of self.now) }
        ensures { IfOk result (λ ids. ids ≡ take count (free_ids self.now)) }
    {
        let alloc = *self.spots.allocator();
        let ids = first_free(alloc, &self.spots, count)?;
        let set = IdSet::of_ids(alloc, &ids)?;
        Ok(set)
    }

    /// Marks these ids as free, or as held.
    pub fn mark(&mut self, ids: &IdSet, free: bool)
        requires { length self.old ≤ 65536 }
        ensures { self.new ≡ map (marked_at free ids.now) self.old }
    {
        mark_all(&mut self.spots, ids, free);
        self.free = count_free(&self.spots);
    }
}
