//! The instances of a run, by their numbers, and where its actors stand.
ghost use Rattle.std.specs.Prelude.{◌≡◌, ◌≢◌, ◌≤◌, ◌<◌, ℕ, IfOk, [], filter, length, option_map, slice_get, slice_index_or};
ghost use Rattle.instance.specs.answers.Chronicle.{Setup};
ghost use Rattle.hierarchy.specs.Births.{is_at};
ghost use Rattle.hierarchy.specs.Own.{placed, work_for};
ghost use Rattle.instance.specs.workload.declared.work.Line.{Line as LineValue};
ghost use Rattle.instance.specs.workload.Limits.{most_actors};
ghost use Rattle.homes.specs.Homes.{ArePlaces, AreReady, ListTurns};

use instance::Instance;
use instance::lists::{Bytes, Copied, ListOf};
use instance::workload::{Actor, ActorList, Line, Workload};
use std::alloc::{AllocError, Global};

/// Whose child an instance is: the job of its parent, and that job's label.
#[derive(Drop)]
pub struct Origin {
    pub parent: u32,
    pub job: u64,
    pub label: Bytes,
}

/// An instance that was born; the top has no origin.
#[derive(Drop)]
pub struct Home {
    pub origin: Option<Origin>,
    /// The lines of its own actors alone.
    pub work: Workload,
    pub instance: Instance,
    /// One of its actors has issued a shutdown.
    pub shuts: bool,
    pub gone: bool,
}

/// Where an actor stands: in which instance, once that is born, the place of its next line, how
/// many of its commands are issued, and whether the last one waits for its reply.
#[derive(Clone, Copy, Debug, PartialEq, Eq)]
pub struct Place {
    pub home: Option<u32>,
    pub next: usize,
    pub issued: u32,
    pub waits: bool,
}

/// The services of each instance list a step where they can make one.
pub fn turns_are_listed(homes: &[Home])
    requires { AreReady homes.now }
    ensures { ListTurns homes.now }
{
    for home in homes {
        home.instance.next_turn();
    }
}

/// The instance of a number, if one was born.
pub fn home_at(homes: &[Home], number: u32) -> Option<&Home>
    ensures { option_map (λ h. h.now) result ≡ slice_get homes.now number }
{
    match homes.get(number as usize) {
        Some(home) => Some(home),
        None => None,
    }
}

/// The place of the next line of an actor, from this one on, or that behind the last line.
pub fn next_line(lines: &[Line], from: usize, actor: u32) -> usize
    requires { from ≤ length lines.now }
    ensures within { (from ≤ result) × (result ≤ length lines.now) }
    ensures passed { (k : ℕ) (d : LineValue) → from ≤ k → k < result
        → (slice_index_or lines.now k d).actor ≢ actor }
    ensures here { (d : LineValue) → result < length lines.now
        → (slice_index_or lines.now result d).actor ≡ actor }
{
    let mut at = from;
    while at < lines.len() && lines[at].actor != actor {
        at += 1;
    }
    at
}

/// Whether an actor is one of the child with this label, or of the top.
pub fn is_at(actors: &ActorList, label: Option<&Bytes>, actor: u32) -> bool
    ensures { result ≡ is_at actors.now (option_map (λ l. l.now) label.entry) actor }
{
    let Some(actor) = actors.as_slice().get(actor as usize) else {
        return label.is_none();
    };
    match (&actor.of, label) {
        (None, None) => true,
        (Some(one), Some(other)) => one.as_slice() == other.as_slice(),
        _ => false,
    }
}

/// An actor at the broker of its rank, of so many.
fn placed(actor: &Actor, size: u32) -> Result<Actor, AllocError>
    requires { 1 ≤ size }
    ensures { IfOk result (λ twin. twin ≡ placed size actor.now) }
{
    let mut twin = actor.copy()?;
    twin.rank %= u64::from(size);
    Ok(twin)
}

/// The workload of the child with this label, or of the top, at so many brokers: the lines of its
/// own actors alone. All actors keep their numbers.
pub fn work_for(
    alloc: Global,
    work: &Workload,
    label: Option<&Bytes>,
    size: u32,
) -> Result<Workload, AllocError>
    requires { 1 ≤ size }
    ensures { IfOk result (λ own.
        own ≡ work_for work.now (option_map (λ l. l.now) label.entry) size) }
{
    let mut actors = ListOf::new(alloc);
    for actor in work.actors.as_slice() {
        actors.push(placed(actor, size)?)?;
    }
    Ok(Workload {
        actors,
        lines: lines_of(alloc, work, label)?,
        grant: work.grant.copy()?,
    })
}

/// The lines of the actors of the child with this label, or of the top.
fn lines_of(
    alloc: Global,
    work: &Workload,
    label: Option<&Bytes>,
) -> Result<ListOf<Line>, AllocError>
    ensures { IfOk result (λ lines. lines ≡ filter
        (λ line. is_at work.now.actors (option_map (λ l. l.now) label.entry) line.actor)
        work.now.lines) }
{
    let mut lines = ListOf::new(alloc);
    for line in work.lines.as_slice() {
        if is_at(&work.actors, label, line.actor) {
            lines.push(line.copy()?)?;
        }
    }
    Ok(lines)
}

/// The places of a workload's actors before anything has happened.
pub fn first_places(alloc: Global, work: &Workload) -> Result<Vec<Place>, AllocError>
    requires { length work.now.actors ≤ most_actors }
    ensures { IfOk result (λ places. (set : Setup) → set.work ≡ work.now
        → ArePlaces set [] places.items) }
{
    let mut places = Vec::new(alloc);
    for (number, actor) in work.actors.as_slice().iter().enumerate() {
        let home = match actor.of {
            None => Some(0),
            Some(_) => None,
        };
        places.push(Place {
            home,
            next: next_line(work.lines.as_slice(), 0, number as u32),
            issued: 0,
            waits: false,
        })?;
    }
    Ok(places)
}
