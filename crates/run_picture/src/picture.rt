//! What a picture shows, as plain data.

use job_states::State;
use lists::{Bytes, ListOf};

/// What the rows of a picture are about: hosts, or their cores and GPUs one by one.
#[derive(Clone, Copy, Debug, PartialEq, Eq)]
pub enum Rows {
    Hosts,
    Units,
}

/// What a row of a picture is about: a host, or one of its units.
#[derive(Drop)]
pub struct Place {
    pub host: Bytes,
    pub unit: Option<HostUnit>,
}

/// A core or a GPU of a host.
#[derive(Clone, Copy, Debug, PartialEq, Eq)]
pub struct HostUnit {
    pub is_gpu: bool,
    pub id: u32,
}

/// The jobs that hold a unit at a place, by their ids.
pub type Cell = ListOf<u64>;

/// An instance at the end of a second: a cell for each place, and for each broker the number of the
/// root of `primary` that it has heard of.
#[derive(Drop)]
pub struct Column {
    pub second: u64,
    pub cells: ListOf<Cell>,
    pub brokers: ListOf<Option<u64>>,
}

/// A job of the legend: its id, the label under which it was submitted, and its state when the
/// instance was seen last.
#[derive(Drop)]
pub struct JobSign {
    pub id: u64,
    pub label: Bytes,
    pub state: State,
}

/// An instance from its birth to its end: its number, that of its parent and the job there for
/// which it was born, its places, its columns and its jobs by their ids.
#[derive(Drop)]
pub struct Scene {
    pub number: u32,
    pub born: Option<(u32, u64)>,
    pub places: ListOf<Place>,
    pub columns: ListOf<Column>,
    pub jobs: ListOf<JobSign>,
}

/// The instances of a run, in the order of their births.
pub type Picture = ListOf<Scene>;
