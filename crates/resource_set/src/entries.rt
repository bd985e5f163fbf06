//! The entries of an R.
use idset::IdSet;
use lists::{Bytes, ListOf};

/// An entry of an R: ranks whose cores are the same, and whose GPUs are.
#[derive(Drop)]
pub struct Entry {
    pub ranks: IdSet,
    pub cores: IdSet,
    pub gpus: IdSet,
}

/// An entry in the making: its ranks, and the texts of its cores and GPUs.
#[derive(Drop)]
pub struct Group {
    pub ranks: ListOf<u32>,
    pub cores: Bytes,
    pub gpus: Bytes,
}
