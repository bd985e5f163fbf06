//! Hosts with their units (Flux RFC 20).
use idset::IdSet;
use lists::{Bytes, Copied, ListOf};
use std::alloc::AllocError;

/// A host with its rank, its cores and its GPUs.
#[derive(Drop)]
pub struct Node {
    pub rank: u32,
    pub host: Bytes,
    pub cores: IdSet,
    pub gpus: IdSet,
}

impl Copied for Node {
    fn copy(&self) -> Result<Node, AllocError> {
        Ok(Node {
            rank: self.rank,
            host: self.host.copy()?,
            cores: self.cores.copy()?,
            gpus: self.gpus.copy()?,
        })
    }
}

/// Hosts by rank.
pub type NodeList = ListOf<Node>;

/// The resources of several hosts (R, version 1, of Flux RFC 20), from a second on and until
/// another; 0 means none.
#[derive(Drop)]
pub struct Resources {
    pub nodes: NodeList,
    /// In seconds.
    pub starttime: u64,
    /// In seconds.
    pub expiration: u64,
}

impl Copied for Resources {
    fn copy(&self) -> Result<Resources, AllocError> {
        Ok(Resources {
            nodes: self.nodes.copy()?,
            starttime: self.starttime,
            expiration: self.expiration,
        })
    }
}
