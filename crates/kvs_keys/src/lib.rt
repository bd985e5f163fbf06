//! The key-value service of one instance: a tree of brokers over links, and rank 0 where
//! transactions land.
#![tactic(auto)]

pub mod laws;
mod order;
mod service;

pub use kvs_space::KvsEvents;
pub use service::{Held, Keys, KeysFault, Request, Setting};
