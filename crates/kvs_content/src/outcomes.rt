//! What the calls on contents make.
use crate::node::KvsEvents;
use fl_digest::BlobRef;
use kvs_txn::By;
use lists::Bytes;

/// What a store made: the reference of the bytes, and what happened.
#[derive(Drop)]
pub struct Stored {
    pub reference: BlobRef,
    pub events: KvsEvents,
}

/// What a load comes to: it waits for a delivery, or it is told bytes, or that rank 0 has none.
#[derive(Drop)]
pub enum Load {
    Waits,
    Told(Option<Bytes>),
}

/// What a load made.
#[derive(Drop)]
pub struct Loaded {
    pub load: Load,
    pub events: KvsEvents,
}

/// What a load is told that waited: bytes, or that rank 0 has none.
#[derive(Drop)]
pub struct Answer {
    pub by: By,
    pub bytes: Option<Bytes>,
}

/// What a delivery made.
#[derive(Drop)]
pub struct Delivery {
    pub answer: Option<Answer>,
    pub events: KvsEvents,
}
