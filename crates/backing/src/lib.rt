//! A backing store: where contents and checks are kept beyond a run. A check is what a later run
//! starts from: a root and the second at which it was the newest (the content backing store and the
//! checkpoints of Flux RFC 10 and 11).
#![tactic(auto)]

mod keeper;
mod memory;
mod sql;

use fl_digest::{BlobRef, Root};
pub use keeper::{KeepFault, Keeper};
use lists::{Bytes, Copied};
pub use memory::MemKeeper;
pub use sql::SqlKeeper;
use std::alloc::AllocError;

/// A root, and the second at which it was marked.
#[derive(Clone, Copy, Debug, PartialEq, Eq)]
pub struct Check {
    pub root: Root,
    pub second: u64,
}

impl Copied for Check {
    fn copy(&self) -> Result<Check, AllocError> {
        Ok(*self)
    }
}

/// What a keeper was given to keep.
#[derive(Drop)]
pub enum Write {
    Put(BlobRef, Bytes),
    Mark(Check),
}

impl Copied for Write {
    fn copy(&self) -> Result<Write, AllocError> {
        Ok(match self {
            Write::Put(reference, bytes) => Write::Put(*reference, bytes.copy()?),
            Write::Mark(check) => Write::Mark(*check),
        })
    }
}
