//! A live job with the units that it holds.
use lists::Copied;
use resource_set::NodeList;
use std::alloc::AllocError;

/// A live job with the units that it holds.
#[derive(Drop)]
pub struct Hold {
    pub id: u64,
    pub nodes: NodeList,
}

impl Copied for Hold {
    fn copy(&self) -> Result<Hold, AllocError> {
        Ok(Hold {
            id: self.id,
            nodes: self.nodes.copy()?,
        })
    }
}
