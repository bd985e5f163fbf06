//! The contents of an instance (Flux RFC 10): a write-back cache at each broker, and the store at
//! rank 0.
#![tactic(auto)]

mod contents;
mod node;
mod offers;
mod outcomes;
mod wants;

pub use contents::Contents;
pub use node::{Flush, KvsEvents, Node};
pub use offers::{Offer, OfferStage};
pub use outcomes::{Answer, Delivery, Load, Loaded, Stored};
pub use wants::{Gift, Want, WantStage};
