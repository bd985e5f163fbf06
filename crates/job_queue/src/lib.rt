//! The queue of waiting jobs in order of their priorities, and the dependencies that hold jobs back
//! (Flux RFC 26).
#![tactic(auto)]

pub mod dependencies;
pub mod laws;
mod open_table;
pub mod queue;
mod ranks;

pub use dependencies::{Open, Outcome, Scheme, Settled};
pub use queue::Queue;
