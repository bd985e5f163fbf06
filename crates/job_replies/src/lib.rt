//! What open job commands are told (Flux RFC 14, 16, 20 and 21).
#![tactic(auto)]

mod jobs;
pub mod laws;
pub mod ready;
pub mod telling;

pub use laws::what_is_told_is_legal;
pub use ready::is_ready;
pub use telling::{Told, tell};
