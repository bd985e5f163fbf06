//! The job manager of an instance over its key-value service: what it posts, and its book, which
//! follows what lands (Flux RFC 16, 20, 21 and 25).
#![tactic(auto)]

pub mod keys;
pub mod laws;
pub mod manager;
mod places;
pub mod post;
mod txns;

pub use keys::{log_path, r_path, spec_path};
pub use laws::what_lands_is_due;
pub use manager::Manager;
pub use post::{Post, Submission};
