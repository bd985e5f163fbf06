//! The world of a run that a name names, with the words of its feed: the word of each broker of the
//! top is what it has heard of `primary`.
#![tactic(auto)]

pub use root_feed;
pub use world;

mod heralds;
mod looks;
mod machine;
mod named;

pub use looks::{Look, RunName};
pub use named::NamedWorld;
