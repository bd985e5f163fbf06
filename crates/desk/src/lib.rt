//! A machine under a lock with the steps that it has made, and workers that make the steps of their
//! lanes.
#![tactic(auto)]

mod held;
mod lanes;
mod machine;

pub use held::{Finished, Held};
pub use lanes::work;
pub use machine::Machine;
