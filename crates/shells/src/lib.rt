//! Simulated commands: when and how the command of a started job ends.
#![tactic(auto)]

pub mod commands;
pub mod ends;

pub use commands::ending;
pub use ends::Ending;
