//! Runs a world to its end: its steps by one worker or several, each the lanes of its own actors, and
//! its looks without the lock.
#![tactic(auto)]

mod gate;
mod passes;
mod running;

pub use running::run;
