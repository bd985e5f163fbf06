//! The commands of the program but for the runs that they make: their words, what they read and
//! write, and how they end.
#![tactic(auto)]

mod drawing;
mod faults;
mod notices;
mod process;
mod reading;
mod telling;

pub use drawing::{DRAWN_OPTIONS, Generation, drawn_work, generation_of};
pub use faults::{Fault, Run, status};
pub use notices::notice;
pub use process::{all_words, closing_notice, command_words, end, exit_code, run_without_memory};
pub use reading::{options_of_run, read_work};
pub use telling::{run_tool, tell};
