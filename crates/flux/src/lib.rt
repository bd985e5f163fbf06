//! The top call: what the program does with its words, its input and its output.
#![tactic(auto)]

mod call;
mod generating;
mod playing;
mod process;

pub use call::flux;
pub use flux_commands::{
    Fault, Generation, Run, closing_notice, command_words, exit_code, notice, run_without_memory,
};
pub use process::{program, program_terms};
