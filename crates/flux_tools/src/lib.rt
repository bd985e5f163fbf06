//! The tools: an idset, a hostlist or a FLUID that stands in the words, or an R from the source, is
//! printed canonically; the state that an eventlog tells is named.
#![tactic(auto)]

pub mod faults;
mod lines;
pub mod tools;

pub use faults::ToolFault;
pub use tools::{ToolName, is_tool, tool};
