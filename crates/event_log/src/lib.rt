//! Event logs (Flux RFC 18): their lines, and the events that they tell.
#![tactic(auto)]

pub mod event;
pub mod reading;
pub mod writing;

pub use event::{Event, LogFault};
pub use reading::read;
pub use writing::{a_line_adds_an_event, a_log_is_read_again, line};
