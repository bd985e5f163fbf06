//! The states of a job (Flux RFC 21): what the events of its log make of it.
#![tactic(auto)]

mod changes;
pub mod job;
pub mod laws;
pub mod replaying;
mod table;

pub use job::{Change, DependList, Job, ReplayFault, State};
pub use laws::{a_refusal_stays, beginnings_of_logs_replay, one_event_more_is_one_step};
pub use replaying::{begin, replay, step};
pub use table::can_stand;
