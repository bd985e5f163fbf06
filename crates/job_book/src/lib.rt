//! The job manager's book: the state of each job of an instance, and the event that is due (Flux
//! RFC 16, 21, 26 and 27).
#![tactic(auto)]

mod active;
pub mod book;
mod seconds;
mod waking;

pub use book::Book;
pub use job_deeds::manager_rules::{Asked, Due, JobList, OpenList, Policy, Why};
