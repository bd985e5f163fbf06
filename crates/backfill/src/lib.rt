//! EASY backfill: the second that is reserved for the job at the head of a queue, and whether a job
//! that starts before it leaves that second as it is (Lifka, The ANL/IBM SP Scheduling System,
//! 1995; a queue policy of Flux).
#![tactic(auto)]

pub mod hold;
pub mod reserving;

pub use hold::Hold;
pub use reserving::{Reservation, passes, reserve};
