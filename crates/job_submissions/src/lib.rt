//! Job submissions that wait: which of them are refused, and why; which are due, and what they
//! post.
#![tactic(auto)]

mod depends;
pub mod events;
pub mod faults;
pub mod laws;
pub mod posting;

pub use events::submit_event;
pub use faults::{Fault, fault_of};
pub use laws::{what_is_lacking_is_so_by_the_log, what_is_made_is_due};
pub use posting::submission;
