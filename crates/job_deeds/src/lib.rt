//! What is due for one job of an instance, and what a landed event makes of it (Flux RFC 16, 21, 26
//! and 27).
#![tactic(auto)]

// The crates below that those above reach through this one.
pub use event_log;
pub use graph_match;
pub use idset;
pub use job_queue;
pub use job_spec;
pub use job_states;
pub use job_texts;
pub use kvs_txn;
pub use lists;
pub use manager_rules;
pub use resource_set;
pub use shells;
pub use tap;

mod action;
mod commands;
mod decisions;
mod dependencies;
mod landing;
mod passing;
mod priorities;
mod reasons;
mod row;
mod states;
mod waiting;

pub use action::{Action, due};
pub use decisions::{Desk, choice};
pub use dependencies::is_over;
pub use landing::{Held, Next, change_at, hold, next_of};
pub use passing::passer;
pub use reasons::reason;
pub use row::{Row, find, place_in, place_of};
pub use waiting::rank;
