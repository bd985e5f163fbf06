//! The jobs of one instance over its job manager: its job commands, their replies and its time
//! (Flux RFC 14, 16, 21 and 25).
#![tactic(auto)]

// The crates below that those above reach through this one.
pub use answers;
pub use fl_digest;
pub use job_commands;
pub use job_deeds::{idset, job_states, kvs_txn, lists, manager_rules, resource_set, tap};
pub use job_replies;
pub use kvs_core;
pub use kvs_rules;
pub use run_limits;
pub use workload;

mod children;
mod due;
mod feeds;
mod landing;
pub mod laws;
mod posting;
mod refusals;
mod rest;
mod service;
mod time;

pub use feeds::{Fed, Feed};
pub use laws::{shutdowns_leave_jobs, what_waits_stays_due};
pub use refusals::Refused;
pub use service::JobService;
