//! The services of one instance (Flux RFC 10, 11, 14, 16 and 21): its jobs over the key-value service
//! with its contents.
#![tactic(auto)]

// The crates below that those above reach through this one.
pub use job_service;
pub use job_service::{
    answers, fl_digest, idset, job_commands, job_states, kvs_core, kvs_rules, kvs_txn, lists,
    manager_rules, resource_set, run_limits, tap, workload,
};

pub mod laws;
mod services;

pub use laws::shutdowns_leave_services;
pub use services::Services;
