//! One instance: actors at its brokers, who stage operations and see how far it has come, its
//! key-value service, and its jobs.
#![tactic(auto)]

// The crates below that those above reach through this one.
pub use services::{
    answers, fl_digest, idset, kvs_core, kvs_rules, kvs_txn, lists, manager_rules, resource_set,
    run_limits, tap, workload,
};

mod actors;
mod floors;
mod jobs;
mod seats;
mod unfinished;

pub use actors::Instance;
pub use seats::OpenLook;
pub use services::kvs_core::{CoreFault, Setting};
