//! Runs with child instances: who lives, which entries are whose, and when the chronicle of a run
//! is legal and whole.
//!
//! The definitions stand in `specs/`, and the functions of the modules state their laws.
#![tactic(auto)]

pub mod closing;
pub mod ends;
pub mod family;
pub mod growing;
pub mod grown;
pub mod hearings;
pub mod laws;
pub mod promises;
pub mod workloads;

pub use laws::{
    a_run_stays_sound, a_run_without_children_is_of_one_instance, a_whole_run_is_legal_in_all,
    children_stay_nested, jobs_stay_sound_in_all, logs_only_grow_in_all, time_stays_within_the_run,
    what_has_gone_stays_gone,
};
pub use promises::a_true_run_keeps_its_promises;
