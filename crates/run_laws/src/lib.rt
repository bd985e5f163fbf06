//! What a legal chronicle says of its jobs and of its time, from its first entry to its last.
//! The definitions stand in `specs/`, and the functions of `laws` state the laws.
#![tactic(auto)]

pub mod laws;

pub use laws::{
    heads_keep_their_seconds, jobs_stay_sound, logs_only_grow, time_stays_within,
    watches_see_their_logs, what_roots_tell_of_jobs_goes_on,
};
