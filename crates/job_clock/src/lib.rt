//! How time goes on in an instance: the next second, and what the log of the instance says of it
//! (Flux RFC 21).
#![tactic(auto)]

pub mod laws;
pub mod ticks;

pub use laws::{
    living_instances_have_these_seconds, no_open_advance_is_left, reached_advances_can_be_told,
    runs_may_close, ticks_may_be_made, times_follow_the_log, times_stay_within,
};
pub use ticks::{next_target, next_tick};
