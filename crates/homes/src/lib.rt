//! The instances of a run, by their numbers, and where its actors stand: how an instance is born
//! and goes with all that lie within it, how time goes on for all that live, and what their actors
//! are told at the end.
#![tactic(auto)]

mod births;
mod closing;
mod ends;
mod entered;
mod grant;
mod homes;
mod time;

pub use births::{bear_for, child_home, settle};
pub use closing::{tell_all_unborn, tell_living};
pub use ends::{let_go, release, tell_ends, within};
pub use entered::enter;
pub use grant::hosts_of_brokers;
pub use homes::{
    Home, Origin, Place, first_places, home_at, next_line, turns_are_listed, work_for,
};
pub use time::{
    are_left, is_due, is_ending, least_end, least_target, may_go, pass_to, rest, sooner,
};
