//! What a job manager may do: the jobs of a store, and what is due for them (Flux RFC 16, 21, 25
//! and 26). The definitions stand in `specs/`, and the functions of `laws` state their laws.
#![tactic(auto)]

pub mod asked;
pub mod due;
pub mod laws;
pub mod limits;
pub mod policy;
pub mod terms;
pub mod why;

pub use asked::{Asked, OpenList};
pub use due::Due;
pub use laws::{
    a_store_has_one_list_of_jobs, dependencies_are_removed_once_met, due_events_do_one_step,
    due_events_keep_jobs_sound, due_events_keep_lists_sound, due_posts_change_the_jobs,
    due_posts_keep_stores_sound, due_posts_take_effect, due_submissions_add_a_job,
    due_submissions_tell_themselves, first_fit_serves_the_first_alone, first_stores_have_no_jobs,
    jobs_end_at_their_seconds, jobs_of_living_children_keep_their_units,
    jobs_of_the_run_end_when_they_said, logs_only_grow, nobody_is_turned_away_without_limits,
    one_job_at_a_time_takes, only_jobs_stand_below_job, reserved_seconds_never_rise,
    submissions_keep_jobs_sound, users_keep_stores_sound, users_leave_jobs, what_is_due_is_allowed,
    what_is_due_stays_due, who_passes_leaves_the_reserved_second,
};
pub use limits::verdict;
pub use policy::Policy;
pub use terms::{Limit, Limits, Shown, Terms};
pub use why::{JobList, Why};
