//! Rules of jobs: which units satisfy a jobspec (Flux RFC 14), which are taken first, and which
//! jobs stand in its way. The definitions stand in `specs/`, and the functions of `laws` state
//! their laws.
#![tactic(auto)]

pub mod hold;
mod laws;

pub use hold::Hold;
pub use laws::{
    blockers_are_one_list, each_blocker_stands_in_the_way, first_fit_gives_free_units_that_satisfy,
    first_fit_gives_nothing_where_nothing_satisfies, free_units_are_those_that_are_left,
    hosts_apart_have_no_unit_in_common, hosts_within_others_have_their_units,
    jobspecs_that_are_read_are_some, spread_slots_are_as_many_as_wanted,
    units_satisfy_where_hosts_bring_enough, what_never_fits_gets_nothing,
};
