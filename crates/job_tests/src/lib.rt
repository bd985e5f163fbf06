//! Tests of jobs and of what they are given: of `resource_set`, `job_spec`, `child_grant`,
//! `graph_match`, `shells`, `tap`, `job_states`, `job_queue`, `job_texts` and `job_watch`.
#![tactic(auto)]

#[cfg(test)]
mod children;
#[cfg(test)]
mod endings;
#[cfg(test)]
mod first_fit;
#[cfg(test)]
mod jobspecs;
#[cfg(test)]
mod queues;
#[cfg(test)]
mod resources;
#[cfg(test)]
mod states;
#[cfg(test)]
mod taps;
#[cfg(test)]
mod texts;
#[cfg(test)]
mod watches;
