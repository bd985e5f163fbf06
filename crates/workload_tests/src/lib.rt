//! Tests of what goes into a run, before one is made, and of how its answers are printed: of
//! `workload`, `workload_reader`, `workload_generator`, `run_options` and `answers`.
#![tactic(auto)]

#[cfg(test)]
mod generated;
#[cfg(test)]
mod options;
#[cfg(test)]
mod printed;
#[cfg(test)]
mod workloads;
