//! Tests of what no command shows of the services of an instance: steps of `kvs_keys` and of the
//! requests on its links, of `kvs_content` and `content_service`, and of `job_clock` and
//! `job_landings`.
#![tactic(auto)]

#[cfg(test)]
mod brokers;
#[cfg(test)]
mod clocks;
#[cfg(test)]
mod content_commands;
#[cfg(test)]
mod contents;
#[cfg(test)]
mod landings;
#[cfg(test)]
mod requests;
