//! Tests of what threads share: of `root_feed` and `desk`.
#![tactic(auto)]

#[cfg(test)]
mod desks;
#[cfg(test)]
mod feeds;
#[cfg(test)]
mod lanes;
