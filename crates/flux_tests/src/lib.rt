//! Tests of whole runs: of `world` and `flux`.
#![tactic(auto)]

#[cfg(test)]
mod orders;
#[cfg(test)]
mod priorities;
#[cfg(test)]
mod runs;
#[cfg(test)]
mod terms;
#[cfg(test)]
mod workers;
