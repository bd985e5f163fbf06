//! Tests of stores as blobs: of `tree_objects`, `tree_store` and `tree_walk`.
#![tactic(auto)]

#[cfg(test)]
mod drawn;
#[cfg(test)]
mod objects;
#[cfg(test)]
mod transactions;
#[cfg(test)]
mod walks;
