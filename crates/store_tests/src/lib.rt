//! Tests of what merges transactions, and of what keeps contents: of `fence_merge`, `blob_store`,
//! `cache_node` and `backing`.
#![tactic(auto)]

#[cfg(test)]
mod blobs;
#[cfg(test)]
mod caches;
#[cfg(test)]
mod keepers;
#[cfg(test)]
mod merges;
