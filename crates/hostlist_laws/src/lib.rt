//! Lists of hosts as data (Flux RFC 29), and that the words of `hostlist`, which follow its reader,
//! mean them. The definitions stand in `specs/`, and the functions of `laws` state the laws.
#![tactic(auto)]

pub mod laws;

pub use laws::{item_texts_spell_their_hosts, texts_without_fault_are_of_items};
