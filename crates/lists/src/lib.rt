//! Lists that contracts see as lists, for any type of item: the list types of all plain data.
#![tactic(auto)]

mod list_of;

pub use list_of::{Bytes, Copied, ListOf};
