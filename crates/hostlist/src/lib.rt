//! Host lists and their texts (Flux RFC 29).
#![tactic(auto)]

pub mod faults;
pub mod list;
pub mod names;
mod parts;
mod printing;
mod reading;

pub use faults::HostFault;
pub use list::HostList;
pub use names::{HostName, is_host_name};
