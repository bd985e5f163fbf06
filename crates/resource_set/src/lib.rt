//! Resources of a job or an instance: R, version 1 (Flux RFC 20), their text and their units.
#![tactic(auto)]

pub mod entries;
pub mod faults;
pub mod fields;
mod laws;
pub mod node;
pub mod placing;
pub mod printing;
pub mod reading;
pub mod units;

pub use faults::{RFault, RKey};
pub use laws::{
    each_host_stands_in_one_entry, entries_have_different_children,
    entries_stand_in_the_order_of_ranks,
};
pub use node::{Node, NodeList, Resources};
pub use printing::print;
pub use reading::read;
pub use units::{minus, within};
