//! Sets of ids and their text (Flux RFC 22).
#![tactic(auto)]

pub mod faults;
pub mod printer;
pub mod ranges;
pub mod reader;
pub mod set;

pub use faults::IdFault;
pub use ranges::IdRange;
pub use set::IdSet;
