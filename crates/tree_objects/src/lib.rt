//! Tree objects (Flux RFC 11): values, directories, links and references to blobs, and their JSON
//! texts.
#![tactic(auto)]

pub mod faults;
pub mod object;
mod pieces;
pub mod printing;
pub mod reading;
mod scanning;
mod writing;

pub use faults::ObjectFault;
pub use object::{Object, ObjectMap};
pub use printing::print;
pub use reading::read;
