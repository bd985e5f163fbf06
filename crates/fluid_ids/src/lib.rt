//! FLUIDs: ids that rise, and their texts (Flux RFC 19).
#![tactic(auto)]

pub mod faults;
pub mod forms;
pub mod generator;
pub mod laws;
pub mod printer;
pub mod reader;

pub use faults::FluidFault;
pub use forms::Form;
pub use generator::Generator;
pub use laws::{ids_tell_their_parts, printed_ids_are_read_again};
pub use printer::print;
pub use reader::read;
