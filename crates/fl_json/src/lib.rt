//! JSON with whole numbers alone: texts, their values, and the fields of objects.
#![tactic(auto)]

pub mod faults;
pub mod fields;
pub mod laws;
pub mod numbers;
pub mod reading;

pub use faults::JsonFault;
pub use fields::{field, list, number, word};
pub use laws::pieces_make_up_their_text;
pub use reading::{read, text};
pub use serde_json::Value;
