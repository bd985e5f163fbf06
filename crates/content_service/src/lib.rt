//! The content service of one instance (Flux RFC 10): what commands ask of contents, each with its
//! one answer.
#![tactic(auto)]

pub mod laws;
mod rows;
mod service;
mod serving;

pub use rows::{ContentAsk, Row, Stage};
pub use service::ContentService;
pub use serving::Served;
