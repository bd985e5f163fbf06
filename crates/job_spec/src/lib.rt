//! Jobspecs, version 1 (Flux RFC 14 and 25): what a job asks for, and its text.
#![tactic(auto)]

pub mod faults;
mod fields;
pub mod laws;
mod limits;
pub mod reading;
mod resources;
pub mod spec;
mod works;

pub use faults::{Place, SpecFault};
pub use laws::{accepted_texts_are_kept, accepted_texts_tell_jobspecs};
pub use reading::read;
pub use spec::{Depend, JobSpec, Needs, Scheme, Tasks, WordList};
