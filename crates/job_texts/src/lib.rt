//! What the events of jobs tell: the texts of those that the job manager writes, and the
//! dependencies that a submission lists (Flux RFC 18, 21, 22 and 26).
#![tactic(auto)]

mod needs;
mod texts;

pub use needs::needs_of;
pub use texts::{
    described_event, description, exception_event, finish_event, plain_event, priority_event,
    ranks, release_event, urgency_event,
};
