//! What a job manager posts.
use event_log::Event;
use job_spec::{JobSpec, Needs};
use kvs_txn::By;
use lists::Bytes;
use manager_rules::Due;

/// A job that is submitted: its id, its jobspec and the text of that, the first event of its log,
/// its dependencies, and the command that submits it (Flux RFC 21 and 25).
#[derive(Drop)]
pub struct Submission {
    pub id: u64,
    pub text: Bytes,
    pub spec: JobSpec,
    pub event: Event,
    pub needs: Needs,
    pub command: By,
}

/// A submission, or an event that is due for a job.
#[derive(Drop)]
pub enum Post {
    Submits(Submission),
    Does(Due),
}
