//! Jobspecs, version 1 (Flux RFC 25).
use lists::{Bytes, Copied, ListOf};
use std::alloc::AllocError;

/// How a job depends on another (Flux RFC 26).
#[derive(Clone, Copy, Debug, PartialEq, Eq)]
pub enum Scheme {
    /// The other job has started.
    After,
    /// The other job has ended.
    AfterAny,
    /// The other job has ended, and well.
    AfterOk,
    /// The other job has ended, and not well.
    AfterNotOk,
}

/// A dependency on the job of an id.
#[derive(Clone, Copy, Debug, PartialEq, Eq)]
pub struct Depend {
    pub scheme: Scheme,
    pub on: u64,
}

impl Copied for Depend {
    fn copy(&self) -> Result<Depend, AllocError> {
        Ok(*self)
    }
}

/// Dependencies in their order.
pub type Needs = ListOf<Depend>;

/// Texts in their order.
pub type WordList = ListOf<Bytes>;

/// How many tasks a job runs.
#[derive(Clone, Copy, Debug, PartialEq, Eq)]
pub enum Tasks {
    PerSlot(u32),
    Total(u32),
}

/// What a job asks for (jobspec, version 1, of Flux RFC 14 and 25).
#[derive(Drop)]
pub struct JobSpec {
    /// So many hosts, each with the slots; None spreads the slots over hosts.
    pub nodes: Option<u32>,
    /// Each of the hosts wholly.
    pub exclusive: bool,
    /// Slots in all, or on each host with `nodes`.
    pub slots: u32,
    /// Cores of a slot.
    pub cores: u32,
    /// GPUs of a slot.
    pub gpus: u32,
    pub command: WordList,
    pub tasks: Tasks,
    /// In seconds; 0 is no limit of its own.
    pub duration: u64,
    pub depends: Needs,
    /// The text that was read.
    pub text: Bytes,
}

impl Copied for JobSpec {
    fn copy(&self) -> Result<JobSpec, AllocError> {
        Ok(JobSpec {
            nodes: self.nodes,
            exclusive: self.exclusive,
            slots: self.slots,
            cores: self.cores,
            gpus: self.gpus,
            command: self.command.copy()?,
            tasks: self.tasks,
            duration: self.duration,
            depends: self.depends.copy()?,
            text: self.text.copy()?,
        })
    }
}
