//! The states of a job, and what its log says of it (Flux RFC 21).
ghost use Rattle.std.specs.Prelude.{◌≡◌};
ghost use Rattle.job_states.specs.Names.{state_name};
ghost use Rattle.job_states.specs.declared.job.ReplayFault.TheVariants.{NoMemory};

use lists::{Bytes, Copied, ListOf};
use std::alloc::AllocError;
use std::error::Error;
use std::fmt;

/// The states of a job, in their usual order.
#[derive(Clone, Copy, Debug, PartialEq, Eq)]
pub enum State {
    New,
    Depend,
    Priority,
    Sched,
    Run,
    Cleanup,
    Inactive,
}

impl State {
    /// The name of a state (Flux RFC 21).
    pub fn name(self) -> &'static str
        ensures { result.now ≡ state_name self }
    {
        match self {
            State::New => "NEW",
            State::Depend => "DEPEND",
            State::Priority => "PRIORITY",
            State::Sched => "SCHED",
            State::Run => "RUN",
            State::Cleanup => "CLEANUP",
            State::Inactive => "INACTIVE",
        }
    }
}

impl fmt::Display for State {
    ghost use Rattle.std.specs.Prelude.{Some};
    ghost use Rattle.job_states.specs.Names.{state_name};

    ghost output = { λ s. Some (state_name s) };

    fn fmt<W: fmt::Write>(&self, f: &mut fmt::Formatter<W>) -> fmt::Result {
        f.write_str(self.name())
    }
}

/// The descriptions of dependencies.
pub type DependList = ListOf<Bytes>;

/// What the log of a job says of it.
#[derive(Drop)]
pub struct Job {
    pub state: State,
    pub userid: u32,
    /// From 0 to 31.
    pub urgency: u32,
    pub priority: Option<u32>,
    /// The wait status of its command.
    pub status: Option<u64>,
    /// Whether there was an exception of severity 0.
    pub severe: bool,
    pub allocated: bool,
    pub started: bool,
    /// Whether all its resources are released.
    pub released: bool,
    pub freed: bool,
    /// The dependencies that were added, and those that were removed.
    pub added: DependList,
    pub removed: DependList,
}

impl Copied for Job {
    fn copy(&self) -> Result<Job, AllocError> {
        Ok(Job {
            state: self.state,
            userid: self.userid,
            urgency: self.urgency,
            priority: self.priority,
            status: self.status,
            severe: self.severe,
            allocated: self.allocated,
            started: self.started,
            released: self.released,
            freed: self.freed,
            added: self.added.copy()?,
            removed: self.removed.copy()?,
        })
    }
}

/// An event with those parts of its context that it needs.
#[derive(Drop)]
pub enum Change {
    Submit { userid: u32, urgency: u32 },
    Validate,
    AddDependency(Bytes),
    RemoveDependency(Bytes),
    Depend,
    Prioritize(u32),
    Urge(u32),
    Alloc,
    Restart,
    Start,
    Finish(u64),
    Except(u32),
    Release { last: bool },
    Free,
    Clean,
}

/// Why a log tells no job.
#[derive(Clone, Copy, Debug, PartialEq, Eq)]
pub enum ReplayFault {
    NoMemory,
    /// The event at this place, counted from 0, may not stand in this state; before the first event
    /// there is none.
    NotAllowed { index: u64, state: Option<State> },
}

/// The fault's event, and the state that refuses it.
impl fmt::Display for ReplayFault {
    ghost use Rattle.std.specs.Prelude.{Some};
    ghost use Rattle.job_states.specs.Names.{fault_text};

    ghost output = { λ fault. Some (fault_text fault) };

    fn fmt<W: fmt::Write>(&self, f: &mut fmt::Formatter<W>) -> fmt::Result {
        match *self {
            ReplayFault::NoMemory => f.write_str("out of memory"),
            ReplayFault::NotAllowed { index, state } => match state {
                None => write!(f, "event {index} is not allowed in no state"),
                Some(state) => write!(f, "event {index} is not allowed in {state}"),
            },
        }
    }
}

impl Error for ReplayFault {}

impl From<AllocError> for ReplayFault {
    ghost from_gives = { λ _ e. e ≡ NoMemory };

    fn from(_: AllocError) -> Self {
        ReplayFault::NoMemory
    }
}
