//! What job commands ask.
ghost use Rattle.std.specs.Prelude.{◌≡◌, Some, IfOk};
ghost use Rattle.instance_rules.specs.Desks.{is_submission};
ghost use Rattle.job_commands.specs.Asks.{submitted_label, told};

use job_spec::Scheme;
use lists::{Bytes, Copied, ListOf};
use std::alloc::AllocError;

/// A dependency on the job of a label.
#[derive(Drop)]
pub struct Named {
    pub scheme: Scheme,
    pub label: Bytes,
}

/// Dependencies on the jobs of labels, in their order.
pub type NamedList = ListOf<Named>;

/// What of a job is shown.
#[derive(Clone, Copy, Debug, PartialEq, Eq)]
pub enum Key {
    Jobspec,
    R,
    Eventlog,
}

/// What a job command asks: most name a job by its label (Flux RFC 14, 21 and 25).
#[derive(Drop)]
pub enum JobAsk {
    /// A job of this label, with an urgency of 0 to 31, behind other jobs, and the text of its
    /// jobspec.
    Submit {
        label: Bytes,
        urgency: u32,
        needs: NamedList,
        text: Bytes,
    },
    Cancel {
        label: Bytes,
    },
    /// An exception of this type, with a severity of 0 to 7 and a note.
    Raise {
        label: Bytes,
        kind: Bytes,
        severity: u32,
        note: Bytes,
    },
    /// An urgency of 0 to 31.
    Urge {
        label: Bytes,
        urgency: u32,
    },
    StateOf {
        label: Bytes,
    },
    Info {
        label: Bytes,
        key: Key,
    },
    Jobs,
    Why {
        label: Bytes,
    },
    ResultOf {
        label: Bytes,
    },
    Watch {
        label: Bytes,
    },
    /// So many seconds.
    Advance {
        seconds: u64,
    },
}

impl JobAsk {
    /// Whether it submits a job.
    pub fn is_submit(&self) -> bool
        ensures { result ≡ is_submission (Some (told self.now)) }
    {
        matches!(self, JobAsk::Submit { .. })
    }

    /// The label under which it submits a job, if it does.
    pub fn submitted(&self) -> Result<Option<Bytes>, AllocError>
        ensures { IfOk result (λ label. label ≡ submitted_label self.now) }
    {
        match self {
            JobAsk::Submit { label, .. } => Ok(Some(label.copy()?)),
            _ => Ok(None),
        }
    }
}
