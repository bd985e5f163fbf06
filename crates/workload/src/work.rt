//! The types of a workload.
ghost use Rattle.std.specs.Prelude.{◌≡◌, ◌<◌, length, IfSome};
ghost use Rattle.workload.specs.Actors.{place_of};
ghost use Rattle.workload.specs.Laws.{empty};

use crate::grant::Grant;
use fl_digest::BlobRef;
use job_spec::Scheme;
use kvs_txn::{Path, Target};
use lists::{Bytes, ListOf};
use std::alloc::Global;

/// What is shown of a job: one of its keys in the store (Flux RFC 16).
#[derive(Clone, Copy, Debug, PartialEq, Eq)]
pub enum InfoKey {
    Jobspec,
    R,
    Eventlog,
}

/// A dependency on the job of a label (Flux RFC 26).
#[derive(Drop)]
pub struct Needed {
    pub scheme: Scheme,
    pub label: Bytes,
}

/// Dependencies on jobs of labels, in their order.
pub type NeededList = ListOf<Needed>;

/// What an actor asks for. A label names the job that was submitted under it.
#[derive(Drop)]
pub enum Command {
    Put {
        path: Path,
        bytes: Bytes,
    },
    Append {
        path: Path,
        bytes: Bytes,
    },
    Unlink {
        path: Path,
    },
    Mkdir {
        path: Path,
    },
    Symlink {
        path: Path,
        target: Target,
    },
    Commit,
    Fence {
        name: Bytes,
        count: u32,
    },
    Get {
        path: Path,
    },
    Ls {
        path: Path,
    },
    Readlink {
        path: Path,
    },
    Getroot,
    Wait {
        number: u64,
    },
    /// The newest root of `primary` of which the actor's broker has heard.
    Look,
    Tell {
        actor: u32,
    },
    NsCreate {
        name: Bytes,
    },
    NsRemove {
        name: Bytes,
    },
    NsUse {
        name: Bytes,
    },
    ContentStore {
        bytes: Bytes,
    },
    ContentLoad {
        reference: BlobRef,
    },
    ContentFlush,
    ContentDrop,
    /// A job of this jobspec, whose text needn't be one; the urgency is at most 31.
    Submit {
        label: Bytes,
        urgency: u32,
        depends: NeededList,
        spec: Bytes,
    },
    Cancel {
        label: Bytes,
    },
    /// An exception of this type, severity (0 to 7) and note.
    Raise {
        label: Bytes,
        kind: Bytes,
        severity: u32,
        note: Bytes,
    },
    /// Another urgency, at most 31.
    Urgency {
        label: Bytes,
        urgency: u32,
    },
    StateOf {
        label: Bytes,
    },
    Info {
        label: Bytes,
        key: InfoKey,
    },
    Jobs,
    Why {
        label: Bytes,
    },
    ResultOf {
        label: Bytes,
    },
    /// The events of the job, once it has ended.
    Watch {
        label: Bytes,
    },
    /// So many seconds to let pass.
    Advance {
        seconds: u64,
    },
    /// The end of the child instance in which the actor stands.
    Shutdown,
}

/// An actor: its name, its broker, and the label of the job in whose child instance it stands, if
/// it stands in one. In a child the broker is that of the rank modulo the number of its brokers.
#[derive(Drop)]
pub struct Actor {
    pub name: Bytes,
    pub rank: u64,
    pub of: Option<Bytes>,
}

/// Actors, numbered from 0.
pub type ActorList = ListOf<Actor>;

/// The place of the actor of this name.
pub fn place(actors: &ActorList, name: &str) -> Option<usize>
    ensures value { result ≡ place_of name.now actors.now }
    ensures below { IfSome result (λ i. i < length actors.now) }
{
    actors
        .as_slice()
        .iter()
        .position(|a| a.name.as_slice() == name.as_bytes())
}

/// A command line.
#[derive(Drop)]
pub struct Line {
    pub actor: u32,
    pub command: Command,
}

/// Command lines, in the order of the text.
pub type LineList = ListOf<Line>;

/// What a run is asked to do, and the resources that it is given, if the workload names them.
#[derive(Drop)]
pub struct Workload {
    pub actors: ActorList,
    pub lines: LineList,
    pub grant: Option<Grant>,
}

impl Workload {
    /// A workload without actors, commands and a grant.
    pub fn new(alloc: Global) -> Workload
        ensures { result ≡ empty }
    {
        Workload {
            actors: ListOf::new(alloc),
            lines: ListOf::new(alloc),
            grant: None,
        }
    }
}
