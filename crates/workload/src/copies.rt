//! Copies of the lines of a workload.
use crate::work::{Actor, Command, Line, Needed};
use lists::Copied;
use std::alloc::AllocError;

impl Copied for Needed {
    fn copy(&self) -> Result<Needed, AllocError> {
        Ok(Needed {
            scheme: self.scheme,
            label: self.label.copy()?,
        })
    }
}

// One arm for each command, which is as long as it has texts.
impl Copied for Command {
    fn copy(&self) -> Result<Command, AllocError> {
        Ok(match self {
            Command::Put { path, bytes } => Command::Put {
                path: Copied::copy(path)?,
                bytes: bytes.copy()?,
            },
            Command::Append { path, bytes } => Command::Append {
                path: Copied::copy(path)?,
                bytes: bytes.copy()?,
            },
            Command::Unlink { path } => Command::Unlink {
                path: Copied::copy(path)?,
            },
            Command::Mkdir { path } => Command::Mkdir {
                path: Copied::copy(path)?,
            },
            Command::Symlink { path, target } => Command::Symlink {
                path: Copied::copy(path)?,
                target: target.copy()?,
            },
            Command::Commit => Command::Commit,
            Command::Fence { name, count } => Command::Fence {
                name: name.copy()?,
                count: *count,
            },
            Command::Get { path } => Command::Get {
                path: Copied::copy(path)?,
            },
            Command::Ls { path } => Command::Ls {
                path: Copied::copy(path)?,
            },
            Command::Readlink { path } => Command::Readlink {
                path: Copied::copy(path)?,
            },
            Command::Getroot => Command::Getroot,
            Command::Wait { number } => Command::Wait { number: *number },
            Command::Tell { actor } => Command::Tell { actor: *actor },
            Command::NsCreate { name } => Command::NsCreate { name: name.copy()? },
            Command::NsRemove { name } => Command::NsRemove { name: name.copy()? },
            Command::NsUse { name } => Command::NsUse { name: name.copy()? },
            Command::ContentStore { bytes } => Command::ContentStore {
                bytes: bytes.copy()?,
            },
            Command::ContentLoad { reference } => Command::ContentLoad {
                reference: *reference,
            },
            Command::ContentFlush => Command::ContentFlush,
            Command::ContentDrop => Command::ContentDrop,
            Command::Look => Command::Look,
            Command::Submit {
                label,
                urgency,
                depends,
                spec,
            } => Command::Submit {
                label: label.copy()?,
                urgency: *urgency,
                depends: depends.copy()?,
                spec: spec.copy()?,
            },
            Command::Cancel { label } => Command::Cancel {
                label: label.copy()?,
            },
            Command::Raise {
                label,
                kind,
                severity,
                note,
            } => Command::Raise {
                label: label.copy()?,
                kind: kind.copy()?,
                severity: *severity,
                note: note.copy()?,
            },
            Command::Urgency { label, urgency } => Command::Urgency {
                label: label.copy()?,
                urgency: *urgency,
            },
            Command::StateOf { label } => Command::StateOf {
                label: label.copy()?,
            },
            Command::Info { label, key } => Command::Info {
                label: label.copy()?,
                key: *key,
            },
            Command::Jobs => Command::Jobs,
            Command::Why { label } => Command::Why {
                label: label.copy()?,
            },
            Command::ResultOf { label } => Command::ResultOf {
                label: label.copy()?,
            },
            Command::Watch { label } => Command::Watch {
                label: label.copy()?,
            },
            Command::Advance { seconds } => Command::Advance { seconds: *seconds },
            Command::Shutdown => Command::Shutdown,
        })
    }
}

impl Copied for Line {
    fn copy(&self) -> Result<Line, AllocError> {
        Ok(Line {
            actor: self.actor,
            command: self.command.copy()?,
        })
    }
}

impl Copied for Actor {
    fn copy(&self) -> Result<Actor, AllocError> {
        Ok(Actor {
            name: self.name.copy()?,
            rank: self.rank,
            of: self.of.copy()?,
        })
    }
}
