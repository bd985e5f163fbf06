//! The jobs that labels name.
ghost use Rattle.std.specs.Prelude.{◌≡◌, ◌≢◌, ◌↔◌, ℕ, List, [], Some, IfNone, IfSome, IsTrue, OnErr, OnOk, if◌then◌else◌};
ghost use Rattle.std.specs.Str.{bytes_eq};
ghost use Rattle.job_commands.specs.Rows.{job_at};

use indexmap::IndexMap;
use lists::Bytes;
use std::alloc::{AllocError, Global};
use std::marker::Model;

/// Labels with the ids of their jobs, which contracts see as a list of pairs.
#[derive(Drop)]
pub(crate) struct Labels {
    jobs: IndexMap<Vec<u8>, u64>,
}

impl Model for Labels {
    ghost use Rattle.job_commands.specs.Rows.{Labels};

    ghost Value = { Labels };

    ghost use Rattle.job_commands.specs.Shown.{shown};

    ghost view = { λ s. shown s.jobs.entries };
}

impl Labels {
    pub(crate) fn new(alloc: Global) -> Labels
        ensures { result ≡ [] }
    {
        Labels {
            jobs: IndexMap::new(alloc),
        }
    }

    /// The id of the job that a label names.
    pub(crate) fn get(&self, label: &[u8]) -> Option<u64>
        ensures { result ≡ job_at label.now self.now }
    {
        self.jobs.get(label).copied()
    }

    /// Whether a label names the job of this id.
    fn names(&self, label: &[u8], id: u64) -> bool
        ensures { IsTrue result ↔ (job_at label.now self.now ≡ Some id) }
    {
        self.get(label) == Some(id)
    }

    /// A label that names the job of this id, if one does.
    pub(crate) fn of(&self, id: u64) -> Option<&[u8]>
        ensures named { IfSome result (λ label. job_at label.now self.now ≡ Some id) }
        ensures unnamed { IfNone result ((label : List ℕ) → job_at label self.now ≢ Some id) }
    {
        for label in self.jobs.keys() {
            if self.names(label.as_slice(), id) {
                return Some(label.as_slice());
            }
        }
        None
    }

    /// Lets a label name a job.
    pub(crate) fn put(&mut self, label: Bytes, id: u64) -> Result<(), AllocError>
        ensures put { OnOk result ((other : List ℕ) → job_at other self.new
            ≡ (if bytes_eq other label then Some id else job_at other self.old)) }
        ensures kept { OnErr result (self.new ≡ self.old) }
    {
        self.jobs.insert(label.into_vec(), id)?;
        Ok(())
    }

    /// Lets a label, if there is one, name a job.
    pub(crate) fn name(&mut self, label: Option<Bytes>, id: u64) -> Result<(), AllocError>
        ensures put { OnOk result (IfSome label (λ label. (other : List ℕ)
            → job_at other self.new
            ≡ (if bytes_eq other label then Some id else job_at other self.old))) }
        ensures kept { OnErr result (self.new ≡ self.old) }
    {
        match label {
            Some(label) => self.put(label, id),
            None => Ok(()),
        }
    }
}
