//! Where the logs of jobs stand (Flux RFC 16).
ghost use Rattle.std.specs.Prelude.{◌≡◌, ◌==◌, ℕ, [], Some, List, OnOk, if◌then◌else◌};
ghost use Rattle.std.specs.Option.{option_copied};
ghost use Rattle.manager_rules.specs.Jobs.{StoredJob};
ghost use Rattle.manager_rules.specs.Keys.{log_path};
ghost use Rattle.manager_rules.specs.Posts.{jobs_after};
ghost use Rattle.job_manager.specs.Places.{ArePlaces, place_in};
ghost use Rattle.job_manager.specs.Posts.{post_of};

use crate::keys::log_path;
use crate::post::Post;
use indexmap::IndexMap;
use kvs_txn::Path;
use std::alloc::{AllocError, Global};
use std::marker::Model;

/// Jobs with where their logs stand, which contracts see as a list of pairs.
#[derive(Drop)]
pub(crate) struct LogPlaces {
    alloc: Global,
    paths: IndexMap<u64, Path>,
}

impl Model for LogPlaces {
    ghost use Rattle.job_manager.specs.Places.{LogPlaces};

    ghost Value = { LogPlaces };

    ghost view = { λ s. s.paths.entries };
}

impl LogPlaces {
    pub(crate) fn new(alloc: Global) -> LogPlaces
        ensures { result ≡ [] }
    {
        LogPlaces {
            alloc,
            paths: IndexMap::new(alloc),
        }
    }

    /// Where the log of a job stands.
    pub(crate) fn get(&self, id: u64) -> Option<&Path>
        ensures { option_copied result ≡ place_in id self.now }
    {
        self.paths.get(&id)
    }

    /// Adds a job.
    fn put(&mut self, id: u64) -> Result<(), AllocError>
        ensures { OnOk result ((other : ℕ) → place_in other self.new
            ≡ (if other == id then Some (log_path id) else place_in other self.old)) }
    {
        let path = log_path(self.alloc, id)?;
        self.paths.insert(id, path)?;
        Ok(())
    }

    /// Adds the job that a post submits, if it submits one.
    pub(crate) fn follow(&mut self, post: &Post) -> Result<(), AllocError>
        ensures { OnOk result ((jobs : List StoredJob) → ArePlaces jobs self.old
            → ArePlaces (jobs_after (post_of post.now) jobs) self.new) }
    {
        match post {
            Post::Submits(x) => self.put(x.id),
            Post::Does(_) => Ok(()),
        }
    }
}
