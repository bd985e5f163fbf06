//! What a grant has for a job.
use lists::ListOf;
use resource_set::Resources;

/// Ids of jobs, in rising order.
pub type JobList = ListOf<u64>;

/// What a grant has for a job now.
#[derive(Drop)]
pub enum Fit {
    /// Free units, by first fit.
    Units(Resources),
    /// No free units satisfy the job; these live jobs stand in its way.
    Busy(JobList),
    /// No units of the whole grant satisfy the job.
    Never,
}
