//! Children of jobs.
ghost use Rattle.std.specs.Prelude.{◌≡◌};
ghost use Rattle.std.specs.List.{list_any};
ghost use Rattle.job_commands.specs.Children.{AreEnded, asked_child, ended, is_living_of};

use manager_rules::Asked;

/// A child instance that a job has had: whether it lives, and whether it ended by its own shutdown.
#[derive(Clone, Copy, Debug, PartialEq, Eq)]
pub struct Child {
    pub job: u64,
    pub living: bool,
    pub shut: bool,
}

/// The child as the manager looks at it.
pub(crate) fn asked_child(child: &Child) -> Asked
    ensures { result ≡ asked_child child.now }
{
    Asked::Child {
        job: child.job,
        living: child.living,
        shut: child.shut,
    }
}

/// Whether this is a living child of the job.
fn is_living_of(child: &Child, job: u64) -> bool
    ensures { result ≡ is_living_of job child.now }
{
    child.living && child.job == job
}

/// Whether a job has a living child.
pub(crate) fn is_living(children: &[Child], job: u64) -> bool
    ensures { result ≡ list_any (is_living_of job) children.now }
{
    children.iter().any(|child| is_living_of(child, job))
}

/// A child, once that of a job has gone.
fn end_child(child: &mut Child, job: u64, shut: bool)
    ensures { child.new ≡ ended job shut child.old }
{
    if child.job == job {
        child.living = false;
        child.shut = shut;
    }
}

/// The children, once that of a job has gone.
pub(crate) fn end(children: &mut Vec<Child>, job: u64, shut: bool)
    ensures { AreEnded job shut children.old.items children.new.items }
{
    for i in 0..children.len() {
        end_child(&mut children[i], job, shut);
    }
}
