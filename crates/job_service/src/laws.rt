//! What follows from the words of the contracts.
ghost use Rattle.std.specs.Prelude.{◌≡◌, ◌++◌, ◌∷◌, List, [], None, Some, false};
ghost use Rattle.instance_rules.specs.Log.{Instance, IsOpen, Issued, Log, Moment, Replied, Shut, Shutdown, is_issued, now_of};
ghost use Rattle.job_commands.specs.Agrees.{AgreesCommands};
ghost use Rattle.job_commands.specs.Desks.{asked_of, desk_of};
ghost use Rattle.job_commands.specs.Rows.{CommandsValue};
ghost use Rattle.job_service.specs.Agrees.{AgreesJobs};
ghost use Rattle.job_service.specs.Due.{LeavesChildOf, LeavesOpen};
ghost use Rattle.job_service.specs.Value.{JobServiceValue};
ghost use Rattle.job_deeds.specs.kvs_txn.declared.txn.By.{By};
ghost use Rattle.job_deeds.specs.manager_rules.Jobs.{StoredJob};
ghost use Rattle.job_deeds.specs.manager_rules.Posts.{IsDuePost, Post};

use job_deeds::manager_rules::what_is_due_stays_due;

/// What is due by the log of an instance stays due through each further moment of the same second
/// that leaves the jobs as they are, its command open, and the child of its job as it was, if that
/// isn't born meanwhile.
pub fn what_waits_stays_due()
    ensures { (v new : CommandsValue) (inst : Instance) (log : Log) (m : Moment)
        (jobs : List StoredJob) (post : Post) → AgreesCommands v inst log
        → AgreesCommands new inst (log ++ m ∷ [])
        → now_of inst (log ++ m ∷ []) ≡ now_of inst log → LeavesOpen m post
        → LeavesChildOf (asked_of v) jobs m post
        → IsDuePost (desk_of v inst log jobs) post
        → IsDuePost (desk_of new inst (log ++ m ∷ []) jobs) post }
{
    what_is_due_stays_due();
}

/// A command that shuts its instance down leaves the jobs as they are, when it is issued and when
/// it is told so: it asks nothing of them, and the commands' table has no row for it.
pub fn shutdowns_leave_jobs()
    ensures issued { (v : JobServiceValue) (inst : Instance) (log : Log) (by : By)
        → inst.asks by ≡ Some Shutdown → is_issued by log ≡ false → AgreesJobs v inst log
        → AgreesJobs v inst (log ++ Issued by ∷ []) }
    ensures replied { (v : JobServiceValue) (inst : Instance) (log : Log) (by : By)
        → inst.asks by ≡ Some Shutdown → IsOpen by log → AgreesJobs v inst log
        → AgreesJobs v inst (log ++ Replied by Shut None ∷ []) }
{}
