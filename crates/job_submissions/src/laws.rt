//! What follows from the words of the contracts.
ghost use Rattle.std.specs.Prelude.{◌≡◌, ◌*◌, ◌-◌, ◌<◌, ◌≤◌, ◌^◌, List, Contains, length, map, true};
ghost use Rattle.std.specs.List.{AllByRecursion as Each};
ghost use Rattle.instance_rules.specs.Log.{Instance, IsInstance, Log, now_of};
ghost use Rattle.job_commands.specs.Agrees.{AgreesCommands};
ghost use Rattle.job_commands.specs.Asks.{named_of};
ghost use Rattle.job_commands.specs.Desks.{desk_of, submits_of};
ghost use Rattle.job_commands.specs.Rows.{CommandsValue};
ghost use Rattle.job_commands.specs.declared.row.Row.{Row};
ghost use Rattle.job_commands.specs.declared.ask.Named.{Named};
ghost use Rattle.job_spec.specs.declared.spec.Depend.{Depend};
ghost use Rattle.job_submissions.specs.Faults.{Lacks, LacksSome};
ghost use Rattle.job_submissions.specs.Made.{AreLabelled, IsMade, MakesNone};
ghost use Rattle.manager_rules.specs.Posts.{IsSubmission, Submission};
ghost use Rattle.manager_rules.specs.Jobs.{StoredJob};

use job_commands::{new_ids_are_new, open_commands_are_open_at_their_issue};

/// A dependency that is on no job by the labels of the commands is on none by the log of their
/// instance.
pub fn what_is_lacking_is_so_by_the_log()
    ensures { (v : CommandsValue) (inst : Instance) (log : Log) (jobs : List StoredJob)
        (depends : List Depend) (named : List Named) → AgreesCommands v inst log
        → Lacks v.labels jobs depends named true
        → LacksSome inst log jobs depends (map named_of named) }
{}

/// A submission that is made of the open commands at the present second is due, where each job has
/// a label; and where none can be made none is due.
pub fn what_is_made_is_due()
    ensures some { (v : CommandsValue) (inst : Instance) (log : Log) (jobs : List StoredJob)
        (x : Submission) → AgreesCommands v inst log → IsInstance inst → length v.issued ≤ 2 ^ 14 → AreLabelled v.labels jobs → Each (λ j. j.id < 2 ^ 64) jobs
        → 1000 * (now_of inst log - inst.birth) < 2 ^ 40
        → IsMade inst.limits v jobs (now_of inst log) inst.birth x
        → IsSubmission (desk_of v inst log jobs).scene inst.birth (submits_of v inst log) x }
    ensures none { (v : CommandsValue) (inst : Instance) (log : Log) (jobs : List StoredJob)
        (x : Submission) → ((row : Row) → Contains v.rows row → MakesNone inst.limits v.labels jobs row)
        → IsSubmission (desk_of v inst log jobs).scene inst.birth (submits_of v inst log) x → ⊥ }
{
    open_commands_are_open_at_their_issue();
    new_ids_are_new();
}
