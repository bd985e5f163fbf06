//! What follows from the words of the contracts.
ghost use Rattle.std.specs.Prelude.{◌≡◌, ℕ, Option, Some, true, Contains};
ghost use Rattle.answers.specs.declared.chronicle.Reply.{Reply};
ghost use Rattle.instance_rules.specs.Log.{Instance, Log};
ghost use Rattle.job_commands.specs.Rows.{CommandsValue};
ghost use Rattle.job_commands.specs.declared.row.Row.{Row};
ghost use Rattle.job_manager.specs.Managed.{IsManaged};
ghost use Rattle.job_manager.specs.Value.{ManagerValue};
ghost use Rattle.job_replies.specs.Jobs.{IsTold, KnowsNewest};
ghost use Rattle.job_replies.specs.Ready.{is_ready};
ghost use Rattle.job_replies.specs.Told.{MayTell, Stands};

/// What a command is told, once it can be told, its rules allow.
pub fn what_is_told_is_legal()
    ensures { (v : CommandsValue) (manager : ManagerValue) (now : ℕ) (inst : Instance) (log : Log)
        (row : Row) (given : Reply) (number : Option ℕ) → IsManaged manager
        → KnowsNewest manager.core row.rank inst log
        → Stands v manager now inst log → Contains v.rows row
        → is_ready v.labels manager now row ≡ true → IsTold v.labels manager now row given number
        → MayTell inst log row.by given number }
{}
