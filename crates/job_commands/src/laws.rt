//! What follows from the words of the contracts.
ghost use Rattle.std.specs.Prelude.{◌≡◌, ◌≢◌, ◌≤◌, ◌^◌, ◌++◌, ◌∷◌, ◌&&◌, ℕ, List, [], Some, Contains, false, is_some, length, not};
ghost use Rattle.instance_rules.specs.Desks.{IsDeskOf};
ghost use Rattle.instance_rules.specs.Log.{Instance, IsInstance, IsOpen, Issued, Log, Moment, Shutdown, Ticked, before_issue, child_of, now_of, seconds_open};
ghost use Rattle.job_commands.specs.Agrees.{AgreesCommands, IsIdOf};
ghost use Rattle.job_commands.specs.Children.{LeavesChildren};
ghost use Rattle.job_commands.specs.Desks.{asked_of, desk_of};
ghost use Rattle.manager_rules.specs.Scene.{has_child, has_living_child, has_shut_child};
ghost use Rattle.std.specs.Option.{option_map_or};
ghost use Rattle.job_commands.specs.Moments.{IsBeside};
ghost use Rattle.job_commands.specs.Rows.{CommandsValue, job_at};
ghost use Rattle.kvs_model.specs.Store.{Store};
ghost use Rattle.kvs_txn.specs.declared.txn.By.{By};
ghost use Rattle.manager_rules.specs.Jobs.{AreJobsOf, StoredJob};

/// A second, each moment that is about no job command and no child, and the issue of a shutdown
/// leave the commands as they are.
pub fn other_moments_leave_commands()
    ensures ticks { (v : CommandsValue) (inst : Instance) (log : Log) (second : ℕ)
        → AgreesCommands v inst log → AgreesCommands v inst (log ++ Ticked second ∷ []) }
    ensures others { (v : CommandsValue) (inst : Instance) (log : Log) (m : Moment)
        → IsBeside inst m → LeavesChildren m → AgreesCommands v inst log
        → AgreesCommands v inst (log ++ m ∷ []) }
    ensures shutdowns { (v : CommandsValue) (inst : Instance) (log : Log) (by : By)
        → inst.asks by ≡ Some Shutdown → AgreesCommands v inst log
        → AgreesCommands v inst (log ++ Issued by ∷ []) }
{}

/// The present second is one of those at which an open command has been open.
pub fn open_commands_are_open_now()
    ensures { (inst : Instance) (log : Log) (by : By) → IsOpen by log
        → Contains (seconds_open inst log by) (now_of inst log) }
{}

/// The second of its issue is one of those at which an open command has been open.
pub fn open_commands_are_open_at_their_issue()
    ensures { (inst : Instance) (log : Log) (by : By) → IsOpen by log
        → Contains (seconds_open inst log by) (now_of inst (before_issue by log)) }
{}

/// What the manager looks at is what the commands give.
pub fn the_desk_is_this()
    ensures { (v : CommandsValue) (inst : Instance) (log : Log) (st : Store)
        (jobs : List StoredJob) → AgreesCommands v inst log → IsInstance inst → AreJobsOf st jobs
        → IsDeskOf inst log st (desk_of v inst log jobs) }
{}

/// Of the children of a job the commands tell what the log tells: whether it has had one, whether
/// that lives, and whether it shut down.
pub fn children_are_those_of_the_log()
    ensures had { (v : CommandsValue) (inst : Instance) (log : Log) (job : ℕ)
        → AgreesCommands v inst log
        → has_child (asked_of v) job ≡ is_some (child_of log job) }
    ensures living { (v : CommandsValue) (inst : Instance) (log : Log) (job : ℕ)
        → AgreesCommands v inst log
        → has_living_child (asked_of v) job ≡ option_map_or (λ c. c.0) (child_of log job) false }
    ensures shut { (v : CommandsValue) (inst : Instance) (log : Log) (job : ℕ)
        → AgreesCommands v inst log → has_shut_child (asked_of v) job
        ≡ option_map_or (λ c. not c.0 && c.1) (child_of log job) false }
{}

/// The id that is made for a submission that waits is that of no job that a label names.
pub fn new_ids_are_new()
    ensures { (v : CommandsValue) (inst : Instance) (log : Log) (by : By) (id : ℕ)
        → AgreesCommands v inst log → length v.issued ≤ 2 ^ 14
        → IsIdOf v inst.birth by id
        → (label : List ℕ) → job_at label v.labels ≢ Some id }
{}
