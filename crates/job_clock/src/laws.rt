//! What follows from the words of the contracts.
ghost use Rattle.std.specs.Prelude.{◌≡◌, ◌↔◌, ◌<◌, ◌≤◌, ◌+◌, ◌-◌, ◌++◌, ◌∷◌, ◌⊎◌, ℕ, List, [], Bool, None, Some, All, Contains, filter, max};
ghost use Rattle.instance_rules.specs.Family.{HasTarget, IsTarget, Living, MayClose, MayTick, OfLiving};
ghost use Rattle.instance_rules.specs.Legal.{IsLegalMoment};
ghost use Rattle.instance_rules.specs.Log.{Advance, Instance, Issued, Log, Moment, Ticked, now_of, service_of};
ghost use Rattle.job_clock.specs.Standing.{IsLiving, IsTop, PassesNone, StandsWith};
ghost use Rattle.job_clock.specs.Targets.{AreInTime, IsNewTarget, IsNextTick, IsReached, target_in, targets_of};
ghost use Rattle.job_commands.specs.Agrees.{AgreesCommands};
ghost use Rattle.job_commands.specs.Desks.{desk_of};
ghost use Rattle.job_commands.specs.Rows.{AreCarried, CommandsValue};
ghost use Rattle.job_commands.specs.declared.ask.JobAsk.TheVariants as ask;
ghost use Rattle.job_commands.specs.declared.row.Row.{Row};
ghost use Rattle.kvs_rules.specs.Quiet.{AreAllTold};
ghost use Rattle.kvs_txn.specs.declared.txn.By.{By};
ghost use Rattle.manager_rules.specs.Jobs.{StoredJob};
ghost use Rattle.manager_rules.specs.Posts.{Desk, IsDuePost, Post, jobs_after};
ghost use Rattle.manager_rules.specs.Scene.{Scene};
ghost use Rattle.manager_rules.specs.Times.{IsBirthDue, IsIdle, seconds_ahead};

/// Where nothing is due in an instance, time may go to a later second, if none of its running jobs'
/// commands or resources end before; and so in a family of instances that it is alone, if it is the
/// next second.
pub fn ticks_may_be_made()
    ensures passes { (v : CommandsValue) (jobs : List StoredJob) (inst : Instance) (log : Log)
        (second : ℕ) → StandsWith v jobs inst log → IsIdle (desk_of v inst log jobs)
        → PassesNone (seconds_ahead (desk_of v inst log jobs).scene) (now_of inst log) second
        → IsLegalMoment inst log (Ticked second) }
    ensures legal { (v : CommandsValue) (jobs : List StoredJob) (inst : Instance) (log : Log)
        (second : ℕ) → StandsWith v jobs inst log → IsIdle (desk_of v inst log jobs)
        → IsNextTick (targets_of v) (seconds_ahead (desk_of v inst log jobs).scene)
        (now_of inst log) second
        → IsLegalMoment inst log (Ticked second) }
    ensures may { (v : CommandsValue) (jobs : List StoredJob) (inst : Instance) (log : Log)
        (l : Living) (second : ℕ) → IsTop inst log l → StandsWith v jobs inst log
        → IsIdle (desk_of v inst log jobs)
        → IsNextTick (targets_of v) (seconds_ahead (desk_of v inst log jobs).scene)
        (now_of inst log) second
        → MayTick (l ∷ []) (now_of inst log) [] second }
{}

/// What an instance that lives among others has to do with their time: its open advances, the
/// seconds at which commands or resources of its jobs end, and whether anything is due in it.
pub fn living_instances_have_these_seconds()
    ensures targets { (v : CommandsValue) (inst : Instance) (log : Log) (l : Living) (target : ℕ)
        → IsLiving inst log l → AgreesCommands v inst log
        → HasTarget l target ↔ Contains (targets_of v) target }
    ensures ends { (v : CommandsValue) (jobs : List StoredJob) (inst : Instance) (log : Log)
        (l : Living) (second : ℕ) → IsLiving inst log l → StandsWith v jobs inst log
        → OfLiving l (λ desk. Contains (seconds_ahead desk.scene) second)
        ↔ Contains (seconds_ahead (desk_of v inst log jobs).scene) second }
    ensures idle { (v : CommandsValue) (jobs : List StoredJob) (inst : Instance) (log : Log)
        (l : Living) → IsLiving inst log l → StandsWith v jobs inst log
        → IsIdle (desk_of v inst log jobs) → OfLiving l IsIdle }
{}

/// Where the rows have no target, no advance is open.
pub fn no_open_advance_is_left()
    ensures { (v : CommandsValue) (inst : Instance) (log : Log) (l : Living) → IsTop inst log l
        → AgreesCommands v inst log → targets_of v ≡ [] → (target : ℕ)
        → IsTarget (l ∷ []) [] target → ⊥ }
{}

/// The run of an instance that lives alone may end where nothing is due, no advance is open, and
/// all its brokers are told.
pub fn runs_may_close()
    ensures { (v : CommandsValue) (jobs : List StoredJob) (inst : Instance) (log : Log)
        (l : Living) → IsTop inst log l → StandsWith v jobs inst log
        → IsIdle (desk_of v inst log jobs) → targets_of v ≡ []
        → AreAllTold inst.service (service_of log) → MayClose (l ∷ []) [] }
{}

/// An advance whose target is reached can be told so.
pub fn reached_advances_can_be_told()
    ensures rows { (row : Row) (now target : ℕ) → target_in row ≡ Some target → target ≤ now
        → IsReached row now }
    ensures targets { (v : CommandsValue) (now target : ℕ) → Contains (targets_of v) target
        → target ≤ now → (row : Row) × Contains v.rows row × IsReached row now }
{}

/// How far time can go from the birth of an instance is bounded by its advances: each moves the
/// bound by its own seconds. No other command moves it, nor one that goes or is carried out, nor a
/// tick.
pub fn times_stay_within()
    ensures advances { (v new : CommandsValue) (row : Row) (birth now span seconds : ℕ)
        → new.rows ≡ v.rows ++ row ∷ [] → row.ask ≡ ask.Advance seconds → row.issued ≡ now
        → AreInTime v birth now span → AreInTime new birth now (span + seconds) }
    ensures others { (v new : CommandsValue) (row : Row) (birth now span : ℕ)
        → new.rows ≡ v.rows ++ row ∷ [] → target_in row ≡ None → AreInTime v birth now span
        → AreInTime new birth now span }
    ensures replies { (v new : CommandsValue) (kept : Row → Bool) (birth now span : ℕ)
        → new.rows ≡ filter kept v.rows → AreInTime v birth now span
        → AreInTime new birth now span }
    ensures landings { (v new : CommandsValue) (by : By) (number birth now span : ℕ)
        → AreCarried by number v.rows new.rows → AreInTime v birth now span
        → AreInTime new birth now span }
    ensures ticks { (v : CommandsValue) (ends : List ℕ) (birth now second span : ℕ)
        → IsNextTick (targets_of v) ends now second → AreInTime v birth now span
        → AreInTime v birth second span }
    ensures later { (v : CommandsValue) (birth now second span : ℕ) → now ≤ second
        → AreInTime v birth now span → AreInTime v birth second (max span (second - birth)) }
    ensures bounds { (v : CommandsValue) (birth now span bound : ℕ) → AreInTime v birth now span
        → birth + span < bound → All (λ target. target < bound) (targets_of v) }
{}

/// The same by the log: at the birth there is no target, and after a moment there are those of
/// before and that of the advance which it issues.
pub fn times_follow_the_log()
    ensures begins { (v : CommandsValue) (inst : Instance) → AgreesCommands v inst []
        → AreInTime v inst.birth inst.birth 0 }
    ensures targets { (v new : CommandsValue) (inst : Instance) (log : Log) (m : Moment)
        (target : ℕ) → AgreesCommands v inst log → AgreesCommands new inst (log ++ m ∷ [])
        → Contains (targets_of new) target
        → Contains (targets_of v) target ⊎ IsNewTarget inst log m target }
    ensures advances { (v new : CommandsValue) (inst : Instance) (log : Log) (by : By)
        (birth span seconds : ℕ) → AgreesCommands v inst log
        → AgreesCommands new inst (log ++ Issued by ∷ []) → inst.asks by ≡ Some (Advance seconds)
        → AreInTime v birth (now_of inst log) span
        → AreInTime new birth (now_of inst log) (span + seconds) }
    ensures others { (v new : CommandsValue) (inst : Instance) (log : Log) (m : Moment)
        (birth now span : ℕ) → AgreesCommands v inst log → AgreesCommands new inst (log ++ m ∷ [])
        → ((target : ℕ) → IsNewTarget inst log m target → ⊥) → AreInTime v birth now span
        → AreInTime new birth now span }
{}
