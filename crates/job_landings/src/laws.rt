//! What follows from the words of the contracts.
ghost use Rattle.std.specs.Prelude.{◌≡◌, ◌++◌, ◌∷◌, ℕ, List, [], None, Some, map};
ghost use Rattle.instance_rules.specs.Legal.{IsLegalMoment};
ghost use Rattle.instance_rules.specs.Log.{Instance, IsInstance, Log, Served, service_of};
ghost use Rattle.job_commands.specs.Agrees.{AgreesCommands};
ghost use Rattle.job_commands.specs.Desks.{desk_of};
ghost use Rattle.job_commands.specs.Rows.{CommandsValue};
ghost use Rattle.job_landings.specs.Commands.{IsOfSubmit, WaitsForEvent};
ghost use Rattle.job_landings.specs.Landings.{LandsPost, happening};
ghost use Rattle.kvs_core.specs.Agrees.{Agrees};
ghost use Rattle.kvs_core.specs.Makes.{Makes};
ghost use Rattle.kvs_keys.specs.Posted.{posts_landed};
ghost use Rattle.kvs_core.specs.Value.{CoreValue};
ghost use Rattle.kvs_model.specs.Store.{Store};
ghost use Rattle.kvs_rules.specs.Answers.{IsLegalLog};
ghost use Rattle.kvs_rules.specs.Log.{Moment as ServiceMoment};
ghost use Rattle.kvs_rules.specs.Namespaces.{newest_store, primary};
ghost use Rattle.kvs_rules.specs.Sequence.{EachAfter};
ghost use Rattle.kvs_rules.specs.declared.events.KvsEvent.{KvsEvent};
ghost use Rattle.kvs_rules.specs.declared.events.KvsStep.{KvsStep};
ghost use Rattle.kvs_txn.specs.declared.txn.By.{By};
ghost use Rattle.manager_rules.specs.Jobs.{AreJobsOf, StoredJob};
ghost use Rattle.manager_rules.specs.Posts.{Does, IsDuePost, Post, Submission, Submits, group_of};
ghost use Rattle.manager_rules.specs.declared.due.Due.{Due};

use job_manager::what_lands_is_due;
use kvs_keys::laws::users_land_where_nothing_is_posted;

/// Where a step of the service lands a post that is due, the post lands at one of the step's events
/// and carries out its command there, the other events are about no job command, and each event may
/// follow those before it in the log of the instance: what the job manager lands is due at the
/// store on which it works.
pub fn what_is_posted_lands_as_it_is_due()
    ensures { (step : KvsStep) (old new : CoreValue) (events : List KvsEvent) (inst : Instance)
        (log : Log) (v : CommandsValue) (jobs : List StoredJob) (st : Store) (post : Post)
        → IsInstance inst → AgreesCommands v inst log
        → Agrees old inst.service (service_of log) → IsLegalLog inst.service (service_of log)
        → newest_store inst.service (service_of log) primary ≡ Some st → AreJobsOf st jobs
        → Makes step old new events → IsDuePost (desk_of v inst log jobs) post
        → posts_landed events ≡ group_of post ∷ []
        → LandsPost inst post events × EachAfter (IsLegalMoment inst) log (map happening events) }
{
    users_land_where_nothing_is_posted();
    what_lands_is_due();
}

/// What happens in the service leaves what the manager looks at besides the jobs, as the commands
/// give it.
pub fn what_is_served_leaves_the_desk()
    ensures one { (v : CommandsValue) (inst : Instance) (log : Log) (m : ServiceMoment)
        (jobs : List StoredJob)
        → desk_of v inst (log ++ Served m ∷ []) jobs ≡ desk_of v inst log jobs }
    ensures all { (v : CommandsValue) (inst : Instance) (log : Log) (moments : List ServiceMoment)
        (jobs : List StoredJob)
        → desk_of v inst (log ++ map Served moments) jobs ≡ desk_of v inst log jobs }
    ensures events { (v : CommandsValue) (inst : Instance) (log : Log) (events : List KvsEvent)
        (jobs : List StoredJob)
        → desk_of v inst (log ++ map happening events) jobs ≡ desk_of v inst log jobs }
{}

/// The command that a due post carries out is open: it submits the job of a submission, and asks
/// for an event otherwise.
pub fn posts_carry_out_open_commands()
    ensures submits { (v : CommandsValue) (inst : Instance) (log : Log) (jobs : List StoredJob)
        (x : Submission) → AgreesCommands v inst log
        → IsDuePost (desk_of v inst log jobs) (Submits x) → IsOfSubmit inst log x }
    ensures does { (v : CommandsValue) (inst : Instance) (log : Log) (jobs : List StoredJob)
        (due : Due) (by : By) → AgreesCommands v inst log
        → IsDuePost (desk_of v inst log jobs) (Does due) → due.command ≡ Some by
        → WaitsForEvent inst log by }
{}
