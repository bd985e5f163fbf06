//! The laws, each the contract of a function.
ghost use Rattle.std.specs.Prelude.{◌≡◌, ◌+◌, ◌≤◌, ℕ, IsSome, IsSomeAnd, List, None, Option};
ghost use Rattle.workload.specs.Laws.{HasOwnLabels, KeepsTallies};
ghost use Rattle.workload.specs.Tallies.{seconds_in};
ghost use Rattle.kvs_txn.specs.declared.txn.By.{By};
ghost use Rattle.answers.specs.declared.chronicle.Entry.{Entry};
ghost use Rattle.answers.specs.declared.chronicle.Entry.TheVariants as entry;
ghost use Rattle.answers.specs.declared.chronicle.Reply.TheVariants as reply;
ghost use Rattle.answers.specs.Chronicle.{Setup, top};
ghost use Rattle.answers.specs.Services.{log_of, setting_of};
ghost use Rattle.answers.specs.Jobs.{instance_of, second_of, start_of};
ghost use Rattle.instance_rules.specs.Log.{IsInstance};
ghost use Rattle.answers.specs.Legal.{IsLegal, IsLegalEntry};
ghost use Rattle.answers.specs.Runs.{IsInTime};
ghost use Rattle.run_laws.specs.Feeds.{TellsLog, WatchesSeeTheirLogs};
ghost use Rattle.run_laws.specs.Jobs.{JobsStaySound, LogsOnlyGrow, store_of};
ghost use Rattle.run_laws.specs.Views.{JobsFollowWithRoots, LogsGrowWithRoots};
ghost use Rattle.run_laws.specs.Reserved.{EndsComeFirst, HeadsKeepTheirSeconds, IsNamed};
ghost use Rattle.run_laws.specs.Times.{HasTime, KeepsTime, seconds_issued};

/// However much of a legal chronicle has happened, `primary` has its store. Each log in it replays,
/// each live job has units that satisfy its jobspec and lie in the grant, and no two live jobs have
/// a unit in common (Flux RFC 21).
pub fn jobs_stay_sound()
    ensures sound { (set : Setup) (c : List Entry) → IsInstance (instance_of set)
        → KeepsTime set c → IsLegal set c → JobsStaySound set c }
    ensures standing { (set : Setup) (c : List Entry) → set.base ≡ None → IsLegal set c
        → IsSome (store_of set c) }
{}

/// Along a legal chronicle no event of a job is lost or changed: later events stand behind those
/// before (Flux RFC 18).
pub fn logs_only_grow()
    ensures { (set : Setup) (c : List Entry) → IsInstance (instance_of set)
        → KeepsTime set c → IsLegal set c → LogsOnlyGrow set c }
{}

/// Where time goes on as a run lets it, it goes no further than the advances that are issued let
/// it, and each of these is one line of the workload. So the seconds of a workload within its
/// limits have their place in 64 bits.
pub fn time_stays_within()
    ensures issued { (set : Setup) (c : List Entry) → IsLegal set c → IsInTime set c
        → second_of set c ≤ start_of set + seconds_issued set.work c }
    ensures within { (set : Setup) (c : List Entry) → IsLegal set c → IsInTime set c
        → second_of set c ≤ start_of set + seconds_in set.work.lines }
    ensures kept { (set : Setup) (c : List Entry) → HasTime set → IsLegal set c → IsInTime set c
        → KeepsTime set c }
    ensures fits { (set : Setup) → start_of set ≡ 0 → KeepsTallies set.work.lines → HasTime set }
{}

/// What the roots of a legal chronicle tell of its jobs goes on: a job's log at a root is the first
/// part of its log at a later one (Flux RFC 18), and so the job at the later root follows from the
/// job at the earlier one by the table of events and states (Flux RFC 21). Each root was once the
/// newest.
pub fn what_roots_tell_of_jobs_goes_on()
    ensures logs { (set : Setup) (c : List Entry) → IsInstance (instance_of set)
        → KeepsTime set c → IsLegal set c
        → LogsGrowWithRoots (setting_of set) (log_of set.work top c) }
    ensures jobs { (set : Setup) (c : List Entry) → IsInstance (instance_of set)
        → KeepsTime set c → IsLegal set c
        → JobsFollowWithRoots (setting_of set) (log_of set.work top c) }
{}

/// While one job stays the first in its instance's queue, the second that is reserved for it never
/// rises, and no tick goes above it before that job's alloc, under both policies: where hosts have
/// names of hosts, and children of ending jobs go before time goes on, as in a run of one instance.
pub fn heads_keep_their_seconds()
    ensures kept { (set : Setup) (c : List Entry) → IsInstance (instance_of set)
        → KeepsTime set c → IsLegal set c → IsNamed set.resources → EndsComeFirst set c
        → HeadsKeepTheirSeconds set c }
    ensures alone { (set : Setup) (c : List Entry) → IsInTime set c → EndsComeFirst set c }
{}

/// Along a legal chronicle each watch is fed the log of its job, each event once and in order: what
/// it was fed so far is the whole log at the root at which it was fed last. And it is told the
/// names of these events, once its job is over there. No two submissions may have one label.
pub fn watches_see_their_logs()
    ensures fed { (set : Setup) (c : List Entry) → IsInstance (instance_of set)
        → HasOwnLabels set.work.lines → KeepsTime set c → IsLegal set c
        → WatchesSeeTheirLogs set c }
    ensures told { (set : Setup) (c : List Entry) (by : By) (shown : List (List ℕ))
        (number : Option ℕ) → IsInstance (instance_of set) → HasOwnLabels set.work.lines
        → KeepsTime set c → IsLegal set c
        → IsLegalEntry set c
        (entry.Replied by.actor by.command (reply.Watched shown) number)
        → IsSomeAnd number (TellsLog set c by shown) }
{}
