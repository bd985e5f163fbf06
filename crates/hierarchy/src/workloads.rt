//! What an instance of a run is given keeps to the limits that its run keeps to.
ghost use Rattle.std.specs.Prelude.{◌≡◌, ◌≤◌, ◌==◌, ℕ, false, count_by, length, All, List, None, Option, IsTrue};
ghost use Rattle.kvs_txn.specs.declared.txn.By.{By};
ghost use Rattle.job_rules.specs.Fits.{IsGrant};
ghost use Rattle.resource_set.specs.Writing.{r_text};
ghost use Rattle.workload.specs.Laws.{HasOwnLabels, IsBuilt, IsWithin, KeepsTallies};
ghost use Rattle.workload.specs.declared.work.Workload.{Workload};
ghost use Rattle.instance_rules.specs.Log.{IsInstance};
ghost use Rattle.answers.specs.Chronicle.{Setup};
ghost use Rattle.answers.specs.Commands.{command_at};
ghost use Rattle.answers.specs.Jobs.{instance_of};
ghost use Rattle.hierarchy.specs.Births.{Birth, is_at};
ghost use Rattle.hierarchy.specs.Own.{brokers_for, child_setup, most_brokers, work_for};

/// The lines of one home's actors are a workload within the limits of so many brokers, where those
/// of all are within the limits of their run.
pub fn lines_of_a_home_are_within()
    ensures within { (work : Workload) (label : Option (List ℕ)) (all size : ℕ) → 1 ≤ size
        → IsWithin all work → IsWithin size (work_for work label size) }
    ensures built { (work : Workload) (label : Option (List ℕ)) (size : ℕ)
        → All (λ l. IsBuilt l.command) work.lines
        → All (λ l. IsBuilt l.command) (work_for work label size).lines }
    ensures labels { (work : Workload) (label : Option (List ℕ)) (size : ℕ)
        → HasOwnLabels work.lines → HasOwnLabels (work_for work label size).lines }
    ensures tallies { (work : Workload) (label : Option (List ℕ)) (size : ℕ)
        → KeepsTallies work.lines → KeepsTallies (work_for work label size).lines }
{}

/// Of an actor of that home these are all lines and commands, and of another none.
pub fn lines_of_a_home_are_its_actors()
    ensures lines { (work : Workload) (label : Option (List ℕ)) (size actor : ℕ)
        → IsTrue (is_at work.actors label actor)
        → count_by (λ line. line.actor == actor) (work_for work label size).lines
        ≡ count_by (λ line. line.actor == actor) work.lines }
    ensures commands { (work : Workload) (label : Option (List ℕ)) (size : ℕ) (by : By)
        → IsTrue (is_at work.actors label by.actor)
        → command_at (work_for work label size) by ≡ command_at work by }
    ensures no_lines { (work : Workload) (label : Option (List ℕ)) (size actor : ℕ)
        → is_at work.actors label actor ≡ false
        → count_by (λ line. line.actor == actor) (work_for work label size).lines ≡ 0 }
    ensures no_commands { (work : Workload) (label : Option (List ℕ)) (size : ℕ) (by : By)
        → is_at work.actors label by.actor ≡ false
        → command_at (work_for work label size) by ≡ None }
{}

/// What a child is given, and what the top is, makes an instance.
pub fn what_is_given_is_an_instance()
    ensures brokers { (b : Birth) → 1 ≤ length b.grant.nodes
        → (1 ≤ brokers_for b) × (brokers_for b ≤ most_brokers) }
    ensures child { (set : Setup) (b : Birth) → IsWithin set.size set.work
        → All (λ l. IsBuilt l.command) set.work.lines → 1 ≤ length b.grant.nodes
        → IsGrant b.grant.nodes → IsInstance (instance_of (child_setup set b)) }
    ensures top { (set : Setup) → IsWithin set.size set.work
        → All (λ l. IsBuilt l.command) set.work.lines → 1 ≤ set.size
        → IsGrant set.resources.nodes → set.base ≡ None → set.grant ≡ r_text set.resources
        → IsInstance (instance_of (record set { work = work_for set.work None set.size })) }
{}
