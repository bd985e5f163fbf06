//! The laws of what is due, each the contract of a function.
ghost use Rattle.std.specs.Prelude.{◌≡◌, ◌≢◌, ◌↔◌, ◌++◌, ◌<◌, ◌≤◌, ◌==◌, ◌^◌, ◌⊎◌, ℕ, List, [], ◌∷◌, length, true, false, Option, Some, None, Contains, IfSome, Ok, if◌then◌else◌};
ghost use Rattle.std.specs.List.{AllByRecursion as Each};
ghost use Rattle.std.specs.List.Sorted.{IsStrictlyIncreasing};
ghost use Rattle.job_spec.specs.declared.spec.JobSpec.{JobSpec};
ghost use Rattle.job_states.specs.declared.job.State.TheVariants as state;
ghost use Rattle.job_states.specs.Changes.{change_of};
ghost use Rattle.job_states.specs.declared.job.Change.TheVariants.{Submit as Begun};
ghost use Rattle.event_log.specs.declared.event.Event.{Event};
ghost use Rattle.job_rules.specs.Fits.{IsGrant, IsSpec};
ghost use Rattle.job_spec.specs.declared.spec.Depend.{Depend};
ghost use Rattle.job_states.specs.Replay.{stepped};
ghost use Rattle.job_states.specs.Table.{made};
ghost use Rattle.kvs_model.specs.History.{first_store};
ghost use Rattle.kvs_model.specs.Operation.{effect};
ghost use Rattle.kvs_model.specs.Store.{IsStore, Store};
ghost use Rattle.kvs_txn.specs.declared.txn.Scope.TheVariants.{Primary};
ghost use Rattle.kvs_txn.specs.declared.txn.Txn.{Txn};
ghost use Rattle.resource_set.specs.Units.{AreHosts};
ghost use Rattle.shells.specs.declared.ends.Ending.TheVariants.{At};
ghost use Rattle.resource_set.specs.declared.node.Node.{Node};
ghost use Rattle.resource_set.specs.declared.node.Resources.{Resources};
ghost use Rattle.store_laws.specs.Posts.{AreTaken};
ghost use Rattle.store_laws.specs.Reserved.{IsUsers};
ghost use Rattle.manager_rules.specs.Deeds.{Deed, Depends, Expires, Finishes, Removes, Restarts, Takes, change_by, due_of, event_of};
ghost use Rattle.manager_rules.specs.Dependencies.{IsHead, is_added, is_met, is_removed};
ghost use Rattle.manager_rules.specs.declared.due.Due.{Due};
ghost use Rattle.manager_rules.specs.declared.policy.Policy.TheVariants.{FirstFit};
ghost use Rattle.manager_rules.specs.declared.terms.Limit.{Limit};
ghost use Rattle.manager_rules.specs.declared.why.Why.TheVariants.{Behind, Ready};
ghost use Rattle.manager_rules.specs.Due.{FindsNone, IsDue, IsLike, MayDo, MayTake, StillWaits, is_in_time, status_at};
ghost use Rattle.manager_rules.specs.Jobs.{AreJobsOf, AreNeeds, HasOnlyJobs, IsLogged, StoredJob, ids_of, is_live};
ghost use Rattle.manager_rules.specs.Limits.{exceeds, no_limits, outlasts, verdict_of};
ghost use Rattle.manager_rules.specs.Posts.{Desk, Does, IsDesk, IsDuePost, IsOpenSubmit, IsSubmission, Post, StillSubmits, Submission, Submit, Submits, group_of, job_of, jobs_after, txn_of, with_event, with_job};
ghost use Rattle.manager_rules.specs.Reserved.{IsReserved};
ghost use Rattle.manager_rules.specs.Scene.{IsScene, Scene, has_living_child, has_shut_child};
ghost use Rattle.manager_rules.specs.Sound.{AreInTime, IsSound, IsSoundStore};
ghost use Rattle.manager_rules.specs.Times.{seconds_of};
ghost use Rattle.manager_rules.specs.Whys.{IsFirst, IsSaidOf};

/// The table of events and states allows what is due, and its event makes the change of its row.
pub fn what_is_due_is_allowed()
    ensures { (s : Scene) (j : StoredJob) (deed : Deed) (index : ℕ) → IsScene s
        → IfSome j.r (λ r. AreHosts r.nodes) → MayDo s j deed
        → stepped index j.job (event_of s.now j deed) ≡ Ok (made (change_by deed) j.job) }
{}

/// The first store of a grant has no jobs.
pub fn first_stores_have_no_jobs()
    ensures { (grant : List ℕ) → AreJobsOf (first_store grant) [] }
{}

/// A user's transaction leaves the jobs as they are, through links too.
pub fn users_leave_jobs()
    ensures { (st new : Store) (txn : Txn) (jobs : List StoredJob) → IsUsers txn
        → effect st txn Primary ≡ Ok new
        → AreJobsOf st jobs → AreJobsOf new jobs }
{}

/// Where a due event lands, its job is one event further, and the other jobs stay.
pub fn due_events_do_one_step()
    ensures { (s : Scene) (st new : Store) (j : StoredJob) (deed : Deed) → IsScene s → IsStore st
        → AreJobsOf st s.jobs
        → IfSome j.r (λ r. AreHosts r.nodes) → Contains s.jobs j → MayDo s j deed
        → effect st (txn_of (Does (due_of s.now j deed))) Primary ≡ Ok new
        → AreJobsOf new (with_event (due_of s.now j deed) s.jobs) }
{}

/// Where a due submission lands, its job is new, and the others stay.
pub fn due_submissions_add_a_job()
    ensures { (s : Scene) (birth : ℕ) (submits : List Submit) (x : Submission)
        (due : IsSubmission s birth submits x) (st new : Store)
        → IsScene s → IsOpenSubmit due.from
        → IsStore st → AreJobsOf st s.jobs → effect st (txn_of (Submits x)) Primary ≡ Ok new
        → AreJobsOf new (with_job (job_of x due.from.by.actor due.from.urgency) s.jobs) }
{}

/// A due event leaves live jobs with satisfying units of the grant, no two of them one in common.
pub fn due_events_keep_jobs_sound()
    ensures { (s : Scene) (st : Store) (j : StoredJob) (deed : Deed) → IsScene s
        → AreJobsOf st s.jobs → IsSound s.grant.nodes s.jobs → IsGrant s.grant.nodes
        → Contains s.jobs j → MayDo s j deed → IsSpec j.spec
        → IsSound s.grant.nodes (with_event (due_of s.now j deed) s.jobs) }
{}

/// The same of a list of jobs with no store beside it, which hold resources in time and go on doing
/// so.
pub fn due_events_keep_lists_sound()
    ensures sound { (s : Scene) (j : StoredJob) (deed : Deed) → IsScene s → AreInTime s.jobs
        → IsSound s.grant.nodes s.jobs → IsGrant s.grant.nodes
        → Contains s.jobs j → MayDo s j deed → IsSpec j.spec
        → IsSound s.grant.nodes (with_event (due_of s.now j deed) s.jobs) }
    ensures in_time { (s : Scene) (j : StoredJob) (deed : Deed) → IsScene s → AreInTime s.jobs
        → IsSound s.grant.nodes s.jobs → IsGrant s.grant.nodes
        → Contains s.jobs j → MayDo s j deed → IsSpec j.spec
        → AreInTime (with_event (due_of s.now j deed) s.jobs) }
{}

/// The event of a due submission tells its user, its urgency and its dependencies.
pub fn due_submissions_tell_themselves()
    ensures asks { (s : Scene) (birth : ℕ) (submits : List Submit) (x : Submission)
        (due : IsSubmission s birth submits x)
        → IsScene s → IsOpenSubmit due.from
        → change_of x.event ≡ Some (Begun due.from.by.actor due.from.urgency) }
    ensures needs { (s : Scene) (birth : ℕ) (submits : List Submit) (x : Submission)
        (due : IsSubmission s birth submits x)
        → IsScene s → IsOpenSubmit due.from
        → Each (λ j. j.id < 2 ^ 64) s.jobs → AreNeeds x.spec x.event x.needs }
    ensures known { (s : Scene) (birth : ℕ) (submits : List Submit) (x : Submission)
        → IsSubmission s birth submits x
        → Each (λ need. Contains (ids_of s.jobs) need.on) x.needs }
{}

/// A new job holds nothing, and leaves the others as sound as they were.
pub fn submissions_keep_jobs_sound()
    ensures { (grant : List Node) (x : Submission) (userid urgency : ℕ) (jobs : List StoredJob)
        → IsSound grant jobs
        → IsSound grant (with_job (job_of x userid urgency) jobs) }
{}

/// A log is only added to: by users and by submissions not at all, and by a due event at its end.
pub fn logs_only_grow()
    ensures users { (st new : Store) (txn : Txn) (id : ℕ) (log : List Event) → IsUsers txn
        → effect st txn Primary ≡ Ok new
        → IsLogged st id log → IsLogged new id log }
    ensures manager { (s : Scene) (st new : Store) (j : StoredJob) (deed : Deed)
        (id : ℕ) (log : List Event)
        → IsScene s → IsStore st → AreJobsOf st s.jobs
        → IfSome j.r (λ r. AreHosts r.nodes) → Contains s.jobs j → MayDo s j deed
        → effect st (txn_of (Does (due_of s.now j deed))) Primary ≡ Ok new
        → id < 2 ^ 64 → IsLogged st id log → (more : List Event) × IsLogged new id (log ++ more) }
    ensures submissions { (s : Scene) (birth : ℕ) (submits : List Submit) (x : Submission)
        → IsSubmission s birth submits x
        → (st new : Store) → IsStore st → AreJobsOf st s.jobs
        → effect st (txn_of (Submits x)) Primary ≡ Ok new
        → (id : ℕ) (log : List Event) → id < 2 ^ 64 → IsLogged st id log → IsLogged new id log }
{}

/// A store has one list of jobs.
pub fn a_store_has_one_list_of_jobs()
    ensures { (st : Store) (jobs others : List StoredJob) → AreJobsOf st jobs → AreJobsOf st others
        → jobs ≡ others }
{}

/// A user's transaction leaves a sound store sound.
pub fn users_keep_stores_sound()
    ensures { (grant : List Node) (st new : Store) (txn : Txn) → IsUsers txn
        → effect st txn Primary ≡ Ok new
        → IsSoundStore grant st → IsSoundStore grant new }
{}

/// What is due leaves a sound store sound.
pub fn due_posts_keep_stores_sound()
    ensures { (d : Desk) (post : Post) (st new : Store) → IsDesk d → IsGrant d.scene.grant.nodes
        → IsStore st → AreJobsOf st d.scene.jobs
        → IsSoundStore d.scene.grant.nodes st → IsDuePost d post
        → effect st (txn_of post) Primary ≡ Ok new → IsSoundStore d.scene.grant.nodes new }
{}

/// What is due stays due while its command waits, whatever other commands come and go, and whatever
/// other jobs' children do.
pub fn what_is_due_stays_due()
    ensures events { (s later : Scene) (due : Due) → IsLike s later due.job → StillWaits s later due
        → IsDue s due → IsDue later due }
    ensures submissions { (s later : Scene) (birth : ℕ) (submits more : List Submit)
        (x : Submission)
        → StillSubmits s later submits more x → IsSubmission s birth submits x
        → IsSubmission later birth more x }
{}

/// Below `job` stands nothing but jobs: in the first store, and after each user's and each due
/// transaction.
pub fn only_jobs_stand_below_job()
    ensures begin { (grant : List ℕ) → HasOnlyJobs (first_store grant) [] }
    ensures users { (st new : Store) (txn : Txn) (ids : List ℕ) → IsUsers txn
        → effect st txn Primary ≡ Ok new
        → HasOnlyJobs st ids → HasOnlyJobs new ids }
    ensures posts { (d : Desk) (post : Post) (st new : Store) → IsDesk d → IsStore st
        → AreJobsOf st d.scene.jobs
        → HasOnlyJobs st (ids_of d.scene.jobs) → IsDuePost d post
        → effect st (txn_of post) Primary ≡ Ok new
        → HasOnlyJobs new (ids_of (jobs_after post d.scene.jobs)) }
{}

/// Where a due post lands, the store's jobs are those that it leaves.
pub fn due_posts_change_the_jobs()
    ensures { (d : Desk) (post : Post) (st new : Store) → IsDesk d → IsGrant d.scene.grant.nodes
        → IsStore st → AreJobsOf st d.scene.jobs → IsSoundStore d.scene.grant.nodes st
        → IsDuePost d post → effect st (txn_of post) Primary ≡ Ok new
        → AreJobsOf new (jobs_after post d.scene.jobs) }
{}

/// What is due takes effect, where there are fewer than 2,000 jobs: no directory is full then.
pub fn due_posts_take_effect()
    ensures { (d : Desk) (post : Post) (st : Store) → IsDesk d → IsStore st
        → AreJobsOf st d.scene.jobs
        → HasOnlyJobs st (ids_of d.scene.jobs) → length d.scene.jobs < 2000 → IsDuePost d post
        → AreTaken (group_of post ∷ []) st }
{}

/// One job at a time takes resources: the first in the queue, or one that passes it.
pub fn one_job_at_a_time_takes()
    ensures { (s : Scene) (j k : StoredJob) (r q : Resources)
        → IsStrictlyIncreasing (ids_of s.jobs) → Contains s.jobs j → Contains s.jobs k
        → MayDo s j (Takes r) → MayDo s k (Takes q) → j.id ≡ k.id }
{}

/// A job that passes the first in the queue leaves the second that is reserved for the first as it
/// is, in the store in which its resources have landed too.
pub fn who_passes_leaves_the_reserved_second()
    ensures { (s : Scene) (j : StoredJob) (r : Resources) → IsScene s → AreInTime s.jobs
        → Contains s.jobs j → MayDo s j (Takes r) → (head : StoredJob) → Contains s.jobs head
        → IsHead s.jobs head.id → j.id ≢ head.id
        → (second : ℕ) × IsReserved s.grant.nodes s.jobs head.spec s.now second
        × IsReserved s.grant.nodes (with_event (due_of s.now j (Takes r)) s.jobs) head.spec s.now
        second }
{}

/// While another job stays the first in the queue, no due event lets the second that is reserved
/// for it rise.
pub fn reserved_seconds_never_rise()
    ensures { (s : Scene) (j : StoredJob) (deed : Deed) → IsScene s → AreInTime s.jobs
        → IsGrant s.grant.nodes → Contains s.jobs j → MayDo s j deed → (head : StoredJob)
        → Contains s.jobs head → IsHead s.jobs head.id → j.id ≢ head.id → IsSpec head.spec
        → (second : ℕ) → IsReserved s.grant.nodes s.jobs head.spec s.now second
        → (later : ℕ) × (later ≤ second)
        × IsReserved s.grant.nodes (with_event (due_of s.now j deed) s.jobs) head.spec s.now later }
{}

/// Where nobody passes the first in the queue, it alone takes resources, and it alone is ready.
pub fn first_fit_serves_the_first_alone()
    ensures takes { (s : Scene) (j : StoredJob) (r : Resources) → s.policy ≡ FirstFit
        → MayTake s j r ↔ IsHead s.jobs j.id }
    ensures ready { (s : Scene) (j : StoredJob) → s.policy ≡ FirstFit
        → IsSaidOf s j Ready ↔ (IsFirst s.jobs j × (FindsNone s j → ⊥)) }
    ensures behind { (s : Scene) (j : StoredJob) (head : ℕ) → s.policy ≡ FirstFit
        → IsSaidOf s j (Behind head) ↔ ((j.job.state ≡ state.Sched) × (j.job.priority ≢ Some 0)
        × IsHead s.jobs head × (head ≢ j.id)) }
{}

/// Where a job may ask for anything, none is turned away; nor is one for a limit without a reason.
pub fn nobody_is_turned_away_without_limits()
    ensures all { (spec : JobSpec) → verdict_of no_limits spec ≡ 0 }
    ensures each { (limit : Limit) (n : ℕ) → limit.reason ≡ 0
        → (exceeds limit n ≡ false) × (outlasts limit n ≡ false) }
{}

/// A job with which the run didn't resume never begins anew, and a command whose second isn't
/// passed ends at that second, unless its resources end before.
pub fn jobs_of_the_run_end_when_they_said()
    ensures begun { (s : Scene) (j : StoredJob) → s.old j.id ≡ false → MayDo s j Restarts → ⊥ }
    ensures ends { (s : Scene) (id second status : ℕ) (r : Option Resources) → s.now ≤ second
        → is_in_time r second ≡ true
        → status_at s id r (At second status) ≡ (if second == s.now then Some status else None) }
{}

/// While its child lives, a job isn't released and keeps its units.
pub fn jobs_of_living_children_keep_their_units()
    ensures { (s : Scene) (j : StoredJob) (deed : Deed) → MayDo s j deed
        → has_living_child s.asked j.id ≡ true
        → j.job.released ≡ false → ((made (change_by deed) j.job).released ≡ false)
        × (is_live j.job ≡ true → is_live (made (change_by deed) j.job) ≡ true) }
{}

/// A command ends at a second that was ahead or, where the run resumed behind it, later, or with
/// its child; resources end at such a second or later.
pub fn jobs_end_at_their_seconds()
    ensures finish { (s : Scene) (j : StoredJob) (status : ℕ) → MayDo s j (Finishes status)
        → (has_shut_child s.asked j.id ≡ true)
        ⊎ ((second : ℕ) × Contains (seconds_of j) second × (second ≤ s.now)) }
    ensures timeout { (s : Scene) (j : StoredJob) → MayDo s j Expires
        → (second : ℕ) × Contains (seconds_of j) second × (second ≤ s.now) }
{}

/// A dependency is removed once all are added and it is met, and a job goes on once all are
/// removed.
pub fn dependencies_are_removed_once_met()
    ensures removed { (s : Scene) (j : StoredJob) (need : Depend) → MayDo s j (Removes need)
        → Each (λ n. is_added j n ≡ true) j.needs × Contains j.needs need
        × (is_removed j need ≡ false) × (is_met s.jobs need ≡ true) }
    ensures done { (s : Scene) (j : StoredJob) → MayDo s j Depends
        → Each (λ n. (is_added j n ≡ true) × (is_removed j n ≡ true)) j.needs }
{}
