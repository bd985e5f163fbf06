//! The jobs of an instance.
ghost use Rattle.std.specs.Prelude.{◌≡◌, ◌≢◌, ◌↔◌, ◌⊎◌, ◌<◌, ◌≤◌, ◌+◌, ◌^◌, ◌++◌, ◌∷◌, [], true, false, ℕ, Some, IsSome, Contains, IsTrue, is_some, None, IfNone, IfOk, IfSome, OnErr, OnOk, option_map};
ghost use Rattle.instance_rules.specs.Desks.{Names, is_submission};
ghost use Rattle.instance_rules.specs.Family.{HasTarget, IsLeftAdvance, IsLeftResult, IsTarget, Living, OfLiving};
ghost use Rattle.instance_rules.specs.Log.{Born, Gone, Instance, IsOpen, Issued, Log, Served, Shutdown, Ticked, service_of};
ghost use Rattle.instance_rules.specs.Legal.{IsLegalMoment, OfDesk};
ghost use Rattle.job_commands.specs.Asks.{told};
ghost use Rattle.job_replies.specs.Told.{MayTell};
ghost use Rattle.job_deeds.specs.job_rules.Fits.{IsGrant};
ghost use Rattle.kvs_core.specs.Steps.{IsStill as CoreIsStill, can_step, can_take};
ghost use Rattle.kvs_core.specs.Requests.{IsServedAsk};
ghost use Rattle.kvs_rules.specs.Log.{Asked as AskedAt, Happened};
ghost use Rattle.kvs_rules.specs.Quiet.{AreAllTold};
ghost use Rattle.kvs_rules.specs.declared.events.KvsEvent.TheVariants as event;
ghost use Rattle.job_deeds.specs.resource_set.Valid.{IsR};
ghost use Rattle.run_limits.specs.Limits.{most_seconds};
ghost use Rattle.job_service.specs.Agrees.{AgreesJobs, HasRoom, IsNewAsk, IsNewCommand, IsServedBy, MayAsk, MayIssue};
ghost use Rattle.job_service.specs.Children.{IsFirstBirth, IsGrantedBy, NoBirth, grant_from, is_due, is_end_due, may_end};
ghost use Rattle.job_service.specs.Makes.{Makes};
ghost use Rattle.job_book.specs.Contract.{r_at, seconds_left};
ghost use Rattle.job_book.specs.Seconds.{IsSoonest};
ghost use Rattle.job_clock.specs.Standing.{IsLiving, IsTop};
ghost use Rattle.job_deeds.specs.kvs_txn.declared.txn.By.{By as Command};
ghost use Rattle.job_deeds.specs.kvs_model.Store.{Name};
ghost use Rattle.job_deeds.specs.manager_rules.Jobs.{StoredJob, is_live};
ghost use Rattle.job_deeds.specs.manager_rules.Times.{IsEndDue, IsIdle, seconds_ahead};
ghost use Rattle.job_service.specs.Feeds.{Feeds, IsFedByRow, can_feed};
ghost use Rattle.job_service.specs.Still.{IsStill, awaited};
ghost use Rattle.job_service.specs.Times.{Counts, HasTime, KeepsCounts, MayPassTo, targets_left};
ghost use Rattle.job_deeds.specs.job_states.declared.job.State.{State as StateValue};
ghost use Rattle.job_service.specs.Replies.{Answers, can_reply, is_kept_back, is_ready_in};

use crate::children::{bearing, is_over};
use crate::due::look;
use crate::feeds::{
    Fed, Feed, fed_now, forget_feed, has_news, is_watched, next_feed, put_feed, told_watch,
};
use crate::landing::{command_posted, land};
use crate::laws::what_waits_stays_due;
use crate::posting::post;
use crate::refusals::{
    Refused, fault_in, forget, is_undone, refusal_of, remember, reply_of, row_of,
};
use crate::rest::awaited;
use crate::time::{is_within, seconds_asked};
use child_grant::child;
use job_clock::next_target;
use job_commands::{Commands, JobAsk};
use job_deeds::job_states::State;
use job_deeds::kvs_txn::By;
use job_deeds::lists::Bytes;
use job_deeds::manager_rules::Terms;
use job_deeds::resource_set::Resources;
use job_landings::{number_of_post, what_is_posted_lands_as_it_is_due};
use job_manager::{Manager, Post};
use job_replies::{Told, is_ready, tell};
use job_submissions::{what_is_lacking_is_so_by_the_log, what_is_made_is_due};
use kvs_core::{Core, CoreFault, Held, KvsEvents, Setting};
use kvs_keys::laws::users_land_where_nothing_is_posted;
use kvs_rules::{KvsAsk, KvsStep};
use run_limits::MOST_SUBMITS;
use std::alloc::{AllocError, Global};
use std::marker::Model;

/// The jobs of one instance: its job manager over the key-value service, its open job commands, and
/// the time.
#[derive(Drop)]
pub struct JobService {
    alloc: Global,
    spent: bool,
    /// On what terms the jobs are served.
    terms: Terms,
    /// The second at which the instance was born.
    birth: u64,
    /// The present second.
    second: u64,
    manager: Manager,
    commands: Commands,
    refused: Vec<Refused>,
    feeds: Vec<Feed>,
    /// What is due and isn't posted, where nothing is posted.
    found: Option<Post>,
    /// The id of the job that is submitted, where a submission is posted.
    submitting: Option<u64>,
    /// The first job whose child is to be born.
    bearing: Option<u64>,
    /// How many submissions were issued.
    submitted: u64,
    /// The seconds of all advances that were issued.
    span: u64,
}

impl Model for JobService {
    ghost use Rattle.job_service.specs.Value.{JobServiceValue};

    ghost Value = { JobServiceValue };

    ghost use Rattle.job_service.specs.View.{value_of, IsFitInside};

    ghost view = { value_of };

    ghost invariant = { IsFitInside };
}

impl JobService {
    /// The service of an instance that is born at this second with a grant, before anything has
    /// happened. Time goes on from there by at most 1,000,000,000 seconds.
    pub fn new(
        alloc: Global,
        setting: Setting,
        grant: &Resources,
        birth: u64,
        terms: Terms,
    ) -> Result<JobService, CoreFault>
        requires size { (1 ≤ setting.size) × (setting.size ≤ 32) }
        requires fanout { (1 ≤ setting.fanout) × (setting.fanout ≤ 32) }
        requires grant { IsR grant.now }
        requires early { birth + 2000000000 < 2 ^ 64 }
        ensures ready { IfOk result (λ v. v.spent ≡ false) }
        ensures size { IfOk result (λ v. v.manager.core.size ≡ setting.size) }
        ensures start { IfOk result (λ v. (v.submitted ≡ 0) × (v.span ≡ 0)) }
        ensures grant { IfOk result (λ v. IsGrant grant.now.nodes) }
        ensures agrees { IfOk result (λ v. (inst : Instance)
            → IsServedBy inst setting.size setting.fanout grant.now birth terms
            → inst.service.hash ≡ setting.hash → AgreesJobs v inst []) }
    {
        let manager = Manager::new(alloc, setting, grant, terms.policy)?;
        let commands = Commands::new(alloc, setting.size)?;
        // ids rise, and live jobs hold units of the grant
        manager.book().keeps();
        Ok(JobService {
            alloc,
            spent: false,
            terms,
            birth,
            second: birth,
            manager,
            commands,
            refused: Vec::new(alloc),
            feeds: Vec::new(alloc),
            found: None,
            submitting: None,
            bearing: None,
            submitted: 0,
            span: 0,
        })
    }

    /// The key-value service.
    pub fn core(&self) -> &Core
        requires { self.now.spent ≡ false }
        ensures value { result.now ≡ self.now.manager.core }
        ensures ready { result.now.spent ≡ false }
    {
        // the book tells the jobs of the newest store
        self.manager.keeps();
        self.manager.core()
    }

    /// A command asks the key-value service, which has asked it nothing before. After an error the
    /// service is spent.
    pub fn ask(
        &mut self,
        by: By,
        broker: u32,
        namespace: Bytes,
        floor: u64,
        ask: KvsAsk,
    ) -> Result<(), AllocError>
        requires ready { self.old.spent ≡ false }
        requires within { broker < self.old.manager.core.size }
        requires known { IsServedAsk ask }
        requires may { MayAsk self.old by broker namespace ask }
        ensures ready { OnOk result (self.new.spent ≡ false) }
        ensures counts { OnOk result (KeepsCounts self.old self.new) }
        ensures spent { OnErr result (self.new.spent ≡ true) }
        ensures agrees { OnOk result ((inst : Instance) (log : Log) → AgreesJobs self.old inst log
            → IsNewAsk self.old inst log by broker namespace ask
            → (floors : Name → ℕ) → floors namespace ≡ floor
            → AgreesJobs self.new inst (log ++ Served (AskedAt by floors) ∷ [])) }
    {
        self.spent = true;
        self.manager.ask(by, broker, namespace, floor, ask)?;
        self.spent = false;
        Ok(())
    }

    /// Takes the key-value service's answer to a command, which its actor is then told. This takes
    /// no memory.
    pub fn take(&mut self, by: By) -> Held
        requires ready { self.old.spent ≡ false }
        requires can { can_take self.old.manager.core by ≡ true }
        ensures ready { self.new.spent ≡ false }
        ensures counts { KeepsCounts self.old self.new }
        ensures legal { (inst : Instance) (log : Log) → AgreesJobs self.old inst log
            → IsLegalMoment inst log (Served (Happened
            (event.Answered by result.number result.answer))) }
        ensures agrees { (inst : Instance) (log : Log) → AgreesJobs self.old inst log
            → AgreesJobs self.new inst (log ++ Served (Happened
            (event.Answered by result.number result.answer)) ∷ []) }
    {
        self.manager.take(by)
    }

    /// Makes a step of the key-value service, and gives what happened. Where the post lands, its
    /// command is carried out, and what is due next is looked for. After an error the service is
    /// spent.
    pub fn turn(&mut self, step: KvsStep) -> Result<KvsEvents, CoreFault>
        requires ready { self.old.spent ≡ false }
        requires can { can_step self.old.manager.core step ≡ true }
        ensures ready { OnOk result (self.new.spent ≡ false) }
        ensures counts { OnOk result (KeepsCounts self.old self.new) }
        ensures makes { IfOk result (Makes step self.old self.new) }
        ensures spent { OnErr result (self.new.spent ≡ true) }
    {
        self.spent = true;
        // the book tells the jobs of the newest store, which the log of the core leaves
        self.manager.keeps();
        self.manager.core().standing();
        users_land_where_nothing_is_posted();
        what_is_posted_lands_as_it_is_due();
        what_is_made_is_due();
        let events = self.manager.turn(step)?;
        let Some(number) = number_of_post(&events) else {
            self.spent = false;
            return Ok(events);
        };
        // ids rise, and live jobs hold units of the grant
        self.manager.book().keeps();
        let by = command_posted(&events);
        land(
            &mut self.commands,
            &mut self.refused,
            by,
            self.submitting.take(),
            number,
        )?;
        self.found = look(
            self.alloc,
            &self.commands,
            &self.manager,
            self.second,
            self.birth,
            self.terms,
        )?;
        self.bearing = bearing(&self.commands, self.manager.book())?;
        self.spent = false;
        Ok(events)
    }

    /// Whether something was found that is due, to be posted.
    pub fn can_post(&self) -> bool
        ensures { result ≡ is_some self.now.found }
    {
        self.found.is_some()
    }

    /// Posts what was found to be due, which then waits in the key-value service to land. After an
    /// error the service is spent.
    pub fn post(&mut self) -> Result<(), CoreFault>
        requires ready { self.old.spent ≡ false }
        requires can { is_some self.old.found ≡ true }
        ensures ready { OnOk result (self.new.spent ≡ false) }
        ensures counts { OnOk result (KeepsCounts self.old self.new) }
        ensures spent { OnErr result (self.new.spent ≡ true) }
        ensures posted { OnOk result (is_some self.new.manager.posted ≡ true) }
        ensures unfound { OnOk result (self.new.found ≡ None) }
        ensures agrees { OnOk result ((inst : Instance) (log : Log) → AgreesJobs self.old inst log
            → AgreesJobs self.new inst log) }
    {
        self.spent = true;
        // the book tells the jobs of the newest store
        self.manager.keeps();
        let Some(found) = self.found.take() else {
            unreachable!()
        };
        self.submitting = post(&mut self.manager, found)?;
        self.spent = false;
        Ok(())
    }

    /// The first job whose child is to be born: it has started with a command that begins an
    /// instance (Flux RFC 14), and has had none. This takes no memory.
    pub fn birth(&self) -> Option<u64>
        requires { self.now.spent ≡ false }
        ensures kept { result ≡ self.now.bearing }
        ensures some { IfSome result (λ job. (inst : Instance) (log : Log)
            → AgreesJobs self.now inst log
            → OfDesk inst log (λ desk. IsFirstBirth desk.scene job)) }
        ensures none { IfNone result ((inst : Instance) (log : Log) → AgreesJobs self.now inst log
            → OfDesk inst log (λ desk. NoBirth desk.scene)) }
    {
        // the book tells the jobs of the newest store, which the log of the core leaves
        self.manager.keeps();
        self.manager.core().standing();
        self.bearing
    }

    /// The child of a job is born, which is the first that is to be. After an error the service is
    /// spent.
    pub fn born(&mut self, job: u64) -> Result<(), AllocError>
        requires ready { self.old.spent ≡ false }
        requires due { self.old.bearing ≡ Some job }
        ensures ready { OnOk result (self.new.spent ≡ false) }
        ensures counts { OnOk result (KeepsCounts self.old self.new) }
        ensures spent { OnErr result (self.new.spent ≡ true) }
        ensures legal { OnOk result ((inst : Instance) (log : Log) → AgreesJobs self.old inst log
            → IsLegalMoment inst log (Born job)) }
        ensures agrees { OnOk result ((inst : Instance) (log : Log) → AgreesJobs self.old inst log
            → AgreesJobs self.new inst (log ++ Born job ∷ [])) }
    {
        self.spent = true;
        // the book tells the jobs of the newest store, which the log of the core leaves
        self.manager.keeps();
        self.manager.core().standing();
        self.manager.book().keeps();
        what_waits_stays_due();
        what_is_made_is_due();
        self.commands.born(job)?;
        self.found = look(
            self.alloc,
            &self.commands,
            &self.manager,
            self.second,
            self.birth,
            self.terms,
        )?;
        self.bearing = bearing(&self.commands, self.manager.book())?;
        self.spent = false;
        Ok(())
    }

    /// Whether the child of a job may go, which shuts down or doesn't: it lives, it shuts down or
    /// its job is ending, and no event of the job waits to land. Where its end is due by the rules
    /// and none waits, it may. This takes no memory.
    pub fn may_end(&self, job: u64, shut: bool) -> bool
        requires { self.now.spent ≡ false }
        ensures exact { result ≡ may_end self.now job shut }
        ensures due { (inst : Instance) (log : Log) → AgreesJobs self.now inst log
            → IsTrue (is_end_due self.now job shut)
            ↔ OfDesk inst log (λ desk. IsEndDue desk.scene (IsTrue shut) job) }
    {
        // the book tells the jobs of the newest store, which the log of the core leaves
        self.manager.keeps();
        self.manager.core().standing();
        !self.manager.is_posted_for(job)
            && is_over(self.manager.book(), job, shut)
            && self.commands.has_living_child(job)
    }

    /// The child of a job goes, by its own shutdown or not. After an error the service is spent.
    pub fn gone(&mut self, job: u64, shut: bool) -> Result<(), AllocError>
        requires ready { self.old.spent ≡ false }
        requires may { may_end self.old job shut ≡ true }
        ensures ready { OnOk result (self.new.spent ≡ false) }
        ensures counts { OnOk result (KeepsCounts self.old self.new) }
        ensures spent { OnErr result (self.new.spent ≡ true) }
        ensures legal { OnOk result ((inst : Instance) (log : Log) → AgreesJobs self.old inst log
            → IsLegalMoment inst log (Gone job shut)) }
        ensures agrees { OnOk result ((inst : Instance) (log : Log) → AgreesJobs self.old inst log
            → AgreesJobs self.new inst (log ++ Gone job shut ∷ [])) }
    {
        self.spent = true;
        // the book tells the jobs of the newest store, which the log of the core leaves
        self.manager.keeps();
        self.manager.core().standing();
        self.manager.book().keeps();
        what_waits_stays_due();
        what_is_made_is_due();
        self.commands.gone(job, shut);
        self.found = look(
            self.alloc,
            &self.commands,
            &self.manager,
            self.second,
            self.birth,
            self.terms,
        )?;
        self.bearing = bearing(&self.commands, self.manager.book())?;
        self.spent = false;
        Ok(())
    }

    /// The grant of the child of a live job: the job's resources at ranks from 0 on (Flux RFC 20),
    /// or none where the job holds none.
    pub fn grant_of(&self, job: u64) -> Result<Option<Resources>, AllocError>
        requires { self.now.spent ≡ false }
        ensures grant { IfOk result (λ grant. grant
            ≡ option_map grant_from (r_at self.now.manager.book.jobs job)) }
        ensures valid { IfOk result (λ grant. IfSome grant IsR) }
        ensures held { IfOk result (λ grant. IfSome grant (λ r. (inst : Instance) (log : Log)
            → AgreesJobs self.now inst log → IsGrantedBy inst log job r)) }
        ensures none { IfOk result (λ grant. grant ≡ None → (j : StoredJob)
            → Contains self.now.manager.book.jobs j → j.id ≡ job → is_live j.job ≡ false) }
        ensures bears { IfOk result (λ grant. self.now.bearing ≡ Some job → IsSome grant) }
    {
        // the book tells the jobs of the newest store, which the log of the core leaves
        self.manager.keeps();
        self.manager.core().standing();
        self.manager.book().keeps();
        match self.manager.book().r(job) {
            Some(r) => Ok(Some(child(self.alloc, r)?)),
            None => Ok(None),
        }
    }

    /// The job that a label names.
    pub fn job_of(&self, label: &[u8]) -> Option<u64>
        ensures { (inst : Instance) (log : Log) → AgreesJobs self.now inst log → (id : ℕ)
            → (result ≡ Some id) ↔ Names inst log label.now id }
    {
        self.commands.job_of(label)
    }

    /// A label that names a job, which stands for each job whose child is to be born.
    pub fn label_of(&self, job: u64) -> Option<&[u8]>
        requires { self.now.spent ≡ false }
        ensures bears { self.now.bearing ≡ Some job → IsSome result }
        ensures names { IfSome result (λ label. (inst : Instance) (log : Log)
            → AgreesJobs self.now inst log → Names inst log label.now job) }
    {
        self.commands.label_of(job)
    }

    /// Issues a job command at its broker. A submission is looked at once, here: where it is
    /// refused, it can be told so from then on. All advances together let time go on by no more
    /// than 1,000,000,000 seconds. After an error the service is spent.
    pub fn issue(&mut self, by: By, rank: u32, ask: JobAsk) -> Result<(), AllocError>
        requires ready { self.old.spent ≡ false }
        requires may { MayIssue self.old by rank ask }
        requires room { is_submission (Some (told ask)) ≡ true → HasRoom self.old }
        requires time { HasTime self.old ask }
        ensures ready { OnOk result (self.new.spent ≡ false) }
        ensures size { OnOk result (self.new.manager.core.size ≡ self.old.manager.core.size) }
        ensures counts { OnOk result (Counts ask self.old self.new) }
        ensures spent { OnErr result (self.new.spent ≡ true) }
        ensures agrees { OnOk result ((inst : Instance) (log : Log) → AgreesJobs self.old inst log
            → IsNewCommand inst log by rank ask
            → AgreesJobs self.new inst (log ++ Issued by ∷ [])) }
    {
        self.spent = true;
        // the book tells the jobs of the newest store, which the log of the core leaves
        self.manager.keeps();
        self.manager.core().standing();
        self.manager.book().keeps();
        what_is_lacking_is_so_by_the_log();
        what_waits_stays_due();
        what_is_made_is_due();
        let limits = self.terms.limits;
        let fault = fault_in(
            self.alloc,
            &self.commands,
            self.manager.book(),
            limits,
            &ask,
        )?;
        self.submitted += u64::from(ask.is_submit());
        self.span += seconds_asked(&ask);
        self.commands.issue(by, rank, self.second, ask)?;
        remember(&mut self.refused, by, fault)?;
        self.found = look(
            self.alloc,
            &self.commands,
            &self.manager,
            self.second,
            self.birth,
            self.terms,
        )?;
        self.spent = false;
        Ok(())
    }

    /// Whether another submission can be issued.
    pub fn has_room(&self) -> bool
        ensures { IsTrue result ↔ HasRoom self.now }
    {
        self.submitted < MOST_SUBMITS
    }

    /// Whether an advance by so many seconds can be issued.
    pub fn has_time(&self, seconds: u64) -> bool
        ensures { IsTrue result ↔ (self.now.span + seconds ≤ most_seconds) }
    {
        is_within(self.span, seconds)
    }

    /// Whether what is posted may carry out the command.
    fn is_kept_back(&self, by: By) -> bool
        ensures { result ≡ is_kept_back self.now by }
    {
        self.manager.is_waiting()
            && match row_of(&self.commands, by) {
                Some(row) => is_undone(row),
                None => false,
            }
    }

    /// Whether something is posted or due: a post, or a birth. This takes no memory.
    pub fn is_due(&self) -> bool
        requires { self.now.spent ≡ false }
        ensures exact { result ≡ is_due self.now }
        ensures idle { (inst : Instance) (log : Log) → AgreesJobs self.now inst log
            → result ≡ false → OfDesk inst log IsIdle }
    {
        // the book tells the jobs of the newest store, which the log of the core leaves
        self.manager.keeps();
        self.manager.core().standing();
        self.manager.is_waiting() || self.found.is_some() || self.bearing.is_some()
    }

    /// The present second.
    pub fn second(&self) -> u64
        ensures { result ≡ self.now.second }
    {
        self.second
    }

    /// The least second ahead that an open advance waits for. This takes no memory.
    pub fn next_target(&self) -> Option<u64>
        requires { self.now.spent ≡ false }
        ensures soonest { IsSoonest (targets_left self.now) result }
        ensures targets { (inst : Instance) (log : Log) (l : Living) (target : ℕ)
            → AgreesJobs self.now inst log → IsLiving inst log l
            → (HasTarget l target × (self.now.second < target))
            ↔ Contains (targets_left self.now) target }
    {
        next_target(&self.commands, self.second)
    }

    /// The next second, behind the present one, at which a running job's command ends or its
    /// resources do. This takes no memory.
    pub fn next_end(&self) -> Option<u64>
        requires { self.now.spent ≡ false }
        ensures soonest { IsSoonest (seconds_left self.now.second self.now.manager.book) result }
        ensures ends { (inst : Instance) (log : Log) (l : Living) (second : ℕ)
            → AgreesJobs self.now inst log → IsLiving inst log l
            → OfLiving l (λ desk. Contains (seconds_ahead desk.scene) second)
            ↔ Contains (seconds_left self.now.second self.now.manager.book) second }
    {
        // the book tells the jobs of the newest store, which the log of the core leaves
        self.manager.keeps();
        self.manager.core().standing();
        self.manager.book().next_second(self.second)
    }

    /// Lets time go on to this second, by an advance of whatever instance of the run. After an
    /// error the service is spent.
    pub fn tick(&mut self, second: u64) -> Result<(), AllocError>
        requires ready { self.old.spent ≡ false }
        requires may { MayPassTo self.old second }
        ensures ready { OnOk result (self.new.spent ≡ false) }
        ensures counts { OnOk result (KeepsCounts self.old self.new) }
        ensures second { OnOk result (self.new.second ≡ second) }
        ensures spent { OnErr result (self.new.spent ≡ true) }
        ensures legal { OnOk result ((inst : Instance) (log : Log) → AgreesJobs self.old inst log
            → IsLegalMoment inst log (Ticked second)) }
        ensures agrees { OnOk result ((inst : Instance) (log : Log) → AgreesJobs self.old inst log
            → AgreesJobs self.new inst (log ++ Ticked second ∷ [])) }
    {
        self.spent = true;
        // the book tells the jobs of the newest store, which the log of the core leaves
        self.manager.keeps();
        self.manager.core().standing();
        self.manager.book().keeps();
        what_is_made_is_due();
        self.second = second;
        self.found = look(
            self.alloc,
            &self.commands,
            &self.manager,
            second,
            self.birth,
            self.terms,
        )?;
        self.spent = false;
        Ok(())
    }

    /// The state of the job whose end an open command waits for, if it waits for one: it asks for
    /// the job's result, or watches it.
    pub fn awaited(&self, by: By) -> Option<State>
        ensures { result ≡ awaited self.now by }
    {
        let row = row_of(&self.commands, by)?;
        awaited(&self.commands, self.manager.book(), row)
    }

    /// Where nothing but time can go on, nothing is due by the log of the instance. Where no target
    /// is left besides, none of its advances is; and where all brokers are told, a job command that
    /// is left waits for the result of a job that isn't over, or for its second; shutdowns are
    /// another's. Nothing is due where the core is still, nothing is to be posted and no child is
    /// to be born.
    pub fn still(&self)
        requires { self.now.spent ≡ false }
        ensures idle { (inst : Instance) (log : Log) → AgreesJobs self.now inst log
            → IsStill self.now → OfDesk inst log IsIdle }
        ensures advanced { (inst : Instance) (log : Log) (l : Living) → AgreesJobs self.now inst log
            → IsStill self.now → targets_left self.now ≡ []
            → IsLiving inst log l → (target : ℕ) → HasTarget l target → ⊥ }
        ensures alone { (inst : Instance) (log : Log) (l : Living) → AgreesJobs self.now inst log
            → IsStill self.now → targets_left self.now ≡ [] → IsTop inst log l
            → (target : ℕ) → IsTarget (l ∷ []) [] target → ⊥ }
        ensures free { CoreIsStill self.now.manager.core → self.now.found ≡ None
            → self.now.bearing ≡ None → is_due self.now ≡ false }
        ensures left { (inst : Instance) (log : Log) (l : Living) → AgreesJobs self.now inst log
            → IsStill self.now → IsLiving inst log l
            → AreAllTold inst.service (service_of log) → (by : Command)
            → IsSome (inst.asks by) → inst.asks by ≢ Some Shutdown → IsOpen by log
            → IsSome (awaited self.now by) ⊎ IsLeftAdvance l by }
        ensures results { (inst : Instance) (log : Log) (l : Living) → AgreesJobs self.now inst log
            → IsLiving inst log l → (by : Command) (where_ : StateValue)
            → awaited self.now by ≡ Some where_ → IsStill self.now
            → AreAllTold inst.service (service_of log) → IsLeftResult l by where_ }
    {
        // the book tells the jobs of the newest store, which the log of the core leaves
        self.manager.keeps();
        self.manager.core().standing();
    }

    /// Whether a command is an open watch that can be fed: its label names a job that isn't over by
    /// its last feed, its broker has heard of a later root than that, and the broker's store has
    /// more in the job's log. This takes no memory.
    pub fn can_feed(&self, by: By) -> bool
        requires { self.now.spent ≡ false }
        ensures { result ≡ can_feed self.now by }
    {
        match row_of(&self.commands, by) {
            Some(row) => has_news(&self.commands, &self.manager, self.feeds.as_slice(), row),
            None => false,
        }
    }

    /// What a watch that can be fed has been fed then.
    fn next_feed(&self, by: By) -> Result<Feed, AllocError>
        requires ready { self.now.spent ≡ false }
        requires can { can_feed self.now by ≡ true }
        ensures by { IfOk result (λ feed. feed.by ≡ by) }
        ensures fed { IfOk result (IsFedByRow self.now by) }
    {
        let Some(row) = row_of(&self.commands, by) else {
            unreachable!()
        };
        let JobAsk::Watch { label } = &row.ask else {
            unreachable!()
        };
        let Some(id) = self.commands.job_of(label.as_slice()) else {
            unreachable!()
        };
        next_feed(
            self.alloc,
            &self.manager,
            &self.terms.shown,
            by,
            row.rank,
            id,
        )
    }

    /// Feeds a watch the events that its broker's store has behind those that it was fed, at least
    /// one. After an error the service is spent.
    pub fn feed(&mut self, by: By) -> Result<Fed, AllocError>
        requires ready { self.old.spent ≡ false }
        requires can { can_feed self.old by ≡ true }
        ensures ready { OnOk result (self.new.spent ≡ false) }
        ensures counts { OnOk result (KeepsCounts self.old self.new) }
        ensures manager { OnOk result (self.new.manager ≡ self.old.manager) }
        ensures spent { OnErr result (self.new.spent ≡ true) }
        ensures feeds { IfOk result (λ fed. (inst : Instance) (log : Log)
            → AgreesJobs self.old inst log → Feeds self.new inst log by fed) }
    {
        let next = match self.next_feed(by) {
            Ok(next) => next,
            Err(error) => {
                self.spent = true;
                return Err(error);
            }
        };
        self.spent = true;
        // each root is sound, and since then logs have only grown
        self.manager.keeps();
        self.manager.core().standing();
        let fed = fed_now(self.feeds.as_slice(), &next);
        put_feed(&mut self.feeds, next)?;
        self.spent = false;
        Ok(fed)
    }

    /// Whether an open job command can be told what became of it. While something is posted, no
    /// command is told that waits for a job or an event: the post may be what carries it out. This
    /// takes no memory.
    pub fn can_reply(&self, by: By) -> bool
        requires { self.now.spent ≡ false }
        ensures { result ≡ can_reply self.now by }
    {
        !self.is_kept_back(by)
            && (refusal_of(self.refused.as_slice(), by).is_some() || self.is_ready(by))
    }

    /// Whether what an open command waits for has come.
    fn is_ready(&self, by: By) -> bool
        requires { self.now.spent ≡ false }
        ensures { result ≡ is_ready_in self.now by }
    {
        match row_of(&self.commands, by) {
            Some(row) => {
                is_watched(self.feeds.as_slice(), row.by)
                    || is_ready(&self.commands, &self.manager, self.second, row)
            }
            None => false,
        }
    }

    /// What an open job command is told for which what it waits for has come.
    fn told_open(&self, by: By) -> Result<Told, AllocError>
        requires ready { self.now.spent ≡ false }
        requires can { is_ready_in self.now by ≡ true }
        ensures { IfOk result (λ told. (inst : Instance) (log : Log) → AgreesJobs self.now inst log
            → MayTell inst log by told.reply told.number) }
    {
        let Some(row) = row_of(&self.commands, by) else {
            unreachable!()
        };
        match told_watch(self.feeds.as_slice(), row.by)? {
            Some(told) => Ok(told),
            None => tell(self.alloc, &self.commands, &self.manager, self.second, row),
        }
    }

    /// What an open job command is told.
    fn told(&self, by: By) -> Result<Told, AllocError>
        requires ready { self.now.spent ≡ false }
        requires can { can_reply self.now by ≡ true }
        ensures { IfOk result (λ told. (inst : Instance) (log : Log) → AgreesJobs self.now inst log
            → MayTell inst log by told.reply told.number) }
    {
        match refusal_of(self.refused.as_slice(), by) {
            Some(fault) => Ok(Told {
                reply: reply_of(fault),
                number: None,
            }),
            None => self.told_open(by),
        }
    }

    /// Tells an open job command what became of it, and gives what it is told. After an error the
    /// service is spent.
    pub fn reply(&mut self, by: By) -> Result<Told, AllocError>
        requires ready { self.old.spent ≡ false }
        requires can { can_reply self.old by ≡ true }
        ensures ready { OnOk result (self.new.spent ≡ false) }
        ensures counts { OnOk result (KeepsCounts self.old self.new) }
        ensures spent { OnErr result (self.new.spent ≡ true) }
        ensures answers { IfOk result (λ told. (inst : Instance) (log : Log)
            → AgreesJobs self.old inst log
            → Answers self.new inst log by told.reply told.number) }
    {
        let told = match self.told(by) {
            Ok(told) => told,
            Err(error) => {
                self.spent = true;
                return Err(error);
            }
        };
        self.spent = true;
        // the book tells the jobs of the newest store
        self.manager.keeps();
        self.manager.book().keeps();
        what_waits_stays_due();
        what_is_made_is_due();
        self.commands.reply(by);
        forget(&mut self.refused, by);
        forget_feed(&mut self.feeds, by);
        self.found = look(
            self.alloc,
            &self.commands,
            &self.manager,
            self.second,
            self.birth,
            self.terms,
        )?;
        self.spent = false;
        Ok(told)
    }
}
