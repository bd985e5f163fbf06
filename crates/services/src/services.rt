//! The services.
ghost use Rattle.std.specs.Prelude.{◌≡◌, ◌≢◌, ◌⊎◌, ◌<◌, ◌≤◌, ◌+◌, ◌^◌, ◌++◌, ◌||◌, ◌∷◌, [], ℕ, true, false, None, Some, is_some, length, slice_get, slice_index_or, IsSome, IfOk, IfSome, OnErr, OnOk};
ghost use Rattle.job_service.specs.kvs_model.Store.{Name};
ghost use Rattle.job_service.specs.kvs_rules.Namespaces.{is_live, landed, primary};
ghost use Rattle.job_service.specs.kvs_rules.Quiet.{IsQuiet};
ghost use Rattle.job_service.specs.kvs_rules.Brokers.{heard};
ghost use Rattle.job_service.specs.instance_rules.Desks.{is_submission};
ghost use Rattle.job_service.specs.instance_rules.Family.{HasTarget, IsLeftAdvance, IsLeftResult, Living};
ghost use Rattle.job_service.specs.instance_rules.Legal.{IsLegalMoment, OfDesk};
ghost use Rattle.job_service.specs.instance_rules.Log.{Born, Gone, Instance, IsOpen, Issued, Log, Shutdown, Ticked, service_of};
ghost use Rattle.job_service.specs.job_clock.Standing.{IsLiving};
ghost use Rattle.job_service.specs.job_commands.Asks.{told};
ghost use Rattle.job_service.specs.Agrees.{HasRoom, IsNewCommand, MayIssue};
ghost use Rattle.job_service.specs.Children.{is_due, may_end};
ghost use Rattle.job_service.specs.Feeds.{can_feed};
ghost use Rattle.job_service.specs.Replies.{can_reply};
ghost use Rattle.job_service.specs.Still.{awaited};
ghost use Rattle.job_service.specs.Times.{Counts, HasTime, MayPassTo, targets_left};
ghost use Rattle.job_service.specs.job_rules.Fits.{IsGrant};
ghost use Rattle.job_service.specs.job_states.declared.job.State.{State};
ghost use Rattle.job_service.specs.kvs_txn.declared.txn.By.{By as Command};
ghost use Rattle.job_service.specs.manager_rules.Times.{IsIdle};
ghost use Rattle.job_service.specs.resource_set.Valid.{IsR};
ghost use Rattle.services.specs.Agrees.{AgreesServices, IsGiven};
ghost use Rattle.services.specs.Asks.{AgreesOnce, Answers, Feeds, IsServedAsk, Keeps, MayAsk, Tells};
ghost use Rattle.services.specs.Makes.{Makes};
ghost use Rattle.job_service.specs.kvs_keys.Walk.{nth};
ghost use Rattle.services.specs.Order.{possible, possible_losses};
ghost use Rattle.job_service.specs.kvs_core.Seen.{primary_heard};
ghost use Rattle.services.specs.Steps.{HaveRested, IsStill, can_step, can_take};

use job_service::job_commands::JobAsk;
use job_service::job_replies::Told;
use job_service::kvs_core::{Core, CoreFault, Held, KvsEvents, Setting};
use job_service::kvs_rules::{KvsAsk, KvsStep};
use job_service::kvs_txn::By;
use job_service::lists::Bytes;
use job_service::manager_rules::Terms;
use job_service::resource_set::Resources;
use job_service::{Fed, JobService};
use std::alloc::{AllocError, Global};
use std::marker::Model;

/// The services of an instance: its jobs with the core below them. Each call goes on from whatever
/// log they agree with.
#[derive(Drop)]
pub struct Services {
    spent: bool,
    size: u32,
    jobs: JobService,
}

impl Model for Services {
    ghost use Rattle.services.specs.Value.{ServicesValue};

    ghost Value = { ServicesValue };

    ghost use Rattle.services.specs.View.{value_of, IsFitInside};

    ghost view = { value_of };

    ghost invariant = { IsFitInside };
}

impl Services {
    /// The services of an instance of some brokers that is born at this second, before anything has
    /// happened. Its first store has the text of the grant.
    pub fn new(
        alloc: Global,
        setting: Setting,
        grant: &Resources,
        birth: u64,
        terms: Terms,
    ) -> Result<Services, CoreFault>
        requires size { (1 ≤ setting.size) × (setting.size ≤ 32) }
        requires fanout { (1 ≤ setting.fanout) × (setting.fanout ≤ 32) }
        requires grant { IsR grant.now }
        requires early { birth + 2000000000 < 2 ^ 64 }
        ensures ready { IfOk result (λ v. v.spent ≡ false) }
        ensures size { IfOk result (λ v. v.size ≡ setting.size) }
        ensures start { IfOk result (λ v. (v.jobs.submitted ≡ 0) × (v.jobs.span ≡ 0)) }
        ensures grant { IfOk result (λ v. IsGrant grant.now.nodes) }
        ensures agrees { IfOk result (λ v. (inst : Instance)
            → IsGiven inst setting.size setting.fanout setting.hash grant.now birth terms
            → AgreesServices v inst []) }
    {
        let jobs = JobService::new(alloc, setting, grant, birth, terms)?;
        Ok(Services {
            spent: false,
            size: setting.size,
            jobs,
        })
    }

    /// The jobs of the instance, which can go on where the services can.
    pub fn jobs(&self) -> &JobService
        requires { self.now.spent ≡ false }
        ensures value { result.now ≡ self.now.jobs }
        ensures ready { result.now.spent ≡ false }
    {
        &self.jobs
    }

    /// The key-value service, which can go on where the services can.
    pub fn core(&self) -> &Core
        requires { self.now.spent ≡ false }
        ensures value { result.now ≡ self.now.jobs.manager.core }
        ensures ready { result.now.spent ≡ false }
        ensures size { result.now.size ≡ self.now.size }
    {
        self.jobs.core()
    }

    /// A command asks the core, which has asked nothing before. After an error the services are
    /// spent.
    pub fn ask(
        &mut self,
        by: By,
        broker: u32,
        namespace: Bytes,
        floor: u64,
        ask: KvsAsk,
    ) -> Result<(), AllocError>
        requires ready { self.old.spent ≡ false }
        requires within { broker < self.old.size }
        requires known { IsServedAsk ask }
        requires may { MayAsk self.old by broker namespace ask }
        ensures ready { OnOk result (self.new.spent ≡ false) }
        ensures keeps { OnOk result (Keeps self.old self.new) }
        ensures spent { OnErr result (self.new.spent ≡ true) }
        ensures agrees { OnOk result
            (AgreesOnce self.old self.new by floor broker namespace ask) }
    {
        self.spent = true;
        self.jobs.ask(by, broker, namespace, floor, ask)?;
        self.spent = false;
        Ok(())
    }

    /// Whether a step can be made.
    pub fn can(&self, step: KvsStep) -> bool
        requires { self.now.spent ≡ false }
        ensures { result ≡ can_step self.now step }
    {
        self.core().can(step)
    }

    /// The first step that can be made: a delivery by sender and receiver, then a service by
    /// broker, then a landing.
    pub fn next(&self) -> Option<KvsStep>
        requires { self.now.spent ≡ false }
        ensures first { result ≡ slice_get (possible self.now) 0 }
        ensures some { IfSome result (λ step. can_step self.now step ≡ true) }
        ensures none { result ≡ None → (step : KvsStep) → can_step self.now step ≡ false }
    {
        self.core().next()
    }

    /// The step of this number, from 0, among those that can be made, in their order; or, where
    /// there are no more than so many, what the number has left behind them all.
    pub fn nth(&self, number: u64) -> Result<KvsStep, u64>
        requires { self.now.spent ≡ false }
        ensures value { result ≡ nth (possible self.now) number }
        ensures can { IfOk result (λ step. can_step self.now step ≡ true) }
    {
        self.core().nth(number)
    }

    /// The loss of this number, from 0, among those that can be made, in their order; or, where
    /// there are no more than so many, what the number has left behind them all.
    pub fn nth_loss(&self, number: u64) -> Result<KvsStep, u64>
        requires { self.now.spent ≡ false }
        ensures value { result ≡ nth (possible_losses self.now) number }
        ensures can { IfOk result (λ step. can_step self.now step ≡ true) }
    {
        self.core().nth_loss(number)
    }

    /// Makes a step, and tells what happened. After an error the services are spent.
    pub fn turn(&mut self, step: KvsStep) -> Result<KvsEvents, CoreFault>
        requires ready { self.old.spent ≡ false }
        requires can { can_step self.old step ≡ true }
        ensures makes { IfOk result (Makes step self.old self.new) }
        ensures spent { OnErr result (self.new.spent ≡ true) }
    {
        self.spent = true;
        let events = self.jobs.turn(step)?;
        self.spent = false;
        Ok(events)
    }

    /// Whether a command's answer waits to be taken.
    pub fn can_take(&self, by: By) -> bool
        requires { self.now.spent ≡ false }
        ensures { result ≡ can_take self.now by }
    {
        self.core().can_take(by)
    }

    /// Marks, besides those that are marked, the actors whose answer waits to be taken, each to its
    /// command of these. This passes over the open requests once, however many actors there are.
    pub fn mark_held(&self, commands: &[u32], marks: &mut [bool])
        requires ready { self.now.spent ≡ false }
        requires long { length commands.now ≡ length marks.old }
        ensures long { length marks.new ≡ length marks.old }
        ensures marked { (actor : ℕ) → actor < length marks.old
            → slice_index_or marks.new actor false
            ≡ (slice_index_or marks.old actor false || can_take self.now
            (record { actor = actor; command = slice_index_or commands.now actor 0 })) }
    {
        self.core().mark_held(commands, marks);
    }

    /// Takes the answer to a command, which its actor is then told. This takes no memory.
    pub fn take(&mut self, by: By) -> Held
        requires ready { self.old.spent ≡ false }
        requires can { can_take self.old by ≡ true }
        ensures ready { self.new.spent ≡ false }
        ensures keeps { Keeps self.old self.new }
        ensures tells { Tells self.old self.new by result.number result.answer }
    {
        self.jobs.take(by)
    }

    /// Issues a job command at its broker. After an error the services are spent.
    pub fn issue(&mut self, by: By, rank: u32, ask: JobAsk) -> Result<(), AllocError>
        requires ready { self.old.spent ≡ false }
        requires may { MayIssue self.old.jobs by rank ask }
        requires room { is_submission (Some (told ask)) ≡ true → HasRoom self.old.jobs }
        requires time { HasTime self.old.jobs ask }
        ensures ready { OnOk result (self.new.spent ≡ false) }
        ensures size { OnOk result (self.new.size ≡ self.old.size) }
        ensures counts { OnOk result (Counts ask self.old.jobs self.new.jobs) }
        ensures spent { OnErr result (self.new.spent ≡ true) }
        ensures agrees { OnOk result ((inst : Instance) (log : Log)
            → AgreesServices self.old inst log → IsNewCommand inst log by rank ask
            → AgreesServices self.new inst (log ++ Issued by ∷ [])) }
    {
        self.spent = true;
        self.jobs.issue(by, rank, ask)?;
        self.spent = false;
        Ok(())
    }

    /// Tells an open job command what became of it, and gives what it is told. After an error the
    /// services are spent.
    pub fn reply(&mut self, by: By) -> Result<Told, AllocError>
        requires ready { self.old.spent ≡ false }
        requires can { can_reply self.old.jobs by ≡ true }
        ensures ready { OnOk result (self.new.spent ≡ false) }
        ensures keeps { OnOk result (Keeps self.old self.new) }
        ensures spent { OnErr result (self.new.spent ≡ true) }
        ensures answers { IfOk result (λ told. (inst : Instance) (log : Log)
            → AgreesServices self.old inst log
            → Answers self.new inst log by told.reply told.number) }
    {
        self.spent = true;
        let told = self.jobs.reply(by)?;
        self.spent = false;
        Ok(told)
    }

    /// Feeds an open watch of a job the events that it lacks, at the root of `primary` that its
    /// broker has heard of. After an error the services are spent.
    pub fn feed(&mut self, by: By) -> Result<Fed, AllocError>
        requires ready { self.old.spent ≡ false }
        requires can { can_feed self.old.jobs by ≡ true }
        ensures ready { OnOk result (self.new.spent ≡ false) }
        ensures keeps { OnOk result (Keeps self.old self.new) }
        ensures spent { OnErr result (self.new.spent ≡ true) }
        ensures feeds { IfOk result (λ fed. (inst : Instance) (log : Log)
            → AgreesServices self.old inst log
            → Feeds self.new inst log by fed) }
    {
        self.spent = true;
        let fed = self.jobs.feed(by)?;
        self.spent = false;
        Ok(fed)
    }

    /// Posts what was found to be due, which then waits in the key-value service to land. After an
    /// error the services are spent.
    pub fn post(&mut self) -> Result<(), CoreFault>
        requires ready { self.old.spent ≡ false }
        requires can { is_some self.old.jobs.found ≡ true }
        ensures ready { OnOk result (self.new.spent ≡ false) }
        ensures keeps { OnOk result (Keeps self.old self.new) }
        ensures spent { OnErr result (self.new.spent ≡ true) }
        ensures posted { OnOk result (is_some self.new.jobs.manager.posted ≡ true) }
        ensures unfound { OnOk result (self.new.jobs.found ≡ None) }
        ensures agrees { OnOk result ((inst : Instance) (log : Log)
            → AgreesServices self.old inst log → AgreesServices self.new inst log) }
    {
        self.spent = true;
        self.jobs.post()?;
        self.spent = false;
        Ok(())
    }

    /// The child of a job is born, which is the first that is to be. After an error the services
    /// are spent.
    pub fn born(&mut self, job: u64) -> Result<(), AllocError>
        requires ready { self.old.spent ≡ false }
        requires due { self.old.jobs.bearing ≡ Some job }
        ensures ready { OnOk result (self.new.spent ≡ false) }
        ensures keeps { OnOk result (Keeps self.old self.new) }
        ensures spent { OnErr result (self.new.spent ≡ true) }
        ensures legal { OnOk result ((inst : Instance) (log : Log)
            → AgreesServices self.old inst log → IsLegalMoment inst log (Born job)) }
        ensures agrees { OnOk result ((inst : Instance) (log : Log)
            → AgreesServices self.old inst log
            → AgreesServices self.new inst (log ++ Born job ∷ [])) }
    {
        self.spent = true;
        self.jobs.born(job)?;
        self.spent = false;
        Ok(())
    }

    /// The child of a job goes, by its own shutdown or not. After an error the services are spent.
    pub fn gone(&mut self, job: u64, shut: bool) -> Result<(), AllocError>
        requires ready { self.old.spent ≡ false }
        requires may { may_end self.old.jobs job shut ≡ true }
        ensures ready { OnOk result (self.new.spent ≡ false) }
        ensures keeps { OnOk result (Keeps self.old self.new) }
        ensures spent { OnErr result (self.new.spent ≡ true) }
        ensures legal { OnOk result ((inst : Instance) (log : Log)
            → AgreesServices self.old inst log → IsLegalMoment inst log (Gone job shut)) }
        ensures agrees { OnOk result ((inst : Instance) (log : Log)
            → AgreesServices self.old inst log
            → AgreesServices self.new inst (log ++ Gone job shut ∷ [])) }
    {
        self.spent = true;
        self.jobs.gone(job, shut)?;
        self.spent = false;
        Ok(())
    }

    /// Lets time go on to this second, by an advance of whatever instance of the run. After an
    /// error the services are spent.
    pub fn tick(&mut self, second: u64) -> Result<(), AllocError>
        requires ready { self.old.spent ≡ false }
        requires may { MayPassTo self.old.jobs second }
        ensures ready { OnOk result (self.new.spent ≡ false) }
        ensures keeps { OnOk result (Keeps self.old self.new) }
        ensures spent { OnErr result (self.new.spent ≡ true) }
        ensures legal { OnOk result ((inst : Instance) (log : Log)
            → AgreesServices self.old inst log → IsLegalMoment inst log (Ticked second)) }
        ensures agrees { OnOk result ((inst : Instance) (log : Log)
            → AgreesServices self.old inst log
            → AgreesServices self.new inst (log ++ Ticked second ∷ [])) }
    {
        self.spent = true;
        self.jobs.tick(second)?;
        self.spent = false;
        Ok(())
    }

    /// Where the key-value service and the contents have come to rest, each broker has heard the
    /// last landing and of each live namespace. Where nothing but time can go on, nothing is due
    /// besides, and a command waits for a number that hasn't landed, for members of a fence that
    /// haven't come, for a second that hasn't, or for the end of a job that isn't over. Where no
    /// target is left besides, no advance is. Nothing is due where no step of the key-value service
    /// can be made, nothing is to be posted and no child is to be born.
    pub fn still(&self)
        requires { self.now.spent ≡ false }
        ensures quiet { (inst : Instance) (log : Log) → AgreesServices self.now inst log
            → HaveRested self.now → IsQuiet inst.service (service_of log) }
        ensures heard { (inst : Instance) (log : Log) → AgreesServices self.now inst log
            → HaveRested self.now → (broker : ℕ) (space : Name) → broker < inst.service.size
            → is_live (service_of log) space ≡ true → IsSome (heard (service_of log) broker space) }
        ensures last { (inst : Instance) (log : Log) → AgreesServices self.now inst log
            → HaveRested self.now → (broker : ℕ) → broker < inst.service.size
            → primary_heard self.now.jobs.manager.core broker ≡ landed (service_of log) primary }
        ensures idle { (inst : Instance) (log : Log) → AgreesServices self.now inst log
            → IsStill self.now → OfDesk inst log IsIdle }
        ensures advanced { (inst : Instance) (log : Log) (l : Living)
            → AgreesServices self.now inst log → IsStill self.now
            → targets_left self.now.jobs ≡ [] → IsLiving inst log l
            → (target : ℕ) → HasTarget l target → ⊥ }
        ensures free { ((step : KvsStep) → can_step self.now step ≡ false)
            → ((by : Command) → can_take self.now by ≡ false) → self.now.jobs.found ≡ None
            → self.now.jobs.bearing ≡ None → is_due self.now.jobs ≡ false }
        ensures left { (inst : Instance) (log : Log) (l : Living)
            → AgreesServices self.now inst log → IsStill self.now → IsLiving inst log l
            → (by : Command) → IsSome (inst.asks by) → inst.asks by ≢ Some Shutdown
            → IsOpen by log → IsSome (awaited self.now.jobs by) ⊎ IsLeftAdvance l by }
        ensures results { (inst : Instance) (log : Log) (l : Living)
            → AgreesServices self.now inst log → IsStill self.now → IsLiving inst log l
            → (by : Command) (where_ : State) → awaited self.now.jobs by ≡ Some where_
            → IsLeftResult l by where_ }
    {
        // where neither can go on, what each has left is known
        self.core().still();
        self.core().standing();
        self.jobs.still();
    }
}
