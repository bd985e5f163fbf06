//! An instance among others: the children of its jobs, and time that goes on for all of them.
ghost use Rattle.std.specs.Prelude.{◌≡◌, ◌↔◌, ◌<◌, ◌≤◌, ◌+◌, ℕ, false, true, All, Contains, IfNone, IfOk, IfSome, IsSome, IsTrue, List, OnErr, OnOk, Some};
ghost use Rattle.services.specs.answers.declared.chronicle.Entry.{Entry as EntryValue};
ghost use Rattle.services.specs.answers.Chronicle.{Setup};
ghost use Rattle.services.specs.answers.Jobs.{instance_of, log_in, second_of};
ghost use Rattle.services.specs.instance_rules.Desks.{Names};
ghost use Rattle.services.specs.instance_rules.Family.{HasTarget, Living, OfLiving};
ghost use Rattle.services.specs.job_book.Seconds.{IsSoonest};
ghost use Rattle.services.specs.job_service.Children.{IsFirstBirth, IsGrantedBy, NoBirth};
ghost use Rattle.services.specs.manager_rules.Times.{IsEndDue, IsIdle, seconds_ahead};
ghost use Rattle.services.specs.resource_set.Valid.{IsR};
ghost use Rattle.services.specs.run_limits.Limits.{most_seconds};
ghost use Rattle.instance.specs.Agrees.{AgreesOwn};
ghost use Rattle.instance.specs.Family.{LivesAs, OfOwn, bearing, birth_of, ends_left, grant_at, is_due, is_end_due, may_end, present, targets_left};
ghost use Rattle.instance.specs.Makes.{Bears, LetsGo, PassesTo};

use super::Instance;
use services::resource_set::Resources;
use std::alloc::AllocError;

impl Instance {
    /// The first job whose child is to be born: it has started with a command that begins an
    /// instance (Flux RFC 14), and has had none. This takes no memory.
    pub fn birth(&self) -> Option<u64>
        requires { self.now.spent ≡ false }
        ensures kept { result ≡ bearing self.now }
        ensures some { IfSome result (λ job. (set : Setup) (own : List EntryValue)
            → AgreesOwn self.now set own → OfOwn set own (λ desk. IsFirstBirth desk.scene job)) }
        ensures none { IfNone result ((set : Setup) (own : List EntryValue)
            → AgreesOwn self.now set own → OfOwn set own (λ desk. NoBirth desk.scene)) }
    {
        self.services.jobs().birth()
    }

    /// The child of a job is born, which is the first that is to be. After an error the instance is
    /// spent.
    pub fn born(&mut self, job: u64) -> Result<(), AllocError>
        requires ready { self.old.spent ≡ false }
        requires due { bearing self.old ≡ Some job }
        ensures ready { OnOk result (self.new.spent ≡ false) }
        ensures makes { OnOk result (Bears self.old job self.new) }
        ensures spent { OnErr result (self.new.spent ≡ true) }
    {
        self.spent = true;
        self.services.born(job)?;
        self.spent = false;
        Ok(())
    }

    /// Whether the child of a job may go, which shuts down or doesn't: it lives, it shuts down or
    /// its job is ending, and no event of the job waits to land. This takes no memory.
    pub fn may_end(&self, job: u64, shut: bool) -> bool
        requires { self.now.spent ≡ false }
        ensures exact { result ≡ may_end self.now job shut }
        ensures due { (set : Setup) (own : List EntryValue) → AgreesOwn self.now set own
            → IsTrue (is_end_due self.now job shut)
            ↔ OfOwn set own (λ desk. IsEndDue desk.scene (IsTrue shut) job) }
    {
        self.services.jobs().may_end(job, shut)
    }

    /// The child of a job goes, by its own shutdown or not. After an error the instance is spent.
    pub fn gone(&mut self, job: u64, shut: bool) -> Result<(), AllocError>
        requires ready { self.old.spent ≡ false }
        requires may { may_end self.old job shut ≡ true }
        ensures ready { OnOk result (self.new.spent ≡ false) }
        ensures makes { OnOk result (LetsGo self.old job shut self.new) }
        ensures spent { OnErr result (self.new.spent ≡ true) }
    {
        self.spent = true;
        self.services.gone(job, shut)?;
        self.spent = false;
        Ok(())
    }

    /// The grant of the child of a live job: the job's resources at ranks from 0 on (Flux RFC 20),
    /// or none where the job holds none.
    pub fn grant_of(&self, job: u64) -> Result<Option<Resources>, AllocError>
        requires { self.now.spent ≡ false }
        ensures grant { IfOk result (λ grant. grant ≡ grant_at self.now job) }
        ensures valid { IfOk result (λ grant. IfSome grant IsR) }
        ensures held { IfOk result (λ grant. IfSome grant (λ r. (set : Setup)
            (own : List EntryValue) → AgreesOwn self.now set own
            → IsGrantedBy (instance_of set) (log_in set.work own) job r)) }
        ensures bears { IfOk result (λ grant. bearing self.now ≡ Some job → IsSome grant) }
    {
        self.services.jobs().grant_of(job)
    }

    /// The job that a label names.
    pub fn job_of(&self, label: &[u8]) -> Option<u64>
        requires { self.now.spent ≡ false }
        ensures { (set : Setup) (own : List EntryValue) → AgreesOwn self.now set own → (id : ℕ)
            → (result ≡ Some id) ↔ Names (instance_of set) (log_in set.work own) label.now id }
    {
        self.services.jobs().job_of(label)
    }

    /// A label that names a job, which stands for each job whose child is to be born.
    pub fn label_of(&self, job: u64) -> Option<&[u8]>
        requires { self.now.spent ≡ false }
        ensures bears { bearing self.now ≡ Some job → IsSome result }
        ensures names { IfSome result (λ label. (set : Setup) (own : List EntryValue)
            → AgreesOwn self.now set own
            → Names (instance_of set) (log_in set.work own) label.now job) }
    {
        self.services.jobs().label_of(job)
    }

    /// Whether something is posted or due: a post, or a birth. This takes no memory.
    pub fn is_due(&self) -> bool
        requires { self.now.spent ≡ false }
        ensures exact { result ≡ is_due self.now }
        ensures idle { (set : Setup) (own : List EntryValue) → AgreesOwn self.now set own
            → result ≡ false → OfOwn set own IsIdle }
    {
        self.services.jobs().is_due()
    }

    /// The present second, that of the run.
    pub fn second(&self) -> u64
        requires { self.now.spent ≡ false }
        ensures value { result ≡ present self.now }
        ensures agrees { (set : Setup) (own : List EntryValue) → AgreesOwn self.now set own
            → (present self.now ≡ second_of set own) × (birth_of self.now ≡ set.birth) }
    {
        self.services.jobs().second()
    }

    /// The least second ahead that an open advance waits for. This takes no memory.
    pub fn next_target(&self) -> Option<u64>
        requires { self.now.spent ≡ false }
        ensures soonest { IsSoonest (targets_left self.now) result }
        ensures targets { (set : Setup) (own : List EntryValue) (l : Living) (target : ℕ)
            → AgreesOwn self.now set own → LivesAs set own l
            → (HasTarget l target × (present self.now < target))
            ↔ Contains (targets_left self.now) target }
    {
        self.services.jobs().next_target()
    }

    /// The next second, behind the present one, at which a running job's command ends or its
    /// resources do. This takes no memory.
    pub fn next_end(&self) -> Option<u64>
        requires { self.now.spent ≡ false }
        ensures soonest { IsSoonest (ends_left self.now) result }
        ensures ends { (set : Setup) (own : List EntryValue) (l : Living) (second : ℕ)
            → AgreesOwn self.now set own → LivesAs set own l
            → OfLiving l (λ desk. Contains (seconds_ahead desk.scene) second)
            ↔ Contains (ends_left self.now) second }
    {
        self.services.jobs().next_end()
    }

    /// Lets time go on to this second, by an advance of whatever instance of the run: nothing is
    /// posted or due, no command and no resources end before, and it is no more than 1,000,000,000
    /// seconds behind the birth. After an error the instance is spent.
    pub fn tick_to(&mut self, second: u64) -> Result<(), AllocError>
        requires ready { self.old.spent ≡ false }
        requires idle { is_due self.old ≡ false }
        requires above { present self.old < second }
        requires before { All (λ other. second ≤ other) (ends_left self.old) }
        requires near { second ≤ birth_of self.old + most_seconds }
        ensures ready { OnOk result (self.new.spent ≡ false) }
        ensures makes { OnOk result (PassesTo self.old second self.new) }
        ensures spent { OnErr result (self.new.spent ≡ true) }
    {
        self.spent = true;
        self.services.tick(second)?;
        self.spent = false;
        Ok(())
    }
}
