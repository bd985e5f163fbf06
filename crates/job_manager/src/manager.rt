//! A job manager over the key-value service of its instance.
ghost use Rattle.std.specs.Prelude.{◌≡◌, ◌<◌, ◌≤◌, ◌++◌, ℕ, All, None, Some, [], ◌∷◌, false, true, is_some, length, IfOk, OnErr, OnOk};
ghost use Rattle.std.specs.List.{list_any};
ghost use Rattle.std.specs.Option.{option_copied};
ghost use Rattle.kvs_core.specs.Agrees.{Agrees};
ghost use Rattle.kvs_core.specs.Makes.{Makes};
ghost use Rattle.kvs_keys.specs.Posted.{groups_in};
ghost use Rattle.kvs_core.specs.Requests.{AsksAtRest, IsServedAsk};
ghost use Rattle.kvs_core.specs.Steps.{can_step, can_take};
ghost use Rattle.kvs_rules.specs.Answers.{IsLegalAnswer};
ghost use Rattle.kvs_rules.specs.Log.{Asked as AskedAt, Happened, Log, is_asked};
ghost use Rattle.kvs_model.specs.Store.{Name};
ghost use Rattle.kvs_rules.specs.Namespaces.{Setting as Service, fresh};
ghost use Rattle.kvs_rules.specs.OneStore.{AsksOwn};
ghost use Rattle.kvs_rules.specs.declared.events.KvsEvent.TheVariants as event;
ghost use Rattle.resource_set.specs.Valid.{IsR};
ghost use Rattle.resource_set.specs.Writing.{r_text};
ghost use Rattle.store_laws.specs.Posts.{is_manager};
ghost use Rattle.manager_rules.specs.Posts.{Does, Submits};
ghost use Rattle.job_manager.specs.Follows.{Follows, Keeps, Places, after_post};
ghost use Rattle.job_manager.specs.Managed.{IsManaged, WasDuePost};
ghost use Rattle.job_manager.specs.Places.{log_seen};
ghost use Rattle.job_manager.specs.Posts.{is_posted_for, post_of, told};

use crate::places::LogPlaces;
use crate::post::{Post, Submission};
use crate::txns::{command_of, txn_of};
use job_book::Book;
use job_spec::accepted_texts_tell_jobspecs;
use kvs_core::{Core, CoreFault, Held, Request, Setting};
use kvs_model::stores_stay_stores;
use kvs_rules::{KvsAsk, KvsEvent, KvsStep};
use kvs_space::KvsEvents;
use kvs_txn::{Author, By, Group};
use lists::Bytes;
use manager_rules::{Due, Policy, due_posts_take_effect, due_submissions_tell_themselves};
use resource_set::Resources;
use std::alloc::{AllocError, Global};
use std::marker::Model;

/// The service of an instance, and the book of the jobs that stand in its newest store.
#[derive(Drop)]
pub struct Manager {
    alloc: Global,
    spent: bool,
    core: Core,
    book: Book,
    /// What waits in the service to land.
    posted: Option<Post>,
    places: LogPlaces,
}

impl Model for Manager {
    ghost use Rattle.job_manager.specs.Value.{ManagerValue};

    ghost Value = { ManagerValue };

    ghost use Rattle.job_manager.specs.View.{value_of, IsFitInside};

    ghost view = { value_of };

    ghost invariant = { IsFitInside };
}

/// Whether the job manager wrote the transaction.
fn is_managers(group: &Group) -> bool
    ensures { result ≡ is_manager group.now.txn.author }
{
    group.txn.author == Author::Manager
}

/// Whether a transaction of the job manager landed.
fn lands_post(event: &KvsEvent) -> bool
    ensures { result ≡ list_any (λ group. is_manager group.txn.author) (groups_in event.now) }
{
    match event {
        KvsEvent::Landed { groups, .. } => groups.as_slice().iter().any(is_managers),
        _ => false,
    }
}

/// Whether a transaction of the job manager is among those that landed.
fn has_post(events: &KvsEvents) -> bool
    ensures { result ≡ list_any
        (λ e. list_any (λ group. is_manager group.txn.author) (groups_in e)) events.now }
{
    events.as_slice().iter().any(lands_post)
}

/// The book follows a post that has landed.
fn follow(book: &mut Book, post: Post) -> Result<(), AllocError>
    requires { WasDuePost book.old (post_of post) }
    ensures { OnOk result (book.new ≡ after_post (post_of post) book.old) }
{
    due_submissions_tell_themselves();
    accepted_texts_tell_jobspecs();
    // ids rise, and live jobs hold units of the grant
    book.keeps();
    match post {
        Post::Submits(
            Submission {
                id,
                spec,
                event,
                ..
            },
        ) => book.submitted(id, spec, &event),
        Post::Does(due) => book.landed(&due),
    }
}

impl Manager {
    /// A manager of a grant by this policy, before anything has happened. The first store has the
    /// grant's text.
    pub fn new(
        alloc: Global,
        setting: Setting,
        grant: &Resources,
        policy: Policy,
    ) -> Result<Manager, CoreFault>
        requires size { (1 ≤ setting.size) × (setting.size ≤ 32) }
        requires fanout { (1 ≤ setting.fanout) × (setting.fanout ≤ 32) }
        requires grant { IsR grant.now }
        ensures ready { IfOk result (λ v. v.spent ≡ false) }
        ensures size { IfOk result (λ v. v.core.size ≡ setting.size) }
        ensures posted { IfOk result (λ v. v.posted ≡ None) }
        ensures book { IfOk result (λ v. v.book ≡ record {
          grant = grant.now;
          policy = policy;
          jobs = [];
        }) }
        ensures agrees { IfOk result (λ v. (set : Service) → set.size ≡ setting.size
            → set.fanout ≡ setting.fanout → set.hash ≡ setting.hash
            → set.base ≡ fresh (r_text grant.now) → AsksOwn set → Agrees v.core set []) }
    {
        stores_stay_stores();
        let text = Bytes::from_vec(resource_set::print(alloc, grant)?);
        let core = Core::new(alloc, setting, &text)?;
        let book = Book::new(alloc, grant, policy)?;
        // ids rise, and live jobs hold units of the grant
        book.keeps();
        Ok(Manager {
            alloc,
            spent: false,
            core,
            book,
            posted: None,
            places: LogPlaces::new(alloc),
        })
    }

    /// A command asks the service, which has asked nothing before. After an error the manager is
    /// spent.
    pub fn ask(
        &mut self,
        by: By,
        broker: u32,
        namespace: Bytes,
        floor: u64,
        ask: KvsAsk,
    ) -> Result<(), AllocError>
        requires ready { self.old.spent ≡ false }
        requires within { broker < self.old.core.size }
        requires known { IsServedAsk ask }
        ensures ready { OnOk result (self.new.spent ≡ false) }
        ensures keeps { OnOk result (Keeps self.old self.new) }
        ensures spent { OnErr result (self.new.spent ≡ true) }
        ensures agrees { OnOk result ((set : Service) (log : Log) → Agrees self.old.core set log
            → set.asks by ≡ Some (record { broker = broker; namespace = namespace; ask = ask })
            → (floors : Name → ℕ) → floors namespace ≡ floor
            → is_asked by log ≡ false → AsksAtRest set self.old.core
            → Agrees self.new.core set (log ++ AskedAt by floors ∷ [])) }
    {
        self.spent = true;
        // the core's newest store is the one that its log leaves
        self.core.standing();
        self.core.request(
            broker,
            Request::Command {
                by,
                namespace,
                floor,
                ask,
            },
        )?;
        self.core.standing();
        self.spent = false;
        Ok(())
    }

    /// Takes the service's answer to a command, which its actor is then told. This takes no memory.
    pub fn take(&mut self, by: By) -> Held
        requires ready { self.old.spent ≡ false }
        requires can { can_take self.old.core by ≡ true }
        ensures ready { self.new.spent ≡ false }
        ensures keeps { Keeps self.old self.new }
        ensures legal { (set : Service) (log : Log) → Agrees self.old.core set log
            → IsLegalAnswer set log by result.number result.answer }
        ensures agrees { (set : Service) (log : Log) → Agrees self.old.core set log
            → Agrees self.new.core set (log ++ Happened
            (event.Answered by result.number result.answer) ∷ []) }
    {
        // the core's newest store is the one that its log leaves
        self.core.standing();
        let held = self.core.take(by);
        self.core.standing();
        held
    }

    /// Lets a post wait to land, which is due.
    fn place(&mut self, post: Post) -> Result<(), CoreFault>
        requires ready { self.old.spent ≡ false }
        requires free { self.old.posted ≡ None }
        requires few { length self.old.book.jobs < 2000 }
        requires due { WasDuePost self.old.book (post_of post) }
        ensures ready { OnOk result (self.new.spent ≡ false) }
        ensures places { OnOk result (Places (post_of post) self.old self.new) }
        ensures spent { OnErr result (self.new.spent ≡ true) }
    {
        self.spent = true;
        due_posts_take_effect();
        // the core's newest store is the one that its log leaves
        self.core.standing();
        let txn = txn_of(self.alloc, &post)?;
        self.core.post(command_of(&post), txn)?;
        self.core.standing();
        self.posted = Some(post);
        self.spent = false;
        Ok(())
    }

    /// Posts a submission, which is due. After an error the manager is spent.
    pub fn submit(&mut self, x: Submission) -> Result<(), CoreFault>
        requires ready { self.old.spent ≡ false }
        requires free { self.old.posted ≡ None }
        requires few { length self.old.book.jobs < 2000 }
        requires due { WasDuePost self.old.book (Submits (told x)) }
        ensures ready { OnOk result (self.new.spent ≡ false) }
        ensures places { OnOk result (Places (Submits (told x)) self.old self.new) }
        ensures spent { OnErr result (self.new.spent ≡ true) }
    {
        self.place(Post::Submits(x))
    }

    /// Posts an event, which is due. After an error the manager is spent.
    pub fn post_due(&mut self, due: Due) -> Result<(), CoreFault>
        requires ready { self.old.spent ≡ false }
        requires free { self.old.posted ≡ None }
        requires few { length self.old.book.jobs < 2000 }
        requires due { WasDuePost self.old.book (Does due) }
        ensures ready { OnOk result (self.new.spent ≡ false) }
        ensures places { OnOk result (Places (Does due) self.old self.new) }
        ensures spent { OnErr result (self.new.spent ≡ true) }
    {
        self.place(Post::Does(due))
    }

    /// Makes a step of the service, and tells what happened. The book follows a post that lands.
    /// After an error the manager is spent.
    pub fn turn(&mut self, step: KvsStep) -> Result<KvsEvents, CoreFault>
        requires ready { self.old.spent ≡ false }
        requires can { can_step self.old.core step ≡ true }
        ensures ready { OnOk result (self.new.spent ≡ false) }
        ensures makes { IfOk result (Makes step self.old.core self.new.core) }
        ensures follows { IfOk result (Follows self.old self.new) }
        ensures spent { OnErr result (self.new.spent ≡ true) }
    {
        self.spent = true;
        // the book tells the jobs of the newest store, which the log of the core leaves
        self.book.keeps();
        self.core.standing();
        let events = self.core.turn(step)?;
        // the core's newest store is the one that its log leaves
        self.core.standing();
        if has_post(&events) {
            match self.posted.take() {
                Some(post) => {
                    self.places.follow(&post)?;
                    follow(&mut self.book, post)?;
                }
                None => unreachable!(),
            }
            // ids rise, and live jobs hold units of the grant
            self.book.keeps();
        }
        self.spent = false;
        Ok(events)
    }

    /// The key-value service.
    pub fn core(&self) -> &Core
        ensures { result.now ≡ self.now.core }
    {
        &self.core
    }

    /// The book of the jobs.
    pub fn book(&self) -> &Book
        ensures { result.now ≡ self.now.book }
    {
        &self.book
    }

    /// The log of a job, in the store of `primary` that a broker has, if it is there. This takes no
    /// memory.
    pub fn log_at(&self, broker: u32, id: u64) -> Option<&Bytes>
        requires ready { self.now.spent ≡ false }
        requires within { broker < self.now.core.size }
        ensures { option_copied result ≡ log_seen self.now.core broker id }
    {
        // each root is sound, and since then logs have only grown
        self.keeps();
        match self.places.get(id) {
            Some(path) => self.core.kept(broker, path),
            None => None,
        }
    }

    /// Whether something waits to land that was posted.
    pub fn is_waiting(&self) -> bool
        ensures { result ≡ is_some self.now.posted }
    {
        self.posted.is_some()
    }

    /// Whether an event of this job waits to land.
    pub fn is_posted_for(&self, job: u64) -> bool
        ensures { result ≡ is_posted_for job self.now.posted }
    {
        match &self.posted {
            Some(Post::Does(due)) => due.job == job,
            Some(Post::Submits(_)) | None => false,
        }
    }

    /// What every manager keeps: its book tells the jobs of the newest store, which is sound.
    pub fn keeps(&self)
        requires { self.now.spent ≡ false }
        ensures { IsManaged self.now }
    {
        let _ = &self.spent;
    }
}
