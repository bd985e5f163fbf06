//! The book of an instance's jobs.
ghost use Rattle.std.specs.Prelude.{◌≡◌, [], All, Contains, IfNone, IfOk, IfSome, OnErr, OnOk, option_map};
ghost use Rattle.std.specs.Option.{option_copied};
ghost use Rattle.std.specs.Fn.{FnReturnsAt};
ghost use Rattle.job_deeds.specs.job_spec.Sound.{IsSpec};
ghost use Rattle.job_deeds.specs.resource_set.Valid.{IsR};
ghost use Rattle.job_deeds.specs.tap.Priorities.{AnswersOnce};
ghost use Rattle.job_deeds.specs.manager_rules.Dependencies.{job_at};
ghost use Rattle.job_deeds.specs.manager_rules.Jobs.{ids_of};
ghost use Rattle.job_deeds.specs.manager_rules.Scene.{IsAsked};
ghost use Rattle.job_deeds.specs.manager_rules.Times.{IsLeast};
ghost use Rattle.job_deeds.specs.Choices.{IsDesk, IsLook};
ghost use Rattle.job_book.specs.Contract.{BeginsAsOne, Explains, Finds, FindsPassing, Gains, IsFirstBirth, IsKept, IsNewJob, IsSeenIn, KnowsNeeds, NoBirth, WasDue, after_event, plain, r_at, seconds_left};

use crate::active::{Active, enter, entry_of, first_bearing, follow, place_of_active};
use crate::seconds::next_of_rows;
use crate::waking::sleeps;
use job_deeds::event_log::Event;
use job_deeds::graph_match::Graph;
use job_deeds::job_queue::Queue;
use job_deeds::job_spec::JobSpec;
use job_deeds::job_states::{Job, ReplayFault, begin};
use job_deeds::job_texts::needs_of;
use job_deeds::lists::Copied;
use job_deeds::manager_rules::{Asked, Due, JobList, OpenList, Policy, Why};
use job_deeds::resource_set::Resources;
use job_deeds::tap::{Ask, Tap};
use job_deeds::{
    Desk, Row, change_at, choice, due, find, hold, is_over, next_of, passer, place_in, place_of,
    rank, reason,
};
use std::alloc::{AllocError, Global};
use std::marker::Model;

/// The jobs of an instance, and the grant that they share.
#[derive(Drop)]
pub struct Book {
    grant: Resources,
    policy: Policy,
    /// The grant's units, and what live jobs hold of them.
    graph: Graph,
    /// By rising ids.
    rows: Vec<Row>,
    /// Each job with the priority with which it waits for resources, which is 0 where it doesn't.
    queue: Queue,
    /// The jobs that aren't over, by rising ids.
    active: Vec<Active>,
}

impl Model for Book {
    ghost use Rattle.job_book.specs.Value.{BookValue};

    ghost Value = { BookValue };

    ghost use Rattle.job_book.specs.Active.{AreActive, AreEntriesOf};
    ghost use Rattle.job_book.specs.Kept.{IsBook};
    ghost use Rattle.job_deeds.specs.Waiting.{IsQueueOf};

    ghost view = { λ b. record { grant = b.grant; policy = b.policy; jobs = b.rows.items } };

    ghost invariant = { λ b.
        IsBook (record { grant = b.grant; policy = b.policy; jobs = b.rows.items }) b.graph
        × IsQueueOf b.rows.items b.queue.0 × AreActive b.rows.items b.active.items
        × AreEntriesOf b.rows.items b.active.items };
}

impl Book {
    /// A book of a grant, without jobs, by this policy.
    pub fn new(alloc: Global, grant: &Resources, policy: Policy) -> Result<Book, AllocError>
        requires grant { IsR grant.now }
        ensures { IfOk result (λ b. b ≡ record {
          grant = grant.now;
          policy = policy;
          jobs = [];
        }) }
    {
        let graph = Graph::new(alloc, grant)?;
        // live jobs hold units of the grant, no two of them one in common
        graph.keeps();
        Ok(Book {
            grant: grant.copy()?,
            policy,
            graph,
            rows: Vec::new(alloc),
            queue: Queue::new(alloc),
            active: Vec::new(alloc),
        })
    }

    /// Adds a job whose submission has landed (Flux RFC 21 and 26). After want of memory the book
    /// is as before.
    pub fn submitted(&mut self, id: u64, spec: JobSpec, event: &Event) -> Result<(), AllocError>
        requires new { Contains (ids_of self.old.jobs) id → ⊥ }
        requires spec { IsSpec spec }
        requires begins { BeginsAsOne event.now }
        requires known { KnowsNeeds self.old spec event.now }
        ensures added { OnOk result (Gains self.old id spec event.now self.new) }
        ensures kept { OnErr result (self.new ≡ self.old) }
    {
        let row = new_row(*self.rows.allocator(), id, spec, event)?;
        let entry = entry_of(&row);
        let at = place_of(&self.rows, id);
        self.rows.reserve(1)?;
        self.active.reserve(1)?;
        self.queue.put(id, 0)?;
        if self.rows.insert(at, row).is_err() {
            unreachable!();
        }
        enter(&mut self.active, entry);
        Ok(())
    }

    /// What the jobs are decided by at this second where nobody passes the first in the queue.
    fn plain_desk<'a>(&'a self, now: u64, asked: &'a [Asked]) -> Desk<'a>
        ensures rows { result.rows.now ≡ self.now.jobs }
        ensures asked { result.asked.now ≡ asked.now }
        ensures desk { IsDesk result }
        ensures look { IsLook result self.now.grant }
        ensures seen { IsSeenIn (plain self.now) now asked.now result }
    {
        Desk {
            second: now,
            graph: &self.graph,
            policy: Policy::FirstFit,
            rows: &self.rows,
            head: self.queue.head(),
            passer: None,
            asked,
        }
    }

    /// The same with the one that passes.
    fn desk<'a>(&'a self, now: u64, asked: &'a [Asked]) -> Result<Desk<'a>, AllocError>
        ensures rows { IfOk result (λ desk. desk.rows.now ≡ self.now.jobs) }
        ensures asked { IfOk result (λ desk. desk.asked.now ≡ asked.now) }
        ensures desk { IfOk result IsDesk }
        ensures seen { IfOk result (IsSeenIn self.now now asked.now) }
    {
        let desk = Desk {
            policy: self.policy,
            ..self.plain_desk(now, asked)
        };
        let passer = passer(*self.rows.allocator(), &desk, &self.grant)?;
        Ok(Desk { passer, ..desk })
    }

    /// The taking of resources that is due for a job that passes the first in the queue, if one
    /// does.
    fn passing<F: Fn(&Ask) -> u32>(
        &self,
        now: u64,
        asked: &OpenList,
        tap: &Tap<F>,
    ) -> Result<Option<Due>, AllocError>
        requires callable { F.IsAlwaysCallable tap.now }
        requires once { AnswersOnce (λ ask n. FnReturnsAt F.Fn tap.now ask n) }
        requires asked { All IsAsked asked.now }
        ensures { IfOk result (FindsPassing self.now now asked.now (FnReturnsAt F.Fn tap.now)) }
    {
        let alloc = *self.rows.allocator();
        let desk = self.desk(now, asked.as_slice())?;
        let Some(id) = desk.passer else {
            return Ok(None);
        };
        let at = place_in(desk.rows, id);
        let row = &desk.rows[at];
        match choice(alloc, &desk, row, tap)? {
            Some(action) => Ok(Some(due(alloc, now, row, &action)?)),
            None => Ok(None),
        }
    }

    /// An event that is due at this second (Flux RFC 21, 26 and 27), if there is one: of the job
    /// with the least id that has one, a command's before the manager's own. Who passes the first
    /// in the queue is asked for where nothing else is due, since that looks at all that wait.
    pub fn due<F: Fn(&Ask) -> u32>(
        &self,
        now: u64,
        asked: &OpenList,
        tap: &Tap<F>,
    ) -> Result<Option<Due>, AllocError>
        requires callable { F.IsAlwaysCallable tap.now }
        requires once { AnswersOnce (λ ask n. FnReturnsAt F.Fn tap.now ask n) }
        requires asked { All IsAsked asked.now }
        ensures { IfOk result (Finds self.now now asked.now (FnReturnsAt F.Fn tap.now)) }
    {
        let alloc = *self.rows.allocator();
        let desk = self.plain_desk(now, asked.as_slice());
        let mut near = 0;
        for index in 0..self.active.len() {
            if sleeps(self.active[index], now, desk.asked) {
                continue;
            }
            let at = place_of_active(desk.rows, &self.active, index, near);
            let row = &desk.rows[at];
            if let Some(action) = choice(alloc, &desk, row, tap)? {
                return Ok(Some(due(alloc, now, row, &action)?));
            }
            near = at + 1;
        }
        let found = self.passing(now, asked, tap)?;
        Ok(found)
    }

    /// Does an event that was due and has landed (Flux RFC 21). After want of memory the book is as
    /// before.
    pub fn landed(&mut self, due: &Due) -> Result<(), AllocError>
        requires { WasDue self.old due.now }
        ensures done { OnOk result (self.new ≡ after_event due.now self.old) }
        ensures kept { OnErr result (self.new ≡ self.old) }
    {
        let at = place_in(&self.rows, due.job);
        let next = next_of(*self.rows.allocator(), &self.rows[at], due)?;
        hold(&mut self.graph, due.job, &next.held)?;
        self.queue.set_priority(due.job, rank(&next.job));
        let over = is_over(&next.job);
        change_at(&mut self.rows, at, next);
        let entry = entry_of(&self.rows[at]);
        follow(&mut self.active, entry, over);
        Ok(())
    }

    /// Why a job doesn't run at this second: no such job, its state, that it is held, the job
    /// before it, those whose resources are in its way, or that its resources are due.
    pub fn why(&self, job: u64, now: u64) -> Result<Why, AllocError>
        ensures { IfOk result (Explains self.now now job) }
    {
        let desk = self.desk(now, &[])?;
        // live jobs hold units of the grant, no two of them one in common
        desk.graph.keeps();
        match find(desk.rows, job) {
            Some(row) => reason(*self.rows.allocator(), &desk, row),
            None => Ok(Why::NoJob),
        }
    }

    /// The first job whose child is to be born: it has started with a command that begins an
    /// instance, and has had none.
    pub fn birth(&self, asked: &OpenList) -> Option<u64>
        ensures some { IfSome result (IsFirstBirth self.now asked.now) }
        ensures none { IfNone result (NoBirth self.now asked.now) }
    {
        first_bearing(&self.active, asked.as_slice())
    }

    /// The next second, behind this one, at which a running job's command ends or its resources do.
    pub fn next_second(&self, now: u64) -> Option<u64>
        ensures some { IfSome result (IsLeast (seconds_left now self.now)) }
        ensures none { IfNone result (seconds_left now self.now ≡ []) }
    {
        next_of_rows(&self.rows, &self.active, now)
    }

    /// What the log of a job says of it.
    pub fn job(&self, id: u64) -> Option<&Job>
        ensures { option_copied result ≡ option_map (λ j. j.job) (job_at self.now.jobs id) }
    {
        Some(&find(&self.rows, id)?.job)
    }

    /// The ids of the jobs, rising.
    pub fn ids(&self) -> Result<JobList, AllocError>
        ensures { IfOk result (λ ids. ids ≡ ids_of self.now.jobs) }
    {
        ids(*self.rows.allocator(), &self.rows)
    }

    /// The resources of a job, while it is live.
    pub fn r(&self, id: u64) -> Option<&Resources>
        ensures found { option_copied result ≡ r_at self.now.jobs id }
        ensures valid { IfSome result (λ r. IsR r.now) }
    {
        find(&self.rows, id)?.r.as_ref()
    }

    /// What every book keeps.
    pub fn keeps(&self)
        ensures { IsKept self.now }
    {
        let _ = &self.rows;
    }
}

/// A job that is just submitted.
fn new_row(alloc: Global, id: u64, spec: JobSpec, event: &Event) -> Result<Row, AllocError>
    requires { BeginsAsOne event.now }
    ensures { IfOk result (IsNewJob id spec event.now) }
{
    let needs = needs_of(alloc, &spec, event)?;
    match begin(alloc, event) {
        Ok(job) => Ok(Row {
            id,
            needs,
            spec,
            job,
            start: None,
            r: None,
        }),
        Err(ReplayFault::NoMemory) => Err(AllocError),
        Err(ReplayFault::NotAllowed { .. }) => unreachable!(),
    }
}

/// The ids of jobs.
fn ids(alloc: Global, rows: &[Row]) -> Result<JobList, AllocError>
    ensures { IfOk result (λ ids. ids ≡ ids_of rows.now) }
{
    let mut ids = JobList::new(alloc);
    for row in rows {
        ids.push(row.id)?;
    }
    Ok(ids)
}
