//! An instance.
ghost use Rattle.std.specs.Prelude.{◌≡◌, ◌<◌, ◌≤◌, ◌+◌, ◌^◌, [], ◌∷◌, ℕ, true, false, All, List, None, map, max, unwrap_or, slice_get, slice_index_or, IfOk, IfSome, OnErr, OnOk};
ghost use Rattle.services.specs.workload.Laws.{HasOwnLabels, IsBuilt, IsWithin, KeepsTallies};
ghost use Rattle.services.specs.answers.declared.chronicle.Entry.{Entry as EntryValue};
ghost use Rattle.services.specs.answers.Chronicle.{Setup, top};
ghost use Rattle.services.specs.answers.Entering.{entered};
ghost use Rattle.services.specs.answers.Legal.{HasSettled};
ghost use Rattle.services.specs.answers.Services.{log_of};
ghost use Rattle.services.specs.job_service.Still.{awaited};
ghost use Rattle.services.specs.kvs_model.Store.{Name};
ghost use Rattle.services.specs.resource_set.Valid.{IsR};
ghost use Rattle.services.specs.resource_set.Writing.{r_text};
ghost use Rattle.services.specs.Asks.{Keeps};
ghost use Rattle.services.specs.Order.{possible};
ghost use Rattle.services.specs.Steps.{can_step};
ghost use Rattle.instance.specs.declared.seats.Seat.{Seat as SeatValue};
ghost use Rattle.instance.specs.Agrees.{AgreesOwn, AreLinesOf};
ghost use Rattle.instance.specs.Closings.{closings, numbers_in};
ghost use Rattle.instance.specs.Family.{bearing, is_due};
ghost use Rattle.instance.specs.First.{AreFirstSeats};
ghost use Rattle.instance.specs.Floors.{floor_in, risen_in, seen_in};
ghost use Rattle.std.specs.Option.{option_copied};
ghost use Rattle.services.specs.answers.Chronicle.{uses_of};
ghost use Rattle.services.specs.answers.Floors.{number_in};
ghost use Rattle.instance.specs.Makes.{Ends, Makes, MakesOf, MayIssueOf};
ghost use Rattle.instance.specs.Order.{answers, issues};
ghost use Rattle.instance.specs.Replies.{IsGiven};
ghost use Rattle.instance.specs.Seats.{has_come, is_telling};
ghost use Rattle.instance.specs.Steps.{IsAtRest, IsOver, can_answer, can_issue, can_post};

mod family;
mod feeding;
mod looking;
mod walk;

use crate::floors::Floors;
use crate::jobs::{order, order_of};
use crate::seats::{
    Seat, Waiting, ask, begin, first_answer, has_answer, has_issue, issue_from, next_line, raise,
};
use crate::unfinished::close_off;
use services::Services;
use services::answers::{Chronicle, Entry, Reply, Step};
use services::kvs_core::{Core, CoreFault, KvsEvents, Setting};
use services::kvs_rules::KvsStep;
use services::kvs_txn::{Author, By, NumberList, Numbered, Txn};
use services::laws::shutdowns_leave_services;
use services::lists::{Bytes, ListOf};
use services::manager_rules::Terms;
use services::resource_set::Resources;
use services::workload::{Line, Workload};
use std::alloc::{AllocError, Global};
use std::marker::Model;

/// Actors, whose commands the services of one instance carry out. Which lines of a workload are
/// theirs and what has happened is its caller's to keep: the clauses speak of every chronicle of
/// the instance's own that agrees with it.
#[derive(Drop)]
pub struct Instance {
    alloc: Global,
    spent: bool,
    seats: Vec<Seat>,
    services: Services,
}

impl Model for Instance {
    ghost use Rattle.instance.specs.Value.{InstanceValue};

    ghost Value = { InstanceValue };

    ghost use Rattle.instance.specs.View.{value_of, IsFitInside};

    ghost view = { value_of };

    ghost invariant = { IsFitInside };
}

/// A list of one entry.
fn only(alloc: Global, entry: Entry) -> Result<Chronicle, AllocError>
    ensures { IfOk result (λ made. made ≡ entry ∷ []) }
{
    let mut made = ListOf::new(alloc);
    made.push(entry)?;
    Ok(made)
}

/// What happened in the service, as entries.
fn enter(alloc: Global, events: KvsEvents) -> Result<Chronicle, AllocError>
    ensures { IfOk result (λ made. made ≡ map (entered 0) events) }
{
    let mut made = ListOf::new(alloc);
    for event in events.into_vec() {
        made.push(Entry::of(0, event))?;
    }
    Ok(made)
}

/// What an actor is told, and the number of its root, where it has one.
#[derive(Drop)]
struct Given {
    reply: Reply,
    number: Option<u64>,
}

/// What an actor is told that waits so for its command.
fn reply_to(services: &mut Services, by: By, waiting: Waiting) -> Result<Given, AllocError>
    requires ready { services.old.spent ≡ false }
    requires can { has_come services.old by waiting ≡ true }
    requires hands { is_telling waiting ≡ false }
    ensures ready { OnOk result (services.new.spent ≡ false) }
    ensures keeps { OnOk result (Keeps services.old services.new) }
    ensures given { IfOk result (λ given. IsGiven services.old services.new by waiting
        given.reply given.number) }
{
    Ok(match waiting {
        Waiting::Nothing | Waiting::Tell { .. } | Waiting::Look => unreachable!(),
        Waiting::Staged => Given {
            reply: Reply::Staged,
            number: None,
        },
        Waiting::TxnFull => Given {
            reply: Reply::TxnFull,
            number: None,
        },
        Waiting::Using => Given {
            reply: Reply::Using,
            number: None,
        },
        Waiting::Shutdown => {
            shutdowns_leave_services();
            Given {
                reply: Reply::Shut,
                number: None,
            }
        }
        Waiting::Service => {
            let held = services.take(by);
            Given {
                reply: Reply::of(held.answer),
                number: held.number,
            }
        }
        Waiting::Jobs => {
            let told = services.reply(by)?;
            Given {
                reply: told.reply,
                number: told.number,
            }
        }
    })
}

/// The further roots that a reply names, if it may name some.
fn uses_in(given: &Reply) -> Option<&NumberList>
    ensures { unwrap_or (option_copied result) [] ≡ uses_of given.now }
{
    match given {
        Reply::Read { found: _, uses } => Some(uses),
        Reply::NoTarget { namespace: _, uses } => Some(uses),
        _ => None,
    }
}

/// Raises the floors of an actor to these roots.
fn see_roots(floors: &mut Floors, roots: &[Numbered]) -> Result<(), AllocError>
    ensures { OnOk result ((space : Name) → floor_in floors.new space
        ≡ max (floor_in floors.old space) (number_in space roots.now)) }
{
    for root in roots {
        floors.raise(&root.namespace, root.number)?;
    }
    Ok(())
}

/// Raises the floor of an actor in the namespace that its open command is about to the number of
/// the reply, if it has one.
fn see_number(floors: &mut Floors, subject: &Bytes, number: Option<u64>) -> Result<(), AllocError>
    ensures { OnOk result ((space : Name)
        → floor_in floors.new space ≡ risen_in floors.old subject.now number space) }
{
    match number {
        Some(number) => floors.raise(subject, number),
        None => Ok(()),
    }
}

/// Raises the floors of an actor to all roots that the reply names: that of its number, in the
/// namespace that the open command is about, and those that it used besides.
fn see(
    floors: &mut Floors,
    subject: &Bytes,
    number: Option<u64>,
    given: &Reply,
) -> Result<(), AllocError>
    ensures { OnOk result ((space : Name) → floor_in floors.new space
        ≡ seen_in floors.old subject.now number (uses_of given.now) space) }
{
    match uses_in(given) {
        None => see_number(floors, subject, number),
        Some(uses) => {
            see_roots(floors, uses.as_slice())?;
            see_number(floors, subject, number)
        }
    }
}

/// The seats of a workload's actors.
fn seated(alloc: Global, work: &Workload, size: u32) -> Result<Vec<Seat>, AllocError>
    requires within { IsWithin size work.now }
    requires ranks { All (λ a. a.rank < size) work.now.actors }
    ensures { IfOk result (λ seats. AreFirstSeats work.now seats.items) }
{
    let mut seats = Vec::new(alloc);
    let lines = work.lines.as_slice();
    for (actor, at) in work.actors.as_slice().iter().enumerate() {
        let actor = actor as u32;
        seats.push(Seat {
            broker: at.rank as u32,
            next: next_line(lines, 0, actor),
            last: 0,
            issued: 0,
            waiting: Waiting::Nothing,
            staged: Txn::new(alloc, Author::User(actor)),
            space: Bytes::of(alloc, b"primary")?,
            subject: Bytes::new(alloc),
            floors: Floors::new(alloc),
        })?;
    }
    Ok(seats)
}

impl Instance {
    /// The key-value service, which can go on where the instance can.
    fn core(&self) -> &Core
        requires { self.now.spent ≡ false }
        ensures value { result.now ≡ self.now.services.jobs.manager.core }
        ensures ready { result.now.spent ≡ false }
    {
        self.services.core()
    }

    /// An instance of some brokers with the actors of a workload that is born at this second,
    /// before anything has happened. Its first store has the text of the grant, and its jobs are
    /// served on these terms.
    pub fn new(
        alloc: Global,
        setting: Setting,
        grant: &Resources,
        work: &Workload,
        birth: u64,
        terms: Terms,
    ) -> Result<Instance, CoreFault>
        requires grant { IsR grant.now }
        requires size { (1 ≤ setting.size) × (setting.size ≤ 32) }
        requires fanout { (1 ≤ setting.fanout) × (setting.fanout ≤ 32) }
        requires within { IsWithin setting.size work.now }
        requires ranks { All (λ a. a.rank < setting.size) work.now.actors }
        requires built { All (λ l. IsBuilt l.command) work.now.lines }
        requires labels { HasOwnLabels work.now.lines }
        requires few { KeepsTallies work.now.lines }
        requires early { birth + 2000000000 < 2 ^ 64 }
        ensures ready { IfOk result (λ v. v.spent ≡ false) }
        ensures agrees { IfOk result (λ v. (set : Setup) → set.size ≡ setting.size
            → set.fanout ≡ setting.fanout → set.hash ≡ setting.hash → set.grant ≡ r_text grant.now
            → set.resources ≡ grant.now → set.base ≡ None → set.terms ≡ terms → set.birth ≡ birth
            → set.work ≡ work.now → AgreesOwn v set []) }
    {
        let services = Services::new(alloc, setting, grant, birth, terms)?;
        let seats = seated(alloc, work, setting.size)?;
        Ok(Instance {
            alloc,
            spent: false,
            seats,
            services,
        })
    }

    /// Makes a step of the services, and gives what happened. After an error the instance is spent.
    pub fn turn(&mut self, step: KvsStep) -> Result<Chronicle, CoreFault>
        requires ready { self.old.spent ≡ false }
        requires can { can_step self.old.services step ≡ true }
        ensures ready { OnOk result (self.new.spent ≡ false) }
        ensures makes { IfOk result (Makes self.old (Step.Kvs 0 step) self.new) }
        ensures spent { OnErr result (self.new.spent ≡ true) }
    {
        self.spent = true;
        let events = self.services.turn(step)?;
        let made = enter(self.alloc, events)?;
        self.spent = false;
        Ok(made)
    }

    /// Hands an actor the reply to its open command, which doesn't tell another actor.
    fn hand(&mut self, actor: u32) -> Result<Chronicle, AllocError>
        requires ready { self.old.spent ≡ false }
        requires can { can_answer self.old actor ≡ true }
        requires hands { (d : SeatValue)
            → is_telling (slice_index_or self.old.seats actor d).waiting ≡ false }
        ensures ready { OnOk result (self.new.spent ≡ false) }
        ensures makes { IfOk result (Makes self.old (Step.Answer actor) self.new) }
        ensures spent { OnErr result (self.new.spent ≡ true) }
    {
        self.spent = true;
        let seat = &mut self.seats[actor as usize];
        let command = seat.issued.saturating_sub(1);
        let by = By { actor, command };
        let given = reply_to(&mut self.services, by, seat.waiting)?;
        let Given { reply, number } = given;
        seat.waiting = Waiting::Nothing;
        see(&mut seat.floors, &seat.subject, number, &reply)?;
        let replied = Entry::Replied {
            actor,
            command,
            reply,
            number,
        };
        let made = only(self.alloc, replied)?;
        self.spent = false;
        Ok(made)
    }

    /// Tells another actor what an actor saw, and the actor that it is told.
    fn tell(&mut self, actor: u32, to: u32) -> Result<Chronicle, AllocError>
        requires ready { self.old.spent ≡ false }
        requires can { can_answer self.old actor ≡ true }
        requires tells { (d : SeatValue)
            → (slice_index_or self.old.seats actor d).waiting ≡ Waiting.Tell to }
        ensures ready { OnOk result (self.new.spent ≡ false) }
        ensures makes { IfOk result (Makes self.old (Step.Answer actor) self.new) }
        ensures spent { OnErr result (self.new.spent ≡ true) }
    {
        self.spent = true;
        raise(self.alloc, &mut self.seats, actor, to)?;
        let mut made = only(self.alloc, Entry::Told { from: actor, to })?;
        let seat = &mut self.seats[actor as usize];
        seat.waiting = Waiting::Nothing;
        made.push(Entry::Replied {
            actor,
            command: seat.issued.saturating_sub(1),
            reply: Reply::Told,
            number: None,
        })?;
        self.spent = false;
        Ok(made)
    }

    /// Replies to the open command of an actor, and gives what happened. After an error the
    /// instance is spent.
    pub fn answer(&mut self, actor: u32) -> Result<Chronicle, AllocError>
        requires ready { self.old.spent ≡ false }
        requires can { can_answer self.old actor ≡ true }
        ensures ready { OnOk result (self.new.spent ≡ false) }
        ensures makes { IfOk result (Makes self.old (Step.Answer actor) self.new) }
        ensures spent { OnErr result (self.new.spent ≡ true) }
    {
        match self.seats[actor as usize].waiting {
            Waiting::Tell { to } => self.tell(actor, to),
            _ => self.hand(actor),
        }
    }

    /// Issues the next command of an actor, of the workload with these lines, and gives what
    /// happened; in a settled run the instance is at rest then. After an error the instance is
    /// spent.
    pub fn issue(&mut self, lines: &[Line], actor: u32) -> Result<Chronicle, AllocError>
        requires ready { self.old.spent ≡ false }
        requires lines { MayIssueOf self.old lines.now }
        requires can { can_issue lines.now self.old actor ≡ true }
        ensures ready { OnOk result (self.new.spent ≡ false) }
        ensures makes { IfOk result (MakesOf lines.now self.old (Step.Issue actor) self.new) }
        ensures spent { OnErr result (self.new.spent ≡ true) }
    {
        self.spent = true;
        let seat = &mut self.seats[actor as usize];
        let command = seat.issued;
        let by = By { actor, command };
        let line = &lines[seat.next].command;
        let asked = begin(self.alloc, seat, actor, line)?;
        ask(&mut self.services, by, seat, asked)?;
        order(
            &mut self.services,
            by,
            seat.broker,
            order_of(self.alloc, line)?,
        )?;
        seat.issued = command + 1;
        seat.last = seat.next;
        seat.next = next_line(lines, seat.next + 1, actor);
        let made = only(self.alloc, Entry::Issued { actor, command })?;
        self.spent = false;
        Ok(made)
    }

    /// Posts what is due of the job manager: nothing has happened then; it lands in a step of the
    /// services. After an error the instance is spent.
    pub fn post(&mut self) -> Result<(), CoreFault>
        requires ready { self.old.spent ≡ false }
        requires can { can_post self.old ≡ true }
        ensures ready { OnOk result (self.new.spent ≡ false) }
        ensures posted { OnOk result (can_post self.new ≡ false) }
        ensures makes { OnOk result (Makes self.old (Step.Post 0) self.new []) }
        ensures spent { OnErr result (self.new.spent ≡ true) }
    {
        self.spent = true;
        self.services.post()?;
        self.spent = false;
        Ok(())
    }

    /// Whether something that is due can be posted.
    pub fn can_post(&self) -> bool
        requires { self.now.spent ≡ false }
        ensures { result ≡ can_post self.now }
    {
        self.services.jobs().can_post()
    }

    /// Whether a step of the services can be made.
    pub fn can_turn(&self, step: KvsStep) -> bool
        requires { self.now.spent ≡ false }
        ensures { result ≡ can_step self.now.services step }
    {
        self.services.can(step)
    }

    /// Whether the open command of an actor can be replied.
    pub fn can_answer(&self, actor: u32) -> bool
        requires { self.now.spent ≡ false }
        ensures { result ≡ can_answer self.now actor }
    {
        has_answer(&self.services, &self.seats, actor)
    }

    /// Whether the next command of an actor can be issued, of the workload with these lines.
    pub fn can_issue(&self, lines: &[Line], actor: u32) -> bool
        ensures { result ≡ can_issue lines.now self.now actor }
    {
        has_issue(lines.len(), &self.seats, actor)
    }

    /// The first step of the services, in their order.
    pub fn next_turn(&self) -> Option<KvsStep>
        requires { self.now.spent ≡ false }
        ensures first { result ≡ slice_get (possible self.now.services) 0 }
        ensures some { IfSome result (λ step. can_step self.now.services step ≡ true) }
        ensures none { result ≡ None → (step : KvsStep) → can_step self.now.services step ≡ false }
    {
        self.services.next()
    }

    /// The lowest actor whose open command can be replied.
    pub fn first_answer(&self) -> Option<u32>
        requires { self.now.spent ≡ false }
        ensures first { result ≡ slice_get (answers self.now) 0 }
        ensures some { IfSome result (λ a. can_answer self.now a ≡ true) }
        ensures none { result ≡ None → (a : ℕ) → can_answer self.now a ≡ false }
    {
        first_answer(&self.services, &self.seats)
    }

    /// The actor whose next line comes first among those that wait for nothing, of the workload
    /// with these lines.
    pub fn first_issue(&self, lines: &[Line]) -> Option<u32>
        requires ready { self.now.spent ≡ false }
        requires lines { AreLinesOf self.now lines.now }
        ensures first { result ≡ slice_get (issues lines.now self.now) 0 }
        ensures some { IfSome result (λ a. can_issue lines.now self.now a ≡ true) }
        ensures none { result ≡ None → (a : ℕ) → can_issue lines.now self.now a ≡ false }
    {
        issue_from(lines.len(), &self.seats, 0)
    }

    /// What the commands that didn't finish are told at the end, by actor, of the workload with
    /// these lines. Where nothing but the end can happen, these replies and the end make each
    /// chronicle whole that agrees.
    pub fn closings(&self, lines: &[Line]) -> Result<Chronicle, AllocError>
        requires ready { self.now.spent ≡ false }
        requires lines { AreLinesOf self.now lines.now }
        ensures left { IfOk result (λ left. (set : Setup) (own : List EntryValue)
            → AgreesOwn self.now set own → set.work.lines ≡ lines.now
            → left ≡ closings
            (numbers_in (log_of set.work top own))
            (awaited self.now.services.jobs)
            lines.now
            self.now.seats) }
        ensures ends { IfOk result (λ left. (set : Setup) (own : List EntryValue)
            → AgreesOwn self.now set own → set.work.lines ≡ lines.now
            → IsOver lines.now self.now → Ends set own left) }
    {
        // where nothing but the end can happen, the service is at rest
        self.services.still();
        let core = self.core();
        let jobs = self.services.jobs();
        close_off(self.alloc, core, jobs, lines, &self.seats)
    }

    /// Where no step of the services, no feed and no reply can be made and nothing is posted or
    /// due, the instance has settled: all its brokers are told, nothing is due by its chronicle, and
    /// each open command has to wait. Nothing is due either where nothing is to be posted and no
    /// child is to be born.
    pub fn still(&self)
        requires { self.now.spent ≡ false }
        ensures rests { (set : Setup) (own : List EntryValue) → AgreesOwn self.now set own
            → IsAtRest self.now → HasSettled set own }
        ensures free { (set : Setup) (own : List EntryValue) → AgreesOwn self.now set own
            → ((step : KvsStep) → can_step self.now.services step ≡ false)
            → ((actor : ℕ) → can_answer self.now actor ≡ false)
            → can_post self.now ≡ false → bearing self.now ≡ None → is_due self.now ≡ false }
    {
        // where none of the three can go on, what each has left is known
        self.services.still();
    }
}
