//! Where the actors stand.
ghost use Rattle.std.specs.Prelude.{◌≡◌, ◌≢◌, ◌++◌, ◌-◌, [], ℕ, ◌<◌, ◌≤◌, false, length, slice_get, slice_index_or, map, IfOk, IfSome, OnOk, Ok, Some, None, true};
ghost use Rattle.services.specs.kvs_txn.declared.txn.Author.TheVariants as author;
ghost use Rattle.services.specs.workload.declared.work.Line.{Line as LineValue};
ghost use Rattle.services.specs.kvs_rules.Log.{is_asked};
ghost use Rattle.services.specs.instance_rules.Log.{Instance, Log, Served, service_of};
ghost use Rattle.services.specs.Agrees.{AgreesServices};
ghost use Rattle.services.specs.Asks.{IsServedAsk, Keeps, MayAsk};
ghost use Rattle.services.specs.kvs_core.Requests.{AsksAtRest};
ghost use Rattle.services.specs.workload.Laws.{IsBuilt};
ghost use Rattle.services.specs.kvs_txn.Staged.{most_ops};
ghost use Rattle.services.specs.answers.Commands.{ask_of, op_of, subject_of};
ghost use Rattle.instance.specs.declared.seats.Seat.{Seat as SeatValue};
ghost use Rattle.instance.specs.Seats.{room_behind, with_op, waiting_after, waits_for, ops_after, space_after, seat_floor, moment_asked, AreTold, IsTheAsk, has_come, has_heard, is_at_jobs, is_fed_next, is_free, is_look, look_in};
ghost use Rattle.instance.specs.Marks.{AreHeld};
ghost use Rattle.instance.specs.Steps.{has_issue, has_answer, has_feed, next_of};

use crate::floors::Floors;
use services::Services;
use services::kvs_rules::KvsAsk;
use services::kvs_txn::{Author, By, Op, Path, Query, StageFault, Txn};
use services::lists::{Bytes, Copied};
use services::workload::{Command, Line};
use std::alloc::{AllocError, Global};
use std::mem;

/// What an actor waits for: for nothing, to be told what became of its operation, to have told
/// another actor what it saw, to be told that it uses another namespace, to look at what its broker
/// has heard, for the service's answer, for what becomes of a job or for time, or to be told that
/// its instance shuts down.
#[derive(Clone, Copy, Debug, PartialEq, Eq)]
pub enum Waiting {
    Nothing,
    Staged,
    TxnFull,
    Tell { to: u32 },
    Using,
    Look,
    Service,
    Jobs,
    Shutdown,
}

/// An open look: its actor's broker, and the least number that it may tell, which is how far the
/// actor has seen.
#[derive(Clone, Copy, Debug, PartialEq, Eq)]
pub struct OpenLook {
    pub broker: u32,
    pub need: u64,
}

/// An actor: its broker, the places of its next and its last line in the workload, how many of its
/// commands are issued, what it waits for, its staged operations, the namespace in which it works,
/// the one that its last command is about, and how far it has seen.
#[derive(Drop)]
pub struct Seat {
    pub broker: u32,
    pub next: usize,
    pub last: usize,
    pub issued: u32,
    pub waiting: Waiting,
    pub staged: Txn,
    pub space: Bytes,
    pub subject: Bytes,
    pub floors: Floors,
}

/// The place of the actor's first line from a place on, or the number of lines where it has none
/// there.
pub fn next_line(lines: &[Line], from: usize, actor: u32) -> usize
    requires { from ≤ length lines.now }
    ensures within { (from ≤ result) × (result ≤ length lines.now) }
    ensures passed { (k : ℕ) (d : LineValue) → from ≤ k → k < result
        → (slice_index_or lines.now k d).actor ≢ actor }
    ensures here { (d : LineValue) → result < length lines.now
        → (slice_index_or lines.now result d).actor ≡ actor }
{
    let mut at = from;
    while at < lines.len() && lines[at].actor != actor {
        at += 1;
    }
    at
}

/// Stages an operation, if there is room. Where there is none, that takes no memory.
fn stage(staged: &mut Txn, op: Op) -> Result<Waiting, AllocError>
    ensures author { staged.new.author ≡ staged.old.author }
    ensures done { IfOk result (λ waiting. (waiting ≡ room_behind staged.old.ops)
        × (staged.new.ops ≡ with_op staged.old.ops op)) }
    ensures full { most_ops ≤ length staged.old.ops → result ≡ Ok Waiting.TxnFull }
{
    match staged.stage(op) {
        Ok(()) => Ok(Waiting::Staged),
        Err(StageFault::TxnFull(_)) => Ok(Waiting::TxnFull),
        Err(StageFault::NoMemory(_)) => Err(AllocError),
    }
}

/// The operation that a command stages, if it stages one.
fn op_of(command: &Command) -> Result<Option<Op>, AllocError>
    ensures { IfOk result (λ op. op ≡ op_of command.now) }
{
    Ok(match command {
        Command::Put { path, bytes } => Some(Op::Put {
            path: path.copy()?,
            bytes: bytes.copy()?,
        }),
        Command::Append { path, bytes } => Some(Op::Append {
            path: path.copy()?,
            bytes: bytes.copy()?,
        }),
        Command::Unlink { path } => Some(Op::Unlink { path: path.copy()? }),
        Command::Mkdir { path } => Some(Op::Mkdir { path: path.copy()? }),
        Command::Symlink { path, target } => Some(Op::Link {
            path: path.copy()?,
            target: target.copy()?,
        }),
        _ => None,
    })
}

/// What a read asks.
fn read(query: Query, path: &Path) -> Result<KvsAsk, AllocError>
    ensures { IfOk result (λ asked. asked ≡ KvsAsk.Read query path.now) }
{
    Ok(KvsAsk::Read {
        query,
        path: path.copy()?,
    })
}

/// Takes all that an actor has staged.
fn take_staged(alloc: Global, seat: &mut Seat, actor: u32) -> Txn
    ensures taken { result ≡ seat.old.staged }
    ensures left { seat.new
        ≡ record seat.old { staged = record { author = author.User actor; ops = [] } } }
{
    mem::replace(&mut seat.staged, Txn::new(alloc, Author::User(actor)))
}

/// What an actor waits for whose command stages nothing.
fn waits_for(command: &Command) -> Waiting
    ensures { result ≡ waits_for command.now }
{
    match command {
        Command::Tell { actor } => Waiting::Tell { to: *actor },
        Command::NsUse { .. } => Waiting::Using,
        Command::Look => Waiting::Look,
        Command::Shutdown => Waiting::Shutdown,
        Command::Submit { .. }
        | Command::Cancel { .. }
        | Command::Raise { .. }
        | Command::Urgency { .. }
        | Command::StateOf { .. }
        | Command::Info { .. }
        | Command::Jobs
        | Command::Why { .. }
        | Command::ResultOf { .. }
        | Command::Watch { .. }
        | Command::Advance { .. } => Waiting::Jobs,
        _ => Waiting::Service,
    }
}

/// The namespace that a command of an actor is about, which works in this one.
fn subject_of(alloc: Global, command: &Command, own: &Bytes) -> Result<Bytes, AllocError>
    ensures { IfOk result (λ name. name ≡ subject_of command.now own.now) }
{
    match command {
        Command::NsCreate { name } | Command::NsRemove { name } => name.copy(),
        Command::Look
        | Command::Submit { .. }
        | Command::Cancel { .. }
        | Command::Raise { .. }
        | Command::Urgency { .. }
        | Command::StateOf { .. }
        | Command::Info { .. }
        | Command::Jobs
        | Command::Why { .. }
        | Command::ResultOf { .. }
        | Command::Watch { .. }
        | Command::Advance { .. }
        | Command::Shutdown => Bytes::of(alloc, b"primary"),
        _ => own.copy(),
    }
}

/// Turns an actor to the namespace that a command of its is about, and to the one in which it works
/// from then on.
fn turn(alloc: Global, seat: &mut Seat, command: &Command) -> Result<(), AllocError>
    ensures { OnOk result (seat.new ≡ record seat.old {
      subject = subject_of command.now seat.old.space;
      space = space_after command.now seat.old.space;
    }) }
{
    seat.subject = subject_of(alloc, command, &seat.space)?;
    if let Command::NsUse { name } = command {
        seat.space = name.copy()?;
    }
    Ok(())
}

/// Begins a command of an actor: says what it then waits for, and what it asks of the key-value
/// service.
pub fn begin(
    alloc: Global,
    seat: &mut Seat,
    actor: u32,
    command: &Command,
) -> Result<Option<KvsAsk>, AllocError>
    requires known { IsBuilt command.now }
    requires author { seat.old.staged.author ≡ author.User actor }
    ensures seat { OnOk result (seat.new ≡ record seat.old {
      staged = record {
        author = author.User actor;
        ops = ops_after command.now seat.old.staged.ops;
      };
      waiting = waiting_after command.now seat.old.staged.ops;
      subject = subject_of command.now seat.old.space;
      space = space_after command.now seat.old.space;
    }) }
    ensures asked { IfOk result (λ asked. asked
        ≡ ask_of (record { author = author.User actor; ops = seat.old.staged.ops }) command.now) }
    ensures known { IfOk result (λ asked. IfSome asked IsServedAsk) }
{
    turn(alloc, seat, command)?;
    if let Some(op) = op_of(command)? {
        seat.waiting = stage(&mut seat.staged, op)?;
        return Ok(None);
    }
    seat.waiting = waits_for(command);
    match command {
        Command::Commit => Ok(Some(KvsAsk::Commit {
            txn: take_staged(alloc, seat, actor),
        })),
        Command::Fence { name, count } => Ok(Some(KvsAsk::Fence {
            name: name.copy()?,
            count: *count,
            txn: take_staged(alloc, seat, actor),
        })),
        Command::Get { path } => Ok(Some(read(Query::Get, path)?)),
        Command::Ls { path } => Ok(Some(read(Query::List, path)?)),
        Command::Readlink { path } => Ok(Some(read(Query::Link, path)?)),
        Command::Wait { number } => Ok(Some(KvsAsk::Wait { number: *number })),
        Command::NsCreate { .. } => Ok(Some(KvsAsk::Create)),
        Command::NsRemove { .. } => Ok(Some(KvsAsk::Remove)),
        Command::ContentStore { bytes } => Ok(Some(KvsAsk::Store {
            bytes: bytes.copy()?,
        })),
        Command::ContentLoad { reference } => Ok(Some(KvsAsk::Load {
            reference: *reference,
        })),
        Command::ContentFlush => Ok(Some(KvsAsk::Flush)),
        Command::ContentDrop => Ok(Some(KvsAsk::DropClean)),
        Command::Getroot => unreachable!(),
        _ => Ok(None),
    }
}

/// Asks the services what a command of an actor at this seat asks, if it asks anything.
pub fn ask(
    services: &mut Services,
    by: By,
    seat: &Seat,
    asked: Option<KvsAsk>,
) -> Result<(), AllocError>
    requires ready { services.old.spent ≡ false }
    requires within { seat.now.broker < services.old.size }
    requires known { IfSome asked IsServedAsk }
    requires may { IfSome asked (MayAsk services.old by seat.now.broker seat.now.subject) }
    ensures ready { OnOk result (services.new.spent ≡ false) }
    ensures keeps { OnOk result (Keeps services.old services.new) }
    ensures agrees { OnOk result ((inst : Instance) (log : Log)
        → AgreesServices services.old inst log
        → IsTheAsk inst.service by seat.now asked → is_asked by (service_of log) ≡ false
        → AsksAtRest inst.service services.old.jobs.manager.core
        → AgreesServices services.new inst
        (log ++ map Served (moment_asked by (seat_floor seat.now) asked))) }
{
    let Some(ask) = asked else {
        return Ok(());
    };
    let namespace = seat.subject.copy()?;
    let floor = seat.floors.of(&seat.subject);
    services.ask(by, seat.broker, namespace, floor, ask)
}

/// Whether the broker of the actor at this seat has heard of all that the actor has seen of
/// `primary`, where its last command is about that.
fn has_heard(services: &Services, seat: &Seat) -> bool
    requires { services.now.spent ≡ false }
    ensures { result ≡ has_heard services.now seat.now }
{
    seat.floors.of(&seat.subject) <= services.core().heard_primary(seat.broker)
}

/// Whether what an actor waits for so with its last command is there; a look is recorded, and not
/// answered.
pub fn has_come(services: &Services, by: By, waiting: Waiting) -> bool
    requires { services.now.spent ≡ false }
    ensures { result ≡ has_come services.now by waiting }
{
    match waiting {
        Waiting::Nothing | Waiting::Look => false,
        Waiting::Staged
        | Waiting::TxnFull
        | Waiting::Tell { .. }
        | Waiting::Using
        | Waiting::Shutdown => true,
        Waiting::Service => services.can_take(by),
        Waiting::Jobs => services.jobs().can_reply(by),
    }
}

/// Whether an actor waits for nothing.
fn is_free(waiting: Waiting) -> bool
    ensures { result ≡ is_free waiting }
{
    matches!(waiting, Waiting::Nothing)
}

/// Whether the actor's next command can be issued, of so many lines.
pub fn has_issue(lines: usize, seats: &[Seat], actor: u32) -> bool
    ensures { result ≡ has_issue lines seats.now actor }
{
    match seats.get(actor as usize) {
        Some(seat) => is_free(seat.waiting) && seat.next < lines,
        None => false,
    }
}

/// Whether the actor's open command can be replied.
pub fn has_answer(services: &Services, seats: &[Seat], actor: u32) -> bool
    requires { services.now.spent ≡ false }
    ensures { result ≡ has_answer services.now seats.now actor }
{
    match seats.get(actor as usize) {
        Some(seat) => {
            let command = seat.issued.saturating_sub(1);
            has_come(services, By { actor, command }, seat.waiting)
        }
        None => false,
    }
}

/// Whether an actor looks.
fn is_look(waiting: Waiting) -> bool
    ensures { result ≡ is_look waiting }
{
    matches!(waiting, Waiting::Look)
}

/// The look of the actor at this seat, if it looks.
pub fn look_in(seat: &Seat) -> Option<OpenLook>
    ensures { result ≡ look_in seat.now }
{
    if !is_look(seat.waiting) {
        return None;
    }
    Some(OpenLook {
        broker: seat.broker,
        need: seat.floors.of(&seat.subject),
    })
}

/// The last command of each actor.
fn last_commands(seats: &[Seat]) -> [u32; 256]
    requires { length seats.now ≤ 256 }
    ensures long { length result ≡ 256 }
    ensures each { (actor : ℕ) (seat : SeatValue) → slice_get seats.now actor ≡ Some seat
        → slice_index_or result actor 0 ≡ seat.issued - 1 }
{
    let mut commands = [0; 256];
    for actor in 0..seats.len() {
        commands[actor] = seats[actor].issued.saturating_sub(1);
    }
    commands
}

/// Of which actors the services hold the answer to the open command. However many wait, the
/// requests are passed over once.
pub fn held_answers(services: &Services, seats: &[Seat]) -> [bool; 256]
    requires ready { services.now.spent ≡ false }
    requires few { length seats.now ≤ 256 }
    ensures { AreHeld services.now seats.now result }
{
    let commands = last_commands(seats);
    let mut marks = [false; 256];
    services.mark_held(&commands, &mut marks);
    marks
}

/// Whether the actor's open command can be replied, where it is known whose answers the services
/// hold.
pub fn is_answered(services: &Services, seats: &[Seat], held: &[bool], actor: u32) -> bool
    requires ready { services.now.spent ≡ false }
    requires held { AreHeld services.now seats.now held.now }
    ensures { result ≡ has_answer services.now seats.now actor }
{
    match seats.get(actor as usize) {
        Some(seat) => match seat.waiting {
            Waiting::Service => held[actor as usize],
            _ => has_answer(services, seats, actor),
        },
        None => false,
    }
}

/// Whether an actor waits for what becomes of a job, or for time.
fn is_at_jobs(waiting: Waiting) -> bool
    ensures { result ≡ is_at_jobs waiting }
{
    matches!(waiting, Waiting::Jobs)
}

/// Whether the command of the actor at this seat is a watch that can be fed: its broker has heard
/// of all that the actor has seen, and of more events of the job than the watch was fed.
fn is_fed_next(services: &Services, by: By, seat: &Seat) -> bool
    requires { services.now.spent ≡ false }
    ensures { result ≡ is_fed_next services.now by seat.now }
{
    is_at_jobs(seat.waiting) && has_heard(services, seat) && services.jobs().can_feed(by)
}

/// Whether the open command of an actor is a watch that can be fed.
pub fn has_feed(services: &Services, seats: &[Seat], actor: u32) -> bool
    requires { services.now.spent ≡ false }
    ensures { result ≡ has_feed services.now seats.now actor }
{
    match seats.get(actor as usize) {
        Some(seat) => {
            let command = seat.issued.saturating_sub(1);
            is_fed_next(services, By { actor, command }, seat)
        }
        None => false,
    }
}

/// Raises the floors of an actor, if it has a seat, to those of another.
pub fn raise(alloc: Global, seats: &mut Vec<Seat>, from: u32, to: u32) -> Result<(), AllocError>
    requires { from < length seats.old.items }
    ensures { OnOk result (AreTold from to seats.old.items seats.new.items) }
{
    let mut floors = Floors::new(alloc);
    floors.join(&seats[from as usize].floors)?;
    let to = to as usize;
    if to < seats.len() {
        let seat = &mut seats[to];
        floors.join(&seat.floors)?;
        seat.floors = floors;
    }
    Ok(())
}

/// The first actor whose open command can be replied.
pub fn first_answer(services: &Services, seats: &[Seat]) -> Option<u32>
    requires ready { services.now.spent ≡ false }
    requires few { length seats.now ≤ 256 }
    ensures some { IfSome result (λ a. has_answer services.now seats.now a ≡ true) }
    ensures first { IfSome result (λ a. (lower : ℕ) → lower < a
        → has_answer services.now seats.now lower ≡ false) }
    ensures none { result ≡ None → (a : ℕ) → has_answer services.now seats.now a ≡ false }
{
    let held = held_answers(services, seats);
    for actor in 0..seats.len() as u32 {
        if is_answered(services, seats, &held, actor) {
            return Some(actor);
        }
    }
    None
}

/// The actor whose next line comes first from a line on, among those that wait for nothing, of so
/// many lines.
pub fn issue_from(lines: usize, seats: &[Seat], from: usize) -> Option<u32>
    requires few { length seats.now ≤ 256 }
    ensures some { IfSome result (λ a. (has_issue lines seats.now a ≡ true)
        × (from ≤ next_of seats.now a)) }
    ensures first { IfSome result (λ a. (other : ℕ) → has_issue lines seats.now other ≡ true
        → from ≤ next_of seats.now other → next_of seats.now a ≤ next_of seats.now other) }
    ensures none { result ≡ None → (a : ℕ) → has_issue lines seats.now a ≡ true
        → next_of seats.now a < from }
{
    let mut first = None;
    let mut line = lines;
    for actor in 0..seats.len() as u32 {
        if has_issue(line, seats, actor) && from <= seats[actor as usize].next {
            first = Some(actor);
            line = seats[actor as usize].next;
        }
    }
    first
}
