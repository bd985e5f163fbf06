//! The open requests, each with the place where it is.
ghost use Rattle.std.specs.Prelude.{◌≡◌, ◌≢◌, ℕ, ◌<◌, ◌≤◌, ◌&&◌, ◌||◌, true, false, List, [], length, Option, None, Some, IfSome, IfOk, OnOk, slice_index_or, slice_set, count_by};
ghost use Rattle.std.specs.List.{position, list_any};
ghost use Rattle.kvs_txn.specs.declared.txn.By.{By as Command};
ghost use Rattle.kvs_rules.specs.Log.{Log, same_command};
ghost use Rattle.kvs_rules.specs.Namespaces.{Setting, Request};
ghost use Rattle.kvs_rules.specs.declared.events.KvsAnswer.TheVariants as answer;
ghost use Rattle.kvs_rules.specs.declared.events.KvsAsk.{KvsAsk};
ghost use Rattle.kvs_rules.specs.declared.events.KvsAsk.TheVariants as ask;
ghost use Rattle.kvs_space.specs.Space.{SpaceValue, known_at, is_authored, name_at};
ghost use Rattle.kvs_requests.specs.Agreement.{Entrants, StageAgrees, RowsAgree, IsUndecided, MayTell};
ghost use Rattle.kvs_requests.specs.Refused.{IsAbove, IsFalling, IsReturning, GoesOn, IsCarried, IsRefusedRow, AreRefused, IsDismissedRow, AreDismissed, AreSettled, IsSentBack};
ghost use Rattle.kvs_requests.specs.Rows.{IsKnownAsk, IsPut, with_stage, AtPlace, ArePlaced, ask_of, entered, place_of, answered, awaited, found_for, settled, carried_out, work_of};
ghost use Rattle.kvs_rules.specs.Brokers.{parent};
ghost use Rattle.kvs_requests.specs.Stages.{is_message, is_on, has_come, may_serve, is_held, is_arrived, is_arrived_stage, is_entering, kind_of, has_ended, kept_count, other_than, joined_in};

use kvs_rules::{KvsAnswer, KvsAsk};
use kvs_space::Space;
use kvs_txn::{By, GroupList, NumberList, Refusal, Txn};
use lists::{Bytes, ListOf};
use plain_store::Store;
use std::alloc::{AllocError, Global};
use std::mem::replace;

/// What a landing carries out for a command.
#[derive(Clone, Copy, Debug, PartialEq, Eq)]
pub enum Work {
    Commit,
    Fence,
    Create,
    Remove,
}

/// What has become of a request, and where it is.
#[derive(Drop)]
pub enum Stage {
    /// A request on its way up, on the link from one broker to the one above it.
    Rising {
        from: u32,
        to: u32,
        ask: KvsAsk,
    },
    /// A request at rank 0, to be taken up.
    Arrived {
        ask: KvsAsk,
    },
    /// A transaction that waits at rank 0 to land in the namespace of this place in the table.
    Joined {
        space: usize,
        work: Work,
    },
    /// What a landing of the namespace carried out under this number; its broker answers once it
    /// has heard it.
    Landed {
        space: usize,
        number: u64,
        work: Work,
    },
    /// An answer on its way down, on the link from one broker to one below it.
    Falling {
        from: u32,
        to: u32,
        answer: KvsAnswer,
    },
    /// A request on its way back down to its broker, to wait there for the namespace of this place
    /// in the table.
    Returning {
        from: u32,
        to: u32,
        space: usize,
        ask: KvsAsk,
    },
    /// An answer that has come to its broker.
    Ended {
        answer: KvsAnswer,
    },
    /// A request that waits at its broker until that has heard the number that it needs, or the
    /// namespace's removal.
    Parked {
        space: usize,
        ask: KvsAsk,
    },
    /// An answer that waits to be taken.
    Held {
        number: Option<u64>,
        answer: KvsAnswer,
    },
}

/// An open request: its command, the command's broker, the namespace that it names, the number that
/// its actor's broker needs to have heard where it reads or waits, and its stage.
#[derive(Drop)]
pub struct Row {
    pub by: By,
    pub broker: u32,
    pub namespace: Bytes,
    pub need: u64,
    pub stage: Stage,
}

/// Whether a request is a message on the link between two brokers.
pub fn is_on(row: &Row, from: u32, to: u32) -> bool
    ensures { result ≡ is_on from to row.now }
{
    match &row.stage {
        Stage::Rising { from: a, to: b, .. } => *a == from && *b == to,
        Stage::Falling { from: a, to: b, .. } => *a == from && *b == to,
        Stage::Returning { from: a, to: b, .. } => *a == from && *b == to,
        _ => false,
    }
}

/// How many roots a broker knows of the namespace of a place in the table.
fn known_at(spaces: &Vec<Space>, space: usize, broker: u32) -> u64
    ensures { result ≡ known_at spaces.now.items space broker }
{
    match spaces.get(space) {
        Some(space) => space.known(broker),
        None => 0,
    }
}

/// Whether a broker has heard the removal of the namespace of a place in the table.
fn has_ended(spaces: &Vec<Space>, space: usize, broker: u32) -> bool
    ensures { result ≡ has_ended spaces.now.items space broker }
{
    match spaces.get(space) {
        Some(space) => space.has_heard_end(broker),
        None => false,
    }
}

/// Whether a request with this need can be answered at its broker.
fn has_come(stage: &Stage, need: u64, spaces: &Vec<Space>, broker: u32) -> bool
    ensures { result ≡ has_come spaces.now.items broker need stage.now }
{
    match stage {
        Stage::Landed { space, number, .. } => *number < known_at(spaces, *space, broker),
        Stage::Ended { .. } => true,
        Stage::Parked { space, .. } => {
            need < known_at(spaces, *space, broker) || has_ended(spaces, *space, broker)
        }
        _ => false,
    }
}

/// Whether a request waits at rank 0 to be taken up.
pub fn is_arrived(row: &Row) -> bool
    ensures { result ≡ is_arrived row.now }
{
    matches!(&row.stage, Stage::Arrived { .. })
}

/// Whether a broker can answer a request, or take it up.
pub fn may_serve(row: &Row, spaces: &Vec<Space>, broker: u32) -> bool
    ensures { result ≡ may_serve spaces.now.items broker row.now }
{
    if is_arrived(row) {
        broker == 0
    } else {
        row.broker == broker && has_come(&row.stage, row.need, spaces, broker)
    }
}

/// Whether the answer of a command waits to be taken in a row.
pub fn is_held_of(row: &Row, by: By) -> bool
    ensures { result ≡ (same_command by row.now.by && is_held row.now) }
{
    by.actor == row.by.actor
        && by.command == row.by.command
        && matches!(&row.stage, Stage::Held { .. })
}

/// The place of the oldest request on its way from one broker to another.
pub fn first_on(rows: &Vec<Row>, from: u32, to: u32) -> Option<usize>
    ensures { result ≡ position (is_on from to) rows.now.items }
{
    rows.iter().position(|row| is_on(row, from, to))
}

/// The place of the oldest request that its broker may serve.
pub fn first_served(rows: &Vec<Row>, spaces: &Vec<Space>, broker: u32) -> Option<usize>
    ensures { result ≡ position (may_serve spaces.now.items broker) rows.now.items }
{
    rows.iter().position(|row| may_serve(row, spaces, broker))
}

/// The place of the request of this command that holds its answer.
pub fn first_held(rows: &Vec<Row>, by: By) -> Option<usize>
    ensures { result ≡ position (λ row. same_command by row.by && is_held row) rows.now.items }
{
    rows.iter().position(|row| is_held_of(row, by))
}

/// Whether a request is a message on the link between two brokers.
pub fn is_carried(rows: &Vec<Row>, from: u32, to: u32) -> bool
    ensures { result ≡ list_any (is_on from to) rows.now.items }
{
    rows.iter().any(|row| is_on(row, from, to))
}

/// Whether a broker can answer a request, or take one up.
pub fn is_served(rows: &Vec<Row>, spaces: &Vec<Space>, broker: u32) -> bool
    ensures { result ≡ list_any (may_serve spaces.now.items broker) rows.now.items }
{
    rows.iter().any(|row| may_serve(row, spaces, broker))
}

/// Whether the answer of a command waits to be taken.
pub fn is_held_in(rows: &Vec<Row>, by: By) -> bool
    ensures { result ≡ list_any (λ row. same_command by row.by && is_held row) rows.now.items }
{
    rows.iter().any(|row| is_held_of(row, by))
}

/// Marks the actor of a request, if the answer of its command waits to be taken.
fn mark_row(row: &Row, commands: &[u32], marks: &mut [bool])
    requires { length commands.now ≡ length marks.old }
    ensures long { length marks.new ≡ length marks.old }
    ensures marked { (actor : ℕ) → actor < length marks.old → slice_index_or marks.new actor false
        ≡ (slice_index_or marks.old actor false || (same_command
        (record { actor = actor; command = slice_index_or commands.now actor 0 }) row.now.by
        && is_held row.now)) }
{
    let actor = row.by.actor;
    let at = actor as usize;
    if at < marks.len() {
        let command = commands[at];
        if is_held_of(row, By { actor, command }) {
            marks[at] = true;
        }
    }
}

/// Marks, besides those that are marked, the actors whose answer waits to be taken, each to its
/// command of these.
pub fn mark_held(rows: &Vec<Row>, commands: &[u32], marks: &mut [bool])
    requires { length commands.now ≡ length marks.old }
    ensures long { length marks.new ≡ length marks.old }
    ensures marked { (actor : ℕ) → actor < length marks.old → slice_index_or marks.new actor false
        ≡ (slice_index_or marks.old actor false || list_any (λ row. same_command
        (record { actor = actor; command = slice_index_or commands.now actor 0 }) row.by
        && is_held row) rows.now.items) }
{
    for i in 0..rows.len() {
        mark_row(&rows[i], commands, marks);
    }
}

/// The next broker on the way down from one broker to another, if that is below it.
fn toward(fanout: u32, at: u32, home: u32) -> Option<u32>
    requires { 0 < fanout }
    ensures next { IfSome result (λ next. (0 < next) × (at ≡ parent fanout next) × (next ≤ home)
        × IsAbove fanout next home) }
    ensures there { result ≡ None → IsAbove fanout at home → at ≡ home }
{
    let mut next = home;
    while next > at && (next - 1) / fanout != at {
        next = (next - 1) / fanout;
    }
    if next > at { Some(next) } else { None }
}

/// Where an answer goes on to from a broker, on its way to the command's.
pub fn falling(fanout: u32, at: u32, home: u32, answer: KvsAnswer) -> Stage
    requires { 0 < fanout }
    ensures place { (size : ℕ) (spaces : List SpaceValue) → home < size
        → AtPlace fanout size spaces result }
    ensures agrees { (entered : Entrants) (set : Setting) (log : Log) (spaces : List SpaceValue)
        (by : Command) (request : Request) → MayTell entered set log by None answer
        → StageAgrees entered set log spaces by request result }
    ensures left { (from to : ℕ) → from ≢ at → is_message from to result ≡ false }
    ensures unjoined { (k : ℕ) → joined_in k result ≡ false }
    ensures falls { IsFalling fanout at home answer result }
{
    match toward(fanout, at, home) {
        Some(next) => Stage::Falling {
            from: at,
            to: next,
            answer,
        },
        None => Stage::Ended { answer },
    }
}

/// Where a request goes on to from a broker, on its way back to its own.
pub fn returning(fanout: u32, at: u32, home: u32, space: usize, ask: KvsAsk) -> Stage
    requires { 0 < fanout }
    ensures { IsReturning fanout at home space ask result }
{
    match toward(fanout, at, home) {
        Some(next) => Stage::Returning {
            from: at,
            to: next,
            space,
            ask,
        },
        None => Stage::Parked { space, ask },
    }
}

/// Where a message on a link goes on to from the broker that it comes to.
fn onward(stage: Stage, fanout: u32, at: u32, home: u32) -> Stage
    requires { 0 < fanout }
    ensures place { (size from : ℕ) (spaces : List SpaceValue) → home < size
        → is_message from at stage ≡ true → AtPlace fanout size spaces stage
        → AtPlace fanout size spaces result }
    ensures agrees { (entered : Entrants) (set : Setting) (log : Log) (spaces : List SpaceValue)
        (by : Command) (request : Request) → StageAgrees entered set log spaces by request stage
        → StageAgrees entered set log spaces by request result }
    ensures left { (size from : ℕ) (spaces : List SpaceValue) → is_message from at stage ≡ true
        → AtPlace fanout size spaces stage → is_message from at result ≡ false }
    ensures joined { (k : ℕ) → joined_in k result ≡ joined_in k stage }
    ensures goes { GoesOn fanout at home stage result }
{
    match stage {
        Stage::Rising { ask, .. } => {
            if at == 0 {
                Stage::Arrived { ask }
            } else {
                Stage::Rising {
                    from: at,
                    to: (at - 1) / fanout,
                    ask,
                }
            }
        }
        Stage::Falling { answer, .. } => falling(fanout, at, home, answer),
        Stage::Returning { space, ask, .. } => returning(fanout, at, home, space, ask),
        other => other,
    }
}

/// The number that a request waits for, whatever its actor saw.
pub fn awaited(ask: &KvsAsk) -> u64
    ensures { result ≡ awaited ask.now }
{
    match ask {
        KvsAsk::Wait { number } => *number,
        _ => 0,
    }
}

/// Where a new request is: a read or a wait stays at its broker, if that has heard of the
/// namespace, which is at this place in the table then; anything else goes up to rank 0.
pub fn entry(ask: KvsAsk, place: Option<usize>, fanout: u32, broker: u32) -> Stage
    requires fanout { 0 < fanout }
    requires known { IsKnownAsk ask }
    ensures place { (size : ℕ) (spaces : List SpaceValue) → broker < size
        → IfSome place (λ space. space < length spaces) → AtPlace fanout size spaces result }
    ensures agrees { (entered : Entrants) (set : Setting) (log : Log) (spaces : List SpaceValue)
        (by : Command) (request : Request) → request.ask ≡ ask → IsUndecided log by
        → entered by ≡ false
        → IfSome place (λ space. name_at spaces space ≡ Some request.namespace)
        → StageAgrees entered set log spaces by request result }
    ensures unjoined { (k : ℕ) → joined_in k result ≡ false }
    ensures entered { result ≡ entered fanout broker place ask }
{
    match (ask, place) {
        (ask @ (KvsAsk::Read { .. } | KvsAsk::Wait { .. }), Some(space)) => {
            Stage::Parked { space, ask }
        }
        (ask, _) => {
            if broker == 0 {
                Stage::Arrived { ask }
            } else {
                Stage::Rising {
                    from: broker,
                    to: (broker - 1) / fanout,
                    ask,
                }
            }
        }
    }
}

/// Takes a stage out that is to be put back changed; an end stands in its place until then.
fn take_stage(stage: &mut Stage) -> Stage
    ensures { result ≡ stage.old }
{
    replace(
        stage,
        Stage::Ended {
            answer: KvsAnswer::NoNamespace,
        },
    )
}

/// Puts a request at another stage. It drops the old one by a call, which costs each proof above
/// less than an assignment.
fn set_stage(row: &mut Row, stage: Stage)
    ensures { row.new ≡ with_stage stage row.old }
{
    drop(replace(&mut row.stage, stage));
}

/// Puts a request at another stage.
pub fn put_stage(rows: &mut Vec<Row>, i: usize, stage: Stage)
    requires { i < length rows.old.items }
    ensures { IsPut rows.old.items rows.new.items i stage }
{
    set_stage(&mut rows[i], stage);
}

/// What enters a namespace at rank 0: a commit, or a member of the fence of a name that waits for
/// so many.
#[derive(Drop)]
pub enum Entrant {
    Commit { txn: Txn },
    Member { name: Bytes, count: u32, txn: Txn },
}

/// Lets a request that has come to rank 0 wait to land in the namespace of a place in the table,
/// and gives what enters there.
pub fn take_entrant(rows: &mut Vec<Row>, i: usize, space: usize) -> Entrant
    requires within { i < length rows.old.items }
    requires enters { (d : Row) → is_entering (slice_index_or rows.old.items i d).stage ≡ true }
    ensures rows { IsPut rows.old.items rows.new.items i (Stage.Joined space (work_of result)) }
    ensures was { (d : Row)
        → (slice_index_or rows.old.items i d).stage ≡ Stage.Arrived (ask_of result) }
{
    let row = &mut rows[i];
    match take_stage(&mut row.stage) {
        Stage::Arrived {
            ask: KvsAsk::Commit { txn },
        } => {
            let work = Work::Commit;
            set_stage(row, Stage::Joined { space, work });
            Entrant::Commit { txn }
        }
        Stage::Arrived {
            ask: KvsAsk::Fence { name, count, txn },
        } => {
            let work = Work::Fence;
            set_stage(row, Stage::Joined { space, work });
            Entrant::Member { name, count, txn }
        }
        _ => unreachable!(),
    }
}

/// The first of two counts, if it is another than the second.
fn other_than(kept: Option<u32>, count: u32) -> Option<u32>
    ensures { result ≡ other_than kept count }
{
    match kept {
        Some(kept) => { if kept == count { None } else { Some(kept) } }
        None => None,
    }
}

/// The count of the open fence that a request would join, if that is another than its own.
pub fn kept_count(row: &Row, space: &Space) -> Option<u32>
    ensures { result ≡ kept_count space.now row.now.stage }
{
    match &row.stage {
        Stage::Arrived {
            ask: KvsAsk::Fence { name, count, .. },
        } => other_than(space.count_of(name), *count),
        _ => None,
    }
}

/// Moves the oldest message on a link on.
pub fn carry(rows: &mut Vec<Row>, fanout: u32, from: u32, to: u32)
    requires fanout { 0 < fanout }
    requires some { list_any (is_on from to) rows.old.items ≡ true }
    ensures carried { IsCarried fanout from to rows.old.items rows.new.items }
    ensures placed { (size : ℕ) (spaces : List SpaceValue)
        → ArePlaced fanout size spaces rows.old.items
        → ArePlaced fanout size spaces rows.new.items }
    ensures agrees { (entered : Entrants) (set : Setting) (log : Log) (spaces : List SpaceValue)
        → RowsAgree entered set log spaces rows.old.items
        → RowsAgree entered set log spaces rows.new.items }
    ensures left { (size : ℕ) (spaces : List SpaceValue)
        → ArePlaced fanout size spaces rows.old.items
        → count_by (is_on from to) rows.new.items < count_by (is_on from to) rows.old.items }
{
    match first_on(rows, from, to) {
        Some(i) => {
            let row = &mut rows[i];
            let home = row.broker;
            let stage = take_stage(&mut row.stage);
            set_stage(row, onward(stage, fanout, to, home));
        }
        None => unreachable!(),
    }
}

/// What a command is told whose landing carried this out.
fn carried_out(work: Work) -> KvsAnswer
    ensures { result ≡ carried_out work }
{
    match work {
        Work::Commit => KvsAnswer::Committed,
        Work::Fence => KvsAnswer::Fenced,
        Work::Create => KvsAnswer::Created,
        Work::Remove => KvsAnswer::Removed,
    }
}

/// The place in the table of the namespace from which a request is answered.
pub fn place_of(row: &Row) -> usize
    ensures { result ≡ place_of row.now.stage }
{
    match &row.stage {
        Stage::Landed { space, .. } => *space,
        Stage::Parked { space, .. } => *space,
        _ => 0,
    }
}

/// What a request is told that needed its broker to hear a number, where the broker has this store.
fn found(alloc: Global, ask: KvsAsk, store: &Store) -> Result<KvsAnswer, AllocError>
    ensures { IfOk result (λ given. given ≡ found_for store.now ask) }
{
    match ask {
        KvsAsk::Read { query, path } => Ok(KvsAnswer::Read {
            found: store.look(query, &path)?,
            uses: NumberList::new(alloc),
        }),
        _ => Ok(KvsAnswer::Reached),
    }
}

/// The stage of a request that its broker answers, which knows of so many roots of the namespace,
/// has this store, and may have heard the namespace's removal.
fn answer(
    alloc: Global,
    stage: Stage,
    known: u64,
    ended: bool,
    store: &Store,
) -> Result<Stage, AllocError>
    ensures { IfOk result (λ held. held ≡ answered known ended store.now stage) }
{
    Ok(match stage {
        Stage::Landed { number, work, .. } => Stage::Held {
            number: Some(number),
            answer: carried_out(work),
        },
        Stage::Ended { answer } => Stage::Held {
            number: None,
            answer,
        },
        Stage::Parked { .. } if ended => Stage::Held {
            number: None,
            answer: KvsAnswer::NoNamespace,
        },
        Stage::Parked { ask, .. } => Stage::Held {
            number: Some(known.saturating_sub(1)),
            answer: found(alloc, ask, store)?,
        },
        other => other,
    })
}

/// Makes the answer of a request, whose broker knows of so many roots of the namespace, has this
/// store, and may have heard the namespace's removal.
pub fn give(
    rows: &mut Vec<Row>,
    i: usize,
    known: u64,
    ended: bool,
    store: &Store,
) -> Result<(), AllocError>
    requires { i < length rows.old.items }
    ensures { OnOk result ((d : Row)
        → rows.new.items
        ≡ slice_set rows.old.items i (with_stage (answered known ended store.now
        (slice_index_or rows.old.items i d).stage) (slice_index_or rows.old.items i d))) }
{
    let alloc = *rows.allocator();
    let row = &mut rows[i];
    let stage = take_stage(&mut row.stage);
    set_stage(row, answer(alloc, stage, known, ended, store)?);
    Ok(())
}

/// Whether a command is one of these.
fn is_among(authors: &ListOf<By>, by: By) -> bool
    ensures { result ≡ list_any (same_command by) authors.now }
{
    authors.as_slice().iter().any(|other| by.actor == other.actor && by.command == other.command)
}

/// Whether a landing of these transactions carries out the command.
fn is_author(groups: &GroupList, by: By) -> bool
    ensures { result ≡ list_any (is_authored by) groups.now }
{
    groups
        .as_slice()
        .iter()
        .any(|group| is_among(&group.authors, by))
}

/// Puts a request that a landing carried out at the stage that says so.
fn settle_row(row: &mut Row, groups: &GroupList, space: usize, number: u64)
    ensures { row.new ≡ settled space number groups.now row.old }
{
    if is_author(groups, row.by) {
        if let Stage::Joined { work, .. } = &row.stage {
            let work = *work;
            set_stage(
                row,
                Stage::Landed {
                    space,
                    number,
                    work,
                },
            );
        }
    }
}

/// Puts the requests that a landing carried out at the stage that says so.
pub fn settle(rows: &mut Vec<Row>, groups: &GroupList, space: usize, number: u64)
    ensures { AreSettled space number groups.now rows.old.items rows.new.items }
{
    for i in 0..rows.len() {
        settle_row(&mut rows[i], groups, space, number);
    }
}

/// Sends the refusal of a transaction to a command that it was to carry out.
fn refuse_row(row: &mut Row, fanout: u32, authors: &ListOf<By>, refusal: Refusal)
    requires { 0 < fanout }
    ensures { IsRefusedRow fanout authors.now refusal row.old row.new }
{
    if is_among(authors, row.by) {
        let stage = falling(fanout, 0, row.broker, KvsAnswer::Refused(refusal));
        set_stage(row, stage);
    }
}

/// Sends the refusal of a transaction to the commands that it was to carry out.
pub fn refuse(rows: &mut Vec<Row>, fanout: u32, authors: &ListOf<By>, refusal: Refusal)
    requires { 0 < fanout }
    ensures { AreRefused fanout authors.now refusal rows.old.items rows.new.items }
{
    for i in 0..rows.len() {
        refuse_row(&mut rows[i], fanout, authors, refusal);
    }
}

/// What rank 0 does with a request that has come to it, by what is asked.
#[derive(Clone, Copy, Debug, PartialEq, Eq)]
pub enum Kind {
    /// A transaction is to land.
    Land,
    /// Something is read, or waited for.
    Look,
    Create,
    Remove,
}

/// What is to be done with a request that has come to rank 0.
pub fn kind_of(row: &Row) -> Kind
    ensures { result ≡ kind_of row.now.stage }
{
    match &row.stage {
        Stage::Arrived {
            ask: KvsAsk::Create,
        } => Kind::Create,
        Stage::Arrived {
            ask: KvsAsk::Remove,
        } => Kind::Remove,
        Stage::Arrived {
            ask: KvsAsk::Read { .. } | KvsAsk::Wait { .. },
        } => Kind::Look,
        _ => Kind::Land,
    }
}

/// Where a request goes from rank 0 that has come to it, on its way back to its broker.
fn sent_back(stage: Stage, fanout: u32, home: u32, space: usize) -> Stage
    requires fanout { 0 < fanout }
    requires arrived { is_arrived_stage stage ≡ true }
    ensures { (asked : KvsAsk) × (stage ≡ Stage.Arrived asked)
        × IsReturning fanout 0 home space asked result }
{
    match stage {
        Stage::Arrived { ask } => returning(fanout, 0, home, space, ask),
        _ => unreachable!(),
    }
}

/// Sends a request that has come to rank 0 back to its broker, to wait there for the namespace of a
/// place in the table.
pub fn send_back(rows: &mut Vec<Row>, i: usize, fanout: u32, space: usize)
    requires within { i < length rows.old.items }
    requires fanout { 0 < fanout }
    requires arrived { (d : Row) → is_arrived (slice_index_or rows.old.items i d) ≡ true }
    ensures { IsSentBack fanout i space rows.old.items rows.new.items }
{
    let row = &mut rows[i];
    let home = row.broker;
    let stage = take_stage(&mut row.stage);
    set_stage(row, sent_back(stage, fanout, home, space));
}

/// Tells the command of a request that waits to land in the namespace of a place in the table that
/// it is gone.
fn dismiss_row(row: &mut Row, fanout: u32, space: usize)
    requires { 0 < fanout }
    ensures { IsDismissedRow fanout space row.old row.new }
{
    if is_joined_in(&row.stage, space) {
        let stage = falling(fanout, 0, row.broker, KvsAnswer::NoNamespace);
        set_stage(row, stage);
    }
}

/// Whether a request waits to land in the namespace of a place in the table.
fn is_joined_in(stage: &Stage, place: usize) -> bool
    ensures { result ≡ joined_in place stage.now }
{
    match stage {
        Stage::Joined { space, .. } => *space == place,
        _ => false,
    }
}

/// Tells the commands of all requests that wait to land in the namespace of a place in the table
/// that it is gone.
pub fn dismiss(rows: &mut Vec<Row>, fanout: u32, space: usize)
    requires { 0 < fanout }
    ensures { AreDismissed fanout space rows.old.items rows.new.items }
{
    for i in 0..rows.len() {
        dismiss_row(&mut rows[i], fanout, space);
    }
}
