//! The open requests on contents, and their stages.
ghost use Rattle.std.specs.Prelude.{◌≡◌, ◌<◌, ◌&&◌, ◌||◌, ℕ, false, true, Some, IfSome, length, slice_index_or};
ghost use Rattle.std.specs.List.{list_any, position};
ghost use Rattle.kvs_rules.specs.Log.{same_command};
ghost use Rattle.kvs_content.specs.Agrees.{told_so};
ghost use Rattle.content_service.specs.Asks.{is_content};
ghost use Rattle.content_service.specs.Rows.{IsHanded, IsPut, ask_now, asked_of, is_due, is_held, is_held_stage, is_loading, is_loading_stage, loaded, flushed_stage, may_serve};

use fl_digest::BlobRef;
use kvs_content::{Answer, Flush, Load};
use kvs_rules::{KvsAnswer, KvsAsk};
use kvs_txn::By;
use lists::Bytes;
use std::mem::replace;

/// What a command asks of contents.
#[derive(Drop)]
pub enum ContentAsk {
    Store { bytes: Bytes },
    Load { reference: BlobRef },
    Flush,
    DropClean,
}

/// What has become of a request on contents.
#[derive(Drop)]
pub enum Stage {
    /// A request that its broker is to serve.
    Entered { ask: ContentAsk },
    /// A load that waits for its content.
    Loading,
    /// A flush that waits until its broker has nothing dirty.
    Flushing,
    /// An answer that waits to be taken.
    Held { answer: KvsAnswer },
}

/// An open request: its command, the command's broker, and its stage.
#[derive(Drop)]
pub struct Row {
    pub by: By,
    pub broker: u32,
    pub stage: Stage,
}

/// What is asked of contents.
pub fn content_ask(ask: KvsAsk) -> ContentAsk
    requires { is_content ask ≡ true }
    ensures { asked_of result ≡ ask }
{
    match ask {
        KvsAsk::Store { bytes } => ContentAsk::Store { bytes },
        KvsAsk::Load { reference } => ContentAsk::Load { reference },
        KvsAsk::Flush => ContentAsk::Flush,
        KvsAsk::DropClean => ContentAsk::DropClean,
        _ => unreachable!(),
    }
}

/// The answer to a load that finds bytes, or none.
pub fn told(bytes: Option<Bytes>) -> KvsAnswer
    ensures { result ≡ told_so bytes }
{
    match bytes {
        Some(bytes) => KvsAnswer::Blob(bytes),
        None => KvsAnswer::NoBlob,
    }
}

/// The stage of a load, by what it came to.
pub fn loaded(load: Load) -> Stage
    ensures { result ≡ loaded load }
{
    match load {
        Load::Waits => Stage::Loading,
        Load::Told(bytes) => Stage::Held {
            answer: told(bytes),
        },
    }
}

/// The stage of a flush, by what it is told now.
pub fn flushed(flush: Flush) -> Stage
    ensures { result ≡ flushed_stage flush }
{
    match flush {
        Flush::Waits => Stage::Flushing,
        Flush::Clashed(reference) => Stage::Held {
            answer: KvsAnswer::Clashed(reference),
        },
        Flush::Flushed => Stage::Held {
            answer: KvsAnswer::Flushed,
        },
    }
}

/// Whether a broker, which may have nothing dirty, can serve a request.
fn may_serve(row: &Row, broker: u32, flushed: bool) -> bool
    ensures { result ≡ may_serve broker flushed row.now }
{
    row.broker == broker
        && match &row.stage {
            Stage::Entered { .. } => true,
            Stage::Flushing => flushed,
            _ => false,
        }
}

/// Whether the answer of a command waits to be taken in a row.
fn is_held(row: &Row, by: By) -> bool
    ensures { result ≡ is_held by row.now }
{
    by.actor == row.by.actor
        && by.command == row.by.command
        && matches!(&row.stage, Stage::Held { .. })
}

/// Whether a row is of a load of a command that waits for its content.
fn is_loading(row: &Row, by: By) -> bool
    ensures { result ≡ is_loading by row.now }
{
    row.by.actor == by.actor && row.by.command == by.command && matches!(&row.stage, Stage::Loading)
}

/// The first request that a broker, which may have nothing dirty, can serve.
pub fn first_served(rows: &Vec<Row>, broker: u32, flushed: bool) -> Option<usize>
    ensures { result ≡ position (may_serve broker flushed) rows.now.items }
{
    rows.iter().position(|row| may_serve(row, broker, flushed))
}

/// Whether a broker, which may have nothing dirty, can serve a request.
pub fn is_served(rows: &Vec<Row>, broker: u32, flushed: bool) -> bool
    ensures { result ≡ list_any (may_serve broker flushed) rows.now.items }
{
    rows.iter().any(|row| may_serve(row, broker, flushed))
}

/// The place of the row of this command that holds its answer.
pub fn first_held(rows: &Vec<Row>, by: By) -> Option<usize>
    ensures { result ≡ position (is_held by) rows.now.items }
{
    rows.iter().position(|row| is_held(row, by))
}

/// Whether the answer of a command waits to be taken.
pub fn is_held_in(rows: &Vec<Row>, by: By) -> bool
    ensures { result ≡ list_any (is_held by) rows.now.items }
{
    rows.iter().any(|row| is_held(row, by))
}

/// Marks the actor of a request, if the answer of its command waits to be taken.
fn mark_row(row: &Row, commands: &[u32], marks: &mut [bool])
    requires { length commands.now ≡ length marks.old }
    ensures long { length marks.new ≡ length marks.old }
    ensures marked { (actor : ℕ) → actor < length marks.old → slice_index_or marks.new actor false
        ≡ (slice_index_or marks.old actor false || is_held
        (record { actor = actor; command = slice_index_or commands.now actor 0 }) row.now) }
{
    let actor = row.by.actor;
    let at = actor as usize;
    if at < marks.len() {
        let command = commands[at];
        if is_held(row, By { actor, command }) {
            marks[at] = true;
        }
    }
}

/// Marks, besides those that are marked, the actors whose answer waits to be taken, each to its
/// command of these.
pub fn mark_held(rows: &Vec<Row>, commands: &[u32], marks: &mut [bool])
    requires { length commands.now ≡ length marks.old }
    ensures long { length marks.new ≡ length marks.old }
    ensures marked { (actor : ℕ) → actor < length marks.old → slice_index_or marks.new actor false
        ≡ (slice_index_or marks.old actor false || list_any (is_held
        (record { actor = actor; command = slice_index_or commands.now actor 0 }))
        rows.now.items) }
{
    for i in 0..rows.len() {
        mark_row(&rows[i], commands, marks);
    }
}

fn first_loading(rows: &Vec<Row>, by: By) -> Option<usize>
    ensures { result ≡ position (is_loading by) rows.now.items }
{
    rows.iter().position(|row| is_loading(row, by))
}

/// Puts a request at another stage.
pub fn put_stage(rows: &mut Vec<Row>, i: usize, stage: Stage)
    requires { i < length rows.old.items }
    ensures { IsPut rows.old.items rows.new.items i stage }
{
    let row = &mut rows[i];
    row.stage = stage;
}

/// What is asked by a request at this stage, which can be served.
fn asked_at(stage: Stage) -> ContentAsk
    requires { is_due true stage ≡ true }
    ensures { ask_now true stage ≡ Some result }
{
    match stage {
        Stage::Entered { ask } => ask,
        Stage::Flushing => ContentAsk::Flush,
        _ => unreachable!(),
    }
}

/// Takes what is asked out of a request that can be served, and leaves the stage of a flush in its
/// place.
pub fn take_ask(rows: &mut Vec<Row>, i: usize) -> ContentAsk
    requires within { i < length rows.old.items }
    requires due { (d : Row) → is_due true (slice_index_or rows.old.items i d).stage ≡ true }
    ensures rows { IsPut rows.old.items rows.new.items i Stage.Flushing }
    ensures was { (d : Row)
        → ask_now true (slice_index_or rows.old.items i d).stage ≡ Some result }
{
    let row = &mut rows[i];
    let stage = replace(&mut row.stage, Stage::Flushing);
    asked_at(stage)
}

/// Tells a load that waits for its content what it is.
fn hand_to(rows: &mut Vec<Row>, answer: Answer)
    requires { list_any (is_loading answer.by) rows.old.items ≡ true }
    ensures { IsHanded (Some answer) rows.old.items rows.new.items }
{
    let Answer { by, bytes } = answer;
    match first_loading(rows, by) {
        Some(i) => {
            let answer = told(bytes);
            put_stage(rows, i, Stage::Held { answer });
        }
        None => unreachable!(),
    }
}

/// Tells the load that a delivery answers, if it answers one.
pub fn hand(rows: &mut Vec<Row>, answer: Option<Answer>)
    requires { IfSome answer (λ told. list_any (is_loading told.by) rows.old.items ≡ true) }
    ensures { IsHanded answer rows.old.items rows.new.items }
{
    if let Some(answer) = answer {
        hand_to(rows, answer);
    }
}
