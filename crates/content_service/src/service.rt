//! The content service.
ghost use Rattle.std.specs.Prelude.{◌≡◌, ◌<◌, ◌≤◌, ◌⊎◌, ◌++◌, ◌||◌, ◌∷◌, [], true, false, ℕ, Some, None, length, slice_index_or, IfOk, OnOk, OnErr};
ghost use Rattle.std.specs.List.{list_any, position, remove};
ghost use Rattle.kvs_model.specs.Store.{Name};
ghost use Rattle.kvs_rules.specs.Log.{Log, Asked, Happened, IsOpen, is_asked};
ghost use Rattle.kvs_rules.specs.Brokers.{parent};
ghost use Rattle.kvs_rules.specs.Namespaces.{Setting};
ghost use Rattle.kvs_rules.specs.Answers.{IsLegalAnswer};
ghost use Rattle.kvs_rules.specs.declared.events.KvsEvent.TheVariants as event;
ghost use Rattle.kvs_txn.specs.declared.txn.By.{By as Command};
ghost use Rattle.kvs_content.specs.Steps.{can_deliver};
ghost use Rattle.kvs_content.specs.Value.{size_of};
ghost use Rattle.content_service.specs.Asks.{asks_content, is_content};
ghost use Rattle.content_service.specs.Agrees.{AgreesService};
ghost use Rattle.content_service.specs.Makes.{Makes};
ghost use Rattle.content_service.specs.Rows.{is_held, is_held_stage, may_serve};
ghost use Rattle.content_service.specs.Steps.{IsStill, can_step, can_take, is_flushed};

use crate::rows::{
    Row, Stage, content_ask, first_held, first_served, hand, is_held_in, is_served, mark_held,
    put_stage, take_ask,
};
use crate::serving::{Served, serve};
use fl_digest::Hash;
use kvs_content::{Contents, Delivery, KvsEvents};
use kvs_rules::{KvsAnswer, KvsAsk, KvsStep};
use kvs_txn::By;
use std::alloc::{AllocError, Global};
use std::marker::Model;

/// The contents of one instance, and the requests on them that aren't answered.
#[derive(Drop)]
pub struct ContentService {
    alloc: Global,
    spent: bool,
    size: u32,
    contents: Contents,
    rows: Vec<Row>,
}

impl Model for ContentService {
    ghost use Rattle.content_service.specs.Value.{ContentServiceValue};

    ghost Value = { ContentServiceValue };

    ghost use Rattle.content_service.specs.View.{value_of, IsSoundInside};

    ghost view = { value_of };

    ghost invariant = { IsSoundInside };
}

/// The answer of a request that waits to be taken.
fn answer_of(stage: Stage) -> KvsAnswer
    requires { is_held_stage stage ≡ true }
    ensures { stage ≡ Stage.Held result }
{
    match stage {
        Stage::Held { answer } => answer,
        _ => unreachable!(),
    }
}

/// Whether a broker has nothing dirty.
fn has_flushed(contents: &Contents, broker: u32) -> bool
    requires { broker < size_of contents.now }
    ensures { result ≡ is_flushed contents.now broker }
{
    contents.is_flushed(broker)
}

impl ContentService {
    /// The service of an instance of so many brokers that has no contents.
    pub fn new(
        alloc: Global,
        size: u32,
        fanout: u32,
        hash: Hash,
    ) -> Result<ContentService, AllocError>
        requires size { 1 ≤ size }
        requires fanout { 1 ≤ fanout }
        ensures ready { IfOk result (λ service. service.spent ≡ false) }
        ensures size { IfOk result (λ service. service.size ≡ size) }
        ensures fanout { IfOk result (λ service. service.content.fanout ≡ fanout) }
        ensures agrees { IfOk result (λ service. (set : Setting) → set.size ≡ size
            → set.fanout ≡ fanout → set.hash ≡ hash → AgreesService service set []) }
    {
        let contents = Contents::new(alloc, size, fanout, hash)?;
        Ok(ContentService {
            alloc,
            spent: false,
            size,
            contents,
            rows: Vec::new(alloc),
        })
    }

    /// Takes what a command asks of contents that has asked nothing before. After an error the
    /// service is spent.
    pub fn request(&mut self, by: By, broker: u32, ask: KvsAsk) -> Result<(), AllocError>
        requires ready { self.old.spent ≡ false }
        requires within { broker < self.old.size }
        requires known { is_content ask ≡ true }
        ensures ready { OnOk result (self.new.spent ≡ false) }
        ensures size { OnOk result (self.new.size ≡ self.old.size) }
        ensures fanout { OnOk result (self.new.content.fanout ≡ self.old.content.fanout) }
        ensures spent { OnErr result (self.new.spent ≡ true) }
        ensures agrees { OnOk result ((set : Setting) (log : Log) (space : Name)
            (floors : Name → ℕ)
            → AgreesService self.old set log
            → set.asks by ≡ Some (record { broker = broker; namespace = space; ask = ask })
            → is_asked by log ≡ false
            → AgreesService self.new set (log ++ Asked by floors ∷ [])) }
    {
        self.spent = true;
        let stage = Stage::Entered {
            ask: content_ask(ask),
        };
        self.rows.push(Row { by, broker, stage })?;
        self.spent = false;
        Ok(())
    }

    /// Whether a step can be made.
    pub fn can(&self, step: KvsStep) -> bool
        requires { self.now.spent ≡ false }
        ensures { result ≡ can_step self.now step }
    {
        match step {
            KvsStep::Deliver { from, to } => self.contents.can_deliver(from, to),
            KvsStep::Serve { broker } => {
                broker < self.size
                    && is_served(&self.rows, broker, has_flushed(&self.contents, broker))
            }
            KvsStep::Land { .. }
            | KvsStep::Lose { .. }
            | KvsStep::Repeat { .. }
            | KvsStep::Swap { .. }
            | KvsStep::Resync { .. } => false,
        }
    }

    /// Whether nothing is asked and no message is on any link, so that no step can be made.
    pub fn is_idle(&self) -> bool
        requires { self.now.spent ≡ false }
        ensures { result ≡ true → (step : KvsStep) → can_step self.now step ≡ false }
    {
        self.rows.is_empty() && self.contents.is_idle()
    }

    /// A message goes from a broker to the one above it, or to one below it.
    pub fn links(&self)
        requires { self.now.spent ≡ false }
        ensures { (from to : ℕ) → can_step self.now (KvsStep.Deliver from to) ≡ true
            → (from < self.now.size) × ((to ≡ parent self.now.content.fanout from)
            ⊎ ((0 < to) × (to < self.now.size) × (parent self.now.content.fanout to ≡ from))) }
    {
        self.contents.links();
    }

    /// Delivers the oldest message on a link. The load that it answers is told.
    fn deliver(&mut self, from: u32, to: u32) -> Result<KvsEvents, AllocError>
        requires ready { self.old.spent ≡ false }
        requires can { can_deliver self.old.content from to ≡ true }
        ensures makes { IfOk result (Makes (KvsStep.Deliver from to) self.old self.new) }
        ensures spent { OnErr result (self.new.spent ≡ true) }
    {
        self.spent = true;
        let Delivery { answer, events } = self.contents.deliver(from, to)?;
        hand(&mut self.rows, answer);
        self.spent = false;
        Ok(events)
    }

    /// Serves the request of a place in the rows at its broker.
    fn serve_row(&mut self, i: usize, broker: u32) -> Result<KvsEvents, AllocError>
        requires ready { self.old.spent ≡ false }
        requires broker { broker < self.old.size }
        requires within { i < length self.old.rows }
        requires can { (d : Row) → may_serve broker (is_flushed self.old.content broker)
            (slice_index_or self.old.rows i d) ≡ true }
        ensures makes { IfOk result (Makes (KvsStep.Serve broker) self.old self.new) }
        ensures spent { OnErr result (self.new.spent ≡ true) }
    {
        self.spent = true;
        let by = self.rows[i].by;
        let ask = take_ask(&mut self.rows, i);
        let Served { stage, events } = serve(&mut self.contents, self.alloc, by, broker, ask)?;
        put_stage(&mut self.rows, i, stage);
        self.spent = false;
        Ok(events)
    }

    /// Serves the oldest request at a broker that it can serve.
    fn serve(&mut self, broker: u32) -> Result<KvsEvents, AllocError>
        requires ready { self.old.spent ≡ false }
        requires can { can_step self.old (KvsStep.Serve broker) ≡ true }
        ensures makes { IfOk result (Makes (KvsStep.Serve broker) self.old self.new) }
        ensures spent { OnErr result (self.new.spent ≡ true) }
    {
        let flushed = has_flushed(&self.contents, broker);
        match first_served(&self.rows, broker, flushed) {
            Some(i) => self.serve_row(i, broker),
            None => unreachable!(),
        }
    }

    /// Makes a step, and tells what happened. After an error the service is spent.
    pub fn turn(&mut self, step: KvsStep) -> Result<KvsEvents, AllocError>
        requires ready { self.old.spent ≡ false }
        requires can { can_step self.old step ≡ true }
        ensures makes { IfOk result (Makes step self.old self.new) }
        ensures spent { OnErr result (self.new.spent ≡ true) }
    {
        match step {
            KvsStep::Deliver { from, to } => self.deliver(from, to),
            KvsStep::Serve { broker } => self.serve(broker),
            KvsStep::Land { .. }
            | KvsStep::Lose { .. }
            | KvsStep::Repeat { .. }
            | KvsStep::Swap { .. }
            | KvsStep::Resync { .. } => unreachable!(),
        }
    }

    /// Whether a command's answer waits to be taken.
    pub fn can_take(&self, by: By) -> bool
        requires { self.now.spent ≡ false }
        ensures { result ≡ can_take self.now by }
    {
        is_held_in(&self.rows, by)
    }

    /// Marks, besides those that are marked, the actors whose answer waits to be taken, each to its
    /// command of these. This passes over the requests once, however many actors there are.
    pub fn mark_held(&self, commands: &[u32], marks: &mut [bool])
        requires ready { self.now.spent ≡ false }
        requires long { length commands.now ≡ length marks.old }
        ensures long { length marks.new ≡ length marks.old }
        ensures marked { (actor : ℕ) → actor < length marks.old
            → slice_index_or marks.new actor false
            ≡ (slice_index_or marks.old actor false || can_take self.now
            (record { actor = actor; command = slice_index_or commands.now actor 0 })) }
    {
        mark_held(&self.rows, commands, marks);
    }

    /// Takes a command's answer, which its actor is then told. This takes no memory.
    pub fn take(&mut self, by: By) -> KvsAnswer
        requires ready { self.old.spent ≡ false }
        requires can { can_take self.old by ≡ true }
        ensures ready { self.new.spent ≡ false }
        ensures size { self.new.size ≡ self.old.size }
        ensures fanout { self.new.content.fanout ≡ self.old.content.fanout }
        ensures legal { (set : Setting) (log : Log) → AgreesService self.old set log
            → IsLegalAnswer set log by None result }
        ensures agrees { (set : Setting) (log : Log) → AgreesService self.old set log
            → AgreesService self.new set (log ++ Happened (event.Answered by None result) ∷ []) }
    {
        match first_held(&self.rows, by) {
            Some(i) => {
                let row = self.rows.remove(i);
                answer_of(row.stage)
            }
            None => unreachable!(),
        }
    }

    /// Where no step can be made and no answer waits, no command waits for something of contents.
    pub fn still(&self)
        requires { self.now.spent ≡ false }
        ensures { (set : Setting) (log : Log) → AgreesService self.now set log → IsStill self.now
            → (by : Command) → asks_content set by ≡ true → IsOpen by log → ⊥ }
    {
        let _ = &self.spent;
    }
}
