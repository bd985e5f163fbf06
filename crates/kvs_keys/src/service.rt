//! The service of keys of one instance.
ghost use Rattle.std.specs.Prelude.{◌≡◌, ℕ, ◌+◌, ◌-◌, ◌<◌, ◌⊎◌, length, ◌≤◌, ◌++◌, ◌||◌, true, false, [], ◌∷◌, Option, Some, None, slice_get, slice_index_or, IsSome, IfOk, IfSome, OnOk, OnErr};
ghost use Rattle.std.specs.List.{list_any};
ghost use Rattle.std.specs.Option.{option_copied, option_map_or};
ghost use Rattle.kvs_rules.specs.Log.{Log, Asked, Happened, IsOpen, is_asked};
ghost use Rattle.kvs_model.specs.Store.{Name, Store as Contents, node_at};
ghost use Rattle.plain_store.specs.Values.{value_in};
ghost use Rattle.kvs_model.specs.History.{after, first_store};
ghost use Rattle.kvs_txn.specs.declared.txn.Scope.TheVariants.{Primary};
ghost use Rattle.kvs_model.specs.OneStore.{own_walk};
ghost use Rattle.kvs_rules.specs.OneStore.{AsksOwn};
ghost use Rattle.kvs_txn.specs.declared.answers.Query.TheVariants as query;
ghost use Rattle.kvs_rules.specs.Namespaces.{Setting as Service, fresh, is_live, landed, primary, newest_store, store_after};
ghost use Rattle.kvs_rules.specs.Answers.{IsLegalAnswer};
ghost use Rattle.kvs_rules.specs.Brokers.{heard, parent};
ghost use Rattle.kvs_rules.specs.Quiet.{IsQuiet};
ghost use Rattle.kvs_rules.specs.declared.events.KvsEvent.TheVariants as event;
ghost use Rattle.kvs_keys.specs.Value.{KeysValue};
ghost use Rattle.kvs_keys.specs.Steps.{can_step, can_take, is_announced, IsStill};
ghost use Rattle.kvs_requests.specs.Stages.{is_on, is_arrived, is_held_stage, may_serve};
ghost use Rattle.kvs_keys.specs.Agrees.{Agrees};
ghost use Rattle.kvs_keys.specs.Posted.{CanPost, IsNewPost, newest_of, post_of, posted};
ghost use Rattle.kvs_space.specs.Space.{known_at};
ghost use Rattle.kvs_keys.specs.Order.{possible};
ghost use Rattle.kvs_keys.specs.Seen.{primary_heard, root_of, store_at};
ghost use Rattle.kvs_requests.specs.Refused.{IsCarried, IsEntered, IsTaken};
ghost use Rattle.kvs_rules.specs.declared.events.KvsAnswer.TheVariants as answer;
ghost use Rattle.kvs_keys.specs.Requests.{AsksAtRest, IsKnown, IsMade, IfAsked, MayPost, posts_asked};
ghost use Rattle.kvs_requests.specs.Rows.{IsKnownAsk, asks_contents};
ghost use Rattle.kvs_txn.specs.declared.txn.By.{By as Waiter};
ghost use Rattle.kvs_keys.specs.Histories.{Extends, history_of};
ghost use Rattle.kvs_keys.specs.Makes.{Makes, Moves};

mod losses;
mod rank;
mod walk;

use crate::order::first_delivery;
use fl_digest::Hash;
use kvs_requests::{
    Row, Stage, awaited, carry, entry, first_held, first_served, give, is_arrived, is_carried,
    is_held_in, is_served, mark_held, place_of, refuse, settle,
};
use kvs_rules::{KvsAnswer, KvsAsk, KvsStep};
use kvs_space::{
    KvsEvents, Loss, Rise, Roll, Ruling, Space, SpaceFault, denial, find_known, first_landing,
    first_news, hearing, is_landing, is_news, landing, let_rest, number_of,
};
use kvs_txn::{AuthorList, By, Found, Group, Path, Query, Txn};
use lists::{Bytes, Copied, ListOf};
use std::alloc::{AllocError, AllocFailed, Global};
use std::marker::Model;
use thiserror::Error;

/// The broker tree of an instance, and the hash by which it names content.
#[derive(Clone, Copy, Debug, PartialEq, Eq, Drop)]
pub struct Setting {
    pub size: u32,
    pub fanout: u32,
    pub hash: Hash,
}

/// What is asked of the service: by an actor's command, or by the job manager.
#[derive(Drop)]
pub enum Request {
    Command {
        by: By,
        namespace: Bytes,
        floor: u64,
        ask: KvsAsk,
    },
    Manager {
        command: Option<By>,
        txn: Txn,
    },
}

/// An answer that was taken, with the number of its root where it has one.
#[derive(Drop)]
pub struct Held {
    pub number: Option<u64>,
    pub answer: KvsAnswer,
}

/// Why a service of keys gives no answer. It is then spent.
#[derive(Clone, Copy, Debug, PartialEq, Eq, Error)]
pub enum KeysFault {
    #[error("no memory")]
    NoMemory,
}

impl From<AllocError> for KeysFault {
    ghost use Rattle.std.specs.Prelude.{◌≡◌};
    ghost use Rattle.kvs_keys.specs.declared.service.KeysFault.TheVariants.{NoMemory};

    ghost from_gives = { λ _ e. e ≡ NoMemory };

    fn from(_: AllocError) -> Self {
        KeysFault::NoMemory
    }
}

impl<T: Drop> From<AllocFailed<T>> for KeysFault {
    ghost use Rattle.std.specs.Prelude.{◌≡◌};
    ghost use Rattle.kvs_keys.specs.declared.service.KeysFault.TheVariants.{NoMemory};

    ghost from_gives = { λ _ e. e ≡ NoMemory };

    fn from(_: AllocFailed<T>) -> Self {
        KeysFault::NoMemory
    }
}

impl From<SpaceFault> for KeysFault {
    ghost use Rattle.std.specs.Prelude.{◌≡◌};
    ghost use Rattle.kvs_keys.specs.declared.service.KeysFault.TheVariants.{NoMemory};

    ghost from_gives = { λ _ e. e ≡ NoMemory };

    fn from(_: SpaceFault) -> Self {
        KeysFault::NoMemory
    }
}

/// The key-value service of one instance.
#[derive(Drop)]
pub struct Keys {
    alloc: Global,
    spent: bool,
    size: u32,
    fanout: u32,
    grant: Bytes,
    spaces: Vec<Space>,
    roll: Roll,
    rows: Vec<Row>,
}

impl Model for Keys {
    ghost use Rattle.kvs_keys.specs.Value.{KeysValue};

    ghost Value = { KeysValue };

    ghost use Rattle.kvs_keys.specs.View.{value_of, IsSoundInside};

    ghost view = { value_of };

    ghost invariant = { IsSoundInside };
}

/// The answer of a request that waits to be taken.
fn held_of(stage: Stage) -> Held
    requires { is_held_stage stage ≡ true }
    ensures { stage ≡ Stage.Held result.number result.answer }
{
    match stage {
        Stage::Held { number, answer } => Held { number, answer },
        _ => unreachable!(),
    }
}

/// The job manager's transaction, with the command for which it is made, if there is one.
fn group_of(alloc: Global, command: Option<By>, txn: Txn) -> Result<Group, AllocError>
    ensures { IfOk result (λ group. group ≡ post_of command txn) }
{
    let mut authors = AuthorList::new(alloc);
    if let Some(by) = command {
        authors.push(by)?;
    }
    Ok(Group { txn, authors })
}

/// The number that a broker has heard of the namespace of a place in the table, or 0.
fn heard_at(spaces: &Vec<Space>, place: Option<usize>, broker: u32) -> u64
    ensures { result ≡ option_map_or (λ k. known_at spaces.now.items k broker - 1) place 0 }
{
    match place {
        Some(k) => match spaces.get(k) {
            Some(space) => space.known(broker).saturating_sub(1),
            None => 0,
        },
        None => 0,
    }
}

impl Keys {
    /// An instance whose brokers have heard of nothing, with the grant's text in its first store.
    pub fn new(alloc: Global, setting: Setting, grant: &Bytes) -> Result<Keys, KeysFault>
        requires size { (1 ≤ setting.size) × (setting.size ≤ 32) }
        requires fanout { (1 ≤ setting.fanout) × (setting.fanout ≤ 32) }
        ensures ready { IfOk result (λ keys. keys.spent ≡ false) }
        ensures size { IfOk result (λ keys. keys.size ≡ setting.size) }
        ensures fanout { IfOk result (λ keys. keys.fanout ≡ setting.fanout) }
        ensures posted { IfOk result (λ keys. posted keys ≡ []) }
        ensures newest { IfOk result (λ keys. newest_of keys ≡ first_store grant.now) }
        ensures unlanded { IfOk result (λ keys. history_of keys ≡ []) }
        ensures grant { IfOk result (λ keys. keys.grant ≡ grant.now) }
        ensures agrees { IfOk result (λ keys. (set : Service) → set.size ≡ setting.size
            → set.fanout ≡ setting.fanout → set.base ≡ fresh grant.now → AsksOwn set
            → Agrees keys set []) }
    {
        let mut spaces = Vec::new(alloc);
        spaces.push(Space::primary(alloc, setting.size, grant)?)?;
        let mut roll = Roll::new(alloc);
        roll.enter(alloc, spaces[0].name())?;
        Ok(Keys {
            alloc,
            spent: false,
            size: setting.size,
            fanout: setting.fanout,
            grant: grant.copy()?,
            spaces,
            roll,
            rows: Vec::new(alloc),
        })
    }

    /// Takes what a command asks that has asked nothing before.
    fn command(
        &mut self,
        by: By,
        broker: u32,
        namespace: Bytes,
        floor: u64,
        ask: KvsAsk,
    ) -> Result<(), AllocError>
        requires ready { self.old.spent ≡ false }
        requires within { broker < self.old.size }
        requires known { IsKnownAsk ask }
        ensures ready { OnOk result (self.new.spent ≡ false) }
        ensures entered { OnOk result
            (IsEntered self.old.fanout by broker namespace ask self.old.rows self.new.rows) }
        ensures size { OnOk result (self.new.size ≡ self.old.size) }
        ensures posted { OnOk result (posted self.new ≡ posted self.old) }
        ensures extends { OnOk result (Extends self.old self.new []) }
        ensures spent { OnErr result (self.new.spent ≡ true) }
        ensures agrees { OnOk result ((set : Service) (log : Log) → Agrees self.old set log
            → set.asks by ≡ Some (record { broker = broker; namespace = namespace; ask = ask })
            → (floors : Name → ℕ) → floors namespace ≡ floor
            → is_asked by log ≡ false → AsksAtRest set self.old
            → Agrees self.new set (log ++ Asked by floors ∷ [])) }
    {
        self.spent = true;
        let place = find_known(&self.roll, &self.spaces, &namespace, broker);
        let heard = heard_at(&self.spaces, place, broker);
        let need = floor.max(heard).max(awaited(&ask));
        let stage = entry(ask, place, self.fanout, broker);
        self.rows.push(Row {
            by,
            broker,
            namespace,
            need,
            stage,
        })?;
        self.spent = false;
        Ok(())
    }

    /// Takes a transaction of the job manager, made for a command or for none. It lands behind
    /// those that were taken before it, and is never refused.
    pub fn post(&mut self, command: Option<By>, txn: Txn) -> Result<(), AllocError>
        requires ready { self.old.spent ≡ false }
        requires can { CanPost self.old command txn }
        ensures ready { OnOk result (self.new.spent ≡ false) }
        ensures size { OnOk result (self.new.size ≡ self.old.size) }
        ensures spent { OnErr result (self.new.spent ≡ true) }
        ensures posted { OnOk result (posted self.new
            ≡ posted self.old ++ post_of command txn ∷ []) }
        ensures extends { OnOk result (Extends self.old self.new []) }
        ensures agrees { OnOk result ((set : Service) (log : Log) → Agrees self.old set log
            → IsNewPost self.old set log command → Agrees self.new set log) }
    {
        self.spent = true;
        let group = group_of(self.alloc, command, txn)?;
        let space = &mut self.spaces[0];
        space.post(group)?;
        self.spent = false;
        Ok(())
    }

    /// Takes a request: of a command that has asked nothing before, or of the job manager, which no
    /// broker sees. After an error the service of keys is spent.
    pub fn request(&mut self, broker: u32, request: Request) -> Result<(), AllocError>
        requires ready { self.old.spent ≡ false }
        requires within { broker < self.old.size }
        requires known { IsKnown request }
        requires may { MayPost self.old request }
        ensures ready { OnOk result (self.new.spent ≡ false) }
        ensures size { OnOk result (self.new.size ≡ self.old.size) }
        ensures posted { OnOk result (posted self.new ≡ posted self.old ++ posts_asked request) }
        ensures extends { OnOk result (Extends self.old self.new []) }
        ensures spent { OnErr result (self.new.spent ≡ true) }
        ensures agrees { OnOk result ((set : Service) (log : Log) → Agrees self.old set log
            → IsMade set broker request
            → IfAsked self.old set log request (λ later. Agrees self.new set later)) }
    {
        match request {
            Request::Command {
                by,
                namespace,
                floor,
                ask,
            } => self.command(by, broker, namespace, floor, ask),
            Request::Manager { command, txn } => self.post(command, txn),
        }
    }

    /// Whether an announcement is on the way between two brokers.
    fn is_announced(&self, from: u32, to: u32) -> bool
        requires { self.now.spent ≡ false }
        ensures { result ≡ is_announced self.now from to }
    {
        to > 0
            && to < self.size
            && (to - 1) / self.fanout == from
            && is_news(&self.roll, &self.spaces, to)
    }

    /// Whether a step can be made.
    pub fn can(&self, step: KvsStep) -> bool
        requires { self.now.spent ≡ false }
        ensures { result ≡ can_step self.now step }
    {
        match step {
            KvsStep::Deliver { from, to } => {
                self.is_announced(from, to) || is_carried(&self.rows, from, to)
            }
            KvsStep::Land { namespace } => is_landing(&self.spaces, namespace),
            KvsStep::Serve { broker } => {
                broker < self.size && is_served(&self.rows, &self.spaces, broker)
            }
            KvsStep::Lose { from, to } => self.is_announced(from, to),
            KvsStep::Repeat { from, to } => self.is_announced(from, to),
            KvsStep::Swap { from, to } => self.is_announced(from, to),
            KvsStep::Resync { broker } => self.has_missed(broker),
        }
    }

    /// The first broker that can answer a request.
    fn first_answer(&self) -> Option<u32>
        requires { self.now.spent ≡ false }
        ensures some { IfSome result (λ broker. can_step self.now (KvsStep.Serve broker) ≡ true) }
        ensures first { IfSome result (λ broker. (lower : ℕ) → lower < broker
            → can_step self.now (KvsStep.Serve lower) ≡ false) }
        ensures none { result ≡ None → (broker : ℕ)
            → can_step self.now (KvsStep.Serve broker) ≡ false }
    {
        for broker in 0..self.size {
            if self.can(KvsStep::Serve { broker }) {
                return Some(broker);
            }
        }
        None
    }

    /// The first namespace in which something is ready to land.
    fn first_landing(&self) -> Option<u32>
        requires { self.now.spent ≡ false }
        ensures some { IfSome result (λ number. can_step self.now (KvsStep.Land number) ≡ true) }
        ensures first { IfSome result (λ number. (lower : ℕ) → lower < number
            → can_step self.now (KvsStep.Land lower) ≡ false) }
        ensures none { result ≡ None → (number : ℕ)
            → can_step self.now (KvsStep.Land number) ≡ false }
    {
        match first_landing(&self.roll, &self.spaces) {
            Some(place) => Some(place as u32),
            None => None,
        }
    }

    /// The first broker that has missed an announcement.
    fn first_resync(&self) -> Option<u32>
        requires { self.now.spent ≡ false }
        ensures some { IfSome result (λ broker. can_step self.now (KvsStep.Resync broker) ≡ true) }
        ensures first { IfSome result (λ broker. (lower : ℕ) → lower < broker
            → can_step self.now (KvsStep.Resync lower) ≡ false) }
        ensures none { result ≡ None → (broker : ℕ)
            → can_step self.now (KvsStep.Resync broker) ≡ false }
    {
        for broker in 0..self.size {
            if self.can(KvsStep::Resync { broker }) {
                return Some(broker);
            }
        }
        None
    }

    /// The first step that can be made, but for losses: a delivery by sender and receiver, then an
    /// answer by broker, then a landing, then a resync.
    pub fn next(&self) -> Option<KvsStep>
        requires { self.now.spent ≡ false }
        ensures first { result ≡ slice_get (possible self.now) 0 }
        ensures some { IfSome result (λ step. can_step self.now step ≡ true) }
        ensures none { result ≡ None → (step : KvsStep) → can_step self.now step ≡ false }
    {
        if let Some(hop) = first_delivery(
            &self.roll,
            &self.spaces,
            &self.rows,
            self.fanout,
            self.size,
        ) {
            return Some(KvsStep::Deliver {
                from: hop.from,
                to: hop.to,
            });
        }
        if let Some(broker) = self.first_answer() {
            return Some(KvsStep::Serve { broker });
        }
        if let Some(namespace) = self.first_landing() {
            return Some(KvsStep::Land { namespace });
        }
        if let Some(broker) = self.first_resync() {
            return Some(KvsStep::Resync { broker });
        }
        None
    }

    /// Delivers the oldest announcement on the way to a broker.
    fn deliver_number(&mut self, from: u32, to: u32) -> Result<KvsEvents, KeysFault>
        requires ready { self.old.spent ≡ false }
        requires can { is_announced self.old from to ≡ true }
        ensures makes { IfOk result (Makes (KvsStep.Deliver from to) self.old self.new) }
        ensures spent { OnErr result (self.new.spent ≡ true) }
    {
        match first_news(&self.roll, &self.spaces, to) {
            Some(k) => {
                self.spent = true;
                let space = &mut self.spaces[k];
                let Rise { before, after } = space.deliver(self.fanout, to)?;
                let events = hearing(self.alloc, to, space.name(), before, after)?;
                let_rest(&mut self.roll, &self.spaces, k);
                self.spent = false;
                Ok(events)
            }
            None => unreachable!(),
        }
    }

    /// Moves the oldest message on a link on.
    fn deliver_message(&mut self, from: u32, to: u32)
        requires ready { self.old.spent ≡ false }
        requires can { list_any (is_on from to) self.old.rows ≡ true }
        ensures carried { IsCarried self.old.fanout from to self.old.rows self.new.rows }
        ensures moves { Moves (KvsStep.Deliver from to) self.old self.new }
    {
        let fanout = self.fanout;
        carry(&mut self.rows, fanout, from, to);
    }

    /// Lands what is ready in a namespace, or refuses the oldest transaction there.
    fn land(&mut self, number: u32) -> Result<KvsEvents, KeysFault>
        requires ready { self.old.spent ≡ false }
        requires can { can_step self.old (KvsStep.Land number) ≡ true }
        ensures makes { IfOk result (Makes (KvsStep.Land number) self.old self.new) }
        ensures spent { OnErr result (self.new.spent ≡ true) }
    {
        self.spent = true;
        let alloc = self.alloc;
        let fanout = self.fanout;
        let space = &mut self.spaces[number as usize];
        match space.rule(alloc, fanout)? {
            Ruling::Landed {
                number: root,
                groups,
            } => {
                settle(&mut self.rows, &groups, number as usize, root);
                let events = landing(alloc, space.name(), root, groups)?;
                self.spent = false;
                Ok(events)
            }
            Ruling::Denied { group, refusal } => {
                refuse(&mut self.rows, fanout, &group.authors, refusal);
                let events = denial(alloc, space.name(), group, refusal)?;
                self.spent = false;
                Ok(events)
            }
        }
    }

    /// Makes the answer of a request that its broker can answer.
    fn answer(&mut self, i: usize, broker: u32) -> Result<(), KeysFault>
        requires ready { self.old.spent ≡ false }
        requires broker { broker < self.old.size }
        requires within { i < length self.old.rows }
        requires waits { (d : Row) → is_arrived (slice_index_or self.old.rows i d) ≡ false }
        requires can { (d : Row)
            → may_serve self.old.spaces broker (slice_index_or self.old.rows i d) ≡ true }
        ensures moves { OnOk result (Moves (KvsStep.Serve broker) self.old self.new) }
        ensures spent { OnErr result (self.new.spent ≡ true) }
    {
        self.spent = true;
        let space = &self.spaces[place_of(&self.rows[i])];
        let ended = space.has_heard_end(broker);
        give(
            &mut self.rows,
            i,
            space.known(broker),
            ended,
            space.store(broker),
        )?;
        self.spent = false;
        Ok(())
    }

    /// Makes the answer of the oldest request at a broker that it can answer; rank 0 also takes up
    /// what has come to it.
    fn serve(&mut self, broker: u32) -> Result<KvsEvents, KeysFault>
        requires ready { self.old.spent ≡ false }
        requires can { can_step self.old (KvsStep.Serve broker) ≡ true }
        ensures makes { IfOk result (Makes (KvsStep.Serve broker) self.old self.new) }
        ensures spent { OnErr result (self.new.spent ≡ true) }
    {
        match first_served(&self.rows, &self.spaces, broker) {
            Some(i) => {
                if is_arrived(&self.rows[i]) {
                    self.take_up(i)
                } else {
                    self.answer(i, broker)?;
                    Ok(ListOf::new(self.alloc))
                }
            }
            None => unreachable!(),
        }
    }

    /// Makes a step, and tells what happened. After an error the service of keys is spent.
    pub fn turn(&mut self, step: KvsStep) -> Result<KvsEvents, KeysFault>
        requires ready { self.old.spent ≡ false }
        requires can { can_step self.old step ≡ true }
        ensures makes { IfOk result (Makes step self.old self.new) }
        ensures spent { OnErr result (self.new.spent ≡ true) }
    {
        match step {
            KvsStep::Deliver { from, to } => {
                if self.is_announced(from, to) {
                    self.deliver_number(from, to)
                } else {
                    self.deliver_message(from, to);
                    Ok(ListOf::new(self.alloc))
                }
            }
            KvsStep::Land { namespace } => self.land(namespace),
            KvsStep::Serve { broker } => self.serve(broker),
            KvsStep::Lose { from, to } => self.lose(Loss::Lost, from, to),
            KvsStep::Repeat { from, to } => self.lose(Loss::Repeated, from, to),
            KvsStep::Swap { from, to } => self.lose(Loss::Swapped, from, to),
            KvsStep::Resync { broker } => self.resync(broker),
        }
    }

    /// Whether a command's answer waits to be taken.
    pub fn can_take(&self, by: By) -> bool
        requires { self.now.spent ≡ false }
        ensures { result ≡ can_take self.now by }
    {
        is_held_in(&self.rows, by)
    }

    /// Marks, besides those that are marked, the actors whose answer waits to be taken, each to its
    /// command of these. This passes over the requests once, however many actors there are.
    pub fn mark_held(&self, commands: &[u32], marks: &mut [bool])
        requires ready { self.now.spent ≡ false }
        requires long { length commands.now ≡ length marks.old }
        ensures long { length marks.new ≡ length marks.old }
        ensures marked { (actor : ℕ) → actor < length marks.old
            → slice_index_or marks.new actor false
            ≡ (slice_index_or marks.old actor false || can_take self.now
            (record { actor = actor; command = slice_index_or commands.now actor 0 })) }
    {
        mark_held(&self.rows, commands, marks);
    }

    /// Takes a command's answer, which its actor is then told. This takes no memory.
    pub fn take(&mut self, by: By) -> Held
        requires ready { self.old.spent ≡ false }
        requires can { can_take self.old by ≡ true }
        ensures ready { self.new.spent ≡ false }
        ensures size { self.new.size ≡ self.old.size }
        ensures taken { IsTaken by self.old.rows self.new.rows }
        ensures posted { posted self.new ≡ posted self.old }
        ensures extends { Extends self.old self.new [] }
        ensures legal { (set : Service) (log : Log) → Agrees self.old set log
            → IsLegalAnswer set log by result.number result.answer }
        ensures agrees { (set : Service) (log : Log) → Agrees self.old set log
            → Agrees self.new set (log ++ Happened
            (event.Answered by result.number result.answer) ∷ []) }
    {
        match first_held(&self.rows, by) {
            Some(i) => {
                let row = self.rows.remove(i);
                held_of(row.stage)
            }
            None => unreachable!(),
        }
    }

    /// The number that a broker has heard of a namespace, if any.
    pub fn heard(&self, broker: u32, namespace: &Bytes) -> Option<u64>
        requires ready { self.now.spent ≡ false }
        requires within { broker < self.now.size }
        ensures { (set : Service) (log : Log) → Agrees self.now set log
            → result ≡ heard log broker namespace.now }
    {
        match self.roll.find(namespace) {
            Some(k) => number_of(self.spaces[k].known(broker)),
            None => None,
        }
    }

    /// The number that a broker has heard of `primary`.
    pub fn heard_primary(&self, broker: u32) -> u64
        requires { self.now.spent ≡ false }
        ensures { result ≡ primary_heard self.now broker }
    {
        self.spaces[0].known(broker).saturating_sub(1)
    }

    /// How many namespaces were opened, with `primary`.
    pub fn namespaces(&self) -> u32
        requires { self.now.spent ≡ false }
        ensures { result ≡ length self.now.spaces }
    {
        self.spaces.len() as u32
    }

    /// What a reader finds at a path in the store of `primary` after all its landings so far.
    pub fn newest(&self, path: &Path) -> Result<Found, AllocError>
        requires { self.now.spent ≡ false }
        ensures { IfOk result (λ found. (set : Service) (log : Log) → Agrees self.now set log
            → (st : Contents) × (newest_store set log primary ≡ Some st)
            × (own_walk st query.Get path.now ≡ found)) }
    {
        self.spaces[0].store(0).look(Query::Get, path)
    }

    /// The value at a path in the store of `primary` that a broker has: that after the landings that
    /// it has heard of. No link is followed.
    pub fn kept(&self, broker: u32, path: &Path) -> Option<&Bytes>
        requires ready { self.now.spent ≡ false }
        requires within { broker < self.now.size }
        ensures { (st : Contents) × (store_at self.now broker ≡ Some st)
            × (option_copied result ≡ value_in (node_at st path.now)) }
    {
        self.spaces[0].store(broker).value(path)
    }

    /// Where no step can be made, no transaction of the job manager waits; which store the next one
    /// finds: that after all landings of `primary`; which stores stand at its roots; and which
    /// number each broker has heard of `primary`, rank 0 that of the last landing.
    pub fn standing(&self)
        requires { self.now.spent ≡ false }
        ensures landed { IsStill self.now → posted self.now ≡ [] }
        ensures kept { after Primary (history_of self.now) (length (history_of self.now))
            (first_store self.now.grant) ≡ Some (newest_of self.now) }
        ensures newest { (set : Service) (log : Log) → Agrees self.now set log
            → newest_store set log primary ≡ Some (newest_of self.now) }
        ensures roots { (set : Service) (log : Log) → Agrees self.now set log → (number : ℕ)
            → store_after set log primary number ≡ root_of self.now number }
        ensures heard { (set : Service) (log : Log) → Agrees self.now set log → (broker : ℕ)
            → broker < self.now.size
            → heard log broker primary ≡ Some (primary_heard self.now broker) }
        ensures last { (set : Service) (log : Log) → Agrees self.now set log
            → landed log primary ≡ primary_heard self.now 0 }
    {
        let _ = &self.spent;
    }

    /// A message goes from a broker to the one above it, or to one below it.
    pub fn links(&self)
        requires { self.now.spent ≡ false }
        ensures { (from to : ℕ) → can_step self.now (KvsStep.Deliver from to) ≡ true
            → (from < self.now.size) × ((to ≡ parent self.now.fanout from)
            ⊎ ((0 < to) × (to < self.now.size) × (parent self.now.fanout to ≡ from))) }
    {
        let _ = &self.spent;
    }

    /// Where no step can be made and no answer waits, each broker has heard the last landing and of
    /// each live namespace, and a command waits for a number that hasn't landed, or for members of
    /// a fence that haven't come; commands that ask about contents are another's.
    pub fn still(&self)
        requires { self.now.spent ≡ false }
        ensures quiet { (set : Service) (log : Log) → Agrees self.now set log → IsStill self.now
            → ((by : Waiter) → IsOpen by log → asks_contents set by ≡ false) → IsQuiet set log }
        ensures heard { (set : Service) (log : Log) → Agrees self.now set log → IsStill self.now
            → (broker : ℕ) (space : Name) → broker < set.size → is_live log space ≡ true
            → IsSome (heard log broker space) }
    {
        let _ = &self.spent;
    }
}
