//! What rank 0 does with a request that has come to it.
ghost use Rattle.std.specs.Prelude.{◌≡◌, ◌-◌, ◌<◌, length, true, false, Some, None, slice_index_or, IfOk, OnOk, OnErr};
ghost use Rattle.kvs_rules.specs.Log.{Log};
ghost use Rattle.kvs_rules.specs.Namespaces.{Setting as Service, most_live};
ghost use Rattle.kvs_requests.specs.Stages.{kind_of, kept_count};
ghost use Rattle.kvs_keys.specs.Agrees.{Agrees};
ghost use Rattle.kvs_requests.specs.Agreement.{MayTell};
ghost use Rattle.kvs_space.specs.Space.{SpaceValue, live_in};
ghost use Rattle.kvs_requests.specs.Refused.{IsTurnedAway};
ghost use Rattle.kvs_keys.specs.Makes.{HasArrived, IsFor, IsForNew, IsLiving, IsOfKind, Makes, Moves};

use super::{Keys, KeysFault};
use fence_merge::Member;
use kvs_requests::{
    Entrant, Kind, Row, Stage, Work, dismiss, falling, kept_count, kind_of, put_stage, send_back,
    take_entrant,
};
use kvs_rules::{KvsAnswer, KvsStep};
use kvs_space::{KvsEvents, Space, changing, count_live, let_rest};
use kvs_txn::By;
use lists::{Copied, ListOf};

/// The most namespaces that live at a time, `primary` included.
const MOST_LIVE: usize = 16;

/// The most namespaces that an instance ever opens: each has a number of 32 bits.
const MOST_SPACES: usize = u32::MAX as usize;

impl Keys {
    /// Lets a commit or a member of a fence that has come to rank 0 wait to land in the namespace
    /// of this place in the table.
    fn admit(&mut self, i: usize, k: usize) -> Result<(), KeysFault>
        requires ready { self.old.spent ≡ false }
        requires within { i < length self.old.rows }
        requires arrived { HasArrived self.old i }
        requires found { IsFor self.old i k }
        requires asked { IsOfKind self.old i Kind.Land }
        requires living { IsLiving self.old k }
        requires same { (d : Row) (e : SpaceValue)
            → kept_count (slice_index_or self.old.spaces k e)
            (slice_index_or self.old.rows i d).stage ≡ None }
        ensures moves { OnOk result (Moves (KvsStep.Serve 0) self.old self.new) }
        ensures spent { OnErr result (self.new.spent ≡ true) }
    {
        self.spent = true;
        let By { actor, command } = self.rows[i].by;
        let entrant = take_entrant(&mut self.rows, i, k);
        let space = &mut self.spaces[k];
        match entrant {
            Entrant::Commit { txn } => {
                space.push(Member {
                    actor,
                    command,
                    txn,
                })?;
                self.spent = false;
                Ok(())
            }
            Entrant::Member { name, count, txn } => {
                space.join(
                    &name,
                    count,
                    Member {
                        actor,
                        command,
                        txn,
                    },
                )?;
                self.spent = false;
                Ok(())
            }
        }
    }

    /// Tells the command of a request that has come to rank 0 an answer without a number.
    fn turn_away(&mut self, i: usize, given: KvsAnswer) -> Result<(), KeysFault>
        requires ready { self.old.spent ≡ false }
        requires within { i < length self.old.rows }
        requires arrived { HasArrived self.old i }
        requires fits { (set : Service) (log : Log) (a : Agrees self.old set log) (d : Row)
            → MayTell a.entered set log (slice_index_or self.old.rows i d).by None given }
        ensures turned { OnOk result
            (IsTurnedAway self.old.fanout i given self.old.rows self.new.rows) }
        ensures moves { OnOk result (Moves (KvsStep.Serve 0) self.old self.new) }
        ensures spent { OnErr result (self.new.spent ≡ true) }
    {
        let home = self.rows[i].broker;
        let stage = falling(self.fanout, 0, home, given);
        put_stage(&mut self.rows, i, stage);
        Ok(())
    }

    /// Lets a transaction that has come to rank 0 wait in the namespace of this place in the table.
    /// Where that was removed, or the open fence that it would join has another count, its command
    /// is told so.
    fn enter(&mut self, i: usize, k: usize) -> Result<(), KeysFault>
        requires ready { self.old.spent ≡ false }
        requires within { i < length self.old.rows }
        requires arrived { HasArrived self.old i }
        requires found { IsFor self.old i k }
        requires asked { IsOfKind self.old i Kind.Land }
        ensures moves { OnOk result (Moves (KvsStep.Serve 0) self.old self.new) }
        ensures spent { OnErr result (self.new.spent ≡ true) }
    {
        if self.spaces[k].is_removed() {
            return self.turn_away(i, KvsAnswer::NoNamespace);
        }
        match kept_count(&self.rows[i], &self.spaces[k]) {
            Some(kept) => self.turn_away(i, KvsAnswer::CountDiffers { kept }),
            None => self.admit(i, k),
        }
    }

    /// Sends a request that has come to rank 0 back to its broker, to wait there for the namespace
    /// of this place.
    fn give_back(&mut self, i: usize, k: usize) -> Result<(), KeysFault>
        requires ready { self.old.spent ≡ false }
        requires within { i < length self.old.rows }
        requires arrived { HasArrived self.old i }
        requires found { IsFor self.old i k }
        requires asked { IsOfKind self.old i Kind.Look }
        ensures moves { OnOk result (Moves (KvsStep.Serve 0) self.old self.new) }
        ensures spent { OnErr result (self.new.spent ≡ true) }
    {
        send_back(&mut self.rows, i, self.fanout, k);
        Ok(())
    }

    /// Opens the namespace that a request at rank 0 asks for.
    fn open(&mut self, i: usize) -> Result<KvsEvents, KeysFault>
        requires ready { self.old.spent ≡ false }
        requires within { i < length self.old.rows }
        requires arrived { HasArrived self.old i }
        requires new { IsForNew self.old i }
        requires asked { IsOfKind self.old i Kind.Create }
        requires room { live_in self.old.spaces < most_live }
        ensures makes { IfOk result (Makes (KvsStep.Serve 0) self.old self.new) }
        ensures spent { OnErr result (self.new.spent ≡ true) }
    {
        self.spent = true;
        let k = self.spaces.len();
        if MOST_SPACES <= k {
            return Err(KeysFault::NoMemory);
        }
        let by = self.rows[i].by;
        let name = self.rows[i].namespace.copy()?;
        let space = Space::opened(self.alloc, name, self.size, self.fanout)?;
        let events = changing(self.alloc, space.name(), 0, by)?;
        self.roll.enter(self.alloc, space.name())?;
        self.spaces.push(space)?;
        put_stage(
            &mut self.rows,
            i,
            Stage::Landed {
                space: k,
                number: 0,
                work: Work::Create,
            },
        );
        self.spent = false;
        Ok(events)
    }

    /// Removes the namespace of this place in the table, as a request at rank 0 asks. What waits to
    /// land there is told so.
    fn remove(&mut self, i: usize, k: usize) -> Result<KvsEvents, KeysFault>
        requires ready { self.old.spent ≡ false }
        requires within { i < length self.old.rows }
        requires arrived { HasArrived self.old i }
        requires found { IsFor self.old i k }
        requires asked { IsOfKind self.old i Kind.Remove }
        requires other { 0 < k }
        requires living { IsLiving self.old k }
        ensures makes { IfOk result (Makes (KvsStep.Serve 0) self.old self.new) }
        ensures spent { OnErr result (self.new.spent ≡ true) }
    {
        self.spent = true;
        let by = self.rows[i].by;
        let space = &mut self.spaces[k];
        let number = space.remove(self.alloc, self.fanout)?;
        let events = changing(self.alloc, space.name(), number, by)?;
        let_rest(&mut self.roll, &self.spaces, k);
        dismiss(&mut self.rows, self.fanout, k);
        put_stage(
            &mut self.rows,
            i,
            Stage::Landed {
                space: k,
                number,
                work: Work::Remove,
            },
        );
        self.spent = false;
        Ok(events)
    }

    /// Takes up a request that has come to rank 0 for a namespace that was never opened.
    fn take_up_new(&mut self, i: usize) -> Result<KvsEvents, KeysFault>
        requires ready { self.old.spent ≡ false }
        requires within { i < length self.old.rows }
        requires arrived { HasArrived self.old i }
        requires new { IsForNew self.old i }
        ensures makes { IfOk result (Makes (KvsStep.Serve 0) self.old self.new) }
        ensures spent { OnErr result (self.new.spent ≡ true) }
    {
        match kind_of(&self.rows[i]) {
            Kind::Create => {
                if count_live(&self.roll, &self.spaces) < MOST_LIVE {
                    return self.open(i);
                }
                self.turn_away(i, KvsAnswer::TooMany)?;
            }
            Kind::Land | Kind::Look | Kind::Remove => {
                self.turn_away(i, KvsAnswer::NoNamespace)?;
            }
        }
        Ok(ListOf::new(self.alloc))
    }

    /// Takes up a removal that has come to rank 0 for the namespace of this place in the table.
    fn take_up_removal(&mut self, i: usize, k: usize) -> Result<KvsEvents, KeysFault>
        requires ready { self.old.spent ≡ false }
        requires within { i < length self.old.rows }
        requires arrived { HasArrived self.old i }
        requires found { IsFor self.old i k }
        requires asked { IsOfKind self.old i Kind.Remove }
        ensures makes { IfOk result (Makes (KvsStep.Serve 0) self.old self.new) }
        ensures spent { OnErr result (self.new.spent ≡ true) }
    {
        let removed = self.spaces[k].is_removed();
        if k == 0 {
            self.turn_away(i, KvsAnswer::IsPrimary)?;
        } else if removed {
            self.turn_away(i, KvsAnswer::NoNamespace)?;
        } else {
            return self.remove(i, k);
        }
        Ok(ListOf::new(self.alloc))
    }

    /// Takes up a request that has come to rank 0 for the namespace of this place in the table.
    fn take_up_in(&mut self, i: usize, k: usize) -> Result<KvsEvents, KeysFault>
        requires ready { self.old.spent ≡ false }
        requires within { i < length self.old.rows }
        requires arrived { HasArrived self.old i }
        requires found { IsFor self.old i k }
        ensures makes { IfOk result (Makes (KvsStep.Serve 0) self.old self.new) }
        ensures spent { OnErr result (self.new.spent ≡ true) }
    {
        match kind_of(&self.rows[i]) {
            Kind::Land => self.enter(i, k)?,
            Kind::Look => self.give_back(i, k)?,
            Kind::Create => self.turn_away(i, KvsAnswer::Exists)?,
            Kind::Remove => return self.take_up_removal(i, k),
        }
        Ok(ListOf::new(self.alloc))
    }

    /// Takes up a request that has come to rank 0.
    pub(super) fn take_up(&mut self, i: usize) -> Result<KvsEvents, KeysFault>
        requires ready { self.old.spent ≡ false }
        requires within { i < length self.old.rows }
        requires arrived { HasArrived self.old i }
        ensures makes { IfOk result (Makes (KvsStep.Serve 0) self.old self.new) }
        ensures spent { OnErr result (self.new.spent ≡ true) }
    {
        match self.roll.find(&self.rows[i].namespace) {
            Some(k) => self.take_up_in(i, k),
            None => self.take_up_new(i),
        }
    }
}
