//! A keeper in memory.
ghost use Rattle.std.specs.Prelude.{◌≡◌, ◌≢◌, [], ◌∷◌, IfErr, IfNone, IfOk, IfSome, OnErr, OnOk, Some, option_copied};
ghost use Rattle.backing.specs.Calls.{ClashesWith, HandsOther, HasKeepCause, IsNoClash, RefusesWith};
ghost use Rattle.outside.specs.Doubles.{one_more};
ghost use Rattle.backing.specs.Memory.{Fails, after_call, fails_next, new_kept};
ghost use Rattle.backing.specs.Writes.{HasOther, blob_in, check_in, with_write};

use crate::keeper::{KeepFault, Keeper};
use crate::{Check, Write};
use fl_digest::BlobRef;
use lists::{Bytes, Copied, ListOf};
use std::marker::Model;

/// A keeper in memory, which tells its writes and fails at the calls listed, counted from 0.
#[derive(Drop)]
pub struct MemKeeper {
    writes: ListOf<Write>,
    fails: Vec<u64>,
    calls: u64,
    faults: u64,
}

impl Model for MemKeeper {
    ghost use Rattle.backing.specs.Memory.{Kept};

    ghost Value = { Kept };

    ghost view = { λ k. record {
      writes = k.writes;
      fails = k.fails.items;
      calls = k.calls;
      faults = k.faults;
    } };
}

/// The bytes that were first put under a reference.
fn blob_of<'a>(writes: &'a [Write], reference: &BlobRef) -> Option<&'a Bytes>
    ensures { option_copied result ≡ blob_in reference.now writes.now }
{
    for write in writes {
        if let Write::Put(other, bytes) = write
            && *reference == *other
        {
            return Some(bytes);
        }
    }
    None
}

/// The check that was marked last.
fn last_check(writes: &[Write]) -> Option<Check>
    ensures { result ≡ check_in writes.now }
{
    let mut last = None;
    for write in writes {
        match write {
            Write::Put(_, _) => {}
            Write::Mark(check) => last = Some(*check),
        }
    }
    last
}

/// The bytes that are kept under a reference, where they aren't these.
fn other_blob<'a>(writes: &'a [Write], reference: &BlobRef, bytes: &Bytes) -> Option<&'a Bytes>
    ensures other { IfSome result (λ kept. (blob_in reference.now writes.now ≡ Some kept.now)
        × (kept.now ≢ bytes.now)) }
    ensures none { IfNone result (HasOther writes.now reference.now bytes.now → ⊥) }
{
    match blob_of(writes, reference) {
        Some(kept) if *kept != *bytes => Some(kept),
        _ => None,
    }
}

impl MemKeeper {
    /// A keeper of these writes. It takes no memory.
    pub fn new(writes: Vec<Write>, fails: Vec<u64>) -> MemKeeper
        ensures { result ≡ new_kept writes.items fails.items }
    {
        MemKeeper {
            writes: ListOf::from_vec(writes),
            fails,
            calls: 0,
            faults: 0,
        }
    }

    /// What was written, in order. It takes no memory.
    pub fn writes(&self) -> &[Write]
        ensures { result.now ≡ self.now.writes }
    {
        self.writes.as_slice()
    }

    /// Counts a call, and answers whether it is listed.
    fn count(&mut self) -> bool
        ensures listed { result ≡ fails_next self.old }
        ensures after { self.new ≡ record self.old { calls = one_more self.old.calls } }
    {
        let call = self.calls;
        self.calls = call.saturating_add(1);
        self.fails.contains(&call)
    }

    /// A fault, which is counted.
    fn failed(&mut self) -> KeepFault
        ensures fault { result ≡ KeepFault.Failed }
        ensures counted { RefusesWith self.old.faults self.new.faults result }
        ensures after { self.new ≡ record self.old { faults = one_more self.old.faults } }
    {
        self.faults = self.faults.saturating_add(1);
        KeepFault::Failed
    }
}

impl Keeper for MemKeeper {
    ghost told = { λ k. Some k.writes };

    ghost faults = { λ k. k.faults };

    /// A clash is answered at the calls listed too.
    fn put(&mut self, reference: BlobRef, bytes: &Bytes) -> Result<(), KeepFault>
        ensures written { OnOk result (Some self.new.writes
            ≡ with_write (Write.Put reference bytes.now) (Some self.old.writes)) }
        ensures kept { OnErr result (Some self.new.writes ≡ Some self.old.writes) }
        ensures cause { HasKeepCause self.old.faults self.new.faults result }
        ensures other { IfErr result (HandsOther bytes.now) }
        ensures clash { ClashesWith self.old.writes reference bytes.now result }
        ensures fails { Fails self.old (HasOther self.old.writes reference bytes.now → ⊥) result }
        ensures after { self.new ≡ after_call self.old (Write.Put reference bytes.now ∷ []) result }
    {
        let fails = self.count();
        if let Some(kept) = other_blob(self.writes.as_slice(), &reference, bytes) {
            return Err(KeepFault::Clash(kept.copy()?));
        }
        if fails {
            return Err(self.failed());
        }
        let write = Write::Put(reference, bytes.copy()?);
        self.writes.push(write)?;
        Ok(())
    }

    fn get(&mut self, reference: &BlobRef) -> Result<Option<Bytes>, KeepFault>
        ensures kept { Some self.new.writes ≡ Some self.old.writes }
        ensures cause { HasKeepCause self.old.faults self.new.faults result }
        ensures no_clash { IfErr result IsNoClash }
        ensures found { IfOk result (λ found. found ≡ blob_in reference.now self.old.writes) }
        ensures fails { Fails self.old (Unit {0}) result }
        ensures after { self.new ≡ after_call self.old [] result }
    {
        if self.count() {
            return Err(self.failed());
        }
        match blob_of(self.writes.as_slice(), reference) {
            Some(bytes) => Ok(Some(bytes.copy()?)),
            None => Ok(None),
        }
    }

    fn mark(&mut self, check: Check) -> Result<(), KeepFault>
        ensures written { OnOk result (Some self.new.writes
            ≡ with_write (Write.Mark check) (Some self.old.writes)) }
        ensures kept { OnErr result (Some self.new.writes ≡ Some self.old.writes) }
        ensures cause { HasKeepCause self.old.faults self.new.faults result }
        ensures no_clash { IfErr result IsNoClash }
        ensures fails { Fails self.old (Unit {0}) result }
        ensures after { self.new ≡ after_call self.old (Write.Mark check ∷ []) result }
    {
        if self.count() {
            return Err(self.failed());
        }
        self.writes.push(Write::Mark(check))?;
        Ok(())
    }

    fn last(&mut self) -> Result<Option<Check>, KeepFault>
        ensures kept { Some self.new.writes ≡ Some self.old.writes }
        ensures cause { HasKeepCause self.old.faults self.new.faults result }
        ensures no_clash { IfErr result IsNoClash }
        ensures found { IfOk result (λ found. found ≡ check_in self.old.writes) }
        ensures fails { Fails self.old (Unit {0}) result }
        ensures after { self.new ≡ after_call self.old [] result }
    {
        if self.count() {
            return Err(self.failed());
        }
        Ok(last_check(self.writes.as_slice()))
    }
}
