//! The content of a run: one content under each reference.
#![tactic(auto)]

ghost use Rattle.std.specs.Prelude.{◌≡◌, ◌↔◌, [], None, IfErr, OnOk, OnErr, length, option_copied, slice_get};
ghost use Rattle.std.specs.Option.{option_map};
ghost use Rattle.blob_store.specs.Blobs.{blob_at, stored, handed_back, lent, IsClash, HasOther, StandOnce};

use fl_digest::BlobRef;
use indexmap::IndexMap;
use lists::Bytes;
use std::alloc::Global;
use std::marker::Model;

/// Why bytes weren't put. It hands them back.
#[derive(Drop)]
pub enum PutFault {
    NoMemory(Bytes),
    /// Other bytes stand under the reference, and stay.
    Clash(Bytes),
}

/// A content with its reference.
#[derive(Clone, Copy)]
pub struct BlobPair<'a> {
    pub reference: BlobRef,
    pub bytes: &'a Bytes,
}

/// The contents with their references, which contracts see as a list of pairs in the order of their
/// first puts.
#[derive(Drop)]
pub struct BlobStore {
    blobs: IndexMap<BlobRef, Bytes>,
}

impl Model for BlobStore {
    ghost use Rattle.std.specs.Prelude.{List, ℕ};
    ghost use Rattle.fl_digest.specs.declared.BlobRef.{BlobRef};

    ghost Value = { List (BlobRef × List ℕ) };

    ghost view = { λ s. s.blobs.entries };
}

impl BlobStore {
    /// The store without contents.
    pub fn new(alloc: Global) -> Self
        ensures { result ≡ [] }
    {
        BlobStore {
            blobs: IndexMap::new(alloc),
        }
    }

    /// Keeps bytes under a reference. The same bytes are kept once, and other bytes are refused.
    pub fn put(&mut self, reference: BlobRef, bytes: Bytes) -> Result<(), PutFault>
        ensures stored { OnOk result (self.new ≡ stored self.old reference bytes) }
        ensures kept { OnErr result (self.new ≡ self.old) }
        ensures back { IfErr result (λ fault. handed_back fault ≡ bytes) }
        ensures clash { IsClash result ↔ HasOther self.old reference bytes }
    {
        match self.blobs.get(&reference) {
            Some(kept) if *kept == bytes => Ok(()),
            Some(_) => Err(PutFault::Clash(bytes)),
            None => self.add(reference, bytes),
        }
    }

    /// Keeps bytes under a reference that is new.
    fn add(&mut self, reference: BlobRef, bytes: Bytes) -> Result<(), PutFault>
        requires { blob_at reference self.old ≡ None }
        ensures stored { OnOk result (self.new ≡ stored self.old reference bytes) }
        ensures kept { OnErr result (self.new ≡ self.old) }
        ensures memory { IfErr result (λ fault. fault ≡ PutFault.NoMemory bytes) }
    {
        match self.blobs.insert(reference, bytes) {
            Ok(_) => Ok(()),
            Err(refused) => Err(PutFault::NoMemory(refused.value.1)),
        }
    }

    /// The bytes under a reference. It takes no memory.
    pub fn get(&self, reference: &BlobRef) -> Option<&Bytes>
        ensures { option_copied result ≡ blob_at reference.now self.now }
    {
        self.blobs.get(reference)
    }

    /// How many contents there are, each under a reference of its own. It takes no memory.
    pub fn len(&self) -> usize
        ensures count { result ≡ length self.now }
        ensures once { StandOnce self.now }
    {
        self.blobs.len()
    }

    /// The content at a place, counted from 0 in the order of first puts. It takes no memory.
    pub fn nth(&self, place: usize) -> Option<BlobPair<'_>>
        ensures { option_map lent result ≡ slice_get self.now place }
    {
        let (reference, bytes) = self.blobs.get_index(place)?;
        Some(BlobPair {
            reference: *reference,
            bytes,
        })
    }
}
