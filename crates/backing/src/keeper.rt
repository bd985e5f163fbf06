//! What a keeper of contents and checks promises.
ghost use Rattle.std.specs.Prelude.{◌≡◌, ℕ, List, Option, Some, None, IfErr, IfOk, IfSome, OnErr, OnOk};
ghost use Rattle.backing.specs.Calls.{ClashesWith, HandsOther, HasKeepCause, IsNoClash};
ghost use Rattle.backing.specs.Writes.{blob_in, check_in, with_write};
ghost use Rattle.backing.specs.declared.keeper.KeepFault.TheVariants.{NoMemory};
ghost use Rattle.backing.specs.declared.Write.{Write as Written};

use crate::{Check, Write};
use fl_digest::BlobRef;
use lists::Bytes;
use std::alloc::AllocError;

/// Why a keeper refused.
#[derive(Drop)]
pub enum KeepFault {
    NoMemory,
    /// What it stands on failed, which it counted.
    Failed,
    /// Other bytes are kept under the reference, and stay: these.
    Clash(Bytes),
}

impl From<AllocError> for KeepFault {
    ghost from_gives = { λ _ e. e ≡ NoMemory };

    fn from(_: AllocError) -> Self {
        KeepFault::NoMemory
    }
}

/// The writes so far, where the keeper tells them, and a count of faults that never falls. After a
/// refusal the writes are as before.
pub trait Keeper {
    ghost told: { Self → Option (List Written) };

    ghost faults: { Self → ℕ };

    /// Keeps bytes under a reference.
    fn put(&mut self, reference: BlobRef, bytes: &Bytes) -> Result<(), KeepFault>
        ensures written { OnOk result
            (told self.new ≡ with_write (Write.Put reference bytes.now) (told self.old)) }
        ensures kept { OnErr result (told self.new ≡ told self.old) }
        ensures cause { HasKeepCause (faults self.old) (faults self.new) result }
        ensures other { IfErr result (HandsOther bytes.now) }
        ensures clash { IfSome (told self.old)
            (λ writes. ClashesWith writes reference bytes.now result) };

    /// The bytes that were first put under a reference, if there are any.
    fn get(&mut self, reference: &BlobRef) -> Result<Option<Bytes>, KeepFault>
        ensures kept { told self.new ≡ told self.old }
        ensures cause { HasKeepCause (faults self.old) (faults self.new) result }
        ensures no_clash { IfErr result IsNoClash }
        ensures found { IfSome (told self.old)
            (λ writes. IfOk result (λ found. found ≡ blob_in reference.now writes)) };

    /// Keeps a check as the last one.
    fn mark(&mut self, check: Check) -> Result<(), KeepFault>
        ensures written { OnOk result
            (told self.new ≡ with_write (Write.Mark check) (told self.old)) }
        ensures kept { OnErr result (told self.new ≡ told self.old) }
        ensures cause { HasKeepCause (faults self.old) (faults self.new) result }
        ensures no_clash { IfErr result IsNoClash };

    /// The check that was marked last, if there is one.
    fn last(&mut self) -> Result<Option<Check>, KeepFault>
        ensures kept { told self.new ≡ told self.old }
        ensures cause { HasKeepCause (faults self.old) (faults self.new) result }
        ensures no_clash { IfErr result IsNoClash }
        ensures found { IfSome (told self.old)
            (λ writes. IfOk result (λ found. found ≡ check_in writes)) };
}
