//! Words, keys and values that are drawn, and the landing of what was drawn.
ghost use Rattle.tree_rules.specs.Held.{IsRootIn};
ghost use Rattle.tree_store.specs.Landing.{table};

use blob_store::BlobStore;
use fl_digest::{BlobRef, Hash};
use kvs_txn::{Author, Op, Path, Scope, Target, Txn};
use lists::Bytes;
use rand_core::utils::NextWord;
use rand_pcg::Pcg32;
use std::alloc::Global;
use std::test::Fail;
use tree_store::{Kept, TreeFault, apply, apply_kept};

const SIZES: [usize; 6] = [0, 1, 30, 64, 65, 200];

/// A number below another.
pub(crate) fn word(draws: &mut Pcg32, below: usize) -> usize {
    draws.next_word() as usize % below.max(1)
}

/// One of the keys.
fn key(alloc: Global, draws: &mut Pcg32) -> Result<Path, Fail> {
    let number = word(draws, KEYS.len());
    let text = KEYS.get(number).ok_or("no key")?;
    Ok(Path::read(alloc, *text)?)
}

/// Bytes of one of the sizes.
pub(crate) fn value(alloc: Global, draws: &mut Pcg32) -> Result<Bytes, Fail> {
    let number = word(draws, SIZES.len());
    let size = *SIZES.get(number).ok_or("no size")?;
    let mut bytes = Bytes::new(alloc);
    for _ in 0..size {
        bytes.push((draws.next_word() % 256) as u8)?;
    }
    Ok(bytes)
}

/// The keys of drawn operations.
pub(crate) const KEYS: [&str; 21] = [
    "a",
    "b",
    "c",
    "job",
    "resource",
    "a.a",
    "a.b",
    "a.c",
    "b.a",
    "b.c",
    "c.a",
    "job.a",
    "a.a.a",
    "a.b.c",
    "b.b.b",
    "c.c.a",
    "a.b.c.d",
    "c.b.a.d",
    "resource.R",
    "resource.a.b",
    ".",
];

/// An operation at one of them.
fn operation(alloc: Global, draws: &mut Pcg32) -> Result<Op, Fail> {
    let path = key(alloc, draws)?;
    Ok(match word(draws, 10) {
        0 | 1 | 2 => Op::Put {
            path,
            bytes: value(alloc, draws)?,
        },
        3 | 4 => Op::Append {
            path,
            bytes: value(alloc, draws)?,
        },
        5 | 6 => Op::Unlink { path },
        7 => Op::Mkdir { path },
        _ => Op::Link {
            path,
            target: Target {
                path: key(alloc, draws)?,
                namespace: None,
            },
        },
    })
}

/// A transaction of one to four such operations, of the job manager or of a user.
pub(crate) fn transaction(alloc: Global, draws: &mut Pcg32) -> Result<Txn, Fail> {
    let author = match word(draws, 2) {
        0 => Author::Manager,
        _ => Author::User(7),
    };
    let mut txn = Txn::new(alloc, author);
    for _ in 0..=word(draws, 4) {
        txn.stage(operation(alloc, draws)?).ok().ok_or("full")?;
    }
    Ok(txn)
}

/// Does a transaction on the store of a root, which stays where there is no new one.
pub(crate) fn land(
    alloc: Global,
    blobs: &mut BlobStore,
    root: &mut BlobRef,
    txn: &Txn,
    scope: Scope,
    hash: Hash,
) -> Result<(), TreeFault>
    requires { IsRootIn hash (table blobs.old) root.old }
    ensures { IsRootIn hash (table blobs.new) root.new }
{
    let next = apply(alloc, blobs, root, txn, scope, hash)?;
    *root = next;
    Ok(())
}

/// The same with directories that stay decoded.
pub(crate) fn land_kept(
    alloc: Global,
    blobs: &mut BlobStore,
    kept: &mut Kept,
    root: &mut BlobRef,
    txn: &Txn,
    scope: Scope,
    hash: Hash,
) -> Result<(), TreeFault>
    requires { IsRootIn hash (table blobs.old) root.old }
    ensures { IsRootIn hash (table blobs.new) root.new }
{
    let next = apply_kept(alloc, blobs, kept, root, txn, scope, hash)?;
    *root = next;
    Ok(())
}
