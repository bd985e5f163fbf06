//! What a broker makes of a request on contents.
ghost use Rattle.std.specs.Prelude.{◌≡◌, ◌<◌, IfOk};
ghost use Rattle.kvs_content.specs.Sound.{IsSoundContent};
ghost use Rattle.kvs_content.specs.Value.{size_of};
ghost use Rattle.kvs_txn.specs.declared.txn.By.{By as Command};
ghost use Rattle.content_service.specs.Served.{IsServed};

use crate::rows::{ContentAsk, Stage, flushed, loaded};
use fl_digest::BlobRef;
use kvs_content::{Contents, KvsEvents, Loaded, Stored};
use kvs_rules::KvsAnswer;
use kvs_txn::By;
use lists::{Bytes, ListOf};
use std::alloc::{AllocError, Global};

/// The stage at which a request is once it was served, and what happened.
#[derive(Drop)]
pub struct Served {
    pub stage: Stage,
    pub events: KvsEvents,
}

/// Stores bytes at a broker, which answers at once. What is dirty goes up behind that.
fn store(contents: &mut Contents, broker: u32, bytes: Bytes) -> Result<Served, AllocError>
    requires sound { IsSoundContent contents.old }
    requires within { broker < size_of contents.old }
    ensures { IfOk result (λ made. (by : Command)
        → IsServed contents.old contents.new by broker (ContentAsk.Store bytes) made) }
{
    let Stored { reference, events } = contents.store(broker, bytes)?;
    let answer = KvsAnswer::Stored(reference);
    let stage = Stage::Held { answer };
    Ok(Served { stage, events })
}

/// Loads a content for a command, which waits where its broker has none.
fn load(
    contents: &mut Contents,
    by: By,
    broker: u32,
    reference: BlobRef,
) -> Result<Served, AllocError>
    requires sound { IsSoundContent contents.old }
    requires within { broker < size_of contents.old }
    ensures { IfOk result
        (IsServed contents.old contents.new by broker (ContentAsk.Load reference)) }
{
    let Loaded { load, events } = contents.load(by, broker, reference)?;
    let stage = loaded(load);
    Ok(Served { stage, events })
}

/// Answers a flush where its broker has nothing dirty, and else lets it wait.
fn flush(contents: &mut Contents, alloc: Global, broker: u32) -> Served
    requires sound { IsSoundContent contents.old }
    requires within { broker < size_of contents.old }
    ensures { (by : Command)
        → IsServed contents.old contents.new by broker ContentAsk.Flush result }
{
    let stage = flushed(contents.flush(broker));
    let events = ListOf::new(alloc);
    Served { stage, events }
}

/// Drops the clean contents of a broker.
fn drop_clean(contents: &mut Contents, broker: u32) -> Result<Served, AllocError>
    requires sound { IsSoundContent contents.old }
    requires within { broker < size_of contents.old }
    ensures { IfOk result (λ made. (by : Command)
        → IsServed contents.old contents.new by broker ContentAsk.DropClean made) }
{
    let events = contents.drop_clean(broker)?;
    let stage = Stage::Held {
        answer: KvsAnswer::Dropped,
    };
    Ok(Served { stage, events })
}

/// Serves what a command asks at a broker.
pub fn serve(
    contents: &mut Contents,
    alloc: Global,
    by: By,
    broker: u32,
    ask: ContentAsk,
) -> Result<Served, AllocError>
    requires sound { IsSoundContent contents.old }
    requires within { broker < size_of contents.old }
    ensures { IfOk result (IsServed contents.old contents.new by broker ask) }
{
    match ask {
        ContentAsk::Store { bytes } => store(contents, broker, bytes),
        ContentAsk::Load { reference } => load(contents, by, broker, reference),
        ContentAsk::Flush => Ok(flush(contents, alloc, broker)),
        ContentAsk::DropClean => drop_clean(contents, broker),
    }
}
