//! A story of commands on contents at four brokers, with the answers that are known from the texts
//! that were stored.
ghost use Rattle.std.specs.Prelude.{◌≡◌, ◌<◌, false, true, IfOk, OnOk};
ghost use Rattle.content_service.specs.Asks.{is_content};

use crate::contents::{SHARED, Text, bytes_of};
use content_service::ContentService;
use fl_digest::{BlobRef, Hash};
use kvs_rules::{KvsAnswer, KvsAsk, KvsStep};
use kvs_txn::By;
use std::alloc::{AllocError, Global};
use std::process::Abort;
use std::test::Fail;

const SIZE: u32 = 4;

const FANOUT: u32 = 2;

/// What a command asks.
#[derive(Clone, Copy)]
enum What {
    Store(Text),
    Load(Text),
    Flush,
    Drop,
}

fn ask_of(alloc: Global, what: What) -> Result<KvsAsk, AllocError>
    ensures { IfOk result (λ ask. is_content ask ≡ true) }
{
    match what {
        What::Store(text) => {
            let bytes = bytes_of(alloc, text)?;
            Ok(KvsAsk::Store { bytes })
        }
        What::Load(text) => {
            let bytes = bytes_of(alloc, text)?;
            let reference = BlobRef::of(Hash::Sha1, bytes.as_slice());
            Ok(KvsAsk::Load { reference })
        }
        What::Flush => Ok(KvsAsk::Flush),
        What::Drop => Ok(KvsAsk::DropClean),
    }
}

/// What is told of a reference.
fn named(alloc: Global, word: &str, reference: BlobRef) -> Result<String, Fail> {
    let name = reference.print(alloc)?;
    let text = std::str::from_utf8(name.as_slice())
        .ok()
        .unwrap_or("not UTF-8");
    Ok(format!(in alloc; "{word} {text}")?)
}

/// An answer's text. A long content is told by its first byte in which One and Other differ.
fn words_of(alloc: Global, answer: KvsAnswer) -> Result<String, Fail> {
    match answer {
        KvsAnswer::Stored(reference) => named(alloc, "stored", reference),
        KvsAnswer::Clashed(reference) => named(alloc, "clashed", reference),
        KvsAnswer::Blob(bytes) => {
            let word = match bytes.as_slice().get(SHARED.len()).copied() {
                None => "short",
                Some(127) => "one",
                Some(_) => "other",
            };
            Ok(format!(in alloc; "blob {word} {}", bytes.as_slice().len())?)
        }
        KvsAnswer::NoBlob => Ok(format!(in alloc; "NoBlob")?),
        KvsAnswer::Flushed => Ok(format!(in alloc; "flushed")?),
        KvsAnswer::Dropped => Ok(format!(in alloc; "dropped")?),
        _ => Ok(format!(in alloc; "other")?),
    }
}

/// The steps that the four brokers may make.
const STEPS: [KvsStep; 10] = [
    KvsStep::Deliver { from: 0, to: 1 },
    KvsStep::Deliver { from: 0, to: 2 },
    KvsStep::Deliver { from: 1, to: 0 },
    KvsStep::Deliver { from: 1, to: 3 },
    KvsStep::Deliver { from: 2, to: 0 },
    KvsStep::Deliver { from: 3, to: 1 },
    KvsStep::Serve { broker: 0 },
    KvsStep::Serve { broker: 1 },
    KvsStep::Serve { broker: 2 },
    KvsStep::Serve { broker: 3 },
];

/// Makes steps until none is left.
fn settle(service: &mut ContentService) -> Result<(), Fail>
    requires { service.old.spent ≡ false }
    ensures ready { OnOk result (service.new.spent ≡ false) }
    ensures size { OnOk result (service.new.size ≡ service.old.size) }
{
    'rounds: for _ in 0..20 {
        'steps: for step in &STEPS {
            if service.can(*step) {
                service.turn(*step)?;
            }
        }
    }
    Ok(())
}

/// The answer to a command, once nothing is left to do.
fn answer_to(
    service: &mut ContentService,
    alloc: Global,
    by: By,
    broker: u32,
    what: What,
) -> Result<String, Fail>
    requires ready { service.old.spent ≡ false }
    requires within { broker < service.old.size }
    ensures ready { OnOk result (service.new.spent ≡ false) }
    ensures size { OnOk result (service.new.size ≡ service.old.size) }
{
    let ask = ask_of(alloc, what)?;
    service.request(by, broker, ask)?;
    settle(service)?;
    if !service.can_take(by) {
        return Ok(format!(in alloc; "waits")?);
    }
    let answer = service.take(by);
    words_of(alloc, answer)
}

/// Each command, at its broker, with its answer.
const STORY: [(What, u32, &str); 18] = [
    (
        What::Store(Text::Abc),
        3,
        "stored sha1-a9993e364706816aba3e25717850c26c9cd0d89d",
    ),
    (
        What::Store(Text::Empty),
        3,
        "stored sha1-da39a3ee5e6b4b0d3255bfef95601890afd80709",
    ),
    (What::Load(Text::Foo), 3, "NoBlob"),
    (What::Flush, 3, "flushed"),
    (What::Drop, 3, "dropped"),
    (What::Load(Text::Abc), 3, "blob short 3"),
    (What::Load(Text::Empty), 2, "blob short 0"),
    (What::Drop, 0, "dropped"),
    (What::Load(Text::Abc), 0, "blob short 3"),
    (
        What::Store(Text::One),
        0,
        "stored sha1-f92d74e3874587aaf443d1db961d4e26dde13e9c",
    ),
    (
        What::Store(Text::Other),
        3,
        "stored sha1-f92d74e3874587aaf443d1db961d4e26dde13e9c",
    ),
    (
        What::Flush,
        3,
        "clashed sha1-f92d74e3874587aaf443d1db961d4e26dde13e9c",
    ),
    (What::Flush, 3, "flushed"),
    (What::Load(Text::Other), 3, "blob one 320"),
    (What::Flush, 2, "flushed"),
    (What::Drop, 3, "dropped"),
    (What::Load(Text::Foo), 0, "NoBlob"),
    (What::Flush, 0, "flushed"),
];

#[test]
fn commands_on_contents_are_answered(rt: HostRuntime) -> Result<(), Fail> {
    let alloc = rt.alloc();
    let mut service = ContentService::new(alloc, SIZE, FANOUT, Hash::Sha1)?;
    let mut command = 0;
    'commands: for (what, broker, wanted) in &STORY {
        assert!(&rt; *broker < SIZE);
        let by = By { actor: 0, command };
        let told = answer_to(&mut service, alloc, by, *broker, *what)?;
        assert_eq!(&rt; told.as_str(), *wanted);
        command = command.saturating_add(1);
    }
    Ok(())
}
