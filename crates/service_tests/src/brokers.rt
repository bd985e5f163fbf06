//! What no command shows of a tree of brokers: transactions that land at once, announcements that are
//! lost, repeated or swapped, and the numbers of steps.
ghost use Rattle.std.specs.Prelude.{◌≡◌, ◌<◌, ◌≤◌, true, false, [], codes, length, IfOk, IfSome, OnOk};
ghost use Rattle.kvs_model.specs.History.{first_store};
ghost use Rattle.kvs_keys.specs.Posted.{newest_of, posted};
ghost use Rattle.kvs_keys.specs.Steps.{can_step};
ghost use Rattle.kvs_requests.specs.Rows.{IsKnownAsk};

use fl_digest::Hash;
use kvs_keys::{Keys, Request, Setting};
use kvs_rules::{KvsAnswer, KvsAsk, KvsEvent, KvsStep};
use kvs_txn::{Author, AuthorNames, By, Found, Op, Path, Txn};
use lists::{Bytes, ListOf};
use std::alloc::Global;
use std::test::Fail;

/// The keys that actors put and commit, each in its first command and at a broker.
type Posed = (u32, &'static str);

const ONE: [Posed; 1] = [(1, "a")];

const PAIR: [Posed; 2] = [(1, "a"), (2, "b")];

const THREE: [Posed; 3] = [(1, "a"), (2, "b"), (0, "c")];

/// Whether the job manager posts first, what is posed then, steps that are made as soon as each can
/// be, before all others, and what four brokers tell.
type Story = (bool, &'static [Posed], &'static [KvsStep], &'static str);

const STORIES: [Story; 7] = [
    // two commits that are ready land at once
    (
        false,
        &PAIR,
        &[],
        "landed 1 by 0 1, 0 heard 1, 1 heard 1, 2 heard 1, 3 heard 1, 0 committed 1, 1 committed 1, a \
            stands, b stands, still",
    ),
    // a post lands with a commit
    (
        true,
        &ONE,
        &[],
        "landed 1 by manager 0, 0 heard 1, 1 heard 1, 2 heard 1, 3 heard 1, 0 committed 1, a stands, \
            job.x stands, still",
    ),
    // each broker hears of the last landing, whatever is lost, repeated or swapped
    (
        false,
        &ONE,
        &[KvsStep::Lose { from: 0, to: 2 }],
        "landed 1 by 0, 0 heard 1, 1 heard 1, 3 heard 1, 2 heard 1, 0 committed 1, a stands, still",
    ),
    (
        false,
        &ONE,
        &[KvsStep::Lose { from: 0, to: 1 }],
        "landed 1 by 0, 0 heard 1, 2 heard 1, 1 heard 1, 3 heard 1, 0 committed 1, a stands, still",
    ),
    (
        false,
        &ONE,
        &[KvsStep::Repeat { from: 0, to: 1 }],
        "landed 1 by 0, 0 heard 1, 1 heard 1, 2 heard 1, 3 heard 1, 0 committed 1, a stands, still",
    ),
    (
        false,
        &ONE,
        &[KvsStep::Swap { from: 0, to: 1 }],
        "landed 1 by 0, 0 heard 1, 1 heard 1, 2 heard 1, 3 heard 1, 0 committed 1, a stands, still",
    ),
    // two commits land one behind the other before any broker but rank 0 hears of them, and the
    // second announcement overtakes the first: broker 1 and the one below it never hear of the first
    // landing by itself
    (
        false,
        &PAIR,
        &[
            KvsStep::Serve { broker: 0 },
            KvsStep::Land { namespace: 0 },
            KvsStep::Deliver { from: 2, to: 0 },
            KvsStep::Serve { broker: 0 },
            KvsStep::Land { namespace: 0 },
            KvsStep::Swap { from: 0, to: 1 },
        ],
        "landed 1 by 0, 0 heard 1, landed 2 by 1, 0 heard 2, 1 heard 2, 2 heard 1, 2 heard 2, 3 heard \
            2, 0 committed 1, 1 committed 2, a stands, b stands, still",
    ),
];

/// A commit of a key with its own name as its value.
fn put(alloc: Global, actor: u32, key: &str) -> Result<KvsAsk, Fail>
    ensures { IfOk result (λ ask. IsKnownAsk ask) }
{
    let path = Path::read(alloc, key)?;
    let bytes = Bytes::of(alloc, key.as_bytes())?;
    let mut ops = ListOf::new(alloc);
    ops.push(Op::Put { path, bytes })?;
    let author = Author::User(actor);
    Ok(KvsAsk::Commit {
        txn: Txn { author, ops },
    })
}

/// Asks for the commit of a key, in an actor's first command.
fn pose(alloc: Global, core: &mut Keys, actor: u32, posed: Posed) -> Result<(), Fail>
    requires ready { core.old.spent ≡ false }
    requires size { core.old.size ≡ 4 }
    ensures ready { OnOk result (core.new.spent ≡ false) }
    ensures size { OnOk result (core.new.size ≡ 4) }
{
    let (broker, key) = posed;
    let ask = put(alloc, actor, key)?;
    let namespace = Bytes::of(alloc, b"primary")?;
    let by = By { actor, command: 0 };
    let floor = 0;
    core.request(
        broker % 4,
        Request::Command {
            by,
            namespace,
            floor,
            ask,
        },
    )?;
    Ok(())
}

fn pose_all(alloc: Global, core: &mut Keys, rows: &[Posed]) -> Result<(), Fail>
    requires ready { core.old.spent ≡ false }
    requires size { core.old.size ≡ 4 }
    ensures ready { OnOk result (core.new.spent ≡ false) }
    ensures size { OnOk result (core.new.size ≡ 4) }
{
    'rows: for (actor, posed) in rows.iter().enumerate() {
        pose(alloc, core, (actor % 100) as u32, *posed)?;
    }
    Ok(())
}

/// The authors of a landing: actors by their numbers, and the job manager.
fn names_of(alloc: Global, authors: &AuthorNames) -> Result<String, Fail> {
    let mut names = String::new(alloc);
    for author in authors.as_slice() {
        let name = match author {
            Some(by) => format!(in alloc; " {}", by.actor)?,
            None => format!(in alloc; " manager")?,
        };
        names.push_str(name.as_str())?;
    }
    Ok(names)
}

fn tell(alloc: Global, text: &mut Vec<u8>, event: &KvsEvent) -> Result<(), Fail> {
    let words = match event {
        KvsEvent::Landed {
            number,
            authors,
            ..
        } => {
            let names = names_of(alloc, authors)?;
            format!(in alloc; "landed {number} by{names}, ")?
        }
        KvsEvent::Heard { broker, number, .. } => format!(in alloc; "{broker} heard {number}, ")?,
        _ => format!(in alloc; "other, ")?,
    };
    text.extend_from_slice(words.as_bytes())?;
    Ok(())
}

/// The step of this place in a plan, where it can be made.
fn planned(core: &Keys, plan: &[KvsStep], at: usize) -> Option<KvsStep>
    requires { core.now.spent ≡ false }
    ensures within { IfSome result (λ step. at < length plan.now) }
    ensures can { IfSome result (λ step. can_step core.now step ≡ true) }
{
    if at < plan.len() && core.can(plan[at]) {
        Some(plan[at])
    } else {
        None
    }
}

/// Makes the steps of a plan as soon as each can be made, and those of the core until none is left.
fn run(alloc: Global, core: &mut Keys, plan: &[KvsStep], text: &mut Vec<u8>) -> Result<(), Fail>
    requires { core.old.spent ≡ false }
    ensures ready { OnOk result (core.new.spent ≡ false) }
    ensures size { OnOk result (core.new.size ≡ core.old.size) }
{
    let mut at = 0;
    'steps: for _ in 0..100 {
        let step = match planned(core, plan, at) {
            Some(step) => {
                at += 1;
                step
            }
            None => match core.next() {
                Some(step) => step,
                None => return Ok(()),
            },
        };
        let events = core.turn(step)?;
        'events: for event in events.as_slice() {
            tell(alloc, text, event)?;
        }
    }
    Ok(())
}

fn take_all(alloc: Global, core: &mut Keys, text: &mut Vec<u8>) -> Result<(), Fail>
    requires { core.old.spent ≡ false }
    ensures { OnOk result (core.new.spent ≡ false) }
{
    'actors: for actor in 0..4 {
        let by = By { actor, command: 0 };
        if core.can_take(by) {
            let held = core.take(by);
            let number = held.number.unwrap_or(0);
            let word = match &held.answer {
                KvsAnswer::Committed => "committed",
                _ => "other",
            };
            let words = format!(in alloc; "{actor} {word} {number}, ")?;
            text.extend_from_slice(words.as_bytes())?;
        }
    }
    Ok(())
}

/// Tells which of three keys have values, and whether no step is left.
fn tell_end(alloc: Global, core: &Keys, text: &mut Vec<u8>) -> Result<(), Fail>
    requires { core.now.spent ≡ false }
{
    'keys: for key in ["a", "b", "job.x"] {
        let path = Path::read(alloc, key)?;
        if let Found::Value(_) = core.newest(&path)? {
            let words = format!(in alloc; "{key} stands, ")?;
            text.extend_from_slice(words.as_bytes())?;
        }
    }
    if core.next().is_none() {
        text.extend_from_slice(b"still".as_slice())?;
    }
    Ok(())
}

/// A tree of four brokers, in which nothing has happened.
fn begin(alloc: Global) -> Result<Keys, Fail>
    ensures ready { IfOk result (λ core. core.spent ≡ false) }
    ensures size { IfOk result (λ core. core.size ≡ 4) }
    ensures posted { IfOk result (λ core. posted core ≡ []) }
    ensures newest { IfOk result (λ core. newest_of core ≡ first_store (codes "grant")) }
{
    let grant = Bytes::of(alloc, b"grant")?;
    let setting = Setting {
        size: 4,
        fanout: 2,
        hash: Hash::Sha1,
    };
    Ok(Keys::new(alloc, setting, &grant)?)
}

/// The job manager's transaction: a value at a key below `job`.
fn post(alloc: Global, core: &mut Keys) -> Result<(), Fail>
    requires ready { core.old.spent ≡ false }
    requires posted { posted core.old ≡ [] }
    requires newest { newest_of core.old ≡ first_store (codes "grant") }
    ensures ready { OnOk result (core.new.spent ≡ false) }
    ensures size { OnOk result (core.new.size ≡ core.old.size) }
{
    let path = Path::read(alloc, "job.x")?;
    let bytes = Bytes::of(alloc, b"x")?;
    let mut ops = ListOf::new(alloc);
    ops.push(Op::Put { path, bytes })?;
    let author = Author::Manager;
    core.post(None, Txn { author, ops })?;
    Ok(())
}

/// What follows in a tree in which nothing has happened: what happens, what actors are told then, and
/// what stands in the end.
fn told_of(alloc: Global, core: &mut Keys, story: &Story) -> Result<Vec<u8>, Fail>
    requires ready { core.old.spent ≡ false }
    requires size { core.old.size ≡ 4 }
    requires posted { posted core.old ≡ [] }
    requires newest { newest_of core.old ≡ first_store (codes "grant") }
{
    let (posts, rows, plan, _) = *story;
    if posts {
        post(alloc, core)?;
    }
    pose_all(alloc, core, rows)?;
    let mut text = Vec::new(alloc);
    run(alloc, core, plan, &mut text)?;
    take_all(alloc, core, &mut text)?;
    tell_end(alloc, core, &mut text)?;
    Ok(text)
}

/// Whether a tree of four brokers tells a story.
fn is_told(alloc: Global, story: &Story) -> Result<bool, Fail> {
    let mut core = begin(alloc)?;
    let told = told_of(alloc, &mut core, story);
    drop(core);
    let text = told?;
    Ok(text.as_slice() == story.3.as_bytes())
}

#[test]
fn trees_of_brokers_tell_their_stories(rt: HostRuntime) -> Result<(), Fail> {
    for story in &STORIES {
        assert!(rt; is_told(rt.alloc(), story)?, "{}", story.3);
    }
    Ok(())
}

/// The marks of actors whose answers wait, each by its command of these and besides those that are
/// marked, once these rows are asked and no step is left.
fn marks_of(
    alloc: Global,
    core: &mut Keys,
    rows: &[Posed],
    commands: &[u32; 4],
    marked: [bool; 4],
) -> Result<[bool; 4], Fail>
    requires ready { core.old.spent ≡ false }
    requires size { core.old.size ≡ 4 }
{
    pose_all(alloc, core, rows)?;
    let mut text = Vec::new(alloc);
    run(alloc, core, &[], &mut text)?;
    let mut marks = marked;
    core.mark_held(commands, &mut marks);
    Ok(marks)
}

/// The same in a tree of four brokers.
fn marks_behind(
    alloc: Global,
    rows: &[Posed],
    commands: &[u32; 4],
    marked: [bool; 4],
) -> Result<[bool; 4], Fail> {
    let mut core = begin(alloc)?;
    let found = marks_of(alloc, &mut core, rows, commands, marked);
    drop(core);
    found
}

/// Commands of four actors, who is marked before, and who is once the rows of `THREE` are answered.
const MARKS: [([u32; 4], [bool; 4], [bool; 4]); 3] = [
    ([0; 4], [false; 4], [true, true, true, false]),
    ([0, 1, 0, 0], [false; 4], [true, false, true, false]),
    (
        [1, 1, 0, 0],
        [true, false, false, true],
        [true, false, true, true],
    ),
];

#[test]
fn actors_are_marked_whose_answers_wait(rt: HostRuntime) -> Result<(), Fail> {
    for (commands, marked, wanted) in &MARKS {
        let found = marks_behind(rt.alloc(), &THREE, commands, *marked)?;
        assert!(rt; found == *wanted);
    }
    Ok(())
}

/// Steps by which a commit at broker 1 lands, and is announced.
const LANDING: [KvsStep; 3] = [
    KvsStep::Deliver { from: 1, to: 0 },
    KvsStep::Serve { broker: 0 },
    KvsStep::Land { namespace: 0 },
];

/// What is posed, steps that are made then, whether the losses that can be made next are counted or
/// the other steps, and which has a number, or how many are lacking.
type Count = (
    &'static [Posed],
    &'static [KvsStep],
    bool,
    u64,
    Result<KvsStep, u64>,
);

const COUNTS: [Count; 14] = [
    (
        &THREE,
        &[],
        false,
        0,
        Ok(KvsStep::Deliver { from: 1, to: 0 }),
    ),
    (
        &THREE,
        &[],
        false,
        1,
        Ok(KvsStep::Deliver { from: 2, to: 0 }),
    ),
    (&THREE, &[], false, 2, Ok(KvsStep::Serve { broker: 0 })),
    (&THREE, &[], false, 3, Err(0)),
    (
        &THREE,
        &[KvsStep::Serve { broker: 0 }],
        false,
        2,
        Ok(KvsStep::Land { namespace: 0 }),
    ),
    (
        &THREE,
        &[KvsStep::Serve { broker: 0 }],
        false,
        u64::MAX,
        Err(u64::MAX - 3),
    ),
    (&[], &[], false, 7, Err(7)),
    (
        &ONE,
        &LANDING,
        true,
        0,
        Ok(KvsStep::Lose { from: 0, to: 1 }),
    ),
    (
        &ONE,
        &LANDING,
        true,
        1,
        Ok(KvsStep::Lose { from: 0, to: 2 }),
    ),
    (
        &ONE,
        &LANDING,
        true,
        2,
        Ok(KvsStep::Repeat { from: 0, to: 1 }),
    ),
    (
        &ONE,
        &LANDING,
        true,
        3,
        Ok(KvsStep::Repeat { from: 0, to: 2 }),
    ),
    (
        &ONE,
        &LANDING,
        true,
        4,
        Ok(KvsStep::Swap { from: 0, to: 1 }),
    ),
    (
        &ONE,
        &LANDING,
        true,
        5,
        Ok(KvsStep::Swap { from: 0, to: 2 }),
    ),
    (&ONE, &LANDING, true, 8, Err(2)),
];

/// The step of a number, or how many are lacking, once these rows are asked and these steps made.
fn nth_of(alloc: Global, core: &mut Keys, count: &Count) -> Result<Result<KvsStep, u64>, Fail>
    requires ready { core.old.spent ≡ false }
    requires size { core.old.size ≡ 4 }
{
    let (rows, plan, is_of_losses, number, _) = *count;
    pose_all(alloc, core, rows)?;
    'steps: for step in plan {
        if core.can(*step) {
            core.turn(*step)?;
        }
    }
    if is_of_losses {
        Ok(core.nth_loss(number))
    } else {
        Ok(core.nth(number))
    }
}

/// Whether a tree of four brokers counts so.
fn is_counted(alloc: Global, count: &Count) -> Result<bool, Fail> {
    let mut core = begin(alloc)?;
    let found = nth_of(alloc, &mut core, count);
    drop(core);
    Ok(found? == count.4)
}

#[test]
fn steps_and_losses_are_counted_in_their_order(rt: HostRuntime) -> Result<(), Fail> {
    for count in &COUNTS {
        assert!(rt; is_counted(rt.alloc(), count)?, "at {}", count.3);
    }
    Ok(())
}
