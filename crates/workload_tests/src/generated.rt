//! Generated workloads.
use std::alloc::Global;
use std::str;
use std::test::Fail;
use workload_generator::generate;

/// A jobspec before its slots, between them and its seconds, and behind these.
const SLOT: &str = "{\"resources\":[{\"type\":\"slot\",\"count\":";

const TASK: &str = ",\"with\":[{\"type\":\"core\",\"count\":1}],\"label\":\"task\"}],\
\"tasks\":[{\"command\":[\"sleep\",\"";

const REST: &str = "\"],\"slot\":\"task\",\"count\":{\"per_slot\":1}}],\
\"attributes\":{\"system\":{\"duration\":0}},\"version\":1}";

/// Lines that were made by another program, which draws the words of PCG32 by its published
/// recurrences. A submission is its actor, its label, the slots and the seconds.
const SEVEN: [&str; 28] = [
    "actor a0 0",
    "actor a1 1",
    "actor a2 2",
    "actor a3 3",
    "actor a4 4",
    "actor a5 5",
    "actor a6 6",
    "actor a7 0",
    "a1 commit",
    "a4 put k93 v1",
    "a4 submit j2 4 1",
    "a0 put k86 v3",
    "a0 put k30 v4",
    "a5 put k32 v5",
    "a1 put k48 v6",
    "a7 advance 1",
    "a1 put k49 v8",
    "a1 put k97 v9",
    "a3 append l2 +",
    "a0 submit j11 1 0",
    "a2 advance 1",
    "a5 get k72",
    "a0 commit",
    "a3 advance 2",
    "a0 put k0 v16",
    "a1 commit",
    "a2 put k1 v18",
    "a2 put k78 v19",
];

/// The line that a row stands for.
fn line(alloc: Global, row: &str) -> Result<String, Fail> {
    let Some((actor, job)) = row.split_once(" submit ") else {
        return Ok(String::from_str(alloc, row)?);
    };
    let (label, sizes) = job.split_once(' ').ok_or("no slots")?;
    let (slots, seconds) = sizes.split_once(' ').ok_or("no seconds")?;
    let text = format!(in alloc; "{actor} submit {label} {SLOT}{slots}{TASK}{seconds}{REST}")?;
    Ok(text)
}

/// The lines of a workload, without the last newline.
fn text_of(alloc: Global, seed: u64, count: u32) -> Result<String, Fail> {
    let text = generate(alloc, seed, count)?;
    let text = str::from_utf8(text.as_slice())?;
    let lines = text.strip_suffix('\n').ok_or("no newline at the end")?;
    Ok(String::from_str(alloc, lines)?)
}

#[test]
fn a_seed_draws_these_lines(rt: HostRuntime) -> Result<(), Fail> {
    let alloc = rt.alloc();
    let text = text_of(alloc, 7, 20)?;
    assert_eq!(rt; text.as_str().split('\n').count(), SEVEN.len());
    for (found, row) in text.as_str().split('\n').zip(&SEVEN) {
        let wanted = line(alloc, row)?;
        assert!(rt; found == wanted.as_str(), "{row}");
    }
    Ok(())
}

/// How many actors and command lines are read of a workload.
fn sizes(alloc: Global, seed: u64, count: u32) -> Result<(usize, usize), Fail> {
    let text = generate(alloc, seed, count)?;
    match workload_reader::read(alloc, text.as_slice(), 7) {
        Ok(work) => Ok((work.actors.as_slice().len(), work.lines.as_slice().len())),
        Err(_) => Err("it spells a workload".into()),
    }
}

#[test]
fn what_a_seed_draws_is_read(rt: HostRuntime) -> Result<(), Fail> {
    for seed in [0, 7, u64::MAX] {
        assert_eq!(rt; sizes(rt.alloc(), seed, 300)?, (8, 300), "of {seed}");
    }
    // no commands are actors alone
    assert_eq!(rt; sizes(rt.alloc(), 7, 0)?, (8, 0));
    Ok(())
}

#[test]
fn the_1001st_submission_is_a_commit(rt: HostRuntime) -> Result<(), Fail> {
    let text = text_of(rt.alloc(), 7, 12_000)?;
    let lines = text.as_str().split('\n');
    let submissions = lines.filter(|line| line.contains(" submit ")).count();
    assert_eq!(rt; submissions, 1000);
    let last = text.as_str().split('\n').nth(8 + 10_124);
    assert!(rt; last.is_some_and(|line| line.starts_with("a7 submit j10124 ")));
    let next = text.as_str().split('\n').nth(8 + 10_141);
    assert_eq!(rt; next, Some("a6 commit"));
    Ok(())
}
