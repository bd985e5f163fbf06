//! Runs on terms of their own: limits of a queue, and watches of jobs.
use flux::flux;
use outside::{MemSink, MemSource, OpenGate};
use std::alloc::Global;
use std::sync::Wait;
use std::test::Fail;
use std::thread::Threads;
use world::manager_rules::{Limit, Limits, Shown, Terms};

/// A job that sleeps for ten seconds, which another actor watches once its submission has landed.
const WATCHED: &str =
    "actor a 0\nactor b 0\na submit j {\"resources\":[{\"type\":\"slot\",\"count\":1,\"with\":[{\
        \"type\":\"core\",\"count\":1}],\"label\":\"task\"}],\"tasks\":[{\"command\":[\"sleep\",\
        \"10\"],\"slot\":\"task\",\"count\":{\"per_slot\":1}}],\"attributes\":{\"system\":{\"dur\
        ation\":3600.0,\"cwd\":\"/home/u\",\"environment\":{\"LANG\":\"C\"},\"shell\":{\"options\
        \":{\"rlimit\":{\"nofile\":1024}}}}},\"version\":1}\nb wait 1\nb watch j\na advance 10\n";

/// A job that asks for four cores.
const FOUR_CORES: &str =
    "actor a 0\na submit p {\"resources\":[{\"type\":\"slot\",\"count\":4,\"with\":[{\"type\":\"\
        core\",\"count\":1}],\"label\":\"task\"}],\"tasks\":[{\"command\":[\"sleep\",\"100\"],\"\
        slot\":\"task\",\"count\":{\"per_slot\":1}}],\"attributes\":{\"system\":{\"duration\":0}\
        },\"version\":1}\na state p\n";

/// Runs a workload at one broker on these terms, in a drawn order where there is a seed.
fn run<R: Threads + Wait + Sync>(
    rt: &R,
    alloc: Global,
    input: &str,
    seed: Option<u64>,
    terms: Terms,
    sink: &mut MemSink,
) -> Result<u8, Fail> {
    let mut words = Vec::new(alloc);
    for word in ["run", "--size", "1"] {
        words.push(String::from_str(alloc, word)?)?;
    }
    if let Some(seed) = seed {
        words.push(format!(in alloc; "--shuffle={seed}")?)?;
    }
    let text = Vec::from_slice(alloc, input.as_bytes())?;
    let mut source = MemSource::new(text, 4096, Vec::new(alloc));
    Ok(flux(rt, alloc, &words, &mut source, sink, &OpenGate, terms).status)
}

#[test]
fn a_limit_turns_a_job_away(rt: HostRuntime) -> Result<(), Fail> {
    let alloc = rt.alloc();
    let cores = Limit { most: 2, reason: 7 };
    let limits = Limits {
        cores,
        ..Limits::NONE
    };
    let terms = Terms {
        limits,
        ..Terms::PLAIN
    };
    let mut sink = MemSink::new(alloc, 4096, 4096, Vec::new(alloc))?;
    assert_eq!(rt; run(&rt, alloc, FOUR_CORES, None, terms, &mut sink)?, 0);
    assert_eq!(rt; sink.taken(), b"Checked 7\nNoJob\n".as_slice());
    Ok(())
}

/// That nothing is shown but that a job starts and that its command ends.
const START_AND_FINISH: Shown = Shown {
    submit: false,
    validate: false,
    dependency_add: false,
    dependency_remove: false,
    depend: false,
    priority: false,
    urgency: false,
    alloc: false,
    flux_restart: false,
    start: true,
    finish: true,
    exception: false,
    release: false,
    free: false,
    clean: false,
};

#[test]
fn a_watch_shows_two_events(rt: HostRuntime) -> Result<(), Fail> {
    let alloc = rt.alloc();
    let terms = Terms {
        shown: START_AND_FINISH,
        ..Terms::PLAIN
    };
    let mut sink = MemSink::new(alloc, 4096, 4096, Vec::new(alloc))?;
    assert_eq!(rt; run(&rt, alloc, WATCHED, None, terms, &mut sink)?, 0);
    let told = b"watched 10 start finish\nadvanced 10\n";
    assert!(rt; sink.taken().ends_with(told.as_slice()));
    Ok(())
}

#[test]
fn a_watch_shows_the_same_events_in_any_order(rt: HostRuntime) -> Result<(), Fail> {
    let alloc = rt.alloc();
    let told =
        b" submit validate depend priority alloc start finish release free clean\nadvanced 10\n";
    for seed in 1..11 {
        let mut sink = MemSink::new(alloc, 4096, 4096, Vec::new(alloc))?;
        assert_eq!(rt;
            run(&rt, alloc, WATCHED, Some(seed), Terms::PLAIN, &mut sink)?,
            0
        );
        assert!(rt; sink.taken().ends_with(told.as_slice()), "seed {seed}");
    }
    Ok(())
}
