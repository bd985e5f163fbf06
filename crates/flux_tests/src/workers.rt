//! Runs by two workers, each with the commands of an actor of its own.
use flux::{Run, flux};
use outside::{Gate, MemSink, MemSource};
use std::alloc::Global;
use std::sync::Wait;
use std::sync::atomic::{AtomicU64, Ordering};
use std::test::Fail;
use std::thread::{self, Threads};
use world::manager_rules::Terms;

/// How often a gate looks whether it may let a lane pass.
const MOST_TRIES: u64 = 10_000_000;

/// Two actors whose fence is of both; the one who comes last has the last word.
const FENCE: &str =
    "actor a 1\nactor b 2\na put k x\na fence f 2\nb put k y\nb fence f 2\nb get k\n";

/// Whether a count reaches a number within so many tries.
fn reaches(count: &AtomicU64, number: u64) -> bool {
    for _ in 0..MOST_TRIES {
        if number <= count.load(Ordering::SeqCst) {
            return true;
        }
        thread::yield_now();
    }
    false
}

/// Holds the first pass of each of two lanes until that of the other has begun.
#[derive(Drop)]
struct Meets {
    first: AtomicU64,
    second: AtomicU64,
    gave_up: AtomicU64,
}

impl Gate for Meets {
    fn pass(&self, lane: u32, turn: u64) {
        if turn != 0 {
            return;
        }
        let (own, other) = if lane == 0 {
            (&self.first, &self.second)
        } else {
            (&self.second, &self.first)
        };
        own.fetch_add(1, Ordering::SeqCst);
        if !reaches(other, 1) {
            self.gave_up.fetch_add(1, Ordering::SeqCst);
        }
    }
}

/// Holds the first pass of lane 1 until lane 0 has begun a thousand.
#[derive(Drop)]
struct HoldsBack {
    begun: AtomicU64,
    gave_up: AtomicU64,
}

impl Gate for HoldsBack {
    fn pass(&self, lane: u32, turn: u64) {
        if lane == 0 {
            self.begun.fetch_add(1, Ordering::SeqCst);
            return;
        }
        if turn == 0 && !reaches(&self.begun, 1_000) {
            self.gave_up.fetch_add(1, Ordering::SeqCst);
        }
    }
}

/// The run of both actors by two workers behind this gate.
fn run<G: Gate + Sync, R: Threads + Wait + Sync>(
    rt: &R,
    alloc: Global,
    gate: &G,
    sink: &mut MemSink,
) -> Result<Run, Fail> {
    let mut words = Vec::new(alloc);
    for word in ["run", "--workers", "2"] {
        words.push(String::from_str(alloc, word)?)?;
    }
    let text = Vec::from_slice(alloc, FENCE.as_bytes())?;
    let mut source = MemSource::new(text, 4096, Vec::new(alloc));
    Ok(flux(rt, alloc, &words, &mut source, sink, gate, Terms::PLAIN))
}

// one thread for both lanes would run out of tries
#[test]
fn two_workers_are_on_their_way_at_once(rt: HostRuntime) -> Result<(), Fail> {
    let gate = Meets {
        first: AtomicU64::new(0),
        second: AtomicU64::new(0),
        gave_up: AtomicU64::new(0),
    };
    let mut sink = MemSink::new(rt.alloc(), 4096, 4096, Vec::new(rt.alloc()))?;
    assert_eq!(rt; run(&rt, rt.alloc(), &gate, &mut sink)?.status, 0);
    let told = sink.taken();
    assert!(rt; told.ends_with(b"value 1 x\n") || told.ends_with(b"value 1 y\n"));
    assert_eq!(rt; gate.gave_up.load(Ordering::SeqCst), 0);
    Ok(())
}

// a lane 0 that issued the commands of actor b would end the run before it has passed so often
#[test]
fn a_worker_that_is_held_has_its_commands_left(rt: HostRuntime) -> Result<(), Fail> {
    let gate = HoldsBack {
        begun: AtomicU64::new(0),
        gave_up: AtomicU64::new(0),
    };
    let mut sink = MemSink::new(rt.alloc(), 4096, 4096, Vec::new(rt.alloc()))?;
    assert_eq!(rt; run(&rt, rt.alloc(), &gate, &mut sink)?.status, 0);
    assert!(rt; sink.taken().ends_with(b"value 1 y\n"));
    assert!(rt; 1_000 <= gate.begun.load(Ordering::SeqCst));
    assert_eq!(rt; gate.gave_up.load(Ordering::SeqCst), 0);
    Ok(())
}
