//! Two lanes, each in a thread of its own, which makes the steps of its own actor alone.
ghost use Rattle.std.specs.Prelude.{◌≡◌, ◌<◌, ◌==◌, ◌&&◌, false, if◌then◌else◌};

use crate::desks::work_all;
use desk::{Held, Machine};
use outside::Gate;
use std::alloc::{AllocError, Global};
use std::sync::Mutex;
use std::sync::atomic::{AtomicU64, Ordering};
use std::test::Fail;
use std::thread;

// Two actors with commands, each of whose lanes issues its own: a step is the actor's number. Steps
// of a third one are handed in.
#[derive(Drop)]
struct Actors {
    made: Vec<u32>,
    first: usize,
    second: usize,
}

// How many commands the actor of a lane has left.
fn left(actors: &Actors, lane: u32) -> usize
    ensures { result ≡ (if lane == 0 then actors.now.first
        else if lane == 1 then actors.now.second else 0) }
{
    match lane {
        0 => actors.first,
        1 => actors.second,
        _ => 0,
    }
}

impl Machine for Actors {
    type Step = u32;

    type Input = u32;

    ghost made = { λ m. m.made.items };

    ghost spent = { λ _. false };

    ghost can = { λ _ _. Unit {0} };

    ghost can_in_lane = { λ m lane step. (step ≡ lane)
        × (0 < (if lane == 0 then m.first else if lane == 1 then m.second else 0)) };

    ghost wants = { λ _ input. input == 2 };

    ghost is_quiet = { λ m. (m.first == 0) && (m.second == 0) };

    fn start(&self) -> bool {
        self.made.is_empty()
    }

    fn next(&self, lane: u32) -> Option<u32> {
        if 0 < left(self, lane) {
            Some(lane)
        } else {
            None
        }
    }

    fn turn(&mut self, step: u32) -> Result<(), AllocError> {
        if step == 0 {
            self.first = self.first.saturating_sub(1);
        } else {
            self.second = self.second.saturating_sub(1);
        }
        self.made.push(step)?;
        Ok(())
    }

    fn takes(&self, input: &u32) -> bool {
        *input == 2
    }

    fn accept(&mut self, input: u32) -> Result<u32, AllocError> {
        self.made.push(input)?;
        Ok(input)
    }

    fn quiet(&self) -> bool {
        self.first == 0 && self.second == 0
    }
}

fn held_actors(alloc: Global, each: usize) -> Held<Actors> {
    Held::new(
        alloc,
        Actors {
            made: Vec::new(alloc),
            first: each,
            second: each,
        },
    )
}

// Holds the first pass of lane 1 until lane 0 has begun a number of passes, at most so many tries,
// and notes whether it gave up.
#[derive(Drop)]
struct HoldsBack {
    passes: u64,
    begun: AtomicU64,
    gave_up: AtomicU64,
}

impl Gate for HoldsBack {
    fn pass(&self, lane: u32, turn: u64) {
        if lane == 0 {
            self.begun.fetch_add(1, Ordering::SeqCst);
            return;
        }
        if turn != 0 {
            return;
        }
        for _ in 0..10_000_000u64 {
            if self.passes <= self.begun.load(Ordering::SeqCst) {
                return;
            }
            thread::yield_now();
        }
        self.gave_up.fetch_add(1, Ordering::SeqCst);
    }
}

// A lane that issued another's commands would have made the machine quiet before lane 0 has passed so
// often, and lane 1 would give up.
#[test]
fn a_lane_that_is_held_has_its_commands_left(rt: HostRuntime) -> Result<(), Fail> {
    let gate = HoldsBack {
        passes: 1_000,
        begun: AtomicU64::new(0),
        gave_up: AtomicU64::new(0),
    };
    let mut own = Vec::with_capacity(rt.alloc(), 2)?;
    own.push(0)?;
    let lock = Mutex::new(held_actors(rt.alloc(), 3));
    work_all(&rt, &lock, &gate, own, 2);
    let held = lock.into_inner();
    assert!(rt; !held.spent() && held.machine().quiet());
    assert_eq!(rt; held.steps(), [0, 0, 0, 1, 1, 1].as_slice());
    assert!(rt; 1_000 <= gate.begun.load(Ordering::SeqCst));
    assert_eq!(rt; gate.gave_up.load(Ordering::SeqCst), 0);
    Ok(())
}
