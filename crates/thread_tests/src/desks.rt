//! A machine under a lock, and its workers.
ghost use Rattle.std.specs.Prelude.{◌≡◌, ◌<◌, ◌&&◌, false, length, nat_lt, not};

use desk::{Finished, Held, Machine, work};
use outside::Gate;
use std::alloc::{AllocError, Global};
use std::sync::atomic::{AtomicU64, Ordering};
use std::sync::{Mutex, Wait};
use std::test::Fail;
use std::thread::{self, Threads};

// Makes steps up to a number of them, each the number of its lane. It takes inputs of 100 and more,
// which are steps. Its memory ends at a number of steps.
#[derive(Drop)]
struct Counter {
    made: Vec<u32>,
    most: usize,
    breaks_at: usize,
}

impl Machine for Counter {
    type Step = u32;

    type Input = u32;

    ghost made = { λ m. m.made.items };

    ghost spent = { λ _. false };

    ghost can = { λ _ _. Unit {0} };

    ghost can_in_lane = { λ m lane step. (step ≡ lane) × (length m.made.items < m.most) };

    ghost wants = { λ m input. not (nat_lt input 100) && nat_lt (length m.made.items) m.most };

    ghost is_quiet = { λ m. not (nat_lt (length m.made.items) m.most) };

    fn start(&self) -> bool {
        self.made.is_empty()
    }

    fn next(&self, lane: u32) -> Option<u32> {
        if self.made.len() < self.most {
            Some(lane)
        } else {
            None
        }
    }

    fn turn(&mut self, step: u32) -> Result<(), AllocError> {
        if self.made.len() == self.breaks_at {
            return Err(AllocError);
        }
        self.made.push(step)?;
        Ok(())
    }

    fn takes(&self, input: &u32) -> bool {
        100 <= *input && self.made.len() < self.most
    }

    fn accept(&mut self, input: u32) -> Result<u32, AllocError> {
        if self.made.len() == self.breaks_at {
            return Err(AllocError);
        }
        self.made.push(input)?;
        Ok(input)
    }

    fn quiet(&self) -> bool {
        self.most <= self.made.len()
    }
}

fn held_counter(alloc: Global, most: usize, breaks_at: usize) -> Held<Counter> {
    Held::new(
        alloc,
        Counter {
            made: Vec::new(alloc),
            most,
            breaks_at,
        },
    )
}

#[test]
fn each_step_is_kept_in_order(rt: HostRuntime) -> Result<(), Fail> {
    let mut held = held_counter(rt.alloc(), 5, 9);
    assert!(rt; held.machine().start());
    assert!(rt; held.turn(3)?);
    assert!(rt; held.accept(100)?);
    assert!(rt; !held.accept(99)?);
    assert!(rt; held.turn(1)?);
    assert_eq!(rt; held.steps(), [3, 100, 1].as_slice());
    held.drain()?;
    assert!(rt; !held.turn(0)?);
    assert!(rt; !held.accept(100)?);
    assert!(rt; held.machine().quiet() && !held.spent());
    let Finished { machine, steps } = held.finish();
    assert_eq!(rt; steps.as_slice(), [3, 100, 1, 0, 0].as_slice());
    assert_eq!(rt; machine.made.as_slice(), steps.as_slice());
    Ok(())
}

#[test]
fn after_want_of_memory_it_is_spent(rt: HostRuntime) -> Result<(), Fail> {
    for way in 0..3u32 {
        let mut held = held_counter(rt.alloc(), 5, 1);
        assert!(rt; held.turn(0)?);
        let failed = match way {
            0 => held.turn(0).is_err(),
            1 => held.accept(100).is_err(),
            _ => held.drain().is_err(),
        };
        assert!(rt; failed && held.spent());
        assert_eq!(rt; held.turn(0), Err(AllocError));
        assert_eq!(rt; held.accept(100), Err(AllocError));
        assert_eq!(rt; held.accept(0), Err(AllocError));
        assert_eq!(rt; held.drain(), Err(AllocError));
        assert_eq!(rt; held.steps(), [0].as_slice());
    }
    Ok(())
}

// Counts the passes of lanes 0 and 1, and those that weren't told their number.
#[derive(Drop)]
struct Tally {
    zero: AtomicU64,
    one: AtomicU64,
    odd: AtomicU64,
}

impl Gate for Tally {
    fn pass(&self, lane: u32, turn: u64) {
        let passes = if lane == 0 { &self.zero } else { &self.one };
        if passes.fetch_add(1, Ordering::SeqCst) != turn {
            self.odd.fetch_add(1, Ordering::SeqCst);
        }
    }
}

#[test]
fn a_worker_takes_turns_for_its_lanes(rt: HostRuntime) -> Result<(), Fail> {
    let gate = Tally {
        zero: AtomicU64::new(0),
        one: AtomicU64::new(0),
        odd: AtomicU64::new(0),
    };
    let lock = Mutex::new(held_counter(rt.alloc(), 5, 9));
    work(&rt, &lock, &gate, &[0, 1, 0])?;
    assert_eq!(rt; lock.into_inner().steps(), [0, 1, 0, 0, 1].as_slice());
    assert_eq!(rt; gate.zero.load(Ordering::SeqCst), 4);
    assert_eq!(rt; gate.one.load(Ordering::SeqCst), 2);
    assert_eq!(rt; gate.odd.load(Ordering::SeqCst), 0);
    let lock = Mutex::new(held_counter(rt.alloc(), 5, 2));
    assert_eq!(rt; work(&rt, &lock, &gate, &[0]), Err(AllocError));
    assert!(rt; lock.into_inner().spent());
    Ok(())
}

// Lets the first pass of each lane wait until both lanes have begun, and counts those that gave up.
#[derive(Drop)]
struct Both {
    begun: AtomicU64,
    gave_up: AtomicU64,
}

impl Gate for Both {
    fn pass(&self, _lane: u32, turn: u64) {
        if turn != 0 {
            return;
        }
        self.begun.fetch_add(1, Ordering::SeqCst);
        for _ in 0..10_000_000u64 {
            if 2 <= self.begun.load(Ordering::SeqCst) {
                return;
            }
            thread::yield_now();
        }
        self.gave_up.fetch_add(1, Ordering::SeqCst);
    }
}

// A thread for each lane but 0. The lanes without one are this thread's own, beside lane 0.
pub fn work_all<'x, M: Machine + Drop + Send, G: Gate + Sync, R: Threads + Wait + Sync>(
    rt: &'x R,
    lock: &'x Mutex<Held<M>>,
    gate: &'x G,
    mut own: Vec<u32>,
    workers: u32,
)
where
    M::Step: Send,
{
    thread::scope(thread::scope_env(), rt, move |scope| {
        for lane in 1..workers {
            if scope.spawn(move || work(rt, lock, gate, &[lane])).is_err() {
                let _ = own.push(lane);
            }
        }
        if !own.is_empty() {
            let _ = work(rt, lock, gate, own.as_slice());
        }
    });
}

#[test]
fn two_running_lanes_keep_all_steps(rt: HostRuntime) -> Result<(), Fail> {
    let gate = Both {
        begun: AtomicU64::new(0),
        gave_up: AtomicU64::new(0),
    };
    let mut own = Vec::with_capacity(rt.alloc(), 2)?;
    own.push(0)?;
    let lock = Mutex::new(held_counter(rt.alloc(), 1_000, 2_000));
    work_all(&rt, &lock, &gate, own, 2);
    let held = lock.into_inner();
    assert!(rt; !held.spent());
    let Finished { machine, steps } = held.finish();
    assert_eq!(rt; steps.len(), 1_000);
    assert_eq!(rt; machine.made.as_slice(), steps.as_slice());
    assert_eq!(rt; gate.begun.load(Ordering::SeqCst), 2);
    assert_eq!(rt; gate.gave_up.load(Ordering::SeqCst), 0);
    Ok(())
}
