//! A worker of some lanes.
ghost use Rattle.std.specs.Prelude.{◌≡◌, ◌<◌, ◌==◌, ◌+◌, ◌*◌, ◌-◌, ◌^◌, length, min, take, count_by, slice_index};

use crate::{Held, Machine};
use outside::Gate;
use std::alloc::AllocError;
use std::sync::{Mutex, Wait};

/// How often a lane stands among these.
fn times(lanes: &[u32], lane: u32) -> u64
    ensures { result ≡ count_by (λ other. other == lane) lanes.now }
{
    lanes.iter().filter(|other| **other == lane).count() as u64
}

/// How often a worker of these lanes has passed the gate for the lane at a place among them, where
/// it has gone round so often; at most 2^64 - 1.
fn passes(lanes: &[u32], place: usize, rounds: u64) -> u64
    requires { place < length lanes.now }
    ensures { result
        ≡ min (2 ^ 64 - 1)
        (rounds * count_by (λ lane. lane == slice_index lanes.now place) lanes.now
        + count_by (λ lane. lane == slice_index lanes.now place) (take place lanes.now)) }
{
    let lane = lanes[place];
    rounds
        .saturating_mul(times(lanes, lane))
        .saturating_add(times(&lanes[..place], lane))
}

/// Takes turns for its lanes, one lane after another, until the machine is quiet, or spent by want
/// of memory. Before each turn it passes the gate, without the lock, with the lane and the number
/// of its earlier passes for that lane, which stays at 2^64 - 1 once it is there. It may wait, and
/// nothing says that it returns.
pub fn work<R: Wait, M: Machine + Drop, G: Gate>(
    rt: &R,
    lock: &Mutex<Held<M>>,
    gate: &G,
    lanes: &[u32],
) -> Result<(), AllocError>
    requires { 0 < length lanes.now }
{
    let mut rounds = 0u64;
    for _ in rt.forever() {
        for place in 0..lanes.len() {
            gate.pass(lanes[place], passes(lanes, place, rounds));
            let mut held = lock.lock(rt);
            if held.machine().quiet() {
                return Ok(());
            }
            held.turn(lanes[place])?;
        }
        rounds = rounds.saturating_add(1);
    }
    unreachable!()
}
