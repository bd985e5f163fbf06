//! A run, to its end.
ghost use Rattle.std.specs.Prelude.{◌≡◌, ◌≤◌, ◌<◌, [], count_by, true, false, IfOk, OnOk, Some, length};
ghost use Rattle.world.specs.hierarchy.Legal.{IsSettledRun};
ghost use Rattle.world.specs.Choice.{is_alone, is_loss, losses_left};
ghost use Rattle.world.specs.declared.order.Order.TheVariants as order;
ghost use Rattle.named_world.specs.Value.{all_losses};
ghost use Rattle.root_feed.specs.Values.{new_heralds};
ghost use Rattle.lanes.specs.Runs.{GoesOn};

use crate::gate::{Looking, Looks};
use crate::passes::{brokers, deal, look_in_lane};
use desk::{Finished, Held, Machine, work};
use named_world::{Look, NamedWorld, RunName};
use outside::Gate;
use root_feed::{Blank, Feed, Herald, Opened, Pass};
use std::alloc::{AllocError, Global};
use std::marker::Brand;
use std::sync::{Mutex, Wait};
use std::thread::{self, Threads};
use world::World;

/// A run that goes on, with the passes of each lane's actors.
#[derive(Drop)]
struct Running<'f, N: RunName> {
    named: NamedWorld<'f, N>,
    passes: Vec<Vec<Pass<N>>>,
    lanes: u32,
}

/// A run in which nothing has happened, before its feed is lent to it.
#[derive(Drop)]
struct Begun<N: RunName> {
    world: World,
    heralds: Vec<Herald<N>>,
    passes: Vec<Vec<Pass<N>>>,
    lanes: u32,
}

impl<'f, N: RunName> Running<'f, N> {
    /// The world alone.
    fn finish(self) -> World
        ensures value { result ≡ self.entry.named.world }
        ensures losses { result.spent ≡ false → all_losses result ≡ N.losses }
    {
        self.named.finish()
    }
}

/// What comes back from behind locks.
#[derive(Drop)]
struct Left<N: RunName, M> {
    machine: M,
    passes: Vec<Vec<Pass<N>>>,
}

/// A thread for each lane but 0. The lanes without one are this thread's own, beside lane 0.
fn work_all<'x, M: Machine + Drop + Send, G: Gate + Sync, R: Threads + Wait + Sync>(
    rt: &'x R,
    lock: &'x Mutex<Held<M>>,
    gate: &'x G,
    mut own: Vec<u32>,
    workers: u32,
)
where
    M::Step: Send,
{
    thread::scope(thread::scope_env(), rt, move |scope| {
        for lane in 1..workers {
            if scope.spawn(move || work(rt, lock, gate, &[lane])).is_err() {
                let _ = own.push(lane);
            }
        }
        if !own.is_empty() {
            let _ = work(rt, lock, gate, own.as_slice());
        }
    });
}

/// Each behind a lock of its own.
fn locked<T: Drop>(alloc: Global, items: Vec<T>) -> Result<Vec<Mutex<T>>, AllocError> {
    let mut all = Vec::new(alloc);
    for item in items {
        all.push(Mutex::new(item))?;
    }
    Ok(all)
}

/// Those that stood behind locks of their own.
fn unlocked<T: Drop>(alloc: Global, items: Vec<Mutex<T>>) -> Result<Vec<T>, AllocError> {
    let mut all = Vec::new(alloc);
    for item in items {
        all.push(item.into_inner())?;
    }
    Ok(all)
}

/// Several workers make the steps of a machine, each in its lane, until none is left or memory fails,
/// and its looks without the lock.
fn run_lanes<
    N: RunName + Send + Sync,
    M: Looks<Look<N>> + Drop + Send,
    G: Gate + Sync,
    R: Threads + Wait + Sync,
>(
    rt: &R,
    alloc: Global,
    machine: M,
    passes: Vec<Vec<Pass<N>>>,
    lanes: u32,
    feed: &Feed<N>,
    gate: &G,
) -> Result<Left<N, M>, AllocError>
where
    M::Step: Send,
    M::Input: Drop + Send,
    requires live { M.spent machine ≡ false }
    requires begins { M.made machine ≡ [] }
    ensures live { IfOk result (λ left. M.spent left.machine ≡ false) }
{
    let mut own = Vec::with_capacity(alloc, lanes as usize)?;
    own.push(0)?;
    let shared = locked(alloc, passes)?;
    let lock = Mutex::new(Held::new(alloc, machine));
    let looking = Looking {
        rt,
        gate,
        feed,
        lock: &lock,
        passes: shared.as_slice(),
        lanes,
    };
    work_all(rt, &lock, &looking, own, lanes);
    let held = lock.into_inner();
    if held.spent() {
        return Err(AllocError);
    }
    let Finished { machine, steps: _ } = held.finish();
    let passes = unlocked(alloc, shared)?;
    Ok(Left { machine, passes })
}

/// Runs the lanes of a run, where it has several. Then all lanes are one.
#[tactic(auto, using(crate::proofs::Going::joined_alone))]
fn run_several<'f, N: RunName + Send + Sync, G: Gate + Sync, R: Threads + Wait + Sync>(
    rt: &R,
    alloc: Global,
    running: Running<'f, N>,
    feed: &'f Feed<N>,
    gate: &G,
) -> Result<Running<'f, N>, AllocError>
    requires live { running.named.world.spent ≡ false }
    requires begins { running.named.world.steps ≡ [] }
    requires alone { running.lanes ≡ 1 → is_alone running.named.world.order ≡ true }
    requires some { 0 < running.lanes }
    ensures live { IfOk result (λ r. r.named.world.spent ≡ false) }
    ensures alone { IfOk result (λ r. is_alone r.named.world.order ≡ true) }
    ensures same { running.entry.lanes ≡ 1
        → IfOk result (λ r. r.named ≡ running.entry.named) }
{
    if running.lanes < 2 {
        return Ok(running);
    }
    let Running {
        named,
        passes,
        lanes,
    } = running;
    let left = run_lanes(rt, alloc, named, passes, lanes, feed, gate)?;
    let Left { machine, passes } = left;
    let mut named = machine;
    named.join();
    Ok(Running {
        named,
        passes,
        lanes,
    })
}

/// Makes the next step of all, or records the least open look where there is none. False exactly where
/// the run has ended.
fn make_one<'f, N: RunName>(
    running: &mut Running<'f, N>,
    feed: &'f Feed<N>,
) -> Result<bool, AllocError>
    requires live { running.old.named.world.spent ≡ false }
    requires alone { is_alone running.old.named.world.order ≡ true }
    ensures goes { OnOk result (GoesOn running.old.named.world running.new.named.world) }
    ensures ended { IfOk result (λ more. more ≡ false → running.new.named.world.closed ≡ true) }
{
    if let Some(step) = running.named.next_step(0) {
        running.named.make(step)?;
        return Ok(true);
    }
    let Some(looker) = running.named.looker(0) else {
        return Ok(false);
    };
    let lanes = running.lanes;
    let Some(look) = look_in_lane(feed, &mut running.passes, lanes, looker) else {
        return Ok(true);
    };
    if running.named.is_open(&look) {
        running.named.record(look)?;
    }
    Ok(true)
}

/// Makes the steps that are left, and the looks between them, until the run has ended.
fn make_all<'f, N: RunName>(
    running: &mut Running<'f, N>,
    feed: &'f Feed<N>,
) -> Result<(), AllocError>
    requires live { running.old.named.world.spent ≡ false }
    requires alone { is_alone running.old.named.world.order ≡ true }
    ensures goes { OnOk result (GoesOn running.old.named.world running.new.named.world) }
    ensures ended { OnOk result (running.new.named.world.closed ≡ true) }
{
    for _ in 0..u64::MAX {
        if !make_one(running, feed)? {
            return Ok(());
        }
    }
    Err(AllocError)
}

/// Runs a world over the words of its feed.
fn run_over<'f, N: RunName + Send + Sync, G: Gate + Sync, R: Threads + Wait + Sync>(
    rt: &R,
    alloc: Global,
    begun: Begun<N>,
    feed: &'f Feed<N>,
    gate: &G,
) -> Result<World, AllocError>
    requires run { N.run ≡ Some begun.world.set }
    requires losses { losses_left begun.world.order ≡ N.losses }
    requires heralds { begun.heralds.items ≡ new_heralds begun.world.set.size }
    requires live { begun.world.spent ≡ false }
    requires begins { (begun.world.chronicle ≡ []) × (begun.world.steps ≡ []) }
    requires alone { begun.lanes ≡ 1 → is_alone begun.world.order ≡ true }
    requires some { 0 < begun.lanes }
    ensures live { IfOk result (λ w. w.spent ≡ false) }
    ensures set { IfOk result (λ w. w.set ≡ begun.world.set) }
    ensures ended { IfOk result (λ w. w.closed ≡ true) }
    ensures settled { begun.lanes ≡ 1 → begun.world.order ≡ order.Settled
        → IfOk result (λ w. IsSettledRun w.set w.chronicle) }
    ensures losses { IfOk result (λ w. count_by is_loss w.steps ≤ N.losses) }
{
    let Begun {
        world,
        heralds,
        passes,
        lanes,
    } = begun;
    let running = Running {
        named: NamedWorld::new(world, feed, heralds),
        passes,
        lanes,
    };
    let mut running = run_several(rt, alloc, running, feed, gate)?;
    let made = make_all(&mut running, feed);
    let world = running.finish();
    made?;
    Ok(world)
}

/// Runs the world that N names.
fn run_named<N: RunName + Send + Sync, G: Gate + Sync, R: Threads + Wait + Sync>(
    rt: &R,
    alloc: Global,
    blank: Blank,
    world: World,
    gate: &G,
    workers: u32,
) -> Result<World, AllocError>
    requires feed { blank.table ≡ N.table }
    requires run { N.run ≡ Some world.set }
    requires losses { losses_left world.order ≡ N.losses }
    requires brokers { blank.brokers ≡ world.set.size }
    requires live { world.spent ≡ false }
    requires begins { (world.chronicle ≡ []) × (world.steps ≡ []) }
    requires alone { workers ≡ 1 → is_alone world.order ≡ true }
    requires some { 0 < workers }
    ensures live { IfOk result (λ w. w.spent ≡ false) }
    ensures set { IfOk result (λ w. w.set ≡ world.set) }
    ensures ended { IfOk result (λ w. w.closed ≡ true) }
    ensures settled { workers ≡ 1 → world.order ≡ order.Settled
        → IfOk result (λ w. IsSettledRun w.set w.chronicle) }
    ensures losses { IfOk result (λ w. count_by is_loss w.steps ≤ N.losses) }
{
    let Opened {
        feed,
        heralds,
        passes,
    } = blank.open::<N>(alloc)?;
    let passes = deal(alloc, passes, workers)?;
    let begun = Begun {
        world,
        heralds,
        passes,
        lanes: workers,
    };
    run_over(rt, alloc, begun, &feed, gate)
}

/// Runs a world in which nothing has happened to its end. With one worker no thread is started and no
/// lock taken. With several, each makes the steps of its own lane in a thread of its own, where one
/// can be started, and passes the gate before each.
pub fn run<G: Gate + Sync, R: Threads + Wait + Sync>(
    rt: &R,
    alloc: Global,
    world: World,
    gate: &G,
    workers: u32,
) -> Result<World, AllocError>
    requires size { (1 ≤ world.set.size) × (world.set.size ≤ 32) }
    requires few { length world.set.work.actors ≤ 256 }
    requires live { world.spent ≡ false }
    requires begins { (world.chronicle ≡ []) × (world.steps ≡ []) }
    requires alone { workers ≡ 1 → is_alone world.order ≡ true }
    requires some { 0 < workers }
    ensures live { IfOk result (λ w. w.spent ≡ false) }
    ensures set { IfOk result (λ w. w.set ≡ world.set) }
    ensures ended { IfOk result (λ w. w.closed ≡ true) }
    ensures settled { workers ≡ 1 → world.order ≡ order.Settled
        → IfOk result (λ w. IsSettledRun w.set w.chronicle) }
    ensures losses { IfOk result (λ w. count_by is_loss w.steps ≤ losses_left world.order) }
{
    let size = world.size();
    let at = brokers(alloc, world.work(), size)?;
    let blank = Blank::new(alloc, size, &at)?;
    run_named::<Brand, G, R>(rt, alloc, blank, world, gate, workers)
}
