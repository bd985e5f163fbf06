//! The order in which a run makes its steps.
ghost use Rattle.std.specs.Prelude.{◌≡◌, [], false, IfOk, OnOk};

use kvs_rules::KvsStep;
use std::alloc::Global;
use std::test::Fail;
use workload_reader::laws::{
    spelled_commands_are_built, spelled_labels_are_their_own, spelled_tallies_are_kept,
    spelled_workloads_are_within,
};
use workload_reader::read;
use world::answers::Step;
use world::fl_digest::Hash;
use world::manager_rules::Terms;
use world::{Ended, Schedule, Setting, World};

const SETTING: Setting = Setting {
    size: 4,
    fanout: 2,
    hash: Hash::Sha1,
};

const WORK: &str =
    "actor a 1\nactor b 3\na put k x\nb put l y\na commit\nb commit\na get k\nb get l\n";

/// The world of a workload's text, before anything has happened.
fn begin(alloc: Global, text: &str, how: Schedule) -> Result<World, Fail>
    ensures { IfOk result (λ world. (world.spent ≡ false) × (world.steps ≡ [])) }
{
    let work = read(alloc, text.as_bytes(), SETTING.size)?;
    spelled_workloads_are_within();
    spelled_commands_are_built();
    spelled_labels_are_their_own();
    spelled_tallies_are_kept();
    Ok(World::new(alloc, SETTING, Terms::PLAIN, work, how)?)
}

/// Makes the next step for as long as there is one.
fn follow(world: &mut World) -> Result<(), Fail>
    requires { world.old.spent ≡ false }
    ensures { OnOk result (world.new.spent ≡ false) }
{
    for _ in 0..1000 {
        match world.next(0) {
            Some(step) => world.turn(step)?,
            None => return Ok(()),
        }
    }
    Ok(())
}

/// The steps of a run in this order, whose world knows before and behind them whether it has begun.
fn steps_of(alloc: Global, how: Schedule) -> Result<Vec<Step>, Fail> {
    let mut world = begin(alloc, WORK, how)?;
    let begins = world.start();
    match follow(&mut world) {
        Ok(()) => {
            let knows = begins && !world.start();
            let Ended { steps, .. } = world.finish();
            if knows {
                Ok(steps)
            } else {
                Err(Fail::from("it has begun"))
            }
        }
        Err(fault) => {
            drop(world);
            Err(fault)
        }
    }
}

#[test]
fn a_seed_gives_one_order(rt: HostRuntime) -> Result<(), Fail> {
    let settled = steps_of(rt.alloc(), Schedule::Settled)?;
    for seed in [0, 1, 2, u64::MAX] {
        let one = steps_of(rt.alloc(), Schedule::Shuffled { seed, losses: 0 })?;
        let again = steps_of(rt.alloc(), Schedule::Shuffled { seed, losses: 0 })?;
        assert_eq!(rt; one == again, true);
        assert_eq!(rt; one == settled, false);
    }
    Ok(())
}

/// Whether a step loses, repeats or swaps an announcement between brokers.
fn is_loss(step: &Step) -> bool {
    matches!(
        step,
        Step::Kvs {
            step: KvsStep::Lose { .. } | KvsStep::Repeat { .. } | KvsStep::Swap { .. },
            ..
        }
    )
}

/// How many steps of a run in this order do so.
fn losses_of(alloc: Global, how: Schedule) -> Result<usize, Fail> {
    let steps = steps_of(alloc, how)?;
    Ok(steps.iter().filter(|step| is_loss(step)).count())
}

#[test]
fn a_run_loses_no_more_than_it_may(rt: HostRuntime) -> Result<(), Fail> {
    let mut some = false;
    for seed in 1..4 {
        for losses in [0, 1, 4] {
            let lost = losses_of(rt.alloc(), Schedule::Shuffled { seed, losses })?;
            assert_eq!(rt; lost <= losses as usize, true);
            some = some || 0 < lost;
        }
    }
    assert_eq!(rt; some, true);
    assert_eq!(rt; losses_of(rt.alloc(), Schedule::Settled)?, 0);
    Ok(())
}
