//! A run of a workload, to its end.
ghost use Rattle.std.specs.Prelude.{◌≡◌, ◌≤◌, [], count_by, false, All, IfOk};
ghost use Rattle.run_options.specs.Given.{AreWithin};
ghost use Rattle.world.specs.workload.Laws.{HasOwnLabels, IsBuilt, IsWithin, KeepsTallies};
ghost use Rattle.world.specs.answers.Headline.{output_text};
ghost use Rattle.world.specs.hierarchy.Headline.{IsTrueRun};
ghost use Rattle.world.specs.hierarchy.Laws.{AreValid};
ghost use Rattle.world.specs.hierarchy.Promises.{KeepsItsPromises};
ghost use Rattle.world.specs.hierarchy.Stretches.{AreRunStretches};
ghost use Rattle.world.specs.Choice.{is_loss, order_of};
ghost use Rattle.flux.specs.Runs.{is_settled, order_alone, schedule_of, setup_of, terms_of};

use outside::Gate;
use run_options::Options;
use std::alloc::{AllocError, Global};
use std::sync::Wait;
use std::thread::Threads;
use world::answers::{Chronicle, print_answers, print_journal};
use world::hierarchy::a_true_run_keeps_its_promises;
use world::kvs_core::CoreFault;
use world::manager_rules::{Policy, Terms};
use world::run_laws::time_stays_within;
use world::workload::Workload;
use world::{Ended, Schedule, Setting, World};

/// What a run leaves, and the text of its answers.
#[derive(Drop)]
pub struct Played {
    pub text: Vec<u8>,
    pub ended: Ended,
}

/// The order in which one worker makes a run's steps: drawn where its options have a seed, with
/// losses as they allow.
fn order_alone(options: Options) -> Schedule
    ensures { result ≡ order_alone options.losses options.shuffle }
{
    match options.shuffle {
        Some(seed) => Schedule::Shuffled {
            seed,
            losses: options.losses,
        },
        None => Schedule::Settled,
    }
}

/// The order in which a run makes its steps. Several workers draw none.
fn schedule_of(options: Options) -> Schedule
    ensures { result ≡ schedule_of options }
{
    if 1 < options.workers {
        Schedule::Lanes(options.workers)
    } else {
        order_alone(options)
    }
}

/// The terms on which a run serves its jobs: where its options ask for backfill, jobs may pass the
/// first in the queue.
fn terms_of(terms: Terms, options: Options) -> Terms
    ensures { result ≡ terms_of terms options }
{
    if options.backfill {
        Terms {
            policy: Policy::Easy,
            ..terms
        }
    } else {
        terms
    }
}

/// The answers of a run, and its journal behind a line of two dashes where it is asked for.
fn output(
    alloc: Global,
    options: Options,
    work: &Workload,
    chronicle: &Chronicle,
) -> Result<Vec<u8>, AllocError>
    ensures { IfOk result (λ text. (terms : Terms) → text.items
        ≡ output_text options.journal (setup_of terms options work.now) chronicle.now) }
{
    let mut text = print_answers(alloc, work, chronicle)?;
    if options.journal {
        text.extend_from_slice(b"--\n")?;
        text.extend_from_slice(&print_journal(alloc, chronicle)?)?;
    }
    Ok(text)
}

/// The world of a workload with its options, before anything has happened.
fn begun(alloc: Global, terms: Terms, options: Options, work: Workload) -> Result<World, CoreFault>
    requires options { AreWithin options }
    requires within { IsWithin options.size work }
    requires built { All (λ line. IsBuilt line.command) work.lines }
    requires labels { HasOwnLabels work.lines }
    requires few { KeepsTallies work.lines }
    ensures ready { IfOk result (λ world. world.spent ≡ false) }
    ensures set { IfOk result (λ world. world.set ≡ setup_of terms options work) }
    ensures order { IfOk result (λ world. world.order ≡ order_of (schedule_of options)) }
    ensures empty { IfOk result (λ world. (world.chronicle ≡ []) × (world.steps ≡ [])) }
{
    let setting = Setting {
        size: options.size,
        fanout: options.fanout,
        hash: options.hash,
    };
    let terms = terms_of(terms, options);
    World::new(alloc, setting, terms, work, schedule_of(options))
}

/// Makes the run of a workload.
fn run<G: Gate + Sync, R: Threads + Wait + Sync>(
    rt: &R,
    alloc: Global,
    gate: &G,
    terms: Terms,
    options: Options,
    work: Workload,
) -> Result<Played, CoreFault>
    requires options { AreWithin options }
    requires within { IsWithin options.size work }
    requires built { All (λ line. IsBuilt line.command) work.lines }
    requires labels { HasOwnLabels work.lines }
    requires few { KeepsTallies work.lines }
    ensures run { IfOk result (λ played. IsTrueRun (setup_of terms options work)
        (is_settled options) options.journal played.ended.chronicle played.text.items) }
    ensures stretches { IfOk result (λ played. AreRunStretches (setup_of terms options work)
        played.ended.steps.items played.ended.ends.items played.ended.chronicle) }
    ensures valid { IfOk result
        (λ played. AreValid (setup_of terms options work) played.ended.chronicle) }
    ensures losses { IfOk result
        (λ played. count_by is_loss played.ended.steps.items ≤ options.losses) }
{
    let begun = begun(alloc, terms, options, work)?;
    let world = lanes::run(rt, alloc, begun, gate, options.workers)?;
    // nothing is left to be made, and the steps that were made tell the whole chronicle
    world.quiet();
    world.steps();
    match output(alloc, options, world.work(), world.chronicle()) {
        Ok(text) => Ok(Played {
            text,
            ended: world.finish(),
        }),
        Err(fault) => {
            // a fault lets go of the world by a call: in place it is some six minutes of proof
            drop(world);
            Err(fault.into())
        }
    }
}

/// Runs a workload to its end, and keeps what a run promises.
pub fn play<G: Gate + Sync, R: Threads + Wait + Sync>(
    rt: &R,
    alloc: Global,
    gate: &G,
    terms: Terms,
    options: Options,
    work: Workload,
) -> Result<Played, CoreFault>
    requires options { AreWithin options }
    requires within { IsWithin options.size work }
    requires built { All (λ line. IsBuilt line.command) work.lines }
    requires labels { HasOwnLabels work.lines }
    requires few { KeepsTallies work.lines }
    ensures run { IfOk result (λ played. IsTrueRun (setup_of terms options work)
        (is_settled options) options.journal played.ended.chronicle played.text.items) }
    ensures stretches { IfOk result (λ played. AreRunStretches (setup_of terms options work)
        played.ended.steps.items played.ended.ends.items played.ended.chronicle) }
    ensures promises { IfOk result
        (λ played. KeepsItsPromises (setup_of terms options work) played.ended.chronicle) }
    ensures losses { IfOk result
        (λ played. count_by is_loss played.ended.steps.items ≤ options.losses) }
{
    time_stays_within();
    a_true_run_keeps_its_promises();
    run(rt, alloc, gate, terms, options, work)
}
