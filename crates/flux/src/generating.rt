//! The summaries of runs of workloads that a seed draws.
ghost use Rattle.std.specs.Prelude.{◌≡◌, ◌≤◌, ℕ, List, count_by, true, false, All, IfOk};
ghost use Rattle.flux_commands.specs.Drawn.{generated_options};
ghost use Rattle.world.specs.workload.Laws.{HasOwnLabels, IsBuilt, IsWithin, KeepsTallies};
ghost use Rattle.world.specs.homes.Grant.{grant_text};
ghost use Rattle.world.specs.hierarchy.Headline.{IsTrueRun};
ghost use Rattle.world.specs.hierarchy.Promises.{KeepsItsPromises};
ghost use Rattle.world.specs.hierarchy.Stretches.{AreRunStretches};
ghost use Rattle.summaries.specs.Summary.{IsSummary};
ghost use Rattle.world.specs.Choice.{is_loss};
ghost use Rattle.flux.specs.Runs.{setup_of};

use crate::playing::{Played, play};
use flux_commands::DRAWN_OPTIONS;
use outside::Gate;
use std::alloc::{AllocError, Global};
use std::sync::Wait;
use std::thread::Threads;
use summaries::summary;
use world::hierarchy::a_whole_run_is_legal_in_all;
use world::hierarchy::grown::births_are_numbered;
use world::homes::hosts_of_brokers;
use world::kvs_core::CoreFault;
use world::lists::Bytes;
use world::manager_rules::Terms;
use world::resource_set::print;
use world::workload::Workload;

/// The text of the grant at which a run of the workload begins.
fn first_grant(alloc: Global, size: u32, work: &Workload) -> Result<Bytes, AllocError>
    requires { size ≤ 32 }
    ensures { IfOk result (λ text. text ≡ grant_text size work.now) }
{
    if let Some(grant) = &work.grant {
        return grant.text(alloc);
    }
    let hosts = hosts_of_brokers(alloc, size)?;
    let text = print(alloc, &hosts)?;
    Ok(Bytes::from_vec(text))
}

/// Runs a workload that was drawn to its end. Its text is the run's summary.
pub fn play_drawn<G: Gate + Sync, R: Threads + Wait + Sync>(
    rt: &R,
    alloc: Global,
    gate: &G,
    terms: Terms,
    work: Workload,
) -> Result<Played, CoreFault>
    requires within { IsWithin 7 work }
    requires built { All (λ line. IsBuilt line.command) work.lines }
    requires labels { HasOwnLabels work.lines }
    requires few { KeepsTallies work.lines }
    ensures run { IfOk result (λ played. (answers : List ℕ)
        × IsTrueRun (setup_of terms generated_options work) true false
        played.ended.chronicle answers) }
    ensures stretches { IfOk result (λ played. AreRunStretches
        (setup_of terms generated_options work)
        played.ended.steps.items played.ended.ends.items played.ended.chronicle) }
    ensures promises { IfOk result (λ played.
        KeepsItsPromises (setup_of terms generated_options work) played.ended.chronicle) }
    ensures losses { IfOk result
        (λ played. count_by is_loss played.ended.steps.items ≤ generated_options.losses) }
    ensures summary { IfOk result (λ played. IsSummary
        (setup_of terms generated_options work) played.ended.chronicle played.text.items) }
{
    births_are_numbered();
    a_whole_run_is_legal_in_all();
    let grant = first_grant(alloc, DRAWN_OPTIONS.size, &work)?;
    let Played { text, ended } = play(rt, alloc, gate, terms, DRAWN_OPTIONS, work)?;
    let text = summary(alloc, &grant, DRAWN_OPTIONS.hash, &text, &ended.chronicle)?;
    Ok(Played { text, ended })
}
