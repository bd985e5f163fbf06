//! The passes of actors, by lanes, and looks by them.
ghost use Rattle.std.specs.Prelude.{◌≡◌, ◌<◌, All, IfOk, IfSome, length};
ghost use Rattle.lanes.specs.Looks.{IsSeenBy};

use named_world::{Look, RunName};
use root_feed::{Feed, Looked, Pass};
use std::alloc::{AllocError, Global};
use world::Looker;
use world::workload::Workload;

/// The broker of each actor, of so many.
pub fn brokers(alloc: Global, work: &Workload, size: u32) -> Result<Vec<u32>, AllocError>
    requires { 0 < size }
    ensures all { IfOk result (λ at. length at.items ≡ length work.now.actors) }
    ensures inside { IfOk result (λ at. All (λ rank. rank < size) at.items) }
{
    let mut at = Vec::new(alloc);
    for actor in work.actors.as_slice() {
        at.push((actor.rank % u64::from(size)) as u32)?;
    }
    Ok(at)
}

/// So many empty lists.
fn empty_lanes<T: Drop>(alloc: Global, lanes: u32) -> Result<Vec<Vec<T>>, AllocError>
    ensures { IfOk result (λ all. length all.items ≡ lanes) }
{
    let mut all = Vec::new(alloc);
    for _ in 0..lanes {
        all.push(Vec::new(alloc))?;
    }
    Ok(all)
}

/// The passes of each lane's actors: those whose number modulo the lanes is its own.
pub fn deal<T: Drop>(alloc: Global, passes: Vec<T>, lanes: u32) -> Result<Vec<Vec<T>>, AllocError>
    requires { 0 < lanes }
    ensures { IfOk result (λ dealt. length dealt.items ≡ lanes) }
{
    let mut dealt = empty_lanes(alloc, lanes)?;
    let mut lane = 0;
    for pass in passes {
        dealt[lane].push(pass)?;
        lane = if lane + 1 < dealt.len() { lane + 1 } else { 0 };
    }
    Ok(dealt)
}

/// What an actor sees by its pass, if it is as much as its look needs.
fn look_by<N: RunName>(feed: &Feed<N>, pass: &mut Pass<N>, looker: Looker) -> Option<Look<N>>
    ensures actor { IfSome result (λ look. look.actor ≡ looker.actor) }
    ensures seen { IfSome result (λ look. IsSeenBy pass.old pass.new looker.need look.seen) }
{
    match pass.look(feed, looker.need) {
        Looked::Seen(seen) => Some(Look::new(looker.actor, seen, pass.note(feed))),
        Looked::Behind { have: _, need: _ } => None,
    }
}

/// What an actor of the lane with these passes sees, of so many lanes.
pub fn look<N: RunName>(
    feed: &Feed<N>,
    passes: &mut Vec<Pass<N>>,
    lanes: u32,
    looker: Looker,
) -> Option<Look<N>>
    ensures { IfSome result (λ look. look.actor ≡ looker.actor) }
{
    let at = looker.actor.checked_div(lanes)?;
    let pass = passes.get_mut(at as usize)?;
    look_by(feed, pass, looker)
}

/// What an actor sees, by the passes of its lane among so many.
pub fn look_in_lane<N: RunName>(
    feed: &Feed<N>,
    passes: &mut Vec<Vec<Pass<N>>>,
    lanes: u32,
    looker: Looker,
) -> Option<Look<N>>
    ensures { IfSome result (λ look. look.actor ≡ looker.actor) }
{
    let lane = looker.actor.checked_rem(lanes)?;
    let own = passes.get_mut(lane as usize)?;
    look(feed, own, lanes, looker)
}
