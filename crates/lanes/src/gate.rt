//! A gate behind which a lane looks.
use crate::passes::look;
use desk::{Held, Machine};
use named_world::{Look, NamedWorld, RunName};
use outside::Gate;
use root_feed::{Feed, Pass};
use std::sync::{Mutex, Wait};
use world::Looker;

/// A machine whose actors look, with looks of this type, without the lock under which it stands.
pub trait Looks<L>: Machine {
    /// The open look of the least actor of a lane.
    fn open_look(&self, lane: u32) -> Option<Looker>;

    /// What the machine is handed for a look.
    fn handed(look: L) -> Self::Input;
}

impl<'f, N: RunName> Looks<Look<N>> for NamedWorld<'f, N> {
    fn open_look(&self, lane: u32) -> Option<Looker> {
        self.looker(lane)
    }

    fn handed(look: Look<N>) -> Look<N> {
        look
    }
}

/// A gate that is passed, and behind it a look for the least actor of the lane with an open one. The
/// look takes no lock but that of the lane's own passes.
#[derive(Drop)]
pub struct Looking<'x, N: RunName, M: Machine + Drop, G, R> {
    pub rt: &'x R,
    pub gate: &'x G,
    pub feed: &'x Feed<N>,
    pub lock: &'x Mutex<Held<M>>,
    /// By lane.
    pub passes: &'x [Mutex<Vec<Pass<N>>>],
    pub lanes: u32,
}

/// The open look of the least actor of a lane. The lock is let go.
fn open_look<L, M: Looks<L> + Drop, R: Wait>(
    rt: &R,
    lock: &Mutex<Held<M>>,
    lane: u32,
) -> Option<Looker> {
    let held = lock.lock(rt);
    held.machine().open_look(lane)
}

/// What an actor of a lane sees, without that lock.
fn seen<N: RunName, R: Wait>(
    rt: &R,
    feed: &Feed<N>,
    own: &Mutex<Vec<Pass<N>>>,
    lanes: u32,
    looker: Looker,
) -> Option<Look<N>> {
    let mut passes = own.lock(rt);
    look(feed, &mut *passes, lanes, looker)
}

impl<'x, N: RunName, M: Looks<Look<N>> + Drop, G: Gate, R: Wait> Gate for Looking<'x, N, M, G, R>
where
    M::Input: Drop,
{
    fn pass(&self, lane: u32, turn: u64) {
        self.gate.pass(lane, turn);
        let Some(looker) = open_look::<Look<N>, M, R>(self.rt, self.lock, lane) else {
            return;
        };
        let Some(own) = self.passes.get(lane as usize) else {
            return;
        };
        let Some(look) = seen(self.rt, self.feed, own, self.lanes, looker) else {
            return;
        };
        // a look that was answered meanwhile is passed over, and so is each once memory has failed
        let _ = self.lock.lock(self.rt).accept(M::handed(look));
    }
}
