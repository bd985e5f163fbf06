//! Reserved seconds over grants of a few hosts.
ghost use Rattle.std.specs.Prelude.{◌≡◌, ◌+◌, ◌≤◌, ◌<◌, ◌++◌, [], ◌∷◌, IfOk, IfSome, IsTrue};
ghost use Rattle.resource_set.specs.Units.{AreHosts};
ghost use Rattle.job_rules.specs.Fits.{IsSpec};
ghost use Rattle.backfill.specs.Held.{AreHeld};

use super::{Reservation, graph_at, passes, reserve};
use crate::Hold;
use graph_match::Fit;
use idset::IdSet;
use job_spec::{JobSpec, Needs, Tasks, WordList};
use lists::{Bytes, Copied};
use resource_set::{Node, NodeList, Resources};
use std::alloc::{AllocError, Global};
use std::process::Abort;
use std::test::Fail;

/// So many slots of so many cores, which a job holds until a second.
#[derive(Clone, Copy)]
struct Job {
    slots: u32,
    cores: u32,
    until: u64,
}

const fn one_slot(cores: u32, until: u64) -> Job {
    Job {
        slots: 1,
        cores,
        until,
    }
}

fn spec(alloc: Global, job: Job) -> JobSpec {
    JobSpec {
        nodes: None,
        exclusive: false,
        slots: job.slots,
        cores: job.cores,
        gpus: 0,
        command: WordList::new(alloc),
        tasks: Tasks::PerSlot(1),
        duration: 0,
        depends: Needs::new(alloc),
        text: Bytes::new(alloc),
    }
}

/// Whether a second may be reserved for it.
fn is_spec(spec: &JobSpec) -> bool
    ensures { IsTrue result → IsSpec spec.now }
{
    let slots = 1 <= spec.slots && spec.slots <= 65_536;
    let units = 1 <= spec.cores && spec.cores <= 65_536 && spec.gpus <= 65_536;
    slots && units && 1 <= spec.nodes.unwrap_or(1)
}

/// A host named by a letter, with four cores.
fn node(alloc: Global, rank: u32) -> Result<Node, AllocError>
    requires { rank < 26 }
    ensures { IfOk result (λ node. (node.rank ≡ rank) × (node.host ≡ (97 + rank) ∷ [])) }
{
    Ok(Node {
        rank,
        host: Bytes::of(alloc, &[97 + rank as u8])?,
        cores: IdSet::of_range(alloc, 0, 3)?,
        gpus: IdSet::new(alloc),
    })
}

/// A grant of so many hosts with four cores each.
fn grant(alloc: Global, hosts: u32) -> Result<Resources, AllocError>
    requires { hosts ≤ 26 }
    ensures { IfOk result (λ units. AreHosts units.nodes) }
{
    let mut nodes = NodeList::new(alloc);
    for rank in 0..hosts {
        nodes.push(node(alloc, rank)?)?;
    }
    Ok(Resources {
        nodes,
        starttime: 0,
        expiration: 0,
    })
}

/// A job with the first units that live jobs leave, if there are enough. All live jobs hold theirs
/// at second 0.
fn offer(
    alloc: Global,
    grant: &Resources,
    live: &[Hold],
    job: Job,
) -> Result<Option<Hold>, AllocError>
    requires grant { AreHosts grant.now.nodes }
    requires held { AreHeld grant.now.nodes live.now }
    ensures { IfOk result
        (λ offer. IfSome offer (λ hold. AreHeld grant.now.nodes (live.now ++ hold ∷ []))) }
{
    let spec = spec(alloc, job);
    if !is_spec(&spec) {
        return Ok(None);
    }
    let graph = graph_at(alloc, grant, live, 0)?;
    match graph.fit(&spec, 0)? {
        Fit::Units(units) => Ok(Some(Hold {
            id: live.len() as u64,
            units,
            until: job.until,
        })),
        Fit::Busy(_list) => Ok(None),
        Fit::Never => Ok(None),
    }
}

/// Live jobs, one after another, up to one that doesn't fit.
fn live_jobs(alloc: Global, grant: &Resources, jobs: &[Job]) -> Result<Vec<Hold>, AllocError>
    requires { AreHosts grant.now.nodes }
    ensures { IfOk result (λ live. AreHeld grant.now.nodes live.items) }
{
    let mut live = Vec::new(alloc);
    for job in jobs {
        match offer(alloc, grant, &live, *job)? {
            None => return Ok(live),
            Some(hold) => live.push(hold)?,
        }
    }
    Ok(live)
}

/// The second that is reserved for a head of so many slots of so many cores.
fn reserved(
    rt: &impl Abort,
    alloc: Global,
    hosts: u32,
    jobs: &[Job],
    head: Job,
    now: u64,
) -> Result<Option<u64>, AllocError> {
    assert!(rt; hosts <= 26);
    let grant = grant(alloc, hosts)?;
    let live = live_jobs(alloc, &grant, jobs)?;
    assert!(rt; live.len() == jobs.len());
    let head = spec(alloc, head);
    assert!(rt; is_spec(&head));
    reserve(alloc, &grant, &live, &head, now)
}

#[test]
fn the_second_is_the_first_one_with_enough_units(rt: HostRuntime) -> Result<(), Fail> {
    let alloc = rt.alloc();
    let endless = [one_slot(3, 100), one_slot(1, 0)];
    assert_eq!(rt; reserved(&rt, alloc, 1, &endless, one_slot(4, 0), 0)?, None);
    assert_eq!(rt;
        reserved(&rt, alloc, 1, &endless, one_slot(3, 0), 0)?,
        Some(100)
    );
    let three = [one_slot(2, 50), one_slot(1, 80), one_slot(1, 90)];
    for (cores, now, second) in [
        (1, 0, 50),
        (2, 0, 50),
        (3, 0, 80),
        (4, 0, 90),
        (1, 49, 50),
        (1, 50, 50),
        (1, 60, 60),
        (4, 200, 200),
    ] {
        assert_eq!(rt;
            reserved(&rt, alloc, 1, &three, one_slot(cores, 0), now)?,
            Some(second)
        );
    }
    assert_eq!(rt; reserved(&rt, alloc, 1, &three, one_slot(5, 0), 0)?, None);
    Ok(())
}

#[test]
fn slots_wait_for_several_hosts(rt: HostRuntime) -> Result<(), Fail> {
    let alloc = rt.alloc();
    let jobs = [one_slot(4, 30), one_slot(3, 60), one_slot(4, u64::MAX)];
    for (slots, second) in [(1, 30), (2, 60), (3, u64::MAX)] {
        let head = Job {
            slots,
            ..one_slot(4, 0)
        };
        assert_eq!(rt; reserved(&rt, alloc, 3, &jobs, head, 7)?, Some(second));
    }
    assert_eq!(rt; reserved(&rt, alloc, 3, &[], one_slot(4, 0), 7)?, Some(7));
    assert_eq!(rt; reserved(&rt, alloc, 0, &[], one_slot(1, 0), 7)?, None);
    Ok(())
}

/// Whether a head keeps its second beside an offer, as its reservation tells it both times that it
/// is asked.
fn keeps_reservation(
    alloc: Global,
    grant: &Resources,
    live: &[Hold],
    head: &JobSpec,
    offer: &Hold,
) -> Result<(bool, bool), AllocError>
    requires spec { IsSpec head.now }
    requires grant { AreHosts grant.now.nodes }
    requires held { AreHeld grant.now.nodes live.now }
    requires beside { AreHeld grant.now.nodes (live.now ++ offer.now ∷ []) }
{
    match Reservation::of(alloc, grant, live, head, 0)? {
        None => Ok((false, false)),
        Some(mut reserved) => {
            let first = reserved.keeps(grant, live, head, offer, 0)?;
            Ok((first, reserved.keeps(grant, live, head, offer, 0)?))
        }
    }
}

/// Whether a head keeps its second where a job takes the first units that are left.
fn keeps(
    rt: &impl Abort,
    alloc: Global,
    jobs: &[Job],
    head: Job,
    next: Job,
) -> Result<bool, AllocError> {
    let grant = grant(alloc, 1)?;
    let live = live_jobs(alloc, &grant, jobs)?;
    let head = spec(alloc, head);
    assert!(rt; is_spec(&head));
    match offer(alloc, &grant, &live, next)? {
        None => Ok(false),
        Some(hold) => {
            let passes = passes(alloc, &grant, &live, &head, &hold, 0)?;
            let kept = keeps_reservation(alloc, &grant, &live, &head, &hold)?;
            assert_eq!(rt; kept, (passes, passes));
            Ok(passes)
        }
    }
}

#[test]
fn a_job_passes_that_delays_nothing(rt: HostRuntime) -> Result<(), Fail> {
    let alloc = rt.alloc();
    let busy = [one_slot(3, 100)];
    for (until, passes) in [
        (50, true),
        (100, true),
        (101, false),
        (200, false),
        (0, false),
    ] {
        assert_eq!(rt;
            keeps(&rt, alloc, &busy, one_slot(4, 0), one_slot(1, until))?,
            passes
        );
    }
    assert!(rt; keeps(&rt, alloc, &busy, one_slot(3, 0), one_slot(1, 0))?);
    assert!(rt; !keeps(&rt, alloc, &busy, one_slot(5, 0), one_slot(1, 50))?);
    assert!(rt; !keeps(&rt, alloc, &busy, one_slot(1, 0), one_slot(1, 50))?);
    Ok(())
}

#[test]
fn a_copy_is_equal(rt: HostRuntime) -> Result<(), Fail> {
    let alloc = rt.alloc();
    let grant = grant(alloc, 1)?;
    let hold = offer(alloc, &grant, &[], one_slot(3, 100))?.ok_or("no units")?;
    let twin = hold.copy()?;
    assert_eq!(rt; (twin.id, twin.until), (0, 100));
    assert_eq!(rt; twin.units.nodes.as_slice().len(), 1);
    Ok(())
}
