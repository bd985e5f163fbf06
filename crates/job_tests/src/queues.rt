//! The queue of waiting jobs, and the dependencies that an end settles.
use job_queue::{Outcome, Queue, Scheme, Settled};
use std::alloc::Global;
use std::test::Fail;

/// What the end of job 5 makes of each scheme: with success or not, after a start or not.
const ENDS: [(Scheme, bool, bool, bool); 8] = [
    (Scheme::After, true, true, true),
    (Scheme::After, false, false, false),
    (Scheme::AfterAny, true, true, true),
    (Scheme::AfterAny, false, false, true),
    (Scheme::AfterOk, true, true, true),
    (Scheme::AfterOk, false, true, false),
    (Scheme::AfterNotOk, true, true, false),
    (Scheme::AfterNotOk, false, false, true),
];

#[test]
fn the_greatest_priority_goes_first(rt: HostRuntime) -> Result<(), Fail> {
    let mut queue = Queue::new(rt.alloc());
    assert_eq!(rt; queue.head(), None);
    queue.put(5, 16)?;
    queue.put(6, 20)?;
    assert_eq!(rt; queue.head(), Some(6));
    assert!(rt; queue.set_priority(6, 0));
    assert_eq!(rt; queue.head(), Some(5));
    assert!(rt; !queue.set_priority(7, 3));
    assert!(rt; queue.take(5));
    assert!(rt; !queue.take(5));
    assert_eq!(rt; queue.head(), None);
    for priority in [7, 9, 8, 9, 7, 9, 8, 9, 3, 4] {
        assert!(rt; queue.set_priority(6, priority));
        assert_eq!(rt; queue.head(), Some(6));
    }
    Ok(())
}

#[test]
fn the_smaller_id_goes_first_at_one_priority(rt: HostRuntime) -> Result<(), Fail> {
    let mut queue = Queue::new(rt.alloc());
    queue.put(8, 16)?;
    queue.put(3, 16)?;
    queue.put(9, 16)?;
    queue.put(4, 16)?;
    for id in [3, 4, 8, 9] {
        assert_eq!(rt; queue.head(), Some(id));
        assert!(rt; queue.take(id));
    }
    Ok(())
}

/// Whether the end of job 5 settles one dependency as a row says, once. Another on job 4 is left.
fn is_settled(queue: &mut Queue, row: &(Scheme, bool, bool, bool)) -> Result<bool, Fail> {
    let (scheme, ok, started, met) = *row;
    queue.depend(9, 5, scheme)?;
    queue.depend(9, 4, scheme)?;
    let settled = queue.settle(5, Outcome::Ended { ok, started })?;
    let (id, on) = (9, 5);
    let wanted = Settled {
        id,
        on,
        scheme,
        met,
    };
    let again = queue.settle(5, Outcome::Ended { ok, started })?;
    Ok(settled.as_slice() == [wanted].as_slice() && again.is_empty())
}

/// Whether the start of job 4 lets these jobs go on.
fn are_started(alloc: Global, queue: &mut Queue, wanted: &[u64]) -> Result<bool, Fail> {
    let started = queue.settle(4, Outcome::Started)?;
    let ids: Vec<u64> = started.iter().map(|one| one.id).collect(alloc)?;
    Ok(ids.as_slice() == wanted)
}

#[test]
fn outcomes_settle_dependencies(rt: HostRuntime) -> Result<(), Fail> {
    let mut queue = Queue::new(rt.alloc());
    for row in &ENDS {
        assert!(rt; is_settled(&mut queue, row)?, "{row:?}");
    }
    queue.depend(3, 4, Scheme::After)?;
    queue.depend(7, 4, Scheme::After)?;
    queue.forget(7, 4);
    assert!(rt; are_started(rt.alloc(), &mut queue, &[3, 9, 9])?);
    Ok(())
}

#[test]
fn a_thousand_jobs_wait_at_once(rt: HostRuntime) -> Result<(), Fail> {
    let mut queue = Queue::new(rt.alloc());
    for id in 0..1000u64 {
        assert!(rt; !queue.take(id));
        queue.put(id, 16)?;
        queue.depend(id, 5000, Scheme::AfterAny)?;
    }
    let (ok, started) = (true, true);
    let settled = queue.settle(5000, Outcome::Ended { ok, started })?;
    assert_eq!(rt; settled.len(), 1000);
    for id in 0..1000u64 {
        assert_eq!(rt; queue.head(), Some(id));
        assert!(rt; queue.take(id));
    }
    assert_eq!(rt; queue.head(), None);
    Ok(())
}
