//! The words of brokers that are read without a lock.
ghost use Rattle.std.specs.Prelude.{◌≡◌};

use root_feed::{Blank, Feed, FeedName, Herald, Looked, Opened, Pass};
use std::alloc::Global;
use std::marker::Brand;
use std::test::Fail;
use std::thread::{self, Threads};

// What a look told, with the number that it loaded.
#[derive(Clone, Copy, Debug, PartialEq, Eq)]
enum Told {
    Seen { broker: u32, number: u64 },
    Behind { have: u64, need: u64 },
}

fn answer_of<N: FeedName>(looked: Looked<N>) -> Told {
    match looked {
        Looked::Seen(seen) => Told::Seen {
            broker: seen.broker(),
            number: seen.number(),
        },
        Looked::Behind { have, need } => Told::Behind { have, need },
    }
}

// One broker: looks before the first number, at it, and at the next.
fn looks_at_one_broker<N: FeedName>(alloc: Global, blank: Blank) -> Result<[Told; 4], Fail>
    requires { (blank.table ≡ N.table) × (blank.brokers ≡ 1) }
{
    let Opened {
        feed,
        mut heralds,
        mut passes,
    } = blank.open::<N>(alloc)?;
    let mut herald = heralds.pop().ok_or("a herald")?;
    let mut pass = passes.pop().ok_or("a pass")?;
    let early = pass.look(&feed, 1);
    herald.raise(&feed, 1);
    let first = pass.look(&feed, 0);
    herald.raise(&feed, 2);
    let second = pass.look(&feed, 0);
    let late = pass.look(&feed, 3);
    Ok([
        answer_of(early),
        answer_of(first),
        answer_of(second),
        answer_of(late),
    ])
}

#[test]
fn a_look_sees_what_was_raised_by_then(rt: HostRuntime) -> Result<(), Fail> {
    let blank = Blank::new(rt.alloc(), 1, &[0])?;
    let [early, first, second, late] = looks_at_one_broker::<Brand>(rt.alloc(), blank)?;
    assert_eq!(rt; early, Told::Behind { have: 0, need: 1 });
    assert_eq!(rt;
        first,
        Told::Seen {
            broker: 0,
            number: 1
        }
    );
    assert_eq!(rt;
        second,
        Told::Seen {
            broker: 0,
            number: 2
        }
    );
    assert_eq!(rt; late, Told::Behind { have: 2, need: 3 });
    Ok(())
}

// Two brokers: what a pass saw at the first is carried to a pass at the other and to both heralds.
fn carries_notes<N: FeedName>(alloc: Global, blank: Blank) -> Result<(Vec<u64>, [Told; 2]), Fail>
    requires { (blank.table ≡ N.table) × (blank.brokers ≡ 2) }
{
    let Opened {
        feed,
        mut heralds,
        mut passes,
    } = blank.open::<N>(alloc)?;
    let mut second = heralds.pop().ok_or("a second herald")?;
    let mut first = heralds.pop().ok_or("a first herald")?;
    let mut at_second = passes.pop().ok_or("a second pass")?;
    let mut at_first = passes.pop().ok_or("a first pass")?;
    first.raise(&feed, 5);
    second.raise(&feed, 3);
    let seen = at_first.look(&feed, 5);
    let note = at_first.note(&feed);
    at_second.hear(&feed, note);
    let other = at_second.look(&feed, 4);
    let mut met = Vec::new(alloc);
    met.push(first.meet(&feed, at_second.note(&feed)))?;
    met.push(second.meet(&feed, at_second.note(&feed)))?;
    first.raise(&feed, 5);
    met.push(first.meet(&feed, at_first.note(&feed)))?;
    Ok((met, [answer_of(seen), answer_of(other)]))
}

#[test]
fn a_note_carries_what_was_seen(rt: HostRuntime) -> Result<(), Fail> {
    let blank = Blank::new(rt.alloc(), 2, &[0, 1])?;
    let (met, [seen, other]) = carries_notes::<Brand>(rt.alloc(), blank)?;
    assert_eq!(rt; met.as_slice(), [5, 3, 5].as_slice());
    assert_eq!(rt;
        seen,
        Told::Seen {
            broker: 0,
            number: 5
        }
    );
    assert_eq!(rt; other, Told::Behind { have: 3, need: 4 });
    Ok(())
}

// Two brokers with a pass at the second: looks at its number and at the next, and the herald meets
// what was seen.
fn looks_at_the_second<N: FeedName>(alloc: Global, blank: Blank) -> Result<([Told; 2], u64), Fail>
    requires { (blank.table ≡ N.table) × (blank.brokers ≡ 2) }
{
    let Opened {
        feed,
        mut heralds,
        mut passes,
    } = blank.open::<N>(alloc)?;
    let mut herald = heralds.pop().ok_or("a herald")?;
    let mut pass = passes.pop().ok_or("a pass")?;
    herald.raise(&feed, 1);
    let seen = pass.look(&feed, 1);
    let late = pass.look(&feed, 2);
    let met = herald.meet(&feed, pass.note(&feed));
    Ok(([answer_of(seen), answer_of(late)], met))
}

#[test]
fn a_herald_meets_what_its_pass_saw(rt: HostRuntime) -> Result<(), Fail> {
    let blank = Blank::new(rt.alloc(), 2, &[1])?;
    let ([seen, late], met) = looks_at_the_second::<Brand>(rt.alloc(), blank)?;
    assert_eq!(rt;
        seen,
        Told::Seen {
            broker: 1,
            number: 1
        }
    );
    assert_eq!(rt; late, Told::Behind { have: 1, need: 2 });
    assert_eq!(rt; met, 1);
    Ok(())
}

// Opens a feed with a pass at every second place.
fn count_of_seats<N: FeedName>(alloc: Global, blank: Blank) -> Result<(usize, usize), Fail>
    requires { blank.table ≡ N.table }
{
    let Opened {
        feed: _,
        heralds,
        passes,
    } = blank.open::<N>(alloc)?;
    Ok((heralds.len(), passes.len()))
}

#[test]
fn the_greatest_feed_has_all_its_seats(rt: HostRuntime) -> Result<(), Fail> {
    let mut at = Vec::new(rt.alloc());
    for place in 0..256u32 {
        at.push(place % 32)?;
    }
    let blank = Blank::new(rt.alloc(), 32, at.as_slice())?;
    assert_eq!(rt; count_of_seats::<Brand>(rt.alloc(), blank)?, (32, 256));
    let blank = Blank::new(rt.alloc(), 1, &[])?;
    assert_eq!(rt; count_of_seats::<Brand>(rt.alloc(), blank)?, (1, 0));
    Ok(())
}

// Raises the word one by one.
fn raise_to<N: FeedName>(feed: &Feed<N>, mut herald: Herald<N>, top: u64) -> Herald<N>
    requires { herald.number ≡ 0 }
{
    for number in 0..top {
        herald.raise(feed, number + 1);
    }
    herald
}

// Looks until the number is seen, and answers whether it was, and whether no look went back.
fn look_until<N: FeedName>(feed: &Feed<N>, mut pass: Pass<N>, need: u64) -> (Pass<N>, bool, bool) {
    let mut last = 0;
    let mut rising = true;
    for _ in 0..10_000_000u64 {
        match pass.look(feed, need) {
            Looked::Seen(seen) => return (pass, true, rising && last <= seen.number()),
            Looked::Behind { have, .. } => {
                rising = rising && last <= have;
                last = have;
            }
        }
        thread::yield_now();
    }
    (pass, false, rising)
}

// One thread raises a word while another looks at it.
fn raise_and_look<N: FeedName + Send + Sync, R: Threads + Sync>(
    rt: &R,
    alloc: Global,
    blank: Blank,
    top: u64,
) -> Result<(bool, bool, u64), Fail>
    requires { (blank.table ≡ N.table) × (blank.brokers ≡ 1) }
{
    let Opened {
        feed,
        mut heralds,
        mut passes,
    } = blank.open::<N>(alloc)?;
    let herald = heralds.pop().ok_or("a herald")?;
    let pass = passes.pop().ok_or("a pass")?;
    let (mut herald, (mut pass, seen, rising)) = thread::join(
        rt,
        || -> Herald<N>
            requires { herald.number ≡ 0 }
        { raise_to(&feed, herald, top) },
        || look_until(&feed, pass, top),
    );
    let met = herald.meet(&feed, pass.note(&feed));
    Ok((seen, rising, met))
}

#[test]
fn a_running_pass_sees_what_a_running_herald_raises(rt: HostRuntime) -> Result<(), Fail> {
    let blank = Blank::new(rt.alloc(), 1, &[0])?;
    let told = raise_and_look::<Brand, _>(&rt, rt.alloc(), blank, 20_000)?;
    assert_eq!(rt; told, (true, true, 20_000));
    Ok(())
}
