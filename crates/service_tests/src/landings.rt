//! Under which number a post landed.
use job_landings::number_of_post;
use kvs_rules::KvsEvent;
use kvs_space::KvsEvents;
use kvs_txn::{Author, AuthorNames, Group, GroupList, Txn};
use lists::{Bytes, ListOf};
use std::alloc::{AllocError, Global};
use std::test::Fail;

/// Events that are numbered from 0, each by a letter: `h` for what a broker hears, and for a
/// landing of a transaction of the job manager's `m`, of a user's `u`, and of both `b`; and the
/// number of the first landing with one of the job manager's.
const ROWS: [(&str, Option<u64>); 7] = [
    ("", None),
    ("u", None),
    ("hu", None),
    ("m", Some(0)),
    ("b", Some(0)),
    ("hum", Some(2)),
    ("ubm", Some(1)),
];

#[test]
fn the_first_post_is_found(rt: HostRuntime) -> Result<(), Fail> {
    for (letters, wanted) in &ROWS {
        let number = number(rt.alloc(), letters)?;
        assert!(rt; number == *wanted, "{letters}");
    }
    Ok(())
}

/// A transaction without operations.
fn group(alloc: Global, author: Author) -> Group {
    Group {
        txn: Txn::new(alloc, author),
        authors: ListOf::new(alloc),
    }
}

/// The transactions of a landing.
fn groups(alloc: Global, letter: u8) -> Result<GroupList, AllocError> {
    let mut groups = GroupList::new(alloc);
    if letter != b'm' {
        groups.push(group(alloc, Author::User(1000)))?;
    }
    if letter != b'u' {
        groups.push(group(alloc, Author::Manager))?;
    }
    Ok(groups)
}

/// The event of a letter.
fn event(alloc: Global, letter: u8, number: u64) -> Result<KvsEvent, AllocError> {
    let namespace = Bytes::of(alloc, b"primary")?;
    if letter == b'h' {
        return Ok(KvsEvent::Heard {
            broker: 0,
            namespace,
            number,
        });
    }
    Ok(KvsEvent::Landed {
        namespace,
        number,
        authors: AuthorNames::new(alloc),
        groups: groups(alloc, letter)?,
    })
}

/// The number of the post among the events of these letters.
fn number(alloc: Global, letters: &str) -> Result<Option<u64>, Fail> {
    let mut events = KvsEvents::new(alloc);
    for (place, letter) in letters.as_bytes().iter().enumerate() {
        events.push(event(alloc, *letter, place as u64)?)?;
    }
    Ok(number_of_post(&events))
}
