//! Texts of numbers, authors and replies that no run comes to.
use answers::chronicle::{Chronicle, Entry, Reply};
use answers::printing::{print_answers, print_journal};
use kvs_txn::{Author, AuthorNames, By, Cause, Found, Group, Refusal, Txn};
use lists::{Bytes, ListOf};
use std::alloc::{AllocError, Global};
use std::test::Fail;
use workload::{Command, Line, Workload};

/// A workload with a command line of each of these actors.
fn lines_of(alloc: Global, actors: &[u32]) -> Result<Workload, AllocError> {
    let mut work = Workload::new(alloc);
    for actor in actors {
        work.lines.push(Line {
            actor: *actor,
            command: Command::Commit,
        })?;
    }
    Ok(work)
}

/// Whether the reply to the only command of a workload prints as this line.
fn prints_reply(
    alloc: Global,
    reply: Reply,
    number: Option<u64>,
    line: &str,
) -> Result<bool, AllocError> {
    let mut chronicle: Chronicle = ListOf::new(alloc);
    chronicle.push(replied(7, 0, reply, number))?;
    let work = lines_of(alloc, &[7])?;
    let answers = print_answers(alloc, &work, &chronicle)?;
    Ok(answers.as_slice() == line.as_bytes())
}

/// Whether an entry prints as this line of the journal.
fn prints_entry(alloc: Global, entry: Entry, line: &str) -> Result<bool, AllocError> {
    let mut chronicle: Chronicle = ListOf::new(alloc);
    chronicle.push(entry)?;
    let journal = print_journal(alloc, &chronicle)?;
    Ok(journal.as_slice() == line.as_bytes())
}

fn authors(alloc: Global, authors: &[Option<By>]) -> Result<AuthorNames, AllocError> {
    let mut list = ListOf::new(alloc);
    for author in authors {
        list.push(*author)?;
    }
    Ok(list)
}

fn landed(alloc: Global) -> Result<Entry, AllocError> {
    let first = By {
        actor: 0,
        command: 1,
    };
    let last = By {
        actor: 12,
        command: 3,
    };
    Ok(Entry::Landed {
        instance: 0,
        namespace: Bytes::of(alloc, b"primary")?,
        number: 1,
        authors: authors(alloc, &[Some(first), None, Some(last)])?,
        groups: ListOf::new(alloc),
    })
}

fn denied(alloc: Global) -> Result<Entry, AllocError> {
    let author = By {
        actor: u32::MAX,
        command: 0,
    };
    Ok(Entry::Denied {
        instance: 0,
        namespace: Bytes::of(alloc, b"n-1")?,
        authors: authors(alloc, &[Some(author)])?,
        group: Group {
            txn: Txn::new(alloc, Author::Manager),
            authors: ListOf::new(alloc),
        },
        refusal: Refusal {
            op: 2,
            cause: Cause::RootOp,
        },
    })
}

fn replied(actor: u32, command: u32, reply: Reply, number: Option<u64>) -> Entry {
    Entry::Replied {
        actor,
        command,
        reply,
        number,
    }
}

/// Replies out of the workload's order, one command's twice.
fn mixed(alloc: Global) -> Result<Chronicle, AllocError> {
    let mut chronicle: Chronicle = ListOf::new(alloc);
    chronicle.push(replied(1, 0, Reply::Told, None))?;
    chronicle.push(replied(0, 1, Reply::Committed, Some(1)))?;
    chronicle.push(replied(0, 0, Reply::TxnFull, None))?;
    chronicle.push(replied(0, 0, Reply::Staged, None))?;
    Ok(chronicle)
}

/// Whether the answers stand in the workload's order, the newest of each command, and empty where
/// it has none.
fn prints_in_order(alloc: Global) -> Result<bool, AllocError> {
    let chronicle = mixed(alloc)?;
    let work = lines_of(alloc, &[0, 1, 2, 0, 1])?;
    let answers = print_answers(alloc, &work, &chronicle)?;
    Ok(answers.as_slice() == b"staged\ntold\n\ncommitted 1\n\n".as_slice())
}

/// Whether replies of the last numbers there are, of nothing in the way or shown, of a clash and of
/// a limit print so.
fn print_at_their_ends(alloc: Global) -> Result<bool, AllocError> {
    let last = Reply::Advanced { second: u64::MAX };
    let empty = Reply::Read {
        found: Found::Value(Bytes::new(alloc)),
        uses: ListOf::new(alloc),
    };
    let alone = Reply::Busy(ListOf::new(alloc));
    let clash = Reply::Refused(Refusal {
        op: 1,
        cause: Cause::Clash,
    });
    let advanced = prints_reply(alloc, last, None, "advanced 18446744073709551615\n")?;
    let valued = prints_reply(
        alloc,
        empty,
        Some(u64::MAX),
        "value 18446744073709551615 \n",
    )?;
    let busy = prints_reply(alloc, alone, Some(22), "why 22 Busy\n")?;
    let clashed = prints_reply(alloc, clash, None, "refused 1 Clash\n")?;
    let unseen = Reply::Watched(ListOf::new(alloc));
    let watched = prints_reply(alloc, unseen, Some(10), "watched 10\n")?;
    let checked = prints_reply(alloc, Reply::Checked(7), None, "Checked 7\n")?;
    Ok(advanced && valued && busy && clashed && watched && checked)
}

#[test]
fn what_no_run_comes_to_has_its_text(rt: HostRuntime) -> Result<(), Fail> {
    let alloc = rt.alloc();
    assert!(rt; print_at_their_ends(alloc)?);
    assert!(rt; prints_entry(alloc, landed(alloc)?, "landed 0 primary 1 0.1 m 12.3\n")?);
    assert!(rt;
        prints_entry(
            alloc,
            denied(alloc)?,
            "denied 0 n-1 2 RootOp 4294967295.0\n"
        )?
    );
    assert!(rt; prints_in_order(alloc)?);
    Ok(())
}
