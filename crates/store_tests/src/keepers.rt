//! Keepers of contents and checks, in memory and over a file.
use backing::{Check, KeepFault, Keeper, MemKeeper, SqlKeeper, Write};
use fl_digest::{BlobRef, Hash, Root};
use lists::{Bytes, Copied};
use std::alloc::{AllocError, Global};
use std::fs;
use std::process::Abort;
use std::test::Fail;

/// A call of a keeper; a reference is named by its content, and so is a root by that of its
/// reference.
#[derive(Clone, Copy)]
enum Ask {
    Put(&'static str, &'static str),
    Get(&'static str),
    Mark(&'static str, u64, u64),
    /// The last check, where it is of this root.
    Last(&'static str),
}

/// A call and its answer.
struct Turn {
    ask: Ask,
    answer: &'static str,
}

fn reference(name: &str) -> BlobRef {
    BlobRef::of(Hash::Sha1, name.as_bytes())
}

fn check(name: &str, number: u64, second: u64) -> Check {
    Check {
        root: Root {
            reference: reference(name),
            number,
        },
        second,
    }
}

/// A refusal by its name, with the bytes of a clash.
fn refused(alloc: Global, fault: KeepFault) -> Result<String, AllocError> {
    match fault {
        KeepFault::NoMemory => format!(in alloc; "no memory"),
        KeepFault::Failed => format!(in alloc; "failed"),
        KeepFault::Clash(kept) => format!(in alloc; "clash {:?}", kept.as_slice()),
    }
}

fn done(alloc: Global, answer: Result<(), KeepFault>) -> Result<String, AllocError> {
    match answer {
        Ok(()) => format!(in alloc; "ok"),
        Err(fault) => refused(alloc, fault),
    }
}

fn got(alloc: Global, answer: Result<Option<Bytes>, KeepFault>) -> Result<String, AllocError> {
    match answer {
        Ok(Some(bytes)) => format!(in alloc; "{:?}", bytes.as_slice()),
        Ok(None) => format!(in alloc; "nothing"),
        Err(fault) => refused(alloc, fault),
    }
}

/// A check that is of this root, by its number and second.
fn marked(
    alloc: Global,
    answer: Result<Option<Check>, KeepFault>,
    name: &str,
) -> Result<String, AllocError> {
    let check = match answer {
        Ok(Some(check)) => check,
        Ok(None) => return format!(in alloc; "nothing"),
        Err(fault) => return refused(alloc, fault),
    };
    if check.root.reference != reference(name) {
        return format!(in alloc; "another root");
    }
    format!(in alloc; "{} at {}", check.root.number, check.second)
}

fn asked<P: Keeper>(alloc: Global, keeper: &mut P, ask: Ask) -> Result<String, AllocError> {
    match ask {
        Ask::Put(name, bytes) => {
            let bytes = Bytes::of(alloc, bytes.as_bytes())?;
            done(alloc, keeper.put(reference(name), &bytes))
        }
        Ask::Get(name) => got(alloc, keeper.get(&reference(name))),
        Ask::Mark(name, number, second) => done(alloc, keeper.mark(check(name, number, second))),
        Ask::Last(name) => marked(alloc, keeper.last(), name),
    }
}

/// Makes the calls in their order.
fn walk<P: Keeper>(
    rt: &impl Abort,
    alloc: Global,
    keeper: &mut P,
    turns: &[Turn],
) -> Result<(), AllocError> {
    for turn in turns {
        let answer = asked(alloc, keeper, turn.ask)?;
        assert!(rt; answer.as_str() == turn.answer, "{}", turn.answer);
    }
    Ok(())
}

const TOLD: [Turn; 10] = [
    Turn {
        ask: Ask::Get("a"),
        answer: "nothing",
    },
    Turn {
        ask: Ask::Last("a"),
        answer: "nothing",
    },
    Turn {
        ask: Ask::Put("a", "xy"),
        answer: "ok",
    },
    Turn {
        ask: Ask::Mark("a", 3, 40),
        answer: "ok",
    },
    Turn {
        ask: Ask::Put("a", "xy"),
        answer: "ok",
    },
    Turn {
        ask: Ask::Put("a", "z"),
        answer: "clash [120, 121]",
    },
    Turn {
        ask: Ask::Mark("b", 2, 50),
        answer: "ok",
    },
    Turn {
        ask: Ask::Get("a"),
        answer: "[120, 121]",
    },
    Turn {
        ask: Ask::Get("b"),
        answer: "nothing",
    },
    Turn {
        ask: Ask::Last("b"),
        answer: "2 at 50",
    },
];

#[test]
fn memory_tells_what_it_was_given(rt: HostRuntime) -> Result<(), Fail> {
    let alloc = rt.alloc();
    let mut keeper = MemKeeper::new(Vec::new(alloc), Vec::new(alloc));
    walk(&rt, alloc, &mut keeper, &TOLD)?;
    assert_eq!(rt; keeper.writes().len(), 4);
    Ok(())
}

/// The calls 0, 2, 3 and 4 are listed.
const LISTED: [Turn; 6] = [
    Turn {
        ask: Ask::Put("b", "y"),
        answer: "failed",
    },
    Turn {
        ask: Ask::Put("b", "y"),
        answer: "ok",
    },
    Turn {
        ask: Ask::Put("b", "z"),
        answer: "clash [121]",
    },
    Turn {
        ask: Ask::Get("b"),
        answer: "failed",
    },
    Turn {
        ask: Ask::Last("b"),
        answer: "failed",
    },
    Turn {
        ask: Ask::Mark("b", 1, 1),
        answer: "ok",
    },
];

#[test]
fn memory_fails_at_the_calls_listed(rt: HostRuntime) -> Result<(), Fail> {
    let alloc = rt.alloc();
    let mut writes = Vec::new(alloc);
    writes.push(Write::Put(reference("a"), Bytes::of(alloc, b"x")?))?;
    let mut keeper = MemKeeper::new(writes, [0, 2, 3, 4].to_vec(alloc)?);
    walk(&rt, alloc, &mut keeper, &LISTED)?;
    assert_eq!(rt; keeper.writes().len(), 3);
    Ok(())
}

/// Behind these the keeper goes, with a put that no check follows.
const WRITTEN: [Turn; 7] = [
    Turn {
        ask: Ask::Get("a"),
        answer: "nothing",
    },
    Turn {
        ask: Ask::Last("a"),
        answer: "nothing",
    },
    Turn {
        ask: Ask::Put("a", "xy"),
        answer: "ok",
    },
    Turn {
        ask: Ask::Put("b", ""),
        answer: "ok",
    },
    Turn {
        ask: Ask::Mark("a", 3, 40),
        answer: "ok",
    },
    Turn {
        ask: Ask::Mark("b", 4, 50),
        answer: "ok",
    },
    Turn {
        ask: Ask::Put("c", "z"),
        answer: "ok",
    },
];

/// What the next keeper finds. A number of 2^63 or more has no place in the file.
const FOUND: [Turn; 9] = [
    Turn {
        ask: Ask::Get("a"),
        answer: "[120, 121]",
    },
    Turn {
        ask: Ask::Get("b"),
        answer: "[]",
    },
    Turn {
        ask: Ask::Get("c"),
        answer: "[122]",
    },
    Turn {
        ask: Ask::Last("b"),
        answer: "4 at 50",
    },
    Turn {
        ask: Ask::Put("a", "xy"),
        answer: "ok",
    },
    Turn {
        ask: Ask::Put("a", "z"),
        answer: "clash [120, 121]",
    },
    Turn {
        ask: Ask::Mark("a", u64::MAX, 1),
        answer: "failed",
    },
    Turn {
        ask: Ask::Get("a"),
        answer: "[120, 121]",
    },
    Turn {
        ask: Ask::Last("b"),
        answer: "4 at 50",
    },
];

/// Where no file opens every call fails.
const CLOSED: [Turn; 4] = [
    Turn {
        ask: Ask::Put("a", "x"),
        answer: "failed",
    },
    Turn {
        ask: Ask::Get("a"),
        answer: "failed",
    },
    Turn {
        ask: Ask::Mark("a", 1, 1),
        answer: "failed",
    },
    Turn {
        ask: Ask::Last("a"),
        answer: "failed",
    },
];

/// Makes the calls of a keeper over the file at a path, which goes behind them.
fn walk_file(
    rt: &HostRuntime,
    abort: &impl Abort,
    path: &str,
    turns: &[Turn],
) -> Result<(), AllocError> {
    let mut keeper = SqlKeeper::open(rt, rt.alloc(), path)?;
    let walked = walk(abort, rt.alloc(), &mut keeper, turns);
    drop(keeper);
    walked
}

#[test]
fn a_file_keeps_what_was_written(rt: HostRuntime) -> Result<(), Fail> {
    let _ = fs::remove_dir_all(&rt, "backing_test");
    fs::create_dir(&rt, "backing_test")?;
    walk_file(&rt, &rt, "backing_test/kept.db", &WRITTEN)?;
    walk_file(&rt, &rt, "backing_test/kept.db", &FOUND)?;
    walk_file(&rt, &rt, "backing_test/no_folder/kept.db", &CLOSED)?;
    fs::remove_dir_all(&rt, "backing_test")?;
    Ok(())
}

/// Whether the copy of a put puts the same bytes under the same reference.
fn is_put_again(alloc: Global) -> Result<bool, Fail> {
    let bytes = Bytes::of(alloc, b"x")?;
    let twin = Write::Put(reference("a"), bytes).copy()?;
    Ok(match &twin {
        Write::Put(kept, bytes) => *kept == reference("a") && bytes.as_slice() == b"x".as_slice(),
        _ => false,
    })
}

#[test]
fn copies_are_equal(rt: HostRuntime) -> Result<(), Fail> {
    assert!(rt; is_put_again(rt.alloc())?);
    assert_eq!(rt; check("a", 1, 2).copy()?, check("a", 1, 2));
    Ok(())
}
