//! Next seconds of small tables of commands.
ghost use Rattle.std.specs.Prelude.{◌<◌, ◌^◌, All, IfSome, IsTrue, filter_map};
ghost use Rattle.job_clock.specs.Targets.{target_in as target_of};

use job_book::{Book, Policy};
use job_clock::next_tick;
use job_commands::{Commands, JobAsk, Row};
use kvs_txn::By;
use std::alloc::{AllocError, Global};
use std::test::Fail;

/// A grant of one host of two cores, without an end.
const GRANT: &str =
    "{\"version\":1,\"execution\":{\"R_lite\":[{\"rank\":\"0\",\"children\":{\"core\":\"0-1\"}}],\
        \"nodelist\":[\"a0\"],\"starttime\":0,\"expiration\":0}}";

/// The seconds of three advances that were issued at second 5, and which second comes next after
/// another one: 0 where none does.
const TICKS: [([u64; 3], u64, u64); 9] = [
    ([3, 3, 3], 5, 8),
    ([3, 3, 3], 7, 8),
    ([3, 3, 3], 8, 0),
    ([3, 3, 3], 9, 0),
    ([0, 0, 0], 5, 0),
    ([9, 1, 4], 5, 6),
    ([9, 1, 4], 6, 9),
    ([9, 1, 4], 9, 14),
    ([0, 0, 18446744073709551610], 5, 18446744073709551615),
];

/// Whether the second that a command waits for fits.
fn fits(row: &Row) -> bool
    ensures { IsTrue result → IfSome (target_of row.now) (λ target. target < 2 ^ 64) }
{
    match &row.ask {
        JobAsk::Advance { seconds } => row.issued.checked_add(*seconds).is_some(),
        _ => true,
    }
}

/// Whether all seconds that commands wait for fit.
fn all_fit(rows: &[Row]) -> bool
    ensures { IsTrue result → All (λ target. target < 2 ^ 64) (filter_map target_of rows.now) }
{
    rows.iter().all(|row| fits(row))
}

/// Three advances, a listing before them, and no jobs.
fn advances(alloc: Global, seconds: [u64; 3]) -> Result<Commands, AllocError> {
    let mut commands = Commands::new(alloc, 1)?;
    let [first, second, third] = seconds;
    let by = By {
        actor: 7,
        command: 0,
    };
    commands.issue(by, 0, 5, JobAsk::Jobs)?;
    commands.issue(
        By { command: 1, ..by },
        0,
        5,
        JobAsk::Advance { seconds: first },
    )?;
    commands.issue(
        By { command: 2, ..by },
        0,
        5,
        JobAsk::Advance { seconds: second },
    )?;
    commands.issue(
        By { command: 3, ..by },
        0,
        5,
        JobAsk::Advance { seconds: third },
    )?;
    Ok(commands)
}

/// A book of no jobs.
fn book(alloc: Global) -> Result<Book, Fail> {
    let grant = resource_set::read(alloc, GRANT.as_bytes())?;
    Ok(Book::new(alloc, &grant, Policy::FirstFit)?)
}

/// The next second of these commands.
fn next_of(commands: &Commands, book: &Book, now: u64) -> Result<Option<u64>, Fail> {
    if !all_fit(commands.rows()) {
        return Err("too late a second".into());
    }
    Ok(next_tick(commands, book, now))
}

/// Whether this second comes next where no job runs, 0 where none does.
fn goes_to(alloc: Global, seconds: [u64; 3], now: u64, wanted: u64) -> Result<bool, Fail> {
    let commands = advances(alloc, seconds)?;
    let book = book(alloc)?;
    Ok(next_of(&commands, &book, now)?.unwrap_or(0) == wanted)
}

#[test]
fn time_goes_to_the_next_target(rt: HostRuntime) -> Result<(), Fail> {
    for (seconds, now, wanted) in &TICKS {
        assert!(rt;
            goes_to(rt.alloc(), *seconds, *now, *wanted)?,
            "after {now}"
        );
    }
    Ok(())
}
