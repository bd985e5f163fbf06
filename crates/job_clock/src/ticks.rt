//! The second to which time goes next.
ghost use Rattle.std.specs.Prelude.{◌≡◌, ◌<◌, ◌≤◌, ◌^◌, All, IfNone, IfSome, filter, filter_map, nat_lt};
ghost use Rattle.job_book.specs.Contract.{seconds_left};
ghost use Rattle.job_book.specs.Seconds.{IsSoonest};
ghost use Rattle.job_clock.specs.Targets.{IsNextTick, target_in, targets_of};

use job_book::Book;
use job_commands::{Commands, JobAsk, Row, Stage};

/// The second that an open advance waits for.
fn target_in(row: &Row) -> Option<u64>
    requires { IfSome (target_in row.now) (λ target. target < 2 ^ 64) }
    ensures { result ≡ target_in row.now }
{
    match row.stage {
        Stage::Waits => match &row.ask {
            JobAsk::Advance { seconds } => Some(row.issued + *seconds),
            _ => None,
        },
        Stage::Landed { .. } => None,
    }
}

/// The least second ahead that a row's advance waits for.
fn next_of_rows(rows: &[Row], now: u64) -> Option<u64>
    requires { All (λ row. IfSome (target_in row) (λ target. target < 2 ^ 64)) rows.now }
    ensures { IsSoonest
        (filter (λ target. nat_lt now target) (filter_map target_in rows.now)) result }
{
    rows.iter()
        .filter_map(|row| target_in(row))
        .filter(|target| now < *target)
        .min()
}

/// The least second ahead that an open advance waits for. This takes no memory.
pub fn next_target(commands: &Commands, now: u64) -> Option<u64>
    requires { All (λ target. target < 2 ^ 64) (targets_of commands.now) }
    ensures { IsSoonest (filter (λ target. nat_lt now target) (targets_of commands.now)) result }
{
    next_of_rows(commands.rows(), now)
}

/// The second to which time goes next, where nothing is due now: none where no open advance waits
/// for a later second. A job's command or resources may end before the least of these. This takes
/// no memory.
pub fn next_tick(commands: &Commands, book: &Book, now: u64) -> Option<u64>
    requires bounded { All (λ target. target < 2 ^ 64) (targets_of commands.now) }
    ensures some { IfSome result (λ second. IsNextTick (targets_of commands.now)
        (seconds_left now book.now) now second) }
    ensures none { IfNone result (All (λ target. target ≤ now) (targets_of commands.now)) }
{
    let target = next_target(commands, now)?;
    match book.next_second(now) {
        Some(second) => Some(target.min(second)),
        None => Some(target),
    }
}
