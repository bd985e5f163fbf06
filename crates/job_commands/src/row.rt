//! Open job commands.
ghost use Rattle.std.specs.Prelude.{◌≡◌, not, filter, find};
ghost use Rattle.std.specs.Option.{option_copied};
ghost use Rattle.job_commands.specs.Rows.{AreCarried, carried, is_of};

use crate::ask::JobAsk;
use kvs_txn::By;

/// How far an open command has come.
#[derive(Clone, Copy, Debug, PartialEq, Eq)]
pub enum Stage {
    /// No landing has carried it out.
    Waits,
    /// The landing of this number has.
    Landed { number: u64 },
}

/// An open command: its broker, what it asks, the second of its issue, how many submissions were
/// issued at its broker in that second before it, and how far it has come.
#[derive(Drop)]
pub struct Row {
    pub by: By,
    pub rank: u32,
    pub ask: JobAsk,
    pub issued: u64,
    pub sequence: u64,
    pub stage: Stage,
}

/// Whether a row is of this command.
fn is_of(row: &Row, by: By) -> bool
    ensures { result ≡ is_of by row.now }
{
    by.actor == row.by.actor && by.command == row.by.command
}

/// The row of a command.
pub(crate) fn row_of(rows: &[Row], by: By) -> Option<&Row>
    ensures { option_copied result ≡ find (is_of by) rows.now }
{
    rows.iter().find(|row| is_of(row, by))
}

/// Takes the rows of a command out.
pub(crate) fn forget(rows: &mut Vec<Row>, by: By)
    ensures { rows.new.items ≡ filter (λ row. not (is_of by row)) rows.old.items }
{
    rows.retain(|row| !is_of(row, by));
}

/// A row, once the landing of this number has carried out a command.
fn carry_row(row: &mut Row, by: By, number: u64)
    ensures { row.new ≡ carried by number row.old }
{
    if is_of(row, by) {
        row.stage = Stage::Landed { number };
    }
}

/// The rows, once the landing of this number has carried out a command.
pub(crate) fn carry(rows: &mut Vec<Row>, by: By, number: u64)
    ensures { AreCarried by number rows.old.items rows.new.items }
{
    for i in 0..rows.len() {
        carry_row(&mut rows[i], by, number);
    }
}
