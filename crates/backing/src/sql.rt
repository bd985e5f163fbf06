//! A keeper over a file of SQLite.
ghost use Rattle.std.specs.Prelude.{◌≡◌, ◌≢◌, None, IfErr, IfOk, IfSome};
ghost use Rattle.backing.specs.Calls.{HandsOther, HasKeepCause, IsNoClash, RefusesWith};
ghost use Rattle.backing.specs.Sql.{FailsClosed};

use crate::Check;
use crate::keeper::{KeepFault, Keeper};
use fl_digest::{BlobRef, Root};
use lists::Bytes;
use sqlite::types::ValueRef;
use sqlite::{Connection, Error, ErrorCode, File, FileStore, Row, params};
use std::alloc::{AllocError, Global};
use std::marker::Model;

type Database = Connection<FileStore<File>>;

const BLOBS: &str =
    "CREATE TABLE IF NOT EXISTS blob (reference BLOB PRIMARY KEY, bytes BLOB NOT NULL) STRICT";

const MARKS: &str = "CREATE TABLE IF NOT EXISTS mark (place INTEGER PRIMARY KEY CHECK (place = 1), \
reference BLOB NOT NULL, number INTEGER NOT NULL, second INTEGER NOT NULL) STRICT";

/// A keeper over a file of SQLite: one table of blobs, and one of the last check. It tells nothing,
/// and counts each refusal but want of memory as a fault. That a file holds what was written is
/// trusted.
#[derive(Drop)]
pub struct SqlKeeper {
    /// None where the file couldn't be opened.
    database: Option<Database>,
    alloc: Global,
    faults: u64,
}

impl Model for SqlKeeper {
    ghost use Rattle.std.specs.Prelude.{is_some};
    ghost use Rattle.backing.specs.Sql.{FileKept};

    ghost Value = { FileKept };

    ghost view = { λ k. record {
      is_open = is_some k.database;
      faults = k.faults;
    } };
}

// Each call of SQLite stands in a function of its own without clauses, so that no proof carries the
// state of a database, and each call's types are gone through once.

/// Runs a statement that gives no rows.
fn run(database: &mut Database, sql: &str, values: &[ValueRef<'_>]) -> Result<(), Error> {
    database.execute(sql, values)?;
    Ok(())
}

/// The first row of a query, if there is one.
fn row_of(
    database: &mut Database,
    sql: &str,
    values: &[ValueRef<'_>],
) -> Result<Option<Row>, Error> {
    match database.query_row(sql, values) {
        Ok(row) => Ok(Some(row)),
        Err(Error::QueryReturnedNoRows) => Ok(None),
        Err(error) => Err(error),
    }
}

fn add_tables(database: &mut Database) -> Result<(), Error> {
    run(database, BLOBS, &[])?;
    run(database, MARKS, &[])
}

/// The file with its two tables.
fn open(rt: &HostRuntime, path: &str) -> Result<Database, Error> {
    let mut database = Connection::open(rt, path)?;
    add_tables(&mut database)?;
    Ok(database)
}

/// The bytes under the name of a reference, if there are any.
fn blob(database: &mut Database, name: &[u8]) -> Result<Option<Vec<u8>>, Error> {
    match row_of(
        database,
        "SELECT bytes FROM blob WHERE reference = ?1",
        params![name],
    )? {
        Some(row) => Ok(Some(row.get(0)?)),
        None => Ok(None),
    }
}

fn add_blob(database: &mut Database, name: &[u8], bytes: &[u8]) -> Result<(), Error> {
    run(
        database,
        "INSERT INTO blob VALUES (?1, ?2)",
        params![name, bytes],
    )
}

/// Puts the check in the place of the one before, in one statement. A number of 2^63 or more has no
/// place in a table.
fn set_check(database: &mut Database, name: &[u8], check: Check) -> Result<(), Error> {
    let too_big = Error::SqliteFailure(ErrorCode::TooBig);
    let number = i64::try_from(check.root.number).map_err(|_| too_big)?;
    let second = i64::try_from(check.second).map_err(|_| too_big)?;
    run(
        database,
        "INSERT OR REPLACE INTO mark VALUES (1, ?1, ?2, ?3)",
        params![name, number, second],
    )
}

/// The check of a row, or that the table is spoilt.
fn check_of(row: &Row) -> Result<Check, Error> {
    let name: Vec<u8> = row.get(0)?;
    let Ok(reference) = BlobRef::read(&name) else {
        return Err(Error::SqliteFailure(ErrorCode::DatabaseCorrupt));
    };
    Ok(Check {
        root: Root {
            reference,
            number: row.get(1)?,
        },
        second: row.get(2)?,
    })
}

fn last_check(database: &mut Database) -> Result<Option<Check>, Error> {
    match row_of(database, "SELECT reference, number, second FROM mark", &[])? {
        Some(row) => Ok(Some(check_of(&row)?)),
        None => Ok(None),
    }
}

/// Keeps bytes under the name of a reference, or gives the other ones that are kept there.
fn keep(database: &mut Database, name: &[u8], bytes: &[u8]) -> Result<Option<Vec<u8>>, Error>
    ensures { IfOk result (λ other. IfSome other (λ kept. kept.items ≢ bytes.now)) }
{
    match blob(database, name)? {
        Some(kept) if kept.as_slice() == bytes => Ok(None),
        Some(kept) => Ok(Some(kept)),
        None => {
            add_blob(database, name, bytes)?;
            Ok(None)
        }
    }
}

impl SqlKeeper {
    /// A keeper over the file at a path, which is made where there is none. Where it can't be
    /// opened every call fails.
    pub fn open(rt: &HostRuntime, alloc: Global, path: &str) -> Result<SqlKeeper, AllocError>
        ensures { IfOk result (λ keeper. keeper.faults ≡ 0) }
    {
        let database = match open(rt, path) {
            Ok(database) => Some(database),
            Err(Error::SqliteFailure(ErrorCode::OutOfMemory)) => return Err(AllocError),
            Err(_) => None,
        };
        Ok(SqlKeeper {
            database,
            alloc,
            faults: 0,
        })
    }

    /// Counts a fault, which isn't want of memory.
    fn count_fault(&mut self)
        ensures counted { RefusesWith self.old.faults self.new.faults KeepFault.Failed }
        ensures open { self.new.is_open ≡ self.old.is_open }
    {
        self.faults = self.faults.saturating_add(1);
    }

    /// What is answered for an error, which is counted unless it is want of memory.
    fn refused(&mut self, error: Error) -> KeepFault
        ensures cause { RefusesWith self.old.faults self.new.faults result }
        ensures open { self.new.is_open ≡ self.old.is_open }
    {
        match error {
            Error::SqliteFailure(ErrorCode::OutOfMemory) => KeepFault::NoMemory,
            _ => {
                self.count_fault();
                KeepFault::Failed
            }
        }
    }
}

impl Keeper for SqlKeeper {
    ghost told = { λ _. None };

    ghost faults = { λ k. k.faults };

    fn put(&mut self, reference: BlobRef, bytes: &Bytes) -> Result<(), KeepFault>
        ensures cause { HasKeepCause self.old.faults self.new.faults result }
        ensures other { IfErr result (HandsOther bytes.now) }
        ensures closed { FailsClosed self.old self.new result }
    {
        let name = reference.print(self.alloc)?;
        let kept = match &mut self.database {
            Some(database) => keep(database, name.as_slice(), bytes.as_slice()),
            None => Err(Error::SqliteFailure(ErrorCode::CannotOpen)),
        };
        match kept {
            Ok(None) => Ok(()),
            Ok(Some(other)) => {
                self.count_fault();
                Err(KeepFault::Clash(Bytes::from_vec(other)))
            }
            Err(error) => Err(self.refused(error)),
        }
    }

    fn get(&mut self, reference: &BlobRef) -> Result<Option<Bytes>, KeepFault>
        ensures cause { HasKeepCause self.old.faults self.new.faults result }
        ensures no_clash { IfErr result IsNoClash }
        ensures closed { FailsClosed self.old self.new result }
    {
        let name = reference.print(self.alloc)?;
        let found = match &mut self.database {
            Some(database) => blob(database, name.as_slice()),
            None => Err(Error::SqliteFailure(ErrorCode::CannotOpen)),
        };
        match found {
            Ok(bytes) => Ok(bytes.map(Bytes::from_vec)),
            Err(error) => Err(self.refused(error)),
        }
    }

    fn mark(&mut self, check: Check) -> Result<(), KeepFault>
        ensures cause { HasKeepCause self.old.faults self.new.faults result }
        ensures no_clash { IfErr result IsNoClash }
        ensures closed { FailsClosed self.old self.new result }
    {
        let name = check.root.reference.print(self.alloc)?;
        let marked = match &mut self.database {
            Some(database) => set_check(database, name.as_slice(), check),
            None => Err(Error::SqliteFailure(ErrorCode::CannotOpen)),
        };
        match marked {
            Ok(()) => Ok(()),
            Err(error) => Err(self.refused(error)),
        }
    }

    fn last(&mut self) -> Result<Option<Check>, KeepFault>
        ensures cause { HasKeepCause self.old.faults self.new.faults result }
        ensures no_clash { IfErr result IsNoClash }
        ensures closed { FailsClosed self.old self.new result }
    {
        let found = match &mut self.database {
            Some(database) => last_check(database),
            None => Err(Error::SqliteFailure(ErrorCode::CannotOpen)),
        };
        match found {
            Ok(check) => Ok(check),
            Err(error) => Err(self.refused(error)),
        }
    }
}
