//! Why a text is no workload's.
ghost use Rattle.std.specs.Prelude.{◌≡◌};
ghost use Rattle.workload_reader.specs.declared.faults.LineFault.TheVariants.{NoMemory};

use std::alloc::AllocError;
use std::error::Error;
use std::fmt;

/// A limit that a line goes past: its length, the actors, the commands, the submissions, the
/// instances, a broker's rank, the seconds of all advances, a value or note, a key, the events
/// asked for of one job, or the hosts, cores and GPUs of a grant.
#[derive(Clone, Copy, Debug, PartialEq, Eq)]
pub enum Which {
    Line,
    Actors,
    Commands,
    Submits,
    Instances,
    Rank,
    Seconds,
    Key,
    Value,
    Posts,
    Grant,
}

/// Why a text is no workload's. A fault of a line names the first faulty one, counted from 1.
#[derive(Clone, Copy, Debug, PartialEq, Eq)]
pub enum LineFault {
    NoMemory,
    TooLong,
    NotUtf8,
    NoActor { line: u64 },
    BadCommand { line: u64 },
    BadNumber { line: u64 },
    Limit { line: u64, which: Which },
}

/// The fault's name, behind its line where it has one.
impl fmt::Display for LineFault {
    ghost use Rattle.std.specs.Prelude.{Some};
    ghost use Rattle.workload_reader.specs.Faults.{fault_text};

    ghost output = { λ fault. Some (fault_text fault) };

    fn fmt<W: fmt::Write>(&self, f: &mut fmt::Formatter<W>) -> fmt::Result {
        match self {
            LineFault::NoMemory => f.write_str("no memory"),
            LineFault::TooLong => f.write_str("input too long"),
            LineFault::NotUtf8 => f.write_str("input is not UTF-8"),
            LineFault::NoActor { line } => write!(f, "line {line}: NoActor"),
            LineFault::BadCommand { line } => write!(f, "line {line}: BadCommand"),
            LineFault::BadNumber { line } => write!(f, "line {line}: BadNumber"),
            LineFault::Limit { line, .. } => write!(f, "line {line}: Limit"),
        }
    }
}

impl Error for LineFault {}

impl From<AllocError> for LineFault {
    ghost from_gives = { λ _ e. e ≡ NoMemory };

    fn from(_: AllocError) -> Self {
        LineFault::NoMemory
    }
}
