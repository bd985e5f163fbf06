//! How a command ends.
ghost use Rattle.std.specs.Prelude.{◌≡◌};
ghost use Rattle.flux_commands.specs.Faults.{status_of};

use answers::{Chronicle, Step};
use flux_tools::ToolFault;
use lists::ListOf;
use std::alloc::Global;
use workload_reader::LineFault;

/// Why a run wrote nothing or not all.
#[derive(Drop)]
pub enum Fault {
    Nothing,
    /// The words are no command's.
    Words,
    /// The text is no workload's.
    Line(LineFault),
    /// A tool refuses the text that it is given.
    Tool(ToolFault),
    /// The source failed.
    Read,
    /// There was no memory.
    Memory,
    /// The sink failed, and had taken so many bytes.
    Write { written: u64 },
}

/// What a run comes to: its status and fault, the steps made, where each ended in the chronicle,
/// and the chronicle.
#[derive(Drop)]
pub struct Run {
    pub status: u8,
    pub fault: Fault,
    pub steps: Vec<Step>,
    pub ends: Vec<u64>,
    pub chronicle: Chronicle,
}

impl Run {
    /// A run that made no step.
    pub fn without_steps(alloc: Global, fault: Fault) -> Run
        ensures status { result.status ≡ status_of fault }
        ensures fault { result.fault ≡ fault }
    {
        Run {
            status: status(&fault),
            fault,
            steps: Vec::new(alloc),
            ends: Vec::new(alloc),
            chronicle: ListOf::new(alloc),
        }
    }
}

/// The status that a run with this fault ends with.
pub fn status(fault: &Fault) -> u8
    ensures { result ≡ status_of fault.now }
{
    match fault {
        Fault::Nothing => 0,
        Fault::Line(_) | Fault::Tool(_) => 1,
        Fault::Words => 2,
        Fault::Read => 3,
        Fault::Memory => 4,
        Fault::Write { .. } => 5,
    }
}
