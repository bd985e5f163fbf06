//! What the program says of a fault.
ghost use Rattle.std.specs.Prelude.{◌≡◌, IfOk, string_bytes};
ghost use Rattle.flux_commands.specs.Notices.{notice_text};

use crate::faults::Fault;
use std::alloc::{AllocError, Global};

/// The notice of a fault, for standard error.
pub fn notice(alloc: Global, fault: &Fault) -> Result<String, AllocError>
    ensures { IfOk result (λ text. string_bytes text ≡ notice_text fault.now) }
{
    match fault {
        Fault::Nothing => format!(in alloc; "done"),
        Fault::Words => format!(in alloc; "usage: flux_cli run|gen|idset|hostlist|fluid|R|replay"),
        Fault::Line(fault) => format!(in alloc; "{fault}"),
        Fault::Tool(fault) => format!(in alloc; "{fault}"),
        Fault::Read => format!(in alloc; "read fault"),
        Fault::Memory => format!(in alloc; "no memory"),
        Fault::Write { .. } => format!(in alloc; "write fault"),
    }
}
