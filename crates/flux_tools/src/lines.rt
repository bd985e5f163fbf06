//! What each tool prints of a text.
ghost use Rattle.std.specs.Prelude.{◌≡◌};
ghost use Rattle.event_log.specs.Logs.{log_reading};
ghost use Rattle.fluid_ids.specs.Texts.{meaning};
ghost use Rattle.resource_set.specs.Reading.{told};
ghost use Rattle.flux_tools.specs.Faults.{of_hostlist, of_idset, of_log, of_r, of_replay};
ghost use Rattle.flux_tools.specs.Tools.{Gives, answer, fluid_told, hostlist_answer, idset_answer, log_told, r_told};

use crate::faults::ToolFault;
use crate::tools::ToolName;
use event_log::LogFault;
use fluid_ids::Form;
use hostlist::{HostFault, HostList};
use idset::{IdFault, IdSet};
use job_states::{ReplayFault, replay};
use resource_set::RFault;
use std::alloc::Global;

/// A tool's fault for that of an idset.
fn of_idset(fault: IdFault) -> ToolFault
    ensures { result ≡ of_idset fault }
{
    match fault {
        IdFault::NoMemory => ToolFault::NoMemory,
        fault => ToolFault::Id(fault),
    }
}

/// A tool's fault for that of a hostlist.
fn of_hostlist(fault: HostFault) -> ToolFault
    ensures { result ≡ of_hostlist fault }
{
    match fault {
        HostFault::NoMemory => ToolFault::NoMemory,
        fault => ToolFault::Host(fault),
    }
}

/// A tool's fault for that of an R.
fn of_r(fault: RFault) -> ToolFault
    ensures { result ≡ of_r fault }
{
    match fault {
        RFault::NoMemory => ToolFault::NoMemory,
        fault => ToolFault::R(fault),
    }
}

/// A tool's fault for that of a log.
fn of_log(fault: LogFault) -> ToolFault
    ensures { result ≡ of_log fault }
{
    match fault {
        LogFault::NoMemory => ToolFault::NoMemory,
        fault => ToolFault::Log(fault),
    }
}

/// A tool's fault for that of a replay.
fn of_replay(fault: ReplayFault) -> ToolFault
    ensures { result ≡ of_replay fault }
{
    match fault {
        ReplayFault::NoMemory => ToolFault::NoMemory,
        fault => ToolFault::Replay(fault),
    }
}

/// The canonical idset and a newline.
fn idset_line(alloc: Global, text: &[u8]) -> Result<Vec<u8>, ToolFault>
    ensures { Gives (λ v. v.items) result (idset_answer text.now) }
{
    let set = match IdSet::read(alloc, text) {
        Ok(set) => set,
        Err(fault) => return Err(of_idset(fault)),
    };
    let mut line = set.print()?;
    line.push(b'\n')?;
    Ok(line)
}

/// The canonical hostlist and a newline.
fn hostlist_line(alloc: Global, text: &[u8]) -> Result<Vec<u8>, ToolFault>
    ensures { Gives (λ v. v.items) result (hostlist_answer text.now) }
{
    let hosts = match HostList::read(alloc, text) {
        Ok(hosts) => hosts,
        Err(fault) => return Err(of_hostlist(fault)),
    };
    let mut line = hosts.print()?;
    line.push(b'\n')?;
    Ok(line)
}

/// The three texts of an id with a space between, and a newline.
fn fluid_line(alloc: Global, text: &[u8]) -> Result<Vec<u8>, ToolFault>
    ensures { Gives (λ v. v.items) result (fluid_told (meaning text.now)) }
{
    let id = match fluid_ids::read(text) {
        Ok(id) => id,
        Err(fault) => return Err(ToolFault::Fluid(fault)),
    };
    let mut line = fluid_ids::print(alloc, id, Form::F58)?;
    line.push(b' ')?;
    line.extend_from_slice(&fluid_ids::print(alloc, id, Form::Dothex)?)?;
    line.push(b' ')?;
    line.extend_from_slice(&fluid_ids::print(alloc, id, Form::Decimal)?)?;
    line.push(b'\n')?;
    Ok(line)
}

/// The canonical R and a newline.
fn r_line(alloc: Global, text: &[u8]) -> Result<Vec<u8>, ToolFault>
    ensures { Gives (λ v. v.items) result (r_told (told text.now)) }
{
    let resources = match resource_set::read(alloc, text) {
        Ok(resources) => resources,
        Err(fault) => return Err(of_r(fault)),
    };
    let mut line = resource_set::print(alloc, &resources)?;
    line.push(b'\n')?;
    Ok(line)
}

/// The name of the state of the job that a log tells, and a newline.
fn state_line(alloc: Global, text: &[u8]) -> Result<Vec<u8>, ToolFault>
    ensures { Gives (λ v. v.items) result (log_told (log_reading text.now)) }
{
    let events = match event_log::read(alloc, text) {
        Ok(events) => events,
        Err(fault) => return Err(of_log(fault)),
    };
    let job = match replay(alloc, &events) {
        Ok(job) => job,
        Err(fault) => return Err(of_replay(fault)),
    };
    let line = format!(in alloc; "{}\n", job.state)?;
    Ok(line.into_bytes())
}

/// What a tool prints of a text: one line, or the text's fault.
pub fn line_of(alloc: Global, name: ToolName, text: &[u8]) -> Result<Vec<u8>, ToolFault>
    ensures { Gives (λ v. v.items) result (answer name text.now) }
{
    match name {
        ToolName::Idset => idset_line(alloc, text),
        ToolName::Hostlist => hostlist_line(alloc, text),
        ToolName::Fluid => fluid_line(alloc, text),
        ToolName::R => r_line(alloc, text),
        ToolName::Replay => state_line(alloc, text),
    }
}
