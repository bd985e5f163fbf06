//! Why a tool prints nothing, and the notice that says so.
ghost use Rattle.std.specs.Prelude.{◌≡◌};
ghost use Rattle.flux_tools.specs.declared.faults.ToolFault.TheVariants.{NoMemory};

use event_log::LogFault;
use fl_json::JsonFault;
use fluid_ids::FluidFault;
use hostlist::HostFault;
use idset::IdFault;
use job_states::ReplayFault;
use outside::ReadFault;
use resource_set::RFault;
use std::alloc::{AllocError, AllocFailed};
use std::fmt::{Display, Error, Formatter, Write};

/// Why a tool prints nothing. A lower fault is never its want of memory.
#[derive(Clone, Copy, Debug, PartialEq, Eq)]
pub enum ToolFault {
    NoMemory,
    /// The text is no idset (Flux RFC 22).
    Id(IdFault),
    /// The text is no hostlist (Flux RFC 29).
    Host(HostFault),
    /// The text is no FLUID (Flux RFC 19).
    Fluid(FluidFault),
    /// The text is no R (Flux RFC 20).
    R(RFault),
    /// The text is no eventlog (Flux RFC 18).
    Log(LogFault),
    /// The events tell no job (Flux RFC 21).
    Replay(ReplayFault),
    /// The source has more than 16 MiB, or it failed.
    Read(ReadFault),
}

impl From<AllocError> for ToolFault {
    ghost from_gives = { λ _ e. e ≡ NoMemory };

    fn from(_: AllocError) -> Self {
        ToolFault::NoMemory
    }
}

impl<T: Drop> From<AllocFailed<T>> for ToolFault {
    ghost from_gives = { λ _ e. e ≡ NoMemory };

    fn from(_: AllocFailed<T>) -> Self {
        ToolFault::NoMemory
    }
}

/// The fault's name, and its place where it has one.
impl Display for ToolFault {
    ghost use Rattle.std.specs.Prelude.{Some};
    ghost use Rattle.flux_tools.specs.Notices.{fault_text};

    ghost output = { λ fault. Some (fault_text fault) };

    fn fmt<W: Write>(&self, f: &mut Formatter<W>) -> Result<(), Error> {
        match self {
            ToolFault::NoMemory => f.write_str("no memory"),
            ToolFault::Id(fault) => write!(f, "{}", IdNotice(*fault)),
            ToolFault::Host(fault) => write!(f, "{}", HostNotice(*fault)),
            ToolFault::Fluid(FluidFault::BadText) => f.write_str("BadText"),
            ToolFault::Fluid(FluidFault::TooLarge) => f.write_str("TooLarge"),
            ToolFault::R(fault) => write!(f, "{}", RNotice(*fault)),
            ToolFault::Log(LogFault::NoMemory) => f.write_str("no memory"),
            ToolFault::Log(LogFault::NoNewline) => f.write_str("NoNewline"),
            ToolFault::Log(LogFault::BadLine { .. }) => f.write_str("BadLine"),
            ToolFault::Replay(ReplayFault::NoMemory) => f.write_str("no memory"),
            ToolFault::Replay(ReplayFault::NotAllowed { .. }) => f.write_str("NotAllowed"),
            ToolFault::Read(ReadFault::NoMemory) => f.write_str("no memory"),
            ToolFault::Read(ReadFault::Failed) => f.write_str("read fault"),
            ToolFault::Read(ReadFault::TooLong) => f.write_str("input too long"),
        }
    }
}

/// The notice of an idset's fault.
#[derive(Clone, Copy)]
struct IdNotice(IdFault);

impl Display for IdNotice {
    ghost use Rattle.std.specs.Prelude.{Some};
    ghost use Rattle.flux_tools.specs.Notices.{id_text};

    ghost output = { λ notice. Some (id_text notice.0) };

    fn fmt<W: Write>(&self, f: &mut Formatter<W>) -> Result<(), Error> {
        match self.0 {
            IdFault::NoMemory => f.write_str("no memory"),
            IdFault::BadText { place } => write!(f, "BadText at {place}"),
            IdFault::Backwards { place } => write!(f, "Backwards at {place}"),
            IdFault::TooLarge { place } => write!(f, "TooLarge at {place}"),
        }
    }
}

/// The notice of a hostlist's fault.
#[derive(Clone, Copy)]
struct HostNotice(HostFault);

impl Display for HostNotice {
    ghost use Rattle.std.specs.Prelude.{Some};
    ghost use Rattle.flux_tools.specs.Notices.{host_text};

    ghost output = { λ notice. Some (host_text notice.0) };

    fn fmt<W: Write>(&self, f: &mut Formatter<W>) -> Result<(), Error> {
        match self.0 {
            HostFault::NoMemory => f.write_str("no memory"),
            HostFault::BadText { place } => write!(f, "BadText at {place}"),
            HostFault::Backwards { place } => write!(f, "Backwards at {place}"),
            HostFault::TooMany => f.write_str("TooMany"),
        }
    }
}

/// The notice of an R's fault.
#[derive(Clone, Copy)]
struct RNotice(RFault);

impl Display for RNotice {
    ghost use Rattle.std.specs.Prelude.{Some};
    ghost use Rattle.flux_tools.specs.Notices.{r_text};

    ghost output = { λ notice. Some (r_text notice.0) };

    fn fmt<W: Write>(&self, f: &mut Formatter<W>) -> Result<(), Error> {
        match self.0 {
            RFault::NoMemory => f.write_str("no memory"),
            RFault::NotJson(JsonFault::BadNumber { place }) => write!(f, "BadNumber at {place}"),
            RFault::NotJson(_) => f.write_str("NotJson"),
            RFault::BadVersion => f.write_str("BadVersion"),
            RFault::BadField(_) => f.write_str("BadField"),
            RFault::RankTwice { .. } => f.write_str("RankTwice"),
            RFault::HostsDiffer { .. } => f.write_str("HostsDiffer"),
            RFault::HostTwice => f.write_str("HostTwice"),
        }
    }
}
