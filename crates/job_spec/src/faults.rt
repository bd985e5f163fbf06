//! Why a text is no jobspec.
ghost use Rattle.std.specs.Prelude.{◌≡◌};
ghost use Rattle.job_spec.specs.Numbers.{number_of};
ghost use Rattle.job_spec.specs.declared.faults.SpecFault.TheVariants.{NoMemory};

use fl_json::JsonFault;
use std::alloc::{AllocError, AllocFailed};
use std::fmt;
use thiserror::Error;

/// A part of a jobspec.
#[derive(Clone, Copy, Debug, PartialEq, Eq)]
pub enum Place {
    /// The list `resources`, and the type of its vertex.
    Resources,
    /// A vertex of type `node`, and the type of the vertex in it.
    Node,
    /// A vertex of type `slot`, and the types of the vertices in it.
    Slot,
    Core,
    Gpu,
    /// The list `tasks`, and the label in its task.
    Task,
    Command,
    /// The count of a task.
    Count,
    Attributes,
    Duration,
    Dependencies,
}

impl fmt::Display for Place {
    ghost use Rattle.std.specs.Prelude.{Some};
    ghost use Rattle.job_spec.specs.Names.{place_name};

    ghost output = { λ place. Some (place_name place) };

    fn fmt<W: fmt::Write>(&self, f: &mut fmt::Formatter<W>) -> fmt::Result {
        f.write_str(match self {
            Place::Resources => "Resources",
            Place::Node => "Node",
            Place::Slot => "Slot",
            Place::Core => "Core",
            Place::Gpu => "Gpu",
            Place::Task => "Task",
            Place::Command => "Command",
            Place::Count => "Count",
            Place::Attributes => "Attributes",
            Place::Duration => "Duration",
            Place::Dependencies => "Dependencies",
        })
    }
}

/// Why a text is no jobspec of version 1.
#[derive(Clone, Copy, Debug, PartialEq, Eq, Error)]
pub enum SpecFault {
    #[error("NoMemory")]
    NoMemory,
    /// The text has no value in JSON with whole numbers.
    #[error("NotJson({0})")]
    NotJson(JsonFault),
    /// The version isn't 1.
    #[error("BadVersion")]
    BadVersion,
    /// A field is missing, or has a value of another kind.
    #[error("BadField({0})")]
    BadField(Place),
    /// A list has another length, or a type or scheme is another.
    #[error("BadShape({0})")]
    BadShape(Place),
    /// A count isn't from 1 to 65,536.
    #[error("BadCount({0})")]
    BadCount(Place),
    /// The task runs in a slot of another label.
    #[error("NoSlot")]
    NoSlot,
    /// The text has more than 65,536 bytes.
    #[error("TooLarge")]
    TooLarge,
}

impl SpecFault {
    /// The number by which answers name a fault, from 1 to 7; a want of memory has none.
    pub fn number(&self) -> Option<u32>
        ensures { result ≡ number_of self.now }
    {
        match self {
            SpecFault::NoMemory => None,
            SpecFault::NotJson(_) => Some(1),
            SpecFault::BadVersion => Some(2),
            SpecFault::BadField(_) => Some(3),
            SpecFault::BadShape(_) => Some(4),
            SpecFault::BadCount(_) => Some(5),
            SpecFault::NoSlot => Some(6),
            SpecFault::TooLarge => Some(7),
        }
    }
}

impl From<AllocError> for SpecFault {
    ghost from_gives = { λ _ e. e ≡ NoMemory };

    fn from(_: AllocError) -> Self {
        SpecFault::NoMemory
    }
}

impl<T: Drop> From<AllocFailed<T>> for SpecFault {
    ghost from_gives = { λ _ e. e ≡ NoMemory };

    fn from(_: AllocFailed<T>) -> Self {
        SpecFault::NoMemory
    }
}
