//! The reader of jobspecs (Flux RFC 14 and 25).
ghost use Rattle.std.specs.Prelude.{◌≡◌, ◌≤◌, IfOk, length, nat_le};
ghost use Rattle.outcomes.specs.Outcomes.{Gives};
ghost use Rattle.serde_json.specs.View.{view};
ghost use Rattle.job_spec.specs.Fields.{lasting};
ghost use Rattle.job_spec.specs.Sound.{IsSpec};
ghost use Rattle.job_spec.specs.Specs.{is_version_1, spec_of, fault_of, spec_reading};

use crate::faults::SpecFault;
use crate::limits::limits_in;
use crate::resources::wanted_in;
use crate::spec::JobSpec;
use crate::works::work_in;
use fl_json::JsonFault;
use lists::Bytes;
use serde_json::Value;
use std::alloc::Global;

/// The most bytes of a jobspec's text.
const MAX_TEXT: usize = 65_536;

fn is_version_1(value: &Value) -> bool
    ensures { result ≡ is_version_1 (view value.now) }
{
    match value.get("version") {
        Some(found) => found.as_u64() == Some(1),
        None => false,
    }
}

/// The jobspec that the value of a text tells.
#[tactic(auto, unfolding(crate::specs::Specs::spec_of))]
fn spec_in(alloc: Global, text: &[u8], value: &Value) -> Result<JobSpec, SpecFault>
    requires { length text.now ≤ 65536 }
    ensures found { Gives lasting (λ spec. spec) result (spec_of text.now (view value.now)) }
    ensures sound { IfOk result IsSpec }
{
    if !is_version_1(value) {
        return Err(SpecFault::BadVersion);
    }
    let wanted = wanted_in(value)?;
    let work = work_in(alloc, wanted.slots.label, value)?;
    let limits = limits_in(alloc, value)?;
    let text = Bytes::of(alloc, text)?;
    Ok(JobSpec {
        nodes: wanted.nodes,
        exclusive: wanted.exclusive,
        slots: wanted.slots.count,
        cores: wanted.slots.units.cores,
        gpus: wanted.slots.units.gpus,
        command: work.command,
        tasks: work.tasks,
        duration: limits.duration,
        depends: limits.depends,
        text,
    })
}

/// The fault of a text that has no value.
fn fault_of(fault: JsonFault) -> SpecFault
    ensures { result ≡ fault_of fault }
{
    match fault {
        JsonFault::NoMemory => SpecFault::NoMemory,
        fault => SpecFault::NotJson(fault),
    }
}

/// Whether a text is short enough for a jobspec.
fn fits(text: &[u8]) -> bool
    ensures { result ≡ nat_le (length text.now) 65536 }
{
    text.len() <= MAX_TEXT
}

/// The jobspec of a text, or the first fault: `TooLarge`, `NotJson`, `BadVersion`, and then the
/// first in the order of
/// `resources`, `tasks` and `attributes`, and in each of its fields in the order of its type. Other
/// keys are read over. A job without `attributes.system` has no limit and no dependencies.
#[tactic(auto, unfolding(crate::specs::Specs::spec_reading))]
pub fn read(alloc: Global, text: &[u8]) -> Result<JobSpec, SpecFault>
    ensures found { Gives lasting (λ spec. spec) result (spec_reading text.now) }
    ensures sound { IfOk result IsSpec }
{
    if !fits(text) {
        return Err(SpecFault::TooLarge);
    }
    match fl_json::read(alloc, text) {
        Ok(value) => spec_in(alloc, text, &value),
        Err(fault) => Err(fault_of(fault)),
    }
}
