//! Which jobspecs the limits of an instance turn away (Flux RFC 33).
ghost use Rattle.std.specs.Prelude.{◌≡◌, ◌*◌};
ghost use Rattle.manager_rules.specs.Limits.{cores_of, exceeds, gpus_of, hosts_of, outlasts, verdict_of};

use crate::terms::{Limit, Limits};
use job_spec::JobSpec;

/// Whether so many are more than a limit allows.
fn exceeds(limit: Limit, count: u128) -> bool
    ensures { result ≡ exceeds limit count }
{
    0 < limit.reason && u128::from(limit.most) < count
}

/// Whether a duration is longer than a limit allows. One of 0 has no end.
fn outlasts(limit: Limit, duration: u64) -> bool
    ensures { result ≡ outlasts limit duration }
{
    0 < limit.reason && (duration == 0 || limit.most < duration)
}

/// Three numbers of 32 bits, one times the others.
fn product(hosts: u32, slots: u32, units: u32) -> u128
    ensures { result ≡ hosts * (slots * units) }
{
    u128::from(hosts) * (u128::from(slots) * u128::from(units))
}

/// The hosts that a job asks for by number.
fn hosts_of(spec: &JobSpec) -> u128
    ensures { result ≡ hosts_of spec.now }
{
    u128::from(spec.nodes.unwrap_or(0))
}

/// The cores that a job asks for.
fn cores_of(spec: &JobSpec) -> u128
    ensures { result ≡ cores_of spec.now }
{
    product(spec.nodes.unwrap_or(1), spec.slots, spec.cores)
}

/// The GPUs that a job asks for.
fn gpus_of(spec: &JobSpec) -> u128
    ensures { result ≡ gpus_of spec.now }
{
    product(spec.nodes.unwrap_or(1), spec.slots, spec.gpus)
}

/// Why the limits turn a jobspec away: the reason of the first limit that it exceeds, or 0.
pub fn verdict(limits: Limits, spec: &JobSpec) -> u32
    ensures { result ≡ verdict_of limits spec.now }
{
    if outlasts(limits.duration, spec.duration) {
        limits.duration.reason
    } else if exceeds(limits.hosts, hosts_of(spec)) {
        limits.hosts.reason
    } else if exceeds(limits.cores, cores_of(spec)) {
        limits.cores.reason
    } else if exceeds(limits.gpus, gpus_of(spec)) {
        limits.gpus.reason
    } else {
        0
    }
}
