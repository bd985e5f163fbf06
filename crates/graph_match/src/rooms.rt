//! How many slots have room on a host.
ghost use Rattle.std.specs.Prelude.{◌≡◌, ℕ, ◌≤◌, ◌<◌, length};
ghost use Rattle.graph_match.specs.Rooms.{slot_count, worth_of};
ghost use Rattle.job_rules.specs.Worths.{wanted as wanted_of};

use job_spec::JobSpec;

/// How many cores and GPUs a host has free, or in all.
#[derive(Clone, Copy, Debug, PartialEq, Eq)]
pub struct Room {
    pub cores: u32,
    pub gpus: u32,
}

/// How much is left on each host of a grant, and what that brings to a job.
#[derive(Drop)]
pub struct Spare {
    pub rooms: Vec<Room>,
    pub sum: u64,
}

/// How many slots have room on a host.
pub fn slots_in(spec: &JobSpec, room: Room) -> u32
    requires { 1 ≤ spec.now.cores }
    ensures { result ≡ slot_count spec.now room }
{
    let slots = room.cores / spec.cores;
    if spec.gpus == 0 {
        slots
    } else {
        slots.min(room.gpus / spec.gpus)
    }
}

/// What a host brings to a job: slots with room, or itself where the job asks for hosts and it
/// serves.
pub fn worth(spec: &JobSpec, whole: Room, room: Room) -> u32
    requires { 1 ≤ spec.now.cores }
    ensures { result ≡ worth_of spec.now whole room }
{
    let slots = slots_in(spec, room);
    if spec.nodes.is_none() {
        return slots;
    }
    let serves = spec.slots <= slots && (!spec.exclusive || whole == room);
    u32::from(serves)
}

/// How much of that a job asks for.
pub fn wanted(spec: &JobSpec) -> u32
    ensures { result ≡ wanted_of spec.now }
{
    spec.nodes.unwrap_or(spec.slots)
}
