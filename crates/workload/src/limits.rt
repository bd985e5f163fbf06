//! The limits of a workload's text.

/// The most bytes of a line before its newline: 1 MiB.
pub const MOST_LINE: usize = 1_048_576;

/// The most actors.
pub const MOST_ACTORS: usize = 256;

/// The most command lines.
pub const MOST_COMMANDS: usize = 10_000;

/// The most characters of a name.
pub const MOST_NAME: usize = 64;

/// The most bytes of a value.
pub const MOST_VALUE: usize = 65_536;

/// The most hosts of a grant.
pub const MOST_HOSTS: usize = 1_024;

/// The most cores of a host in a grant.
pub const MOST_CORES: u32 = 256;

/// The most GPUs of a host in a grant.
pub const MOST_GPUS: u32 = 16;

/// The most members of a fence.
pub const MOST_MEMBERS: u64 = 256;

/// The most instances, the top one included.
pub const MOST_INSTANCES: usize = 16;

/// The most dependencies of a submission that its line names.
pub const MOST_NEEDS: usize = 32;

/// The highest urgency.
pub const MOST_URGENCY: u64 = 31;

/// The highest severity of an exception.
pub const MOST_SEVERITY: u64 = 7;

/// The most events that are asked for of the job of one label.
pub const MOST_POSTS: usize = 100;
