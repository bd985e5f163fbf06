//! When and how a simulated command ends.
/// When and how a command ends.
#[derive(Clone, Copy, Debug, PartialEq, Eq)]
pub enum Ending {
    /// At this second, with this status as `wait` tells it.
    At { second: u64, status: u64 },
    /// With the instance that the command begins.
    Child,
}
