//! How far time goes on.
ghost use Rattle.std.specs.Prelude.{◌≡◌, ◌↔◌, ◌≤◌, ◌+◌, IsTrue};
ghost use Rattle.run_limits.specs.Limits.{most_seconds};
ghost use Rattle.job_service.specs.Times.{seconds_asked};

use job_commands::JobAsk;
use run_limits::MOST_SECONDS;

/// The seconds by which a command lets time go on: those of an advance.
pub fn seconds_asked(ask: &JobAsk) -> u64
    ensures { result ≡ seconds_asked ask.now }
{
    match ask {
        JobAsk::Advance { seconds } => *seconds,
        _ => 0,
    }
}

/// Whether so many seconds can be asked for besides those of all advances before.
pub fn is_within(span: u64, seconds: u64) -> bool
    ensures { IsTrue result ↔ (span + seconds ≤ most_seconds) }
{
    span <= MOST_SECONDS && seconds <= MOST_SECONDS - span
}
