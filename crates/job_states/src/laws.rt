//! What replays promise of each other.
ghost use Rattle.std.specs.Prelude.{◌≡◌, ◌<◌, List, [], ◌∷◌, ◌++◌, length, Ok, Err, IsOk};
ghost use Rattle.event_log.specs.declared.event.Event.{Event};
ghost use Rattle.job_states.specs.declared.job.Job.{Job};
ghost use Rattle.job_states.specs.declared.job.ReplayFault.{ReplayFault};
ghost use Rattle.job_states.specs.Replay.{replayed, stepped};

/// A beginning of a log that replays does so too, if it has an event.
pub fn beginnings_of_logs_replay()
    ensures { (events more : List Event) → 0 < length events
        → IsOk (replayed (events ++ more)) → IsOk (replayed events) }
{}

/// The replay of a log with one event more is one step.
pub fn one_event_more_is_one_step()
    ensures { (events : List Event) (event : Event) (job : Job) → replayed events ≡ Ok job
        → replayed (events ++ event ∷ []) ≡ stepped (length events) job event }
{}

/// An event that is refused is refused whatever follows.
pub fn a_refusal_stays()
    ensures { (events more : List Event) (fault : ReplayFault)
        → 0 < length events → replayed events ≡ Err fault
        → replayed (events ++ more) ≡ Err fault }
{}
