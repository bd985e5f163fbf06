//! What heads of queues promise.
ghost use Rattle.std.specs.Prelude.{◌≡◌, ℕ, List};
ghost use Rattle.job_queue.specs.Queue.{IsHead};

/// A queue has at most one head.
pub fn a_queue_has_one_head()
    ensures { (jobs : List (ℕ × ℕ)) (id other : ℕ)
        → IsHead jobs id → IsHead jobs other → other ≡ id }
{}
