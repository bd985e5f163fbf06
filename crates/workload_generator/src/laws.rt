//! What follows from the definitions, for every seed.

ghost use Rattle.std.specs.Prelude.{◌≡◌, ◌≤◌, ℕ, None};
ghost use Rattle.workload.specs.Limits.{most_commands};
ghost use Rattle.workload_generator.specs.Texts.{generated};
ghost use Rattle.workload_reader.specs.Reading.{first_fault};

/// The text of a workload that a seed draws has no fault at 7 brokers.
pub fn drawn_workloads_have_no_fault()
    ensures { (seed count : ℕ) → count ≤ most_commands
        → first_fault 7 (generated seed count) ≡ None }
{}
