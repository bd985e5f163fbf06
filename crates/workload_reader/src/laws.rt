//! What follows from the definitions, for every text and workload.

ghost use Rattle.std.specs.Prelude.{◌≡◌, ℕ, List, All, Some, None};
ghost use Rattle.workload_reader.specs.Lines.{TextLine};
ghost use Rattle.workload_reader.specs.declared.faults.LineFault.{LineFault};
ghost use Rattle.workload.specs.Laws.{empty};
ghost use Rattle.workload_reader.specs.Reading.{fault_in, first_fault, spelled};
ghost use Rattle.workload.specs.Laws.{IsWithin, IsBuilt, HasOwnLabels, KeepsTallies};
ghost use Rattle.workload_reader.specs.Laws.{IsFirstFault};

/// The fault of lines is that of the first faulty one.
pub fn the_first_fault_counts()
    ensures there { (size : ℕ) (all : List TextLine) (fault : LineFault)
        → fault_in size empty 1 all ≡ Some fault → IsFirstFault size all fault }
    ensures only { (size : ℕ) (all : List TextLine) (fault : LineFault)
        → IsFirstFault size all fault → fault_in size empty 1 all ≡ Some fault }
{}

/// A workload that a text spells keeps to the limits, and its commands to the instances of their
/// actors.
pub fn spelled_workloads_are_within()
    ensures { (size : ℕ) (text : List ℕ) → first_fault size text ≡ None
        → IsWithin size (spelled text) }
{}

/// The commands of a workload that a text spells are built, with their keys, values and numbers
/// within their limits.
pub fn spelled_commands_are_built()
    ensures { (size : ℕ) (text : List ℕ) → first_fault size text ≡ None
        → All (λ line. IsBuilt line.command) (spelled text).lines }
{}

/// No two submissions of a workload that a text spells have one label.
pub fn spelled_labels_are_their_own()
    ensures { (size : ℕ) (text : List ℕ) → first_fault size text ≡ None
        → HasOwnLabels (spelled text).lines }
{}

/// What a workload that a text spells asks for in all is within the limits on submissions,
/// instances, seconds and events of a job.
pub fn spelled_tallies_are_kept()
    ensures { (size : ℕ) (text : List ℕ) → first_fault size text ≡ None
        → KeepsTallies (spelled text).lines }
{}
