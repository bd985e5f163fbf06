//! The laws of accepted texts, each the contract of a function.
ghost use Rattle.std.specs.Prelude.{◌≡◌, ℕ, List, Ok};
ghost use Rattle.job_spec.specs.Sound.{IsSpec};
ghost use Rattle.job_spec.specs.Specs.{spec_reading};
ghost use Rattle.job_spec.specs.declared.spec.JobSpec.{JobSpec};

/// A text that is accepted tells a jobspec: its counts, its command and its text are within their
/// bounds.
pub fn accepted_texts_tell_jobspecs()
    ensures { (text : List ℕ) (spec : JobSpec) → spec_reading text ≡ Ok spec → IsSpec spec }
{}

/// The jobspec of a text keeps it.
pub fn accepted_texts_are_kept()
    ensures { (text : List ℕ) (spec : JobSpec) → spec_reading text ≡ Ok spec → spec.text ≡ text }
{}
