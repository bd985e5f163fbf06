//! The law of the headline.
ghost use Rattle.std.specs.Prelude.{ℕ, Bool, List};
ghost use Rattle.run_laws.specs.Times.{HasTime};
ghost use Rattle.answers.specs.declared.chronicle.Entry.{Entry};
ghost use Rattle.answers.specs.Chronicle.{Setup};
ghost use Rattle.hierarchy.specs.Headline.{IsTrueRun};
ghost use Rattle.hierarchy.specs.Laws.{AreValid};
ghost use Rattle.hierarchy.specs.Promises.{KeepsItsPromises};

use answers::laws::numbers_never_fall;

/// A true run keeps each of its promises: where what each instance is given is within its ranges,
/// and the seconds of all have their place in 64 bits.
pub fn a_true_run_keeps_its_promises()
    ensures { (set : Setup) (settled journal : Bool) (c : List Entry) (written : List ℕ)
        → HasTime set → AreValid set c → IsTrueRun set settled journal c written
        → KeepsItsPromises set c }
{
    numbers_never_fall();
}
