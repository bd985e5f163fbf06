//! What makes steps.
ghost use Rattle.std.specs.Prelude.{◌≡◌, ◌↔◌, ◌∷◌, ◌++◌, ℕ, List, [], Bool, true, false, OnOk, IfOk, IfSome, IsNone, IsTrue};

use std::alloc::AllocError;

/// Makes steps, one at a turn. Its meaning is the list of the steps made, in order, and whether it
/// is spent.
pub trait Machine {
    type Step: Copy;
    /// What is handed to it from outside, for a step of its own.
    type Input;

    ghost made: { Self → List Self.Step };

    ghost spent: { Self → Bool };

    // Whether the step can be made now.
    ghost can: { Self → Self.Step → Type 0 };

    // Whether the step can be made now by a worker of the lane.
    ghost can_in_lane: { Self → ℕ → Self.Step → Type 0 };

    ghost wants: { Self → Self.Input → Bool };

    ghost is_quiet: { Self → Bool };

    /// Whether no step has been made.
    fn start(&self) -> bool
        ensures { IsTrue result ↔ (made self.now ≡ []) };

    /// A step of the lane that can be made, and None exactly where there is none.
    fn next(&self, lane: u32) -> Option<Self::Step>
        ensures some { IfSome result (λ step. can_in_lane self.now lane step × can self.now step) }
        ensures none { IsNone result → (step : Self.Step) → ¬ can_in_lane self.now lane step };

    /// Makes a step. After want of memory the machine need not be used again.
    fn turn(&mut self, step: Self::Step) -> Result<(), AllocError>
        requires can { can self.old step }
        requires live { spent self.old ≡ false }
        ensures made { OnOk result ((made self.new ≡ made self.old ++ step ∷ [])
            × (spent self.new ≡ false)) };

    /// Whether it wants this input now.
    fn takes(&self, input: &Self::Input) -> bool
        ensures { result ≡ wants self.now input.now };

    /// Makes the step that the input stands for, and answers it.
    fn accept(&mut self, input: Self::Input) -> Result<Self::Step, AllocError>
        requires wanted { wants self.old input ≡ true }
        requires live { spent self.old ≡ false }
        ensures made { IfOk result (λ step. (made self.new ≡ made self.old ++ step ∷ [])
            × (spent self.new ≡ false)) };

    /// Whether nothing is left to do.
    fn quiet(&self) -> bool
        ensures { result ≡ is_quiet self.now };
}
