//! Priorities of waiting jobs, by weighted factors or by a kept callback, and a kept callback that
//! judges a submission.
#![tactic(auto)]

ghost use Rattle.std.specs.Prelude.{◌≡◌, ℕ};
ghost use Rattle.std.specs.Fn.{FnReturnsAt};
ghost use Rattle.tap.specs.Priorities.{AnswersOnce, IsPriority};

mod check;
mod weights;

pub use check::Check;
use std::marker::Model;
pub use weights::Weights;

/// What the callback is told of a job: its id, its urgency of 0 to 31, its user and the cores that
/// it asks for.
#[derive(Clone, Copy, Debug, PartialEq, Eq)]
pub struct Ask {
    pub id: u64,
    pub urgency: u32,
    pub userid: u32,
    pub cores: u64,
}

/// A kept callback. Contracts see the callback itself. Each call asks again that it may be called
/// and answers once and in range, since no type can keep that of a closure.
#[derive(Drop)]
pub struct Tap<F> {
    f: F,
}

impl<F> Model for Tap<F> {
    ghost Value = { F };

    ghost view = { λ tap. tap.f };
}

impl<F: Fn(&Ask) -> u32> Tap<F> {
    /// Keeps a callback.
    pub fn new(f: F) -> Tap<F>
        requires callable { F.IsAlwaysCallable f }
        requires once { AnswersOnce (λ ask n. FnReturnsAt F.Fn f ask n) }
        ensures { result ≡ f }
    {
        Tap { f }
    }

    /// What the callback answers, which is 1 to 4,294,967,294, and the only answer that it has. It
    /// takes no memory of its own.
    pub fn answer(&self, ask: &Ask) -> u32
        requires callable { F.IsAlwaysCallable self.now }
        requires once { AnswersOnce (λ ask n. FnReturnsAt F.Fn self.now ask n) }
        ensures said { FnReturnsAt F.Fn self.now ask.now result }
        ensures only { (n : ℕ) → FnReturnsAt F.Fn self.now ask.now n → n ≡ result }
        ensures in_range { IsPriority result }
    {
        (self.f)(ask)
    }
}
