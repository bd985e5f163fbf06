//! A kept callback that judges a submission.
ghost use Rattle.std.specs.Prelude.{◌≡◌, ℕ};
ghost use Rattle.std.specs.Fn.{FnReturnsAt};
ghost use Rattle.tap.specs.Verdicts.{IsVerdict, JudgesOnce};

use crate::Ask;
use std::marker::Model;

/// A kept callback that judges a submission, whose ask has id 0. Contracts see the callback itself,
/// and each call asks for its condition again, as those of a `Tap` do.
#[derive(Drop)]
pub struct Check<C> {
    f: C,
}

impl<C> Model for Check<C> {
    ghost Value = { C };

    ghost view = { λ check. check.f };
}

impl<C: Fn(&Ask) -> u32> Check<C> {
    /// Keeps a callback.
    pub fn new(f: C) -> Check<C>
        requires callable { C.IsAlwaysCallable f }
        requires once { JudgesOnce (λ ask n. FnReturnsAt C.Fn f ask n) }
        ensures { result ≡ f }
    {
        Check { f }
    }

    /// What the callback answers: 0 where the submission may pass, and else the reason, which is 1
    /// to 99. It is the only answer that it has, and takes no memory of its own.
    pub fn answer(&self, ask: &Ask) -> u32
        requires callable { C.IsAlwaysCallable self.now }
        requires once { JudgesOnce (λ ask n. FnReturnsAt C.Fn self.now ask n) }
        ensures said { FnReturnsAt C.Fn self.now ask.now result }
        ensures only { (n : ℕ) → FnReturnsAt C.Fn self.now ask.now n → n ≡ result }
        ensures in_range { IsVerdict result }
    {
        (self.f)(ask)
    }
}
