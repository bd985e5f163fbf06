//! A kept callback that says which events are shown.
ghost use Rattle.std.specs.Prelude.{◌≡◌, ℕ};
ghost use Rattle.std.specs.Fn.{FnReturnsAt};
ghost use Rattle.job_watch.specs.Answers.{IsShowing, ShowsOnce};

use event_log::Event;
use std::marker::Model;

/// A kept callback that says which events are shown. Contracts see the callback itself. Each call
/// asks again that it may be called and answers once and in range, since no type can keep that of a
/// closure.
#[derive(Drop)]
pub struct Show<W> {
    f: W,
}

impl<W> Model for Show<W> {
    ghost Value = { W };

    ghost view = { λ show. show.f };
}

impl<W: Fn(&Event) -> u32> Show<W> {
    /// Keeps a callback.
    pub fn new(f: W) -> Show<W>
        requires callable { W.IsAlwaysCallable f }
        requires once { ShowsOnce (λ event n. FnReturnsAt W.Fn f event n) }
        ensures { result ≡ f }
    {
        Show { f }
    }

    /// What the callback answers: 1 where the event is shown, and else 0. It is the only answer
    /// that it has, and takes no memory of its own.
    pub fn answer(&self, event: &Event) -> u32
        requires callable { W.IsAlwaysCallable self.now }
        requires once { ShowsOnce (λ event n. FnReturnsAt W.Fn self.now event n) }
        ensures said { FnReturnsAt W.Fn self.now event.now result }
        ensures only { (n : ℕ) → FnReturnsAt W.Fn self.now event.now n → n ≡ result }
        ensures in_range { IsShowing result }
    {
        (self.f)(event)
    }
}
