//! A watch of one job's log.
ghost use Rattle.std.specs.Prelude.{◌≡◌, ◌++◌, [], List, All, length, IfOk, OnErr, OnOk};
ghost use Rattle.std.specs.Fn.{FnReturnsAt};
ghost use Rattle.event_log.specs.declared.event.Event.{Event as Told};
ghost use Rattle.event_log.specs.Events.{IsEvent};
ghost use Rattle.event_log.specs.Logs.{log_text};
ghost use Rattle.job_watch.specs.Answers.{ShowsOnce};
ghost use Rattle.job_watch.specs.Watched.{AreShown, IsGrown, WasFed};

use crate::show::Show;
use event_log::{Event, LogFault};
use lists::{Bytes, Copied, ListOf};
use std::alloc::{AllocError, Global};
use std::marker::Model;
use std::mem;

/// Names of events, in order.
pub type NameTexts = ListOf<Bytes>;

/// A watch of one job's log. It keeps how much of the log it was fed, and the names that it shows.
#[derive(Drop)]
pub struct Watcher {
    alloc: Global,
    fed: usize,
    shown: NameTexts,
}

impl Model for Watcher {
    ghost use Rattle.job_watch.specs.Watched.{Watched};

    ghost Value = { Watched };

    ghost view = { λ w. record { fed = w.fed; shown = w.shown } };
}

/// The events of a log.
fn events_of(alloc: Global, log: &[u8]) -> Result<Vec<Event>, AllocError>
    requires { (events : List Told) × All IsEvent events × (log.now ≡ log_text events) }
    ensures { IfOk result (λ read. (events : List Told)
        → All IsEvent events → log.now ≡ log_text events
        → read.items ≡ events) }
{
    match event_log::read(alloc, log) {
        Ok(events) => Ok(events),
        Err(LogFault::NoMemory) => Err(AllocError),
        Err(LogFault::NoNewline) => unreachable!(),
        Err(LogFault::BadLine { .. }) => unreachable!(),
    }
}

/// The names of the events that the callback shows. It is called on each of them, in order.
fn names_of<W: Fn(&Event) -> u32>(
    alloc: Global,
    events: &[Event],
    show: &Show<W>,
) -> Result<Vec<Bytes>, AllocError>
    requires callable { W.IsAlwaysCallable show.now }
    requires once { ShowsOnce (λ event n. FnReturnsAt W.Fn show.now event n) }
    ensures { IfOk result
        (λ names. AreShown (λ event n. FnReturnsAt W.Fn show.now event n) events.now names.items) }
{
    let mut names = Vec::new(alloc);
    for event in events {
        if show.answer(event) == 1 {
            names.push(event.name.copy()?)?;
        }
    }
    Ok(names)
}

/// Adds names at the end, or none.
fn add_names(names: &mut NameTexts, mut more: Vec<Bytes>) -> Result<(), AllocError>
    ensures added { OnOk result (names.new ≡ names.old ++ more.items) }
    ensures kept { OnErr result (names.new ≡ names.old) }
{
    let alloc = *more.allocator();
    let mut all = mem::replace(names, NameTexts::new(alloc)).into_vec();
    let added = all.append(&mut more);
    *names = NameTexts::from_vec(all);
    added
}

impl Watcher {
    /// A watch that was fed nothing.
    pub fn new(alloc: Global) -> Watcher
        ensures { result ≡ record { fed = 0; shown = [] } }
    {
        Watcher {
            alloc,
            fed: 0,
            shown: NameTexts::new(alloc),
        }
    }

    /// Calls the callback on the events of a log that are new, in order, and answers how many they
    /// are. The log is one of events, and begins with the one that was fed last. After want of
    /// memory the watch is unchanged.
    pub fn feed<W: Fn(&Event) -> u32>(
        &mut self,
        log: &[u8],
        show: &Show<W>,
    ) -> Result<u64, AllocError>
        requires callable { W.IsAlwaysCallable show.now }
        requires once { ShowsOnce (λ event n. FnReturnsAt W.Fn show.now event n) }
        requires grown { IsGrown self.old log.now }
        ensures fed { IfOk result (λ count. (events more : List Told) → All IsEvent (events ++ more)
            → log.now ≡ log_text (events ++ more)
            → WasFed (λ event n. FnReturnsAt W.Fn show.now event n) events self.old
            → (count ≡ length more)
            × WasFed (λ event n. FnReturnsAt W.Fn show.now event n) (events ++ more) self.new) }
        ensures read { OnOk result (self.new.fed ≡ length log.now) }
        ensures kept { OnErr result (self.new ≡ self.old) }
    {
        let events = events_of(self.alloc, &log[self.fed..])?;
        let names = names_of(self.alloc, &events, show)?;
        add_names(&mut self.shown, names)?;
        self.fed = log.len();
        Ok(events.len() as u64)
    }

    /// The names of the events whose answer was 1, in order. It takes no memory.
    pub fn shown(&self) -> &NameTexts
        ensures { result.now ≡ self.now.shown }
    {
        &self.shown
    }
}
