//! Watches of a job that are fed its log as it grows.
ghost use Rattle.std.specs.Prelude.{◌≡◌, ◌<◌, length, IfOk};
ghost use Rattle.std.specs.Fn.{FnReturnsAt};
ghost use Rattle.event_log.specs.Events.{IsEvent};
ghost use Rattle.job_watch.specs.Answers.{ShowsOnce};

use event_log::{Event, line};
use job_watch::{NameTexts, Show, Watcher};
use lists::Bytes;
use std::alloc::{AllocError, Global};
use std::test::Fail;

/// An event of a name, without a context.
fn event(alloc: Global, name: &str) -> Result<Event, AllocError>
    requires { 0 < length name.now }
    ensures { IfOk result IsEvent }
{
    Ok(Event {
        timestamp: 7,
        name: Bytes::of(alloc, name.as_bytes())?,
        context: None,
    })
}

/// Names with a blank behind each.
fn joined(alloc: Global, names: &NameTexts) -> Result<String, AllocError> {
    let mut text = String::new(alloc);
    for name in names.as_slice() {
        for byte in name.as_slice() {
            text.push(char::from(*byte))?;
        }
        text.push(' ')?;
    }
    Ok(text)
}

/// What is shown of a log that is fed after each of its events, and how many events were fed.
fn watched<W: Fn(&Event) -> u32>(
    alloc: Global,
    names: &[&str],
    show: &Show<W>,
) -> Result<(String, u64), AllocError>
    requires callable { W.IsAlwaysCallable show.now }
    requires once { ShowsOnce (λ event n. FnReturnsAt W.Fn show.now event n) }
{
    let mut watcher = Watcher::new(alloc);
    let mut log = Vec::new(alloc);
    let mut count = 0u64;
    for name in names {
        if !name.is_empty() {
            let text = line(alloc, &event(alloc, name)?)?;
            log.extend_from_slice(text.as_slice())?;
            count = count.saturating_add(watcher.feed(&log, show)?);
        }
    }
    Ok((joined(alloc, watcher.shown())?, count))
}

const NAMES: [&str; 12] = [
    "submit", "validate", "depend", "priority", "alloc", "start", "finish", "start", "release",
    "free", "clean", "memo",
];

#[test]
fn each_event_is_shown_once_and_in_order(rt: HostRuntime) -> Result<(), Fail> {
    let alloc = rt.alloc();
    let all = Show::new(|_: &Event| 1);
    let (shown, count) = watched(alloc, &NAMES, &all)?;
    assert_eq!(rt;
        shown.as_str(),
        "submit validate depend priority alloc start finish start release free clean memo "
    );
    assert_eq!(rt; count, 12);
    let some = Show::new(|event: &Event| u32::from(event.name.as_slice().len() == 5));
    let (shown, count) = watched(alloc, &NAMES, &some)?;
    assert_eq!(rt; shown.as_str(), "alloc start start clean ");
    assert_eq!(rt; count, 12);
    Ok(())
}
