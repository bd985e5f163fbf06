//! What the eventlog of a job tells of it (Flux RFC 21).
use event_log::Event;
use job_states::{Job, ReplayFault, replay};
use lists::Bytes;
use std::alloc::Global;
use std::test::Fail;

/// Events by their names and contexts.
const SUBMIT: (&str, &str) = (
    "submit",
    "{\"flags\":0,\"urgency\":16,\"userid\":0,\"version\":1}",
);

const VALIDATE: (&str, &str) = ("validate", "");

const DEPEND: (&str, &str) = ("depend", "");

const PRIORITY: (&str, &str) = ("priority", "{\"priority\":16}");

const ALLOC: (&str, &str) = ("alloc", "");

const START: (&str, &str) = ("start", "");

const FINISH: (&str, &str) = ("finish", "{\"status\":0}");

const RELEASE: (&str, &str) = ("release", "{\"final\":true,\"ranks\":\"0\"}");

const FREE: (&str, &str) = ("free", "");

const CLEAN: (&str, &str) = ("clean", "");

const CANCEL: (&str, &str) = ("exception", "{\"severity\":0,\"type\":\"cancel\"}");

const NOTE: (&str, &str) = ("exception", "{\"severity\":3,\"type\":\"note\"}");

/// The log of a job that sleeps for ten seconds.
const LOG: [(&str, &str); 10] = [
    SUBMIT, VALIDATE, DEPEND, PRIORITY, ALLOC, START, FINISH, RELEASE, FREE, CLEAN,
];

/// Logs and what they tell.
const LOGS: [(&[(&str, &str)], &str); 15] = [
    (
        &[("submit", "not JSON")],
        "event 0 is not allowed in no state",
    ),
    (&[("submit", "[]")], "event 0 is not allowed in no state"),
    (&[SUBMIT, ("validate", "not JSON")], "DEPEND 0 16 None None"),
    (
        &LOG,
        "INACTIVE 0 16 Some(16) Some(0) allocated started released freed",
    ),
    (&[], "event 0 is not allowed in no state"),
    (&[VALIDATE], "event 0 is not allowed in no state"),
    (&[SUBMIT, ALLOC], "event 1 is not allowed in NEW"),
    (&[SUBMIT, SUBMIT], "event 1 is not allowed in NEW"),
    (
        &[
            SUBMIT, VALIDATE, DEPEND, PRIORITY, ALLOC, START, FINISH, CANCEL, RELEASE, FREE, CLEAN,
        ],
        "INACTIVE 0 16 Some(16) Some(0) severe allocated started released freed",
    ),
    (
        &[
            SUBMIT,
            VALIDATE,
            NOTE,
            ("urgency", "{\"urgency\":3,\"userid\":9}"),
        ],
        "DEPEND 0 3 None None",
    ),
    (
        &[SUBMIT, VALIDATE, DEPEND, PRIORITY, CANCEL, ALLOC, CLEAN],
        "INACTIVE 0 16 Some(16) None severe allocated",
    ),
    (
        &[SUBMIT, VALIDATE, DEPEND, PRIORITY, CANCEL, ALLOC, ALLOC],
        "event 6 is not allowed in CLEANUP",
    ),
    (
        &[SUBMIT, VALIDATE, DEPEND, PRIORITY, CANCEL, FREE, ALLOC],
        "event 6 is not allowed in CLEANUP",
    ),
    (
        &[
            SUBMIT,
            ("dependency-add", "{\"description\":\"a\"}"),
            VALIDATE,
            ("dependency-add", "{\"description\":\"b\"}"),
            ("dependency-add", "{\"description\":\"a\"}"),
            ("dependency-remove", "{\"description\":\"b\"}"),
        ],
        "DEPEND 0 16 None None +a +b +a -b",
    ),
    (
        &[
            SUBMIT,
            VALIDATE,
            DEPEND,
            PRIORITY,
            ALLOC,
            ("release", "{\"final\":false,\"ranks\":\"0\"}"),
            ("release", "{\"final\":true,\"ranks\":\"1\"}"),
        ],
        "event 6 is not allowed in RUN",
    ),
];

/// The events of a log.
fn events_of(alloc: Global, log: &[(&str, &str)]) -> Result<Vec<Event>, Fail> {
    let mut events = Vec::new(alloc);
    for (name, context) in log {
        let name = Bytes::of(alloc, name.as_bytes())?;
        let context = if context.is_empty() {
            None
        } else {
            Some(Bytes::of(alloc, context.as_bytes())?)
        };
        events.push(Event {
            timestamp: 0,
            name,
            context,
        })?;
    }
    Ok(events)
}

/// A job in words.
fn words_of(alloc: Global, job: &Job) -> Result<String, Fail> {
    let state = job.state;
    let urgency = job.urgency;
    let userid = job.userid;
    let priority = job.priority;
    let status = job.status;
    let mut words = format!(in alloc; "{state} {userid} {urgency} {priority:?} {status:?}")?;
    let marks = [
        (job.severe, " severe"),
        (job.allocated, " allocated"),
        (job.started, " started"),
        (job.released, " released"),
        (job.freed, " freed"),
    ];
    for (is, mark) in marks {
        if is {
            words.push_str(mark)?;
        }
    }
    for on in job.added.as_slice() {
        words.push_str(" +")?;
        words.push_str(std::str::from_utf8(on.as_slice()).ok().unwrap_or("?"))?;
    }
    for on in job.removed.as_slice() {
        words.push_str(" -")?;
        words.push_str(std::str::from_utf8(on.as_slice()).ok().unwrap_or("?"))?;
    }
    Ok(words)
}

/// What a log tells, in words.
fn told(alloc: Global, log: &[(&str, &str)]) -> Result<String, Fail> {
    match replay(alloc, &events_of(alloc, log)?) {
        Ok(job) => words_of(alloc, &job),
        Err(ReplayFault::NoMemory) => Err(ReplayFault::NoMemory.into()),
        Err(fault) => Ok(format!(in alloc; "{fault}")?),
    }
}

#[test]
fn logs_tell_their_jobs(rt: HostRuntime) -> Result<(), Fail> {
    for (log, wanted) in &LOGS {
        let found = told(rt.alloc(), log)?;
        assert!(rt; found.as_str() == *wanted, "{wanted}");
    }
    Ok(())
}
