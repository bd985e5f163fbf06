//! The dependencies that a submission lists.
use event_log::Event;
use job_spec::JobSpec;
use job_texts::{description, needs_of};
use lists::Bytes;
use std::alloc::Global;
use std::test::Fail;

/// A jobspec that waits for the start of job 1, which is `f2`.
const SPEC: &str =
    "{\"resources\":[{\"type\":\"slot\",\"count\":1,\"with\":[{\"type\":\"core\",\"count\":1}],\
        \"label\":\"task\"}],\"tasks\":[{\"command\":[\"true\"],\"slot\":\"task\",\
        \"count\":{\"per_slot\":1}}],\"attributes\":{\"system\":{\"duration\":0,\
        \"dependencies\":[{\"scheme\":\"after\",\"value\":\"f2\"}]}},\"version\":1}";

/// Contexts of submissions, and the dependencies of the job.
const ROWS: [(&str, &str); 5] = [
    ("{\"urgency\":16}", "after:f2"),
    ("{\"depends\":[]}", "after:f2"),
    ("{\"depends\":[\"after:f2\"]}", "after:f2"),
    (
        "{\"depends\":[\"afternotok:f2\",\"afterok:f3\",\"afternotok:f2\"]}",
        "after:f2 afternotok:f2 afterok:f3",
    ),
    ("{\"depends\":[\"afterany:fJf\"]}", "after:f2 afterany:fJf"),
];

/// The dependencies of a job, in words.
fn told(alloc: Global, spec: &JobSpec, event: &Event) -> Result<String, Fail> {
    let mut told = String::new(alloc);
    for need in needs_of(alloc, spec, event)?.as_slice() {
        if !told.is_empty() {
            told.push_str(" ")?;
        }
        told.push_str(std::str::from_utf8(description(alloc, need)?.as_slice())?)?;
    }
    Ok(told)
}

/// Whether a job with a submission of this context has these dependencies.
fn are_listed(alloc: Global, spec: &JobSpec, context: &str, wanted: &str) -> Result<bool, Fail> {
    let event = Event {
        timestamp: 5,
        name: Bytes::of(alloc, b"submit")?,
        context: Some(Bytes::of(alloc, context.as_bytes())?),
    };
    let found = told(alloc, spec, &event)?;
    Ok(found.as_str() == wanted)
}

#[test]
fn dependencies_are_listed_once(rt: HostRuntime) -> Result<(), Fail> {
    let alloc = rt.alloc();
    let spec = job_spec::read(alloc, SPEC.as_bytes())?;
    for (context, wanted) in &ROWS {
        assert!(rt; are_listed(alloc, &spec, context, wanted)?, "{context}");
    }
    Ok(())
}
