//! Eventlogs (Flux RFC 18).
use event_log::{Event, LogFault, line, read};
use lists::Copied;
use std::test::Fail;

/// The log of a job from its submission to its end.
const LOG: &str =
    "{\"context\":{\"flags\":0,\"urgency\":16,\"userid\":0,\"version\":1},\"name\":\"submit\",\
        \"timestamp\":0}\n{\"name\":\"validate\",\"timestamp\":0}\n\
        {\"name\":\"depend\",\"timestamp\":0}\n\
        {\"context\":{\"priority\":16},\"name\":\"priority\",\"timestamp\":0}\n\
        {\"name\":\"alloc\",\"timestamp\":0}\n{\"name\":\"start\",\"timestamp\":0}\n\
        {\"context\":{\"status\":0},\"name\":\"finish\",\"timestamp\":10}\n\
        {\"context\":{\"final\":true,\"ranks\":\"0\"},\"name\":\"release\",\"timestamp\":10}\n\
        {\"name\":\"free\",\"timestamp\":10}\n{\"name\":\"clean\",\"timestamp\":10}\n";

/// Texts and the canonical logs that they tell; a fault is told by words.
const TEXTS: [(&str, &str); 33] = [
    (LOG, LOG),
    ("", ""),
    ("\n", "line 1: not JSON"),
    (
        "{\"timestamp\":1,\"name\":\"a\"}",
        "the last line has no newline",
    ),
    ("{\"timestamp\":1,\"name\":\"a\"}\n\n", "line 2: not JSON"),
    ("{\"timestamp\":1}", "line 1: the field is missing"),
    (
        "{\"name\":\"a\",\"timestamp\":1}\nx\n{\"name\":\"a\"",
        "line 2: not JSON",
    ),
    (
        " { \"timestamp\" : 3600.0 , \"name\" : \"a\" }\t\r\n",
        "{\"name\":\"a\",\"timestamp\":3600}\n",
    ),
    (
        "{\"timestamp\":1.5,\"nam\n",
        "line 1: no whole number of 64 bits at byte 13",
    ),
    (
        "{\"timestamp\":1e3,\"name\":\"a\"}\n",
        "line 1: no whole number of 64 bits at byte 13",
    ),
    (
        "{\"timestamp\":-0,\"name\":\"a\"}\n",
        "line 1: no whole number of 64 bits at byte 13",
    ),
    ("{\"timestamp\":01,\"name\":\"a\"}\n", "line 1: not JSON"),
    (
        "{\"timestamp\":-1,\"name\":\"a\"}\n",
        "line 1: the value is of another kind",
    ),
    (
        "{\"timestamp\":-1}\n",
        "line 1: the value is of another kind",
    ),
    (
        "{\"timestamp\":-9223372036854775808,\"name\":\"a\"}\n",
        "line 1: the value is of another kind",
    ),
    (
        "{\"timestamp\":18446744073709551615,\"name\":\"a\"}\n",
        "{\"name\":\"a\",\"timestamp\":18446744073709551615}\n",
    ),
    (
        "{\"timestamp\":18446744073709551616,\"name\":\"a\"}\n",
        "line 1: no whole number of 64 bits at byte 13",
    ),
    (
        "{\"timestamp\":\"1\",\"name\":\"a\"}\n",
        "line 1: the value is of another kind",
    ),
    ("{\"name\":\"a\"}\n", "line 1: the field is missing"),
    ("{\"timestamp\":1}\n", "line 1: the field is missing"),
    (
        "{\"timestamp\":1,\"name\":\"\"}\n",
        "line 1: the value is of another kind",
    ),
    (
        "{\"timestamp\":1,\"name\":5}\n",
        "line 1: the value is of another kind",
    ),
    (
        "{\"timestamp\":1,\"name\":\"a\",\"context\":null}\n",
        "line 1: the value is of another kind",
    ),
    (
        "{\"timestamp\":1,\"name\":\"a\",\"context\":[]}\n",
        "line 1: the value is of another kind",
    ),
    (
        "{\"timestamp\":1,\"name\":\"a\",\"context\":{}}\n",
        "{\"context\":{},\"name\":\"a\",\"timestamp\":1}\n",
    ),
    (
        "{\"timestamp\":1,\"name\":\"a\",\"other\":1}\n",
        "line 1: the value is of another kind",
    ),
    ("{\"other\":1}\n", "line 1: the field is missing"),
    ("[]\n", "line 1: the value is of another kind"),
    ("5\n", "line 1: the value is of another kind"),
    (
        "{\"timestamp\":1,\"timestamp\":2,\"name\":\"a\"}\n",
        "{\"name\":\"a\",\"timestamp\":2}\n",
    ),
    (
        "{\"timestamp\":1,\"name\":\"\\ud800\"}\n",
        "line 1: not JSON",
    ),
    (
        "{\"timestamp\":1,\"name\":\"\\u0007\\n\\\"\\\\/\u{1f600}\u{7f}\"}\n",
        "{\"name\":\"\\u0007\\n\\\"\\\\/\u{1f600}\u{7f}\",\"timestamp\":1}\n",
    ),
    (
        "{\"context\":{\"b\":[{}],\"a\":1.0},\"timestamp\":1,\"name\":\"a\"}\n",
        "{\"context\":{\"a\":1,\"b\":[{}]},\"name\":\"a\",\"timestamp\":1}\n",
    ),
];

/// The lines of copies of events.
fn lines_of(rt: &HostRuntime, events: &[Event]) -> Result<Vec<u8>, Fail> {
    let mut lines = Vec::new(rt.alloc());
    for event in events {
        lines.extend_from_slice(&line(rt.alloc(), &event.copy()?)?)?;
    }
    Ok(lines)
}

/// What a text tells: the lines of copies of its events, or the fault.
fn told(rt: &HostRuntime, text: &[u8]) -> Result<Vec<u8>, Fail> {
    match read(rt.alloc(), text) {
        Ok(events) => lines_of(rt, events.as_slice()),
        Err(LogFault::NoMemory) => Err(LogFault::NoMemory.into()),
        Err(fault) => Ok(format!(in rt.alloc(); "{fault}")?.into_bytes()),
    }
}

/// Arrays in one another, as the context of an event.
fn nest(rt: &HostRuntime, depth: usize) -> Result<String, Fail> {
    let mut text = String::from_str(rt.alloc(), "{\"context\":{\"a\":")?;
    for _ in 0..depth {
        text.push('[')?;
    }
    for _ in 0..depth {
        text.push(']')?;
    }
    text.push_str("},\"name\":\"a\",\"timestamp\":1}\n")?;
    Ok(text)
}

/// Whether a text tells this.
fn tells(rt: &HostRuntime, given: &[u8], wanted: &str) -> Result<bool, Fail> {
    let found = told(rt, given)?;
    Ok(found.as_slice() == wanted.as_bytes())
}

/// Whether a context with as many arrays in one another as there may be is written again as it is
/// read, and one with another is refused.
fn are_deep(rt: &HostRuntime) -> Result<bool, Fail> {
    let deep = nest(rt, 125)?;
    let is_kept = tells(rt, deep.as_bytes(), deep.as_str())?;
    let deeper = nest(rt, 126)?;
    Ok(is_kept && tells(rt, deeper.as_bytes(), "line 1: not JSON")?)
}

#[test]
fn logs_are_read_and_written_as_the_rule_says(rt: HostRuntime) -> Result<(), Fail> {
    for (given, wanted) in &TEXTS {
        assert!(rt; tells(&rt, given.as_bytes(), wanted)?, "{given}");
    }
    assert!(rt; are_deep(&rt)?);
    let no_text = b"{\"timestamp\":1,\"name\":\"\xff\"}\n";
    assert!(rt; tells(&rt, no_text, "line 1: not JSON")?);
    Ok(())
}
