//! The reader of logs (Flux RFC 18).
ghost use Rattle.std.specs.Prelude.{◌≡◌, ◌≤◌, ◌<◌, IfOk, OnOk, IfSome, All, Ok, length, not, string_bytes, ◌==◌, IsUtf8};
ghost use Rattle.std.specs.List.{list_all, prefix_len};
ghost use Rattle.std.specs.BTreeMap.{keys};
ghost use Rattle.outcomes.specs.Outcomes.{Finds, Gives};
ghost use Rattle.serde_json.specs.Data.{depth};
ghost use Rattle.serde_json.specs.Read.{max_depth};
ghost use Rattle.serde_json.specs.View.{view};
ghost use Rattle.fl_json.specs.Reading.{lasting as lasting_json};
ghost use Rattle.fl_json.specs.Valid.{IsValid};
ghost use Rattle.event_log.specs.Events.{IsEvent, IsObjectText, event_of, told, name_of, context_of, has_event_keys, is_event_key};
ghost use Rattle.event_log.specs.Logs.{first_told, log_reading, line_fault, lasting};

use crate::event::{Event, LogFault};
use fl_json::{JsonFault, Value, field, number, word};
use lists::Bytes;
use serde_json::Map;
use std::alloc::Global;

/// The name in an event's value.
fn name_in(value: &Value) -> Result<&str, JsonFault>
    ensures found { Finds (λ s. s.now) result (name_of (view value.now)) }
    ensures some { IfOk result (λ s. 0 < length s.now) }
    ensures utf8 { IfOk result (λ s. IsUtf8 s.now) }
{
    let name = word(value, "name")?;
    if name.is_empty() {
        return Err(JsonFault::WrongKind);
    }
    Ok(name)
}

/// The canonical text of the context in an event's value.
fn context_in(alloc: Global, value: &Value) -> Result<Option<Bytes>, JsonFault>
    requires valid { IsValid (view value.now) }
    requires nests { depth (view value.now) ≤ max_depth }
    ensures found { Gives lasting_json (λ c. c) result (context_of (view value.now)) }
    ensures object { IfOk result (λ c. IfSome c IsObjectText) }
{
    match field(value, "context") {
        Ok(context) if context.is_object() => Ok(Some(Bytes::from_vec(context.to_vec(alloc)?))),
        Ok(_) => Err(JsonFault::WrongKind),
        Err(JsonFault::Missing) => Ok(None),
        Err(fault) => Err(fault),
    }
}

/// Whether a key is one of an event's.
fn can_be_key(key: &str) -> bool
    ensures { result ≡ is_event_key key.now }
{
    key == "timestamp" || key == "name" || key == "context"
}

/// Whether all keys are an event's.
fn are_known(members: &Map<String, Value>) -> bool
    ensures { result ≡ list_all (λ key. is_event_key (string_bytes key)) (keys members.now) }
{
    members.keys().all(|key| can_be_key(key.as_str()))
}

/// Whether a value has no key but those of an event.
fn has_known_keys(value: &Value) -> bool
    ensures { result ≡ has_event_keys (view value.now) }
{
    match value.as_object() {
        Some(members) => are_known(members),
        None => true,
    }
}

/// The event that a value tells.
#[tactic(auto, unfolding(crate::specs::Events::event_of))]
fn event_in(alloc: Global, value: &Value) -> Result<Event, JsonFault>
    requires valid { IsValid (view value.now) }
    requires nests { depth (view value.now) ≤ max_depth }
    ensures found { Gives lasting_json (λ e. e) result (event_of (view value.now)) }
    ensures valid { IfOk result IsEvent }
{
    let timestamp = number(value, "timestamp")?;
    let name = name_in(value)?;
    let context = context_in(alloc, value)?;
    if !has_known_keys(value) {
        return Err(JsonFault::WrongKind);
    }
    let name = Bytes::of(alloc, name.as_bytes())?;
    Ok(Event {
        timestamp,
        name,
        context,
    })
}

/// The event that a line tells, without its newline.
fn event_at(alloc: Global, line: &[u8]) -> Result<Event, JsonFault>
    ensures found { Gives lasting_json (λ e. e) result (told line.now) }
    ensures valid { IfOk result IsEvent }
{
    let value = fl_json::read(alloc, line)?;
    event_in(alloc, &value)
}

/// How long the first line of a text is, without its newline.
fn line_len(text: &[u8]) -> usize
    ensures value { result ≡ prefix_len (λ b. not (b == 10)) text.now }
    ensures bound { result ≤ length text.now }
{
    for (i, byte) in text.iter().enumerate() {
        if *byte == b'\n' {
            return i;
        }
    }
    text.len()
}

/// The fault of a log whose line of this number has a fault.
fn fault_at(line: u64, fault: JsonFault) -> LogFault
    ensures { result ≡ line_fault line fault }
{
    match fault {
        JsonFault::NoMemory => LogFault::NoMemory,
        fault => LogFault::BadLine { line, fault },
    }
}

/// The event of the first line of what is left of a log, which stands before its newline and what
/// is behind that.
fn first_event(alloc: Global, line: u64, first: &[u8], behind: &[u8]) -> Result<Event, LogFault>
    ensures event { Gives lasting (λ e. e) result (first_told line first.now behind.now) }
    ensures valid { IfOk result IsEvent }
    ensures newline { OnOk result (0 < length behind.now) }
{
    let event = match event_at(alloc, first) {
        Ok(event) => event,
        Err(fault) => return Err(fault_at(line, fault)),
    };
    if behind.is_empty() {
        return Err(LogFault::NoNewline);
    }
    Ok(event)
}

/// The events of a log (Flux RFC 18). `BadLine` at the first line that tells none, and else
/// `NoNewline` where the last line has none.
pub fn read(alloc: Global, text: &[u8]) -> Result<Vec<Event>, LogFault>
    ensures log { Gives lasting (λ v. v.items) result (log_reading text.now) }
    ensures valid { IfOk result (λ v. All IsEvent v.items) }
{
    let mut events = Vec::new(alloc);
    let mut rest = text;
    let mut line = 0u64;
    'lines: while !rest.is_empty() {
        line += 1;
        let (first, behind) = rest.split_at(line_len(rest));
        let event = first_event(alloc, line, first, behind)?;
        events.push(event)?;
        rest = &behind[1..];
    }
    Ok(events)
}
