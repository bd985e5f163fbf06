//! The printer of logs (Flux RFC 18).
ghost use Rattle.std.specs.Prelude.{◌≡◌, ◌<◌, ◌++◌, ◌∷◌, [], All, IfOk, OnOk, Ok, codes};
ghost use Rattle.std.specs.Char.{digit_char};
ghost use Rattle.json.specs.Print.{escape_letter, escape_byte, escape, quoted};
ghost use Rattle.std.specs.Prelude.{List};
ghost use Rattle.event_log.specs.Events.{IsEvent, context_text, line_text};
ghost use Rattle.event_log.specs.Logs.{log_reading, log_text};
ghost use Rattle.event_log.specs.declared.event.Event.{Event};

use crate::event::Event;
use lists::Bytes;
use std::alloc::{AllocError, Global};

/// The letter of a byte's short escape, and 0 where it has none.
fn letter_of(byte: u8) -> u8
    ensures { result ≡ escape_letter byte }
{
    if byte == b'"' || byte == b'\\' {
        byte
    } else if byte == 8 {
        b'b'
    } else if byte == 12 {
        b'f'
    } else if byte == b'\n' {
        b'n'
    } else if byte == b'\r' {
        b'r'
    } else if byte == b'\t' {
        b't'
    } else {
        0
    }
}

/// A hexadecimal digit.
fn digit_of(value: u8) -> u8
    requires { value < 16 }
    ensures { result ≡ digit_char value }
{
    if value < 10 {
        b'0' + value
    } else {
        b'a' - 10 + value
    }
}

/// Adds what stands in a JSON string for a byte.
#[tactic(auto, unfolding(json::specs::Print::escape_byte))]
fn add_escaped(out: &mut Vec<u8>, byte: u8) -> Result<(), AllocError>
    ensures { OnOk result (out.new.items ≡ out.old.items ++ escape_byte byte) }
{
    let letter = letter_of(byte);
    if 0 < letter {
        return out.extend_from_slice(&[b'\\', letter]);
    }
    if byte < 32 {
        let digits = [digit_of(byte / 16), digit_of(byte % 16)];
        return out.extend_from_slice(&[b'\\', b'u', b'0', b'0', digits[0], digits[1]]);
    }
    out.extend_from_slice(&[byte])
}

/// Adds what stands in a JSON string for a text.
fn add_escapes(out: &mut Vec<u8>, text: &[u8]) -> Result<(), AllocError>
    ensures { OnOk result (out.new.items ≡ out.old.items ++ escape text.now) }
{
    for byte in text {
        add_escaped(out, *byte)?;
    }
    Ok(())
}

/// Adds a text as a JSON string.
fn add_quoted(out: &mut Vec<u8>, text: &[u8]) -> Result<(), AllocError>
    ensures { OnOk result (out.new.items ≡ out.old.items ++ quoted text.now) }
{
    out.extend_from_slice(b"\"")?;
    add_escapes(out, text)?;
    out.extend_from_slice(b"\"")
}

/// Adds the context's field with its comma, if there is a context.
fn add_context(out: &mut Vec<u8>, context: &Option<Bytes>) -> Result<(), AllocError>
    ensures { OnOk result (out.new.items ≡ out.old.items ++ context_text context.now) }
{
    let Some(context) = context else {
        return Ok(());
    };
    out.extend_from_slice(b"\"context\":")?;
    out.extend_from_slice(context.as_slice())?;
    out.extend_from_slice(b",")
}

/// The line of an event, with its newline (Flux RFC 18): compact JSON with the keys in their order.
pub fn line(alloc: Global, event: &Event) -> Result<Vec<u8>, AllocError>
    ensures text { IfOk result (λ t. t.items ≡ line_text event.now) }
    // What is written of an event of a log is read again as that event.
    ensures reads_back { IfOk result (λ t. IsEvent event.now
        → log_reading t.items ≡ Ok (event.now ∷ [])) }
{
    let mut out = Vec::new(alloc);
    out.extend_from_slice(b"{")?;
    add_context(&mut out, &event.context)?;
    out.extend_from_slice(b"\"name\":")?;
    add_quoted(&mut out, event.name.as_slice())?;
    out.extend_from_slice(b",\"timestamp\":")?;
    out.extend_from_slice(event.timestamp.to_string(alloc)?.as_bytes())?;
    out.extend_from_slice(b"}\n")?;
    Ok(out)
}

/// The line of an event behind a log is the log of one event more.
pub fn a_line_adds_an_event()
    ensures { (events : List Event) (event : Event)
        → log_text (events ++ event ∷ []) ≡ log_text events ++ line_text event }
{}

/// The text of a log is read again as its events.
pub fn a_log_is_read_again()
    ensures { (events : List Event) → All IsEvent events
        → log_reading (log_text events) ≡ Ok events }
{}
