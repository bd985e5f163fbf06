//! The tools that print one text canonically, or the state that a log tells.
ghost use Rattle.std.specs.Prelude.{◌≡◌, IfErr, IfOk, IsTrue, Ok, Some, map, string_bytes, ◌↔◌};
ghost use Rattle.flux_tools.specs.Tools.{AreReaderWords, AreToolWords, HasAnswer, HasCause, HasCount, answer, asked, reader_named, tool_named};

use crate::faults::ToolFault;
use crate::lines::line_of;
use outside::{ReadFault, Source, read_all};
use run_limits::MOST_TEXT;
use std::alloc::Global;

/// A tool, which prints a text canonically, or the state that it tells.
#[derive(Clone, Copy, Debug, PartialEq, Eq)]
pub enum ToolName {
    Idset,
    Hostlist,
    Fluid,
    R,
    Replay,
}

/// The tool that a word names, whose text is the next word.
fn tool_named(name: &str) -> Option<ToolName>
    ensures { result ≡ tool_named name.now }
{
    match name {
        "idset" => Some(ToolName::Idset),
        "hostlist" => Some(ToolName::Hostlist),
        "fluid" => Some(ToolName::Fluid),
        _ => None,
    }
}

/// The tool that a word names, whose text is what the source has.
fn reader_named(name: &str) -> Option<ToolName>
    ensures { result ≡ reader_named name.now }
{
    match name {
        "R" => Some(ToolName::R),
        "replay" => Some(ToolName::Replay),
        _ => None,
    }
}

/// The tool that words ask for.
fn asked(words: &[String]) -> Option<ToolName>
    ensures { result ≡ asked (map string_bytes words.now) }
{
    match words {
        [name] => reader_named(name.as_str()),
        [name, _] => tool_named(name.as_str()),
        _ => None,
    }
}

/// Whether the words are a tool's: `idset`, `hostlist` or `fluid` and one text, which may be empty;
/// or `R` or `replay` alone.
pub fn is_tool(words: &[String]) -> bool
    ensures { IsTrue result ↔ AreToolWords (map string_bytes words.now) }
{
    asked(words).is_some()
}

/// What a tool prints of the text that it is given: one line, or why it prints nothing. `R` and
/// `replay` read the source to its end for their text, of at most 16 MiB.
pub fn tool<S: Source>(
    alloc: Global,
    words: &[String],
    source: &mut S,
) -> Result<Vec<u8>, ToolFault>
    requires { AreToolWords (map string_bytes words.now) }
    ensures answer { IfOk result (λ line. HasAnswer
        (map string_bytes words.now) (S.left source.old) (S.left source.new) (Ok line.items)) }
    ensures cause { IfErr result (λ fault. HasCause (map string_bytes words.now)
        (S.left source.old) (S.left source.new) (S.faults source.old) (S.faults source.new) fault) }
    ensures unread { ¬ AreReaderWords (map string_bytes words.now) → source.new ≡ source.old }
    ensures count { HasCount (S.faults source.old) (S.faults source.new) result }
{
    let Some(name) = asked(words) else {
        unreachable!()
    };
    match words {
        [_, text] => line_of(alloc, name, text.as_bytes()),
        [_] => match read_all(alloc, source, MOST_TEXT) {
            Ok(text) => line_of(alloc, name, &text),
            Err(ReadFault::NoMemory) => Err(ToolFault::NoMemory),
            Err(fault) => Err(ToolFault::Read(fault)),
        },
        _ => unreachable!(),
    }
}
