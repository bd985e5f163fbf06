//! The lines of a workload.
ghost use Rattle.std.specs.Prelude.{◌≡◌, ◌++◌, decimal, OnOk};
ghost use Rattle.workload_generator.specs.Texts.{actor_line, command_text, jobspec, line_text};

use crate::ACTORS;
use crate::drawn::{Drawn, Kind};
use itoa::Buffer;
use lists::Bytes;
use std::alloc::AllocError;

/// The brokers at which the actors stand.
const BROKERS: u32 = 7;

/// Adds a word and a number right behind it.
fn add_numbered(text: &mut Bytes, word: &[u8], number: u32) -> Result<(), AllocError>
    ensures { OnOk result (text.new ≡ text.old ++ (word.now ++ decimal number)) }
{
    let mut buffer = Buffer::new();
    text.add(word)?;
    text.add(buffer.format(number).as_bytes())
}

/// Adds the line of an actor.
#[tactic(auto, unfolding(crate::specs::Texts::actor_line))]
pub fn add_actor(text: &mut Bytes, number: u32) -> Result<(), AllocError>
    ensures { OnOk result (text.new ≡ text.old ++ actor_line number) }
{
    add_numbered(text, b"actor a", number)?;
    add_numbered(text, b" ", number % BROKERS)?;
    text.push(b'\n')
}

/// Adds the text of a jobspec.
#[tactic(auto, unfolding(crate::specs::Texts::jobspec))]
fn add_jobspec(text: &mut Bytes, slots: u32, seconds: u32) -> Result<(), AllocError>
    ensures { OnOk result (text.new ≡ text.old ++ jobspec slots seconds) }
{
    let slot = b"{\"resources\":[{\"type\":\"slot\",\"count\":";
    let shape = b",\"with\":[{\"type\":\"core\",\"count\":1}],\"label\":\"task\"}],";
    let task = b"\"tasks\":[{\"command\":[\"sleep\",\"";
    let rest = b"\"],\"slot\":\"task\",\"count\":{\"per_slot\":1}}],";
    let system = b"\"attributes\":{\"system\":{\"duration\":0}},\"version\":1}";
    add_numbered(text, slot, slots)?;
    text.add(shape)?;
    add_numbered(text, task, seconds)?;
    text.add(rest)?;
    text.add(system)
}

/// Adds what a command at a place asks for.
fn add_asked(text: &mut Bytes, place: u32, kind: Kind, choice: u32) -> Result<(), AllocError>
    ensures { OnOk result (text.new ≡ text.old ++ command_text place kind choice) }
{
    match kind {
        Kind::Put => {
            add_numbered(text, b"put k", choice % 100)?;
            add_numbered(text, b" v", place)
        }
        Kind::Append => {
            add_numbered(text, b"append l", choice % 10)?;
            text.add(b" +")
        }
        Kind::Commit => text.add(b"commit"),
        Kind::Get => add_numbered(text, b"get k", choice % 100),
        Kind::Submit => {
            add_numbered(text, b"submit j", place)?;
            text.push(b' ')?;
            add_jobspec(text, choice % 4 + 1, choice % 5)
        }
        Kind::Advance => add_numbered(text, b"advance ", choice % 3),
    }
}

/// Adds the line of a command at a place that asks for this.
#[tactic(auto, unfolding(crate::specs::Texts::line_text))]
pub fn add_command(
    text: &mut Bytes,
    place: u32,
    kind: Kind,
    drawn: &Drawn,
) -> Result<(), AllocError>
    ensures { OnOk result (text.new ≡ text.old ++ line_text place kind drawn.now) }
{
    add_numbered(text, b"a", drawn.actor % ACTORS)?;
    text.push(b' ')?;
    add_asked(text, place, kind, drawn.choice)?;
    text.push(b'\n')
}
