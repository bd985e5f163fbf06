//! The reader of workloads.
ghost use Rattle.std.specs.Prelude.{◌≡◌, ◌≤◌, ◌<◌, ◌+◌, [], length, if◌then◌else◌, option_map, OnOk, Some};
ghost use Rattle.std.specs.Str.Lines.{strip_carriage_return};
ghost use Rattle.outcomes.specs.Outcomes.{Reads, first_of};
ghost use Rattle.run_limits.specs.Limits.{most_text};
ghost use Rattle.workload.specs.Limits.{most_actors};
ghost use Rattle.workload_reader.specs.Lines.{lines_of};
ghost use Rattle.workload_reader.specs.Verbs.{lasting};
ghost use Rattle.workload.specs.Grants.{grant_of};
ghost use Rattle.workload_reader.specs.Grants.{grant_faults, told_faults, with_grant};
ghost use Rattle.workload.specs.Laws.{empty};
ghost use Rattle.workload_reader.specs.Reading.{is_declaration, is_home, label_in, actor_of, declaration_faults, actor_faults, verb_faults, command_faults, command_of, line_of, fault_in, with_lines, line_faults, with_line, with_actor, with_command, is_passed_over, first_fault, spelled};

use crate::faults::{LineFault, Which};
use crate::homes::said_by;
use crate::verbs::Verb;
use lists::Bytes;
use resource_set::RFault;
use run_limits::MOST_TEXT;
use std::alloc::Global;
use std::str;
use workload::grant::Grant;
use workload::limits::{MOST_ACTORS, MOST_COMMANDS, MOST_LINE};
use workload::words::{can_name, cut, number};
use workload::work::{Actor, ActorList, Command, Line, Workload, place};

/// Whether the words behind an actor's rank are none, or `of` and a label.
fn can_home(words: &str) -> bool
    ensures { result ≡ is_home words.now }
{
    let (word, rest) = cut(words);
    let (label, rest) = cut(rest);
    let (more, _) = cut(rest);
    word.is_empty() || word == "of" && can_name(label) && more.is_empty()
}

/// The label that the words behind an actor's rank name, where there are words.
pub fn label_in(words: &str) -> Option<&str>
    ensures { option_map (λ label. label.now) result ≡ label_in words.now }
{
    let (word, rest) = cut(words);
    let (label, _) = cut(rest);
    if word.is_empty() { None } else { Some(label) }
}

/// Whether the text behind the word `actor` is one free name, one word, and maybe a child's label.
fn can_declare(actors: &ActorList, tail: &str) -> bool
    ensures { result ≡ is_declaration actors.now tail.now }
{
    let (name, rest) = cut(tail);
    let (rank, rest) = cut(rest);
    can_name(name)
        && name != "actor"
        && name != "grant"
        && place(actors, name).is_none()
        && !rank.is_empty()
        && can_home(rest)
}

/// The actor that the text behind the word `actor` declares, in the line of this number.
pub fn declared(
    alloc: Global,
    size: u32,
    actors: &ActorList,
    line: u64,
    tail: &str,
) -> Result<Actor, LineFault>
    ensures { Reads lasting
        (first_of (declaration_faults size actors.now line tail.now))
        (λ a. a ≡ actor_of tail.now)
        result }
{
    if !can_declare(actors, tail) {
        return Err(LineFault::BadCommand { line });
    }
    let (name, rest) = cut(tail);
    let (rank, rest) = cut(rest);
    let Some(rank) = number(rank) else {
        return Err(LineFault::BadNumber { line });
    };
    let label = label_in(rest);
    if label.is_none() && u64::from(size) <= rank {
        return Err(LineFault::Limit {
            line,
            which: Which::Rank,
        });
    }
    let name = Bytes::of(alloc, name.as_bytes())?;
    let of = match label {
        Some(label) => Some(Bytes::of(alloc, label.as_bytes())?),
        None => None,
    };
    Ok(Actor { name, rank, of })
}

/// The actor that an actor's line declares, where the text behind the word `actor` is this.
fn actor(
    alloc: Global,
    size: u32,
    actors: &ActorList,
    line: u64,
    tail: &str,
) -> Result<Actor, LineFault>
    ensures { Reads lasting (first_of (actor_faults size actors.now line tail.now))
        (λ a. a ≡ actor_of tail.now) result }
{
    if MOST_ACTORS <= actors.as_slice().len() {
        return Err(LineFault::Limit {
            line,
            which: Which::Actors,
        });
    }
    declared(alloc, size, actors, line, tail)
}

/// The command that a text spells, in the line of this number, where the actor of the number `by`
/// says it.
#[tactic(auto, unfolding(crate::specs::Reading::verb_faults))]
fn order(
    alloc: Global,
    work: &Workload,
    by: usize,
    line: u64,
    text: &str,
) -> Result<Command, LineFault>
    requires { length work.now.actors ≤ most_actors }
    ensures { Reads lasting (first_of (verb_faults work.now by line text.now))
        (λ c. command_of work.now text.now ≡ Some c) result }
{
    let (word, tail) = cut(text);
    let Some(verb) = Verb::of(word) else {
        return Err(LineFault::BadCommand { line });
    };
    said_by(alloc, work, by, verb, line, tail)
}

/// The command line that a line of this number is.
fn command_line(alloc: Global, work: &Workload, number: u64, line: &str) -> Result<Line, LineFault>
    requires { length work.now.actors ≤ most_actors }
    ensures { Reads lasting (first_of (command_faults work.now number line.now))
        (λ l. line_of work.now line.now ≡ Some l) result }
{
    if MOST_COMMANDS <= work.lines.as_slice().len() {
        return Err(LineFault::Limit {
            line: number,
            which: Which::Commands,
        });
    }
    let (name, text) = cut(line);
    let Some(actor) = place(&work.actors, name) else {
        return Err(LineFault::NoActor { line: number });
    };
    let command = order(alloc, work, actor, number, text)?;
    Ok(Line {
        actor: actor as u32,
        command,
    })
}

/// Whether a line with this first word is passed over.
fn passes_over(word: &str) -> bool
    ensures { result ≡ is_passed_over word.now }
{
    match word.as_bytes() {
        [] => true,
        [first, ..] => *first == b'#',
    }
}

/// Adds the actor that the text behind the word `actor` declares.
fn add_actor(
    alloc: Global,
    size: u32,
    work: &mut Workload,
    number: u64,
    tail: &str,
) -> Result<(), LineFault>
    ensures read { Reads lasting (first_of (actor_faults size work.old.actors number tail.now))
        (λ _. work.new ≡ with_actor work.old tail.now) result }
    ensures few { OnOk result (length work.new.actors ≤ most_actors) }
{
    let actor = actor(alloc, size, &work.actors, number, tail)?;
    work.actors.push(actor)?;
    Ok(())
}

/// Adds the command line that a line is.
fn add_command(alloc: Global, work: &mut Workload, number: u64, line: &str) -> Result<(), LineFault>
    requires { length work.old.actors ≤ most_actors }
    ensures read { Reads lasting (first_of (command_faults work.old number line.now))
        (λ _. work.new ≡ with_command work.old line.now) result }
    ensures few { OnOk result (length work.new.actors ≤ most_actors) }
{
    let line = command_line(alloc, work, number, line)?;
    work.lines.push(line)?;
    Ok(())
}

/// The grant that a text tells, in the line of this number.
#[tactic(auto, unfolding(workload::specs::Grants::grant_of))]
fn told_grant(alloc: Global, line: u64, text: &str) -> Result<Grant, LineFault>
    ensures { Reads lasting
        (first_of (told_faults line (grant_of text.now)))
        (λ r. grant_of text.now ≡ Some r)
        result }
{
    let grant = match Grant::read(alloc, text.as_bytes()) {
        Ok(grant) => grant,
        Err(RFault::NoMemory) => return Err(LineFault::NoMemory),
        Err(_) => return Err(LineFault::BadCommand { line }),
    };
    if grant.is_past_limits() {
        return Err(LineFault::Limit {
            line,
            which: Which::Grant,
        });
    }
    Ok(grant)
}

/// Gives the workload the grant that the text behind the word `grant` tells.
fn add_grant(alloc: Global, work: &mut Workload, number: u64, text: &str) -> Result<(), LineFault>
    requires { length work.old.actors ≤ most_actors }
    ensures read { Reads lasting
        (first_of (grant_faults work.old number text.now))
        (λ _. work.new ≡ with_grant work.old text.now)
        result }
    ensures few { OnOk result (length work.new.actors ≤ most_actors) }
{
    if work.grant.is_some() || !work.lines.as_slice().is_empty() {
        return Err(LineFault::BadCommand { line: number });
    }
    let grant = told_grant(alloc, number, text)?;
    work.grant = Some(grant);
    Ok(())
}

/// Adds what a line of this number spells, before whose newline so many bytes stand.
fn add_line(
    alloc: Global,
    size: u32,
    work: &mut Workload,
    number: u64,
    bytes: usize,
    line: &str,
) -> Result<(), LineFault>
    requires { length work.old.actors ≤ most_actors }
    ensures read { Reads lasting
        (first_of (line_faults size work.old number (record { bytes = bytes; text = line.now })))
        (λ _. work.new ≡ with_line work.old (record { bytes = bytes; text = line.now })) result }
    ensures few { OnOk result (length work.new.actors ≤ most_actors) }
{
    if MOST_LINE < bytes {
        return Err(LineFault::Limit {
            line: number,
            which: Which::Line,
        });
    }
    let (word, tail) = cut(line);
    if passes_over(word) {
        Ok(())
    } else if word == "actor" {
        add_actor(alloc, size, work, number, tail)
    } else if word == "grant" {
        add_grant(alloc, work, number, tail)
    } else {
        add_command(alloc, work, number, line)
    }
}

/// The text of a line that a newline ends.
fn without_return(piece: &str) -> &str
    ensures { result.now ≡ strip_carriage_return piece.now }
{
    match piece.strip_suffix('\r') {
        Some(line) => line,
        None => piece,
    }
}

/// The workload that the lines of a text spell.
fn read_lines(alloc: Global, size: u32, text: &str) -> Result<Workload, LineFault>
    requires { length text.now ≤ most_text }
    ensures { Reads lasting (fault_in size empty 1 (lines_of text.now))
        (λ w. w ≡ with_lines empty (lines_of text.now)) result }
{
    let mut work = Workload::new(alloc);
    let mut number = 1u64;
    let mut rest = text;
    while let Some((piece, behind)) = rest.split_once('\n') {
        let line = without_return(piece);
        add_line(alloc, size, &mut work, number, piece.len(), line)?;
        number += 1;
        rest = behind;
    }
    add_line(alloc, size, &mut work, number, rest.len(), rest)?;
    Ok(work)
}

/// The workload that a text of at most 16 MiB of UTF-8 spells, for brokers numbered from 0 below
/// `size`.
///
/// `TooLong` and `NotUtf8` are of the whole text. Else the first faulty line counts, and in it the
/// first of this order: its length, too many actors or commands, an unknown actor, a malformed
/// line, a number, any other limit.
pub fn read(alloc: Global, text: &[u8], size: u32) -> Result<Workload, LineFault>
    requires { (1 ≤ size) × (size ≤ 32) }
    ensures { Reads lasting (first_fault size text.now) (λ w. w ≡ spelled text.now) result }
{
    if MOST_TEXT < text.len() {
        return Err(LineFault::TooLong);
    }
    let Ok(text) = str::from_utf8(text) else {
        return Err(LineFault::NotUtf8);
    };
    read_lines(alloc, size, text)
}
