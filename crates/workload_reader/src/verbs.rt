//! The verbs of commands, and what stands behind each.
ghost use Rattle.std.specs.Prelude.{◌≡◌, ◌≤◌, [], ◌∷◌, length};
ghost use Rattle.outcomes.specs.Outcomes.{Reads, first_of};
ghost use Rattle.kvs_txn.specs.Keys.{components};
ghost use Rattle.workload.specs.Limits.{most_actors};
ghost use Rattle.workload.specs.Words.{first_word, behind_word};
ghost use Rattle.workload_reader.specs.Verbs.{faults_of, verb_of, said, one_key, one_name, key_and_text, own_link, two_keys, is_past_key, is_past_value, lasting};

use crate::contents::{content_drop, content_flush, content_load, content_store};
use crate::faults::{LineFault, Which};
use crate::jobs::{
    advance, cancel, info, jobs, raise, result_of, shutdown, state, urgency, watch, why,
};
use crate::submits::submit;
use kvs_txn::{Path, PathFault, Target};
use lists::Bytes;
use std::alloc::Global;
use workload::limits::{MOST_MEMBERS, MOST_VALUE};
use workload::words::{can_name, cut, number, number_within};
use workload::work::{Command, Workload, place};

/// What a command's line asks for.
#[derive(Clone, Copy, Debug, PartialEq, Eq)]
pub enum Verb {
    Put,
    Append,
    Unlink,
    Mkdir,
    Symlink,
    Commit,
    Fence,
    Get,
    Ls,
    Readlink,
    Wait,
    Look,
    Tell,
    NsCreate,
    NsRemove,
    NsUse,
    ContentStore,
    ContentLoad,
    ContentFlush,
    ContentDrop,
    Submit,
    Cancel,
    Raise,
    Urgency,
    State,
    Info,
    Jobs,
    Why,
    Result,
    Watch,
    Advance,
    Shutdown,
}

impl Verb {
    /// The verb that a word is.
    pub fn of(word: &str) -> Option<Verb>
        ensures { result ≡ verb_of word.now }
    {
        match word {
            "put" => Some(Verb::Put),
            "append" => Some(Verb::Append),
            "unlink" => Some(Verb::Unlink),
            "mkdir" => Some(Verb::Mkdir),
            "symlink" => Some(Verb::Symlink),
            "commit" => Some(Verb::Commit),
            "fence" => Some(Verb::Fence),
            "get" => Some(Verb::Get),
            "ls" => Some(Verb::Ls),
            "readlink" => Some(Verb::Readlink),
            "wait" => Some(Verb::Wait),
            "look" => Some(Verb::Look),
            "tell" => Some(Verb::Tell),
            "ns-create" => Some(Verb::NsCreate),
            "ns-remove" => Some(Verb::NsRemove),
            "ns-use" => Some(Verb::NsUse),
            "content-store" => Some(Verb::ContentStore),
            "content-load" => Some(Verb::ContentLoad),
            "content-flush" => Some(Verb::ContentFlush),
            "content-drop" => Some(Verb::ContentDrop),
            "submit" => Some(Verb::Submit),
            "cancel" => Some(Verb::Cancel),
            "raise" => Some(Verb::Raise),
            "urgency" => Some(Verb::Urgency),
            "state" => Some(Verb::State),
            "info" => Some(Verb::Info),
            "jobs" => Some(Verb::Jobs),
            "why" => Some(Verb::Why),
            "result" => Some(Verb::Result),
            "watch" => Some(Verb::Watch),
            "advance" => Some(Verb::Advance),
            "shutdown" => Some(Verb::Shutdown),
            _ => None,
        }
    }
}

/// A key of the line of this number.
fn key(alloc: Global, line: u64, word: &str) -> Result<Path, LineFault>
    ensures { Reads lasting (first_of ((is_past_key word.now, LineFault.Limit line Which.Key) ∷ []))
        (λ path. path ≡ components word.now) result }
{
    match Path::read(alloc, word) {
        Ok(path) => Ok(path),
        Err(PathFault::NoMemory) => Err(LineFault::NoMemory),
        Err(_) => Err(LineFault::Limit {
            line,
            which: Which::Key,
        }),
    }
}

/// A value of the line of this number.
pub fn value(alloc: Global, line: u64, text: &str) -> Result<Bytes, LineFault>
    ensures { Reads lasting
        (first_of ((is_past_value text.now, LineFault.Limit line Which.Value) ∷ []))
        (λ bytes. bytes ≡ text.now) result }
{
    if MOST_VALUE < text.len() {
        return Err(LineFault::Limit {
            line,
            which: Which::Value,
        });
    }
    let bytes = Bytes::of(alloc, text.as_bytes())?;
    Ok(bytes)
}

/// The key that stands alone behind a verb.
fn one_key(alloc: Global, line: u64, tail: &str) -> Result<Path, LineFault>
    ensures { Reads lasting (first_of (faults_of line (one_key Command.Get tail.now)))
        (λ path. path ≡ components (first_word tail.now)) result }
{
    let (word, rest) = cut(tail);
    let (more, _) = cut(rest);
    if word.is_empty() || !more.is_empty() {
        return Err(LineFault::BadCommand { line });
    }
    key(alloc, line, word)
}

/// The key and the text behind a verb.
fn key_and_text(alloc: Global, line: u64, tail: &str) -> Result<(Path, Bytes), LineFault>
    ensures { Reads lasting (first_of (faults_of line (key_and_text Command.Put tail.now)))
        (λ r. (r.0 ≡ components (first_word tail.now)) × (r.1 ≡ behind_word tail.now)) result }
{
    let (word, text) = cut(tail);
    if word.is_empty() {
        return Err(LineFault::BadCommand { line });
    }
    let path = key(alloc, line, word)?;
    let bytes = value(alloc, line, text)?;
    Ok((path, bytes))
}

/// The two keys behind a verb.
fn two_keys(alloc: Global, line: u64, tail: &str) -> Result<(Path, Path), LineFault>
    ensures { Reads lasting (first_of (faults_of line (two_keys own_link tail.now)))
        (λ r. (r.0 ≡ components (first_word tail.now))
        × (r.1 ≡ components (first_word (behind_word tail.now)))) result }
{
    let (one, rest) = cut(tail);
    let (other, rest) = cut(rest);
    let (more, _) = cut(rest);
    if other.is_empty() || !more.is_empty() {
        return Err(LineFault::BadCommand { line });
    }
    let one = key(alloc, line, one)?;
    let other = key(alloc, line, other)?;
    Ok((one, other))
}

/// The command `put KEY TEXT`, of the text behind the verb.
fn put(alloc: Global, work: &Workload, line: u64, tail: &str) -> Result<Command, LineFault>
    ensures { Reads lasting (first_of (faults_of line (said work.now Verb.Put tail.now)))
        (λ c. c ≡ (said work.now Verb.Put tail.now).command) result }
{
    let (path, bytes) = key_and_text(alloc, line, tail)?;
    Ok(Command::Put { path, bytes })
}

/// The command `append KEY TEXT`, of the text behind the verb.
fn append(alloc: Global, work: &Workload, line: u64, tail: &str) -> Result<Command, LineFault>
    ensures { Reads lasting (first_of (faults_of line (said work.now Verb.Append tail.now)))
        (λ c. c ≡ (said work.now Verb.Append tail.now).command) result }
{
    let (path, bytes) = key_and_text(alloc, line, tail)?;
    Ok(Command::Append { path, bytes })
}

/// The command `unlink KEY`, of the text behind the verb.
fn unlink(alloc: Global, work: &Workload, line: u64, tail: &str) -> Result<Command, LineFault>
    ensures { Reads lasting (first_of (faults_of line (said work.now Verb.Unlink tail.now)))
        (λ c. c ≡ (said work.now Verb.Unlink tail.now).command) result }
{
    let path = one_key(alloc, line, tail)?;
    Ok(Command::Unlink { path })
}

/// The command `mkdir KEY`, of the text behind the verb.
fn mkdir(alloc: Global, work: &Workload, line: u64, tail: &str) -> Result<Command, LineFault>
    ensures { Reads lasting (first_of (faults_of line (said work.now Verb.Mkdir tail.now)))
        (λ c. c ≡ (said work.now Verb.Mkdir tail.now).command) result }
{
    let path = one_key(alloc, line, tail)?;
    Ok(Command::Mkdir { path })
}

/// The command `symlink KEY TARGET`, of the text behind the verb.
fn symlink(alloc: Global, work: &Workload, line: u64, tail: &str) -> Result<Command, LineFault>
    ensures { Reads lasting (first_of (faults_of line (said work.now Verb.Symlink tail.now)))
        (λ c. c ≡ (said work.now Verb.Symlink tail.now).command) result }
{
    let (path, target) = two_keys(alloc, line, tail)?;
    Ok(Command::Symlink {
        path,
        target: Target {
            path: target,
            namespace: None,
        },
    })
}

/// The command `commit`, behind which no word stands.
fn commit(work: &Workload, line: u64, tail: &str) -> Result<Command, LineFault>
    ensures { Reads lasting (first_of (faults_of line (said work.now Verb.Commit tail.now)))
        (λ c. c ≡ (said work.now Verb.Commit tail.now).command) result }
{
    let (word, _) = cut(tail);
    if !word.is_empty() {
        return Err(LineFault::BadCommand { line });
    }
    Ok(Command::Commit)
}

/// The command `fence NAME COUNT`, of the text behind the verb.
fn fence(alloc: Global, work: &Workload, line: u64, tail: &str) -> Result<Command, LineFault>
    ensures { Reads lasting
        (first_of (faults_of line (said work.now Verb.Fence tail.now)))
        (λ c. c ≡ (said work.now Verb.Fence tail.now).command)
        result }
{
    let (name, rest) = cut(tail);
    let (count, rest) = cut(rest);
    let (more, _) = cut(rest);
    if !can_name(name) || count.is_empty() || !more.is_empty() {
        return Err(LineFault::BadCommand { line });
    }
    let Some(count) = number_within(count, 1, MOST_MEMBERS) else {
        return Err(LineFault::BadNumber { line });
    };
    let name = Bytes::of(alloc, name.as_bytes())?;
    Ok(Command::Fence {
        name,
        count: count as u32,
    })
}

/// The command `get KEY`, of the text behind the verb.
fn get(alloc: Global, work: &Workload, line: u64, tail: &str) -> Result<Command, LineFault>
    ensures { Reads lasting (first_of (faults_of line (said work.now Verb.Get tail.now)))
        (λ c. c ≡ (said work.now Verb.Get tail.now).command) result }
{
    let path = one_key(alloc, line, tail)?;
    Ok(Command::Get { path })
}

/// The command `ls KEY`, of the text behind the verb.
fn ls(alloc: Global, work: &Workload, line: u64, tail: &str) -> Result<Command, LineFault>
    ensures { Reads lasting (first_of (faults_of line (said work.now Verb.Ls tail.now)))
        (λ c. c ≡ (said work.now Verb.Ls tail.now).command) result }
{
    let path = one_key(alloc, line, tail)?;
    Ok(Command::Ls { path })
}

/// The command `readlink KEY`, of the text behind the verb.
fn readlink(alloc: Global, work: &Workload, line: u64, tail: &str) -> Result<Command, LineFault>
    ensures { Reads lasting (first_of (faults_of line (said work.now Verb.Readlink tail.now)))
        (λ c. c ≡ (said work.now Verb.Readlink tail.now).command) result }
{
    let path = one_key(alloc, line, tail)?;
    Ok(Command::Readlink { path })
}

/// The command `wait NUMBER`, of the text behind the verb.
fn wait(work: &Workload, line: u64, tail: &str) -> Result<Command, LineFault>
    ensures { Reads lasting
        (first_of (faults_of line (said work.now Verb.Wait tail.now)))
        (λ c. c ≡ (said work.now Verb.Wait tail.now).command)
        result }
{
    let (word, rest) = cut(tail);
    let (more, _) = cut(rest);
    if !more.is_empty() || word.is_empty() {
        return Err(LineFault::BadCommand { line });
    }
    match number(word) {
        Some(number) => Ok(Command::Wait { number }),
        None => Err(LineFault::BadNumber { line }),
    }
}

/// The command `look`, behind which no word stands.
fn look(work: &Workload, line: u64, tail: &str) -> Result<Command, LineFault>
    ensures { Reads lasting (first_of (faults_of line (said work.now Verb.Look tail.now)))
        (λ c. c ≡ (said work.now Verb.Look tail.now).command) result }
{
    let (word, _) = cut(tail);
    if !word.is_empty() {
        return Err(LineFault::BadCommand { line });
    }
    Ok(Command::Look)
}

/// The command `tell NAME`, of the text behind the verb.
fn tell(work: &Workload, line: u64, tail: &str) -> Result<Command, LineFault>
    requires { length work.now.actors ≤ most_actors }
    ensures { Reads lasting
        (first_of (faults_of line (said work.now Verb.Tell tail.now)))
        (λ c. c ≡ (said work.now Verb.Tell tail.now).command)
        result }
{
    let (name, rest) = cut(tail);
    let (more, _) = cut(rest);
    if name.is_empty() {
        return Err(LineFault::BadCommand { line });
    }
    let Some(actor) = place(&work.actors, name) else {
        return Err(LineFault::NoActor { line });
    };
    if !more.is_empty() {
        return Err(LineFault::BadCommand { line });
    }
    Ok(Command::Tell {
        actor: actor as u32,
    })
}

/// The name that stands alone behind a verb.
pub fn one_name(alloc: Global, line: u64, tail: &str) -> Result<Bytes, LineFault>
    ensures { Reads lasting
        (first_of (faults_of line (one_name Command.NsUse tail.now)))
        (λ name. name ≡ first_word tail.now)
        result }
{
    let (name, rest) = cut(tail);
    let (more, _) = cut(rest);
    if !can_name(name) || !more.is_empty() {
        return Err(LineFault::BadCommand { line });
    }
    let name = Bytes::of(alloc, name.as_bytes())?;
    Ok(name)
}

/// The command `ns-create NAME`, of the text behind the verb.
fn ns_create(alloc: Global, work: &Workload, line: u64, tail: &str) -> Result<Command, LineFault>
    ensures { Reads lasting
        (first_of (faults_of line (said work.now Verb.NsCreate tail.now)))
        (λ c. c ≡ (said work.now Verb.NsCreate tail.now).command)
        result }
{
    let name = one_name(alloc, line, tail)?;
    Ok(Command::NsCreate { name })
}

/// The command `ns-remove NAME`, of the text behind the verb.
fn ns_remove(alloc: Global, work: &Workload, line: u64, tail: &str) -> Result<Command, LineFault>
    ensures { Reads lasting
        (first_of (faults_of line (said work.now Verb.NsRemove tail.now)))
        (λ c. c ≡ (said work.now Verb.NsRemove tail.now).command)
        result }
{
    let name = one_name(alloc, line, tail)?;
    Ok(Command::NsRemove { name })
}

/// The command `ns-use NAME`, of the text behind the verb.
fn ns_use(alloc: Global, work: &Workload, line: u64, tail: &str) -> Result<Command, LineFault>
    ensures { Reads lasting
        (first_of (faults_of line (said work.now Verb.NsUse tail.now)))
        (λ c. c ≡ (said work.now Verb.NsUse tail.now).command)
        result }
{
    let name = one_name(alloc, line, tail)?;
    Ok(Command::NsUse { name })
}

/// The command that a verb and the text behind it spell, in the line of this number.
pub fn command(
    alloc: Global,
    work: &Workload,
    verb: Verb,
    line: u64,
    tail: &str,
) -> Result<Command, LineFault>
    requires { length work.now.actors ≤ most_actors }
    ensures { Reads lasting (first_of (faults_of line (said work.now verb tail.now)))
        (λ c. c ≡ (said work.now verb tail.now).command) result }
{
    match verb {
        Verb::Put => put(alloc, work, line, tail),
        Verb::Append => append(alloc, work, line, tail),
        Verb::Unlink => unlink(alloc, work, line, tail),
        Verb::Mkdir => mkdir(alloc, work, line, tail),
        Verb::Symlink => symlink(alloc, work, line, tail),
        Verb::Commit => commit(work, line, tail),
        Verb::Fence => fence(alloc, work, line, tail),
        Verb::Get => get(alloc, work, line, tail),
        Verb::Ls => ls(alloc, work, line, tail),
        Verb::Readlink => readlink(alloc, work, line, tail),
        Verb::Wait => wait(work, line, tail),
        Verb::Look => look(work, line, tail),
        Verb::Tell => tell(work, line, tail),
        Verb::NsCreate => ns_create(alloc, work, line, tail),
        Verb::NsRemove => ns_remove(alloc, work, line, tail),
        Verb::NsUse => ns_use(alloc, work, line, tail),
        Verb::ContentStore => content_store(alloc, work, line, tail),
        Verb::ContentLoad => content_load(work, line, tail),
        Verb::ContentFlush => content_flush(work, line, tail),
        Verb::ContentDrop => content_drop(work, line, tail),
        Verb::Submit => submit(alloc, work, line, tail),
        Verb::Cancel => cancel(alloc, work, line, tail),
        Verb::Raise => raise(alloc, work, line, tail),
        Verb::Urgency => urgency(alloc, work, line, tail),
        Verb::State => state(alloc, work, line, tail),
        Verb::Info => info(alloc, work, line, tail),
        Verb::Jobs => jobs(work, line, tail),
        Verb::Why => why(alloc, work, line, tail),
        Verb::Result => result_of(alloc, work, line, tail),
        Verb::Watch => watch(alloc, work, line, tail),
        Verb::Advance => advance(work, line, tail),
        Verb::Shutdown => shutdown(work, line, tail),
    }
}
