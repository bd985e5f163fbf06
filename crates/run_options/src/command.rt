//! The command that clap reads, and what its matches give.
ghost use Rattle.std.specs.Prelude.{◌≡◌, ◌≢◌, IfOk, IfSome, codes, false, map, string_bytes};
ghost use Rattle.clap.specs.Words.{app_of, first_value, found_of, kind_of, one_text, rule_of};
ghost use Rattle.run_options.specs.Command.{bare, flag, run_app, valued, IsParse};
ghost use Rattle.run_options.specs.Given.{brokers_of, hash_of, losses_of, number_of, workers_of, AreLosses, AreWorkers, IsBrokers, IsWithin};
ghost use Rattle.run_options.specs.Matches.{field, given_in, IsFlag};

use crate::given::{Given, brokers, hash, losses, number_of, workers};
use clap::error::ErrorKind;
use clap::{Arg, ArgAction, ArgMatches, Command, Error};
use fl_digest::Hash;
use std::alloc::{AllocError, Global};

/// An option with a value.
fn valued<'a>(alloc: Global, name: &'a str) -> Arg<'a>
    ensures rule { rule_of result ≡ valued name.entry.now }
    ensures own { result.global ≡ false }
{
    Arg::new(alloc, name).long(name).action(ArgAction::Set)
}

/// An option without one.
fn flag<'a>(alloc: Global, name: &'a str) -> Arg<'a>
    ensures rule { rule_of result ≡ flag name.entry.now }
    ensures own { result.global ≡ false }
{
    Arg::new(alloc, name).long(name).action(ArgAction::SetTrue)
}

/// The command with no option yet: its words stand without the program's name, and it adds no
/// option of its own.
fn bare<'a>(alloc: Global) -> Command<'a>
    ensures { app_of result ≡ bare }
{
    Command::new(alloc, "run")
        .no_binary_name(true)
        .disable_help_flag(true)
}

/// The command of a run, whose words are its options.
fn command<'a>(alloc: Global) -> Result<Command<'a>, AllocError>
    ensures { IfOk result (λ command. app_of command ≡ run_app) }
{
    let run = bare(alloc).arg(valued(alloc, "size"))?;
    let run = run.arg(valued(alloc, "fanout"))?;
    let run = run.arg(valued(alloc, "hash"))?;
    let run = run.arg(valued(alloc, "shuffle"))?;
    let run = run.arg(valued(alloc, "losses"))?;
    let run = run.arg(valued(alloc, "workers"))?;
    let run = run.arg(flag(alloc, "journal"))?;
    let run = run.arg(flag(alloc, "backfill"))?;
    Ok(run)
}

/// Whether there was no memory for a parse.
fn lacks_memory(error: &Error) -> bool
    ensures { result ≡ false → kind_of error.now ≢ ErrorKind.OutOfMemory }
{
    error.kind() == ErrorKind::OutOfMemory
}

/// What clap finds in the words, if it takes them.
pub fn parse<'a>(alloc: Global, words: &'a [String]) -> Result<Option<ArgMatches<'a>>, AllocError>
    ensures { IfOk result (IsParse (map string_bytes words.now)) }
{
    let run = command(alloc)?;
    match run.try_get_matches_from(words) {
        Ok(matches) => Ok(Some(matches)),
        Err(error) => if lacks_memory(&error) {
            Err(AllocError)
        } else {
            Ok(None)
        },
    }
}

/// The number of brokers that an option gives, if it stands there.
fn brokers_in(matches: &ArgMatches<'_>, name: &str) -> Option<Option<u32>>
    ensures value { result ≡ field brokers_of (first_value (found_of matches.now) name.now) }
    ensures within { IfSome result (λ given. IfSome given IsBrokers) }
{
    match matches.get_str(name) {
        Some(text) => Some(Some(brokers(text)?)),
        None => Some(None),
    }
}

/// The hash that `--hash` gives, if it stands there.
fn hash_in(matches: &ArgMatches<'_>) -> Option<Option<Hash>>
    ensures { result ≡ field hash_of (first_value (found_of matches.now) (codes "hash")) }
{
    match matches.get_str("hash") {
        Some(text) => Some(Some(hash(text)?)),
        None => Some(None),
    }
}

/// The seed that `--shuffle` gives, if it stands there.
fn seed_in(matches: &ArgMatches<'_>) -> Option<Option<u64>>
    ensures { result ≡ field number_of (first_value (found_of matches.now) (codes "shuffle")) }
{
    match matches.get_str("shuffle") {
        Some(text) => Some(Some(number_of(text)?)),
        None => Some(None),
    }
}

/// The number of losses that `--losses` gives, if it stands there.
fn losses_in(matches: &ArgMatches<'_>) -> Option<Option<u32>>
    ensures value { result ≡ field losses_of (first_value (found_of matches.now) (codes "losses")) }
    ensures within { IfSome result (λ given. IfSome given AreLosses) }
{
    match matches.get_str("losses") {
        Some(text) => Some(Some(losses(text)?)),
        None => Some(None),
    }
}

/// The number of workers that `--workers` gives, if it stands there.
fn workers_in(matches: &ArgMatches<'_>) -> Option<Option<u32>>
    ensures value { result ≡ field workers_of
        (first_value (found_of matches.now) (codes "workers")) }
    ensures within { IfSome result (λ given. IfSome given AreWorkers) }
{
    match matches.get_str("workers") {
        Some(text) => Some(Some(workers(text)?)),
        None => Some(None),
    }
}

/// What the matches give, if each value is one of its option's.
pub fn given_in(matches: &ArgMatches<'_>) -> Option<Given>
    requires journal { IsFlag (one_text (found_of matches.now) (codes "journal")) }
    requires backfill { IsFlag (one_text (found_of matches.now) (codes "backfill")) }
    ensures value { result ≡ given_in (found_of matches.now) }
    ensures within { IfSome result IsWithin }
{
    let size = brokers_in(matches, "size")?;
    let fanout = brokers_in(matches, "fanout")?;
    let hash = hash_in(matches)?;
    let shuffle = seed_in(matches)?;
    let losses = losses_in(matches)?;
    let workers = workers_in(matches)?;
    Some(Given {
        size,
        fanout,
        hash,
        shuffle,
        losses,
        workers,
        journal: matches.get_flag("journal"),
        backfill: matches.get_flag("backfill"),
    })
}
