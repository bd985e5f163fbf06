//! The options of a run of a workload, as the words behind `run` spell them.
//!
//! Options stand in any order, each at most once. An option with a value is two words, `--name
//! value`, or one, `--name=value`. clap reads the words. That `--` is none of them, and which
//! texts are numbers and names of hashes, are tests of this crate.
#![tactic(auto)]

ghost use Rattle.std.specs.Prelude.{◌≡◌, IfOk, IfSome, map, string_bytes};
ghost use Rattle.std.specs.List.{list_any};
ghost use Rattle.run_options.specs.Command.{is_dashes};
ghost use Rattle.run_options.specs.Given.{AreWithin, IsWithin, nothing};
ghost use Rattle.run_options.specs.Words.{options_of, with_words};

mod command;
mod given;

use command::{given_in, parse};
use fl_digest::Hash;
use given::Given;
use std::alloc::{AllocError, Global};

/// What a run is asked for.
#[derive(Clone, Copy, Debug, PartialEq, Eq)]
pub struct Options {
    /// How many brokers the instance has: 1 to 32.
    pub size: u32,
    /// How many brokers stand below one: 1 to 32.
    pub fanout: u32,
    /// The hash by which content is named.
    pub hash: Hash,
    /// The seed by which the order of the run's steps is drawn, where it is: any number below 2^64.
    pub shuffle: Option<u64>,
    /// How many announcements of roots between brokers may be lost, repeated or swapped, where the
    /// order is drawn: 0 to 10,000.
    pub losses: u32,
    /// How many workers make the run's steps: 1 to 16. Several draw no order.
    pub workers: u32,
    /// Whether the journal is printed behind the answers.
    pub journal: bool,
    /// Whether a job may run before the first in the queue, where that one isn't delayed.
    pub backfill: bool,
}

/// Whether a word is `--`.
fn is_dashes(word: &str) -> bool
    ensures { result ≡ is_dashes word.now }
{
    word == "--"
}

/// Whether `--` stands among the words.
fn has_dashes(words: &[String]) -> bool
    ensures { result ≡ list_any (λ word. is_dashes (string_bytes word)) words.now }
{
    words.iter().any(|word| is_dashes(word.as_str()))
}

/// What the words give, if they spell options.
fn spelled(alloc: Global, words: &[String]) -> Result<Option<Given>, AllocError>
    ensures value { IfOk result (λ given.
        given ≡ with_words nothing (map string_bytes words.now)) }
    ensures within { IfOk result (λ given. IfSome given IsWithin) }
{
    if has_dashes(words) {
        return Ok(None);
    }
    match parse(alloc, words)? {
        Some(matches) => Ok(given_in(&matches)),
        None => Ok(None),
    }
}

/// The options that the words behind `run` spell, if they spell any.
pub fn read_options(alloc: Global, words: &[String]) -> Result<Option<Options>, AllocError>
    ensures value { IfOk result (λ options.
        options ≡ options_of (map string_bytes words.now)) }
    ensures within { IfOk result (λ options. IfSome options AreWithin) }
{
    match spelled(alloc, words)? {
        Some(given) => Ok(Some(given.with_defaults())),
        None => Ok(None),
    }
}
