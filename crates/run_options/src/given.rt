//! What words gave.
ghost use Rattle.std.specs.Prelude.{◌≡◌, IfSome};
ghost use Rattle.run_options.specs.Given.{brokers_of, hash_of, losses_of, number_of, options_from, workers_of, AreLosses, AreWithin, AreWorkers, IsBrokers, IsWithin};

use crate::Options;
use fl_digest::Hash;
use workload::words::number;

/// The most digits of a number.
const MOST_DIGITS: usize = 20;

/// The most losses of a run.
const MOST_LOSSES: u64 = 10_000;

/// The most workers of a run.
const MOST_WORKERS: u64 = 16;

/// The options that words gave.
#[derive(Clone, Copy)]
pub struct Given {
    pub size: Option<u32>,
    pub fanout: Option<u32>,
    pub hash: Option<Hash>,
    pub shuffle: Option<u64>,
    pub losses: Option<u32>,
    pub workers: Option<u32>,
    pub journal: bool,
    pub backfill: bool,
}

/// A number below 2^64, in 1 to 20 decimal digits.
pub fn number_of(text: &str) -> Option<u64>
    ensures { result ≡ number_of text.now }
{
    if MOST_DIGITS < text.len() {
        return None;
    }
    number(text)
}

/// A number of brokers, 1 to 32.
pub fn brokers(text: &str) -> Option<u32>
    ensures value { result ≡ brokers_of text.now }
    ensures within { IfSome result IsBrokers }
{
    let number = number_of(text)?;
    if 1 <= number && number <= 32 {
        Some(number as u32)
    } else {
        None
    }
}

/// A number of losses, 0 to 10,000.
pub fn losses(text: &str) -> Option<u32>
    ensures value { result ≡ losses_of text.now }
    ensures within { IfSome result AreLosses }
{
    let number = number_of(text)?;
    if number <= MOST_LOSSES {
        Some(number as u32)
    } else {
        None
    }
}

/// A number of workers, 1 to 16.
pub fn workers(text: &str) -> Option<u32>
    ensures value { result ≡ workers_of text.now }
    ensures within { IfSome result AreWorkers }
{
    let number = number_of(text)?;
    if 1 <= number && number <= MOST_WORKERS {
        Some(number as u32)
    } else {
        None
    }
}

/// The hash of this name.
pub fn hash(text: &str) -> Option<Hash>
    ensures { result ≡ hash_of text.now }
{
    match text {
        "sha1" => Some(Hash::Sha1),
        "sha256" => Some(Hash::Sha256),
        _ => None,
    }
}

impl Given {
    /// The options, each that isn't given at its default.
    pub fn with_defaults(self) -> Options
        ensures value { result ≡ options_from self }
        ensures within { IsWithin self → AreWithin result }
    {
        Options {
            size: self.size.unwrap_or(4),
            fanout: self.fanout.unwrap_or(2),
            hash: self.hash.unwrap_or(Hash::Sha1),
            shuffle: self.shuffle,
            losses: self.losses.unwrap_or(0),
            workers: self.workers.unwrap_or(1),
            journal: self.journal,
            backfill: self.backfill,
        }
    }
}
