//! Under which number the job manager's transaction landed.
ghost use Rattle.std.specs.Prelude.{◌≡◌, find};
ghost use Rattle.std.specs.Option.{option_copied};
ghost use Rattle.store_laws.specs.Posts.{is_manager};
ghost use Rattle.job_landings.specs.Landings.{lands_post, number_in, number_of_post};

use kvs_rules::KvsEvent;
use kvs_space::KvsEvents;
use kvs_txn::{Author, Group};

/// Whether the job manager wrote the transaction.
fn is_managers(group: &Group) -> bool
    ensures { result ≡ is_manager group.now.txn.author }
{
    group.txn.author == Author::Manager
}

/// Whether the event is a landing with a transaction of the job manager's.
fn lands_post(event: &KvsEvent) -> bool
    ensures { result ≡ lands_post event.now }
{
    match event {
        KvsEvent::Landed { groups, .. } => groups.as_slice().iter().any(is_managers),
        _ => false,
    }
}

/// The number of a landing.
fn number_in(event: &KvsEvent) -> Option<u64>
    ensures { result ≡ number_in event.now }
{
    match event {
        KvsEvent::Landed { number, .. } => Some(*number),
        _ => None,
    }
}

/// The first event that is a landing with a transaction of the job manager's.
fn first_post(events: &[KvsEvent]) -> Option<&KvsEvent>
    ensures { option_copied result ≡ find lands_post events.now }
{
    events.iter().find(|event| lands_post(event))
}

/// The number of the first landing that has a transaction of the job manager's, if there is one.
pub fn number_of_post(events: &KvsEvents) -> Option<u64>
    ensures { result ≡ number_of_post events.now }
{
    match first_post(events.as_slice()) {
        Some(event) => number_in(event),
        None => None,
    }
}
