//! What a landing of the job manager's transaction does to the commands and to the refusals.
ghost use Rattle.std.specs.Prelude.{◌≡◌, find, slice_get, OnOk};
ghost use Rattle.std.specs.Option.{option_copied};
ghost use Rattle.kvs_keys.specs.Posted.{groups_in, posts_landed};
ghost use Rattle.job_deeds.specs.store_laws.Posts.{is_manager};
ghost use Rattle.job_service.specs.Landed.{LandsAs, IsLanded, command_of_first};

use crate::refusals::{Refused, forget};
use job_commands::Commands;
use job_deeds::kvs_txn::{Author, By, Group};
use kvs_rules::KvsEvent;
use kvs_space::KvsEvents;
use std::alloc::AllocError;

/// Whether the job manager wrote the transaction.
fn is_managers(group: &Group) -> bool
    ensures { result ≡ is_manager group.now.txn.author }
{
    group.txn.author == Author::Manager
}

/// The first transaction of the job manager that lands at the event.
fn post_in(event: &KvsEvent) -> Option<&Group>
    ensures { option_copied result
        ≡ find (λ group. is_manager group.txn.author) (groups_in event.now) }
{
    match event {
        KvsEvent::Landed { groups, .. } => {
            groups.as_slice().iter().find(|group| is_managers(group))
        }
        _ => None,
    }
}

/// The command that the first transaction of the job manager carries out which lands at these
/// events, if it carries out one.
pub fn command_posted(events: &KvsEvents) -> Option<By>
    ensures { result ≡ command_of_first (posts_landed events.now) }
{
    for event in events.as_slice() {
        if let Some(group) = post_in(event) {
            return group.authors.as_slice().first().copied();
        }
    }
    None
}

/// A command is carried out by the landing of this number, which gives the job of a submission its
/// id.
fn carry_out(
    commands: &mut Commands,
    by: By,
    id: Option<u64>,
    number: u64,
) -> Result<(), AllocError>
    ensures { OnOk result (LandsAs id by number commands.old commands.new) }
{
    match id {
        Some(id) => commands.submitted(by, id, number),
        None => {
            commands.carried(by, number);
            Ok(())
        }
    }
}

/// The command, if there is one, is carried out by the landing of this number: nothing is left of a
/// refusal.
pub fn land(
    commands: &mut Commands,
    refused: &mut Vec<Refused>,
    by: Option<By>,
    id: Option<u64>,
    number: u64,
) -> Result<(), AllocError>
    ensures { OnOk result (IsLanded by id number commands.old commands.new refused.old.items
        refused.new.items) }
{
    match by {
        Some(by) => {
            carry_out(commands, by, id, number)?;
            forget(refused, by);
            Ok(())
        }
        None => Ok(()),
    }
}
