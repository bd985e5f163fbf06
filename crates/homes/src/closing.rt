//! What the actors are told at the end of a run.
ghost use Rattle.std.specs.Prelude.{◌≡◌, ◌++◌, ◌<◌, ◌^◌, List, OnOk, count_by, false, filter, flat_map, length, true};
ghost use Rattle.std.specs.List.{range_with_len};
ghost use Rattle.instance.specs.answers.declared.chronicle.Entry.{Entry as EntryValue};
ghost use Rattle.hierarchy.specs.Closing.{told_unborn, unborn_reply};
ghost use Rattle.instance.specs.Agrees.{AreLinesOf, is_of};
ghost use Rattle.homes.specs.Closing.{AreLeft, LeavesBy, is_unborn};
ghost use Rattle.homes.specs.Homes.{AreReady};
ghost use Rattle.homes.specs.Tells.{EachLiving};

use crate::entered::enter;
use crate::homes::{Home, Place};
use instance::answers::{Chronicle, Entry, Reply};
use instance::workload::{Line, Workload};
use std::alloc::AllocError;

/// How many of the lines are an actor's.
fn count_lines(lines: &[Line], actor: u32) -> u32
    requires { length lines.now < 2 ^ 32 }
    ensures { result ≡ count_by (is_of actor) lines.now }
{
    let mut count = 0;
    for line in lines {
        if line.actor == actor {
            count += 1;
        }
    }
    count
}

/// What an actor whose instance was never born is told of its command of this number.
fn unborn_reply(command: u32) -> Reply
    ensures { result ≡ unborn_reply command }
{
    if command == 0 {
        Reply::UnfinishedUnborn
    } else {
        Reply::NotReached
    }
}

/// Tells an actor whose instance was never born what became of its commands.
fn tell_unborn(chronicle: &mut Chronicle, work: &Workload, actor: u32) -> Result<(), AllocError>
    requires { length work.now.lines < 2 ^ 32 }
    ensures { OnOk result (chronicle.new ≡ chronicle.old ++ told_unborn work.now actor) }
{
    for command in 0..count_lines(work.lines.as_slice(), actor) {
        chronicle.push(Entry::Replied {
            actor,
            command,
            reply: unborn_reply(command),
            number: None,
        })?;
    }
    Ok(())
}

/// Tells all actors whose instances were never born.
pub fn tell_all_unborn(
    chronicle: &mut Chronicle,
    work: &Workload,
    places: &[Place],
) -> Result<(), AllocError>
    requires lines { length work.now.lines < 2 ^ 32 }
    requires few { length places.now < 2 ^ 32 }
    ensures { OnOk result (chronicle.new ≡ chronicle.old ++ flat_map (told_unborn work.now)
        (filter (is_unborn places.now) (range_with_len 0 (length places.now)))) }
{
    for actor in 0..places.len() as u32 {
        if places[actor as usize].home.is_none() {
            tell_unborn(chronicle, work, actor)?;
        }
    }
    Ok(())
}

/// Tells the actors of an instance, if it lives, what became of the commands that didn't finish.
fn tell_home(chronicle: &mut Chronicle, home: &Home, number: u32) -> Result<(), AllocError>
    requires ready { home.now.instance.spent ≡ false }
    requires lines { home.now.gone ≡ false
        → AreLinesOf home.now.instance home.now.work.lines }
    ensures gone { OnOk result (home.now.gone ≡ true → chronicle.new ≡ chronicle.old) }
    ensures lives { OnOk result (home.now.gone ≡ false
        → LeavesBy home.now number chronicle.old chronicle.new) }
{
    if home.gone {
        return Ok(());
    }
    let left = home.instance.closings(home.work.lines.as_slice())?;
    enter(chronicle, left, number)
}

/// Tells the actors of the living instances what became of the commands that didn't finish.
pub fn tell_living(chronicle: &mut Chronicle, homes: &[Home]) -> Result<(), AllocError>
    requires few { length homes.now < 2 ^ 32 }
    requires ready { AreReady homes.now }
    requires lines { EachLiving (λ h. AreLinesOf h.instance h.work.lines) homes.now }
    ensures { OnOk result ((told : List EntryValue) × (chronicle.new ≡ chronicle.old ++ told)
        × AreLeft homes.now (length homes.now) told) }
{
    for number in 0..homes.len() as u32 {
        tell_home(chronicle, &homes[number as usize], number)?;
    }
    Ok(())
}
