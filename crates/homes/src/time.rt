//! Time, which goes on for all instances.
ghost use Rattle.std.specs.Prelude.{◌≡◌, ◌++◌, ℕ, false, List, None, OnOk, Some, true};
ghost use Rattle.std.specs.List.{list_any};
ghost use Rattle.instance.specs.job_book.Seconds.{IsSoonest};
ghost use Rattle.homes.specs.Homes.{AreReady};
ghost use Rattle.homes.specs.Times.{all_ends, all_targets, has_due, is_left, may_go};
ghost use Rattle.homes.specs.Tells.{EachLiving, HavePassedTo, MayPassTo, TellsEnds, TellsEndIn, TellsIdle, TellsRest, TellsTargets};

use crate::homes::{Home, Place, home_at};
use std::alloc::AllocError;

/// The lesser of two seconds, of which there may be none.
pub fn sooner(one: Option<u64>, other: Option<u64>) -> Option<u64>
    ensures { (xs ys : List ℕ) → IsSoonest xs one → IsSoonest ys other
        → IsSoonest (xs ++ ys) result }
{
    match (one, other) {
        (Some(one), Some(other)) => Some(one.min(other)),
        (Some(one), None) => Some(one),
        (None, other) => other,
    }
}

/// The least second ahead that an open advance in a living instance waits for.
pub fn least_target(homes: &[Home]) -> Option<u64>
    requires { AreReady homes.now }
    ensures soonest { IsSoonest (all_targets homes.now) result }
    ensures told { EachLiving TellsTargets homes.now }
{
    let mut least = None;
    for home in homes {
        if !home.gone {
            least = sooner(least, home.instance.next_target());
        }
    }
    least
}

/// The least second ahead at which a command in a living instance ends, or resources do.
pub fn least_end(homes: &[Home]) -> Option<u64>
    requires { AreReady homes.now }
    ensures soonest { IsSoonest (all_ends homes.now) result }
    ensures told { EachLiving TellsEnds homes.now }
{
    let mut least = None;
    for home in homes {
        if !home.gone {
            least = sooner(least, home.instance.next_end());
        }
    }
    least
}

/// Whether something is posted or due in a living instance.
pub fn is_due(homes: &[Home]) -> bool
    requires { AreReady homes.now }
    ensures exact { result ≡ list_any has_due homes.now }
    ensures told { result ≡ false → EachLiving TellsIdle homes.now }
{
    for home in homes {
        if !home.gone && home.instance.is_due() {
            return true;
        }
    }
    false
}

/// Whether a living child may go, by what its parent says.
pub fn may_go(homes: &[Home], home: &Home) -> bool
    requires { AreReady homes.now }
    ensures exact { result ≡ may_go homes.now home.now }
    ensures told { home.now.gone ≡ false → TellsEndIn homes.now home.now }
{
    let Some(origin) = &home.origin else {
        return false;
    };
    let Some(parent) = home_at(homes, origin.parent) else {
        return false;
    };
    !home.gone && parent.instance.may_end(origin.job, home.shuts)
}

/// Whether a child may go.
pub fn is_ending(homes: &[Home]) -> bool
    requires { AreReady homes.now }
    ensures exact { result ≡ list_any (may_go homes.now) homes.now }
    ensures told { result ≡ false → EachLiving (TellsEndIn homes.now) homes.now }
{
    for home in homes {
        if may_go(homes, home) {
            return true;
        }
    }
    false
}

/// When each living instance has come to rest, and whether each living child is to go, by its
/// machine and that of its parent.
pub fn rest(homes: &[Home])
    requires { AreReady homes.now }
    ensures rest { EachLiving TellsRest homes.now }
    ensures goes { EachLiving (TellsEndIn homes.now) homes.now }
{
    for home in homes {
        // where no step can be made, what is left is known
        home.instance.still();
        may_go(homes, home);
    }
}

/// Whether an actor waits whose instance has gone.
fn is_left(homes: &[Home], place: Place) -> bool
    ensures { result ≡ is_left homes.now place }
{
    let Some(number) = place.home else {
        return false;
    };
    let Some(home) = home_at(homes, number) else {
        return false;
    };
    place.waits && home.gone
}

/// Whether some actor waits whose instance has gone.
pub fn are_left(homes: &[Home], places: &[Place]) -> bool
    ensures { result ≡ list_any (is_left homes.now) places.now }
{
    for place in places {
        if is_left(homes, *place) {
            return true;
        }
    }
    false
}

/// Lets time go on to this second for each living instance.
pub fn pass_to(homes: &mut [Home], second: u64) -> Result<(), AllocError>
    requires ready { AreReady homes.old }
    requires may { EachLiving (MayPassTo second) homes.old }
    ensures { OnOk result (HavePassedTo second homes.old homes.new) }
{
    for home in homes.iter_mut() {
        if !home.gone {
            home.instance.tick_to(second)?;
        }
    }
    Ok(())
}
