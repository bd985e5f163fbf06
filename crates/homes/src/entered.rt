//! What an instance makes, as the run has it.
ghost use Rattle.std.specs.Prelude.{◌≡◌, ◌++◌, map, OnOk};
ghost use Rattle.hierarchy.specs.Stretches.{entered_in};

use instance::answers::{Chronicle, Entry};
use std::alloc::AllocError;

/// Gives an entry of an own chronicle the number of its instance, where it names one.
fn renumber(entry: &mut Entry, number: u32)
    ensures { entry.new ≡ entered_in number entry.old }
{
    match entry {
        Entry::Landed { instance, .. } => *instance = number,
        Entry::Denied { instance, .. } => *instance = number,
        Entry::Heard { instance, .. } => *instance = number,
        Entry::Got { instance, .. } => *instance = number,
        Entry::Dropped { instance, .. } => *instance = number,
        _ => (),
    }
}

/// Enters what an instance of this number made.
pub fn enter(chronicle: &mut Chronicle, made: Chronicle, number: u32) -> Result<(), AllocError>
    ensures { OnOk result (chronicle.new ≡ chronicle.old ++ map (entered_in number) made) }
{
    for mut entry in made.into_vec() {
        renumber(&mut entry, number);
        chronicle.push(entry)?;
    }
    Ok(())
}
