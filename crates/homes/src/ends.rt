//! Which instances go with one, and what is told of their ends.
ghost use Rattle.std.specs.Prelude.{◌≡◌, ◌++◌, ◌+◌, ◌<◌, ◌^◌, ◌&&◌, ◌||◌, IfOk, IfSome, IsTrue, List, OnOk, Some, true, false, filter_map, length, not, slice_index_or};
ghost use Rattle.instance.specs.answers.Chronicle.{Setup};
ghost use Rattle.instance.specs.answers.declared.chronicle.Entry.{Entry as EntryValue};
ghost use Rattle.hierarchy.specs.Births.{Birth, birth_of, lives};
ghost use Rattle.hierarchy.specs.Families.{family_of, living_in};
ghost use Rattle.hierarchy.specs.Inside.{marked_below};
ghost use Rattle.hierarchy.specs.Legal.{IsLegalRun};
ghost use Rattle.hierarchy.specs.Own.{own_of, setup_in};
ghost use Rattle.instance.specs.Agrees.{AgreesOwn};
ghost use Rattle.instance.specs.Family.{may_end};
ghost use Rattle.instance.specs.Makes.{LetsGo};
ghost use Rattle.instance.specs.instance_rules.Family.{IsEndOf};
ghost use Rattle.homes.specs.Inside.{AreInside, AreRising, HaveGone, end_at, has_marked};

use crate::homes::{Home, home_at};
use instance::Instance;
use instance::answers::{Chronicle, Entry};
use std::alloc::{AllocError, Global};

/// Whether an instance lives and is the one asked for, or has its parent marked.
fn is_inside(home: &Home, asked: bool, marks: &[bool]) -> bool
    requires { IfSome home.now.origin (λ o. o.parent < length marks.now) }
    ensures { result ≡ (not home.now.gone && (asked || has_marked marks.now home.now.origin)) }
{
    let inside = match &home.origin {
        Some(origin) => marks[origin.parent as usize],
        None => false,
    };
    !home.gone && (asked || inside)
}

/// Which living instances lie within the one of this number, itself among them: those behind it
/// whose parents do.
pub fn within(alloc: Global, homes: &[Home], number: u32) -> Result<Vec<bool>, AllocError>
    requires { AreRising homes.now }
    ensures { IfOk result (λ marks. AreInside number homes.now marks.items) }
{
    let mut marks = Vec::new(alloc);
    for (at, home) in homes.iter().enumerate() {
        let inside = is_inside(home, at == number as usize, &marks);
        marks.push(inside)?;
    }
    Ok(marks)
}

/// The end of the instance of a number, if it has an origin.
fn end_at(homes: &[Home], number: u32) -> Option<Entry>
    ensures { result ≡ end_at homes.now number }
{
    let home = home_at(homes, number)?;
    let origin = home.origin.as_ref()?;
    Some(Entry::Gone {
        child: number,
        parent: origin.parent,
        job: origin.job,
        shut: home.shuts,
    })
}

/// Tells the ends of those that are marked, the last one first.
pub fn tell_ends(
    chronicle: &mut Chronicle,
    homes: &[Home],
    marks: &[bool],
) -> Result<(), AllocError>
    requires { length marks.now < 2 ^ 32 }
    ensures { OnOk result (chronicle.new ≡ chronicle.old ++ filter_map (end_at homes.now)
        (marked_below (λ i. slice_index_or marks.now i false) (length marks.now))) }
{
    let mut behind = marks.len();
    while 0 < behind {
        behind -= 1;
        if marks[behind] {
            if let Some(entry) = end_at(homes, behind as u32) {
                chronicle.push(entry)?;
            }
        }
    }
    Ok(())
}

/// Those that are marked go.
pub fn let_go(homes: &mut [Home], marks: &[bool])
    requires { length marks.now ≡ length homes.old }
    ensures { HaveGone marks.now homes.old homes.new }
{
    for (at, mark) in marks.iter().enumerate() {
        if *mark {
            homes[at].gone = true;
        }
    }
}

/// The child of a job goes, by its own shutdown or not.
pub fn release(outer: &mut Instance, job: u64, shut: bool) -> Result<(), AllocError>
    requires ready { outer.old.spent ≡ false }
    requires may { may_end outer.old job shut ≡ true }
    ensures ready { OnOk result (outer.new.spent ≡ false) }
    ensures lets_go { OnOk result (LetsGo outer.old job shut outer.new) }
    ensures due { (set : Setup) (c : List EntryValue) (b : Birth) → IsLegalRun set c
        → IsTrue (lives c b.child) → birth_of c b.child ≡ Some b → b.job ≡ job
        → (living_in set c b.child).shuts ≡ shut
        → AgreesOwn outer.old (setup_in set c b.parent) (own_of set c b.parent)
        → IsEndOf (family_of set c) (living_in set c b.child) }
{
    // this says that the end is due
    outer.may_end(job, shut);
    outer.gone(job, shut)
}
