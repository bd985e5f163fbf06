//! What idsets (Flux RFC 22) say of their ids, and sets that are made of others.
use idset::faults::IdFault;
use idset::set::IdSet;
use std::alloc::Global;
use std::test::Fail;

fn set(alloc: Global, text: &str) -> Result<IdSet, IdFault> {
    IdSet::read(alloc, text.as_bytes())
}

fn prints(set: &IdSet, text: &str) -> Result<bool, Fail> {
    let printed = set.print()?;
    Ok(printed.as_slice() == text.as_bytes())
}

/// Whether two sets have this union, and this is left of the first without the second.
fn make(alloc: Global, one: &str, other: &str, both: &str, rest: &str) -> Result<bool, Fail> {
    let one = set(alloc, one)?;
    let other = set(alloc, other)?;
    Ok(prints(&one.union(&other)?, both)? && prints(&one.minus(&other)?, rest)?)
}

/// Whether a set of ids prints them once and in order, and one from an id to another as a range.
fn ids_are_ordered(alloc: Global) -> Result<bool, Fail> {
    let ids = prints(&IdSet::of_ids(alloc, &[9, 4, 5, 9])?, "4-5,9")?;
    Ok(ids && prints(&IdSet::of_range(alloc, 2, 6)?, "2-6")?)
}

/// Whether a set of three ids says of itself what it must, and so does one of none.
fn say_what_they_have(three: &IdSet, none: &IdSet) -> Result<bool, Fail> {
    let is_listed = three.copy()?.equals(three) && three.ids()?.as_slice() == [1, 2, 3].as_slice();
    let is_counted = three.count() == 3 && three.first() == Some(1);
    let is_nothing = none.first() == None && !none.equals(three);
    Ok(is_listed && is_counted && three.has(3) && !three.has(4) && is_nothing)
}

#[test]
fn sets_are_made_and_say_what_they_have(rt: HostRuntime) -> Result<(), Fail> {
    assert!(rt; make(rt.alloc(), "1-3", "3-5", "1-5", "1-2")?);
    assert!(rt; make(rt.alloc(), "1-3", "2", "1-3", "1,3")?);
    assert!(rt; ids_are_ordered(rt.alloc())?);
    let three = set(rt.alloc(), "1-3")?;
    assert!(rt; say_what_they_have(&three, &IdSet::new(rt.alloc()))?);
    Ok(())
}
