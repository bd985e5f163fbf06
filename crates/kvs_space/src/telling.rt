//! What the steps tell.
ghost use Rattle.std.specs.Prelude.{◌≡◌, [], ◌∷◌, ◌++◌, Some, IfOk, OnOk};
ghost use Rattle.kvs_rules.specs.Landings.{names_of, names_of_group};
ghost use Rattle.kvs_space.specs.Told.{changing, hearing, landed_so, landing, denial};

use kvs_rules::KvsEvent;
use kvs_txn::{AuthorNames, By, Group, GroupList, Refusal};
use lists::{Bytes, Copied, ListOf};
use std::alloc::{AllocError, Global};

/// What happens in the service, the oldest first.
pub type KvsEvents = ListOf<KvsEvent>;

/// Adds the names of a transaction's authors: one without commands is the manager's own.
fn add_names(names: &mut AuthorNames, group: &Group) -> Result<(), AllocError>
    ensures { OnOk result (names.new ≡ names.old ++ names_of_group group.now.authors) }
{
    if group.authors.as_slice().is_empty() {
        names.push(None)?;
    }
    for by in group.authors.as_slice() {
        names.push(Some(*by))?;
    }
    Ok(())
}

/// The names of the authors of a transaction.
fn names_of_one(alloc: Global, group: &Group) -> Result<AuthorNames, AllocError>
    ensures { IfOk result (λ names. names ≡ names_of_group group.now.authors) }
{
    let mut names = ListOf::new(alloc);
    add_names(&mut names, group)?;
    Ok(names)
}

/// The names of the authors of all transactions of a landing.
fn names_of(alloc: Global, groups: &GroupList) -> Result<AuthorNames, AllocError>
    ensures { IfOk result (λ names. names ≡ names_of groups.now) }
{
    let mut names = ListOf::new(alloc);
    for group in groups.as_slice() {
        add_names(&mut names, group)?;
    }
    Ok(names)
}

/// A broker that knew of so many roots of the namespace hears of more, if they are more.
pub fn hearing(
    alloc: Global,
    broker: u32,
    namespace: &Bytes,
    before: u64,
    after: u64,
) -> Result<KvsEvents, AllocError>
    ensures { IfOk result (λ events. events ≡ hearing broker namespace.now before after) }
{
    let mut events = ListOf::new(alloc);
    if before < after {
        let namespace = namespace.copy()?;
        events.push(KvsEvent::Heard {
            broker,
            namespace,
            number: after - 1,
        })?;
        Ok(events)
    } else {
        Ok(events)
    }
}

/// A landing in the namespace by these authors, and rank 0 hears it.
fn landed_so(
    alloc: Global,
    name: &Bytes,
    number: u64,
    authors: AuthorNames,
    groups: GroupList,
) -> Result<KvsEvents, AllocError>
    ensures { IfOk result (λ events. events ≡ landed_so name.now number authors groups) }
{
    let namespace = name.copy()?;
    let mut events = ListOf::new(alloc);
    events.push(KvsEvent::Landed {
        namespace,
        number,
        authors,
        groups,
    })?;
    let namespace = name.copy()?;
    events.push(KvsEvent::Heard {
        broker: 0,
        namespace,
        number,
    })?;
    Ok(events)
}

/// Transactions land in the namespace, and rank 0 hears it.
pub fn landing(
    alloc: Global,
    name: &Bytes,
    number: u64,
    groups: GroupList,
) -> Result<KvsEvents, AllocError>
    ensures { IfOk result (λ events. events ≡ landing name.now number groups) }
{
    let authors = names_of(alloc, &groups)?;
    landed_so(alloc, name, number, authors, groups)
}

/// A command opens or removes the namespace under this number, and rank 0 hears it.
pub fn changing(alloc: Global, name: &Bytes, number: u64, by: By) -> Result<KvsEvents, AllocError>
    ensures { IfOk result (λ events. events ≡ changing name.now number by) }
{
    let mut authors = AuthorNames::new(alloc);
    authors.push(Some(by))?;
    landed_so(alloc, name, number, authors, GroupList::new(alloc))
}

/// A transaction is refused in the namespace.
pub fn denial(
    alloc: Global,
    name: &Bytes,
    group: Group,
    refusal: Refusal,
) -> Result<KvsEvents, AllocError>
    ensures { IfOk result (λ events. events ≡ denial name.now group refusal) }
{
    let namespace = name.copy()?;
    let authors = names_of_one(alloc, &group)?;
    let mut events = ListOf::new(alloc);
    events.push(KvsEvent::Denied {
        namespace,
        authors,
        group,
        refusal,
    })?;
    Ok(events)
}
