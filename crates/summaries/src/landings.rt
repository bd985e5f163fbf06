//! The landings of `primary` in a chronicle.
ghost use Rattle.std.specs.Prelude.{◌≡◌, ◌++◌, [], map, option_map, IfOk, OnOk};
ghost use Rattle.std.specs.List.{cons_option};
ghost use Rattle.answers.specs.Chronicle.{top};
ghost use Rattle.answers.specs.Services.{log_of};
ghost use Rattle.kvs_rules.specs.Namespaces.{landings, primary};
ghost use Rattle.workload.specs.declared.work.Workload.{Workload};
ghost use Rattle.summaries.specs.Landings.{groups_landed_by};

use answers::{Chronicle, Entry};
use kvs_txn::GroupList;
use std::alloc::{AllocError, Global};

/// The transactions that land by an entry in the top instance's `primary`, if it is such a landing.
fn groups_landed_by(entry: &Entry) -> Option<&GroupList>
    ensures { option_map (λ groups. groups.now) result ≡ groups_landed_by entry.now }
{
    let Entry::Landed {
        instance,
        namespace,
        groups,
        ..
    } = entry
    else {
        return None;
    };
    let is_primary = namespace.as_slice() == b"primary".as_slice();
    if *instance == 0 && is_primary && !groups.as_slice().is_empty() {
        Some(groups)
    } else {
        None
    }
}

/// Notes the transactions that land by an entry, if it is a landing of `primary`.
fn note<'a>(found: &mut Vec<&'a GroupList>, entry: &'a Entry) -> Result<(), AllocError>
    ensures { OnOk result (map (λ groups. groups.now) found.new.items
        ≡ map (λ groups. groups.now) found.old.items
        ++ cons_option (groups_landed_by entry.now) []) }
{
    if let Some(groups) = groups_landed_by(entry) {
        found.push(groups)?;
    }
    Ok(())
}

/// The transactions of each landing of `primary`, in their order.
pub fn landings(alloc: Global, chronicle: &Chronicle) -> Result<Vec<&GroupList>, AllocError>
    ensures { (work : Workload) → IfOk result (λ found. map (λ groups. groups.now) found.items
        ≡ landings (log_of work top chronicle.now) primary) }
{
    let mut found = Vec::new(alloc);
    for entry in chronicle.as_slice() {
        note(&mut found, entry)?;
    }
    Ok(found)
}
