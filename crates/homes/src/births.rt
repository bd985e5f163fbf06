//! The birth of a child.
ghost use Rattle.std.specs.Prelude.{◌≡◌, ◌+◌, ◌<◌, ◌≤◌, ◌^◌, ℕ, All, IfOk, IsTrue, List, OnOk, Some, false, length};
ghost use Rattle.instance.specs.answers.Chronicle.{Setup};
ghost use Rattle.instance.specs.answers.declared.chronicle.Entry.{Entry as EntryValue};
ghost use Rattle.hierarchy.specs.Births.{Birth, births, lives};
ghost use Rattle.hierarchy.specs.Families.{second_in};
ghost use Rattle.hierarchy.specs.Legal.{IsLegalBirth};
ghost use Rattle.hierarchy.specs.Own.{own_of, setup_in};
ghost use Rattle.instance.specs.Agrees.{AgreesOwn};
ghost use Rattle.instance.specs.Family.{bearing};
ghost use Rattle.instance.specs.Makes.{Bears};
ghost use Rattle.instance.specs.resource_set.Valid.{IsR};
ghost use Rattle.instance.specs.workload.Laws.{HasOwnLabels, IsBuilt, IsWithin, KeepsTallies};
ghost use Rattle.homes.specs.Inside.{AreSettled, IsChildHome};

use crate::homes::{Home, Origin, Place, is_at, work_for};
use instance::lists::Bytes;
use instance::manager_rules::Terms;
use instance::resource_set::Resources;
use instance::workload::{ActorList, Workload};
use instance::{CoreFault, Instance, Setting};
use std::alloc::{AllocError, Global};

/// The most brokers of an instance.
const MOST_BROKERS: usize = 32;

/// The actors with a label stand in the instance of this number from now on.
pub fn settle(places: &mut [Place], actors: &ActorList, label: &Bytes, number: u32)
    requires { length places.old < 2 ^ 32 }
    ensures { AreSettled actors.now label.now number places.old places.new }
{
    for actor in 0..places.len() as u32 {
        if is_at(actors, Some(label), actor) {
            places[actor as usize].home = Some(number);
        }
    }
}

/// The child of a job is born: the label of its job and its grant.
pub fn bear_for(
    alloc: Global,
    outer: &mut Instance,
    job: u64,
) -> Result<(Bytes, Resources), CoreFault>
    requires ready { outer.old.spent ≡ false }
    requires due { bearing outer.old ≡ Some job }
    ensures ready { OnOk result (outer.new.spent ≡ false) }
    ensures bears { OnOk result (Bears outer.old job outer.new) }
    ensures valid { IfOk result (λ told. IsR told.1) }
    ensures some { IfOk result (λ told. (set : Setup) (own : List EntryValue)
        → AgreesOwn outer.old set own → 1 ≤ length told.1.nodes) }
    ensures legal { IfOk result (λ told. (set : Setup) (c : List EntryValue) (child i second : ℕ)
        → IsTrue (lives c i) → AgreesOwn outer.old (setup_in set c i) (own_of set c i)
        → child ≡ length (births c) + 1 → second ≡ second_in set c
        → IsLegalBirth set c child i job told.0 second told.1) }
{
    // this says that the birth is due
    outer.birth();
    let Some(label) = outer.label_of(job) else {
        unreachable!()
    };
    let label = Bytes::of(alloc, label)?;
    let Some(grant) = outer.grant_of(job)? else {
        unreachable!()
    };
    outer.born(job)?;
    Ok((label, grant))
}

/// The home of a child that is born now: an instance with this grant, and the lines of its own
/// actors.
pub fn child_home(
    alloc: Global,
    setting: Setting,
    terms: Terms,
    work: &Workload,
    origin: Origin,
    grant: &Resources,
    second: u64,
) -> Result<Home, CoreFault>
    requires fanout { (1 ≤ setting.fanout) × (setting.fanout ≤ 32) }
    requires within { IsWithin setting.size work.now }
    requires built { All (λ l. IsBuilt l.command) work.now.lines }
    requires labels { HasOwnLabels work.now.lines }
    requires few { KeepsTallies work.now.lines }
    requires grant { IsR grant.now }
    requires some { 1 ≤ length grant.now.nodes }
    requires early { second + 2000000000 < 2 ^ 64 }
    ensures { IfOk result (λ home. (set : Setup) (b : Birth) → set.fanout ≡ setting.fanout
        → set.hash ≡ setting.hash → set.terms ≡ terms → set.work ≡ work.now
        → b.parent ≡ origin.parent → b.job ≡ origin.job → b.label ≡ origin.label
        → b.second ≡ second → b.grant ≡ grant.now → IsChildHome set b home) }
{
    let size = grant.nodes.as_slice().len().min(MOST_BROKERS) as u32;
    let own = work_for(alloc, work, Some(&origin.label), size)?;
    let setting = Setting {
        size,
        fanout: setting.fanout,
        hash: setting.hash,
    };
    let instance = Instance::new(alloc, setting, grant, &own, second, terms)?;
    Ok(Home {
        origin: Some(origin),
        work: own,
        instance,
        shuts: false,
        gone: false,
    })
}
