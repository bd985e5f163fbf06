//! One namespace, at all brokers.
ghost use Rattle.std.specs.Prelude.{◌≡◌, ◌≢◌, ℕ, suc, ◌+◌, ◌-◌, ◌<◌, ◌≤◌, ◌==◌, cond, min, true, false, List, [], ◌∷◌, ◌++◌, Option, Some, None, IsSome, OnOk, IfOk, length, slice_get, slice_index, slice_index_or};
ghost use Rattle.kvs_txn.specs.declared.txn.Group.{Group as GroupValue};
ghost use Rattle.kvs_txn.specs.declared.answers.Refusal.{Refusal as RefusalValue};
ghost use Rattle.kvs_model.specs.Store.{Store as Contents};
ghost use Rattle.kvs_model.specs.History.{after, after_groups, first_store};
ghost use Rattle.kvs_rules.specs.Namespaces.{is_primary, primary, scope_of};
ghost use Rattle.kvs_space.specs.Space.{seen, number_of, has_heard_end, is_named, has_news, link_at, is_ready, is_at_rest, is_behind};
ghost use Rattle.kvs_space.specs.Losses.{resynced, with_loss};
ghost use Rattle.std.specs.List.{list_all};
ghost use Rattle.kvs_space.specs.Sound.{IsSoundSpace, idle};
ghost use Rattle.std.specs.Option.{option_map, option_map_or};
ghost use Rattle.kvs_space.specs.Rulings.{HasTaken, IsOfFirst, IsHearing, IsRemoving, IsRuled};
ghost use Rattle.fence_merge.specs.Merging.{pushed, joined};
ghost use Rattle.fence_merge.specs.Fences.{AreFences, fence_of};

use crate::links::{Link, Loss, are_empty, deliver, hear};
use fence_merge::{JoinFault, Member, Merger, PushFault};
use kvs_txn::{Group, GroupList, Refusal, Scope};
use lists::{Bytes, Copied, ListOf};
use plain_store::{ApplyFault, Store};
use std::alloc::{AllocError, AllocFailed, Global};
use std::marker::Model;
use thiserror::Error;

/// Why something of a namespace wasn't done: there was no memory, or no number.
#[derive(Clone, Copy, Debug, PartialEq, Eq, Error)]
pub enum SpaceFault {
    #[error("no memory")]
    NoMemory,
}

impl From<AllocError> for SpaceFault {
    ghost use Rattle.std.specs.Prelude.{◌≡◌};
    ghost use Rattle.kvs_space.specs.declared.space.SpaceFault.TheVariants.{NoMemory};

    ghost from_gives = { λ _ e. e ≡ NoMemory };

    fn from(_: AllocError) -> Self {
        SpaceFault::NoMemory
    }
}

impl<T: Drop> From<AllocFailed<T>> for SpaceFault {
    ghost use Rattle.std.specs.Prelude.{◌≡◌};
    ghost use Rattle.kvs_space.specs.declared.space.SpaceFault.TheVariants.{NoMemory};

    ghost from_gives = { λ _ e. e ≡ NoMemory };

    fn from(_: AllocFailed<T>) -> Self {
        SpaceFault::NoMemory
    }
}

/// A namespace: its landings, how many of its roots each broker has heard of, each broker's store,
/// the announcements on the way to each broker, and what waits to land.
#[derive(Drop)]
pub struct Space {
    name: Bytes,
    removed: bool,
    history: Vec<GroupList>,
    known: Vec<u64>,
    stores: Vec<Store>,
    links: Vec<Link>,
    merger: Merger,
}

impl Model for Space {
    ghost use Rattle.kvs_space.specs.Space.{SpaceValue};

    ghost Value = { SpaceValue };

    ghost view = { λ s. record {
      name = s.name;
      removed = s.removed;
      history = s.history.items;
      known = s.known.items;
      stores = s.stores.items;
      links = s.links.items;
      merger = s.merger;
    } };
}

/// What rank 0 makes of the transactions that are ready: a landing of one or more, or a denial of
/// the first.
#[derive(Drop)]
pub enum Ruling {
    Landed { number: u64, groups: GroupList },
    Denied { group: Group, refusal: Refusal },
}

/// The transactions that took effect, one behind another, and why the next one did not, if there is
/// one.
#[derive(Drop)]
struct Taken {
    groups: GroupList,
    refusal: Option<Refusal>,
}

/// How many roots a broker knew of, and how many it knows of now.
#[derive(Clone, Copy, Debug, PartialEq, Eq)]
pub struct Rise {
    pub before: u64,
    pub after: u64,
}

/// Whether the reserved keys matter in a namespace.
fn scope_of(name: &Bytes) -> Scope
    ensures { result ≡ scope_of name.now }
{
    if name.as_slice() == b"primary".as_slice() {
        Scope::Primary
    } else {
        Scope::Other
    }
}

/// How many landings the store of a broker has that knows of so many roots. The last root may be a
/// removal, which has none.
fn seen(known: u64, landed: usize) -> u64
    ensures { result ≡ seen known landed }
{
    known.saturating_sub(1).min(landed as u64)
}

/// The number behind this one.
fn next_number(number: u64) -> Result<u64, SpaceFault>
    ensures { IfOk result (λ next. next ≡ number + 1) }
{
    number.checked_add(1).ok_or(SpaceFault::NoMemory)
}

/// Whether all brokers know of so many roots.
fn know_all(known: &Vec<u64>, roots: u64) -> bool
    ensures { result ≡ list_all (λ count. count == roots) known.now.items }
{
    known.iter().all(|count| *count == roots)
}

/// Does the transactions of a landing, none of which is refused.
fn follow(store: &mut Store, groups: &GroupList, scope: Scope) -> Result<(), SpaceFault>
    requires { IsSome (after_groups scope groups.now store.old) }
    ensures { OnOk result (after_groups scope groups.now store.old ≡ Some store.new) }
{
    for group in groups.as_slice() {
        match store.apply(&group.txn, scope) {
            Ok(()) => {}
            Err(ApplyFault::NoMemory) => return Err(SpaceFault::NoMemory),
            Err(ApplyFault::Refused(_)) => unreachable!(),
        }
    }
    Ok(())
}

/// Does the landings above one number, up to another, on a broker's store.
fn catch_up(
    stores: &mut Vec<Store>,
    history: &Vec<GroupList>,
    scope: Scope,
    broker: usize,
    from: u64,
    to: u64,
) -> Result<(), SpaceFault>
    requires within { broker < length stores.old.items }
    requires rises { from ≤ to }
    requires landed { to ≤ length history.now.items }
    requires stands { (first : Contents)
        × (after scope history.now.items from first
        ≡ Some (slice_index_or stores.old.items broker []))
        × IsSome (after scope history.now.items to first) }
    ensures follows { OnOk result ((first : Contents)
        → after scope history.now.items from first
        ≡ Some (slice_index_or stores.old.items broker [])
        → after scope history.now.items to first
        ≡ Some (slice_index_or stores.new.items broker [])) }
    ensures others { OnOk result ((k : ℕ) → k ≢ broker
        → slice_index_or stores.new.items k [] ≡ slice_index_or stores.old.items k []) }
    ensures same_len { length stores.new.items ≡ length stores.old.items }
{
    let store = &mut stores[broker];
    for number in from..to {
        follow(store, &history[number as usize], scope)?;
    }
    Ok(())
}

/// Does the transaction of the group that is ready first, or gives its refusal.
fn try_first(
    merger: &Merger,
    store: &mut Store,
    scope: Scope,
) -> Result<Option<Refusal>, SpaceFault>
    requires { merger.now.ready ≢ [] }
    ensures judged { IfOk result
        (λ refusal. IsOfFirst scope merger.now.ready store.old store.new refusal) }
{
    match merger.first() {
        Some(group) => match store.apply(&group.txn, scope) {
            Ok(()) => Ok(None),
            Err(ApplyFault::NoMemory) => Err(SpaceFault::NoMemory),
            Err(ApplyFault::Refused(refusal)) => Ok(Some(refusal)),
        },
        None => unreachable!(),
    }
}

/// Takes out the group that is ready first.
fn pop(merger: &mut Merger) -> Group
    requires { merger.old.ready ≢ [] }
    ensures { merger.old
        ≡ record { fences = merger.new.fences; ready = result ∷ merger.new.ready } }
{
    match merger.group() {
        Some(group) => group,
        None => unreachable!(),
    }
}

/// Takes out the groups that are ready, up to the first that is refused behind them, and does their
/// transactions.
fn take_ready(
    alloc: Global,
    merger: &mut Merger,
    store: &mut Store,
    scope: Scope,
) -> Result<Taken, SpaceFault>
    ensures { IfOk result
        (λ taken. HasTaken scope merger.old merger.new store.old store.new taken.groups
        taken.refusal) }
{
    let mut groups = ListOf::new(alloc);
    let count = merger.ready();
    for at in 0..count {
        let _ = at;
        match try_first(merger, store, scope)? {
            Some(refusal) => {
                return Ok(Taken {
                    groups,
                    refusal: Some(refusal),
                });
            }
            None => groups.push(pop(merger))?,
        }
    }
    Ok(Taken {
        groups,
        refusal: None,
    })
}

impl Space {
    /// `primary` before anything has landed, at so many brokers.
    pub fn primary(alloc: Global, size: u32, grant: &Bytes) -> Result<Space, SpaceFault>
        requires { 1 ≤ size }
        ensures name { IfOk result (λ space. space.name ≡ primary) }
        ensures fresh { IfOk result (λ space. (space.removed ≡ false) × (space.history ≡ [])
            × (space.merger ≡ record { fences = []; ready = [] })) }
        ensures size { IfOk result (λ space. length space.known ≡ size) }
        ensures known { IfOk result (λ space. (b : ℕ) → b < size → slice_index space.known b ≡ 1) }
        ensures store { IfOk result (λ space. slice_index_or space.stores 0 []
            ≡ first_store grant.now) }
        ensures sound { IfOk result (λ space. (fanout : ℕ) → IsSoundSpace fanout grant.now space) }
    {
        let mut known = Vec::new(alloc);
        let mut stores = Vec::new(alloc);
        let mut links = Vec::new(alloc);
        for broker in 0..size {
            let _ = broker;
            known.push(1)?;
            stores.push(Store::first(alloc, grant)?)?;
            links.push(Link::new(alloc))?;
        }
        Ok(Space {
            name: Bytes::of(alloc, b"primary")?,
            removed: false,
            history: Vec::new(alloc),
            known,
            stores,
            links,
            merger: Merger::new(alloc),
        })
    }

    /// A namespace that is opened, other than `primary`, at so many brokers: rank 0 has heard its
    /// first root, and the announcements to the brokers below it are on the way.
    pub fn opened(alloc: Global, name: Bytes, size: u32, fanout: u32) -> Result<Space, SpaceFault>
        requires size { 1 ≤ size }
        requires fanout { 0 < fanout }
        requires other { is_primary name ≡ false }
        ensures name { IfOk result (λ space. space.name ≡ name) }
        ensures fresh { IfOk result (λ space. (space.removed ≡ false) × (space.history ≡ [])
            × (space.merger ≡ idle)) }
        ensures size { IfOk result (λ space. length space.known ≡ size) }
        ensures known { IfOk result (λ space. (b : ℕ) → b < size
            → slice_index space.known b ≡ cond (b == 0) 1 0) }
        ensures sound { IfOk result (λ space. (grant : List ℕ) → IsSoundSpace fanout grant space) }
    {
        let mut known = Vec::new(alloc);
        let mut stores = Vec::new(alloc);
        let mut links = Vec::new(alloc);
        for broker in 0..size {
            let _ = broker;
            known.push(0)?;
            stores.push(Store::empty(alloc)?)?;
            links.push(Link::new(alloc))?;
        }
        hear(&mut known, &mut links, fanout as usize, 0, 1)?;
        Ok(Space {
            name,
            removed: false,
            history: Vec::new(alloc),
            known,
            stores,
            links,
            merger: Merger::new(alloc),
        })
    }

    /// Removes a namespace other than `primary`: nothing waits in it any more, rank 0 has heard of
    /// a last root without a store, and the announcements of it are on the way. Gives that root's
    /// number.
    pub fn remove(&mut self, alloc: Global, fanout: u32) -> Result<u64, SpaceFault>
        requires sound { (grant : List ℕ) × IsSoundSpace fanout grant self.old }
        requires fanout { 0 < fanout }
        requires other { is_primary self.old.name ≡ false }
        requires living { self.old.removed ≡ false }
        ensures sound { OnOk result ((grant : List ℕ) → IsSoundSpace fanout grant self.old
            → IsSoundSpace fanout grant self.new) }
        ensures removed { IfOk result (λ number. IsRemoving number self.old self.new) }
    {
        let number = self.known[0];
        let next = next_number(number)?;
        self.removed = true;
        self.merger = Merger::new(alloc);
        hear(&mut self.known, &mut self.links, fanout as usize, 0, next)?;
        Ok(number)
    }

    /// Whether the namespace was removed.
    pub fn is_removed(&self) -> bool
        ensures { result ≡ self.now.removed }
    {
        self.removed
    }

    /// The namespace's name.
    pub fn name(&self) -> &Bytes
        ensures { result.now ≡ self.now.name }
    {
        &self.name
    }

    /// Whether this is the namespace of the name.
    pub fn is_named(&self, name: &Bytes) -> bool
        ensures { result ≡ is_named name.now self.now }
    {
        name.as_slice() == self.name.as_slice()
    }

    /// How many roots a broker knows of.
    pub fn known(&self, broker: u32) -> u64
        ensures { result ≡ slice_index self.now.known broker }
    {
        self.known.get(broker as usize).copied().unwrap_or(0)
    }

    /// Whether a broker has heard the namespace's removal.
    pub fn has_heard_end(&self, broker: u32) -> bool
        ensures { result ≡ has_heard_end broker self.now }
    {
        self.removed && self.known(broker) == self.known(0)
    }

    /// The store of a broker.
    pub fn store(&self, broker: u32) -> &Store
        requires { broker < length self.now.stores }
        ensures { result.now ≡ slice_index_or self.now.stores broker [] }
    {
        &self.stores[broker as usize]
    }

    /// Whether an announcement is on the way to a broker.
    pub fn has_news(&self, broker: u32) -> bool
        ensures { result ≡ has_news broker self.now }
    {
        match self.links.get(broker as usize) {
            Some(link) => !link.is_empty(),
            None => false,
        }
    }

    /// Whether something is ready to land.
    pub fn is_ready(&self) -> bool
        ensures { result ≡ is_ready self.now }
    {
        0 < self.merger.ready()
    }

    /// Whether a broker knows of fewer roots than the broker above it.
    pub fn is_behind(&self, fanout: u32, broker: u32) -> bool
        requires { 0 < fanout }
        ensures { result ≡ is_behind fanout broker self.now }
    {
        let above = broker.saturating_sub(1) / fanout;
        (broker as usize) < self.known.len() && self.known(broker) < self.known(above)
    }

    /// Whether nothing happens in the namespace any more: it was removed, each broker has heard
    /// that, no announcement is on the way, and nothing is ready to land.
    pub fn is_at_rest(&self) -> bool
        ensures { result ≡ is_at_rest self.now }
    {
        self.removed
            && !self.is_ready()
            && are_empty(&self.links)
            && know_all(&self.known, self.known(0))
    }

    /// Delivers the oldest announcement on the way to a broker.
    pub fn deliver(&mut self, fanout: u32, to: u32) -> Result<Rise, SpaceFault>
        requires sound { (grant : List ℕ) × IsSoundSpace fanout grant self.old }
        requires fanout { 0 < fanout }
        requires above { 0 < to }
        requires within { to < length self.old.known }
        requires some { has_news to self.old ≡ true }
        ensures sound { OnOk result ((grant : List ℕ) → IsSoundSpace fanout grant self.old
            → IsSoundSpace fanout grant self.new) }
        ensures heard { IfOk result
            (λ rise. IsHearing fanout to rise.before rise.after self.old self.new) }
        ensures shorter { OnOk result (length (link_at self.new.links to) < length
            (link_at self.old.links to)) }
    {
        let at = to as usize;
        let landed = self.history.len();
        let scope = scope_of(&self.name);
        let before = self.known[at];
        let after = deliver(&mut self.known, &mut self.links, fanout as usize, at)?;
        let (from, upto) = (seen(before, landed), seen(after, landed));
        catch_up(&mut self.stores, &self.history, scope, at, from, upto)?;
        Ok(Rise { before, after })
    }

    /// Lets the oldest announcement on the way to a broker be lost, repeated or moved.
    pub fn lose(&mut self, loss: Loss, to: u32) -> Result<(), AllocError>
        requires within { to < length self.old.links }
        ensures { OnOk result (self.new ≡ with_loss loss to self.old) }
    {
        let link = &mut self.links[to as usize];
        link.lose(loss)
    }

    /// Announces to a broker what the broker above it knows, if that is more.
    pub fn resync(&mut self, fanout: u32, broker: u32) -> Result<(), AllocError>
        requires fanout { 0 < fanout }
        requires linked { length self.old.links ≡ length self.old.known }
        ensures { OnOk result (self.new ≡ resynced fanout broker self.old) }
    {
        if self.is_behind(fanout, broker) {
            let newest = self.known(broker.saturating_sub(1) / fanout);
            let link = &mut self.links[broker as usize];
            link.push(newest)?;
        }
        Ok(())
    }

    /// Takes a commit, which is ready to land at once.
    pub fn push(&mut self, member: Member) -> Result<(), SpaceFault>
        ensures { OnOk result (self.new
            ≡ record self.old { merger = pushed self.old.merger member }) }
    {
        match self.merger.push(member) {
            Ok(()) => Ok(()),
            Err(PushFault::NoMemory(_)) => Err(SpaceFault::NoMemory),
        }
    }

    /// How many members the open fence of a name waits for, if one is open.
    pub fn count_of(&self, fence: &Bytes) -> Option<u32>
        ensures { result ≡ option_map (λ f. f.count) (fence_of fence.now self.now.merger.fences) }
    {
        self.merger.count_of(fence)
    }

    /// Takes a member of the fence of a name that waits for so many. With the last one all of them
    /// are ready to land.
    pub fn join(&mut self, fence: &Bytes, count: u32, member: Member) -> Result<(), SpaceFault>
        requires count { (1 ≤ count) × (count ≤ 256) }
        requires same { option_map_or
            (λ f. f.count) (fence_of fence.now self.old.merger.fences) count ≡ count }
        ensures joined { OnOk result (self.new
            ≡ record self.old { merger = joined self.old.merger fence.now count member }) }
        ensures open { OnOk result (AreFences self.new.merger.fences) }
    {
        match self.merger.join(fence, count, member) {
            Ok(_) => Ok(()),
            Err(JoinFault::NoMemory(_)) => Err(SpaceFault::NoMemory),
            Err(JoinFault::CountDiffers { .. }) => unreachable!(),
        }
    }

    /// Takes a transaction of the job manager, which is ready to land at once.
    pub fn post(&mut self, group: Group) -> Result<(), AllocError>
        ensures { OnOk result (self.new
            ≡ record self.old {
              merger = record {
                fences = self.old.merger.fences;
                ready = self.old.merger.ready ++ group ∷ [];
              };
            }) }
    {
        self.merger.post(group)
    }

    /// Lands transactions that are ready, or takes out the first one where it is refused.
    pub fn rule(&mut self, alloc: Global, fanout: u32) -> Result<Ruling, SpaceFault>
        requires sound { (grant : List ℕ) × IsSoundSpace fanout grant self.old }
        requires fanout { 0 < fanout }
        requires ready { is_ready self.old ≡ true }
        ensures sound { OnOk result ((grant : List ℕ) → IsSoundSpace fanout grant self.old
            → IsSoundSpace fanout grant self.new) }
        ensures ruled { IfOk result (λ ruling. IsRuled ruling self.old self.new) }
    {
        let scope = scope_of(&self.name);
        let Taken { groups, refusal } = take_ready(
            alloc,
            &mut self.merger,
            &mut self.stores[0],
            scope,
        )?;
        if groups.as_slice().is_empty() {
            match refusal {
                Some(refusal) => {
                    let group = pop(&mut self.merger);
                    Ok(Ruling::Denied { group, refusal })
                }
                None => unreachable!(),
            }
        } else {
            let number = self.known[0];
            let next = next_number(number)?;
            self.history.push(groups.copy()?)?;
            hear(&mut self.known, &mut self.links, fanout as usize, 0, next)?;
            Ok(Ruling::Landed { number, groups })
        }
    }
}

/// Whether something is ready to land in the namespace of a place in the table.
pub fn is_landing(spaces: &Vec<Space>, place: u32) -> bool
    ensures { result ≡ option_map_or is_ready (slice_get spaces.now.items place) false }
{
    match spaces.get(place as usize) {
        Some(space) => space.is_ready(),
        None => false,
    }
}

/// The number of the newest root, of so many that are known.
pub fn number_of(known: u64) -> Option<u64>
    ensures { result ≡ number_of known }
{
    if known == 0 { None } else { Some(known - 1) }
}
