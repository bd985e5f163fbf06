//! The dependencies of a submission, by their descriptions (Flux RFC 26).
ghost use Rattle.std.specs.Prelude.{◌≡◌, ◌≢◌, ◌<◌, ◌^◌, ◌++◌, ◌∷◌, [], List, ℕ, Some, IfNone, IfOk, IfSome, OnOk, MatchOption, codes, option_and_then, option_map};
ghost use Rattle.std.specs.List.{list_any};
ghost use Rattle.std.specs.Result.{result_ok};
ghost use Rattle.serde_json.specs.Find.{as_array, as_str, get};
ghost use Rattle.fl_json.specs.Reading.{reading};
ghost use Rattle.serde_json.specs.View.{view, items_view};
ghost use Rattle.job_spec.specs.declared.spec.Depend.{Depend as Need};
ghost use Rattle.job_spec.specs.declared.spec.Scheme.{Scheme as Way};
ghost use Rattle.manager_rules.specs.Jobs.{AreNeeds, description_of, distinct, listed_in, same_need, texts_in, texts_of};
ghost use Rattle.job_texts.specs.Listed.{AreDescribed, AreSmall, mark_of, with_need};

use event_log::Event;
use fl_json::{JsonFault, Value};
use job_spec::{Depend, JobSpec, Needs, Scheme};
use std::alloc::{AllocError, Global};

/// What stands behind a mark.
fn behind<'a>(text: &'a [u8], mark: &[u8]) -> Option<&'a [u8]>
    ensures { MatchOption result ((rest : List ℕ) → text.now ≢ mark.now ++ rest)
        (λ rest. text.now ≡ mark.now ++ rest.now) }
{
    text.strip_prefix(mark)
}

/// The id that a description of this scheme names.
fn named<'a>(text: &'a [u8], scheme: Scheme) -> Option<&'a [u8]>
    ensures { MatchOption result ((rest : List ℕ) → text.now ≢ mark_of scheme ++ rest)
        (λ rest. text.now ≡ mark_of scheme ++ rest.now) }
{
    let mark = match scheme {
        Scheme::After => b"after:".as_slice(),
        Scheme::AfterAny => b"afterany:".as_slice(),
        Scheme::AfterOk => b"afterok:".as_slice(),
        Scheme::AfterNotOk => b"afternotok:".as_slice(),
    };
    behind(text, mark)
}

/// The scheme that a description begins with, and the id behind it.
fn marked(text: &[u8]) -> Option<(Scheme, &[u8])>
    ensures some { IfSome result (λ parts. text.now ≡ mark_of parts.0 ++ parts.1.now) }
    ensures none { IfNone result ((scheme : Way) (rest : List ℕ)
        → text.now ≢ mark_of scheme ++ rest) }
{
    if let Some(id) = named(text, Scheme::After) {
        return Some((Scheme::After, id));
    }
    if let Some(id) = named(text, Scheme::AfterAny) {
        return Some((Scheme::AfterAny, id));
    }
    if let Some(id) = named(text, Scheme::AfterOk) {
        return Some((Scheme::AfterOk, id));
    }
    if let Some(id) = named(text, Scheme::AfterNotOk) {
        return Some((Scheme::AfterNotOk, id));
    }
    None
}

/// The dependency that a description tells.
fn need_in(text: &[u8]) -> Option<Depend>
    ensures { (need : Need) → need.on < 2 ^ 64
        → text.now ≡ description_of need → result ≡ Some need }
{
    let (scheme, id) = marked(text)?;
    match fluid_ids::read(id) {
        Ok(on) => Some(Depend { scheme, on }),
        Err(_) => None,
    }
}

/// Adds the dependency that a JSON text describes; what describes none is read over.
fn add_described(needs: &mut Needs, item: &Value) -> Result<(), AllocError>
    ensures { OnOk result ((need : Need) → need.on < 2 ^ 64
        → as_str (view item.now) ≡ Some (description_of need)
        → needs.new ≡ needs.old ++ need ∷ []) }
{
    let Some(text) = item.as_str() else {
        return Ok(());
    };
    match need_in(text.as_bytes()) {
        Some(need) => needs.push(need),
        None => Ok(()),
    }
}

/// The dependencies that JSON texts describe.
fn described(alloc: Global, items: &[Value]) -> Result<Needs, AllocError>
    ensures { IfOk result (AreDescribed (texts_of (items_view items.now))) }
{
    let mut needs = Needs::new(alloc);
    for item in items {
        add_described(&mut needs, item)?;
    }
    Ok(needs)
}

/// The dependencies that a value describes.
fn listed_in_value(alloc: Global, depends: &Value) -> Result<Needs, AllocError>
    ensures { IfOk result (AreDescribed (option_and_then texts_of (as_array (view depends.now)))) }
{
    match depends.as_array() {
        Some(items) => described(alloc, items.as_slice()),
        None => Ok(Needs::new(alloc)),
    }
}

/// The dependencies that a submission's context lists.
fn listed_by(alloc: Global, context: &Value) -> Result<Needs, AllocError>
    ensures { IfOk result (AreDescribed (texts_in (get (codes "depends") (view context.now)))) }
{
    match context.get("depends") {
        Some(depends) => listed_in_value(alloc, depends),
        None => Ok(Needs::new(alloc)),
    }
}

/// The dependencies that a submission lists.
fn listed(alloc: Global, event: &Event) -> Result<Needs, AllocError>
    ensures { IfOk result (AreDescribed (listed_in event.now)) }
{
    match &event.context {
        Some(context) => listed_in_text(alloc, context.as_slice()),
        None => Ok(Needs::new(alloc)),
    }
}

/// The value of a context, if it has one.
fn value_of(alloc: Global, context: &[u8]) -> Result<Option<Value>, AllocError>
    ensures { IfOk result (λ value.
        option_map (λ v. view v) value ≡ result_ok (reading context.now)) }
{
    match fl_json::read(alloc, context) {
        Ok(value) => Ok(Some(value)),
        Err(JsonFault::NoMemory) => Err(AllocError),
        Err(JsonFault::BadNumber { .. }) => Ok(None),
        Err(JsonFault::NotJson) => Ok(None),
        Err(JsonFault::Missing) => Ok(None),
        Err(JsonFault::WrongKind) => Ok(None),
    }
}

/// The dependencies that the text of a submission's context lists.
fn listed_in_text(alloc: Global, context: &[u8]) -> Result<Needs, AllocError>
    ensures { IfOk result (AreDescribed (texts_in
        (option_and_then (get (codes "depends")) (result_ok (reading context.now))))) }
{
    match value_of(alloc, context)? {
        Some(value) => listed_by(alloc, &value),
        None => Ok(Needs::new(alloc)),
    }
}

/// Whether dependencies of these schemes on these jobs have one description.
fn tell_one(scheme: Scheme, on: u64, other: Scheme, other_on: u64) -> bool
    ensures { result ≡ same_need
        (record { scheme = scheme; on = on }) (record { scheme = other; on = other_on }) }
{
    on == other_on && scheme == other
}

/// Whether two dependencies have one description.
fn is_same(a: &Depend, b: &Depend) -> bool
    ensures { result ≡ same_need a.now b.now }
{
    tell_one(a.scheme, a.on, b.scheme, b.on)
}

/// Whether a dependency is there.
fn has(needs: &[Depend], need: &Depend) -> bool
    ensures { result ≡ list_any (λ other. same_need other need.now) needs.now }
{
    needs.iter().any(|other| is_same(other, need))
}

/// Adds a dependency, unless it is there.
fn add_one(needs: &mut Needs, need: Depend) -> Result<(), AllocError>
    ensures { OnOk result (needs.new ≡ with_need needs.old need) }
{
    if has(needs.as_slice(), &need) {
        return Ok(());
    }
    needs.push(need)
}

/// Adds dependencies, each unless it is there.
fn add(needs: &mut Needs, more: &[Depend]) -> Result<(), AllocError>
    ensures { OnOk result ((all : List Need) → needs.old ≡ distinct all
        → needs.new ≡ distinct (all ++ more.now)) }
{
    for need in more {
        add_one(needs, *need)?;
    }
    Ok(())
}

/// The dependencies of a job: those of its jobspec, and then those of its submission, equal ones
/// once.
pub fn needs_of(alloc: Global, spec: &JobSpec, event: &Event) -> Result<Needs, AllocError>
    ensures { IfOk result (λ needs. (all : List Need)
        → AreNeeds spec.now event.now all → needs ≡ all) }
{
    let mut needs = Needs::new(alloc);
    let listed = listed(alloc, event)?;
    add(&mut needs, spec.depends.as_slice())?;
    add(&mut needs, listed.as_slice())?;
    Ok(needs)
}
