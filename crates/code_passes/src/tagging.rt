//! The tags of procedures from pass to pass.
ghost use Rattle.std.specs.Prelude.{◌≡◌, ◌<◌, ℕ, EachIndex, IfOk, List, false, length, slice_index};
ghost use Rattle.std.specs.Prelude.{◌++◌, map, slice_index_or};
ghost use Rattle.code_copies.specs.Views.{event_fact_of, facts_of, plan_of, set_of};
ghost use Rattle.code_copies.specs.Made.{PlanIsRight, keys_of};
ghost use Rattle.code_language.specs.Code.{code_of};
ghost use Rattle.code_passes.specs.Tags as spec;

use crate::tag::{EventTag, Tag};
use code_copies::{CopyKey, EventFact, Plan};
use code_language::Code;
use flow_base::Memory;
use std::alloc::Global;

/// The tag of a procedure that is as it was given.
fn own_tag(proc: u32) -> Tag
    ensures { result ≡ spec.own_tag proc }
{
    Tag {
        proc,
        home: None,
        event: EventTag::Any,
        shared: false,
        plays: false,
    }
}

/// The tags of code as it was given.
pub(crate) fn own_tags(alloc: Global, code: &Code) -> Result<Vec<Tag>, Memory>
    ensures { IfOk result (λ tags. tags.items ≡ spec.own_tags (code_of code.now)) }
{
    let count = code.raw().procs.items().len() as u32;
    let mut tags = Vec::new(alloc);
    for proc in 0..count {
        tags.push(own_tag(proc))?;
    }
    Ok(tags)
}

/// The tags of procedures that had these numbers.
pub(crate) fn tags_at(alloc: Global, tags: &[Tag], origins: &[u32]) -> Result<Vec<Tag>, Memory>
    requires { (i : ℕ) → i < length origins.now → slice_index origins.now i < length tags.now }
    ensures { IfOk result (λ found. spec.AreTagsAt origins.now tags.now found.items) }
{
    let mut found = Vec::new(alloc);
    for origin in origins {
        found.push(tags[*origin as usize])?;
    }
    Ok(found)
}

/// Marks that a procedure has this number, where it isn't that of the procedure itself.
fn mark_other(flags: &mut [bool], proc: usize, number: usize)
    ensures size { length flags.new ≡ length flags.old }
    ensures each { EachIndex flags.new (λ p. slice_index_or flags.new p false
        ≡ spec.or_other (slice_index_or flags.old p false) p proc number) }
{
    if number == proc {
        return;
    }
    if number < flags.len() {
        flags[number] = true;
    }
}

/// For each procedure whether another one has its number.
fn shared_flags(alloc: Global, numbers: &[u32]) -> Result<Vec<bool>, Memory>
    ensures size { IfOk result (λ flags. length flags.items ≡ length numbers.now) }
    ensures each { IfOk result (λ flags. EachIndex flags.items
        (λ p. slice_index_or flags.items p false ≡ spec.has_other p 0 numbers.now)) }
{
    let mut flags = vec![in alloc; false; numbers.len()]?;
    for (proc, number) in numbers.iter().enumerate() {
        mark_other(&mut flags, proc, *number as usize);
    }
    Ok(flags)
}

/// The tag, of a procedure that stands for others as well if so told.
fn with_shared(tag: Tag, is_shared: bool) -> Tag
    ensures { result ≡ spec.with_shared is_shared tag }
{
    Tag {
        shared: tag.shared || is_shared,
        ..tag
    }
}

/// The tags, where these procedures stand for others.
fn shared_by(alloc: Global, tags: &[Tag], flags: &[bool]) -> Result<Vec<Tag>, Memory>
    requires { length flags.now ≡ length tags.now }
    ensures { (numbers : List ℕ)
        → EachIndex flags.now (λ p. slice_index_or flags.now p false ≡ spec.has_other p 0 numbers)
        → IfOk result (λ shared. shared.items ≡ spec.shared_from numbers 0 tags.now) }
{
    let mut shared = Vec::new(alloc);
    for proc in 0..tags.len() {
        shared.push(with_shared(tags[proc], flags[proc]))?;
    }
    Ok(shared)
}

/// The tags, where procedures stand for others by these numbers.
pub(crate) fn shared_tags(alloc: Global, tags: &[Tag], numbers: &[u32]) -> Result<Vec<Tag>, Memory>
    requires { length numbers.now ≡ length tags.now }
    ensures { IfOk result (λ shared. shared.items ≡ spec.shared_from numbers.now 0 tags.now) }
{
    let flags = shared_flags(alloc, numbers)?;
    shared_by(alloc, tags, &flags)
}

/// The tag of the play of a procedure with this tag, which may have set another home before.
fn with_plays(tag: Tag) -> Tag
    ensures { result ≡ spec.with_plays tag }
{
    Tag {
        home: None,
        plays: true,
        ..tag
    }
}

/// The tags of the plays of procedures with the tags in front, and then the other tags.
pub(crate) fn after_plays(alloc: Global, front: &[Tag], tags: &[Tag]) -> Result<Vec<Tag>, Memory>
    ensures { IfOk result (λ all. all.items ≡ map spec.with_plays front.now ++ tags.now) }
{
    let mut all = Vec::new(alloc);
    for tag in front {
        all.push(with_plays(*tag))?;
    }
    all.extend_from_slice(tags)?;
    Ok(all)
}

/// The events of a set. A set that isn't there has none.
fn events_of(sets: &[Vec<u32>], number: u32) -> &[u32]
    ensures { result.now ≡ set_of sets.now number }
{
    match sets.get(number as usize) {
        Some(set) => set,
        None => &[],
    }
}

/// The events for which a copy is, by what it takes for known of the event.
fn event_tag(sets: &[Vec<u32>], event: EventFact) -> EventTag
    ensures { result ≡ spec.event_tag (event_fact_of sets.now event) }
{
    match event {
        EventFact::Is(event) => EventTag::Is(event),
        EventFact::NoneOf(set) => {
            if events_of(sets, set).is_empty() {
                EventTag::Any
            } else {
                EventTag::Other
            }
        }
    }
}

/// The home of a copy: the one that was told of its procedure, else the one that it takes for known.
fn home_tag(told: Option<u32>, home: Option<u32>) -> Option<u32>
    ensures { result ≡ spec.home_tag told home }
{
    match told {
        Some(_) => told,
        None => home,
    }
}

/// The events of a copy: those that were told of its procedure, and of these the ones for which the
/// copy is.
fn both_events(told: EventTag, events: EventTag) -> EventTag
    ensures { result ≡ spec.both_events told events }
{
    match (told, events) {
        (EventTag::Any, _) => events,
        (EventTag::Other, EventTag::Is(_)) => events,
        (EventTag::Is(_), _) | (EventTag::Other, EventTag::Any | EventTag::Other) => told,
    }
}

/// The tag of a copy of a procedure that has a tag.
fn copy_tag(sets: &[Vec<u32>], tag: Tag, key: CopyKey) -> Tag
    ensures { result ≡ spec.copy_tag (facts_of sets.now key.facts) tag }
{
    Tag {
        home: home_tag(tag.home, key.facts.home),
        event: both_events(tag.event, event_tag(sets, key.facts.event)),
        ..tag
    }
}

/// The tags of copies of procedures that have tags.
pub(crate) fn copy_tags(
    alloc: Global,
    code: &Code,
    tags: &[Tag],
    plan: &Plan,
) -> Result<Vec<Tag>, Memory>
    requires right { PlanIsRight (plan_of plan.now) (code_of code.now) }
    requires size { length tags.now ≡ length (code_of code.now).procedures.procs }
    ensures { IfOk result (λ made. spec.AreCopyTags (keys_of (plan_of plan.now).copies) tags.now
        made.items) }
{
    let mut made = Vec::new(alloc);
    for copy in &plan.copies {
        let tag = tags[copy.key.proc as usize];
        made.push(copy_tag(&plan.sets, tag, copy.key))?;
    }
    Ok(made)
}
