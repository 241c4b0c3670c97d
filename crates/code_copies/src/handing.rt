//! What is known from place to place of a copy.
ghost use Rattle.std.specs.Prelude.{IsTrue};
ghost use Rattle.code_language.specs.Code.{cond_of};
ghost use Rattle.code_copies.specs.Facts as spec;
ghost use Rattle.code_copies.specs.Views.{event_fact_of, facts_of, places_of};
ghost use Rattle.code_copies.specs.Made.{HandsOn, EventHandsOn, TestHandsOn};

use crate::known::{EventFact, Facts, implies, implies_without, told};
use crate::plan::Place;
use crate::root_facts::{after_mark, after_test};
use actions::Event;
use code_language::Cond;

/// Whether no more than these facts is known so many places on, if such a place is there; `rest` has
/// the places after this one.
pub(crate) fn hands_on(sets: &[Vec<u32>], facts: Facts, rest: &[Option<Place>], over: u32) -> bool
    ensures { IsTrue result
        → HandsOn (facts_of sets.now facts) (places_of sets.now rest.now) over }
{
    match rest.get(over as usize) {
        Some(Some(place)) => implies(sets, facts, place.facts),
        Some(None) => false,
        None => true,
    }
}

/// Whether no more is known so many places on, if such a place is there, than these facts and that
/// the event isn't this one.
fn hands_on_without(
    sets: &[Vec<u32>],
    event: u32,
    facts: Facts,
    rest: &[Option<Place>],
    over: u32,
) -> bool
    ensures { IsTrue result
        → HandsOn (spec.without_event event (facts_of sets.now facts)) (places_of sets.now rest.now)
        over }
{
    match rest.get(over as usize) {
        Some(Some(place)) => implies_without(sets, event, facts, place.facts),
        Some(None) => false,
        None => true,
    }
}

/// Whether no more is known where a test of the event leads than these facts and its outcome.
fn event_hands_on(
    sets: &[Vec<u32>],
    facts: Facts,
    over: u32,
    event: u32,
    rest: &[Option<Place>],
) -> bool
    ensures { IsTrue result
        → EventHandsOn (spec.told (event_fact_of sets.now facts.event) event)
        (facts_of sets.now facts) over event (places_of sets.now rest.now) }
{
    match told(sets, facts.event, event) {
        None => {
            let found = Facts {
                event: EventFact::Is(Event::Named(event)),
                ..facts
            };
            hands_on(sets, found, rest, 0) && hands_on_without(sets, event, facts, rest, over)
        }
        Some(true) => hands_on(sets, facts, rest, 0),
        Some(false) => hands_on(sets, facts, rest, over),
    }
}

/// Whether no more is known at the next place than these facts, once the state is marked.
pub(crate) fn mark_hands_on(
    sets: &[Vec<u32>],
    keeps_root: bool,
    facts: Facts,
    state: u32,
    rest: &[Option<Place>],
) -> bool
    ensures { IsTrue result
        → HandsOn (spec.after_mark keeps_root state (facts_of sets.now facts))
        (places_of sets.now rest.now) 0 }
{
    hands_on(sets, after_mark(keeps_root, state, facts), rest, 0)
}

/// Whether no more is known where a test is passed than these facts, and what it tells of the root.
fn hands_on_after(
    sets: &[Vec<u32>],
    keeps_root: bool,
    facts: Facts,
    cond: &Cond,
    rest: &[Option<Place>],
) -> bool
    ensures { IsTrue result
        → HandsOn (spec.after_test keeps_root (cond_of cond.now) (facts_of sets.now facts))
        (places_of sets.now rest.now) 0 }
{
    hands_on(sets, after_test(keeps_root, cond, facts), rest, 0)
}

/// Whether no more is known where a test leads than these facts, and its outcome where it is one of
/// the event or tells that the root is active.
pub(crate) fn test_hands_on(
    sets: &[Vec<u32>],
    keeps_root: bool,
    facts: Facts,
    over: u32,
    cond: &Cond,
    rest: &[Option<Place>],
) -> bool
    ensures { IsTrue result
        → TestHandsOn keeps_root (facts_of sets.now facts) over (cond_of cond.now)
        (places_of sets.now rest.now) }
{
    match cond {
        Cond::Current(event) => event_hands_on(sets, facts, over, *event, rest),
        Cond::On(_) | Cond::Bare(_) | Cond::OnHome | Cond::BareHome => {
            hands_on_after(sets, keeps_root, facts, cond, rest) && hands_on(sets, facts, rest, over)
        }
        Cond::Result(_) | Cond::Test(_) | Cond::Last(_) => {
            hands_on(sets, facts, rest, 0) && hands_on(sets, facts, rest, over)
        }
    }
}
