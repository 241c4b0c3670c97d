//! Sets of events, and what facts tell by them.
use crate::known::{EventFact, Facts, implies};
use crate::searching::lists::{list_at, number_of};
use crate::searching::tests_of_events::{set_number, tested_events};
use code_language::{Cond, Instr, RawCode};
use flow_base::Memory;
use std::alloc::Global;

/// Sets of events, by number.
#[derive(Drop)]
pub(crate) struct EventSets {
    /// The sets: the empty one, for each procedure the events that it tests, and then those that
    /// grow by one asked event each.
    pub all: Vec<Vec<u32>>,
    /// The events for which the reaction asks one after the other.
    asked: Vec<u32>,
    /// The number of the set that has the first asked event alone.
    first_grown: u32,
}

/// The events for which the instructions ask one after the other from their first place, each once.
fn asked_events(alloc: Global, instrs: &[Instr]) -> Result<Vec<u32>, Memory> {
    let mut events = Vec::new(alloc);
    let mut place = 0;
    for _ in 0..instrs.len() {
        let Some(Instr::Unless(over, Cond::Current(event))) = instrs.get(place) else {
            break;
        };
        if events.contains(event) {
            break;
        }
        events.push(*event)?;
        place = place.saturating_add(1).saturating_add(*over as usize);
    }
    Ok(events)
}

/// The set with one more event.
fn grown_set(alloc: Global, set: &[u32], event: u32) -> Result<Vec<u32>, Memory> {
    let mut grown = Vec::from_slice(alloc, set)?;
    grown.push(event)?;
    Ok(grown)
}

/// Adds the sets that grow from the empty one by one of the events each.
fn grow(alloc: Global, sets: &mut Vec<Vec<u32>>, events: &[u32]) -> Result<(), Memory> {
    let mut last = 0;
    for event in events {
        let grown = grown_set(alloc, list_at(sets, last), *event)?;
        last = number_of(sets.len());
        sets.push(grown)?;
    }
    Ok(())
}

/// Whether the others, which ascend, have each of the events, which ascend too.
fn has_all(others: &[u32], events: &[u32]) -> bool {
    let mut found: usize = 0;
    for other in others {
        if events.get(found).copied() == Some(*other) {
            found = found.saturating_add(1);
        }
    }
    found >= events.len()
}

/// The home where both tell the same one.
fn home_in_both(first: Option<u32>, second: Option<u32>) -> Option<u32> {
    if first == second { first } else { None }
}

/// What is known of the event alone.
fn of_event(event: EventFact) -> Facts {
    Facts {
        home: None,
        event,
        is_rooted: false,
    }
}

impl EventSets {
    /// No set.
    pub(crate) fn none(alloc: Global) -> EventSets {
        EventSets {
            all: Vec::new(alloc),
            asked: Vec::new(alloc),
            first_grown: 0,
        }
    }

    /// The sets of the code. None where the events that procedures test are too many.
    pub(crate) fn of(alloc: Global, code: &RawCode) -> Result<Option<EventSets>, Memory> {
        let procs = code.procs.items();
        let Some(mut all) = tested_events(alloc, procs, code.events.items().len())? else {
            return Ok(None);
        };
        let asked = match procs.get(code.react as usize) {
            Some(instrs) => asked_events(alloc, instrs.items())?,
            None => Vec::new(alloc),
        };
        let first_grown = number_of(all.len());
        grow(alloc, &mut all, &asked)?;
        Ok(Some(EventSets {
            all,
            asked,
            first_grown,
        }))
    }

    /// The events that the procedure, or what it calls or visits, tests.
    pub(crate) fn tested(&self, proc: u32) -> &[u32] {
        list_at(&self.all, set_number(proc))
    }

    /// Whether the set has all events that the procedure tests.
    pub(crate) fn has_tested(&self, set: u32, proc: u32) -> bool {
        set == set_number(proc) || has_all(list_at(&self.all, set), self.tested(proc))
    }

    /// What both facts tell.
    pub(crate) fn in_both(&self, first: Facts, second: Facts) -> Facts {
        Facts {
            home: home_in_both(first.home, second.home),
            event: self.event_in_both(first.event, second.event),
            is_rooted: first.is_rooted && second.is_rooted,
        }
    }

    /// What both facts tell of the event, or nothing where neither tells all that the other tells.
    fn event_in_both(&self, first: EventFact, second: EventFact) -> EventFact {
        if implies(&self.all, of_event(first), of_event(second)) {
            second
        } else if implies(&self.all, of_event(second), of_event(first)) {
            first
        } else {
            EventFact::NoneOf(0)
        }
    }

    /// What is known of the event once it isn't this one.
    pub(crate) fn ruled_out(&self, event: u32, fact: EventFact) -> EventFact {
        match fact {
            EventFact::Is(known) => EventFact::Is(known),
            EventFact::NoneOf(set) => EventFact::NoneOf(self.grown_from(set, event)),
        }
    }

    /// The set with one more event, where it is asked for next, else the set.
    fn grown_from(&self, set: u32, event: u32) -> u32 {
        let Some(size) = self.asked_in(set) else {
            return set;
        };
        if self.asked.get(size as usize).copied() == Some(event) {
            self.first_grown.saturating_add(size)
        } else {
            set
        }
    }

    /// How many asked events the set has, where it has these alone.
    fn asked_in(&self, set: u32) -> Option<u32> {
        if set == 0 {
            Some(0)
        } else if set >= self.first_grown {
            Some((set - self.first_grown).saturating_add(1))
        } else {
            None
        }
    }
}
