//! What procedures look at where they begin, and which copy stands for one.
use crate::known::{EventFact, Facts};
use crate::searching::homes::home_lookers;
use crate::searching::sets::EventSets;
use crate::searching::tests_of_events::set_number;
use actions::Event;
use code_language::RawCode;
use flow_base::Memory;
use std::alloc::Global;

/// What a copy takes for known of the event, among those that its procedure tests.
#[derive(Clone, Copy, PartialEq, Eq, Hash)]
pub(crate) enum EventClass {
    /// Nothing.
    Unknown,
    /// It is none of them.
    Other,
    /// It is this one of them.
    Named(u32),
}

/// A copy that is wanted.
#[derive(Clone, Copy, PartialEq, Eq, Hash)]
pub(crate) struct Wanted {
    /// The procedure.
    pub proc: u32,
    /// The home, where it is known.
    pub home: Option<u32>,
    /// What is known of the event.
    pub class: EventClass,
    /// Whether it is known that the root is active.
    pub is_rooted: bool,
}

impl Wanted {
    /// The copy of the procedure that takes nothing for known, but that the root is active where it
    /// is said to be.
    pub(crate) fn by_root(proc: u32, is_rooted: bool) -> Wanted {
        Wanted {
            proc,
            home: None,
            class: EventClass::Unknown,
            is_rooted,
        }
    }

    /// What the copy takes for known.
    pub(crate) fn facts(&self) -> Facts {
        let event = match self.class {
            EventClass::Unknown => EventFact::NoneOf(0),
            EventClass::Other => EventFact::NoneOf(set_number(self.proc)),
            EventClass::Named(event) => EventFact::Is(Event::Named(event)),
        };
        Facts {
            home: self.home,
            event,
            is_rooted: self.is_rooted,
        }
    }
}

/// What procedures look at where they begin.
#[derive(Drop)]
pub(crate) struct Looks {
    /// For each procedure whether it looks at its home.
    homes: Vec<bool>,
    /// The events that procedures test.
    pub sets: EventSets,
}

impl Looks {
    /// What the procedures of the code look at. None where the events that they test are too many.
    pub(crate) fn of(alloc: Global, code: &RawCode) -> Result<Option<Looks>, Memory> {
        let Some(sets) = EventSets::of(alloc, code)? else {
            return Ok(None);
        };
        let homes = home_lookers(alloc, code.procs.items())?;
        Ok(Some(Looks { homes, sets }))
    }

    /// What the procedures of the code look at, without events.
    pub(crate) fn at_homes(alloc: Global, code: &RawCode) -> Result<Looks, Memory> {
        Ok(Looks {
            homes: home_lookers(alloc, code.procs.items())?,
            sets: EventSets::none(alloc),
        })
    }

    /// The sets of events.
    pub(crate) fn into_sets(self) -> Vec<Vec<u32>> {
        let sets = self.sets;
        sets.all
    }

    /// What a copy of the procedure takes for known of the event, by what is known of it.
    fn class(&self, proc: u32, fact: EventFact) -> EventClass {
        let tested = self.sets.tested(proc);
        if tested.is_empty() {
            return EventClass::Unknown;
        }
        match fact {
            EventFact::Is(Event::Named(event)) if tested.binary_search(&event).is_ok() => {
                EventClass::Named(event)
            }
            EventFact::Is(_) => EventClass::Other,
            EventFact::NoneOf(set) if self.sets.has_tested(set, proc) => EventClass::Other,
            EventFact::NoneOf(_) => EventClass::Unknown,
        }
    }

    /// The copy that stands for the procedure where these facts are known: of them it takes for
    /// known what the procedure looks at, and that the root is active where it is.
    pub(crate) fn wanted(&self, proc: u32, facts: Facts) -> Wanted {
        let looks_at_home = self.homes.get(proc as usize).copied() == Some(true);
        Wanted {
            proc,
            home: if looks_at_home { facts.home } else { None },
            class: self.class(proc, facts.event),
            is_rooted: facts.is_rooted,
        }
    }
}
