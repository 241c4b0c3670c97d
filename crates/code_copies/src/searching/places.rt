//! What is known at the places of a copy.
use crate::known::{EventFact, Facts, told};
use crate::plan::Place;
use crate::root_facts::{after_mark, after_test};
use crate::searching::sets::EventSets;
use actions::Event;
use code_language::{Cond, Instr};
use flow_base::Memory;
use std::alloc::Global;

/// The places of a copy, with what was handed on to them so far.
#[derive(Drop)]
struct Pass<'a> {
    /// The sets of events.
    sets: &'a EventSets,
    /// Whether the root stays active once it is.
    keeps_root: bool,
    /// The places, none where nothing was handed on to one.
    places: Vec<Option<Place>>,
}

impl Pass<'_> {
    /// Hands facts on to a place, if it is there.
    fn hand_on(&mut self, place: usize, facts: Facts) {
        let Some(slot) = self.places.get_mut(place) else {
            return;
        };
        let known = match slot {
            Some(place) => self.sets.in_both(place.facts, facts),
            None => facts,
        };
        *slot = Some(Place {
            facts: known,
            copy: 0,
            note: None,
        });
    }

    /// Hands the facts on from a test of the event, by its outcome where that is known.
    fn hand_on_from_event(&mut self, next: usize, over: usize, event: u32, facts: Facts) {
        match told(&self.sets.all, facts.event, event) {
            Some(true) => self.hand_on(next, facts),
            Some(false) => self.hand_on(over, facts),
            None => {
                let found = EventFact::Is(Event::Named(event));
                let other = self.sets.ruled_out(event, facts.event);
                self.hand_on(
                    next,
                    Facts {
                        event: found,
                        ..facts
                    },
                );
                self.hand_on(
                    over,
                    Facts {
                        event: other,
                        ..facts
                    },
                );
            }
        }
    }

    /// Hands the facts on from a test.
    fn hand_on_from_test(&mut self, next: usize, over: usize, cond: &Cond, facts: Facts) {
        match cond {
            Cond::Current(event) => self.hand_on_from_event(next, over, *event, facts),
            Cond::On(_) | Cond::Bare(_) | Cond::OnHome | Cond::BareHome => {
                self.hand_on(next, after_test(self.keeps_root, cond, facts));
                self.hand_on(over, facts);
            }
            Cond::Result(_) | Cond::Test(_) | Cond::Last(_) => {
                self.hand_on(next, facts);
                self.hand_on(over, facts);
            }
        }
    }

    /// Hands the facts of a place on from its instruction.
    fn hand_on_from(&mut self, place: usize, instr: &Instr, facts: Facts) {
        let next = place.saturating_add(1);
        match instr {
            Instr::Unless(skipped, cond) => {
                let over = next.saturating_add(*skipped as usize);
                self.hand_on_from_test(next, over, cond, facts);
            }
            Instr::Skip(skipped) => self.hand_on(next.saturating_add(*skipped as usize), facts),
            Instr::Home(state) => self.hand_on(
                next,
                Facts {
                    home: Some(*state),
                    ..facts
                },
            ),
            Instr::Mark(state) => self.hand_on(next, after_mark(self.keeps_root, *state, facts)),
            Instr::Ret(_) => {}
            Instr::Assign(_, _)
            | Instr::Emit(_)
            | Instr::Clear(_)
            | Instr::Keep(_)
            | Instr::Call(_, _)
            | Instr::Visit(_, _)
            | Instr::Send(_)
            | Instr::SendTo(_, _, _)
            | Instr::Play
            | Instr::Begin
            | Instr::Pass => self.hand_on(next, facts),
        }
    }
}

/// So many places to which nothing was handed on.
fn unreached_places(alloc: Global, count: usize) -> Result<Vec<Option<Place>>, Memory> {
    Ok(vec![in alloc; None; count]?)
}

/// The places of a copy of these instructions that takes the facts for known, in code whose root
/// stays active once it is or not. What the places name isn't written yet.
pub(crate) fn known_places(
    alloc: Global,
    sets: &EventSets,
    keeps_root: bool,
    instrs: &[Instr],
    facts: Facts,
) -> Result<Vec<Option<Place>>, Memory> {
    let places = unreached_places(alloc, instrs.len())?;
    let mut pass = Pass {
        sets,
        keeps_root,
        places,
    };
    pass.hand_on(0, facts);
    for (place, instr) in instrs.iter().enumerate() {
        if let Some(Some(reached)) = pass.places.get(place) {
            let facts = reached.facts;
            pass.hand_on_from(place, instr, facts);
        }
    }
    Ok(pass.places)
}
