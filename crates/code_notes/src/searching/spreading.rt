//! Which notes are there at each place: they spread from place to place and to what is called,
//! until nothing more is found.
use crate::checking::{UNREACHED, place_among};
use crate::plan::{NOTE_LIMIT, Place};
use crate::searching::table::{NO_NOTES, Table};
use code_language::{Instr, RawCode};
use flow_base::{List, Memory};
use std::alloc::Global;

/// How often the code is gone over at most.
const ROUNDS: usize = 1_000;

/// The place past so many more after a place; past the greatest number the greatest one, where no
/// place is.
fn past(place: usize, over: u32) -> usize {
    place.saturating_add(1).saturating_add(over as usize)
}

/// What is found so far, and whether there was news since the code was begun to be gone over.
#[derive(Drop)]
pub(crate) struct Spread {
    pub(crate) table: Table,
    pub(crate) places: Vec<Vec<Place>>,
    has_news: bool,
}

impl Spread {
    /// Nothing is found yet.
    pub(crate) fn new(alloc: Global, raw: &RawCode) -> Result<Spread, Memory> {
        let mut places = Vec::new(alloc);
        for instrs in raw.procs.items() {
            let own = vec![in alloc; UNREACHED; instrs.items().len()]?;
            places.push(own)?;
        }
        Ok(Spread {
            table: Table::new(alloc)?,
            places,
            has_news: false,
        })
    }

    /// What is found of a place.
    fn place_at(&self, proc: usize, place: usize) -> Place {
        place_among(&self.places, proc, place)
    }

    /// The list of notes at a place, where it is known; where no run comes, that without notes.
    pub(crate) fn notes_at(&self, proc: usize, place: usize) -> Option<u32> {
        let known = self.place_at(proc, place);
        if known.reached {
            known.notes
        } else {
            Some(NO_NOTES)
        }
    }

    /// Sets what is found of a place, if it is there.
    fn set_place(&mut self, proc: usize, place: usize, found: Place) {
        if let Some(places) = self.places.get_mut(proc) {
            if let Some(known) = places.get_mut(place) {
                *known = found;
            }
        }
    }

    /// Sets which new procedure stands for the `Play` at a place.
    pub(crate) fn set_player(&mut self, proc: usize, place: usize, player: u32) {
        let mut found = self.place_at(proc, place);
        found.player = Some(player);
        self.set_place(proc, place, found);
    }

    /// A run comes to a place with these notes, where they are known.
    fn arrive(&mut self, proc: usize, place: usize, notes: Option<u32>, played: bool) {
        let mut found = self.place_at(proc, place);
        if !found.reached {
            found.reached = true;
            found.notes = notes;
            found.played = played;
        } else if (found.notes.is_some() && found.notes != notes) || (played && !found.played) {
            if found.notes != notes {
                found.notes = None;
            }
            found.played = found.played || played;
        } else {
            return;
        }
        self.set_place(proc, place, found);
        self.has_news = true;
    }

    /// A run comes to the begin of a procedure that is its own base.
    fn arrive_as_base(&mut self, proc: u32) {
        self.arrive(proc as usize, 0, Some(NO_NOTES), false);
    }

    /// The notes once one more is there.
    fn with_note(
        &mut self,
        alloc: Global,
        notes: Option<u32>,
        note: Option<u32>,
    ) -> Result<Option<u32>, Memory> {
        match (notes, note) {
            (Some(list), Some(proc)) => self.table.with_note(alloc, list, proc),
            (Some(list), None) => Ok(Some(list)),
            (None, _) => Ok(None),
        }
    }

    /// The notes of a list are run.
    fn arrive_at_notes(&mut self, list: u32) {
        for place in 0..NOTE_LIMIT {
            let Some(note) = self.table.notes(list).get(place).copied() else {
                return;
            };
            self.arrive_as_base(note);
        }
    }

    /// The start and a reaction begin.
    pub(crate) fn begin(&mut self, raw: &RawCode) {
        self.arrive_as_base(raw.start);
        self.arrive_as_base(raw.react);
    }

    /// Where a run goes from an instruction at a place to which it comes.
    fn spread_from(
        &mut self,
        alloc: Global,
        proc: usize,
        place: usize,
        known: Place,
        instr: &Instr,
    ) -> Result<(), Memory> {
        let next = past(place, 0);
        match instr {
            Instr::Unless(over, _) => {
                self.arrive(proc, next, known.notes, known.played);
                self.arrive(proc, past(place, *over), known.notes, known.played);
            }
            Instr::Skip(over) => self.arrive(proc, past(place, *over), known.notes, known.played),
            Instr::Call(callee, note) | Instr::Visit(callee, note) => {
                let longer = self.with_note(alloc, known.notes, *note)?;
                self.arrive(*callee as usize, 0, longer, false);
                self.arrive(proc, next, known.notes, known.played);
            }
            Instr::SendTo(_, _, callee) => {
                self.arrive_as_base(*callee);
                self.arrive(proc, next, known.notes, known.played);
            }
            Instr::Play => {
                if let Some(list) = known.notes {
                    self.arrive_at_notes(list);
                }
                self.arrive(proc, next, known.notes, true);
            }
            Instr::Begin => self.arrive(proc, next, Some(NO_NOTES), known.played),
            Instr::Ret(_) => {}
            Instr::Assign(_, _)
            | Instr::Emit(_)
            | Instr::Mark(_)
            | Instr::Clear(_)
            | Instr::Keep(_)
            | Instr::Send(_)
            | Instr::Home(_)
            | Instr::Pass => self.arrive(proc, next, known.notes, known.played),
        }
        Ok(())
    }

    /// Goes over a procedure once.
    fn spread_in(&mut self, alloc: Global, proc: usize, instrs: &[Instr]) -> Result<(), Memory> {
        for (place, instr) in instrs.iter().enumerate() {
            let known = self.place_at(proc, place);
            if known.reached {
                self.spread_from(alloc, proc, place, known, instr)?;
            }
        }
        Ok(())
    }

    /// Goes over all procedures once, from the last one on, since calls go to lower ones.
    fn spread_once(&mut self, alloc: Global, procs: &[List<Instr>]) -> Result<(), Memory> {
        self.has_news = false;
        for proc in (0..procs.len()).rev() {
            self.spread_in(alloc, proc, procs[proc].items())?;
        }
        Ok(())
    }

    /// Goes over the code until there is no news, or often enough.
    pub(crate) fn spread(&mut self, alloc: Global, raw: &RawCode) -> Result<(), Memory> {
        for _ in 0..ROUNDS {
            self.spread_once(alloc, raw.procs.items())?;
            if !self.has_news {
                return Ok(());
            }
        }
        Ok(())
    }
}
