//! The search for numbers that are enough: each one grows, place by place, until none has to.
use crate::numbers::{Counted, Mark};
use crate::parts::{brings, joined, mark_of, of_play};
use crate::search_limits::{COUNT_LIMIT, LOOK_LIMIT, ROUND_LIMIT};
use code_language::{Instr, RawCode};
use flow_base::{List, Memory};
use std::alloc::Global;

/// The numbers at all places so far.
#[derive(Drop)]
struct Search {
    /// What is counted.
    counted: Counted,
    /// The procedure of a reaction.
    react: u32,
    /// A row for each procedure.
    rows: Vec<Vec<Mark>>,
    /// Whether a number has grown in this round.
    has_grown: bool,
    /// Whether a number would pass the limit.
    is_over: bool,
}

impl Search {
    /// The numbers at a place.
    fn mark(&self, proc: usize, place: usize) -> Mark {
        mark_of(&self.rows, proc, place)
    }

    /// More is left at a place, if it was less.
    fn raise_left(&mut self, proc: usize, place: usize, left: u64) {
        if left > COUNT_LIMIT as u64 {
            self.is_over = true;
            return;
        }
        if let Some(row) = self.rows.get_mut(proc) {
            if let Some(mark) = row.get_mut(place) {
                if (mark.left as u64) < left {
                    mark.left = left as u32;
                    self.has_grown = true;
                }
            }
        }
    }

    /// More is owed at a place, if it was less.
    fn raise_owed(&mut self, proc: usize, place: usize, owed: u64) {
        if owed > COUNT_LIMIT as u64 {
            self.is_over = true;
            return;
        }
        if let Some(row) = self.rows.get_mut(proc) {
            if let Some(mark) = row.get_mut(place) {
                if (mark.owed as u64) < owed {
                    mark.owed = owed as u32;
                    self.has_grown = true;
                }
            }
        }
    }

    /// What is left at a place is made enough for its instruction and for another place.
    fn leave_enough(&mut self, proc: usize, place: usize, instr: &Instr, next: usize) {
        let owed = self.mark(proc, place).owed;
        let brought = brings(self.counted, &self.rows, self.react, owed, instr);
        let after = self.mark(proc, next).left as u64;
        let left = joined(self.counted, brought, after);
        self.raise_left(proc, place, left);
    }

    /// What is left at a place is made enough.
    fn leave(&mut self, proc: usize, place: usize, instr: &Instr) {
        let next = place.saturating_add(1);
        match instr {
            Instr::Unless(over, _) => {
                self.leave_enough(proc, place, instr, next);
                self.leave_enough(proc, place, instr, next.saturating_add(*over as usize));
            }
            Instr::Skip(over) => {
                self.leave_enough(proc, place, instr, next.saturating_add(*over as usize));
            }
            Instr::Ret(_) => {}
            Instr::Assign(_, _)
            | Instr::Emit(_)
            | Instr::Mark(_)
            | Instr::Clear(_)
            | Instr::Keep(_)
            | Instr::Call(_, _)
            | Instr::Visit(_, _)
            | Instr::Send(_)
            | Instr::SendTo(_, _, _)
            | Instr::Play
            | Instr::Home(_)
            | Instr::Begin
            | Instr::Pass => self.leave_enough(proc, place, instr, next),
        }
    }

    /// A called procedure owes enough.
    fn hand_on(&mut self, proc: usize, place: usize, callee: u32, note: Option<u32>) {
        let owed = self.mark(proc, place).owed as u64;
        let own = of_play(self.counted, &self.rows, note);
        let all = joined(self.counted, own, owed);
        self.raise_owed(callee as usize, 0, all);
    }

    /// The places after a place owe enough, and so does what is called there.
    fn owe(&mut self, proc: usize, place: usize, instr: &Instr) {
        let next = place.saturating_add(1);
        let owed = self.mark(proc, place).owed as u64;
        match instr {
            Instr::Unless(over, _) => {
                self.raise_owed(proc, next, owed);
                self.raise_owed(proc, next.saturating_add(*over as usize), owed);
            }
            Instr::Skip(over) => {
                self.raise_owed(proc, next.saturating_add(*over as usize), owed);
            }
            Instr::Call(callee, note) | Instr::Visit(callee, note) => {
                self.raise_owed(proc, next, owed);
                self.hand_on(proc, place, *callee, *note);
            }
            Instr::Begin | Instr::Ret(_) => {}
            Instr::Assign(_, _)
            | Instr::Emit(_)
            | Instr::Mark(_)
            | Instr::Clear(_)
            | Instr::Keep(_)
            | Instr::Send(_)
            | Instr::SendTo(_, _, _)
            | Instr::Play
            | Instr::Home(_)
            | Instr::Pass => self.raise_owed(proc, next, owed),
        }
    }

    /// Looks at all places once: at what is owed from the last procedure on, since calls go to
    /// lower ones, and then at what is left from the first one on.
    fn look(&mut self, procs: &[List<Instr>]) {
        for (proc, instrs) in procs.iter().enumerate().rev() {
            for (place, instr) in instrs.items().iter().enumerate() {
                self.owe(proc, place, instr);
            }
        }
        for (proc, instrs) in procs.iter().enumerate() {
            for (place, instr) in instrs.items().iter().enumerate().rev() {
                self.leave(proc, place, instr);
            }
        }
    }
}

/// A row of so many places, with nothing at them.
fn empty_row(alloc: Global, places: usize) -> Result<Vec<Mark>, Memory> {
    Ok(vec![in alloc; Mark { left: 0, owed: 0 }; places]?)
}

/// A row for each procedure, with nothing at its places.
fn empty_rows(alloc: Global, procs: &[List<Instr>]) -> Result<Vec<Vec<Mark>>, Memory> {
    let mut rows = Vec::new(alloc);
    for instrs in procs {
        let row = empty_row(alloc, instrs.items().len())?;
        rows.push(row)?;
    }
    Ok(rows)
}

/// How many rounds the search may take, at least one.
fn rounds_for(procs: &[List<Instr>]) -> usize {
    let mut places: usize = 1;
    for instrs in procs {
        places = places.saturating_add(instrs.items().len());
    }
    (LOOK_LIMIT / places.max(1)).clamp(1, ROUND_LIMIT)
}

/// Numbers at all places of the code, none where one would pass the limit. They are enough where
/// they were found in time.
pub(crate) fn find(
    alloc: Global,
    counted: Counted,
    code: &RawCode,
) -> Result<Option<Vec<Vec<Mark>>>, Memory> {
    let mut search = Search {
        counted,
        react: code.react,
        rows: empty_rows(alloc, code.procs.items())?,
        has_grown: false,
        is_over: false,
    };
    for _ in 0..rounds_for(code.procs.items()) {
        search.has_grown = false;
        search.look(code.procs.items());
        if search.is_over {
            return Ok(None);
        }
        if !search.has_grown {
            break;
        }
    }
    Ok(Some(search.rows))
}
