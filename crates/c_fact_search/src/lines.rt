//! The lines of a function are gone through as the check goes through its statements, and what the
//! check would ask of the plan is added to what is found.
use crate::found::Found;
use c_decided::{
    Facts, after_set, after_store, all_of, alone, brought, by_value, copied_facts, framed_by,
    is_nowhere, joined_facts, test,
};
use c_facts::{Known, Place, Places, Rows, may_store};
use c_subset::{CExpr, CType, Case, Line};
use flow_base::Memory;
use std::alloc::Global;
use std::mem;

/// The function whose lines these are.
#[derive(Clone, Copy)]
pub struct Own {
    /// Its number.
    pub number: usize,
    /// The type of what it returns.
    pub result: CType,
    /// Whether it stays as it is.
    pub stays: bool,
}

/// A block that is open.
#[derive(Drop)]
enum Open {
    /// The first part of an `if`, and what is known where the test comes out the other way.
    First(Facts),
    /// The second part, and what is known after the first one.
    Second(Facts),
    /// A turn of a loop, and what is known after it.
    Turn(Facts),
}

/// How far lines are gone through.
#[derive(Drop)]
pub struct Walk {
    /// What is known there.
    facts: Facts,
    /// The blocks that are open, the innermost last.
    open: Vec<Open>,
}

/// No run comes here.
fn nowhere() -> Facts {
    alone(Known::Never)
}

/// `m->f = e;` changes a place: a bit of which something is to be known, or the field.
fn stored_place(
    alloc: Global,
    rows: &Rows,
    field: u32,
    expr: &CExpr,
    known: &Known,
) -> Result<Place, Memory> {
    match rows {
        Rows::End => Ok(Place::Field(field)),
        Rows::More(row, rest) => {
            if is_bit_of(row.place, field) {
                let only = Places::One(row.place, Box::new(alloc, Places::Empty)?);
                if may_store(&only, field, expr, known) {
                    return Ok(row.place);
                }
            }
            stored_place(alloc, rest, field, expr, known)
        }
    }
}

/// Whether it is a bit of that field.
fn is_bit_of(place: Place, field: u32) -> bool {
    match place {
        Place::Field(_) => false,
        Place::Bit(own, _) => own == field,
    }
}

/// `m->f = e;`
fn store(
    alloc: Global,
    found: &mut Found,
    own: Own,
    field: u32,
    expr: &CExpr,
    facts: &Facts,
) -> Result<Facts, Memory> {
    let known = all_of(alloc, &facts.by)?;
    let place = match found.find(own.number) {
        None => Place::Field(field),
        Some(other) => stored_place(alloc, &other.wanted, field, expr, &known)?,
    };
    found.touch(alloc, own.number, place)?;
    after_store(alloc, field, expr, facts)
}

/// After a call, by what is found of the callee so far, which begins where this is known.
fn call(
    alloc: Global,
    found: &mut Found,
    own: Own,
    of: CType,
    local: u32,
    function: u32,
    facts: &Facts,
) -> Result<Facts, Memory> {
    let callee = function as usize;
    let known = all_of(alloc, &facts.by)?;
    found.begin(alloc, callee, &known)?;
    found.touch_all(alloc, own.number, callee)?;
    let Some(other) = found.find(callee) else {
        return Ok(alone(Known::Of(Rows::End)));
    };
    let left = framed_by(alloc, &known, &other.touched, &other.leaves)?;
    let by = brought(alloc, of, &left)?;
    Ok(Facts { of, local, by })
}

/// After the call of one of these functions, or of none.
fn select(
    alloc: Global,
    found: &mut Found,
    own: Own,
    of: CType,
    local: u32,
    cases: &[Case],
    facts: &Facts,
) -> Result<Facts, Memory> {
    let mut after = copied_facts(alloc, facts)?;
    for case in cases.iter().rev() {
        let one = call(alloc, found, own, of, local, case.function, facts)?;
        after = joined_facts(alloc, &one, &after)?;
    }
    Ok(after)
}

/// `return e;`
fn leave(
    alloc: Global,
    found: &mut Found,
    own: Own,
    expr: &CExpr,
    facts: &Facts,
) -> Result<(), Memory> {
    let value = by_value(alloc, expr, facts)?;
    let by = brought(alloc, own.result, &value)?;
    found.leave(alloc, own.number, &by)
}

impl Walk {
    /// No line is gone through yet.
    pub fn new(alloc: Global, begins: Known) -> Walk {
        Walk {
            facts: alone(begins),
            open: Vec::new(alloc),
        }
    }

    /// A function begins where the lines stand now. Whether it is to be gone through first.
    fn meet(&self, alloc: Global, found: &mut Found, callee: usize) -> Result<bool, Memory> {
        if found.is_met(callee) || is_nowhere(&self.facts.by) {
            return Ok(false);
        }
        let known = all_of(alloc, &self.facts.by)?;
        found.begin(alloc, callee, &known)?;
        Ok(found.is_due(callee))
    }

    /// The first of these functions that is to be gone through first.
    fn first_new(
        &self,
        alloc: Global,
        found: &mut Found,
        cases: &[Case],
    ) -> Result<Option<usize>, Memory> {
        for case in cases {
            let callee = case.function as usize;
            if self.meet(alloc, found, callee)? {
                return Ok(Some(callee));
            }
        }
        Ok(None)
    }

    /// The function that is to be gone through before a line: one that it calls, to which a run
    /// comes, and which wasn't gone through yet.
    pub fn new_callee(
        &self,
        alloc: Global,
        found: &mut Found,
        line: &Line,
    ) -> Result<Option<usize>, Memory> {
        match line {
            Line::Call(_, _, function, _) => {
                let callee = *function as usize;
                if self.meet(alloc, found, callee)? {
                    Ok(Some(callee))
                } else {
                    Ok(None)
                }
            }
            Line::Select(_, _, _, cases, _) => self.first_new(alloc, found, cases.items()),
            Line::Set(..)
            | Line::Store(..)
            | Line::StoreAt(..)
            | Line::If(..)
            | Line::Else
            | Line::While(..)
            | Line::Close
            | Line::Return(..) => Ok(None),
        }
    }

    /// `if (e) {`
    fn ask(&mut self, alloc: Global, own: Own, expr: &CExpr) -> Result<(), Memory> {
        let no = test(alloc, false, expr, &self.facts)?;
        if !own.stays && is_nowhere(&no.by) {
            self.open.push(Open::First(nowhere()))?;
            return Ok(());
        }
        let yes = test(alloc, true, expr, &self.facts)?;
        if !own.stays && is_nowhere(&yes.by) {
            let facts = mem::replace(&mut self.facts, nowhere());
            self.open.push(Open::First(facts))?;
            return Ok(());
        }
        self.facts = yes;
        self.open.push(Open::First(no))?;
        Ok(())
    }

    /// `while (e) {`
    fn begin_loop(&mut self, alloc: Global, expr: &CExpr) -> Result<(), Memory> {
        if is_nowhere(&self.facts.by) {
            self.open.push(Open::Turn(nowhere()))?;
            return Ok(());
        }
        let nothing = alone(Known::Of(Rows::End));
        self.facts = test(alloc, true, expr, &nothing)?;
        let over = test(alloc, false, expr, &nothing)?;
        self.open.push(Open::Turn(over))?;
        Ok(())
    }

    /// `} else {`
    fn turn_over(&mut self) -> Result<(), Memory> {
        if let Some(open) = self.open.pop() {
            match open {
                Open::First(other) => {
                    let after = mem::replace(&mut self.facts, other);
                    self.open.push(Open::Second(after))?;
                }
                Open::Second(_) | Open::Turn(_) => {}
            }
        }
        Ok(())
    }

    /// `}`
    fn close(&mut self, alloc: Global) -> Result<(), Memory> {
        match self.open.pop() {
            None => {}
            Some(Open::First(other)) => {
                self.facts = joined_facts(alloc, &self.facts, &other)?;
            }
            Some(Open::Second(first)) => {
                self.facts = joined_facts(alloc, &first, &self.facts)?;
            }
            Some(Open::Turn(after)) => self.facts = after,
        }
        Ok(())
    }

    /// A line where a run comes.
    fn reach(
        &mut self,
        alloc: Global,
        found: &mut Found,
        own: Own,
        line: &Line,
    ) -> Result<(), Memory> {
        match line {
            Line::Set(of, local, expr) => {
                self.facts = after_set(alloc, *of, *local, expr, &self.facts)?;
            }
            Line::Store(field, expr) => {
                self.facts = store(alloc, found, own, *field, expr, &self.facts)?;
            }
            Line::Call(of, local, function, _) => {
                self.facts = call(alloc, found, own, *of, *local, *function, &self.facts)?;
            }
            Line::Select(of, local, _, cases, _) => {
                self.facts = select(alloc, found, own, *of, *local, cases.items(), &self.facts)?;
            }
            Line::Return(expr) => {
                leave(alloc, found, own, expr, &self.facts)?;
                self.facts = nowhere();
            }
            Line::StoreAt(..) | Line::If(..) | Line::Else | Line::While(..) | Line::Close => {}
        }
        Ok(())
    }

    /// A line.
    pub fn step(
        &mut self,
        alloc: Global,
        found: &mut Found,
        own: Own,
        line: &Line,
    ) -> Result<(), Memory> {
        match line {
            Line::If(expr) => self.ask(alloc, own, expr),
            Line::While(expr) => self.begin_loop(alloc, expr),
            Line::Else => self.turn_over(),
            Line::Close => self.close(alloc),
            Line::Set(..)
            | Line::Store(..)
            | Line::StoreAt(..)
            | Line::Call(..)
            | Line::Select(..)
            | Line::Return(..) => {
                if is_nowhere(&self.facts.by) {
                    Ok(())
                } else {
                    self.reach(alloc, found, own, line)
                }
            }
        }
    }
}
