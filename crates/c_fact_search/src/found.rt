//! What is found so far of each function: where it begins, what it leaves, and what it may change.
use crate::calls::FunctionCall;
use crate::keeping::{kept, kept_by};
use c_decided::{ByNumber, Cases, FunctionFacts, covers_by, joined_by};
use c_facts::{Known, Place, Places, Rows, all_covered, covers, is_covered, joined};
use flow_base::Memory;
use std::alloc::Global;
use std::mem;

/// What is found of a function.
#[derive(Drop)]
pub struct Facts {
    /// Where it begins.
    pub begins: Known,
    /// Where it returns, by the number that it returns.
    pub leaves: ByNumber,
    /// The places that it and the functions that it calls may change.
    pub touched: Places,
    /// How many places these are.
    pub places: u64,
    /// The places of which something is to be known.
    pub wanted: Rows,
    /// The functions that call it.
    pub callers: Vec<usize>,
    /// Whether it was gone through.
    pub is_met: bool,
    /// Whether it is to be gone through again.
    pub is_due: bool,
    /// Whether what it leaves or changes grew.
    pub grew: bool,
}

/// What is found so far.
#[derive(Drop)]
pub struct Found {
    /// Of each function.
    functions: Vec<Facts>,
    /// So much work may be done yet.
    left: u64,
}

/// So much work is done at most: some seconds.
const MOST_WORK: u64 = 15_000_000;

/// No run comes to a function.
fn unmet(alloc: Global, wanted: Rows) -> Facts {
    Facts {
        begins: Known::Never,
        leaves: ByNumber {
            cases: Cases::End,
            others: Known::Never,
        },
        touched: Places::Empty,
        places: 0,
        wanted,
        callers: Vec::new(alloc),
        is_met: false,
        is_due: false,
        grew: false,
    }
}

/// Adds a call to what is found.
fn add_caller(functions: &mut [Facts], call: FunctionCall) -> Result<(), Memory> {
    if let Some(own) = functions.get_mut(call.callee) {
        own.callers.push(call.caller)?;
    }
    Ok(())
}

impl Found {
    ghost use Rattle.std.specs.Prelude.{◌≡◌};

    /// Nothing is found: no run comes to any function.
    pub fn new(alloc: Global, wanted: Vec<Rows>, calls: &[FunctionCall]) -> Result<Found, Memory> {
        let mut functions = Vec::new(alloc);
        for rows in wanted {
            functions.push(unmet(alloc, rows))?;
        }
        for call in calls {
            add_caller(&mut functions, *call)?;
        }
        Ok(Found {
            functions,
            left: MOST_WORK,
        })
    }

    /// What is found of a function.
    pub fn find(&self, function: usize) -> Option<&Facts> {
        self.functions.get(function)
    }

    /// Whether a function is to be gone through again: only once.
    pub fn take_due(&mut self, function: usize) -> bool {
        match self.functions.get_mut(function) {
            None => false,
            Some(own) => {
                let was = own.is_due;
                own.is_due = false;
                own.is_met = true;
                was
            }
        }
    }

    /// Whether a function is to be gone through again.
    pub fn is_due(&self, function: usize) -> bool {
        match self.find(function) {
            None => false,
            Some(own) => own.is_due,
        }
    }

    /// Whether a function was gone through, or isn't there.
    pub fn is_met(&self, function: usize) -> bool {
        match self.find(function) {
            None => true,
            Some(own) => own.is_met,
        }
    }

    /// How many places a function may change.
    pub fn places(&self, function: usize) -> u64 {
        match self.find(function) {
            None => 0,
            Some(own) => own.places,
        }
    }

    /// Does so much work. Whether it may be done.
    pub fn spend(&mut self, work: u64) -> bool {
        self.left = self.left.saturating_sub(work);
        self.left != 0
    }

    /// Whether no more work may be done.
    pub fn is_spent(&self) -> bool {
        self.left == 0
    }

    /// A function is to be gone through again.
    fn set_due(&mut self, function: usize) {
        if let Some(own) = self.functions.get_mut(function) {
            own.is_due = true;
        }
    }

    /// A function begins where this is known too.
    pub fn begin(&mut self, alloc: Global, function: usize, known: &Known) -> Result<(), Memory> {
        if let Some(own) = self.functions.get_mut(function) {
            if !covers(known, &own.begins) {
                let more = kept(alloc, known, &own.wanted)?;
                let all = joined(alloc, &own.begins, &more)?;
                own.begins = kept(alloc, &all, &own.wanted)?;
                own.is_due = true;
            }
        }
        Ok(())
    }

    /// A function returns where this is known too, by the number that it returns.
    pub fn leave(&mut self, alloc: Global, function: usize, by: &ByNumber) -> Result<(), Memory> {
        if let Some(own) = self.functions.get_mut(function) {
            if !covers_by(by, &own.leaves) {
                let more = kept_by(alloc, by, &own.wanted)?;
                let all = joined_by(alloc, &own.leaves, &more)?;
                own.leaves = kept_by(alloc, &all, &own.wanted)?;
                own.grew = true;
            }
        }
        Ok(())
    }

    /// A function may change a place too.
    pub fn touch(&mut self, alloc: Global, function: usize, place: Place) -> Result<(), Memory> {
        if let Some(own) = self.functions.get_mut(function) {
            if !is_covered(&own.touched, place) {
                add(alloc, &mut own.touched, place)?;
                own.places = own.places.saturating_add(1);
                own.grew = true;
            }
        }
        Ok(())
    }

    /// The caller may change what the callee may.
    pub fn touch_all(&mut self, alloc: Global, caller: usize, callee: usize) -> Result<(), Memory> {
        let Some(own) = self.find(caller) else {
            return Ok(());
        };
        let Some(other) = self.find(callee) else {
            return Ok(());
        };
        if all_covered(&other.touched, &own.touched) {
            return Ok(());
        }
        let places = list_of(alloc, &other.touched)?;
        for place in places {
            self.touch(alloc, caller, place)?;
        }
        Ok(())
    }

    /// Whether what a function leaves or changes grew: only once.
    fn take_grew(&mut self, function: usize) -> bool {
        match self.functions.get_mut(function) {
            None => false,
            Some(own) => {
                let was = own.grew;
                own.grew = false;
                was
            }
        }
    }

    /// A function that calls another one, by its place among those.
    fn caller_at(&self, function: usize, place: usize) -> Option<usize> {
        let own = self.find(function)?;
        own.callers.get(place).copied()
    }

    /// How many functions call another one.
    fn caller_count(&self, function: usize) -> usize {
        match self.find(function) {
            None => 0,
            Some(own) => own.callers.len(),
        }
    }

    /// The callers of a function are to be gone through again, if what it leaves or changes grew.
    pub fn tell_callers(&mut self, function: usize) {
        if self.take_grew(function) {
            for place in 0..self.caller_count(function) {
                if let Some(caller) = self.caller_at(function, place) {
                    self.set_due(caller);
                }
            }
        }
    }

    /// The functions come in the other order.
    pub fn turn_round(&mut self) {
        self.functions.reverse();
    }

    /// What is found of the last function, which goes. To one that isn't there no run comes.
    pub fn pop(&mut self, stays: bool) -> FunctionFacts
        ensures { result.stays ≡ stays }
    {
        match self.functions.pop() {
            None => FunctionFacts {
                begins: Known::Never,
                leaves: ByNumber {
                    cases: Cases::End,
                    others: Known::Never,
                },
                touched: Places::Empty,
                stays,
            },
            Some(own) => FunctionFacts {
                begins: own.begins,
                leaves: own.leaves,
                touched: own.touched,
                stays,
            },
        }
    }
}

/// The places, in their order.
fn list_of(alloc: Global, places: &Places) -> Result<Vec<Place>, Memory> {
    let mut made = Vec::new(alloc);
    put_places(places, &mut made)?;
    Ok(made)
}

/// Appends the places.
fn put_places(places: &Places, made: &mut Vec<Place>) -> Result<(), Memory> {
    match places {
        Places::Empty => Ok(()),
        Places::One(place, rest) => {
            made.push(*place)?;
            put_places(rest, made)
        }
    }
}

/// One more place.
fn add(alloc: Global, places: &mut Places, place: Place) -> Result<(), Memory> {
    let others = mem::replace(places, Places::Empty);
    *places = Places::One(place, Box::new(alloc, others)?);
    Ok(())
}
