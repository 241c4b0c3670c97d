//! Of which places something is to be known in each function: of those that it or a function that it
//! calls reads or writes, and of their homes; but of none that no function asks for.
use crate::calls::FunctionCall;
use crate::marks::Marks;
use crate::spots::{Spot, add_with_homes, homes_of, rows_of};
use c_facts::{Place, Rows, constant_of};
use c_subset::{Bitwise, CExpr, Function, Line};
use flow_base::Memory;
use std::alloc::Global;
use std::mem;

/// The spots that a function reads or writes.
#[derive(Drop)]
struct Reads<'a> {
    /// All spots.
    spots: &'a [Spot],
    /// For each spot that of its home.
    homes: &'a [usize],
    /// The spots that are wanted so far.
    wanted: Marks,
}

/// Which bits of a field are read or written.
#[derive(Clone, Copy)]
enum Bits {
    /// All.
    All,
    /// Those of a mask.
    In(u32),
    /// Those that aren't in a mask.
    NotIn(u32),
}

/// Whether a bit is among them.
fn is_among(bits: Bits, bit: u32) -> bool {
    if bit >= 32 {
        return true;
    }
    match bits {
        Bits::All => true,
        Bits::In(mask) => (mask >> bit) % 2 == 1,
        Bits::NotIn(mask) => (mask >> bit) % 2 == 0,
    }
}

/// Whether a place is read or written where these bits of a field are.
fn is_read(place: Place, field: u32, bits: Bits) -> bool {
    match place {
        Place::Field(own) => own == field,
        Place::Bit(own, bit) => own == field && is_among(bits, bit),
    }
}

impl Reads<'_> {
    /// These bits of a field.
    fn add_field(&mut self, field: u32, bits: Bits) {
        for (number, spot) in self.spots.iter().enumerate() {
            if is_read(spot.place, field, bits) {
                add_with_homes(&mut self.wanted, self.homes, number);
            }
        }
    }

    /// Those of an expression.
    fn add_expr(&mut self, expr: &CExpr) {
        match expr {
            CExpr::Field(field) => self.add_field(*field, Bits::All),
            CExpr::Bits(op, left, right) => match masked_field(left, right) {
                Some(found) => self.add_field(found.field, read_bits(*op, found.mask)),
                None => {
                    self.add_expr(left);
                    self.add_expr(right);
                }
            },
            CExpr::Const(..) | CExpr::Local(..) => {}
            CExpr::Element(_, inner)
            | CExpr::Cast(_, inner)
            | CExpr::Minus(inner)
            | CExpr::Bang(inner) => self.add_expr(inner),
            CExpr::Calc(_, left, right)
            | CExpr::Divide(_, left, right)
            | CExpr::Compare(_, left, right)
            | CExpr::Both(left, right)
            | CExpr::Either(left, right) => {
                self.add_expr(left);
                self.add_expr(right);
            }
            CExpr::Choose(_, test, left, right) => {
                self.add_expr(test);
                self.add_expr(left);
                self.add_expr(right);
            }
        }
    }

    /// Those of `m->f = e;`, and those whose home it changes.
    fn add_store(&mut self, field: u32, expr: &CExpr) {
        let bits = changed_bits(field, expr);
        for (number, spot) in self.spots.iter().enumerate() {
            if is_read(spot.place, field, bits) || is_read(spot.home.place, field, bits) {
                add_with_homes(&mut self.wanted, self.homes, number);
            }
        }
    }

    /// Those of what a line asks.
    fn add_asked(&mut self, line: &Line) {
        match line {
            Line::Set(_, _, expr) | Line::If(expr) | Line::While(expr) | Line::Return(expr) => {
                self.add_expr(expr)
            }
            Line::Store(..)
            | Line::StoreAt(..)
            | Line::Call(..)
            | Line::Select(..)
            | Line::Else
            | Line::Close => {}
        }
    }

    /// Those of a line.
    fn add_line(&mut self, line: &Line) {
        if let Line::Store(field, expr) = line {
            self.add_store(*field, expr);
        }
        self.add_asked(line);
    }
}

/// A field and a mask.
#[derive(Clone, Copy)]
struct Masked {
    /// The field.
    field: u32,
    /// The mask.
    mask: u32,
}

/// The field and the mask of `m->f & C` or `m->f | C`.
fn masked_field(left: &CExpr, right: &CExpr) -> Option<Masked> {
    match left {
        CExpr::Field(field) => match constant_of(right) {
            Some(constant) => Some(Masked {
                field: *field,
                mask: constant.number,
            }),
            None => None,
        },
        CExpr::Const(..)
        | CExpr::Element(..)
        | CExpr::Local(..)
        | CExpr::Cast(..)
        | CExpr::Minus(..)
        | CExpr::Bang(..)
        | CExpr::Calc(..)
        | CExpr::Divide(..)
        | CExpr::Bits(..)
        | CExpr::Compare(..)
        | CExpr::Both(..)
        | CExpr::Either(..)
        | CExpr::Choose(..) => None,
    }
}

/// Which bits of a field `m->f & C` or `m->f | C` reads.
fn read_bits(op: Bitwise, mask: u32) -> Bits {
    match op {
        Bitwise::BitAnd => Bits::In(mask),
        Bitwise::BitOr => Bits::All,
    }
}

/// Which bits a mask changes in a field, if it is that which was masked.
fn masked_bits(field: u32, op: Bitwise, found: Option<Masked>) -> Bits {
    match found {
        None => Bits::All,
        Some(masked) => {
            if masked.field != field {
                return Bits::All;
            }
            match op {
                Bitwise::BitAnd => Bits::NotIn(masked.mask),
                Bitwise::BitOr => Bits::In(masked.mask),
            }
        }
    }
}

/// Which bits of a field `m->f = e;` changes.
fn changed_bits(field: u32, expr: &CExpr) -> Bits {
    match expr {
        CExpr::Bits(op, left, right) => masked_bits(field, *op, masked_field(left, right)),
        CExpr::Const(..)
        | CExpr::Field(..)
        | CExpr::Element(..)
        | CExpr::Local(..)
        | CExpr::Cast(..)
        | CExpr::Minus(..)
        | CExpr::Bang(..)
        | CExpr::Calc(..)
        | CExpr::Divide(..)
        | CExpr::Compare(..)
        | CExpr::Both(..)
        | CExpr::Either(..)
        | CExpr::Choose(..) => Bits::All,
    }
}

/// The spots that lines read or write.
fn own_spots(
    alloc: Global,
    spots: &[Spot],
    homes: &[usize],
    lines: &[Line],
) -> Result<Marks, Memory> {
    let wanted = Marks::new(alloc, spots.len())?;
    let mut reads = Reads {
        spots,
        homes,
        wanted,
    };
    for line in lines {
        reads.add_line(line);
    }
    Ok(reads.wanted)
}

/// The spots that functions ask for.
fn asked_spots(
    alloc: Global,
    spots: &[Spot],
    homes: &[usize],
    functions: &[Function],
) -> Result<Marks, Memory> {
    let wanted = Marks::new(alloc, spots.len())?;
    let mut reads = Reads {
        spots,
        homes,
        wanted,
    };
    for function in functions {
        for line in function.lines.items() {
            reads.add_asked(line);
        }
    }
    Ok(reads.wanted)
}

/// The caller wants what the callee does. Whether that is new.
fn hand_up(alloc: Global, wanted: &mut [Marks], call: FunctionCall) -> Result<bool, Memory> {
    if call.caller == call.callee {
        return Ok(false);
    }
    let none = Marks::new(alloc, 0)?;
    let Some(callee) = wanted.get_mut(call.callee) else {
        return Ok(false);
    };
    let more = mem::replace(callee, none);
    let is_new = match wanted.get_mut(call.caller) {
        Some(caller) => caller.add_all(&more),
        None => false,
    };
    if let Some(callee) = wanted.get_mut(call.callee) {
        *callee = more;
    }
    Ok(is_new)
}

/// The wanted spots of each function.
fn wanted_spots(
    alloc: Global,
    functions: &[Function],
    calls: &[FunctionCall],
    spots: &[Spot],
) -> Result<Vec<Marks>, Memory> {
    let homes = homes_of(alloc, spots)?;
    let asked = asked_spots(alloc, spots, &homes, functions)?;
    let mut wanted = Vec::new(alloc);
    for function in functions {
        let mut own = own_spots(alloc, spots, &homes, function.lines.items())?;
        own.keep_all(&asked);
        wanted.push(own)?;
    }
    for _ in 0..functions.len() {
        let mut is_new = false;
        for call in calls.iter().rev() {
            is_new = hand_up(alloc, &mut wanted, *call)? || is_new;
        }
        if !is_new {
            break;
        }
    }
    Ok(wanted)
}

/// Rows of the wanted spots of each function, of which nothing is known.
pub fn wanted_rows(
    alloc: Global,
    functions: &[Function],
    calls: &[FunctionCall],
    spots: &[Spot],
) -> Result<Vec<Rows>, Memory> {
    let mut rows = Vec::new(alloc);
    for wanted in wanted_spots(alloc, functions, calls, spots)? {
        rows.push(rows_of(alloc, spots, &wanted)?)?;
    }
    Ok(rows)
}
