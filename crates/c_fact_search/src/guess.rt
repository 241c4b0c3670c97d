//! What the search supposes between events: that each state is active at some time. It would find
//! most of it one state at a time, and where that isn't so a little less is known.
use crate::spots::{Spot, is_same};
use c_facts::{Known, Numbers, Place, Row, Rows, Sets, constant_of};
use c_subset::{Bitwise, CExpr, Function, Line};
use flow_base::Memory;
use std::alloc::Global;
use std::mem;

/// Whether a number is one of these.
fn is_in(number: u32, numbers: &Numbers) -> bool {
    match numbers {
        Numbers::Empty => false,
        Numbers::One(first, rest) => *first == number || is_in(number, rest),
    }
}

/// Adds a number.
fn add_number(alloc: Global, numbers: &mut Numbers, number: u32) -> Result<(), Memory> {
    if number != 0 && !is_in(number, numbers) {
        let others = mem::replace(numbers, Numbers::Empty);
        *numbers = Numbers::One(number, Box::new(alloc, others)?);
    }
    Ok(())
}

/// The number that a place gets where a number is put into its field, or these bits are set in it.
fn put_number(place: Place, field: u32, number: u32, sets_bits: bool) -> u32 {
    match place {
        Place::Field(own) => {
            if own == field && !sets_bits {
                number
            } else {
                0
            }
        }
        Place::Bit(own, bit) => {
            if own == field && sets_bits && bit < 32 {
                (number >> bit) % 2
            } else {
                0
            }
        }
    }
}

/// Adds what a store of a number puts into places.
fn add_put(
    alloc: Global,
    spots: &[Spot],
    found: &mut [Numbers],
    field: u32,
    number: u32,
    sets_bits: bool,
) -> Result<(), Memory> {
    for (place, spot) in spots.iter().enumerate() {
        if let Some(numbers) = found.get_mut(place) {
            add_number(
                alloc,
                numbers,
                put_number(spot.place, field, number, sets_bits),
            )?;
        }
    }
    Ok(())
}

/// Adds what `m->f = e;` puts into places.
fn add_store(
    alloc: Global,
    spots: &[Spot],
    found: &mut [Numbers],
    field: u32,
    expr: &CExpr,
) -> Result<(), Memory> {
    match expr {
        CExpr::Const(..) => match constant_of(expr) {
            Some(constant) => add_put(alloc, spots, found, field, constant.number, false),
            None => Ok(()),
        },
        CExpr::Bits(Bitwise::BitOr, _, right) => match constant_of(right) {
            Some(constant) => add_put(alloc, spots, found, field, constant.number, true),
            None => Ok(()),
        },
        CExpr::Field(..)
        | CExpr::Element(..)
        | CExpr::Local(..)
        | CExpr::Cast(..)
        | CExpr::Minus(..)
        | CExpr::Bang(..)
        | CExpr::Calc(..)
        | CExpr::Divide(..)
        | CExpr::Bits(..)
        | CExpr::Compare(..)
        | CExpr::Both(..)
        | CExpr::Either(..)
        | CExpr::Choose(..) => Ok(()),
    }
}

/// Adds what lines put into places.
fn add_lines(
    alloc: Global,
    spots: &[Spot],
    found: &mut [Numbers],
    lines: &[Line],
) -> Result<(), Memory> {
    for line in lines {
        if let Line::Store(field, expr) = line {
            add_store(alloc, spots, found, *field, expr)?;
        }
    }
    Ok(())
}

/// For each spot the numbers that are put there, but 0.
fn numbers_put(
    alloc: Global,
    functions: &[Function],
    spots: &[Spot],
) -> Result<Vec<Numbers>, Memory> {
    let mut found = Vec::new(alloc);
    for _ in spots {
        found.push(Numbers::Empty)?;
    }
    for function in functions {
        add_lines(alloc, spots, &mut found, function.lines.items())?;
    }
    Ok(found)
}

/// One number, or none.
fn only_if(alloc: Global, number: u32, is_there: bool) -> Result<Numbers, Memory> {
    if is_there {
        Ok(Numbers::One(number, Box::new(alloc, Numbers::Empty)?))
    } else {
        Ok(Numbers::Empty)
    }
}

/// What is supposed of a spot: where its home has its number it has one of these. A spot that is its
/// own home has one of these where it hasn't. Of the other case nothing is supposed but what must be
/// there if nothing else is known.
fn sets_of(alloc: Global, spot: Spot, numbers: Numbers, is_alone: bool) -> Result<Sets, Memory> {
    let is_own = is_same(spot.place, spot.home.place);
    let number = if is_own { spot.home.value } else { 0 };
    match only_if(alloc, number, is_alone) {
        Err(Memory) => {
            drop(numbers);
            Err(Memory)
        }
        Ok(other) => {
            if is_own {
                Ok(Sets::OneOf(other, numbers))
            } else {
                Ok(Sets::OneOf(numbers, other))
            }
        }
    }
}

/// What is supposed between events, beside what is known or alone.
pub fn supposed(
    alloc: Global,
    functions: &[Function],
    spots: &[Spot],
    is_alone: bool,
) -> Result<Known, Memory> {
    let mut numbers = numbers_put(alloc, functions, spots)?;
    let mut rows = Rows::End;
    for spot in spots.iter().rev() {
        let own = match numbers.pop() {
            None => Numbers::Empty,
            Some(found) => found,
        };
        let sets = sets_of(alloc, *spot, own, is_alone)?;
        let row = Row {
            place: spot.place,
            width: spot.width,
            home: spot.home,
            sets,
        };
        rows = Rows::More(row, Box::new(alloc, rows)?);
    }
    Ok(Known::Of(rows))
}
