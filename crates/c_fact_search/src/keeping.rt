//! What is known of the wanted places alone.
use c_decided::{ByNumber, Cases};
use c_facts::{Known, Numbers, Place, Row, Rows, Sets};
use flow_base::Memory;
use std::alloc::Global;

/// A set of more numbers is forgotten.
const MOST_NUMBERS: usize = 300;

/// Whether a place stands before another one.
fn is_before(first: Place, second: Place) -> bool {
    match first {
        Place::Field(own) => match second {
            Place::Field(other) => own < other,
            Place::Bit(other, _) => own <= other,
        },
        Place::Bit(own, bit) => match second {
            Place::Field(other) => own < other,
            Place::Bit(other, other_bit) => own < other || own == other && bit < other_bit,
        },
    }
}

/// Whether there are more numbers than so many.
fn are_more(numbers: &Numbers, most: usize) -> bool {
    match numbers {
        Numbers::Empty => false,
        Numbers::One(_, rest) => most == 0 || are_more(rest, most - 1),
    }
}

/// The same numbers.
fn copied_numbers(alloc: Global, numbers: &Numbers) -> Result<Numbers, Memory> {
    match numbers {
        Numbers::Empty => Ok(Numbers::Empty),
        Numbers::One(number, rest) => {
            let others = copied_numbers(alloc, rest)?;
            Ok(Numbers::One(*number, Box::new(alloc, others)?))
        }
    }
}

/// The same sets, or nothing where they have too many numbers.
fn kept_sets(alloc: Global, sets: &Sets) -> Result<Sets, Memory> {
    match sets {
        Sets::Anything => Ok(Sets::Anything),
        Sets::OneOf(on, off) => {
            if are_more(on, MOST_NUMBERS) || are_more(off, MOST_NUMBERS) {
                return Ok(Sets::Anything);
            }
            let first = copied_numbers(alloc, on)?;
            let second = copied_numbers(alloc, off)?;
            Ok(Sets::OneOf(first, second))
        }
    }
}

/// A row before others.
fn with_row(alloc: Global, row: &Row, rest: Rows) -> Result<Rows, Memory> {
    let sets = kept_sets(alloc, &row.sets)?;
    let own = Row {
        place: row.place,
        width: row.width,
        home: row.home,
        sets,
    };
    Ok(Rows::More(own, Box::new(alloc, rest)?))
}

/// The rows of the wanted places, where both are in the order of their places.
pub fn kept_rows(alloc: Global, rows: &Rows, wanted: &Rows) -> Result<Rows, Memory> {
    match rows {
        Rows::End => Ok(Rows::End),
        Rows::More(row, rest) => match wanted {
            Rows::End => Ok(Rows::End),
            Rows::More(own, others) => {
                if is_before(row.place, own.place) {
                    kept_rows(alloc, rest, wanted)
                } else if is_before(own.place, row.place) {
                    kept_rows(alloc, rows, others)
                } else {
                    let left = kept_rows(alloc, rest, others)?;
                    with_row(alloc, row, left)
                }
            }
        },
    }
}

/// What is known of the wanted places.
pub fn kept(alloc: Global, known: &Known, wanted: &Rows) -> Result<Known, Memory> {
    match known {
        Known::Never => Ok(Known::Never),
        Known::Of(rows) => Ok(Known::Of(kept_rows(alloc, rows, wanted)?)),
    }
}

/// What is known of the wanted places in each case.
fn kept_cases(alloc: Global, cases: &Cases, wanted: &Rows) -> Result<Cases, Memory> {
    match cases {
        Cases::End => Ok(Cases::End),
        Cases::Case(number, known, rest) => {
            let own = kept(alloc, known, wanted)?;
            let others = kept_cases(alloc, rest, wanted)?;
            Ok(Cases::Case(*number, own, Box::new(alloc, others)?))
        }
    }
}

/// What is known of the wanted places by a number.
pub fn kept_by(alloc: Global, by: &ByNumber, wanted: &Rows) -> Result<ByNumber, Memory> {
    let cases = kept_cases(alloc, &by.cases, wanted)?;
    let others = kept(alloc, &by.others, wanted)?;
    Ok(ByNumber { cases, others })
}

/// How many numbers there are.
fn count_of(numbers: &Numbers) -> u64 {
    match numbers {
        Numbers::Empty => 0,
        Numbers::One(_, rest) => count_of(rest).saturating_add(1),
    }
}

/// How much there is in sets.
fn weight_of(sets: &Sets) -> u64 {
    match sets {
        Sets::Anything => 1,
        Sets::OneOf(on, off) => count_of(on).saturating_add(count_of(off)).saturating_add(1),
    }
}

/// How much there is in rows.
fn weight_in(rows: &Rows) -> u64 {
    match rows {
        Rows::End => 1,
        Rows::More(row, rest) => weight_in(rest).saturating_add(weight_of(&row.sets)),
    }
}

/// How much is known: a measure of the work for a line where this is known.
pub fn weight(known: &Known) -> u64 {
    match known {
        Known::Never => 1,
        Known::Of(rows) => weight_in(rows),
    }
}
