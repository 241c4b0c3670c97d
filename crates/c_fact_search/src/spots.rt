//! The places of which something may be known.
use crate::marks::Marks;
use c_facts::{Home, Place, Row, Rows, Sets};
use c_subset::Width;
use flow_base::Memory;
use std::alloc::Global;

/// A place of which something may be known, the width of its field, and its home.
#[derive(Clone, Copy)]
pub struct Spot {
    /// The place.
    pub place: Place,
    /// The width of its field.
    pub width: Width,
    /// Its home.
    pub home: Home,
}

/// Whether both places are the same.
pub fn is_same(first: Place, second: Place) -> bool {
    match first {
        Place::Field(own) => match second {
            Place::Field(other) => own == other,
            Place::Bit(_, _) => false,
        },
        Place::Bit(own, bit) => match second {
            Place::Field(_) => false,
            Place::Bit(other, other_bit) => own == other && bit == other_bit,
        },
    }
}

/// For each spot that of its home, if there is one.
pub fn homes_of(alloc: Global, spots: &[Spot]) -> Result<Vec<usize>, Memory> {
    let mut homes = Vec::new(alloc);
    for (number, spot) in spots.iter().enumerate() {
        homes.push(number_of(spots, spot.home.place, number))?;
    }
    Ok(homes)
}

/// The number of the spot of a place, or another one.
fn number_of(spots: &[Spot], place: Place, otherwise: usize) -> usize {
    for (number, spot) in spots.iter().enumerate() {
        if is_same(spot.place, place) {
            return number;
        }
    }
    otherwise
}

/// Adds a spot, its home, the home of that, and so on.
pub fn add_with_homes(wanted: &mut Marks, homes: &[usize], spot: usize) {
    let mut own = spot;
    for _ in 0..homes.len() {
        if wanted.has(own) {
            return;
        }
        wanted.add(own);
        match homes.get(own) {
            Some(home) => own = *home,
            None => return,
        }
    }
}

/// A row of a spot of which nothing is known.
fn row_of(spot: Spot) -> Row {
    Row {
        place: spot.place,
        width: spot.width,
        home: spot.home,
        sets: Sets::Anything,
    }
}

/// Rows of the wanted spots, in their order, of which nothing is known.
pub fn rows_of(alloc: Global, spots: &[Spot], wanted: &Marks) -> Result<Rows, Memory> {
    let mut rows = Rows::End;
    for number in (0..spots.len()).rev() {
        if wanted.has(number) {
            let holder = Box::new(alloc, rows)?;
            rows = Rows::More(row_of(spots[number]), holder);
        }
    }
    Ok(rows)
}
