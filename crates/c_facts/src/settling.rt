//! What places tell of those whose home they are, down from place to place.
ghost use Rattle.std.specs.Prelude.{◌≡◌, ◌∷◌, [], if◌then◌else◌, IfOk};
ghost use Rattle.c_facts.specs.Facts as spec;
ghost use Rattle.c_facts.specs.Views.{numbers_of, places_of, row_of, rows_of, sets_of};

use crate::known::{Numbers, Place, Places, Row, Rows, Sets};
use crate::places::same_place;
use crate::rows::{lowered, sets_at};
use crate::sets::sets_admit;
use flow_base::Memory;
use std::alloc::Global;

/// So many places are gone down from at most.
const MOST_SINKINGS: u32 = 200;

/// Whether there are numbers of a case that can't be.
fn are_idle(numbers: &Numbers, may: bool) -> bool
    ensures { result ≡ spec.are_idle may (numbers_of numbers.now) }
{
    if may {
        return false;
    }
    match numbers {
        Numbers::Empty => false,
        Numbers::One(_, _) => true,
    }
}

/// Whether the home tells something new: there are numbers of a case that can't be.
fn are_news(sets: &Sets, may: bool, other: bool) -> bool
    ensures { result ≡ spec.are_news may other (sets_of sets.now) }
{
    match sets {
        Sets::Anything => false,
        Sets::OneOf(on, off) => are_idle(on, may) || are_idle(off, other),
    }
}

/// Whether the sets of a place tell something new of a row, as its home.
fn is_told(row: &Row, place: Place, home: &Sets) -> bool
    ensures { result ≡ spec.is_told place (sets_of home.now) (row_of row.now) }
{
    if same_place(row.home.place, place) {
        let may = sets_admit(home, true, row.home.value);
        let other = sets_admit(home, false, row.home.value);
        are_news(&row.sets, may, other)
    } else {
        false
    }
}

/// Whether the sets of a place tell something new of some row.
fn some_told(rows: &Rows, place: Place, home: &Sets) -> bool
    ensures { result ≡ spec.some_told place (sets_of home.now) (rows_of rows.now) }
{
    match rows {
        Rows::End => false,
        Rows::More(row, rest) => is_told(row, place, home) || some_told(rest, place, home),
    }
}

/// A place before others.
pub fn with_place(alloc: Global, place: Place, rest: Places) -> Result<Places, Memory>
    ensures { IfOk result (λ all. places_of all ≡ place ∷ places_of rest) }
{
    match Box::new(alloc, rest) {
        Ok(holder) => Ok(Places::One(place, holder)),
        Err(refused) => {
            drop(refused);
            Err(Memory)
        }
    }
}

/// The places of which the sets of a place tell something new, before others.
fn told(
    alloc: Global,
    rows: &Rows,
    place: Place,
    home: &Sets,
    others: Places,
) -> Result<Places, Memory>
    ensures { IfOk result (λ all. places_of all
        ≡ spec.told place (sets_of home.now) (rows_of rows.now) (places_of others)) }
{
    match rows {
        Rows::End => Ok(others),
        Rows::More(row, rest) => {
            let more = told(alloc, rest, place, home, others)?;
            if is_told(row, place, home) {
                with_place(alloc, row.place, more)
            } else {
                Ok(more)
            }
        }
    }
}

/// Rows, and the places from which it goes on down.
#[derive(Drop)]
struct Sinking {
    /// The rows.
    rows: Rows,
    /// The places.
    places: Places,
}

/// What the sets of a place tell of the places whose home it is, and those before others.
fn all_lowered(
    alloc: Global,
    rows: &Rows,
    place: Place,
    home: &Sets,
    others: Places,
) -> Result<Sinking, Memory>
    ensures { IfOk result (λ left.
        (rows_of left.rows ≡ spec.lowered place (sets_of home.now) (rows_of rows.now))
        × (places_of left.places
        ≡ spec.told place (sets_of home.now) (rows_of rows.now) (places_of others))) }
{
    let places = told(alloc, rows, place, home, others)?;
    match lowered(alloc, rows, place, home) {
        Ok(low) => Ok(Sinking { rows: low, places }),
        Err(Memory) => {
            drop(places);
            Err(Memory)
        }
    }
}

/// What a place tells of those whose home it is, if that is something new.
fn lowered_at(
    alloc: Global,
    rows: Rows,
    place: Place,
    home: &Sets,
    others: Places,
) -> Result<Sinking, Memory>
    ensures { sets_of home.now ≡ spec.sets_at place (rows_of rows) → IfOk result (λ left.
        (rows_of left.rows ≡ spec.lowered_at place (rows_of rows))
        × (places_of left.places ≡ spec.told_at place (rows_of rows) (places_of others))) }
{
    if some_told(&rows, place, home) {
        let left = all_lowered(alloc, &rows, place, home, others);
        drop(rows);
        left
    } else {
        Ok(Sinking {
            rows,
            places: others,
        })
    }
}

/// What a place tells of those whose home it is, and the places from which it goes on down.
fn sunk_once(alloc: Global, rows: Rows, place: Place, others: Places) -> Result<Sinking, Memory>
    ensures { IfOk result (λ left.
        (rows_of left.rows ≡ spec.lowered_at place (rows_of rows))
        × (places_of left.places ≡ spec.told_at place (rows_of rows) (places_of others))) }
{
    match sets_at(alloc, &rows, place) {
        Ok(home) => lowered_at(alloc, rows, place, &home, others),
        Err(Memory) => {
            drop(rows);
            drop(others);
            Err(Memory)
        }
    }
}

/// Down from places, at most so many times: what each tells of the places whose home it is, and what
/// those then tell.
fn sunk(alloc: Global, rounds: u32, places: Places, rows: Rows) -> Result<Rows, Memory>
    ensures { IfOk result (λ left. rows_of left
        ≡ spec.sunk rounds (places_of places) (rows_of rows)) }
{
    if rounds == 0 {
        drop(places);
        return Ok(rows);
    }
    match places {
        Places::Empty => Ok(rows),
        Places::One(place, others) => {
            let left = sunk_once(alloc, rows, place, Box::into_inner(others))?;
            sunk(alloc, rounds - 1, left.places, left.rows)
        }
    }
}

/// Down from a place: what it tells of those whose home it is, and what those then tell.
pub fn sunk_from(alloc: Global, place: Place, rows: Rows) -> Result<Rows, Memory>
    ensures { IfOk result (λ left. rows_of left ≡ spec.sunk_from place (rows_of rows)) }
{
    match with_place(alloc, place, Places::Empty) {
        Ok(places) => sunk(alloc, MOST_SINKINGS, places, rows),
        Err(Memory) => {
            drop(rows);
            Err(Memory)
        }
    }
}

/// Down from each of these places.
pub fn settled(alloc: Global, places: &Places, rows: Rows) -> Result<Rows, Memory>
    ensures { IfOk result (λ left. rows_of left
        ≡ spec.settled (places_of places.now) (rows_of rows)) }
{
    match places {
        Places::Empty => Ok(rows),
        Places::One(place, rest) => {
            let left = sunk_from(alloc, *place, rows)?;
            settled(alloc, rest, left)
        }
    }
}
