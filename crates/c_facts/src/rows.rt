//! What is known of places.
ghost use Rattle.std.specs.Prelude.{◌≡◌, ◌∷◌, [], true, false, if◌then◌else◌, None, Some, IfOk};
ghost use Rattle.c_facts.specs.Known as known;
ghost use Rattle.c_facts.specs.Facts as spec;
ghost use Rattle.c_facts.specs.Views.{places_of, row_of, rows_of, sets_of};

use crate::known::{Home, News, Place, Places, Row, Rows, Sets, Written};
use crate::places::{change_at, field_of, same_home, same_place, same_width};
use crate::sets::{
    copied_sets, covers_sets, is_empty, is_known, joined_sets, kept_sets, lowered_sets, moved_sets,
    put_sets, sets_admit, tells,
};
use crate::settling::{settled, sunk_from, with_place};
use c_subset::Width;
use flow_base::Memory;
use std::alloc::Global;

/// A row before others.
pub fn more(alloc: Global, row: Row, rest: Rows) -> Result<Rows, Memory>
    ensures { IfOk result (λ all. rows_of all ≡ row_of row ∷ rows_of rest) }
{
    match Box::new(alloc, rest) {
        Ok(holder) => Ok(Rows::More(row, holder)),
        Err(refused) => {
            drop(refused);
            drop(row);
            Err(Memory)
        }
    }
}

/// A row of the same place.
pub fn with_sets(row: &Row, sets: Sets) -> Row
    ensures { row_of result ≡ record (row_of row.now) { sets = sets_of sets } }
{
    Row {
        place: row.place,
        width: row.width,
        home: row.home,
        sets,
    }
}

/// The same row.
pub fn copied_row(alloc: Global, row: &Row) -> Result<Row, Memory>
    ensures { IfOk result (λ copy. row_of copy ≡ row_of row.now) }
{
    let sets = copied_sets(alloc, &row.sets)?;
    Ok(with_sets(row, sets))
}

/// The same rows.
pub fn copied_rows(alloc: Global, rows: &Rows) -> Result<Rows, Memory>
    ensures { IfOk result (λ copy. rows_of copy ≡ rows_of rows.now) }
{
    match rows {
        Rows::End => Ok(Rows::End),
        Rows::More(row, rest) => {
            let others = copied_rows(alloc, rest)?;
            more(alloc, copied_row(alloc, row)?, others)
        }
    }
}

/// Whether both rows are of the same place and type.
pub fn same_row(first: &Row, second: &Row) -> bool
    ensures { result ≡ spec.same_row (row_of first.now) (row_of second.now) }
{
    same_place(first.place, second.place) && same_width(first.width, second.width)
}

/// The width of a field of which something is known.
pub fn width_at(rows: &Rows, field: u32) -> Option<Width>
    ensures { result ≡ spec.width_at field (rows_of rows.now) }
{
    match rows {
        Rows::End => None,
        Rows::More(row, rest) => {
            if field_of(row.place) == field {
                Some(row.width)
            } else {
                width_at(rest, field)
            }
        }
    }
}

/// Whether a field has a number.
pub fn is_numbered(rows: &Rows, field: u32) -> bool
    ensures { result ≡ spec.is_numbered field (rows_of rows.now) }
{
    match rows {
        Rows::End => false,
        Rows::More(row, rest) => {
            field_of(row.place) == field && is_known(&row.sets) || is_numbered(rest, field)
        }
    }
}

/// What is known of a place.
pub fn sets_at(alloc: Global, rows: &Rows, place: Place) -> Result<Sets, Memory>
    ensures { IfOk result (λ sets. sets_of sets ≡ spec.sets_at place (rows_of rows.now)) }
{
    match rows {
        Rows::End => Ok(Sets::Anything),
        Rows::More(row, rest) => {
            if same_place(row.place, place) {
                copied_sets(alloc, &row.sets)
            } else {
                sets_at(alloc, rest, place)
            }
        }
    }
}

/// A row, where a place has that number, or hasn't.
fn restricted_row(
    alloc: Global,
    row: &Row,
    way: bool,
    number: u32,
    place: Place,
) -> Result<Row, Memory>
    ensures { IfOk result (λ left. row_of left ≡ (if spec.same_place (row_of row.now).place place
        then record (row_of row.now) { sets = spec.kept_sets way number (row_of row.now).sets }
        else row_of row.now)) }
{
    if same_place(row.place, place) {
        let sets = kept_sets(alloc, &row.sets, way, number)?;
        Ok(with_sets(row, sets))
    } else {
        copied_row(alloc, row)
    }
}

/// Where a place has that number, or hasn't.
pub fn restricted(
    alloc: Global,
    rows: &Rows,
    way: bool,
    number: u32,
    place: Place,
) -> Result<Rows, Memory>
    ensures { IfOk result (λ left. rows_of left
        ≡ spec.restricted way number place (rows_of rows.now)) }
{
    match rows {
        Rows::End => Ok(Rows::End),
        Rows::More(row, rest) => {
            let others = restricted(alloc, rest, way, number, place)?;
            more(
                alloc,
                restricted_row(alloc, row, way, number, place)?,
                others,
            )
        }
    }
}

/// What the sets of its home tell of a row.
fn lowered_row(alloc: Global, row: &Row, home: &Sets) -> Result<Row, Memory>
    ensures { IfOk result (λ left. row_of left
        ≡ spec.lowered_row (sets_of home.now) (row_of row.now)) }
{
    let may = sets_admit(home, true, row.home.value);
    let other = sets_admit(home, false, row.home.value);
    let sets = lowered_sets(alloc, &row.sets, may, other)?;
    Ok(with_sets(row, sets))
}

/// What the sets of a place tell of a row, if the place is its home.
fn lowered_if(alloc: Global, row: &Row, place: Place, home: &Sets) -> Result<Row, Memory>
    ensures { IfOk result (λ left. row_of left
        ≡ (if spec.same_place (row_of row.now).home.place place
        then spec.lowered_row (sets_of home.now) (row_of row.now) else row_of row.now)) }
{
    if same_place(row.home.place, place) {
        lowered_row(alloc, row, home)
    } else {
        copied_row(alloc, row)
    }
}

/// What the sets of a place tell of the rows whose home it is.
pub fn lowered(alloc: Global, rows: &Rows, place: Place, home: &Sets) -> Result<Rows, Memory>
    ensures { IfOk result (λ left. rows_of left
        ≡ spec.lowered place (sets_of home.now) (rows_of rows.now)) }
{
    match rows {
        Rows::End => Ok(Rows::End),
        Rows::More(row, rest) => {
            let others = lowered(alloc, rest, place, home)?;
            more(alloc, lowered_if(alloc, row, place, home)?, others)
        }
    }
}

/// What a place tells of its home.
fn news_of(home: Home, told: Option<bool>) -> Option<News>
    ensures { result ≡ spec.news_of home told }
{
    match told {
        None => None,
        Some(way) => Some(News { home, way }),
    }
}

/// What a place tells of its home, if that isn't itself.
fn news(rows: &Rows, place: Place) -> Option<News>
    ensures { result ≡ spec.news place (rows_of rows.now) }
{
    match rows {
        Rows::End => None,
        Rows::More(row, rest) => {
            if !same_place(row.place, place) {
                news(rest, place)
            } else if same_place(row.home.place, place) {
                None
            } else {
                news_of(row.home, tells(&row.sets))
            }
        }
    }
}

/// Up from a place, at most so many times as there are rows of the first kind: what it tells goes
/// down, and then its home is what it tells of it.
pub fn climbed(alloc: Global, rounds: &Rows, place: Place, rows: Rows) -> Result<Rows, Memory>
    ensures { IfOk result (λ left. rows_of left
        ≡ spec.climbed (rows_of rounds.now) place (rows_of rows)) }
{
    let low = sunk_from(alloc, place, rows)?;
    match rounds {
        Rows::End => Ok(low),
        Rows::More(_, rest) => match news(&low, place) {
            None => Ok(low),
            Some(News { home, way }) => {
                let up = restricted(alloc, &low, way, home.value, home.place)?;
                climbed(alloc, rest, home.place, up)
            }
        },
    }
}

/// Whether no number is left of some place.
pub fn some_empty(rows: &Rows) -> bool
    ensures { result ≡ spec.some_empty (rows_of rows.now) }
{
    match rows {
        Rows::End => false,
        Rows::More(row, rest) => is_empty(&row.sets) || some_empty(rest),
    }
}

/// What holds of a place if one of both holds.
fn joined_row(alloc: Global, first: &Row, second: &Row) -> Result<Row, Memory>
    ensures { IfOk result (λ all. row_of all ≡ record (row_of first.now) {
      sets = spec.joined_sets (spec.same_home (row_of first.now).home (row_of second.now).home)
          (row_of first.now).sets (row_of second.now).sets;
    }) }
{
    let same = same_home(first.home, second.home);
    let sets = joined_sets(alloc, &first.sets, &second.sets, same)?;
    Ok(with_sets(first, sets))
}

/// What holds if one of both holds.
pub fn joined_rows(alloc: Global, first: &Rows, second: &Rows) -> Result<Rows, Memory>
    ensures { IfOk result (λ all. rows_of all
        ≡ spec.joined_rows (rows_of first.now) (rows_of second.now)) }
{
    match first {
        Rows::End => Ok(Rows::End),
        Rows::More(row, rest) => match second {
            Rows::End => Ok(Rows::End),
            Rows::More(other, other_rest) => {
                let others = joined_rows(alloc, rest, other_rest)?;
                if same_row(row, other) {
                    more(alloc, joined_row(alloc, row, other)?, others)
                } else {
                    Ok(others)
                }
            }
        },
    }
}

/// Whether the second rows hold where the first ones do.
pub fn covers_rows(first: &Rows, second: &Rows) -> bool
    ensures { result ≡ spec.covers_rows (rows_of first.now) (rows_of second.now) }
{
    match second {
        Rows::End => true,
        Rows::More(other, other_rest) => match first {
            Rows::End => false,
            Rows::More(row, rest) => {
                if same_row(row, other) {
                    covers_sets(&row.sets, &other.sets, same_home(row.home, other.home))
                        && covers_rows(rest, other_rest)
                } else {
                    covers_rows(rest, second)
                }
            }
        },
    }
}

/// A row after a field was written.
fn stored_row(alloc: Global, row: &Row, field: u32, written: Written) -> Result<Row, Memory>
    ensures { IfOk result (λ after. row_of after ≡ spec.stored_row field written (row_of row.now)) }
{
    let moved = change_at(field, written, row.home.place);
    let sets = moved_sets(alloc, &row.sets, moved, row.home.value)?;
    let put = put_sets(alloc, sets, change_at(field, written, row.place))?;
    Ok(with_sets(row, put))
}

/// After a field was written.
pub fn stored_rows(alloc: Global, rows: &Rows, field: u32, written: Written) -> Result<Rows, Memory>
    ensures { IfOk result (λ after. rows_of after
        ≡ spec.stored_rows field written (rows_of rows.now)) }
{
    match rows {
        Rows::End => Ok(Rows::End),
        Rows::More(row, rest) => {
            let others = stored_rows(alloc, rest, field, written)?;
            more(alloc, stored_row(alloc, row, field, written)?, others)
        }
    }
}

/// The homes of the places of a field of which nothing is known.
pub fn homes_of_unknown(alloc: Global, rows: &Rows, field: u32) -> Result<Places, Memory>
    ensures { IfOk result (λ homes. places_of homes
        ≡ spec.homes_of_unknown field (rows_of rows.now)) }
{
    match rows {
        Rows::End => Ok(Places::Empty),
        Rows::More(row, rest) => {
            let others = homes_of_unknown(alloc, rest, field)?;
            if field_of(row.place) == field && !is_known(&row.sets) {
                with_place(alloc, row.home.place, others)
            } else {
                Ok(others)
            }
        }
    }
}

/// After a field was written: where nothing was known of a place, its home tells which case can't
/// be.
pub fn stored_in(alloc: Global, rows: &Rows, field: u32, written: Written) -> Result<Rows, Memory>
    ensures { IfOk result (λ after. rows_of after
        ≡ spec.stored_in field written (rows_of rows.now)) }
{
    let homes = homes_of_unknown(alloc, rows, field)?;
    let after = stored_rows(alloc, rows, field, written)?;
    settled(alloc, &homes, after)
}
