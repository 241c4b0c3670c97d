//! What is known where a statement stands, and what becomes of it.
ghost use Rattle.std.specs.Prelude.{◌≡◌, IfOk, [], if◌then◌else◌};
ghost use Rattle.c_subset.specs.Meaning.{bits};
ghost use Rattle.c_facts.specs.Known as known;
ghost use Rattle.c_facts.specs.Facts as spec;
ghost use Rattle.c_facts.specs.Views.{known_of, places_of, rows_of};

use crate::framing::{framed_rows, steadied};
use crate::known::{Known, Place, Places, Rows};
use crate::places::{field_of, same_width};
use crate::rows::{
    climbed, copied_rows, covers_rows, joined_rows, restricted, some_empty, width_at,
};
use c_subset::Width;
use flow_base::Memory;
use std::alloc::Global;

/// The same. `Memory` where there is no memory for it.
pub fn copied(alloc: Global, known: &Known) -> Result<Known, Memory>
    ensures { IfOk result (λ copy. known_of copy ≡ known_of known.now) }
{
    match known {
        Known::Never => Ok(Known::Never),
        Known::Of(rows) => Ok(Known::Of(copied_rows(alloc, rows)?)),
    }
}

/// Whether no run comes here.
pub fn is_never(known: &Known) -> bool
    ensures { result ≡ spec.is_never (known_of known.now) }
{
    match known {
        Known::Never => true,
        Known::Of(_) => false,
    }
}

/// This, unless no number is left of some place.
fn closed(rows: Rows) -> Known
    ensures { known_of result ≡ spec.closed (rows_of rows) }
{
    if some_empty(&rows) {
        drop(rows);
        Known::Never
    } else {
        Known::Of(rows)
    }
}

/// Whether it is that width.
fn is_width(width: Width, found: Option<Width>) -> bool
    ensures { result ≡ spec.is_width width found }
{
    match found {
        None => false,
        Some(other) => same_width(other, width),
    }
}

/// Where a place, whose field has that width, has that number, or hasn't.
fn narrowed_rows(
    alloc: Global,
    rows: &Rows,
    way: bool,
    number: u32,
    place: Place,
) -> Result<Known, Memory>
    ensures { IfOk result (λ left. known_of left ≡ spec.closed (spec.climbed (rows_of rows.now)
        place (spec.restricted way number place (rows_of rows.now)))) }
{
    let left = restricted(alloc, rows, way, number, place)?;
    Ok(closed(climbed(alloc, rows, place, left)?))
}

/// Where a place, whose field has that width, has that number, or hasn't.
pub fn narrowed(
    alloc: Global,
    known: &Known,
    way: bool,
    number: u32,
    place: Place,
    width: Width,
) -> Result<Known, Memory>
    ensures { IfOk result (λ left. known_of left
        ≡ spec.narrowed way number place width (known_of known.now)) }
{
    match known {
        Known::Never => Ok(Known::Never),
        Known::Of(rows) => {
            if is_width(width, width_at(rows, field_of(place))) {
                narrowed_rows(alloc, rows, way, number, place)
            } else {
                Ok(Known::Of(copied_rows(alloc, rows)?))
            }
        }
    }
}

/// What holds if one of both holds. `Memory` where there is no memory for it.
pub fn joined(alloc: Global, first: &Known, second: &Known) -> Result<Known, Memory>
    ensures { IfOk result (λ all. known_of all
        ≡ spec.joined (known_of first.now) (known_of second.now)) }
{
    match first {
        Known::Never => copied(alloc, second),
        Known::Of(rows) => match second {
            Known::Never => copied(alloc, first),
            Known::Of(others) => Ok(Known::Of(joined_rows(alloc, rows, others)?)),
        },
    }
}

/// Whether the second holds where the first does, as far as it is seen by going through both once.
pub fn covers(first: &Known, second: &Known) -> bool
    ensures { result ≡ spec.covers (known_of first.now) (known_of second.now) }
{
    match first {
        Known::Never => true,
        Known::Of(rows) => match second {
            Known::Never => false,
            Known::Of(others) => covers_rows(rows, others),
        },
    }
}

/// After a call that may change these places, by what the callee leaves. `Memory` where there is
/// no memory for it.
pub fn framed(
    alloc: Global,
    before: &Known,
    left: &Known,
    touched: &Places,
) -> Result<Known, Memory>
    ensures { IfOk result (λ after. known_of after ≡ spec.framed
        (spec.is_touched (places_of touched.now)) (known_of before.now) (known_of left.now)) }
{
    match before {
        Known::Never => Ok(Known::Never),
        Known::Of(rows) => match left {
            Known::Never => Ok(Known::Never),
            Known::Of(others) => {
                let left = framed_rows(alloc, rows, others, touched)?;
                Ok(closed(steadied(alloc, left, touched)?))
            }
        },
    }
}

/// What stays where these places may change. `Memory` where there is no memory for it.
pub fn forgotten(alloc: Global, known: &Known, touched: &Places) -> Result<Known, Memory>
    ensures { IfOk result (λ after. known_of after ≡ spec.forgotten
        (spec.is_touched (places_of touched.now)) (known_of known.now)) }
{
    match known {
        Known::Never => Ok(Known::Never),
        Known::Of(rows) => Ok(Known::Of(framed_rows(alloc, rows, &Rows::End, touched)?)),
    }
}
