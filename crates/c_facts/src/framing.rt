//! What is known after a call.
ghost use Rattle.std.specs.Prelude.{◌≡◌, ◌∷◌, [], if◌then◌else◌, IfOk};
ghost use Rattle.c_facts.specs.Facts as spec;
ghost use Rattle.c_facts.specs.Views.{places_of, row_of, rows_of};

use crate::known::{Places, Row, Rows};
use crate::places::{is_touched, same_home};
use crate::rows::{copied_row, copied_rows, more, same_row, with_sets};
use crate::sets::{blurred, framed_sets};
use crate::settling::{settled, with_place};
use flow_base::Memory;
use std::alloc::Global;

/// What stays of a row whose place doesn't change.
fn unchanged_row(alloc: Global, row: &Row, touched: &Places) -> Result<Row, Memory>
    ensures { IfOk result (λ left. row_of left ≡ record (row_of row.now) {
      sets = if spec.is_touched (places_of touched.now) (row_of row.now).home.place
          then spec.blurred (row_of row.now).sets else (row_of row.now).sets;
    }) }
{
    if is_touched(touched, row.home.place) {
        let sets = blurred(alloc, &row.sets)?;
        Ok(with_sets(row, sets))
    } else {
        copied_row(alloc, row)
    }
}

/// A row before others, if its place doesn't change.
fn with_unchanged(alloc: Global, row: &Row, touched: &Places, rest: Rows) -> Result<Rows, Memory>
    ensures { IfOk result (λ all. rows_of all ≡ spec.with_unchanged
        (spec.is_touched (places_of touched.now)) (row_of row.now) (rows_of rest)) }
{
    if is_touched(touched, row.place) {
        Ok(rest)
    } else {
        match unchanged_row(alloc, row, touched) {
            Ok(left) => more(alloc, left, rest),
            Err(Memory) => {
                drop(rest);
                Err(Memory)
            }
        }
    }
}

/// What was known of a place before a call, and what the callee leaves of it.
fn framed_row(alloc: Global, row: &Row, left: &Row, touched: &Places) -> Result<Row, Memory>
    ensures { IfOk result (λ both. row_of both ≡ record (row_of left.now) {
      sets = spec.framed_sets
          (spec.is_touched (places_of touched.now) (row_of left.now).place)
          (spec.is_touched (places_of touched.now) (row_of left.now).home.place)
          (spec.same_home (row_of row.now).home (row_of left.now).home)
          (row_of row.now).sets (row_of left.now).sets;
    }) }
{
    let sets = framed_sets(
        alloc,
        &row.sets,
        &left.sets,
        is_touched(touched, left.place),
        is_touched(touched, left.home.place),
        same_home(row.home, left.home),
    )?;
    Ok(with_sets(left, sets))
}

/// What was known before a call that may change these places, and what the callee leaves.
pub fn framed_rows(
    alloc: Global,
    before: &Rows,
    left: &Rows,
    touched: &Places,
) -> Result<Rows, Memory>
    ensures { IfOk result (λ both. rows_of both ≡ spec.framed_rows
        (spec.is_touched (places_of touched.now)) (rows_of before.now) (rows_of left.now)) }
{
    match before {
        Rows::End => copied_rows(alloc, left),
        Rows::More(row, rest) => match left {
            Rows::End => {
                let others = framed_rows(alloc, rest, left, touched)?;
                with_unchanged(alloc, row, touched, others)
            }
            Rows::More(other, other_rest) => {
                if same_row(row, other) {
                    let others = framed_rows(alloc, rest, other_rest, touched)?;
                    more(alloc, framed_row(alloc, row, other, touched)?, others)
                } else {
                    let others = framed_rows(alloc, rest, left, touched)?;
                    with_unchanged(alloc, row, touched, others)
                }
            }
        },
    }
}

/// The homes that don't change, of places that may.
fn steady_homes(alloc: Global, rows: &Rows, touched: &Places) -> Result<Places, Memory>
    ensures { IfOk result (λ homes. places_of homes
        ≡ spec.steady_homes (spec.is_touched (places_of touched.now)) (rows_of rows.now)) }
{
    match rows {
        Rows::End => Ok(Places::Empty),
        Rows::More(row, rest) => {
            let others = steady_homes(alloc, rest, touched)?;
            if is_touched(touched, row.place) && !is_touched(touched, row.home.place) {
                with_place(alloc, row.home.place, others)
            } else {
                Ok(others)
            }
        }
    }
}

/// The places that may change are as their homes tell.
pub fn steadied(alloc: Global, rows: Rows, touched: &Places) -> Result<Rows, Memory>
    ensures { IfOk result (λ left. rows_of left
        ≡ spec.steadied (spec.is_touched (places_of touched.now)) (rows_of rows)) }
{
    match steady_homes(alloc, &rows, touched) {
        Ok(homes) => settled(alloc, &homes, rows),
        Err(Memory) => {
            drop(rows);
            Err(Memory)
        }
    }
}
