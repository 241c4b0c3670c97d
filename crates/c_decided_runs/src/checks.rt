//! Whether a plan fits together between events.
ghost use Rattle.std.specs.Prelude.{◌≡◌, IsTrue, slice_get};
ghost use Rattle.c_subset.specs.declared.trees.CType.TheVariants.{Unsigned};
ghost use Rattle.c_facts.specs.Facts as known;
ghost use Rattle.c_facts.specs.Known.{field_of};
ghost use Rattle.c_facts.specs.Views.{known_of, rows_of, sets_of};
ghost use Rattle.c_decided.specs.Views.{by_of, plan_of};
ghost use Rattle.c_decided_runs.specs.Checks as spec;
ghost use Rattle.c_decided_runs.specs.Runs.{where_true};

use c_decided::{FunctionFacts, Plan, at, find, same_type};
use c_facts::{Known, Place, Rows, Sets, covers};
use c_subset::{CType, Width};

/// The functions that are called from outside, by number.
#[derive(Clone, Copy)]
pub struct Outside {
    /// That which stores the first values.
    pub init: u32,
    /// The start.
    pub start: u32,
    /// The reaction.
    pub react: u32,
}

/// The field of a place.
fn field_of(place: Place) -> u32
    ensures { result ≡ field_of place }
{
    match place {
        Place::Field(field) | Place::Bit(field, _) => field,
    }
}

/// Whether nothing is known of the number.
fn is_anything(sets: &Sets) -> bool
    ensures { result ≡ spec.is_anything (sets_of sets.now) }
{
    match sets {
        Sets::Anything => true,
        Sets::OneOf(_, _) => false,
    }
}

/// Whether the field has the unsigned type of a width.
fn has_width(types: &[CType], field: u32, width: Width) -> bool
    ensures { result ≡ spec.is_type (Unsigned width) (slice_get types.now field) }
{
    match types.get(field as usize) {
        None => false,
        Some(of) => same_type(*of, CType::Unsigned(width)),
    }
}

/// Whether nothing is known but types of fields, which are these.
fn rows_typed(types: &[CType], rows: &Rows) -> bool
    ensures { result ≡ spec.rows_typed types.now (rows_of rows.now) }
{
    match rows {
        Rows::End => true,
        Rows::More(row, rest) => {
            is_anything(&row.sets)
                && has_width(types, field_of(row.place), row.width)
                && rows_typed(types, rest)
        }
    }
}

/// Whether nothing is known but types of fields, which are these.
fn is_typed(types: &[CType], known: &Known) -> bool
    ensures { result ≡ spec.is_typed types.now (known_of known.now) }
{
    match known {
        Known::Never => false,
        Known::Of(rows) => rows_typed(types, rows),
    }
}

/// Whether nothing is known of fields below a number.
fn rows_above(number: u32, rows: &Rows) -> bool
    ensures { result ≡ spec.rows_above number (rows_of rows.now) }
{
    match rows {
        Rows::End => true,
        Rows::More(row, rest) => {
            number <= field_of(row.place)
                && number <= field_of(row.home.place)
                && rows_above(number, rest)
        }
    }
}

/// Whether nothing is known of fields below a number.
fn is_above(number: u32, known: &Known) -> bool
    ensures { result ≡ spec.is_above number (known_of known.now) }
{
    match known {
        Known::Never => true,
        Known::Of(rows) => rows_above(number, rows),
    }
}

/// Whether what is known where the first function returned true holds where the second one begins.
fn leads_to(first: &FunctionFacts, second: &FunctionFacts) -> bool
    ensures { result
        ≡ known.covers (where_true (by_of first.now.leaves)) (known_of second.now.begins) }
{
    covers(at(&first.leaves, 1), &second.begins)
}

/// Whether the plan fits together between the calls from outside, where the first so many fields
/// are data and the fields have these types.
pub fn is_between(plan: &Plan, outside: Outside, vars: u32, types: &[CType]) -> bool
    ensures { IsTrue result → spec.IsChecked (plan_of plan.now) outside.init outside.start
        outside.react vars types.now }
{
    let Some(init) = find(plan, outside.init) else {
        return false;
    };
    let Some(start) = find(plan, outside.start) else {
        return false;
    };
    let Some(react) = find(plan, outside.react) else {
        return false;
    };
    is_typed(types, &init.begins)
        && leads_to(init, start)
        && leads_to(start, react)
        && leads_to(react, react)
        && is_above(vars, &start.begins)
        && is_above(vars, &react.begins)
        && start.stays
        && react.stays
}
