//! Tests are decided by what is known where they stand, if a plan for that is found.
ghost use Rattle.std.specs.Prelude.{◌≡◌, IfOk, IfSome};
ghost use Rattle.c_subset.specs.Trees as c;
ghost use Rattle.c_functions.specs.Plans.{init_function, start_function, react_function};
ghost use Rattle.c_shape.specs.FileShapes.{shape_seen};
ghost use Rattle.c_passes.specs.Passed.{ArePassed};
ghost use Rattle.c_passes.specs.Deciding.{FitsBetween};

use crate::spots::spots_of;
use crate::types::field_types;
use c_decided::{Plan, Unfit, decided_functions};
use c_decided_runs::{Outside, checked_plans_fit_between, is_between};
use c_fact_search::find_plan;
use c_shape::FileShape;
use c_subset::Function;
use c_trees::is_short;
use flow_base::Memory;
use std::alloc::Global;

/// The functions that are called from outside.
fn outside(shape: &FileShape<'_>) -> Outside
    ensures init { result.init ≡ init_function (shape_seen shape.now) }
    ensures start { result.start ≡ start_function (shape_seen shape.now) }
    ensures react { result.react ≡ react_function (shape_seen shape.now) }
{
    Outside {
        init: shape.init_function(),
        start: shape.start_function(),
        react: shape.react_function(),
    }
}

/// The plan, if it fits together between events.
fn fitting(alloc: Global, shape: &FileShape<'_>, plan: Plan) -> Result<Option<Plan>, Memory>
    ensures { IfOk result (FitsBetween (shape_seen shape.now)) }
{
    // Only the proof reads the law.
    checked_plans_fit_between();
    let types = field_types(alloc, shape)?;
    if is_between(&plan, outside(shape), shape.used_field(), &types) {
        Ok(Some(plan))
    } else {
        drop(plan);
        Ok(None)
    }
}

/// A plan for functions that fits together between events. None where none is found, or where a
/// function is so long that no pass goes through it.
fn plan_for(
    alloc: Global,
    shape: &FileShape<'_>,
    functions: &[Function],
) -> Result<Option<Plan>, Memory>
    ensures { IfOk result (FitsBetween (shape_seen shape.now)) }
{
    if !functions
        .iter()
        .all(|function| is_short(function.lines.items()))
    {
        return Ok(None);
    }
    let spots = spots_of(alloc, shape)?;
    match find_plan(alloc, functions, &spots, outside(shape))? {
        None => Ok(None),
        Some(plan) => fitting(alloc, shape, plan),
    }
}

/// The functions of a file in which tests go that a plan decides, where one is found that fits
/// together between events. None where it isn't right for them.
pub fn decided(
    alloc: Global,
    shape: &FileShape<'_>,
    functions: Vec<Function>,
) -> Result<Option<Vec<Function>>, Memory>
    ensures { IfOk result (λ found. IfSome found (λ made. (file : c.File) →
        ArePassed (shape_seen shape.now) file functions.items →
        ArePassed (shape_seen shape.now) file made.items)) }
{
    let Some(plan) = plan_for(alloc, shape, &functions)? else {
        return Ok(Some(functions));
    };
    match decided_functions(alloc, &plan, functions) {
        Ok(made) => Ok(Some(made)),
        Err(Unfit::NotRight) => Ok(None),
        Err(Unfit::NoMemory) => Err(Memory),
    }
}
