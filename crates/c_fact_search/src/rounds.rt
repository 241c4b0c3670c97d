//! The search goes through all functions that are due, until none is.
ghost use Rattle.std.specs.Prelude.{IfOk, IfSome, length};
ghost use Rattle.c_fact_search.specs.Searched as spec;

use crate::calls::{FunctionCall, calls_of};
use crate::depths::are_shallow;
use crate::found::Found;
use crate::guess::supposed;
use crate::keeping::kept_rows;
use crate::plans::plan_of;
use crate::spots::Spot;
use crate::visits::{Setting, go_through};
use crate::wanted::wanted_rows;
use c_decided::{Plan, at};
use c_decided_runs::Outside;
use c_facts::{Known, copied};
use c_subset::Function;
use flow_base::Memory;
use std::alloc::Global;

/// So many rounds are made at most.
const ROUNDS: u32 = 200;

/// One round over all functions that are due, callers first and then back. Whether one was.
fn round(alloc: Global, setting: Setting<'_>, found: &mut Found) -> Result<bool, Memory> {
    let mut some = false;
    for number in (0..setting.functions.len()).rev() {
        some = found.is_due(number) || some;
        go_through(alloc, setting, found, number)?;
    }
    for number in 0..setting.functions.len() {
        go_through(alloc, setting, found, number)?;
    }
    Ok(some)
}

/// A function begins where another one returned true.
fn follow(alloc: Global, found: &mut Found, before: u32, after: u32) -> Result<(), Memory> {
    let Some(facts) = found.find(before as usize) else {
        return Ok(());
    };
    let known = copied(alloc, at(&facts.leaves, 1))?;
    found.begin(alloc, after as usize, &known)
}

/// Each function that is called from outside begins where the one before it returned true.
fn follow_all(alloc: Global, found: &mut Found, outside: Outside) -> Result<(), Memory> {
    follow(alloc, found, outside.init, outside.start)?;
    follow(alloc, found, outside.start, outside.react)?;
    follow(alloc, found, outside.react, outside.react)
}

/// The calls of a file, and those from outside, of which each comes after the one before it.
fn all_calls(
    alloc: Global,
    functions: &[Function],
    outside: Outside,
) -> Result<Vec<FunctionCall>, Memory> {
    let mut calls = calls_of(alloc, functions)?;
    calls.push(FunctionCall {
        caller: outside.start as usize,
        callee: outside.react as usize,
    })?;
    calls.push(FunctionCall {
        caller: outside.init as usize,
        callee: outside.start as usize,
    })?;
    Ok(calls)
}

/// First values are stored where nothing is known.
fn begin_first(alloc: Global, found: &mut Found, init: u32) -> Result<(), Memory> {
    let Some(own) = found.find(init as usize) else {
        return Ok(());
    };
    let nothing = Known::Of(kept_rows(alloc, &own.wanted, &own.wanted)?);
    found.begin(alloc, init as usize, &nothing)
}

/// The functions that are called from outside are gone through, in their order.
fn first_visits(
    alloc: Global,
    setting: Setting<'_>,
    found: &mut Found,
    spots: &[Spot],
) -> Result<(), Memory> {
    let Outside { init, start, react } = setting.outside;
    begin_first(alloc, found, init)?;
    go_through(alloc, setting, found, init as usize)?;
    follow_all(alloc, found, setting.outside)?;
    go_through(alloc, setting, found, start as usize)?;
    follow_all(alloc, found, setting.outside)?;
    let is_alone = !found.is_due(react as usize);
    let guess = supposed(alloc, setting.functions, spots, is_alone)?;
    found.begin(alloc, react as usize, &guess)?;
    go_through(alloc, setting, found, react as usize)
}

/// The plan where of these places something may be known, unless it takes too much work.
fn searched(
    alloc: Global,
    functions: &[Function],
    spots: &[Spot],
    outside: Outside,
) -> Result<Option<Plan>, Memory>
    ensures { IfOk result (λ found.
        IfSome found (spec.IsPlanOf (length functions.now) outside)) }
{
    let setting = Setting { functions, outside };
    let calls = all_calls(alloc, functions, outside)?;
    let wanted = wanted_rows(alloc, functions, &calls, spots)?;
    let mut found = Found::new(alloc, wanted, &calls)?;
    first_visits(alloc, setting, &mut found, spots)?;
    for _ in 0..ROUNDS {
        follow_all(alloc, &mut found, outside)?;
        let some = round(alloc, setting, &mut found)?;
        if found.is_spent() {
            return Ok(None);
        }
        if !some {
            return Ok(Some(plan_of(alloc, found, functions.len(), outside)?));
        }
    }
    Ok(None)
}

/// What may be known of each function of a file, for the check of decided tests: where it begins,
/// what it leaves, and which places it may change. Of these places of the struct something may be
/// known; they stand in the order of their fields, and those of a field in that of its bits. The
/// start and the reaction stay as they are.
///
/// Where that takes too much work nothing is known of any place, only which numbers are returned.
/// There is no plan where that does, too, or where a function is too long for the check. Nothing
/// depends on what is found, since the check refuses what isn't right. `Memory` only where memory
/// was refused.
pub fn find_plan(
    alloc: Global,
    functions: &[Function],
    spots: &[Spot],
    outside: Outside,
) -> Result<Option<Plan>, Memory>
    ensures { IfOk result (λ found.
        IfSome found (spec.IsPlanOf (length functions.now) outside)) }
{
    if !are_shallow(alloc, functions)? {
        return Ok(None);
    }
    match searched(alloc, functions, spots, outside)? {
        Some(plan) => Ok(Some(plan)),
        None => searched(alloc, functions, &[], outside),
    }
}
