//! In which order the functions of a source stand: where no function calls itself, each stands
//! behind those that it calls. The order is searched for; whatever was found, each function that is
//! written stands there once.
ghost use Rattle.std.specs.Prelude.{◌≡◌, ◌<◌, ◌||◌, ◌&&◌, ◌++◌, ◌∷◌, [], not, ℕ, IfOk, OnOk, false};
ghost use Rattle.std.specs.Prelude.{if◌then◌else◌, length, replicate, slice_index_or};
ghost use Rattle.c_text.specs.Labels.{labels_of};
ghost use Rattle.c_file.specs.Made.{AreUses, IsMade, IsOrderOf, functions_of};
ghost use Rattle.c_file.specs.Order as spec;
ghost use Rattle.c_file.specs.Reached.{outside_of};
ghost use Rattle.c_file.specs.Ordering.{AreEarly, IsPlaced, Places, Stands, is_next};

use crate::calls::{FunctionCall, add_lines, flag_of};
use crate::known::{Uses, is_outside};
use crate::made::Made;
use crate::visits::found_order;
use c_text::function_kind;
use flow_base::Memory;
use std::alloc::Global;

/// In which order the functions stand.
#[derive(Drop)]
pub(crate) struct Order {
    /// The numbers of the functions that are written, in their order.
    pub functions: Vec<u32>,
    /// Those that are called before they stand, and not from outside.
    pub declared: Vec<u32>,
}

/// Whether a function is reached, and doesn't stand in the order yet.
fn is_next(reached: &[bool], placed: &[bool], number: u32) -> bool
    ensures { result ≡ is_next reached.now placed.now number }
{
    flag_of(reached, number, false) && !flag_of(placed, number, true)
}

/// Puts a function at the end, where it is reached and doesn't stand there yet.
fn place(
    reached: &[bool],
    placed: &mut [bool],
    order: &mut Vec<u32>,
    number: u32,
) -> Result<(), Memory>
    requires { IsPlaced reached.now placed.old order.old.items }
    ensures { OnOk result
        (Places reached.now number placed.old placed.new order.new.items) }
{
    if is_next(reached, placed, number) {
        placed[number as usize] = true;
        order.push(number)?;
    }
    Ok(())
}

/// Puts all functions that are reached at the end; there are `count` functions. Those that were
/// found come first, in their order, then all others.
fn place_all(
    reached: &[bool],
    placed: &mut [bool],
    order: &mut Vec<u32>,
    count: u32,
    found: &[u32],
) -> Result<(), Memory>
    requires count { count ≡ length reached.now }
    requires placed { IsPlaced reached.now placed.old order.old.items }
    ensures { OnOk result (spec.IsOrder reached.now order.new.items) }
{
    for function in found {
        place(reached, placed, order, *function)?;
    }
    for number in 0..count {
        place(reached, placed, order, number)?;
    }
    Ok(())
}

/// The functions that are reached, of `count`: those that were found, in their order, then all
/// others.
fn completed(alloc: Global, reached: &[bool], count: u32, found: &[u32]) -> Result<Vec<u32>, Memory>
    requires { count ≡ length reached.now }
    ensures { IfOk result (λ order. spec.IsOrder reached.now order.items) }
{
    let mut placed = vec![in alloc; false; reached.len()]?;
    let mut order = Vec::new(alloc);
    place_all(reached, &mut placed, &mut order, count, found)?;
    Ok(order)
}

/// Sets the flag of each function that one of these calls names and that doesn't stand yet.
fn mark_early(early: &mut [bool], stands: &[bool], calls: &[FunctionCall])
    requires size { length early.old ≡ length stands.now }
    ensures size { length early.new ≡ length early.old }
    ensures flags { (g : ℕ) → g < length early.old → slice_index_or early.new g false
        ≡ (slice_index_or early.old g false
        || (not (slice_index_or stands.now g false) && spec.is_called g calls.now)) }
{
    for call in calls {
        if !flag_of(stands, call.callee, true) {
            early[call.callee as usize] = true;
        }
    }
}

/// A function stands next: sets its flag, and that of each function that it calls and that doesn't
/// stand yet.
fn stand(
    alloc: Global,
    made: &Made<'_>,
    stands: &mut [bool],
    early: &mut [bool],
    number: u32,
) -> Result<(), Memory>
    requires is { IsMade made.now }
    requires within { number < length (functions_of made.now) }
    requires stands { length stands.old ≡ length (functions_of made.now) }
    requires early { length early.old ≡ length (functions_of made.now) }
    ensures { OnOk result (Stands (functions_of made.now) number stands.old stands.new
        early.old early.new) }
{
    stands[number as usize] = true;
    let mut calls = Vec::new(alloc);
    add_lines(&mut calls, number, made.function(number).lines.items())?;
    mark_early(early, stands, &calls);
    Ok(())
}

/// The functions stand one after the other: sets the flags of those that are called before.
fn stand_all(
    alloc: Global,
    made: &Made<'_>,
    stands: &mut [bool],
    early: &mut [bool],
    order: &[u32],
) -> Result<(), Memory>
    requires is { IsMade made.now }
    requires within { spec.AreBelow (length (functions_of made.now)) order.now }
    requires stands { stands.old ≡ replicate (length (functions_of made.now)) false }
    requires early { early.old ≡ replicate (length (functions_of made.now)) false }
    ensures { OnOk result (AreEarly (functions_of made.now) order.now early.new) }
{
    for number in order {
        stand(alloc, made, stands, early, *number)?;
    }
    Ok(())
}

/// Of each function whether it is called before it stands in this order.
fn early_flags(alloc: Global, made: &Made<'_>, order: &[u32]) -> Result<Vec<bool>, Memory>
    requires is { IsMade made.now }
    requires within { spec.AreBelow (length (functions_of made.now)) order.now }
    ensures { IfOk result (λ early. AreEarly (functions_of made.now) order.now early.items) }
{
    let count = made.count() as usize;
    let mut stands = vec![in alloc; false; count]?;
    let mut early = vec![in alloc; false; count]?;
    stand_all(alloc, made, &mut stands, &mut early, order)?;
    Ok(early)
}

/// Adds a function where it is called before it stands, and isn't called from outside.
fn declare(
    made: &Made<'_>,
    early: &[bool],
    declared: &mut Vec<u32>,
    number: u32,
) -> Result<(), Memory>
    ensures { OnOk result (declared.new.items ≡ (if slice_index_or early.now number false
        && not (outside_of (labels_of made.now.labels) number)
        then declared.old.items ++ number ∷ [] else declared.old.items)) }
{
    if flag_of(early, number, false) && !is_outside(function_kind(&made.labels, number)) {
        declared.push(number)?;
    }
    Ok(())
}

/// The functions that are called before they stand in this order, and aren't called from outside.
fn declared(
    alloc: Global,
    made: &Made<'_>,
    order: &[u32],
    early: &[bool],
) -> Result<Vec<u32>, Memory>
    requires within { spec.AreBelow (length (functions_of made.now)) order.now }
    requires early { AreEarly (functions_of made.now) order.now early.now }
    ensures { IfOk result (λ declared. declared.items
        ≡ spec.declared_in (labels_of made.now.labels) (functions_of made.now) order.now) }
{
    let mut declared = Vec::new(alloc);
    for number in order {
        declare(made, early, &mut declared, *number)?;
    }
    Ok(declared)
}

/// In which order the functions of a file are written, and which of them have a prototype. `Memory`
/// only where memory was refused.
pub(crate) fn order_of(alloc: Global, made: &Made<'_>, uses: &Uses) -> Result<Order, Memory>
    requires is { IsMade made.now }
    requires uses { AreUses (labels_of made.now.labels) (functions_of made.now) uses.now }
    ensures { IfOk result (IsOrderOf (labels_of made.now.labels) (functions_of made.now)
        uses.now.reached.items) }
{
    let found = found_order(alloc, made, uses)?;
    let functions = completed(alloc, &uses.reached, made.count(), &found)?;
    let early = early_flags(alloc, made, &functions)?;
    let declared = declared(alloc, made, &functions, &early)?;
    Ok(Order {
        functions,
        declared,
    })
}
