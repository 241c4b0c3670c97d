//! What is known of the functions of a file before they are written.
ghost use Rattle.std.specs.Prelude.{◌≡◌, ◌<◌, ◌||◌, IfOk, OnOk, Some, length, slice_get};
ghost use Rattle.std.specs.List.{list_any};
ghost use Rattle.c_subset.specs.Lines.{lines_in};
ghost use Rattle.c_subset.specs.Trees as c;
ghost use Rattle.c_readers.specs.Readers.{line_stores};
ghost use Rattle.c_text.specs.Labels.{labels_of};
ghost use Rattle.c_file.specs.Made.{AreCalls, AreUses, HasUses, IsMade, functions_of};
ghost use Rattle.c_file.specs.Reached as spec;

use crate::calls::{FunctionCall, add_lines, close};
use crate::changing::{any_stores, turned_calls};
use crate::made::Made;
use crate::uses::are_wide;
use c_subset::Line;
use c_text::{Kind, function_kind};
use flow_base::Memory;
use std::alloc::Global;

/// What is known of the functions.
#[derive(Drop)]
pub(crate) struct Uses {
    /// Of each function whether it is called from outside, or by one that is reached.
    pub reached: Vec<bool>,
    /// The calls of all functions, also of those that are not reached.
    pub calls: Vec<FunctionCall>,
    /// Of each function whether its lines name a type of 128 bits.
    pub wide: Vec<bool>,
    /// Of each function whether it may change the struct: it stores there, is called from outside or
    /// calls one that may.
    pub changing: Vec<bool>,
}

/// Whether a function is called from outside.
pub(crate) fn is_outside(kind: Kind) -> bool
    ensures { result ≡ spec.is_outside kind }
{
    match kind {
        Kind::Procedure | Kind::Home | Kind::Noted | Kind::Floor(_) => false,
        Kind::Outside => true,
    }
}

/// Of each function whether it is called from outside.
fn outside_flags(alloc: Global, made: &Made<'_>) -> Result<Vec<bool>, Memory>
    requires is { IsMade made.now }
    ensures { IfOk result (λ flags. spec.AreOutside (labels_of made.now.labels)
        (length (functions_of made.now)) flags.items) }
{
    let mut flags = Vec::new(alloc);
    for number in 0..made.count() {
        flags.push(is_outside(function_kind(&made.labels, number)))?;
    }
    Ok(flags)
}

/// Whether a function of that kind with these lines may change the struct, whatever it calls.
fn changes_by_itself(kind: Kind, lines: &[Line]) -> bool
    ensures { result ≡ (spec.is_outside kind || list_any line_stores (lines_in lines.now)) }
{
    is_outside(kind) || any_stores(lines)
}

/// Adds what is known of a function.
fn add_uses(made: &Made<'_>, uses: &mut Uses, number: u32) -> Result<(), Memory>
    requires is { IsMade made.now }
    requires within { number < length (functions_of made.now) }
    ensures { OnOk result ((g : c.Function) → slice_get (functions_of made.now) number ≡ Some g
        → HasUses (labels_of made.now.labels) number g uses.old uses.new) }
{
    let lines = made.function(number).lines.items();
    add_lines(&mut uses.calls, number, lines)?;
    uses.wide.push(are_wide(lines))?;
    let kind = function_kind(&made.labels, number);
    uses.changing.push(changes_by_itself(kind, lines))?;
    Ok(())
}

/// Adds what is known of each function.
fn add_all_uses(made: &Made<'_>, uses: &mut Uses) -> Result<(), Memory>
    requires is { IsMade made.now }
    ensures { OnOk result (AreCalls (labels_of made.now.labels) (functions_of made.now)
        uses.old uses.new) }
{
    for number in 0..made.count() {
        add_uses(made, uses, number)?;
    }
    Ok(())
}

/// What is known of the functions of a file. `Memory` only where memory was refused.
pub(crate) fn uses_of(alloc: Global, made: &Made<'_>) -> Result<Uses, Memory>
    requires is { IsMade made.now }
    ensures { IfOk result
        (λ uses. AreUses (labels_of made.now.labels) (functions_of made.now) uses) }
{
    let mut uses = Uses {
        reached: outside_flags(alloc, made)?,
        calls: Vec::new(alloc),
        wide: Vec::new(alloc),
        changing: Vec::new(alloc),
    };
    add_all_uses(made, &mut uses)?;
    close(&mut uses.reached, &uses.calls);
    let turned = turned_calls(alloc, &uses.calls)?;
    close(&mut uses.changing, &turned);
    Ok(uses)
}
