//! Lines that are appended for calls.
ghost use Rattle.std.specs.Prelude.{◌≡◌, ◌∷◌, [], IfOk, OnOk};
ghost use Rattle.flow_base.specs.Lists.{items_of};
ghost use Rattle.c_subset.specs.Lines.{Appends, expr_of, exprs_of};
ghost use Rattle.c_functions.specs.Plans as spec;
ghost use Rattle.c_shape.specs.FileShapes.{shape_seen};
ghost use Rattle.c_writer.specs.Calls.{own_arguments, send_arguments};
ghost use Rattle.c_writer.specs.Pieces.{tested_result};

use crate::pieces::{local, put_return};
use c_expression_writer::{BAD, put};
use c_functions::WORD;
use c_functions::function_offsets::{BARE_OFFSET, NOTED_OFFSET};
use c_shape::{FileShape, number};
use c_subset::{Arithmetic, CExpr, CType, Comparison, Line};
use flow_base::{List, Memory};
use std::alloc::Global;

/// One argument.
fn one(alloc: Global, argument: CExpr) -> Result<List<CExpr>, Memory>
    ensures { IfOk result (λ list. exprs_of (items_of list) ≡ expr_of argument ∷ []) }
{
    let list = vec![in alloc; argument]?;
    Ok(List::of(list))
}

/// Five arguments: an event, a depth, a base, a home and a last result.
pub(crate) fn five(
    alloc: Global,
    event: CExpr,
    depth: CExpr,
    base: CExpr,
    home: CExpr,
    last: CExpr,
) -> Result<List<CExpr>, Memory>
    ensures { IfOk result (λ list. exprs_of (items_of list)
        ≡ expr_of event ∷ expr_of depth ∷ expr_of base ∷ expr_of home ∷ expr_of last ∷ []) }
{
    let list = vec![in alloc; event, depth, base, home, last]?;
    Ok(List::of(list))
}

/// The same five and the note that is called.
pub(crate) fn six(
    alloc: Global,
    event: CExpr,
    depth: CExpr,
    base: CExpr,
    home: CExpr,
    last: CExpr,
    note: CExpr,
) -> Result<List<CExpr>, Memory>
    ensures { IfOk result (λ list. exprs_of (items_of list) ≡ expr_of event ∷ expr_of depth
        ∷ expr_of base ∷ expr_of home ∷ expr_of last ∷ expr_of note ∷ []) }
{
    let list = vec![in alloc; event, depth, base, home, last, note]?;
    Ok(List::of(list))
}

/// Appends a return of the fault where the last result tells one.
#[tactic(auto, unfolding(c_subset::specs::Lines::lines_of))]
pub(crate) fn put_unless_bad(alloc: Global, lines: &mut List<Line>) -> Result<(), Memory>
    ensures { OnOk result (Appends (items_of lines.old) (items_of lines.new) spec.unless_bad) }
{
    let test = CExpr::compare(alloc, Comparison::IsEqual, local(4), number(BAD))?;
    put(lines, Line::If(test))?;
    put_return(lines, number(BAD))?;
    put(lines, Line::Close)
}

/// Appends a return of the fault where the last result, of a procedure, tells one: nothing where
/// the result of the procedure isn't tested.
fn put_unless_failed(
    alloc: Global,
    shape: &FileShape<'_>,
    lines: &mut List<Line>,
    procedure: u32,
) -> Result<(), Memory>
    ensures { OnOk result (Appends (items_of lines.old) (items_of lines.new)
        (tested_result (shape_seen shape.now) procedure)) }
{
    if shape.tests.is_after(procedure) {
        put_unless_bad(alloc, lines)
    } else {
        Ok(())
    }
}

/// Appends a call of the function of a procedure.
#[tactic(auto, unfolding(c_subset::specs::Lines::lines_of))]
fn put_procedure_call(
    alloc: Global,
    shape: &FileShape<'_>,
    lines: &mut List<Line>,
    procedure: u32,
    arguments: List<CExpr>,
) -> Result<(), Memory>
    ensures { OnOk result (Appends (items_of lines.old) (items_of lines.new)
        (spec.procedure_call (shape_seen shape.now) procedure (exprs_of (items_of arguments)))) }
{
    put(lines, Line::Call(WORD, 4, procedure, arguments))?;
    put_unless_failed(alloc, shape, lines, procedure)
}

/// Appends a call of a function whose result may tell a fault.
#[tactic(auto, unfolding(c_subset::specs::Lines::lines_of))]
pub(crate) fn put_called(
    alloc: Global,
    lines: &mut List<Line>,
    function: u32,
    arguments: List<CExpr>,
) -> Result<(), Memory>
    ensures { OnOk result (Appends (items_of lines.old) (items_of lines.new)
        (spec.called_c function (exprs_of (items_of arguments)))) }
{
    put(lines, Line::Call(WORD, 4, function, arguments))?;
    put_unless_bad(alloc, lines)
}

/// Appends a call with the parameters of the caller.
pub(crate) fn put_call(
    alloc: Global,
    shape: &FileShape<'_>,
    lines: &mut List<Line>,
    procedure: u32,
) -> Result<(), Memory>
    ensures { OnOk result (Appends (items_of lines.old) (items_of lines.new)
        (spec.procedure_call (shape_seen shape.now) procedure own_arguments)) }
{
    let arguments = five(alloc, local(0), local(1), local(2), local(3), local(4))?;
    put_procedure_call(alloc, shape, lines, procedure, arguments)
}

/// Appends a call that processes a sent event, one deeper and with the root as its home.
pub(crate) fn put_send(
    alloc: Global,
    shape: &FileShape<'_>,
    lines: &mut List<Line>,
    event: u32,
    procedure: u32,
) -> Result<(), Memory>
    ensures { OnOk result (Appends (items_of lines.old) (items_of lines.new)
        (spec.procedure_call (shape_seen shape.now) procedure
        (send_arguments (shape_seen shape.now) event))) }
{
    let depth = CExpr::calc(alloc, Arithmetic::Plus, local(1), number(1))?;
    let base = CExpr::Field(shape.noted_field());
    let arguments = five(alloc, number(event), depth, base, number(0), local(4))?;
    put_procedure_call(alloc, shape, lines, procedure, arguments)
}

/// Appends a question about the home, whose answer is the local with number 6.
#[tactic(auto, unfolding(c_subset::specs::Lines::lines_of))]
pub(crate) fn put_ask(alloc: Global, lines: &mut List<Line>, function: u32) -> Result<(), Memory>
    ensures { OnOk result (Appends (items_of lines.old) (items_of lines.new)
        (spec.ask_home function)) }
{
    let arguments = one(alloc, local(3))?;
    put(lines, Line::Call(CType::Truth, 6, function, arguments))
}

/// The function that tells whether a state is active.
pub(crate) fn on_function(shape: &FileShape<'_>) -> u32
    ensures { result ≡ spec.on_function (shape_seen shape.now) }
{
    shape.procs
}

/// The function that tells whether a state is active and has no active child.
pub(crate) fn bare_function(shape: &FileShape<'_>) -> u32
    ensures { result ≡ spec.bare_function (shape_seen shape.now) }
{
    shape.procs + BARE_OFFSET
}

/// The function that calls a noted procedure.
pub(crate) fn noted_function(shape: &FileShape<'_>) -> u32
    ensures { result ≡ spec.noted_function (shape_seen shape.now) }
{
    shape.procs + NOTED_OFFSET
}
