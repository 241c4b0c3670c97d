//! What is written for `Play`.
ghost use Rattle.std.specs.Prelude.{◌≡◌, ◌++◌, IfOk, OnOk};
ghost use Rattle.flow_base.specs.Lists.{items_of};
ghost use Rattle.c_subset.specs.Lines.{Appends, expr_of, lines_in, lines_of};
ghost use Rattle.c_subset.specs.Trees as c;
ghost use Rattle.c_functions.specs.Statements as plan;
ghost use Rattle.c_functions.specs.Plans as spec;
ghost use Rattle.c_shape.specs.FileShapes.{shape_seen};
ghost use Rattle.c_writer.specs.Appending.{PlanAppends};
ghost use Rattle.c_writer.specs.Pieces as pieces;
ghost use Rattle.c_writer.specs.Pieces.{note_arguments, note_at_cursor, raise_cursor, turn_before};

use crate::calls::{bare_function, noted_function, put_ask, put_called, six};
use crate::pieces::{local, put_pay, put_set};
use c_expression_writer::put;
use c_functions::WORD;
use c_shape::{FileShape, number};
use c_subset::{Arithmetic, CExpr, CType, Comparison, Line};
use flow_base::{List, Memory};
use std::alloc::Global;

/// Appends that the cursor is raised to the base.
#[tactic(auto, unfolding(c_subset::specs::Lines::lines_of))]
fn put_raise(alloc: Global, lines: &mut List<Line>) -> Result<(), Memory>
    ensures { OnOk result (Appends (items_of lines.old) (items_of lines.new) raise_cursor) }
{
    let test = CExpr::compare(alloc, Comparison::IsBelow, local(5), local(2))?;
    put(lines, Line::If(test))?;
    put(lines, Line::Set(WORD, 5, local(2)))?;
    put(lines, Line::Close)
}

/// The note before the cursor.
fn note_before(alloc: Global) -> Result<CExpr, Memory>
    ensures { IfOk result (λ note. expr_of note ≡ note_at_cursor) }
{
    let place = CExpr::calc(alloc, Arithmetic::Less, local(5), number(1))?;
    CExpr::element(alloc, 1, place)
}

/// Appends that the note before the cursor is called.
fn put_note(alloc: Global, shape: &FileShape<'_>, lines: &mut List<Line>) -> Result<(), Memory>
    ensures { OnOk result (Appends (items_of lines.old) (items_of lines.new)
        (spec.called_c (spec.noted_function (shape_seen shape.now))
        (note_arguments (shape_seen shape.now)))) }
{
    let note = note_before(alloc)?;
    let base = CExpr::Field(shape.noted_field());
    let arguments = six(alloc, local(0), local(1), base, local(3), local(4), note)?;
    put_called(alloc, lines, noted_function(shape), arguments)
}

/// Appends one turn of the loop before other statements.
fn put_turn_before(
    alloc: Global,
    shape: &FileShape<'_>,
    lines: &mut List<Line>,
) -> Result<(), Memory>
    ensures { OnOk result (Appends (items_of lines.old) (items_of lines.new)
        (turn_before (shape_seen shape.now))) }
{
    put_pay(alloc, shape, lines)?;
    let next = CExpr::calc(alloc, Arithmetic::Plus, local(5), number(1))?;
    put_set(lines, 5, next)?;
    put_note(alloc, shape, lines)?;
    put_ask(alloc, lines, bare_function(shape))
}

/// Appends one turn of the loop.
fn put_turn(alloc: Global, shape: &FileShape<'_>, lines: &mut List<Line>) -> Result<(), Memory>
    ensures { OnOk result (lines_in (items_of lines.new) ≡ lines_in (items_of lines.old)
        ++ lines_of (spec.turn_c (shape_seen shape.now))) }
{
    put_turn_before(alloc, shape, lines)
}

/// The test of the loop: there is a note at the cursor, and the home is bare.
fn goes_on(alloc: Global, shape: &FileShape<'_>) -> Result<CExpr, Memory>
    ensures { IfOk result (λ test. expr_of test
        ≡ pieces.goes_on (shape_seen shape.now)) }
{
    let noted = CExpr::Field(shape.noted_field());
    let some = CExpr::compare(alloc, Comparison::IsBelow, local(5), noted)?;
    CExpr::both(alloc, some, CExpr::Local(CType::Truth, 6))
}

/// Appends the loop, before which the home is asked.
#[tactic(auto, unfolding(c_subset::specs::Lines::lines_of))]
fn put_loop(alloc: Global, shape: &FileShape<'_>, lines: &mut List<Line>) -> Result<(), Memory>
    ensures { OnOk result (Appends (items_of lines.old) (items_of lines.new)
        (c.While (pieces.goes_on (shape_seen shape.now)) (spec.turn_c (shape_seen shape.now)))) }
{
    put(lines, Line::While(goes_on(alloc, shape)?))?;
    put_turn(alloc, shape, lines)?;
    put(lines, Line::Close)
}

/// Appends that the notes from the base on are called in their order, each where the home is bare.
#[tactic(auto, unfolding(c_functions::specs::Plans::plan_c))]
pub(crate) fn put_play(
    alloc: Global,
    shape: &FileShape<'_>,
    lines: &mut List<Line>,
) -> Result<(), Memory>
    ensures { OnOk result (PlanAppends (shape_seen shape.now) (items_of lines.old)
        (items_of lines.new) plan.Play) }
{
    put_raise(alloc, lines)?;
    put_ask(alloc, lines, bare_function(shape))?;
    put_loop(alloc, shape, lines)
}
