//! Lines that are appended for the statements that plans have in common.
ghost use Rattle.std.specs.Prelude.{◌≡◌, ◌++◌, OnOk};
ghost use Rattle.flow_base.specs.Lists.{items_of};
ghost use Rattle.c_subset.specs.Lines.{Appends, expr_of, lines_in, lines_of};
ghost use Rattle.c_subset.specs.Trees as c;
ghost use Rattle.c_functions.specs.Plans as spec;
ghost use Rattle.c_shape.specs.FileShapes.{shape_seen};
ghost use Rattle.c_writer.specs.Pieces.{tested_depth, tested_step};

use c_expression_writer::{put, write_fault};
use c_functions::WORD;
use c_shape::{FileShape, number};
use c_subset::{Arithmetic, CExpr, Comparison, Line};
use flow_base::{Fault, List, Memory};
use std::alloc::Global;

/// The local of that type with a number.
pub(crate) fn local(place: u32) -> CExpr
    ensures { expr_of result ≡ c.Local spec.word place }
{
    CExpr::Local(WORD, place)
}

/// Appends a fault where the test holds.
#[tactic(auto, unfolding(c_subset::specs::Lines::lines_of))]
fn put_fault_if(
    shape: &FileShape<'_>,
    lines: &mut List<Line>,
    test: CExpr,
    fault: Fault,
) -> Result<(), Memory>
    ensures { OnOk result (Appends (items_of lines.old) (items_of lines.new)
        (c.If (expr_of test) (spec.faulted (shape_seen shape.now) fault) c.End)) }
{
    put(lines, Line::If(test))?;
    write_fault(shape, lines, fault)?;
    put(lines, Line::Close)
}

/// Appends that a number is put into a field.
#[tactic(auto, unfolding(c_subset::specs::Lines::lines_of))]
pub(crate) fn put_store(lines: &mut List<Line>, field: u32, value: CExpr) -> Result<(), Memory>
    ensures { OnOk result (Appends (items_of lines.old) (items_of lines.new)
        (c.Store field (expr_of value))) }
{
    put(lines, Line::Store(field, value))
}

/// Appends that a local is set.
#[tactic(auto, unfolding(c_subset::specs::Lines::lines_of))]
pub(crate) fn put_set(lines: &mut List<Line>, place: u32, value: CExpr) -> Result<(), Memory>
    ensures { OnOk result (Appends (items_of lines.old) (items_of lines.new)
        (c.Set spec.word place (expr_of value))) }
{
    put(lines, Line::Set(WORD, place, value))
}

/// Appends that a field is one more.
pub(crate) fn put_count_up(alloc: Global, lines: &mut List<Line>, field: u32) -> Result<(), Memory>
    ensures { OnOk result (Appends (items_of lines.old) (items_of lines.new)
        (spec.count_up field)) }
{
    let sum = CExpr::calc(alloc, Arithmetic::Plus, CExpr::Field(field), number(1))?;
    put_store(lines, field, sum)
}

/// Appends that a field is one less.
pub(crate) fn put_count_down(
    alloc: Global,
    lines: &mut List<Line>,
    field: u32,
) -> Result<(), Memory>
    ensures { OnOk result (Appends (items_of lines.old) (items_of lines.new)
        (spec.count_down field)) }
{
    let less = CExpr::calc(alloc, Arithmetic::Less, CExpr::Field(field), number(1))?;
    put_store(lines, field, less)
}

/// Appends that a step is counted, or a fault where none is left.
fn put_step(alloc: Global, shape: &FileShape<'_>, lines: &mut List<Line>) -> Result<(), Memory>
    ensures { OnOk result (Appends (items_of lines.old) (items_of lines.new)
        (tested_step (shape_seen shape.now))) }
{
    let steps = number(shape.bounds.steps);
    let used = CExpr::Field(shape.used_field());
    let test = CExpr::compare(alloc, Comparison::IsAtLeast, used, steps)?;
    put_fault_if(shape, lines, test, Fault::Steps)?;
    put_count_up(alloc, lines, shape.used_field())
}

/// Appends that a step is paid: nothing where steps aren't tested.
pub(crate) fn put_pay(
    alloc: Global,
    shape: &FileShape<'_>,
    lines: &mut List<Line>,
) -> Result<(), Memory>
    ensures { OnOk result (Appends (items_of lines.old) (items_of lines.new)
        (spec.pay_c (shape_seen shape.now))) }
{
    if shape.tests.steps {
        put_step(alloc, shape, lines)
    } else {
        Ok(())
    }
}

/// Appends a fault where no depth is left for a send.
fn put_depth(alloc: Global, shape: &FileShape<'_>, lines: &mut List<Line>) -> Result<(), Memory>
    ensures { OnOk result (Appends (items_of lines.old) (items_of lines.new)
        (tested_depth (shape_seen shape.now))) }
{
    let depth = number(shape.bounds.depth);
    let test = CExpr::compare(alloc, Comparison::IsAtLeast, local(1), depth)?;
    put_fault_if(shape, lines, test, Fault::Depth)
}

/// Appends that a send nests: nothing where the depth isn't tested.
pub(crate) fn put_deep(
    alloc: Global,
    shape: &FileShape<'_>,
    lines: &mut List<Line>,
) -> Result<(), Memory>
    ensures { OnOk result (Appends (items_of lines.old) (items_of lines.new)
        (spec.deep_c (shape_seen shape.now))) }
{
    if shape.tests.depth {
        put_depth(alloc, shape, lines)
    } else {
        Ok(())
    }
}

/// Appends that a number is put at the end of an array, whose length is in a field.
#[tactic(auto, unfolding(c_subset::specs::Lines::lines_of))]
pub(crate) fn put_entry(
    alloc: Global,
    lines: &mut List<Line>,
    row: u32,
    field: u32,
    value: u32,
) -> Result<(), Memory>
    ensures { OnOk result (Appends (items_of lines.old) (items_of lines.new)
        (λ rest. c.StoreAt row (c.Field field) (spec.number value) (spec.count_up field rest))) }
{
    put(
        lines,
        Line::StoreAt(row, CExpr::Field(field), number(value)),
    )?;
    put_count_up(alloc, lines, field)
}

/// Appends a return.
#[tactic(auto, unfolding(c_subset::specs::Lines::lines_of))]
pub(crate) fn put_return(lines: &mut List<Line>, value: CExpr) -> Result<(), Memory>
    ensures { OnOk result (lines_in (items_of lines.new)
        ≡ lines_in (items_of lines.old) ++ lines_of (c.Return (expr_of value))) }
{
    put(lines, Line::Return(value))
}
