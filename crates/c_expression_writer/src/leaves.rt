//! Expressions without operands, and with one.
ghost use Rattle.std.specs.Prelude.{◌≡◌, ◌<◌, pos, IfOk, IsOk, if◌then◌else◌};
ghost use Rattle.active_config.specs.Tree.{state_count};
ghost use Rattle.actions.specs.Exprs as exprs;
ghost use Rattle.actions.specs.Sorts as sorts;
ghost use Rattle.c_functions.specs.Plans.{Shape};
ghost use Rattle.c_shape.specs.FileShapes.{shape_seen};
ghost use Rattle.c_expression_writer.specs.Written.{IsWritten, Lines, flat_at, literal_width};
ghost use Rattle.c_expression_writer.specs.Written.{sort_at};

use crate::operand::Operand;
use crate::operators::negation;
use crate::precision::width_for;
use crate::sorts::sort_in;
use actions::{ExprSort, datum_sort, literal_sort, negative_sort};
use c_shape::FileShape;
use c_subset::{CExpr, CType, Width};
use fixed_point::Num;
use flow_base::Memory;
use std::alloc::Global;

/// The width of the type of a literal of that sort.
fn literal_width(sort: ExprSort) -> Width
    ensures { result ≡ literal_width sort }
{
    match sort {
        ExprSort::Flag => Width::W32,
        ExprSort::Number { size, .. } => width_for(size),
    }
}

/// A number.
pub(crate) fn literal(number: Num, next: u32) -> Operand
    requires { IsOk (sorts.literal_sort number) }
    ensures { (K : Shape) (lines : Lines)
        → IsWritten K lines lines (flat_at K next (exprs.Lit number))
        (sort_at K (exprs.Lit number)) result }
{
    let sort = sort_in(literal_sort(number));
    let to = CType::Signed(literal_width(sort));
    Operand {
        expr: CExpr::Const(to, number.mantissa),
        sort,
        next,
    }
}

/// 1 for true and 0 for false.
fn flag_constant(flag: bool) -> i128
    ensures { result ≡ (if flag then pos 1 else pos 0) }
{
    i128::from(flag)
}

/// A flag.
pub(crate) fn flag(flag: bool, next: u32) -> Operand
    ensures { (K : Shape) (lines : Lines)
        → IsWritten K lines lines (flat_at K next (exprs.Flag flag))
        (sort_at K (exprs.Flag flag)) result }
{
    Operand {
        expr: CExpr::Const(CType::Truth, flag_constant(flag)),
        sort: ExprSort::Flag,
        next,
    }
}

/// The value of a datum.
pub(crate) fn datum(shape: &FileShape<'_>, datum: u32, next: u32) -> Operand
    ensures { (lines : Lines)
        → IsWritten (shape_seen shape.now) lines lines
        (flat_at (shape_seen shape.now) next (exprs.Read datum))
        (sort_at (shape_seen shape.now) (exprs.Read datum)) result }
{
    Operand {
        expr: CExpr::Field(datum),
        sort: sort_in(datum_sort(shape.names, datum)),
        next,
    }
}

/// Whether a state is active.
pub(crate) fn active(
    alloc: Global,
    shape: &FileShape<'_>,
    state: u32,
    next: u32,
) -> Result<Operand, Memory>
    requires { state < state_count (shape_seen shape.now).tree }
    ensures { IfOk result (λ x. (lines : Lines)
        → IsWritten (shape_seen shape.now) lines lines
        (flat_at (shape_seen shape.now) next (exprs.Active state))
        (sort_at (shape_seen shape.now) (exprs.Active state)) x) }
{
    Ok(Operand {
        expr: shape.on_test(alloc, state)?,
        sort: ExprSort::Flag,
        next,
    })
}
