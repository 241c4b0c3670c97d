//! Expressions: lines for their code, and an operand.
ghost use Rattle.std.specs.Prelude.{◌≡◌, ◌+◌, ◌*◌, ◌<◌, ◌≤◌, ◌^◌, IfOk, IsOk, OnOk};
ghost use Rattle.flow_base.specs.Lists.{items_of};
ghost use Rattle.flow_base.specs.declared.chart_limits.TheConstants.{OPERATOR_LIMIT};
ghost use Rattle.actions.specs.Sorts.{IsNarrow, binary_sort, negative_sort, scope_of, sort_of};
ghost use Rattle.actions.specs.Trees.{expr_of};
ghost use Rattle.c_functions.specs.Translation as spec;
ghost use Rattle.c_functions.specs.Plans.{Shape, expression_c, faulted, helper};
ghost use Rattle.c_functions.specs.Code.{written};
ghost use Rattle.c_subset.specs.Lines as lines;
ghost use Rattle.checked_chart.specs.Expressions.{operator_count};
ghost use Rattle.c_shape.specs.FileShapes.{shape_seen};
ghost use Rattle.c_expression_writer.specs.Written.{IsWritten, Lines, denial_of, flat_at};
ghost use Rattle.c_expression_writer.specs.Written.{negative_of, seen, sort_at};

use crate::decisions::{begin_right_side, decided, end_right_side};
use crate::leaves::{active, datum, flag, literal};
use crate::locals::{is_lazy, local_count};
use crate::operand::Operand;
use crate::operators::{negation, operator};
use crate::quotients::quotient;
use crate::sorts::sort_in;
use actions::{Expr, ExprSort, Op, binary_sort, negative_sort};
use c_shape::FileShape;
use c_subset::{CExpr, Line};
use flow_base::{List, Memory};
use std::alloc::Global;

/// The first local that a function's parameters and own locals leave to expressions.
pub(crate) const FIRST_FREE: u32 = 7;

/// `-` of a number.
fn negated(alloc: Global, inner: Operand) -> Result<Operand, Memory>
    requires { IsNarrow inner.sort }
    ensures { IfOk result (λ x. (K : Shape) (lines : Lines)
        → IsWritten K lines lines (negative_of inner) (spec.sort_in (negative_sort inner.sort)) x) }
{
    Ok(Operand {
        expr: negation(alloc, inner.sort, inner.expr)?,
        sort: sort_of_negative(inner.sort),
        next: inner.next,
    })
}

/// The sort of `-` of an operand of that sort.
fn sort_of_negative(sort: ExprSort) -> ExprSort
    requires { IsNarrow sort }
    ensures sort { result ≡ spec.sort_in (negative_sort sort) }
    ensures narrow { IsNarrow result }
{
    sort_in(negative_sort(sort))
}

/// `!` of a flag.
fn denied(alloc: Global, inner: Operand) -> Result<Operand, Memory>
    ensures { IfOk result (λ x. (K : Shape) (lines : Lines)
        → IsWritten K lines lines (denial_of inner) ExprSort.Flag x) }
{
    Ok(Operand {
        expr: CExpr::bang(alloc, inner.expr)?,
        sort: ExprSort::Flag,
        next: inner.next,
    })
}

/// An operator of two operands that are both evaluated.
fn eager(alloc: Global, op: Op, left: Operand, right: Operand) -> Result<Operand, Memory>
    requires left { IsNarrow left.sort }
    requires right { IsNarrow right.sort }
    ensures { IfOk result (λ x. (K : Shape) (lines : Lines)
        → IsWritten K lines lines
        (spec.eager_flat op left.sort right.sort (seen left) (seen right))
        (spec.sort_in (binary_sort op left.sort right.sort)) x) }
{
    let sorts = (left.sort, right.sort);
    let sort = sort_in(binary_sort(op, left.sort, right.sort));
    Ok(Operand {
        expr: operator(alloc, op, sorts, left.expr, right.expr)?,
        sort,
        next: right.next,
    })
}

/// Appends an operator of two operands.
fn join(
    alloc: Global,
    shape: &FileShape<'_>,
    out: &mut List<Line>,
    op: Op,
    left: Operand,
    right: Operand,
) -> Result<Operand, Memory>
    requires sorted { IsOk (binary_sort op left.sort right.sort) }
    requires left { IsNarrow left.sort }
    requires right { IsNarrow right.sort }
    requires room { right.next + 2 < 2 ^ 32 }
    ensures { IfOk result (IsWritten (shape_seen shape.now) (items_of out.old) (items_of out.new)
        (spec.operator_flat op left.sort right.sort (seen left) (seen right))
        (spec.sort_in (binary_sort op left.sort right.sort))) }
{
    match op {
        Op::Div => quotient(alloc, shape, out, left, right),
        _ => eager(alloc, op, left, right),
    }
}

/// Appends the code of an expression, which may set locals from `next` on, and gives an operand
/// that reads what the code set.
pub(crate) fn write_operand(
    alloc: Global,
    shape: &FileShape<'_>,
    out: &mut List<Line>,
    next: u32,
    expr: &Expr,
) -> Result<Operand, Memory>
    requires sorted { IsOk (sort_of (scope_of (shape_seen shape.now).names) (expr_of expr.now)) }
    requires room { next + 2 * operator_count (expr_of expr.now) < 2 ^ 32 }
    ensures { IfOk result (IsWritten (shape_seen shape.now) (items_of out.old) (items_of out.new)
        (flat_at (shape_seen shape.now) next (expr_of expr.now))
        (sort_at (shape_seen shape.now) (expr_of expr.now))) }
{
    match expr {
        Expr::Lit(number) => Ok(literal(*number, next)),
        Expr::Flag(value) => Ok(flag(*value, next)),
        Expr::Read(variable) => Ok(datum(shape, *variable, next)),
        Expr::Active(state) => active(alloc, shape, *state, next),
        Expr::Neg(inner) => {
            let inner = write_operand(alloc, shape, out, next, inner)?;
            negated(alloc, inner)
        }
        Expr::Not(inner) => {
            let inner = write_operand(alloc, shape, out, next, inner)?;
            denied(alloc, inner)
        }
        Expr::Bin(op, left, right) => {
            let first = write_operand(alloc, shape, out, next, left)?;
            let from = first.next;
            let right: &Expr = right;
            let locals = local_count(right);
            if is_lazy(*op, locals) {
                let local = from + locals;
                begin_right_side(alloc, out, *op, local, first.expr)?;
                let second = write_operand(alloc, shape, out, from, right)?;
                end_right_side(out, local, second.expr)?;
                return Ok(decided(local));
            }
            match write_operand(alloc, shape, out, from, right) {
                Ok(second) => join(alloc, shape, out, *op, first, second),
                Err(Memory) => {
                    drop(first);
                    Err(Memory)
                }
            }
        }
    }
}

/// Appends the code of an expression in a procedure, and gives the C of its value.
pub fn write_test(
    alloc: Global,
    shape: &FileShape<'_>,
    out: &mut List<Line>,
    expr: &Expr,
) -> Result<CExpr, Memory>
    requires sorted { IsOk (sort_of (scope_of (shape_seen shape.now).names) (expr_of expr.now)) }
    requires operators { operator_count (expr_of expr.now) ≤ OPERATOR_LIMIT }
    ensures lines { OnOk result (lines.Appends (items_of out.old) (items_of out.new)
        (written (helper (shape_seen shape.now)) (faulted (shape_seen shape.now))
        (expression_c (shape_seen shape.now) (expr_of expr.now)).code)) }
    ensures test { IfOk result (λ test.
        lines.expr_of test ≡ (expression_c (shape_seen shape.now) (expr_of expr.now)).expr) }
{
    let operand = write_operand(alloc, shape, out, FIRST_FREE, expr)?;
    Ok(operand.expr)
}
