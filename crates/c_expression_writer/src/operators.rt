//! Operators whose operands are both evaluated.
ghost use Rattle.std.specs.Prelude.{◌≡◌, IfOk};
ghost use Rattle.actions.specs.Sorts.{IsNarrow};
ghost use Rattle.c_subset.specs.Lines.{expr_of};
ghost use Rattle.c_subset.specs.Trees as c;
ghost use Rattle.c_functions.specs.Translation as spec;

use crate::arithmetic::{comparison, product, sum};
use crate::precision::{Precisions, precision_of, width_for};
use actions::{ExprSort, Op};
use c_shape::both_made;
use c_subset::{Arithmetic, CExpr, CType, Comparison};
use flow_base::Memory;
use std::alloc::Global;

/// An operator on two numbers. A quotient isn't written by an operator.
fn numbers(
    alloc: Global,
    op: Op,
    of: Precisions,
    left: CExpr,
    right: CExpr,
) -> Result<CExpr, Memory>
    ensures { IfOk result (λ made. expr_of made
        ≡ spec.numbers_c op of.left.frac of.left.size of.right.frac of.right.size
        (expr_of left) (expr_of right)) }
{
    match op {
        Op::Or => CExpr::either(alloc, left, right),
        Op::And => CExpr::both(alloc, left, right),
        Op::Eq => comparison(alloc, Comparison::IsEqual, of, left, right),
        Op::Ne => comparison(alloc, Comparison::IsUnequal, of, left, right),
        Op::Lt => comparison(alloc, Comparison::IsBelow, of, left, right),
        Op::Le => comparison(alloc, Comparison::IsAtMost, of, left, right),
        Op::Gt => comparison(alloc, Comparison::IsAbove, of, left, right),
        Op::Ge => comparison(alloc, Comparison::IsAtLeast, of, left, right),
        Op::Add => sum(alloc, Arithmetic::Plus, of, left, right),
        Op::Sub => sum(alloc, Arithmetic::Less, of, left, right),
        Op::Mul => product(alloc, of, left, right),
        Op::Div => {
            drop(right);
            Ok(left)
        }
    }
}

/// A comparison of the truth of two flags.
fn truths(alloc: Global, op: Comparison, left: CExpr, right: CExpr) -> Result<CExpr, Memory>
    ensures { IfOk result (λ made. expr_of made
        ≡ c.Compare op (c.Cast CType.Truth (expr_of left)) (c.Cast CType.Truth (expr_of right))) }
{
    let left = CExpr::cast(alloc, CType::Truth, left);
    let right = CExpr::cast(alloc, CType::Truth, right);
    let (left, right) = both_made(left, right)?;
    CExpr::compare(alloc, op, left, right)
}

/// An operator on two flags: `==` and `!=` of their truth.
fn flags(alloc: Global, op: Op, left: CExpr, right: CExpr) -> Result<CExpr, Memory>
    ensures { IfOk result (λ made. expr_of made
        ≡ spec.flags_c op (expr_of left) (expr_of right)) }
{
    match op {
        Op::Or => CExpr::either(alloc, left, right),
        Op::And => CExpr::both(alloc, left, right),
        Op::Ne => truths(alloc, Comparison::IsUnequal, left, right),
        Op::Eq | Op::Lt | Op::Le | Op::Gt | Op::Ge | Op::Add | Op::Sub | Op::Mul | Op::Div => {
            truths(alloc, Comparison::IsEqual, left, right)
        }
    }
}

/// An operator on operands of these sorts.
pub(crate) fn operator(
    alloc: Global,
    op: Op,
    sorts: (ExprSort, ExprSort),
    left: CExpr,
    right: CExpr,
) -> Result<CExpr, Memory>
    requires left { IsNarrow sorts.0 }
    requires right { IsNarrow sorts.1 }
    ensures { IfOk result (λ made. expr_of made
        ≡ spec.operator_c op sorts.0 sorts.1 (expr_of left) (expr_of right)) }
{
    match (precision_of(sorts.0), precision_of(sorts.1)) {
        (Some(a), Some(b)) => numbers(alloc, op, Precisions { left: a, right: b }, left, right),
        (Some(_), None) => flags(alloc, op, left, right),
        (None, _) => flags(alloc, op, left, right),
    }
}

/// `-` of a number of that sort.
pub(crate) fn negation(alloc: Global, sort: ExprSort, inner: CExpr) -> Result<CExpr, Memory>
    ensures { IfOk result (λ made. expr_of made ≡ spec.negation_c sort (expr_of inner)) }
{
    match sort {
        ExprSort::Flag => Ok(inner),
        ExprSort::Number { size, .. } => {
            let cast = CExpr::cast(alloc, CType::Signed(width_for(size)), inner)?;
            CExpr::minus(alloc, cast)
        }
    }
}
