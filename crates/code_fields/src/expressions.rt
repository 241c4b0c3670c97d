//! Expressions, read from the front of a text.
ghost use Rattle.std.specs.Prelude.{◌≡◌, option_map, IfOk};
ghost use Rattle.actions.specs.Trees.{expr_of};
ghost use Rattle.code_fields.specs.Expressions as spec;
ghost use Rattle.code_fields.specs.Views as views;

use crate::cuts::{Field, field_of};
use crate::operators::{Operator, atom_of, operator_of};
use actions::{Expr, Op};
use flow_base::chart_limits::OPERATOR_LIMIT;
use std::alloc::{AllocError, Global};

/// An expression at the front of a text.
#[derive(Drop)]
pub struct ReadExpr<'a> {
    /// The expression.
    pub expr: Expr,
    /// How many operators there may be after it.
    pub left: u32,
    /// What stands after the space that follows it, if there is one.
    pub rest: Option<&'a [u8]>,
}

/// The expression of a text, if it is one with at most `OPERATOR_LIMIT` operators.
#[tactic(auto, unfolding(crate::specs::Expressions::expr_of))]
pub fn expr_of(alloc: Global, text: &[u8]) -> Result<Option<Expr>, AllocError>
    ensures { IfOk result (λ expr. option_map expr_of expr ≡ spec.expr_of text.now) }
{
    let Some(front) = front_of(alloc, text, OPERATOR_LIMIT + 1, OPERATOR_LIMIT)? else {
        return Ok(None);
    };
    match front.rest {
        None => Ok(Some(front.expr)),
        Some(_) => Ok(None),
    }
}

/// The expression at the front of a text. Operators round each other and an operand are fewer than
/// `depth`, and all operators are at most `left`: the first that is one too many ends the reading.
#[tactic(auto, unfolding(crate::specs::Expressions::front_of))]
fn front_of(
    alloc: Global,
    text: &[u8],
    depth: u32,
    left: u32,
) -> Result<Option<ReadExpr<'_>>, AllocError>
    ensures { IfOk result (λ front.
        option_map views.front_of front ≡ spec.front_of depth left text.now) }
{
    let Some(depth) = depth.checked_sub(1) else {
        return Ok(None);
    };
    let token = field_of(text);
    let Some(operator) = operator_of(token.word) else {
        return Ok(operand(token, left));
    };
    let Some(left) = left.checked_sub(1) else {
        return Ok(None);
    };
    let Some(rest) = token.rest else {
        return Ok(None);
    };
    let Some(first) = front_of(alloc, rest, depth, left)? else {
        return Ok(None);
    };
    match operator {
        Operator::Neg => Ok(Some(negated(alloc, first)?)),
        Operator::Not => Ok(Some(denied(alloc, first)?)),
        Operator::Bin(op) => {
            let expr = Box::new(alloc, first.expr)?;
            let Some(rest) = first.rest else {
                return Ok(None);
            };
            let Some(second) = front_of(alloc, rest, depth, first.left)? else {
                return Ok(None);
            };
            Ok(Some(joined(alloc, op, expr, second)?))
        }
    }
}

/// An operator between its first operand and its second.
fn joined(
    alloc: Global,
    op: Op,
    first: Box<Expr>,
    second: ReadExpr<'_>,
) -> Result<ReadExpr<'_>, AllocError>
    ensures { IfOk result (λ front.
        views.front_of front ≡ spec.with_second op (expr_of first.value) (views.front_of second.entry)) }
{
    Ok(ReadExpr {
        expr: Expr::Bin(op, first, Box::new(alloc, second.expr)?),
        ..second
    })
}

/// A token that is no operator.
fn operand(token: Field<'_>, left: u32) -> Option<ReadExpr<'_>>
    ensures { option_map views.front_of result ≡ spec.operand left (views.field_of token.entry) }
{
    let expr = atom_of(token.word)?;
    Some(ReadExpr {
        expr,
        left,
        rest: token.rest,
    })
}

/// `-` of one number.
fn negated(alloc: Global, first: ReadExpr<'_>) -> Result<ReadExpr<'_>, AllocError>
    ensures { IfOk result (λ front. views.front_of front ≡ spec.negated (views.front_of first.entry)) }
{
    Ok(ReadExpr {
        expr: Expr::Neg(Box::new(alloc, first.expr)?),
        ..first
    })
}

/// `!` of a flag.
fn denied(alloc: Global, first: ReadExpr<'_>) -> Result<ReadExpr<'_>, AllocError>
    ensures { IfOk result (λ front. views.front_of front ≡ spec.denied (views.front_of first.entry)) }
{
    Ok(ReadExpr {
        expr: Expr::Not(Box::new(alloc, first.expr)?),
        ..first
    })
}
