//! How many locals the code of an expression sets.
ghost use Rattle.std.specs.Prelude.{◌≡◌, ◌+◌, ◌*◌, ◌<◌, ◌≤◌, ◌^◌};
ghost use Rattle.actions.specs.Trees.{expr_of};
ghost use Rattle.checked_chart.specs.Expressions.{operator_count};
ghost use Rattle.c_expression_writer.specs.Locals as spec;

use actions::{Expr, Op};

/// Whether the right side of an operator is evaluated only where the left side doesn't decide, by
/// code: of `&&` and `||` where it sets locals.
pub(crate) fn is_lazy(op: Op, right: u32) -> bool
    ensures { result ≡ spec.is_lazy op right }
{
    match op {
        Op::Or | Op::And => right != 0,
        Op::Eq | Op::Ne | Op::Lt | Op::Le | Op::Gt | Op::Ge => false,
        Op::Add | Op::Sub | Op::Mul | Op::Div => false,
    }
}

/// How many locals an operator sets itself, where its right side sets so many.
fn own_locals(op: Op, right: u32) -> u32
    ensures locals { result ≡ spec.own_locals op right }
    ensures few { result ≤ 2 }
{
    match op {
        Op::Div => 2,
        Op::Or | Op::And if right != 0 => 1,
        Op::Or | Op::And => 0,
        Op::Eq | Op::Ne | Op::Lt | Op::Le | Op::Gt | Op::Ge => 0,
        Op::Add | Op::Sub | Op::Mul => 0,
    }
}

/// How many locals the code of the expression sets.
#[tactic(auto, unfolding(crate::specs::Locals::locals_of))]
pub(crate) fn local_count(expr: &Expr) -> u32
    requires { 2 * operator_count (expr_of expr.now) < 2 ^ 32 }
    ensures locals { result ≡ spec.locals_of (expr_of expr.now) }
    ensures few { result ≤ 2 * operator_count (expr_of expr.now) }
{
    match expr {
        Expr::Lit(_) | Expr::Flag(_) | Expr::Read(_) | Expr::Active(_) => 0,
        Expr::Neg(inner) => local_count(inner),
        Expr::Not(inner) => local_count(inner),
        Expr::Bin(op, left, right) => {
            let held = local_count(right);
            local_count(left) + held + own_locals(*op, held)
        }
    }
}
