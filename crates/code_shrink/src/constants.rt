//! The truth of constant tests.
ghost use Rattle.std.specs.Prelude.{◌≡◌, [], true, IfOk, IsOk};
ghost use Rattle.actions.specs.Sorts.{sort_of};
ghost use Rattle.actions.specs.Trees.{expr_of};
ghost use Rattle.actions.specs.Values.{scope_at};
ghost use Rattle.code_shrink.specs.Neat as spec;

use actions::{Expr, Names, Vals, Value, eval};
use active_config::Marks;
use flow_base::{List, Memory};
use std::alloc::Global;

/// Whether the expression reads no datum and no state. It takes no memory.
#[tactic(auto, unfolding(crate::specs::Neat::is_closed))]
fn is_closed(expr: &Expr) -> bool
    ensures { result ≡ spec.is_closed (expr_of expr.now) }
{
    match expr {
        Expr::Lit(_) | Expr::Flag(_) => true,
        Expr::Read(_) | Expr::Active(_) => false,
        Expr::Neg(inner) => is_closed(inner),
        Expr::Not(inner) => is_closed(inner),
        Expr::Bin(_, left, right) => is_closed(left) && is_closed(right),
    }
}

/// The truth of an expression that reads no datum and no state and has a value; none of every other
/// one. Any data and marks serve: where it reads none of them, it must be well typed. It takes no
/// memory.
#[tactic(auto, using(crate::proofs::ConstantTruth::constant_found, crate::proofs::ConstantTruth::not_constant))]
pub fn truth_of_constant(expr: &Expr, vals: &Vals, marks: &Marks) -> Option<bool>
    requires { spec.is_closed (expr_of expr.now) ≡ true
        → IsOk (sort_of (scope_at vals.now marks.now) (expr_of expr.now)) }
    ensures { result ≡ spec.constant_truth (expr_of expr.now) }
{
    if !is_closed(expr) {
        return None;
    }
    match eval(expr, vals, marks) {
        Ok(Value::Flag(flag)) => Some(flag),
        Ok(Value::Number(_)) => Some(false),
        Err(_) => None,
    }
}

/// No data.
pub(crate) fn no_data(alloc: Global) -> Result<Vals, Memory>
    ensures { IfOk result (λ vals. vals ≡ []) }
{
    let names = Names {
        states: List::of(Vec::new(alloc)),
        vars: List::of(Vec::new(alloc)),
        events: List::of(Vec::new(alloc)),
    };
    Vals::make(alloc, &names)
}
