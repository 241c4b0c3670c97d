//! The faults of expressions.
ghost use Rattle.std.specs.Prelude.{◌≡◌};
ghost use Rattle.actions.specs.Names.{names_of};
ghost use Rattle.actions.specs.Sorts.{scope_of};
ghost use Rattle.resolved_tree.specs.Faults.{first_with};
ghost use Rattle.resolved_tree.specs.Promise.{IsInRange};
ghost use Rattle.resolved_tree.specs.Views.{expr_of, resolved_of};
ghost use Rattle.chart_types.specs.Types as spec;

use crate::literals::signed_literal;
use crate::operators::{Typed, with_binary, with_unary};
use actions::{ExprSort, datum_sort, literal_sort, state_sort};
use chart_tree::FaultAt;
use resolved_tree::{Resolved, ResolvedExpr};

/// What an expression gives, or why it has no sort; and the first fault, with those of its
/// operators. Each operand is looked at once.
#[tactic(auto, using(crate::proofs::FaultLemmas::expr_steps), unfolding(actions::specs::Sorts::sort_of))]
pub(crate) fn with_expr(resolved: &Resolved, expr: &ResolvedExpr, found: Option<FaultAt>) -> Typed
    requires { IsInRange (resolved_of resolved.now) (expr_of expr.now) }
    ensures sort { result.sort
        ≡ spec.sort_at (scope_of (names_of resolved.now.names)) (expr_of expr.now) }
    ensures found { result.found ≡ first_with found
        (spec.expr_faults (scope_of (names_of resolved.now.names)) (expr_of expr.now)) }
{
    let names = &resolved.names;
    match expr {
        ResolvedExpr::Lit(lit, _) => Typed {
            sort: literal_sort(signed_literal(false, *lit)),
            found,
        },
        ResolvedExpr::Flag(_, _) => Typed {
            sort: Ok(ExprSort::Flag),
            found,
        },
        ResolvedExpr::Name(datum) => Typed {
            sort: datum_sort(names, datum.number),
            found,
        },
        ResolvedExpr::Active(state, _) => Typed {
            sort: state_sort(names, state.number),
            found,
        },
        ResolvedExpr::Unary(word, operand, at) => {
            with_unary(*word, *at, with_expr(resolved, operand, found))
        }
        ResolvedExpr::Binary(word, left, right, at) => {
            let left = with_expr(resolved, left, found);
            let right = with_expr(resolved, right, left.found);
            with_binary(*word, *at, left.sort, right)
        }
    }
}
