//! Places of expressions as they are written.
ghost use Rattle.std.specs.Prelude.{◌≡◌};
ghost use Rattle.statechart_tree.specs.Views.{expr_of};
ghost use Rattle.statechart_meaning.specs.Expressions as spec;

use crate::names::path_place;
use chart_tree::Span;
use statechart_tree::SourceExpr;

/// The place of the first token of an expression.
pub fn first_place(e: &SourceExpr) -> Span
    ensures { result ≡ spec.first_place (expr_of e.now) }
{
    match e {
        SourceExpr::Lit(_, at) => *at,
        SourceExpr::Flag(_, at) => *at,
        SourceExpr::Name(path) => path_place(path.names.items()),
        SourceExpr::Active(_, at) => *at,
        SourceExpr::Count(_, at) => *at,
        SourceExpr::Timed(_, _, _, at) => *at,
        SourceExpr::Call(name, _) => name.at,
        SourceExpr::Unary(_, _, at) => *at,
        SourceExpr::Binary(_, left, _, _) => first_place(left),
    }
}
