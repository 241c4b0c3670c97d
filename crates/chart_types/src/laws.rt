//! What holds of the sorts of expressions.
ghost use Rattle.std.specs.Prelude.{◌≡◌, List, [], Ok};
ghost use Rattle.std.specs.Result.{IsOkAnd};
ghost use Rattle.token_grammar.specs.declared.token.Span.{Span};
ghost use Rattle.chart_tree.specs.declared.name.LitText.{LitText};
ghost use Rattle.actions.specs.declared.sort.ExprSort.{ExprSort};
ghost use Rattle.actions.specs.Sorts.{Scope};
ghost use Rattle.resolved_tree.specs.Promise.{IsLiteral};
ghost use Rattle.resolved_tree.specs.Resolved.{Expr, Lit};
ghost use Rattle.chart_types.specs.Types.{sort_at, expr_faults};
ghost use Rattle.chart_types.specs.Literals.{IsOfLiteral};

/// A literal in range has a sort: a number of few bits.
pub fn literals_in_range_have_sorts()
    ensures { (c : Scope) (lit : LitText) (at : Span) → IsLiteral lit
        → IsOkAnd (sort_at c (Lit lit at)) IsOfLiteral }
{}

/// An expression that has a sort has no fault.
pub fn expressions_with_a_sort_have_no_fault()
    ensures { (c : Scope) (e : Expr) (sort : ExprSort) → sort_at c e ≡ Ok sort
        → expr_faults c e ≡ [] }
{}
