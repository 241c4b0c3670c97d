//! Expressions, with numbers for their names.
ghost use Rattle.std.specs.Prelude.{◌≡◌, ◌<◌, IfOk, OnOk};
ghost use Rattle.active_config.specs.Tree.{state_count};
ghost use Rattle.chart_tree.specs.Views as texts;
ghost use Rattle.resolved_tree.specs.Faults.{first_with};
ghost use Rattle.resolved_tree.specs.Resolved.{Unary, Binary};
ghost use Rattle.resolved_tree.specs.Views as views;
ghost use Rattle.chart_scope.specs.Uses as spec;

use crate::references;
use chart_places::Scopes;
use chart_tree::{BinWord, ExprText, FaultAt, Span, UnWord};
use resolved_tree::ResolvedExpr;
use std::alloc::{AllocError, Global};

/// An operator and its operand.
fn unary(
    alloc: Global,
    word: UnWord,
    operand: ResolvedExpr,
    at: Span,
) -> Result<ResolvedExpr, AllocError>
    ensures { IfOk result (λ r. views.expr_of r ≡ Unary word (views.expr_of operand) at) }
{
    Ok(ResolvedExpr::Unary(word, Box::new(alloc, operand)?, at))
}

/// An operator with its operands.
fn binary(
    alloc: Global,
    word: BinWord,
    left: ResolvedExpr,
    right: ResolvedExpr,
    at: Span,
) -> Result<ResolvedExpr, AllocError>
    ensures { IfOk result (λ r. views.expr_of r
        ≡ Binary word (views.expr_of left) (views.expr_of right) at) }
{
    Ok(ResolvedExpr::Binary(word, Box::new(alloc, left)?, Box::new(alloc, right)?, at))
}

/// An expression of a state, with numbers for its names. The first fault of these is kept.
#[tactic(auto, using(crate::proofs::FoundLemmas::found_steps), unfolding(resolved_tree::specs::Faults::first_with))]
pub(crate) fn expr(
    alloc: Global,
    scopes: &Scopes<'_>,
    state: u32,
    text: &ExprText,
    found: &mut Option<FaultAt>,
) -> Result<ResolvedExpr, AllocError>
    requires state { state < state_count scopes.now.tree }
    ensures built { IfOk result (λ r. views.expr_of r
        ≡ spec.resolved_expr scopes.now state (texts.expr_of text.now)) }
    ensures kept { OnOk result (found.new ≡ first_with found.old
        (spec.expr_faults scopes.now state (texts.expr_of text.now))) }
{
    match text {
        ExprText::Lit(lit, at) => Ok(ResolvedExpr::Lit(*lit, *at)),
        ExprText::Flag(value, at) => Ok(ResolvedExpr::Flag(*value, *at)),
        ExprText::Name(name) => Ok(ResolvedExpr::Name(references::datum(scopes, name, found))),
        ExprText::Active(path, at) => Ok(ResolvedExpr::Active(
            references::state(scopes, state, path, found),
            *at,
        )),
        ExprText::Unary(word, operand, at) => {
            let operand = expr(alloc, scopes, state, operand, found)?;
            unary(alloc, *word, operand, *at)
        }
        ExprText::Binary(word, left, right, at) => {
            let left = expr(alloc, scopes, state, left, found)?;
            let right = expr(alloc, scopes, state, right, found)?;
            binary(alloc, *word, left, right, *at)
        }
    }
}
