//! The faults of transitions.
ghost use Rattle.std.specs.Prelude.{◌≡◌, Some};
ghost use Rattle.actions.specs.Names.{names_of};
ghost use Rattle.actions.specs.declared.sort.ExprSort.{ExprSort};
ghost use Rattle.resolved_tree.specs.Faults.{first_with};
ghost use Rattle.resolved_tree.specs.Promise.{IsExpr, IsTrans, AreTrans};
ghost use Rattle.resolved_tree.specs.Views.{expr_of, guard_of, trans_of, list_of, resolved_of};
ghost use Rattle.chart_types.specs.Types as spec;

use crate::expressions::with_expr;
use crate::faults::with_fault;
use crate::names::with_trigger;
use crate::statements::with_block;
use actions::{ExprFault, ExprSort};
use chart_tree::{FaultAt, FormKind};
use resolved_tree::{Resolved, ResolvedGuard, ResolvedTrans};
use token_grammar::Span;

/// The first fault, with that of a guard that isn't a flag.
#[tactic(auto, unfolding(resolved_tree::specs::Faults::first_with))]
fn with_flag(
    given: Result<ExprSort, ExprFault>,
    at: Span,
    found: Option<FaultAt>,
) -> Option<FaultAt>
    ensures { result ≡ first_with found (spec.no_flag given at) }
{
    match given {
        Ok(ExprSort::Number { .. }) => with_fault(FormKind::TypeClash, at, found),
        Ok(ExprSort::Flag) | Err(_) => found,
    }
}

/// The first fault, with those of a guard.
#[tactic(auto, using(crate::proofs::FaultLemmas::steps))]
fn with_guard(resolved: &Resolved, guard: &ResolvedGuard, found: Option<FaultAt>) -> Option<FaultAt>
    requires { IsExpr (resolved_of resolved.now) (expr_of guard.now.expr) }
    ensures { result ≡ first_with found
        (spec.guard_faults (names_of resolved.now.names) (Some (guard_of guard.now))) }
{
    let value = with_expr(resolved, &guard.expr, found);
    with_flag(value.sort, guard.at, value.found)
}

/// The first fault, with those of a transition.
#[tactic(auto, using(crate::proofs::FaultLemmas::steps))]
fn with_trans(resolved: &Resolved, trans: &ResolvedTrans, found: Option<FaultAt>) -> Option<FaultAt>
    requires { IsTrans (resolved_of resolved.now) (trans_of trans.now) }
    ensures { result ≡ first_with found
        (spec.trans_faults (names_of resolved.now.names) (trans_of trans.now)) }
{
    let triggered = match trans.event {
        None => found,
        Some(event) => with_trigger(&resolved.names, event, found),
    };
    let guarded = match &trans.guard {
        None => triggered,
        Some(guard) => with_guard(resolved, guard, triggered),
    };
    let found = with_block(resolved, trans.cond.items(), guarded);
    with_block(resolved, trans.act.items(), found)
}

/// The first fault, with those of a list of transitions.
pub(crate) fn with_list(
    resolved: &Resolved,
    list: &[ResolvedTrans],
    found: Option<FaultAt>,
) -> Option<FaultAt>
    requires { AreTrans (resolved_of resolved.now) (list_of list.now) }
    ensures { result ≡ first_with found
        (spec.list_faults (names_of resolved.now.names) (list_of list.now)) }
{
    let mut first = found;
    for trans in list {
        first = with_trans(resolved, trans, first);
    }
    first
}
