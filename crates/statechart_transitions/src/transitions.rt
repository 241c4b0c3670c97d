//! Transitions without the new words: one for each case.
ghost use Rattle.std.specs.Prelude.{◌≡◌, ◌++◌, map, IfOk, OnOk};
ghost use Rattle.chart_tree.specs.Views as core;
ghost use Rattle.statechart_tree.specs.Views.{case_of, stmt_of, trans_of};
ghost use Rattle.statechart_meaning.specs.Transitions as spec;
ghost use Rattle.statechart_names.specs.Seen.{scope_seen};
ghost use Rattle.statechart_transitions.specs.Cases.{one_transition, case_transitions};

use crate::cases::{expand_case, is_again};
use crate::statements::expand_block;
use chart_copies::copy_dest;
use chart_tree::{DestText, NameText, Span, TransText};
use flow_base::{List, Memory, Text};
use statechart_names::Scope;
use statechart_tree::{Case, SourceStmt, SourceTrans};
use std::alloc::Global;

/// What the transitions of some cases share.
#[derive(Clone, Copy)]
struct Shared<'a> {
    /// Their place.
    at: Span,
    /// Their condition action.
    cond: &'a [SourceStmt],
    /// Their transition action.
    act: &'a [SourceStmt],
    /// Where they lead.
    dest: &'a DestText,
}

/// The transition of a case.
fn case_transition(
    alloc: Global,
    scope: &Scope<'_>,
    shared: Shared<'_>,
    case: &Case,
) -> Result<TransText, Memory>
    ensures { IfOk result (λ t. core.trans_of t ≡ one_transition (scope_seen scope.now) shared.entry.at
        (map stmt_of shared.entry.cond.now) (map stmt_of shared.entry.act.now) (core.dest_of shared.entry.dest.now)
        (spec.expand_case (scope_seen scope.now) (case_of case.now).trigger (case_of case.now).guard)) }
{
    let cond = List::of(expand_block(alloc, scope, shared.cond)?);
    let act = List::of(expand_block(alloc, scope, shared.act)?);
    let dest = copy_dest(alloc, shared.dest)?;
    let tried = expand_case(alloc, scope, case)?;
    Ok(TransText {
        at: shared.at,
        event: tried.event,
        guard: tried.guard,
        cond,
        act,
        dest,
    })
}

/// Appends a transition for each case, but for an event alone that stands before.
#[tactic(auto, using(crate::proofs::CaseLemmas::case_steps))]
fn push_cases(
    alloc: Global,
    scope: &Scope<'_>,
    shared: Shared<'_>,
    cases: &[Case],
    into: &mut Vec<TransText>,
) -> Result<(), Memory>
    ensures { OnOk result (map core.trans_of into.new.items ≡ map core.trans_of into.old.items
        ++ case_transitions (scope_seen scope.now) shared.entry.at (map case_of cases.now)
        (map stmt_of shared.entry.cond.now) (map stmt_of shared.entry.act.now) (core.dest_of shared.entry.dest.now)) }
{
    for (index, case) in cases.iter().enumerate() {
        if !is_again(&cases[..index], case) {
            into.push(case_transition(alloc, scope, shared, case)?)?;
        }
    }
    Ok(())
}

/// Appends what a transition stands for.
fn push_trans(
    alloc: Global,
    scope: &Scope<'_>,
    trans: &SourceTrans,
    into: &mut Vec<TransText>,
) -> Result<(), Memory>
    ensures { OnOk result (map core.trans_of into.new.items ≡ map core.trans_of into.old.items
        ++ spec.expand_trans (scope_seen scope.now) (trans_of trans.now)) }
{
    let shared = Shared {
        at: trans.at,
        cond: trans.cond.items(),
        act: trans.act.items(),
        dest: &trans.dest,
    };
    push_cases(alloc, scope, shared, trans.cases.items(), into)?;
    Ok(())
}

/// Appends what transitions stand for.
pub fn push_list(
    alloc: Global,
    scope: &Scope<'_>,
    list: &[SourceTrans],
    into: &mut Vec<TransText>,
) -> Result<(), Memory>
    ensures { OnOk result (map core.trans_of into.new.items ≡ map core.trans_of into.old.items
        ++ spec.expand_list (scope_seen scope.now) (map trans_of list.now)) }
{
    for trans in list {
        push_trans(alloc, scope, trans, into)?;
    }
    Ok(())
}

/// Appends what an action for cases stands for: inner transitions that go on with the next one.
pub fn push_on(
    alloc: Global,
    scope: &Scope<'_>,
    at: Span,
    cases: &[Case],
    block: &[SourceStmt],
    into: &mut Vec<TransText>,
) -> Result<(), Memory>
    ensures { OnOk result (map core.trans_of into.new.items ≡ map core.trans_of into.old.items
        ++ spec.expand_on (scope_seen scope.now) at (map case_of cases.now) (map stmt_of block.now)) }
{
    let text = Text::of(String::from_str(alloc, "after__next")?);
    let dest = DestText::Junction(NameText { text, at });
    let shared = Shared {
        at,
        cond: block,
        act: &[],
        dest: &dest,
    };
    push_cases(alloc, scope, shared, cases, into)?;
    Ok(())
}
