//! Cases of transitions.
ghost use Rattle.std.specs.Prelude.{◌≡◌, map, IfOk, Option, is_some};
ghost use Rattle.std.specs.Option.{option_map, option_copied};
ghost use Rattle.chart_tree.specs.Views as core;
ghost use Rattle.flow_base.specs.Names.{index_of};
ghost use Rattle.statechart_tree.specs.Trees as trees;
ghost use Rattle.statechart_tree.specs.Views.{case_of, guard_of, expr_of};
ghost use Rattle.statechart_meaning.specs.Expressions as expressions;
ghost use Rattle.statechart_meaning.specs.Transitions as spec;
ghost use Rattle.statechart_names.specs.Seen.{scope_seen};
ghost use Rattle.statechart_transitions.specs.Cases.{tried_seen, tested_by, name_text, some_text};
ghost use Rattle.statechart_transitions.specs.Cases.{alone_in};

use chart_copies::copy_name;
use chart_tree::{BinWord, ExprText, GuardText, NameText, Span};
use flow_base::{Memory, Text};
use statechart_expressions::{
    binary, counted_event, counted_text, expand_count, expand_expr, first_place, test,
    written_count,
};
use statechart_names::Scope;
use statechart_scope::every_name;
use statechart_tree::{Case, SourceExpr, SourceGuard, TimeWord, Trigger};
use statechart_values::number;
use std::alloc::Global;

/// An event and a guard.
#[derive(Drop)]
pub(crate) struct Tried {
    /// The event.
    pub event: Option<NameText>,
    /// The guard.
    pub guard: Option<GuardText>,
}

/// A guard.
fn expand_guard(
    alloc: Global,
    scope: &Scope<'_>,
    guard: &Option<SourceGuard>,
) -> Result<Option<GuardText>, Memory>
    ensures { IfOk result (λ o. option_map core.guard_of o
        ≡ spec.expand_guard (scope_seen scope.now) (option_map guard_of guard.now)) }
{
    match guard {
        None => Ok(None),
        Some(guard) => {
            let expr = expand_expr(alloc, scope, &guard.expr)?;
            Ok(Some(GuardText { expr, at: guard.at }))
        }
    }
}

/// A test at a place, and then the guard, if there is one.
fn with_test(
    alloc: Global,
    scope: &Scope<'_>,
    test: ExprText,
    at: Span,
    guard: &Option<SourceGuard>,
) -> Result<GuardText, Memory>
    ensures { IfOk result (λ g. core.guard_of g ≡ spec.with_test (scope_seen scope.now)
        (core.expr_of test) at (option_map guard_of guard.now)) }
{
    match guard {
        None => Ok(GuardText { expr: test, at }),
        Some(guard) => {
            let rest = expand_expr(alloc, scope, &guard.expr)?;
            let expr = binary(alloc, BinWord::And, test, rest, guard.at)?;
            Ok(GuardText { expr, at: guard.at })
        }
    }
}

/// Whether the counter of `every` has come to its number.
fn every_test(
    alloc: Global,
    scope: &Scope<'_>,
    count: &SourceExpr,
    event: &NameText,
    at: Span,
) -> Result<ExprText, Memory>
    ensures { IfOk result (λ e. core.expr_of e ≡ spec.every_test (scope_seen scope.now)
        (expressions.every_number (scope_seen scope.now) (expr_of count.now) event.now)
        (expressions.first_place (expr_of count.now)) event.now at) }
{
    let times = written_count(alloc, scope, count, event)?.unwrap_or(0);
    let counted = counted_text(scope.declared.events, event);
    let text = Text::of(every_name(alloc, scope.frames, counted, times)?);
    let limit = ExprText::Lit(number(times), first_place(count));
    let counter = ExprText::Name(NameText { text, at });
    let made = binary(alloc, BinWord::Eq, counter, limit, at)?;
    Ok(made)
}

/// An event with a test, and the guard.
fn tested(
    alloc: Global,
    scope: &Scope<'_>,
    event: &NameText,
    test: ExprText,
    at: Span,
    guard: &Option<SourceGuard>,
) -> Result<Tried, Memory>
    ensures { IfOk result (λ t. tried_seen t ≡ tested_by (scope_seen scope.now) event.now
        (core.expr_of test) at (option_map guard_of guard.now)) }
{
    let guard = with_test(alloc, scope, test, at, guard)?;
    let event = counted_event(alloc, scope.declared.events, event)?;
    Ok(Tried {
        event: Some(event),
        guard: Some(guard),
    })
}

/// The event and the guard of a case with a temporal word.
fn timed(
    alloc: Global,
    scope: &Scope<'_>,
    word: TimeWord,
    count: &SourceExpr,
    event: &NameText,
    at: Span,
    guard: &Option<SourceGuard>,
) -> Result<Tried, Memory>
    ensures { IfOk result (λ t. tried_seen t ≡ spec.expand_case (scope_seen scope.now)
        (trees.AtTime word (expr_of count.now) event.now at) (option_map guard_of guard.now)) }
{
    let count = expand_count(alloc, scope, count, event)?;
    let test = test(alloc, scope, word, count, event, at)?;
    let made = tested(alloc, scope, event, test, at, guard)?;
    Ok(made)
}

/// The event and the guard of a case.
pub(crate) fn expand_case(alloc: Global, scope: &Scope<'_>, case: &Case) -> Result<Tried, Memory>
    ensures { IfOk result (λ t. tried_seen t ≡ spec.expand_case (scope_seen scope.now)
        (case_of case.now).trigger (case_of case.now).guard) }
{
    match &case.trigger {
        Trigger::Always => Ok(Tried {
            event: None,
            guard: expand_guard(alloc, scope, &case.guard)?,
        }),
        Trigger::On(event) => {
            let guard = expand_guard(alloc, scope, &case.guard)?;
            let event = copy_name(alloc, event)?;
            Ok(Tried {
                event: Some(event),
                guard,
            })
        }
        Trigger::Timed(word, count, event, at) => {
            timed(alloc, scope, *word, count, event, *at, &case.guard)
        }
        Trigger::Every(count, event, at) => {
            let test = every_test(alloc, scope, count, event, *at)?;
            let made = tested(alloc, scope, event, test, *at, &case.guard)?;
            Ok(made)
        }
    }
}

/// The event of a case that is an event alone.
fn event_alone(case: &Case) -> Option<&NameText>
    ensures { option_map name_text (option_copied result)
        ≡ spec.event_alone (case_of case.now).trigger (case_of case.now).guard }
{
    if case.guard.is_some() {
        return None;
    }
    match &case.trigger {
        Trigger::On(event) => Some(event),
        Trigger::Always => None,
        Trigger::Timed(_, _, _, _) => None,
        Trigger::Every(_, _, _) => None,
    }
}

/// Whether a case is an event alone of that name.
fn is_alone(case: &Case, name: &str) -> bool
    ensures { result ≡ is_some (index_of name.now
        (some_text (spec.event_alone (case_of case.now).trigger (case_of case.now).guard))) }
{
    match event_alone(case) {
        None => false,
        Some(event) => event.text.text() == name,
    }
}

/// Whether an event alone of that name is among cases.
#[tactic(auto, using(crate::proofs::CaseLemmas::alone_steps))]
fn has_alone(cases: &[Case], name: &str) -> bool
    ensures { result ≡ is_some (index_of name.now (alone_in (map case_of cases.now))) }
{
    for case in cases {
        if is_alone(case, name) {
            return true;
        }
    }
    false
}

/// Whether a case is an event alone that stands among the cases before it.
pub(crate) fn is_again(before: &[Case], case: &Case) -> bool
    ensures { result ≡ spec.stands_before (alone_in (map case_of before.now))
        (spec.event_alone (case_of case.now).trigger (case_of case.now).guard) }
{
    match event_alone(case) {
        None => false,
        Some(event) => has_alone(before, event.text.text()),
    }
}
