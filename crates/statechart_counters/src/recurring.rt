//! What states count again and again.
#![tactic(auto, using(crate::proofs::CollectLemmas::collect_steps))]

ghost use Rattle.std.specs.Prelude.{◌≡◌, ◌∷◌, [], map, IfOk, OnOk};
ghost use Rattle.std.specs.List.{flat_map, list_any};
ghost use Rattle.statechart_tree.specs.Views.{action_of, case_of, parts_of, stmt_of, trans_of};
ghost use Rattle.statechart_tree.specs.Views.{word_of};
ghost use Rattle.statechart_meaning.specs.Counting as spec;
ghost use Rattle.statechart_names.specs.Seen.{scope_seen};
ghost use Rattle.statechart_counters.specs.Again.{recurring_seen, collected};
ghost use Rattle.statechart_counters.specs.Again.{on_cases, trans_cases};

use crate::counted::{Counted, counted_at};
use flow_base::Memory;
use statechart_expressions::written_count;
use statechart_names::Scope;
use statechart_tree::{
    ActionWord, Case, SourceAction, SourceStmt, SourceTrans, StateParts, Trigger,
};
use std::alloc::Global;

/// An event that is counted up to a number, again and again.
#[derive(Clone, Copy)]
pub struct Recurring<'a> {
    /// The event.
    pub event: Counted<'a>,
    /// The number.
    pub number: u128,
}

/// Whether both count the same event up to the same number.
fn is_same(one: Recurring<'_>, other: Recurring<'_>) -> bool
    ensures { result ≡ spec.is_same (recurring_seen one.entry) (recurring_seen other.entry) }
{
    one.event.name.text.text() == other.event.name.text.text() && one.number == other.number
}

/// Whether the event and the number are among those that are counted.
fn has(all: &[Recurring<'_>], one: Recurring<'_>) -> bool
    ensures { result ≡ list_any (spec.is_same (recurring_seen one.entry)) (map recurring_seen all.now) }
{
    for other in all {
        if is_same(one, *other) {
            return true;
        }
    }
    false
}

/// Counts one more again and again, unless it is counted already.
fn add<'a>(all: &mut Vec<Recurring<'a>>, one: Recurring<'a>) -> Result<(), Memory>
    ensures { OnOk result (map recurring_seen all.new.items
        ≡ collected (map recurring_seen all.old.items) (recurring_seen one.entry ∷ [])) }
{
    if !has(all, one) {
        all.push(one)?;
    }
    Ok(())
}

/// Adds what cases count again and again.
fn add_cases<'a>(
    alloc: Global,
    scope: &Scope<'a>,
    cases: &'a [Case],
    all: &mut Vec<Recurring<'a>>,
) -> Result<(), Memory>
    ensures { OnOk result (map recurring_seen all.new.items
        ≡ collected (map recurring_seen all.old.items)
        (spec.every_cases (scope_seen scope.now) (map case_of cases.now))) }
{
    for case in cases {
        if let Trigger::Every(count, event, _) = &case.trigger {
            let number = written_count(alloc, scope, count, event)?.unwrap_or(0);
            let event = counted_at(scope.declared.events, event);
            add(all, Recurring { event, number })?;
        }
    }
    Ok(())
}

/// Adds what the actions for cases of words before a block count again and again.
fn add_words<'a>(
    alloc: Global,
    scope: &Scope<'a>,
    block: &'a [SourceStmt],
    words: &'a [ActionWord],
    all: &mut Vec<Recurring<'a>>,
) -> Result<(), Memory>
    ensures { OnOk result (map recurring_seen all.new.items
        ≡ collected (map recurring_seen all.old.items) (flat_map (on_cases (scope_seen scope.now))
        (flat_map (spec.on_word (map stmt_of block.now)) (map word_of words.now)))) }
{
    for word in words {
        if let ActionWord::On(cases, _) = word {
            add_cases(alloc, scope, cases.items(), all)?;
        }
    }
    Ok(())
}

/// Adds what the actions for cases count again and again.
fn add_ons<'a>(
    alloc: Global,
    scope: &Scope<'a>,
    actions: &'a [SourceAction],
    all: &mut Vec<Recurring<'a>>,
) -> Result<(), Memory>
    ensures { OnOk result (map recurring_seen all.new.items
        ≡ collected (map recurring_seen all.old.items)
        (flat_map (on_cases (scope_seen scope.now)) (spec.ons_in (map action_of actions.now)))) }
{
    for action in actions {
        add_words(
            alloc,
            scope,
            action.block.items(),
            action.words.items(),
            all,
        )?;
    }
    Ok(())
}

/// Adds what transitions count again and again.
fn add_list<'a>(
    alloc: Global,
    scope: &Scope<'a>,
    list: &'a [SourceTrans],
    all: &mut Vec<Recurring<'a>>,
) -> Result<(), Memory>
    ensures { OnOk result (map recurring_seen all.new.items
        ≡ collected (map recurring_seen all.old.items)
        (flat_map (trans_cases (scope_seen scope.now)) (map trans_of list.now))) }
{
    for trans in list {
        add_cases(alloc, scope, trans.cases.items(), all)?;
    }
    Ok(())
}

/// What a state counts again and again, each once, in the order of first use.
pub fn recurring_of<'a>(
    alloc: Global,
    scope: &Scope<'a>,
    parts: &'a StateParts,
) -> Result<Vec<Recurring<'a>>, Memory>
    ensures { IfOk result (λ v. map recurring_seen v.items
        ≡ spec.recurring (scope_seen scope.now) (parts_of parts.now)) }
{
    let mut all = Vec::new(alloc);
    add_ons(alloc, scope, parts.actions.items(), &mut all)?;
    add_list(alloc, scope, parts.inner.items(), &mut all)?;
    add_list(alloc, scope, parts.outer.items(), &mut all)?;
    Ok(all)
}
