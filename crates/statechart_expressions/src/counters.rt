//! Counters, and the tests of temporal words.
ghost use Rattle.std.specs.Prelude.{◌≡◌, IfOk};
ghost use Rattle.chart_tree.specs.Trees as core;
ghost use Rattle.chart_tree.specs.Views.{expr_of};
ghost use Rattle.statechart_meaning.specs.Expressions as spec;
ghost use Rattle.statechart_meaning.specs.Names as names;
ghost use Rattle.statechart_meaning.specs.Scope.{home_of};
ghost use Rattle.statechart_meaning.specs.Times as times;
ghost use Rattle.statechart_names.specs.Seen.{scope_seen};
ghost use Rattle.statechart_expressions.specs.Called.{asked};

use crate::trees::binary;
use chart_tree::{BinWord, ExprText, NameText, Span};
use flow_base::{Memory, Text};
use statechart_names::Scope;
use statechart_scope::counter_name;
use statechart_tree::{SourceEvent, TimeWord};
use statechart_values::timer_of;
use std::alloc::Global;

/// The name of the event that is counted where an event or a unit stands.
pub fn counted_text<'a>(events: &'a [SourceEvent], name: &'a NameText) -> &'a str
    ensures { result.now ≡ (times.counted_event events.now name.now).text }
{
    match timer_of(events, name.text.text()) {
        None => name.text.text(),
        Some(timer) => timer.clock.name.text.text(),
    }
}

/// The event that is counted where an event or a unit stands.
pub fn counted_event(
    alloc: Global,
    events: &[SourceEvent],
    name: &NameText,
) -> Result<NameText, Memory>
    ensures { IfOk result (λ event. event ≡ times.counted_event events.now name.now) }
{
    let text = String::from_str(alloc, counted_text(events, name))?;
    Ok(NameText {
        text: Text::of(text),
        at: name.at,
    })
}

/// The counter of an event for the state in which it is used, at the place of the word.
pub(crate) fn counter(
    alloc: Global,
    scope: &Scope<'_>,
    event: &str,
    at: Span,
) -> Result<ExprText, Memory>
    ensures { IfOk result (λ e. expr_of e ≡ core.Name
        (names.named (names.counter_name (home_of (scope_seen scope.now).frames) event.now) at)) }
{
    let text = counter_name(alloc, scope.frames, event)?;
    Ok(ExprText::Name(NameText {
        text: Text::of(text),
        at,
    }))
}

/// The operator between a counter and the count of a word.
fn asked(word: TimeWord) -> BinWord
    ensures { result ≡ asked word }
{
    match word {
        TimeWord::After => BinWord::Ge,
        TimeWord::Before => BinWord::Lt,
        TimeWord::At => BinWord::Eq,
    }
}

/// The test of a word, where that is the count.
#[tactic(auto, using(crate::proofs::CounterLemmas::test_steps))]
pub fn test(
    alloc: Global,
    scope: &Scope<'_>,
    word: TimeWord,
    count: ExprText,
    event: &NameText,
    at: Span,
) -> Result<ExprText, Memory>
    ensures { IfOk result (λ e. expr_of e
        ≡ spec.test (scope_seen scope.now) word (expr_of count) event.now at) }
{
    let counter = counter(alloc, scope, counted_text(scope.declared.events, event), at)?;
    let made = binary(alloc, asked(word), counter, count, at)?;
    Ok(made)
}
