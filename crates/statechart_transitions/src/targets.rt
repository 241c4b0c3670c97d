//! Targets of assignments, and events that are raised.
ghost use Rattle.std.specs.Prelude.{◌≡◌, IfOk};
ghost use Rattle.chart_tree.specs.Views.{expr_of, stmt_of};
ghost use Rattle.statechart_meaning.specs.Scope as scopes;
ghost use Rattle.statechart_meaning.specs.Statements as spec;
ghost use Rattle.statechart_names.specs.Seen.{scope_seen};

use chart_copies::copy_name;
use chart_tree::{BinWord, EventWord, ExprText, NameText, Span, StmtText};
use flow_base::Memory;
use statechart_expressions::{binary, first_name, path_place};
use statechart_names::{Meaning, Scope, meaning_of};
use statechart_tree::SourceEvent;
use std::alloc::Global;

/// The datum that an argument is. Where it is none, the parameter's name stays as it is.
fn argument_target(
    alloc: Global,
    argument: &ExprText,
    path: &[NameText],
) -> Result<NameText, Memory>
    ensures { IfOk result (λ name. name
        ≡ spec.argument_target (expr_of argument.now) (scopes.first_name path.now)) }
{
    match argument {
        ExprText::Name(datum) => Ok(copy_name(alloc, datum)?),
        ExprText::Lit(_, _) => first_name(alloc, path),
        ExprText::Flag(_, _) => first_name(alloc, path),
        ExprText::Active(_, _) => first_name(alloc, path),
        ExprText::Unary(_, _, _) => first_name(alloc, path),
        ExprText::Binary(_, _, _, _) => first_name(alloc, path),
    }
}

/// What is assigned where a path is the target: the datum of an argument, or a datum. Another name
/// stays as it is.
pub(crate) fn target(
    alloc: Global,
    scope: &Scope<'_>,
    path: &[NameText],
) -> Result<NameText, Memory>
    ensures { IfOk result (λ name. name ≡ spec.target (scope_seen scope.now) path.now) }
{
    match meaning_of(alloc, scope, path)? {
        Meaning::Argument(argument) => argument_target(alloc, argument, path),
        Meaning::Datum(text) => Ok(NameText {
            text,
            at: path_place(path),
        }),
        Meaning::Value(_) => first_name(alloc, path),
        Meaning::Unknown => first_name(alloc, path),
    }
}

/// The target with the operator and the value.
pub(crate) fn update(
    alloc: Global,
    target: NameText,
    word: BinWord,
    value: ExprText,
    at: Span,
) -> Result<StmtText, Memory>
    ensures { IfOk result (λ stmt. stmt_of stmt ≡ spec.update target word (expr_of value) at) }
{
    let name = copy_name(alloc, &target)?;
    let value = binary(alloc, word, ExprText::Name(name), value, at)?;
    Ok(StmtText::Assign(target, value))
}

/// Whether it is the word of an output event.
fn is_output_word(word: EventWord) -> bool
    ensures { result ≡ spec.is_output_word word }
{
    match word {
        EventWord::Input => false,
        EventWord::Local => false,
        EventWord::Output => true,
    }
}

/// Whether the first event of the name is an output event.
fn is_output(events: &[SourceEvent], name: &str) -> bool
    ensures { result ≡ spec.is_output events.now name.now }
{
    for event in events {
        if event.name.text.text() == name {
            return is_output_word(event.kind);
        }
    }
    false
}

/// An output event is emitted, and another one sent.
pub(crate) fn raised(
    alloc: Global,
    events: &[SourceEvent],
    name: &NameText,
) -> Result<StmtText, Memory>
    ensures { IfOk result (λ stmt. stmt_of stmt ≡ spec.raised events.now name.now) }
{
    let copy = copy_name(alloc, name)?;
    if is_output(events, name.text.text()) {
        Ok(StmtText::Emit(copy))
    } else {
        Ok(StmtText::Send(copy, None))
    }
}
