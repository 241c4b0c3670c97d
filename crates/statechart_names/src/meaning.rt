//! What paths denote.
ghost use Rattle.std.specs.Prelude.{◌≡◌, map, IfOk, Option};
ghost use Rattle.std.specs.Option.{option_map, option_copied};
ghost use Rattle.chart_tree.specs.Views.{expr_of};
ghost use Rattle.statechart_meaning.specs.Scope as spec;
ghost use Rattle.statechart_meaning.specs.Functions.{bound};
ghost use Rattle.statechart_values.specs.Views.{value_seen};
ghost use Rattle.statechart_scope.specs.Frames.{frames_of};
ghost use Rattle.statechart_names.specs.Seen as seen;
ghost use Rattle.statechart_names.specs.Seen.{meaning_seen, scope_seen};

use crate::data::path_datum;
use crate::scope::Scope;
use chart_tree::{ExprText, NameText};
use flow_base::{Memory, Text};
use statechart_scope::Frames;
use statechart_values::{Value, path_value};
use std::alloc::Global;

/// What a path denotes.
#[derive(Drop)]
pub enum Meaning<'a> {
    /// A parameter: its argument.
    Argument(&'a ExprText),
    /// A datum: its name.
    Datum(Text),
    /// A constant or an enumerator: its value.
    Value(Value),
    /// Nothing.
    Unknown,
}

/// The argument of the first parameter of the name.
fn argument_named<'a>(
    params: &[NameText],
    arguments: &'a [ExprText],
    name: &str,
) -> Option<&'a ExprText>
    ensures { option_map expr_of (option_copied result)
        ≡ spec.argument_named (bound params.now (map expr_of arguments.now)) name.now }
{
    match params {
        [] => None,
        [param, params @ ..] => match arguments {
            [] => None,
            [argument, arguments @ ..] => {
                if param.text.text() == name {
                    Some(argument)
                } else {
                    argument_named(params, arguments, name)
                }
            }
        },
    }
}

/// The argument that a path denotes.
fn path_argument<'a>(scope: &Scope<'a>, path: &[NameText]) -> Option<&'a ExprText>
    ensures { option_map expr_of (option_copied result)
        ≡ spec.path_argument (scope_seen scope.now).arguments path.now }
{
    match path {
        [] => None,
        [name] => argument_named(scope.params, scope.arguments, name.text.text()),
        [_, _, ..] => None,
    }
}

/// The datum that a path denotes, or else the value.
fn datum_or<'a>(
    alloc: Global,
    frames: &Frames<'_>,
    path: &[NameText],
    value: Option<Value>,
) -> Result<Meaning<'a>, Memory>
    ensures { IfOk result (λ m. meaning_seen m ≡ spec.or_value (spec.path_datum (frames_of frames.now) path.now)
        (option_map value_seen value)) }
{
    match path_datum(alloc, frames, path)? {
        Some(text) => Ok(Meaning::Datum(text)),
        None => match value {
            Some(value) => Ok(Meaning::Value(value)),
            None => Ok(Meaning::Unknown),
        },
    }
}

/// What a path denotes that is no parameter: a plain name a datum before a value, another path a
/// value before a datum.
fn meaning_apart<'a>(
    alloc: Global,
    scope: &Scope<'_>,
    path: &[NameText],
) -> Result<Meaning<'a>, Memory>
    ensures { IfOk result (λ m. meaning_seen m ≡ seen.meaning_apart (scope_seen scope.now) path.now) }
{
    let value = path_value(scope.declared.enumerations, scope.declared.constants, path);
    match path {
        [] => Ok(Meaning::Unknown),
        [_] => datum_or(alloc, scope.frames, path, value),
        [_, _, ..] => match value {
            Some(value) => Ok(Meaning::Value(value)),
            None => datum_or(alloc, scope.frames, path, None),
        },
    }
}

/// What a path denotes.
pub fn meaning_of<'a>(
    alloc: Global,
    scope: &Scope<'a>,
    path: &[NameText],
) -> Result<Meaning<'a>, Memory>
    ensures { IfOk result (λ m. meaning_seen m ≡ spec.meaning_of (scope_seen scope.now) path.now) }
{
    match path_argument(scope, path) {
        Some(argument) => Ok(Meaning::Argument(argument)),
        None => meaning_apart(alloc, scope, path),
    }
}
