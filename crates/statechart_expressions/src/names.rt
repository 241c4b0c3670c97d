//! Names that are read.
ghost use Rattle.std.specs.Prelude.{◌≡◌, IfOk};
ghost use Rattle.chart_tree.specs.Views.{expr_of};
ghost use Rattle.statechart_meaning.specs.Scope as scopes;
ghost use Rattle.statechart_meaning.specs.Expressions as spec;
ghost use Rattle.statechart_names.specs.Seen.{scope_seen};

use crate::trees::value_expr;
use chart_copies::{copy_expr, copy_name};
use chart_tree::{ExprText, NameText, Span};
use flow_base::{Memory, Text};
use statechart_names::{Meaning, Scope, meaning_of};
use std::alloc::Global;

/// The place of the first name of a path.
pub fn path_place(path: &[NameText]) -> Span
    ensures { result ≡ (scopes.first_name path.now).at }
{
    match path {
        [] => Span { line: 0, column: 0 },
        [name, ..] => name.at,
    }
}

/// The first name of a path.
pub fn first_name(alloc: Global, path: &[NameText]) -> Result<NameText, Memory>
    ensures { IfOk result (λ name. name ≡ scopes.first_name path.now) }
{
    match path {
        [] => Ok(NameText {
            text: Text::of(String::new(alloc)),
            at: Span { line: 0, column: 0 },
        }),
        [name, ..] => Ok(copy_name(alloc, name)?),
    }
}

/// A name that is read, for what it denotes. An unknown one stays as it is.
pub(crate) fn name_expr(
    alloc: Global,
    scope: &Scope<'_>,
    path: &[NameText],
) -> Result<ExprText, Memory>
    ensures { IfOk result (λ e. expr_of e ≡ spec.name_expr (scope_seen scope.now) path.now) }
{
    match meaning_of(alloc, scope, path)? {
        Meaning::Argument(argument) => Ok(copy_expr(alloc, argument)?),
        Meaning::Datum(text) => Ok(ExprText::Name(NameText {
            text,
            at: path_place(path),
        })),
        Meaning::Value(value) => {
            let made = value_expr(alloc, value, path_place(path))?;
            Ok(made)
        }
        Meaning::Unknown => Ok(ExprText::Name(first_name(alloc, path)?)),
    }
}
