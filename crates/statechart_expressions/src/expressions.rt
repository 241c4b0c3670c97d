//! Expressions without the new words.
ghost use Rattle.std.specs.Prelude.{◌≡◌, map, IfOk};
ghost use Rattle.chart_tree.specs.Views as core;
ghost use Rattle.statechart_tree.specs.Views.{expr_of, row_of};
ghost use Rattle.statechart_meaning.specs.Expressions as spec;
ghost use Rattle.statechart_names.specs.Seen.{scope_seen};

use crate::calls::{function_named, inside};
use crate::counters::{counter, test};
use crate::counts::written_count;
use crate::names::name_expr;
use crate::places::first_place;
use crate::trees::{binary, in_steps, unary};
use chart_copies::{copy_name, copy_path};
use chart_tree::{ExprText, NameText};
use flow_base::Memory;
use statechart_names::Scope;
use statechart_tree::{FunctionBody, SourceExpr};
use statechart_values::{number, timer_of};
use std::alloc::Global;

/// A count: a whole literal where it is a literal, a constant or an enumerator, and else the
/// expression, in steps of the clock where it has a unit.
#[cycle(expressions)]
pub fn expand_count(
    alloc: Global,
    scope: &Scope<'_>,
    e: &SourceExpr,
    event: &NameText,
) -> Result<ExprText, Memory>
    ensures { IfOk result (λ x. core.expr_of x ≡ spec.count (scope_seen scope.now) (expr_of e.now)
        (spec.expand_expr (scope_seen scope.now) (expr_of e.now)) event.now) }
{
    match written_count(alloc, scope, e, event)? {
        Some(count) => Ok(ExprText::Lit(number(count), first_place(e))),
        None => {
            let count = expand_expr(alloc, scope, e)?;
            let timer = timer_of(scope.declared.events, event.text.text());
            let steps = in_steps(alloc, timer, count)?;
            Ok(steps)
        }
    }
}

/// An expression.
#[cycle(expressions)]
pub fn expand_expr(alloc: Global, scope: &Scope<'_>, e: &SourceExpr) -> Result<ExprText, Memory>
    ensures { IfOk result (λ x. core.expr_of x
        ≡ spec.expand_expr (scope_seen scope.now) (expr_of e.now)) }
{
    match e {
        SourceExpr::Lit(lit, at) => Ok(ExprText::Lit(*lit, *at)),
        SourceExpr::Flag(value, at) => Ok(ExprText::Flag(*value, *at)),
        SourceExpr::Name(path) => name_expr(alloc, scope, path.names.items()),
        SourceExpr::Active(path, at) => Ok(ExprText::Active(copy_path(alloc, path)?, *at)),
        SourceExpr::Count(event, at) => counter(alloc, scope, event.text.text(), *at),
        SourceExpr::Timed(word, count, event, at) => {
            let count = expand_count(alloc, scope, count, event)?;
            let test = test(alloc, scope, *word, count, event, *at)?;
            Ok(test)
        }
        SourceExpr::Call(name, arguments) => {
            let arguments = expand_all(alloc, scope, arguments.items())?;
            let value = call_value(alloc, scope, name, &arguments)?;
            Ok(value)
        }
        SourceExpr::Unary(word, operand, at) => {
            let operand = expand_expr(alloc, scope, operand)?;
            let made = unary(alloc, *word, operand, *at)?;
            Ok(made)
        }
        SourceExpr::Binary(word, left, right, at) => {
            let left = expand_expr(alloc, scope, left)?;
            let right = expand_expr(alloc, scope, right)?;
            let made = binary(alloc, *word, left, right, *at)?;
            Ok(made)
        }
    }
}

/// Expressions in order.
#[cycle(expressions)]
pub fn expand_all(
    alloc: Global,
    scope: &Scope<'_>,
    es: &[SourceExpr],
) -> Result<Vec<ExprText>, Memory>
    ensures { IfOk result (λ xs. map core.expr_of xs.items
        ≡ spec.expand_exprs (scope_seen scope.now) (row_of (map expr_of es.now))) }
{
    let mut all = Vec::new(alloc);
    for e in es {
        all.push(expand_expr(alloc, scope, e)?)?;
    }
    Ok(all)
}

/// The value of a function. Where there is no such function, or it has statements, it is its name.
#[cycle(expressions)]
fn call_value(
    alloc: Global,
    scope: &Scope<'_>,
    name: &NameText,
    arguments: &[ExprText],
) -> Result<ExprText, Memory>
    ensures { IfOk result (λ x. core.expr_of x
        ≡ (scope_seen scope.now).calls.value name.now (map core.expr_of arguments.now)) }
{
    match function_named(scope.functions, name.text.text()) {
        None => Ok(ExprText::Name(copy_name(alloc, name)?)),
        Some(called) => match &called.function.body {
            FunctionBody::Block(_) => Ok(ExprText::Name(copy_name(alloc, name)?)),
            FunctionBody::Value(e) => {
                let value = expand_expr(alloc, &inside(&*scope, called, &*arguments), e)?;
                Ok(value)
            }
        },
    }
}
