//! Expressions that are put together.
ghost use Rattle.std.specs.Prelude.{◌≡◌, IfOk, Option};
ghost use Rattle.chart_tree.specs.Trees as core;
ghost use Rattle.chart_tree.specs.Views.{expr_of};
ghost use Rattle.statechart_meaning.specs.Values as values;
ghost use Rattle.statechart_meaning.specs.Times as spec;
ghost use Rattle.statechart_values.specs.Views.{value_seen, timer_seen};
ghost use Rattle.std.specs.Option.{option_map};

use chart_tree::{BinWord, ExprText, Span, UnWord};
use flow_base::Memory;
use statechart_values::{Timer, Value, number, unit_steps};
use std::alloc::Global;

/// An operator with its operand.
pub(crate) fn unary(
    alloc: Global,
    word: UnWord,
    operand: ExprText,
    at: Span,
) -> Result<ExprText, Memory>
    ensures { IfOk result (λ e. expr_of e ≡ core.Unary word (expr_of operand) at) }
{
    let operand = Box::new(alloc, operand)?;
    Ok(ExprText::Unary(word, operand, at))
}

/// An operator with its operands.
pub fn binary(
    alloc: Global,
    word: BinWord,
    left: ExprText,
    right: ExprText,
    at: Span,
) -> Result<ExprText, Memory>
    ensures { IfOk result (λ e. expr_of e ≡ core.Binary word (expr_of left) (expr_of right) at) }
{
    let left = Box::new(alloc, left)?;
    let right = Box::new(alloc, right)?;
    Ok(ExprText::Binary(word, left, right, at))
}

/// A value at the place of its use.
pub(crate) fn value_expr(alloc: Global, value: Value, at: Span) -> Result<ExprText, Memory>
    ensures { IfOk result (λ e. expr_of e ≡ values.value_expr (value_seen value) at) }
{
    match value {
        Value::Number(false, lit) => Ok(ExprText::Lit(lit, at)),
        Value::Number(true, lit) => unary(alloc, UnWord::Neg, ExprText::Lit(lit, at), at),
        Value::Flag(flag) => Ok(ExprText::Flag(flag, at)),
    }
}

/// The place of the first token of an expression.
fn place_of(e: &ExprText) -> Span
    ensures { result ≡ spec.place_of (expr_of e.now) }
{
    match e {
        ExprText::Lit(_, at) => *at,
        ExprText::Flag(_, at) => *at,
        ExprText::Name(name) => name.at,
        ExprText::Active(_, at) => *at,
        ExprText::Unary(_, _, at) => *at,
        ExprText::Binary(_, left, _, _) => place_of(left),
    }
}

/// An expression times the steps of one unit, where these are whole and more than one.
fn times(alloc: Global, e: ExprText, steps: Option<u128>) -> Result<ExprText, Memory>
    ensures { IfOk result (λ x. expr_of x ≡ spec.times (expr_of e) steps) }
{
    match steps {
        None => Ok(e),
        Some(1) => Ok(e),
        Some(steps) => {
            let at = place_of(&e);
            let made = binary(alloc, BinWord::Mul, e, ExprText::Lit(number(steps), at), at)?;
            Ok(made)
        }
    }
}

/// An expression in steps of the clock, where it has a unit.
pub(crate) fn in_steps(
    alloc: Global,
    timer: Option<Timer<'_>>,
    e: ExprText,
) -> Result<ExprText, Memory>
    ensures { IfOk result (λ x. expr_of x ≡ spec.in_steps (option_map timer_seen timer.entry) (expr_of e)) }
{
    match timer {
        None => Ok(e),
        Some(timer) => {
            let made = times(alloc, e, unit_steps(timer))?;
            Ok(made)
        }
    }
}
