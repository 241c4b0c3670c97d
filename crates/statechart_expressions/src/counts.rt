//! Counts that are literals, constants or enumerators.
ghost use Rattle.std.specs.Prelude.{◌≡◌, IfOk, Option};
ghost use Rattle.std.specs.Option.{option_map, option_and_then};
ghost use Rattle.statechart_tree.specs.Views.{expr_of};
ghost use Rattle.statechart_meaning.specs.Expressions as spec;
ghost use Rattle.statechart_meaning.specs.Scope as scopes;
ghost use Rattle.statechart_meaning.specs.Values as values;
ghost use Rattle.statechart_values.specs.Views.{value_seen};
ghost use Rattle.statechart_names.specs.Seen.{scope_seen};

use chart_tree::{LitText, NameText, UnWord};
use flow_base::Memory;
use statechart_names::{Meaning, Scope, meaning_of};
use statechart_tree::SourceExpr;
use statechart_values::{Value, literal_count, timer_of, with_sign};
use std::alloc::Global;

/// The value of a constant or an enumerator, where a name means one.
fn name_value(alloc: Global, scope: &Scope<'_>, path: &[NameText]) -> Result<Option<Value>, Memory>
    ensures { IfOk result (λ o. option_map value_seen o
        ≡ spec.meaning_value (scopes.meaning_of (scope_seen scope.now) path.now)) }
{
    match meaning_of(alloc, scope, path)? {
        Meaning::Value(value) => Ok(Some(value)),
        Meaning::Argument(_) => Ok(None),
        Meaning::Datum(_) => Ok(None),
        Meaning::Unknown => Ok(None),
    }
}

/// The value with a minus sign before it, if there is one.
fn minus(value: Option<Value>) -> Option<Value>
    ensures { option_map value_seen result ≡ option_map values.minus (option_map value_seen value) }
{
    match value {
        None => None,
        Some(value) => Some(with_sign(true, value)),
    }
}

/// The value of a count that is a literal, a constant or an enumerator, with minus signs before it.
fn written_value(alloc: Global, scope: &Scope<'_>, e: &SourceExpr) -> Result<Option<Value>, Memory>
    ensures { IfOk result (λ o. option_map value_seen o
        ≡ spec.written_value (scope_seen scope.now) (expr_of e.now)) }
{
    match e {
        SourceExpr::Lit(lit, _) => Ok(Some(Value::Number(false, *lit))),
        SourceExpr::Flag(flag, _) => Ok(Some(Value::Flag(*flag))),
        SourceExpr::Name(path) => name_value(alloc, scope, path.names.items()),
        SourceExpr::Unary(UnWord::Neg, operand, _) => {
            Ok(minus(written_value(alloc, scope, operand)?))
        }
        SourceExpr::Unary(UnWord::Not, _, _) => Ok(None),
        SourceExpr::Active(_, _) => Ok(None),
        SourceExpr::Count(_, _) => Ok(None),
        SourceExpr::Timed(_, _, _, _) => Ok(None),
        SourceExpr::Call(_, _) => Ok(None),
        SourceExpr::Binary(_, _, _, _) => Ok(None),
    }
}

/// The literal of a number that isn't below 0.
fn literal_of(value: Option<Value>) -> Option<LitText>
    ensures { result ≡ option_and_then values.literal_of (option_map value_seen value) }
{
    match value {
        Some(Value::Number(false, lit)) => Some(lit),
        Some(Value::Number(true, _)) => None,
        Some(Value::Flag(_)) => None,
        None => None,
    }
}

/// The number of such a count, in steps of the clock where its name is a unit. Only a whole number is
/// one.
pub fn written_count(
    alloc: Global,
    scope: &Scope<'_>,
    e: &SourceExpr,
    event: &NameText,
) -> Result<Option<u128>, Memory>
    ensures { IfOk result (λ n. n
        ≡ spec.written_count (scope_seen scope.now) (expr_of e.now) event.now) }
{
    match literal_of(written_value(alloc, scope, e)?) {
        None => Ok(None),
        Some(lit) => {
            let timer = timer_of(scope.declared.events, event.text.text());
            Ok(literal_count(timer, lit))
        }
    }
}
