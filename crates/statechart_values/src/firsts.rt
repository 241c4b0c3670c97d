//! First values.
ghost use Rattle.std.specs.Prelude.{◌≡◌, map, Option};
ghost use Rattle.std.specs.Option.{option_map, unwrap_or};
ghost use Rattle.statechart_tree.specs.Views.{enumeration_of, sort_of, first_of};
ghost use Rattle.statechart_meaning.specs.Values as spec;
ghost use Rattle.statechart_values.specs.Views.{value_seen, valued_seen};

use crate::enumerations::{enumeration_named, enumerator_named, first_member, member_named};
use crate::numbers::number;
use crate::value::{Value, Valued, value_named, value_of, with_sign};
use chart_tree::{InitText, NameText, SortText, Span};
use statechart_tree::{Enumeration, FirstValue, SourceSort};

/// The value that a path denotes among constants and enumerators: `X`, or `M.X`.
pub fn path_value(
    enumerations: &[Enumeration],
    values: &[Valued<'_>],
    path: &[NameText],
) -> Option<Value>
    ensures { option_map value_seen result
        ≡ spec.path_value (map enumeration_of enumerations.now) (map valued_seen values.now) path.now }
{
    match path {
        [] => None,
        [name] => match value_named(values, name.text.text()) {
            Some(value) => Some(value),
            None => enumerator_named(enumerations, name.text.text()),
        },
        [owner, name] => match enumeration_named(enumerations, owner.text.text()) {
            None => None,
            Some(enumeration) => member_named(enumeration.members.items(), name.text.text()),
        },
        [_, _, _, ..] => None,
    }
}

/// The value that is written, if one is.
pub(crate) fn first_value(
    enumerations: &[Enumeration],
    values: &[Valued<'_>],
    first: &FirstValue,
) -> Option<Value>
    ensures { option_map value_seen result ≡ spec.first_value (map enumeration_of enumerations.now)
        (map valued_seen values.now) (first_of first.now) }
{
    match first {
        FirstValue::Missing => None,
        FirstValue::Given(init) => Some(value_of(*init)),
        FirstValue::Named { negative, name, .. } => {
            match path_value(enumerations, values, name.names.items()) {
                None => None,
                Some(value) => Some(with_sign(*negative, value)),
            }
        }
    }
}

/// The first value of a datum that has none written.
fn missing_value(enumerations: &[Enumeration], sort: &SourceSort) -> Value
    ensures { value_seen result
        ≡ spec.missing_value (map enumeration_of enumerations.now) (sort_of sort.now) }
{
    match sort {
        SourceSort::Plain(SortText::Flag) => Value::Flag(false),
        SourceSort::Plain(SortText::Number(_, _)) => Value::Number(false, number(0)),
        SourceSort::Named(name) => match enumeration_named(enumerations, name.text.text()) {
            None => Value::Flag(false),
            Some(enumeration) => first_member(enumeration.members.items()),
        },
    }
}

/// A value as a first value. 0 has one form.
fn init_of(value: Value, at: Span) -> InitText
    ensures { result ≡ spec.init_of (value_seen value) at }
{
    match value {
        Value::Flag(value) => InitText::Flag { value, at },
        Value::Number(negative, lit) => {
            if lit.units == 0 {
                InitText::Number {
                    negative: false,
                    lit: number(0),
                    at,
                }
            } else {
                InitText::Number { negative, lit, at }
            }
        }
    }
}

/// The value, or that of a datum that has none written.
fn or_missing(value: Option<Value>, enumerations: &[Enumeration], sort: &SourceSort) -> Value
    ensures { value_seen result ≡ unwrap_or (option_map value_seen value)
        (spec.missing_value (map enumeration_of enumerations.now) (sort_of sort.now)) }
{
    match value {
        Some(value) => value,
        None => missing_value(enumerations, sort),
    }
}

/// The first value of a datum of that type and name.
pub fn expand_first(
    enumerations: &[Enumeration],
    values: &[Valued<'_>],
    sort: &SourceSort,
    name: &NameText,
    first: &FirstValue,
) -> InitText
    ensures { result ≡ spec.expand_first (map enumeration_of enumerations.now)
        (map valued_seen values.now) (sort_of sort.now) name.now (first_of first.now) }
{
    match first {
        FirstValue::Missing => init_of(missing_value(enumerations, sort), name.at),
        FirstValue::Given(init) => *init,
        FirstValue::Named { at, .. } => {
            let value = first_value(enumerations, values, first);
            init_of(or_missing(value, enumerations, sort), *at)
        }
    }
}
