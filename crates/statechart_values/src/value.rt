//! Values of constants and enumerators.
ghost use Rattle.std.specs.Prelude.{◌≡◌, map, Option};
ghost use Rattle.std.specs.Option.{option_map};
ghost use Rattle.statechart_meaning.specs.Values as spec;
ghost use Rattle.statechart_values.specs.Views.{value_seen, valued_seen};

use chart_tree::{InitText, LitText, NameText};

/// The value of a constant or an enumerator.
#[derive(Clone, Copy)]
pub enum Value {
    /// A number: whether it is below 0, and the number without its sign.
    Number(bool, LitText),
    /// A flag.
    Flag(bool),
}

/// A value with its name.
#[derive(Clone, Copy)]
pub struct Valued<'a> {
    /// The name.
    pub name: &'a NameText,
    /// The value.
    pub value: Value,
}

/// The first value of the name.
pub fn value_named(values: &[Valued<'_>], name: &str) -> Option<Value>
    ensures { option_map value_seen result ≡ spec.value_named (map valued_seen values.now) name.now }
{
    for valued in values {
        if valued.name.text.text() == name {
            return Some(valued.value);
        }
    }
    None
}

/// The value of what is written.
pub(crate) fn value_of(init: InitText) -> Value
    ensures { value_seen result ≡ spec.value_of init }
{
    match init {
        InitText::Number { negative, lit, .. } => Value::Number(negative, lit),
        InitText::Flag { value, .. } => Value::Flag(value),
    }
}

/// The value, with a minus sign before it where one is written.
pub fn with_sign(negative: bool, value: Value) -> Value
    ensures { value_seen result ≡ spec.with_sign negative (value_seen value) }
{
    if !negative {
        return value;
    }
    match value {
        Value::Number(below, lit) => Value::Number(!below, lit),
        Value::Flag(flag) => Value::Flag(flag),
    }
}
