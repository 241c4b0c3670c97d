//! The values of constants.
ghost use Rattle.std.specs.Prelude.{◌≡◌, map, IfOk, Option};
ghost use Rattle.std.specs.Option.{option_map};
ghost use Rattle.chart_tree.specs.Views as core;
ghost use Rattle.statechart_tree.specs.Views.{enumeration_of, sort_of, constant_of};
ghost use Rattle.statechart_meaning.specs.Values as spec;
ghost use Rattle.statechart_values.specs.Views.{value_seen, valued_seen};

use crate::enumerations::expand_sort;
use crate::firsts::first_value;
use crate::numbers::at_bits;
use crate::value::{Value, Valued};
use chart_tree::SortText;
use statechart_tree::{Constant, Enumeration, SourceSort};
use std::alloc::{AllocError, Global};

/// A value as that of a datum of the type.
fn typed(sort: SortText, value: Value) -> Value
    ensures { value_seen result ≡ spec.typed (core.sort_of sort) (value_seen value) }
{
    match sort {
        SortText::Flag => value,
        SortText::Number(scale, _) => match value {
            Value::Flag(flag) => Value::Flag(flag),
            Value::Number(negative, lit) => Value::Number(negative, at_bits(scale.frac, lit)),
        },
    }
}

/// A value with the type, if one is written.
fn with_sort(enumerations: &[Enumeration], sort: &Option<SourceSort>, value: Value) -> Value
    ensures { value_seen result ≡ spec.with_sort (map enumeration_of enumerations.now)
        (option_map sort_of sort.now) (value_seen value) }
{
    match sort {
        None => value,
        Some(sort) => typed(expand_sort(enumerations, sort), value),
    }
}

/// The value of a constant, where those above it have these values.
fn constant_value(enumerations: &[Enumeration], values: &[Valued<'_>], constant: &Constant) -> Value
    ensures { value_seen result ≡ spec.constant_value (map enumeration_of enumerations.now)
        (map valued_seen values.now) (constant_of constant.now) }
{
    let value = match first_value(enumerations, values, &constant.value) {
        Some(value) => value,
        None => Value::Flag(false),
    };
    with_sort(enumerations, &constant.sort, value)
}

/// The values of constants, each by those above it.
pub fn constant_values<'a>(
    alloc: Global,
    enumerations: &[Enumeration],
    constants: &'a [Constant],
) -> Result<Vec<Valued<'a>>, AllocError>
    ensures { IfOk result (λ v. map valued_seen v.items
        ≡ spec.values_of (map enumeration_of enumerations.now) (map constant_of constants.now)) }
{
    let mut values = Vec::new(alloc);
    for constant in constants {
        let value = constant_value(enumerations, &values, constant);
        values.push(Valued {
            name: &constant.name,
            value,
        })?;
    }
    Ok(values)
}
