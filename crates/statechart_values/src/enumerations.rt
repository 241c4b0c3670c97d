//! Enumerators, and the types of enumerations.
ghost use Rattle.std.specs.Prelude.{◌≡◌, ◌≤◌, map, Option, false};
ghost use Rattle.std.specs.Option.{option_map, option_copied};
ghost use Rattle.chart_tree.specs.Views as core;
ghost use Rattle.flow_base.specs.Lists.{items_of};
ghost use Rattle.statechart_tree.specs.Views.{enumeration_of, sort_of};
ghost use Rattle.statechart_meaning.specs.Numbers as numbers;
ghost use Rattle.statechart_meaning.specs.Values as spec;
ghost use Rattle.statechart_values.specs.Views.{value_seen, whole_seen};

use crate::numbers::{WIDE, number, power_of_two, whole_of};
use crate::value::Value;
use chart_tree::{LitText, SortText, Span};
use fixed_point::{Mode, Scale};
use statechart_tree::{Enumeration, Member, SourceSort};

/// A whole number.
#[derive(Clone, Copy)]
pub(crate) struct Whole {
    /// Whether it is below 0.
    pub negative: bool,
    /// Its distance from 0.
    pub size: u128,
}

/// A whole number. 0 isn't below 0.
fn signed_whole(negative: bool, size: u128) -> Whole
    ensures { whole_seen result ≡ spec.whole negative size }
{
    Whole {
        negative: negative && size != 0,
        size,
    }
}

/// One more.
fn one_more(number: Whole) -> Whole
    ensures { whole_seen result ≡ spec.one_more (whole_seen number) }
{
    if number.negative {
        signed_whole(true, number.size.saturating_sub(1))
    } else if number.size < WIDE {
        signed_whole(false, number.size + 1)
    } else {
        number
    }
}

/// The number that is written, or else the given one.
fn member_number(next: Whole, written: Option<(bool, LitText, Span)>) -> Whole
    ensures { whole_seen result ≡ spec.member_number (whole_seen next) written }
{
    match written {
        None => next,
        Some((negative, lit, _)) => signed_whole(negative, whole_of(lit).unwrap_or(0)),
    }
}

/// The number as a value.
fn whole_value(number_of: Whole) -> Value
    ensures { value_seen result ≡ spec.NumberValue number_of.negative (numbers.number number_of.size) }
{
    Value::Number(number_of.negative, number(number_of.size))
}

/// The value of the first enumerator of the name.
pub(crate) fn member_named(members: &[Member], name: &str) -> Option<Value>
    ensures { option_map value_seen result ≡ spec.value_named
        (map spec.member_value (spec.numbered (spec.whole false 0) members.now)) name.now }
{
    let mut next = signed_whole(false, 0);
    for member in members {
        let own = member_number(next, member.number);
        if member.name.text.text() == name {
            return Some(whole_value(own));
        }
        next = one_more(own);
    }
    None
}

/// The size of a number that is below 0, or of one that isn't, and 0 of another one.
fn size_with(negative: bool, number: Whole) -> u128
    ensures { result ≡ spec.size_with negative (whole_seen number) }
{
    if number.negative == negative {
        number.size
    } else {
        0
    }
}

/// The greatest of such sizes.
fn farthest(negative: bool, members: &[Member]) -> u128
    ensures { result ≡ spec.farthest negative 0 (spec.numbered (spec.whole false 0) members.now) }
{
    let mut next = signed_whole(false, 0);
    let mut found = 0u128;
    for member in members {
        let own = member_number(next, member.number);
        let size = size_with(negative, own);
        if found < size {
            found = size;
        }
        next = one_more(own);
    }
    found
}

/// Whether the width has room for a number so far from 0 on, and for one so far below 0.
fn holds(signed: bool, high: u128, low: u128, width: u8) -> bool
    requires some { 1 ≤ width }
    requires bits { width ≤ 64 }
    ensures { result ≡ spec.holds signed high low width }
{
    if signed {
        let end = power_of_two(u32::from(width - 1));
        high < end && low <= end
    } else {
        high < power_of_two(u32::from(width))
    }
}

/// The least of the four widths that has room, or else the greatest.
fn width_for(signed: bool, high: u128, low: u128) -> u8
    ensures width { result ≡ spec.width_for signed high low }
    ensures some { 8 ≤ result }
    ensures bits { result ≤ 64 }
{
    if holds(signed, high, low, 8) {
        8
    } else if holds(signed, high, low, 16) {
        16
    } else if holds(signed, high, low, 32) {
        32
    } else {
        64
    }
}

/// The least type of whole numbers that has all enumerators.
fn enumeration_sort(members: &[Member]) -> SortText
    ensures { core.sort_of result
        ≡ spec.enumeration_sort (spec.numbered (spec.whole false 0) members.now) }
{
    let high = farthest(false, members);
    let low = farthest(true, members);
    let signed = 0 < low;
    let scale = Scale {
        signed,
        width: width_for(signed, high, low),
        frac: 0,
    };
    SortText::Number(scale, Mode::Saturate)
}

/// The first enumerator.
pub(crate) fn first_member(members: &[Member]) -> Value
    ensures { value_seen result
        ≡ spec.first_member (spec.numbered (spec.whole false 0) members.now) }
{
    match members {
        [] => Value::Flag(false),
        [member, ..] => whole_value(member_number(signed_whole(false, 0), member.number)),
    }
}

/// The first enumeration of the name.
pub fn enumeration_named<'a>(enumerations: &'a [Enumeration], name: &str) -> Option<&'a Enumeration>
    ensures { option_map enumeration_of (option_copied result)
        ≡ spec.enumeration_named (map enumeration_of enumerations.now) name.now }
{
    for enumeration in enumerations {
        if enumeration.name.text.text() == name {
            return Some(enumeration);
        }
    }
    None
}

/// The enumerator of the name, of the first enumeration that has one.
pub(crate) fn enumerator_named(enumerations: &[Enumeration], name: &str) -> Option<Value>
    ensures { option_map value_seen result
        ≡ spec.enumerator_named (map enumeration_of enumerations.now) name.now }
{
    for enumeration in enumerations {
        if let Some(value) = member_named(enumeration.members.items(), name) {
            return Some(value);
        }
    }
    None
}

/// The type for which a type stands.
pub fn expand_sort(enumerations: &[Enumeration], sort: &SourceSort) -> SortText
    ensures { core.sort_of result
        ≡ spec.expand_sort (map enumeration_of enumerations.now) (sort_of sort.now) }
{
    match sort {
        SourceSort::Plain(plain) => *plain,
        SourceSort::Named(name) => match enumeration_named(enumerations, name.text.text()) {
            None => SortText::Flag,
            Some(enumeration) => enumeration_sort(enumeration.members.items()),
        },
    }
}
