//! Numbers of literals.
ghost use Rattle.std.specs.Prelude.{◌≡◌, ◌<◌, ◌≤◌, ◌^◌, Option, Some};
ghost use Rattle.std.specs.Option.{option_map};
ghost use Rattle.statechart_meaning.specs.Numbers as spec;
ghost use Rattle.statechart_values.specs.Views.{binary_seen};

use crate::binary::Binary;
use chart_tree::LitText;
use fixed_point::{DIGIT_LIMIT, PLACES_LIMIT, frac_of, number_of};

/// A whole number as it is written.
pub fn number(units: u128) -> LitText
    ensures { result ≡ spec.number units }
{
    LitText {
        units,
        places: 0,
        q: None,
    }
}

/// The number that the digits of a literal denote with so many bits behind the point.
fn binary_at(lit: LitText, bits: u32) -> Option<Binary>
    requires { lit.places ≤ 36 }
    ensures { option_map binary_seen result ≡ spec.binary_at lit (Some bits) }
{
    if bits > u32::from(PLACES_LIMIT) {
        return None;
    }
    match number_of(false, lit.units, u32::from(lit.places), Some(bits)) {
        Ok(number) => Some(Binary {
            mantissa: number.mantissa as u128,
            bits,
        }),
        Err(_) => None,
    }
}

/// The number that a literal denotes in a chart text. None where it has too many digits or bits, or
/// isn't binary.
fn binary_of(lit: LitText) -> Option<Binary>
    ensures { option_map binary_seen result ≡ spec.binary_of lit }
{
    if usize::from(lit.places) > DIGIT_LIMIT {
        return None;
    }
    match frac_of(lit.q.map(u32::from), lit.units, u32::from(lit.places)) {
        None => None,
        Some(bits) => binary_at(lit, bits),
    }
}

/// A quotient that is whole.
pub(crate) fn exact_quotient(a: u128, b: u128) -> Option<u128>
    ensures { result ≡ spec.exact_quotient a b }
{
    if b > 0 && a % b == 0 {
        Some(a / b)
    } else {
        None
    }
}

/// A power of two.
pub(crate) fn power_of_two(bits: u32) -> u128
    requires { bits ≤ 64 }
    ensures { result ≡ 2 ^ bits }
{
    1u128 << bits
}

/// The number that a literal denotes, where it is whole.
pub fn whole_of(lit: LitText) -> Option<u128>
    ensures { result ≡ spec.whole_of lit }
{
    match binary_of(lit) {
        None => None,
        Some(binary) => exact_quotient(binary.mantissa, power_of_two(binary.bits)),
    }
}

/// Numbers of 64 bits are less than this.
pub(crate) const WIDE: u128 = 1 << 64;

/// The literal whose value has that mantissa at so many bits behind the point: a decimal of ten
/// places, rounded up.
fn with_mantissa(bits: u8, mantissa: u128) -> LitText
    requires bits { bits ≤ 32 }
    requires short { mantissa < 2 ^ 64 }
    ensures { result ≡ spec.with_mantissa bits mantissa }
{
    if bits == 0 {
        return number(mantissa);
    }
    let one = power_of_two(u32::from(bits));
    LitText {
        units: (mantissa * 10_000_000_000 + (one - 1)) / one,
        places: 10,
        q: Some(bits),
    }
}

/// A literal with that mantissa, if it has 64 bits at most.
fn short_mantissa(lit: LitText, bits: u8, mantissa: u128) -> LitText
    requires { bits ≤ 32 }
    ensures { result ≡ spec.short_mantissa lit bits mantissa }
{
    if mantissa < WIDE {
        with_mantissa(bits, mantissa)
    } else {
        lit
    }
}

/// A number with so many bits behind the point, where it has others.
fn binary_with(bits: u8, lit: LitText, binary: Binary) -> LitText
    requires { bits ≤ 32 }
    ensures { result ≡ spec.binary_with bits lit (binary_seen binary) }
{
    if binary.bits == u32::from(bits) {
        lit
    } else if binary.mantissa < WIDE {
        let mantissa = binary.mantissa * power_of_two(u32::from(bits));
        short_mantissa(lit, bits, mantissa / power_of_two(binary.bits))
    } else {
        lit
    }
}

/// A literal with so many bits behind the point.
pub(crate) fn at_bits(bits: u8, lit: LitText) -> LitText
    requires { bits ≤ 32 }
    ensures { result ≡ spec.at_bits bits lit (spec.binary_of lit) }
{
    match binary_of(lit) {
        None => lit,
        Some(binary) => binary_with(bits, lit, binary),
    }
}
