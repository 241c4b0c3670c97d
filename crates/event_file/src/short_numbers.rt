//! Short whole numbers, which are read in 64 bits and without a division.
ghost use Rattle.std.specs.Prelude.{◌≡◌, ◌<◌, ◌^◌, ◌-◌, if◌then◌else◌, IfSome};
ghost use Rattle.fixed_point.specs.Reading.{starts_with, without};
ghost use Rattle.fixed_point.specs.Scales.{exact_mantissa};
ghost use Rattle.event_file.specs.ShortNumbers as spec;

use fixed_point::Scale;

/// The most digits of a short number.
const SHORT_LIMIT: usize = 9;

/// The magnitude of a short number's mantissa is less than 2 to this, at each scale.
const SHORT_BITS: u32 = 62;

/// Whether the text begins with a minus sign, and what comes after it.
pub(crate) fn split_sign(text: &[u8]) -> (bool, &[u8])
    ensures sign { result.0 ≡ starts_with 45 text.now }
    ensures rest { result.1.now ≡ without 45 text.now }
{
    if !text.is_empty() && text[0] == b'-' {
        (true, &text[1..])
    } else {
        (false, text)
    }
}

/// The number that 1 to `SHORT_LIMIT` digits denote. None for every other text.
pub(crate) fn short_value(text: &[u8]) -> Option<u64>
    ensures value { result ≡ spec.short_value text.now }
    ensures short { IfSome result (λ n. n < 10 ^ SHORT_LIMIT) }
{
    if text.is_empty() || text.len() > SHORT_LIMIT {
        return None;
    }
    let mut value = 0;
    for digit in text {
        if !digit.is_ascii_digit() {
            return None;
        }
        value = value * 10 + u64::from(*digit - b'0');
    }
    Some(value)
}

/// The mantissa at a scale of a short number of that sign and magnitude. None where the scale
/// doesn't have the number.
pub(crate) fn short_mantissa(scale: Scale, negative: bool, magnitude: u64) -> Option<i128>
    requires { magnitude < 10 ^ SHORT_LIMIT }
    ensures { result ≡ exact_mantissa (spec.whole_number negative magnitude) scale }
{
    let steps = magnitude * power_of_two(u32::from(scale.frac));
    let limit = power_of_two(magnitude_bits(scale).min(SHORT_BITS));
    if is_within(scale.signed, negative, steps, limit) {
        Some(signed(negative, steps))
    } else {
        None
    }
}

/// The mantissa of that sign and magnitude.
fn signed(negative: bool, steps: u64) -> i128
    ensures { result ≡ spec.signed negative steps }
{
    let mantissa = i128::from(steps);
    if negative { -mantissa } else { mantissa }
}

/// How many bits a mantissa of the scale has beside a sign bit.
fn magnitude_bits(scale: Scale) -> u32
    ensures { result ≡ (if scale.signed then scale.width - 1 else scale.width) }
{
    if scale.signed {
        u32::from(scale.width) - 1
    } else {
        u32::from(scale.width)
    }
}

/// Whether that many steps are within a limit, which belongs to the range below 0 alone.
fn is_within(signed: bool, negative: bool, steps: u64, limit: u64) -> bool
    ensures { result ≡ spec.is_within signed negative steps limit }
{
    if negative {
        steps == 0 || (signed && steps <= limit)
    } else {
        steps < limit
    }
}

/// 2 to the exponent.
fn power_of_two(exponent: u32) -> u64
    requires { exponent < 64 }
    ensures { result ≡ 2 ^ exponent }
{
    1 << exponent
}
