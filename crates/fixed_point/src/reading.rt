//! Decimal text, read.
ghost use Rattle.std.specs.Prelude.{◌≡◌, ◌≤◌, ◌<◌, ◌+◌, ◌*◌, ◌/◌, ◌^◌, length, drop, if◌then◌else◌, nat_lt, MatchOption, IsFalse};
ghost use Rattle.std.specs.List.{prefix_len, AllPass};
ghost use Rattle.std.specs.Char.{is_ascii_digit};
ghost use Rattle.fixed_point.specs.Parts as parts;
ghost use Rattle.fixed_point.specs.Reading as spec;
ghost use Rattle.fixed_point.specs.declared.reading.TheConstants.{DIGIT_LIMIT};

use crate::num::Num;
use crate::rounding::{exact_frac, steps};
use crate::scale::PLACES_LIMIT;
use thiserror::Error;

/// Why a text gives no number.
#[derive(Clone, Copy, Debug, PartialEq, Eq, Error)]
pub enum NumFault {
    /// It isn't of the form of a number.
    #[error("not a number")]
    NotNumber,
    /// It has over 36 digits, or its mantissa is `2^99` or more.
    #[error("number too long")]
    TooLong,
    /// It has no `q`, and no fraction up to 32 makes it exact.
    #[error("no binary fraction of at most 32 bits")]
    NotBinary,
}

impl NumFault {
    /// 1 to 3, in the order of the variants.
    pub fn number(self) -> u8
        ensures { result ≡ spec.fault_number self }
    {
        match self {
            NumFault::NotNumber => 1,
            NumFault::TooLong => 2,
            NumFault::NotBinary => 3,
        }
    }
}

/// The greatest number of digits of a number, not counting those after `q`.
pub const DIGIT_LIMIT: usize = 36;

/// Whether the text begins with the byte, and the text without that byte at its front.
fn skip_byte(text: &[u8], byte: u8) -> (bool, &[u8])
    ensures found { result.0 ≡ spec.starts_with byte text.now }
    ensures rest { result.1.now ≡ spec.without byte text.now }
{
    if !text.is_empty() && text[0] == byte {
        (true, &text[1..])
    } else {
        (false, text)
    }
}

/// How many digits stand at the front.
fn digit_count(text: &[u8]) -> usize
    ensures { result ≡ prefix_len is_ascii_digit text.now }
{
    text.iter().take_while(|byte| byte.is_ascii_digit()).count()
}

/// The digits at the front, and what comes after them.
pub fn split_digits(text: &[u8]) -> (&[u8], &[u8])
    ensures digits { result.0.now ≡ spec.leading_digits text.now }
    ensures rest { result.1.now ≡ spec.after_digits text.now }
{
    text.split_at(digit_count(text))
}

/// Whether a point is at the front, the digits after it, and what comes after them.
fn split_behind(text: &[u8]) -> (bool, &[u8], &[u8])
    ensures point { result.0 ≡ spec.starts_with 46 text.now }
    ensures digits { result.1.now ≡ spec.digits_behind text.now }
    ensures rest { result.2.now ≡ spec.rest_behind text.now }
{
    let (has_point, tail) = skip_byte(text, b'.');
    if has_point {
        let (digits, rest) = split_digits(tail);
        (true, digits, rest)
    } else {
        (false, &[], text)
    }
}

/// The number that digits denote, after the digits of another number.
pub fn value_after(start: u128, digits: &[u8]) -> u128
    requires digits { AllPass is_ascii_digit digits.now }
    requires room { (start + 1) * 10 ^ length digits.now ≤ 10 ^ DIGIT_LIMIT }
    ensures value { result ≡ spec.value_after start digits.now }
    ensures bound { result < (start + 1) * 10 ^ length digits.now }
{
    let mut value = start;
    for digit in digits {
        value = value * 10 + u128::from(*digit - b'0');
    }
    value
}

/// The fraction that stands after `q`. None where it isn't one or two digits, up to 32.
fn read_bits(digits: &[u8]) -> Option<u32>
    ensures { result ≡ spec.bits_read digits.now }
{
    if digits.is_empty() || digits.len() > 2 || digit_count(digits) < digits.len() {
        return None;
    }
    let bits = value_after(0, digits);
    if bits > u128::from(PLACES_LIMIT) {
        return None;
    }
    Some(bits as u32)
}

/// The parts of a number's text.
#[derive(Clone, Copy)]
pub struct Numeral<'a> {
    /// Whether a minus sign stands at the front.
    pub negative: bool,
    /// The digits before the point, at least one.
    pub whole: &'a [u8],
    /// The digits after the point, none where there is no point.
    pub behind: &'a [u8],
    /// The bits after the point that `q` asks for, 0 to 32.
    pub bits: Option<u32>,
}

/// The parts of the text. None where it isn't a number.
pub fn split_number(text: &[u8]) -> Option<Numeral<'_>>
    ensures { MatchOption result (IsFalse (spec.is_number text.now)) (parts.IsSplit text.now) }
{
    let (negative, body) = skip_byte(text, b'-');
    let (whole, after_whole) = split_digits(body);
    let (has_point, behind, after_behind) = split_behind(after_whole);
    if whole.is_empty() || (has_point && behind.is_empty()) {
        return None;
    }
    let (has_bits, digits) = skip_byte(after_behind, b'q');
    if !has_bits {
        if !after_behind.is_empty() {
            return None;
        }
        return Some(Numeral {
            negative,
            whole,
            behind,
            bits: None,
        });
    }
    if negative {
        return None;
    }
    let bits = read_bits(digits)?;
    Some(Numeral {
        negative,
        whole,
        behind,
        bits: Some(bits),
    })
}

/// The bits that are asked for, else the fewest at which `units / 10^places` is exact.
pub fn frac_of(bits: Option<u32>, units: u128, places: u32) -> Option<u32>
    requires { places ≤ 36 }
    ensures { result ≡ spec.frac_of bits units places }
{
    match bits {
        Some(bits) => Some(bits),
        None => exact_frac(units, places),
    }
}

/// The number of that sign whose magnitude is `units / 10^places`, rounded down to steps of
/// `2^-frac`. `NotBinary` without a fraction, and `TooLong` for a magnitude of 2^99 steps or more.
pub fn number_of(
    negative: bool,
    units: u128,
    places: u32,
    frac: Option<u32>,
) -> Result<Num, NumFault>
    requires { places ≤ 36 }
    ensures { result ≡ spec.number_of negative units places frac }
{
    let Some(frac) = frac else {
        return Err(NumFault::NotBinary);
    };
    let Some(steps) = steps(units, places, frac) else {
        return Err(NumFault::TooLong);
    };
    let mantissa = steps as i128;
    Ok(Num {
        mantissa: if negative { -mantissa } else { mantissa },
        frac,
    })
}

/// The number that the parts of a text denote.
fn number_told(parts: Numeral<'_>) -> Result<Num, NumFault>
    requires whole { AllPass is_ascii_digit parts.whole.now }
    requires behind { AllPass is_ascii_digit parts.behind.now }
    ensures { result
        ≡ spec.number_told parts.entry.negative parts.entry.whole.now parts.entry.behind.now
        parts.entry.bits }
{
    if parts.whole.len() + parts.behind.len() > DIGIT_LIMIT {
        return Err(NumFault::TooLong);
    }
    let units = value_after(value_after(0, parts.whole), parts.behind);
    let places = parts.behind.len() as u32;
    number_of(
        parts.negative,
        units,
        places,
        frac_of(parts.bits, units, places),
    )
}

/// The number that the text denotes: an optional minus sign, digits, optionally a point and digits,
/// and optionally `q` and one or two digits of a value up to 32, the bits of the fraction. A minus
/// sign and `q` don't stand together.
#[tactic(auto, unfolding(crate::specs::Reading::number_read))]
pub fn read_decimal(text: &[u8]) -> Result<Num, NumFault>
    ensures { result ≡ spec.number_read text.now }
{
    match split_number(text) {
        Some(parts) => number_told(parts),
        None => Err(NumFault::NotNumber),
    }
}
