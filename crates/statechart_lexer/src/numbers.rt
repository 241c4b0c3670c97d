//! How many bytes at the front of a text are a number.
ghost use Rattle.std.specs.Prelude.{◌≡◌, ◌≤◌, length};
ghost use Rattle.chart_lexer.specs.Numbers as spec;

use crate::bytes::is_digit;
use fixed_point::PLACES_LIMIT;

/// How many digits stand at the front of the text.
fn digits_length(text: &[u8]) -> usize
    ensures value { result ≡ spec.digits_length text.now }
    ensures within { result ≤ length text.now }
{
    text.iter().take_while(|byte| is_digit(**byte)).count()
}

/// How many bytes a point and the digits after it have, 0 where there is no such point.
#[tactic(auto, unfolding(chart_lexer::specs::Numbers::fraction_length))]
fn fraction_length(text: &[u8]) -> usize
    ensures value { result ≡ spec.fraction_length text.now }
    ensures within { result ≤ length text.now }
{
    if text.is_empty() || text[0] != b'.' {
        return 0;
    }
    let digits = digits_length(&text[1..]);
    if digits > 0 { digits + 1 } else { 0 }
}

/// Whether the digits are one or two, of a value up to `PLACES_LIMIT`.
fn is_scale(digits: &[u8]) -> bool
    ensures { result ≡ spec.is_scale digits.now }
{
    match digits {
        [_] => true,
        [tens, units] => {
            let tens = u32::from(tens.saturating_sub(b'0'));
            let units = u32::from(units.saturating_sub(b'0'));
            tens * 10 + units <= u32::from(PLACES_LIMIT)
        }
        _ => false,
    }
}

/// How many bytes `q` and the number of bits after it have, 0 where there is no such `q`.
#[tactic(auto, unfolding(chart_lexer::specs::Numbers::scale_length))]
fn scale_length(text: &[u8]) -> usize
    ensures value { result ≡ spec.scale_length text.now }
    ensures within { result ≤ length text.now }
{
    if text.is_empty() || text[0] != b'q' {
        return 0;
    }
    let rest = &text[1..];
    let digits = digits_length(rest);
    if is_scale(&rest[..digits]) {
        digits + 1
    } else {
        0
    }
}

/// How many bytes digits have, with a fraction after them.
#[tactic(auto, unfolding(chart_lexer::specs::Numbers::decimal_length))]
fn decimal_length(text: &[u8]) -> usize
    ensures value { result ≡ spec.decimal_length text.now }
    ensures within { result ≤ length text.now }
{
    let digits = digits_length(text);
    digits + fraction_length(&text[digits..])
}

/// How many bytes a decimal has, with `q` and a number of bits after it, if they are there.
#[tactic(auto, unfolding(chart_lexer::specs::Numbers::number_length))]
pub fn number_length(text: &[u8]) -> usize
    ensures value { result ≡ spec.number_length text.now }
    ensures within { result ≤ length text.now }
{
    let decimal = decimal_length(text);
    decimal + scale_length(&text[decimal..])
}
