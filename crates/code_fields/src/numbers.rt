//! Numbers in their one decimal form, and what stands after given words.
ghost use Rattle.std.specs.Prelude.{◌≡◌, ◌<◌, ◌^◌, IfSome};
ghost use Rattle.std.specs.Option.{option_copied};
ghost use Rattle.code_fields.specs.Fields as spec;

use itoa::Buffer;

/// A text as a number, where it is the one decimal form of a number below 2^32.
pub fn number_of(token: &[u8]) -> Option<u32>
    ensures { result ≡ spec.number_of token.now }
{
    let Ok(digits) = str::from_utf8(token) else {
        return None;
    };
    let Ok(number) = digits.parse::<u32>() else {
        return None;
    };
    let mut buffer = Buffer::new();
    if buffer.format(number).as_bytes() == token {
        Some(number)
    } else {
        None
    }
}

/// A text as a number, where it is the one decimal form of a number below the limit.
pub fn numeral(token: &[u8], limit: u128) -> Option<u128>
    ensures number { result ≡ spec.numeral limit token.now }
    ensures below { IfSome result (λ number. number < limit) }
{
    let number = wide_number(token)?;
    if number < limit { Some(number) } else { None }
}

/// A text as a number, where it is the one decimal form of a number below 2^128.
fn wide_number(token: &[u8]) -> Option<u128>
    ensures { result ≡ spec.numeral (2 ^ 128) token.now }
{
    let Ok(digits) = str::from_utf8(token) else {
        return None;
    };
    let Ok(number) = digits.parse::<u128>() else {
        return None;
    };
    let mut buffer = Buffer::new();
    if buffer.format(number).as_bytes() == token {
        Some(number)
    } else {
        None
    }
}

/// What stands after those words, where the text begins with them.
#[tactic(auto, unfolding(crate::specs::Fields::behind))]
pub fn behind<'a>(words: &[u8], text: &'a [u8]) -> Option<&'a [u8]>
    ensures { option_copied result ≡ spec.behind words.now text.now }
{
    if text.starts_with(words) {
        Some(&text[words.len()..])
    } else {
        None
    }
}

/// The number after those words, and nothing after it.
#[tactic(auto, unfolding(crate::specs::Fields::number_behind))]
pub fn number_behind(words: &[u8], text: &[u8]) -> Option<u32>
    ensures { result ≡ spec.number_behind words.now text.now }
{
    number_of(behind(words, text)?)
}
