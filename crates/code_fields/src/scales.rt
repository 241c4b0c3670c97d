//! The words for what values a datum has.
ghost use Rattle.std.specs.Prelude.{◌≡◌};
ghost use Rattle.code_fields.specs.Fields as spec;
ghost use Rattle.code_fields.specs.Scales as scales;

use crate::cuts::cut_at;
use crate::numbers::{behind, number_behind, number_of};
use actions::Sort;
use fixed_point::{PLACES_LIMIT, Scale, WIDTH_LIMIT};

/// The values of a datum, from their word: `bool`, or `sfixW_EnF` or `ufixW_EnF`.
#[tactic(auto, unfolding(crate::specs::Fields::sort_of))]
pub fn sort_of(word: &[u8]) -> Option<Sort>
    ensures { result ≡ spec.sort_of word.now }
{
    if word == b"bool".as_slice() {
        return Some(Sort::Flag);
    }
    if let Some(sort) = signed_sort(word) {
        return Some(sort);
    }
    unsigned_sort(word)
}

/// A signed scale.
fn signed_sort(word: &[u8]) -> Option<Sort>
    ensures { result ≡ spec.signed_sort word.now }
{
    scale_behind(true, behind(b"sfix", word)?)
}

/// An unsigned scale.
fn unsigned_sort(word: &[u8]) -> Option<Sort>
    ensures { result ≡ spec.unsigned_sort word.now }
{
    scale_behind(false, behind(b"ufix", word)?)
}

/// A scale after its sign: `W_EnF`.
fn scale_behind(signed: bool, text: &[u8]) -> Option<Sort>
    ensures { result ≡ spec.scale_behind signed text.now }
{
    let parts = cut_at(text, b'_')?;
    let width = number_of(parts.front)?;
    let frac = number_behind(b"En", parts.rest)?;
    Some(Sort::Number(scale_of(signed, width, frac)?))
}

/// The scale of these parts, where they are within the limits.
fn scale_of(signed: bool, width: u32, frac: u32) -> Option<Scale>
    ensures { result ≡ scales.scale_of_parts signed width frac }
{
    if width > u32::from(WIDTH_LIMIT) {
        return None;
    }
    if frac > u32::from(PLACES_LIMIT) {
        return None;
    }
    Scale::make(signed, width as u8, frac as u8)
}
