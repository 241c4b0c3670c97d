//! A text cut at a byte.
ghost use Rattle.std.specs.Prelude.{◌≡◌, ◌<◌, length, IfSome, option_map};
ghost use Rattle.code_fields.specs.Cuts as spec;
ghost use Rattle.code_fields.specs.Views as views;

use memchr::memchr;

/// What stands before a byte and after it.
#[derive(Clone, Copy)]
pub struct Parts<'a> {
    /// What stands before it.
    pub front: &'a [u8],
    /// What stands after it.
    pub rest: &'a [u8],
}

/// The first word of a text.
#[derive(Clone, Copy)]
pub struct Field<'a> {
    /// The word, up to the first space.
    pub word: &'a [u8],
    /// What stands after that space, if there is one.
    pub rest: Option<&'a [u8]>,
}

/// Cuts a text at the first such byte.
pub fn cut_at(text: &[u8], byte: u8) -> Option<Parts<'_>>
    ensures parts { option_map views.parts_of result ≡ spec.parts_at byte text.now }
    ensures shorter { IfSome result (λ parts. length parts.rest.now < length text.now) }
{
    let place = memchr(byte, text)?;
    Some(Parts {
        front: &text[..place],
        rest: &text[place + 1..],
    })
}

/// The first word of a text, and what stands after the space that follows it.
#[tactic(auto, unfolding(crate::specs::Cuts::field_of))]
pub fn field_of(text: &[u8]) -> Field<'_>
    ensures { views.field_of result ≡ spec.field_of text.now }
{
    match cut_at(text, b' ') {
        None => Field {
            word: text,
            rest: None,
        },
        Some(parts) => Field {
            word: parts.front,
            rest: Some(parts.rest),
        },
    }
}
