//! Cuts a text into tokens.
ghost use Rattle.std.specs.Prelude.{◌≡◌, ◌+◌, ◌-◌, ◌<◌, ◌^◌, length, IfOk};
ghost use Rattle.chart_lexer.specs.Lex.{after_byte, cut_of, seen};

use crate::front::{Front, Stop, front_of};
use std::alloc::{AllocError, Global};
use token_grammar::{Span, Token};

/// The tokens of a text, and what stands after them.
#[derive(Drop)]
pub struct Lexed<'a> {
    /// The tokens in the order of the text, comments among them.
    pub tokens: Vec<Token<'a>>,
    /// What stands after the last token.
    pub stop: Stop,
    /// The place of the byte at fault, or just after the last byte of the text.
    pub at: Span,
}

fn right_of(place: Span, count: usize) -> Span
    requires { place.column + count < 2 ^ 32 }
    ensures { result ≡ record { line = place.line; column = place.column + count } }
{
    Span {
        line: place.line,
        column: place.column + count as u32,
    }
}

fn after_byte(place: Span, byte: u8) -> Span
    requires line { place.line < 2 ^ 32 - 1 }
    requires column { place.column < 2 ^ 32 - 1 }
    ensures { result ≡ after_byte place byte }
{
    if byte == b'\n' {
        Span {
            line: place.line + 1,
            column: 1,
        }
    } else {
        right_of(place, 1)
    }
}

/// Cuts a text of less than 2^31 bytes into tokens, up to its end or to the first byte that
/// begins none.
pub fn lex<'a>(alloc: Global, text: &'a [u8]) -> Result<Lexed<'a>, AllocError>
    requires { length text.now < 2 ^ 31 }
    ensures { IfOk result (λ l. seen l ≡ cut_of text.now) }
{
    let mut tokens = Vec::new(alloc);
    let mut place = Span { line: 1, column: 1 };
    let mut at = 0;
    'fronts: loop {
        match front_of(&text[at..]) {
            Front::Blank => {
                place = after_byte(place, text[at]);
                at += 1;
            }
            Front::Token(kind, length) => {
                let token = Token {
                    kind,
                    text: &text[at..at + length],
                    at: place,
                };
                tokens.push(token)?;
                place = right_of(place, length);
                at += length;
            }
            Front::Stop(stop) => {
                return Ok(Lexed {
                    tokens,
                    stop,
                    at: place,
                });
            }
        }
    }
}
