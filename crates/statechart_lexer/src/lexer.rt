//! Cuts a statechart text into tokens.
ghost use Rattle.std.specs.Prelude.{◌≡◌, ◌+◌, ◌-◌, ◌<◌, ◌≤◌, ◌^◌, length, IfOk};
ghost use Rattle.chart_lexer.specs.Lex.{after_byte, seen};
ghost use Rattle.statechart_lexer.specs.Lex.{after_bytes, cut_of};

use crate::front::{Front, front_of};
use chart_lexer::Lexed;
use std::alloc::{AllocError, Global};
use token_grammar::{Span, Token};

/// The place after a byte: the next column, or the next line.
fn after_byte(place: Span, byte: u8) -> Span
    requires line { place.line < 2 ^ 32 - 1 }
    requires column { place.column < 2 ^ 32 - 1 }
    ensures { result ≡ after_byte place byte }
{
    if byte == b'\n' {
        Span {
            line: place.line + 1,
            column: 1,
        }
    } else {
        Span {
            line: place.line,
            column: place.column + 1,
        }
    }
}

/// The place after some bytes.
fn after_bytes(start: Span, bytes: &[u8]) -> Span
    requires line { start.line + length bytes.now < 2 ^ 32 }
    requires column { start.column + length bytes.now < 2 ^ 32 }
    requires some { 1 ≤ start.column }
    ensures value { result ≡ after_bytes start bytes.now }
    ensures line { result.line ≤ start.line + length bytes.now }
    ensures column { result.column ≤ start.column + length bytes.now }
    ensures some { 1 ≤ result.column }
{
    let mut place = start;
    for byte in bytes {
        place = after_byte(place, *byte);
    }
    place
}

/// Cuts a text of less than 2^31 bytes into tokens, up to its end or to the first byte that
/// begins none. Comments are no tokens.
pub fn lex<'a>(alloc: Global, text: &'a [u8]) -> Result<Lexed<'a>, AllocError>
    requires { length text.now < 2 ^ 31 }
    ensures { IfOk result (λ l. seen l ≡ cut_of text.now) }
{
    let mut tokens = Vec::new(alloc);
    let mut place = Span { line: 1, column: 1 };
    let mut at = 0;
    'fronts: loop {
        match front_of(&text[at..]) {
            Front::Skip(length) => {
                place = after_bytes(place, &text[at..at + length]);
                at += length;
            }
            Front::Token(kind, length, taken) => {
                let token = Token {
                    kind,
                    text: &text[at..at + length],
                    at: place,
                };
                tokens.push(token)?;
                place = after_bytes(place, &text[at..at + taken]);
                at += taken;
            }
            Front::Stop(stop) => {
                return Ok(Lexed {
                    tokens,
                    stop,
                    at: place,
                });
            }
        }
    }
}
