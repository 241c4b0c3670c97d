//! What stands at the front of a text.
ghost use Rattle.std.specs.Prelude.{◌≡◌, ◌<◌, ◌≤◌, IsTrue, length};
ghost use Rattle.chart_lexer.specs.Bytes.{begins, is_letter, is_digit};
ghost use Rattle.chart_lexer.specs.Lex as spec;

use crate::bytes::{is_allowed, is_blank, is_digit, is_letter, is_name_byte};
use crate::numbers::number_length;
use crate::symbols::{first_pair, first_single};
use crate::words::{NAME_LIMIT, name_length, word_kind};
use token_grammar::Kind;

/// What stands after the tokens of a text.
#[derive(Clone, Copy, Debug, PartialEq, Eq)]
pub enum Stop {
    /// The end of the text.
    End,
    /// A byte that no chart text may have, not even in a comment.
    BadByte,
    /// A byte that begins no token: the first byte of a word of over 63 bytes, of a number followed
    /// by a letter or an underscore, or of what is neither word, number, comment nor symbol.
    BadToken,
}

/// What stands at the front of a text.
#[derive(Clone, Copy)]
pub enum Front {
    /// A byte that separates tokens.
    Blank,
    /// A token of that kind, and how many bytes it has.
    Token(Kind, usize),
    /// No token.
    Stop(Stop),
}

fn word_front(text: &[u8]) -> Front
    requires { IsTrue (begins is_letter text.now) }
    ensures value { result ≡ spec.word_front text.now }
    ensures within { spec.FrontWithin result (length text.now) }
{
    let length = name_length(text);
    if length > NAME_LIMIT {
        return Front::Stop(Stop::BadToken);
    }
    Front::Token(word_kind(&text[..length]), length)
}

fn number_front(text: &[u8]) -> Front
    requires { IsTrue (begins is_digit text.now) }
    ensures value { result ≡ spec.number_front text.now }
    ensures within { spec.FrontWithin result (length text.now) }
{
    let length = number_length(text);
    if length < text.len() && is_name_byte(text[length]) {
        return Front::Stop(Stop::BadToken);
    }
    Front::Token(Kind::Number, length)
}

fn comment_length(text: &[u8]) -> usize
    ensures value { result ≡ spec.comment_length text.now }
    ensures within { result ≤ length text.now }
{
    text.iter()
        .take_while(|byte| is_allowed(**byte) && **byte != b'\n')
        .count()
}

fn begins_comment(text: &[u8]) -> bool
    ensures { result ≡ spec.begins_comment text.now }
{
    text.len() > 1 && text[0] == b'/' && text[1] == b'/'
}

fn symbol_front(text: &[u8]) -> Front
    ensures value { result ≡ spec.symbol_front text.now }
    ensures within { spec.FrontWithin result (length text.now) }
{
    if let Some(kind) = first_pair(text) {
        return Front::Token(kind, 2);
    }
    match first_single(text) {
        Some(kind) => Front::Token(kind, 1),
        None => Front::Stop(Stop::BadToken),
    }
}

/// What stands at the front of a text.
#[tactic(auto, unfolding(crate::specs::Lex::front_of))]
pub fn front_of(text: &[u8]) -> Front
    ensures value { result ≡ spec.front_of text.now }
    ensures within { spec.FrontWithin result (length text.now) }
{
    if text.is_empty() {
        return Front::Stop(Stop::End);
    }
    let first = text[0];
    if is_blank(first) {
        Front::Blank
    } else if !is_allowed(first) {
        Front::Stop(Stop::BadByte)
    } else if is_letter(first) {
        word_front(text)
    } else if is_digit(first) {
        number_front(text)
    } else if begins_comment(text) {
        Front::Token(Kind::Comment, comment_length(text))
    } else {
        symbol_front(text)
    }
}
