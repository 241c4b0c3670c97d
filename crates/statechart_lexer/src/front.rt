//! What stands at the front of a text.
ghost use Rattle.std.specs.Prelude.{◌≡◌, IsTrue, length};
ghost use Rattle.chart_lexer.specs.Bytes.{begins, is_letter, is_digit};
ghost use Rattle.statechart_lexer.specs.Lex as spec;

use crate::bytes::{is_allowed, is_blank, is_digit, is_letter, is_name_byte};
use crate::comments::{begins_with, comment_length, comment_rest};
use crate::numbers::number_length;
use crate::symbols::{first_pair, first_single};
use crate::words::{name_length, word_kind};
use chart_lexer::{NAME_LIMIT, Stop};
use token_grammar::Kind;

/// What stands at the front of a text.
#[derive(Clone, Copy)]
pub enum Front {
    /// So many bytes that are passed over: a blank one, or a comment.
    Skip(usize),
    /// A token of that kind, how many bytes its text has, and how many of them are behind it.
    Token(Kind, usize, usize),
    /// No token.
    Stop(Stop),
}

fn word_front(text: &[u8]) -> Front
    requires { IsTrue (begins is_letter text.now) }
    ensures value { result ≡ spec.word_front text.now }
    ensures within { spec.FrontWithin result (length text.now) }
{
    let length = name_length(text);
    if length > NAME_LIMIT {
        return Front::Stop(Stop::BadToken);
    }
    Front::Token(word_kind(&text[..length]), length, length)
}

fn number_front(text: &[u8]) -> Front
    requires { IsTrue (begins is_digit text.now) }
    ensures value { result ≡ spec.number_front text.now }
    ensures within { spec.FrontWithin result (length text.now) }
{
    let length = number_length(text);
    if length < text.len() && is_name_byte(text[length]) {
        return Front::Stop(Stop::BadToken);
    }
    Front::Token(Kind::Number, length, length)
}

fn symbol_front(text: &[u8]) -> Front
    ensures value { result ≡ spec.symbol_front text.now }
    ensures within { spec.FrontWithin result (length text.now) }
{
    if begins_with(text, b'-', b'-') {
        return Front::Token(Kind::Minus, 2, 1);
    }
    if let Some(kind) = first_pair(text) {
        return Front::Token(kind, 2, 2);
    }
    match first_single(text) {
        Some(kind) => Front::Token(kind, 1, 1),
        None => Front::Stop(Stop::BadToken),
    }
}

/// A comment, or a symbol.
fn slash_front(text: &[u8]) -> Front
    ensures value { result ≡ spec.slash_front text.now }
    ensures within { spec.FrontWithin result (length text.now) }
{
    if begins_with(text, b'/', b'/') {
        return Front::Skip(comment_length(text));
    }
    if !begins_with(text, b'/', b'*') {
        return symbol_front(text);
    }
    match comment_rest(&text[2..]) {
        Some(length) => Front::Skip(length + 2),
        None => Front::Stop(Stop::BadToken),
    }
}

/// What stands at the front of a text.
#[tactic(auto, unfolding(crate::specs::Lex::front_of))]
pub fn front_of(text: &[u8]) -> Front
    ensures value { result ≡ spec.front_of text.now }
    ensures within { spec.FrontWithin result (length text.now) }
{
    if text.is_empty() {
        return Front::Stop(Stop::End);
    }
    let first = text[0];
    if is_blank(first) {
        Front::Skip(1)
    } else if !is_allowed(first) {
        Front::Stop(Stop::BadByte)
    } else if is_letter(first) {
        word_front(text)
    } else if is_digit(first) {
        number_front(text)
    } else {
        slash_front(text)
    }
}
