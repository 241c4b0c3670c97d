//! Names and reserved words.
ghost use Rattle.std.specs.Prelude.{◌≡◌, ◌≤◌, length, IsTrue, IfOk, bytes_eq};
ghost use Rattle.chart_lexer.specs.Words as spec;

use crate::bytes::{is_letter, is_name_byte};
use flow_base::Text;
use std::alloc::{AllocError, Global};
use token_grammar::Kind;

/// The most bytes of a name.
pub const NAME_LIMIT: usize = 63;

/// How many name bytes stand at the front of the text.
pub fn name_length(text: &[u8]) -> usize
    ensures value { result ≡ spec.name_length text.now }
    ensures within { result ≤ length text.now }
{
    text.iter().take_while(|byte| is_name_byte(**byte)).count()
}

/// Whether a word is the one that is spelled so, byte by byte.
pub fn is_spelled(word: &[u8], spelling: &[u8]) -> bool
    ensures { result ≡ bytes_eq word.now spelling.now }
{
    word == spelling
}

/// The kind of a word: of one of the reserved words, or else `Name`.
#[tactic(auto, unfolding(crate::specs::Words::word_kind))]
pub fn word_kind(word: &[u8]) -> Kind
    ensures { result ≡ spec.word_kind word.now }
{
    if is_spelled(word, b"chart") {
        Kind::Chart
    } else if is_spelled(word, b"or") {
        Kind::Or
    } else if is_spelled(word, b"and") {
        Kind::And
    } else if is_spelled(word, b"state") {
        Kind::State
    } else if is_spelled(word, b"entry") {
        Kind::Entry
    } else if is_spelled(word, b"during") {
        Kind::During
    } else if is_spelled(word, b"exit") {
        Kind::Exit
    } else {
        declaration_kind(word)
    }
}

/// The kind of a word that is none of charts and states.
#[tactic(auto, unfolding(crate::specs::Words::declaration_kind))]
fn declaration_kind(word: &[u8]) -> Kind
    ensures { result ≡ spec.declaration_kind word.now }
{
    if is_spelled(word, b"outer") {
        Kind::Outer
    } else if is_spelled(word, b"inner") {
        Kind::Inner
    } else if is_spelled(word, b"default") {
        Kind::Default
    } else if is_spelled(word, b"junction") {
        Kind::Junction
    } else if is_spelled(word, b"event") {
        Kind::Event
    } else if is_spelled(word, b"input") {
        Kind::Input
    } else if is_spelled(word, b"output") {
        Kind::Output
    } else {
        statement_kind(word)
    }
}

/// The kind of a word that is none of transitions, junctions and declarations either.
#[tactic(auto, unfolding(crate::specs::Words::statement_kind))]
fn statement_kind(word: &[u8]) -> Kind
    ensures { result ≡ spec.statement_kind word.now }
{
    if is_spelled(word, b"local") {
        Kind::Local
    } else if is_spelled(word, b"send") {
        Kind::Send
    } else if is_spelled(word, b"to") {
        Kind::To
    } else if is_spelled(word, b"emit") {
        Kind::Emit
    } else if is_spelled(word, b"in") {
        Kind::In
    } else if is_spelled(word, b"true") {
        Kind::True
    } else if is_spelled(word, b"false") {
        Kind::False
    } else {
        mode_kind(word)
    }
}

/// The kind of a word of the last reserved words, or else `Name`.
#[tactic(auto, unfolding(crate::specs::Words::mode_kind))]
fn mode_kind(word: &[u8]) -> Kind
    ensures { result ≡ spec.mode_kind word.now }
{
    if is_spelled(word, b"tick") {
        Kind::Tick
    } else if is_spelled(word, b"saturate") {
        Kind::Saturate
    } else if is_spelled(word, b"wrap") {
        Kind::Wrap
    } else if is_spelled(word, b"error") {
        Kind::Error
    } else if is_spelled(word, b"history") {
        Kind::History
    } else {
        Kind::Name
    }
}

/// Whether the text is one name: a letter, and then letters, digits and underscores, at most 63
/// bytes in all, and no reserved word.
pub fn is_name(text: &[u8]) -> bool
    ensures { result ≡ spec.is_name text.now }
{
    !text.is_empty()
        && is_letter(text[0])
        && name_length(text) == text.len()
        && text.len() <= NAME_LIMIT
        && word_kind(text) == Kind::Name
}

/// A copy of the bytes of a name, as a text.
pub fn name_text(alloc: Global, name: &[u8]) -> Result<Text, AllocError>
    requires { IsTrue (spec.is_name name.now) }
    ensures { IfOk result (λ text. text ≡ name.now) }
{
    match str::from_utf8(name) {
        Ok(text) => Ok(Text::of(String::from_str(alloc, text)?)),
        Err(_) => unreachable!(),
    }
}
