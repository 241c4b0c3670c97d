//! Comments of both kinds.
ghost use Rattle.std.specs.Prelude.{◌≡◌, ◌≤◌, length};
ghost use Rattle.chart_lexer.specs.Lex as core;
ghost use Rattle.statechart_lexer.specs.Comments as spec;
ghost use Rattle.statechart_lexer.specs.Lex.{RestWithin};

use crate::bytes::is_allowed;

/// How many bytes of a comment up to the end of its line stand at the front of the text.
pub fn comment_length(text: &[u8]) -> usize
    ensures value { result ≡ core.comment_length text.now }
    ensures within { result ≤ length text.now }
{
    text.iter()
        .take_while(|byte| is_allowed(**byte) && **byte != b'\n')
        .count()
}

/// Whether these two bytes stand at the front of the text.
pub fn begins_with(text: &[u8], first: u8, second: u8) -> bool
    ensures { result ≡ spec.begins_with first second text.now }
{
    text.len() > 1 && text[0] == first && text[1] == second
}

/// How many bytes of a comment are left, with its end `*/`. None where the text ends before. A byte
/// that no text may have ends the comment in front of itself.
pub fn comment_rest(text: &[u8]) -> Option<usize>
    ensures value { result ≡ spec.comment_rest text.now }
    ensures within { RestWithin result (length text.now) }
{
    let mut at = 0;
    'bytes: while at < text.len() {
        if !is_allowed(text[at]) {
            return Some(at);
        }
        if begins_with(&text[at..], b'*', b'/') {
            return Some(at + 2);
        }
        at += 1;
    }
    None
}
