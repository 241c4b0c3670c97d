//! Temporal words in expressions: which of them may stand where.
ghost use Rattle.std.specs.Prelude.{◌≡◌};
ghost use Rattle.token_grammar.specs.declared.token.Kind.TheVariants as kinds;
ghost use Rattle.token_grammar.specs.Token.{lexeme, lexemes};
ghost use Rattle.token_grammar.specs.Grammar.{is, first_refused};
ghost use Rattle.chart_grammar.specs.Limits.{usual};
ghost use Rattle.statechart_grammar.specs.Words as words;
ghost use Rattle.statechart_grammar.specs.Expressions as grammar;

use statechart_lexer::{Word, word_of};
use statechart_tokens::{Reader, one_more};
use statechart_tree::TimeWord;
use token_grammar::{Kind, Thing, Token, TokenFault};

/// What a word asks that asks whether a count is reached.
pub fn time_of(word: Option<Word>) -> Option<TimeWord>
    ensures { result ≡ words.time_of word }
{
    match word {
        Some(Word::After) => Some(TimeWord::After),
        Some(Word::Before) => Some(TimeWord::Before),
        Some(Word::At) => Some(TimeWord::At),
        _ => None,
    }
}

/// The fault of one temporal word with a count more, where `before` operators stand before it.
fn nesting_refused(deepest: bool, before: u32) -> Option<TokenFault>
    ensures { result ≡ grammar.nesting_refused usual deepest before }
{
    if deepest {
        Some(TokenFault::TooMany(Thing::Operators))
    } else {
        one_more(Thing::Operators, before)
    }
}

/// The fault of a further word that is no temporal word of an expression, or is one too many with a
/// count.
fn word_refused(token: Token<'_>, deepest: bool, before: u32) -> Option<TokenFault>
    ensures { result ≡ grammar.temporal_refused usual deepest before (lexeme token.entry) }
{
    match word_of(token.text) {
        Some(Word::After | Word::Before | Word::At) => nesting_refused(deepest, before),
        Some(Word::TemporalCount) => None,
        _ => Some(TokenFault::Expected),
    }
}

/// The fault of the token at hand as a temporal word of an expression.
pub fn temporal_refused(reader: &Reader<'_, '_>, deepest: bool, before: u32) -> Option<TokenFault>
    ensures { result ≡ first_refused (is kinds.Tick) (grammar.temporal_refused usual deepest before)
        (lexemes reader.now.rest.now) }
{
    if !reader.is_at(Kind::Tick) {
        return None;
    }
    match reader.rest {
        [token, ..] => word_refused(*token, deepest, before),
        [] => None,
    }
}
