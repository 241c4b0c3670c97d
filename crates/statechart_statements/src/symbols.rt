//! Symbols that change a datum.
ghost use Rattle.std.specs.Prelude.{◌≡◌};
ghost use Rattle.token_grammar.specs.declared.token.Kind.TheVariants as kinds;
ghost use Rattle.token_grammar.specs.Token.{lexeme, lexemes};
ghost use Rattle.token_grammar.specs.Grammar.{is, first_refused};
ghost use Rattle.statechart_grammar.specs.Transitions as grammar;

use chart_lexer::is_spelled;
use chart_tree::BinWord;
use statechart_tokens::Reader;
use token_grammar::{Kind, Token, TokenFault};

/// The operator of a symbol that changes a datum by a value.
#[tactic(auto, unfolding(statechart_grammar::specs::Transitions::update_word))]
pub fn update_word(text: &[u8]) -> Option<BinWord>
    ensures { result ≡ grammar.update_word text.now }
{
    if is_spelled(text, b"+=") {
        Some(BinWord::Add)
    } else if is_spelled(text, b"-=") {
        Some(BinWord::Sub)
    } else if is_spelled(text, b"*=") {
        Some(BinWord::Mul)
    } else if is_spelled(text, b"/=") {
        Some(BinWord::Div)
    } else {
        None
    }
}

/// The fault of a token that is none of the symbols that change a datum.
fn symbol_refused(token: Token<'_>) -> Option<TokenFault>
    ensures { result ≡ grammar.change_refused (lexeme token.entry) }
{
    match update_word(token.text) {
        Some(_) => None,
        None if is_spelled(token.text, b"++") => None,
        None => Some(TokenFault::Expected),
    }
}

/// The fault of the token at hand as a symbol that changes a datum.
pub fn change_refused(reader: &Reader<'_, '_>) -> Option<TokenFault>
    ensures { result ≡ first_refused (is kinds.Chart) grammar.change_refused
        (lexemes reader.now.rest.now) }
{
    if !reader.is_at(Kind::Chart) {
        return None;
    }
    match reader.rest {
        [token, ..] => symbol_refused(*token),
        [] => None,
    }
}
