//! The tokens of a text that are not read yet.
ghost use Rattle.std.specs.Prelude.{◌≡◌};
ghost use Rattle.token_grammar.specs.Token.{lexeme, lexemes, Gives};
ghost use Rattle.token_grammar.specs.Grammar.{is, token, heads};

use crate::fault::{ReadError, TokenFault};
use crate::token::{Kind, Token};
use std::alloc::Global;

/// The tokens that are left. It never moves past the token at which reading stops.
#[derive(Drop)]
pub struct Cursor<'t, 'a> {
    /// Where memory for what is read comes from.
    pub alloc: Global,
    /// The tokens that are left.
    pub rest: &'t [Token<'a>],
}

impl<'t, 'a> Cursor<'t, 'a> {
    /// Whether the token at hand is of that kind.
    pub fn is_at(&self, kind: Kind) -> bool
        ensures { result ≡ heads (is kind) (lexemes self.now.rest.now) }
    {
        match self.rest {
            [token, ..] => token.kind == kind,
            [] => false,
        }
    }

    /// Takes the token at hand, where it is of that kind. A token of another kind, or the end, is
    /// refused as `Expected`.
    pub fn token(&mut self, kind: Kind) -> Result<Token<'a>, ReadError>
        ensures { Gives lexeme result (lexemes self.new.rest.now)
            ((token kind).reads (lexemes self.old.rest.now)) }
    {
        if self.is_at(kind) {
            let token = self.rest[0];
            self.rest = &self.rest[1..];
            Ok(token)
        } else {
            Err(ReadError::Fault(TokenFault::Expected))
        }
    }
}
