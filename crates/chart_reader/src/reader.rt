//! The tokens that are left, and how many things have begun.
ghost use Rattle.std.specs.Prelude.{◌≡◌, ◌<◌, ◌∷◌, length};
ghost use Rattle.token_grammar.specs.Token.{lexeme, lexemes, Gives};
ghost use Rattle.token_grammar.specs.Grammar.{is, heads, token, one_of, allowed};
ghost use Rattle.chart_reader.specs.Groups.{set_of};
ghost use Rattle.chart_reader.specs.Named.{AreNamed};
ghost use Rattle.chart_reader.specs.Parts as parts;

use crate::counts::Counts;
use crate::group::Group;
use std::alloc::Global;
use token_grammar::{Cursor, Kind, ReadError, Token, TokenFault};

/// Reads the tokens of a chart text. It never moves past the token at which it stops.
#[derive(Drop)]
pub(crate) struct Reader<'t, 'a> {
    pub alloc: Global,
    pub rest: &'t [Token<'a>],
    pub counts: Counts,
    /// Each token of kind Name is a name.
    pub ghost named: { AreNamed (lexemes rest.now) },
}

impl<'t, 'a> Reader<'t, 'a> {
    /// Whether the token at hand is of that kind.
    pub fn is_at(&self, kind: Kind) -> bool
        ensures { result ≡ heads (is kind) (lexemes self.now.rest.now) }
    {
        let cursor = Cursor {
            alloc: self.alloc,
            rest: self.rest,
        };
        cursor.is_at(kind)
    }

    /// Whether the token at hand is of the group.
    pub fn is_at_one_of(&self, group: Group) -> bool
        ensures { result ≡ heads (set_of group) (lexemes self.now.rest.now) }
    {
        match self.rest {
            [token, ..] => group.has(token.kind),
            [] => false,
        }
    }

    /// Takes the token at hand.
    fn take(&mut self) -> Token<'a>
        requires { 0 < length self.old.rest.now }
        ensures taken { lexemes self.old.rest.now ≡ lexeme result ∷ lexemes self.new.rest.now }
        ensures counts { self.new.counts ≡ self.old.counts }
    {
        let token = self.rest[0];
        self.rest = &self.rest[1..];
        token
    }

    /// Takes the token at hand, where it is of that kind.
    pub fn token(&mut self, kind: Kind) -> Result<Token<'a>, ReadError>
        ensures read { Gives lexeme result (lexemes self.new.rest.now)
            ((token kind).reads (lexemes self.old.rest.now)) }
        ensures counts { self.new.counts ≡ self.old.counts }
    {
        if self.is_at(kind) {
            Ok(self.take())
        } else {
            Err(ReadError::Fault(TokenFault::Expected))
        }
    }

    /// Takes the token at hand, where it is of that kind, and gives the value that ends with it.
    pub fn closed_by<T: Drop>(&mut self, kind: Kind, value: T) -> Result<T, ReadError>
        ensures read { Gives (λ v. v) result (lexemes self.new.rest.now)
            ((parts.closed_by kind value).reads (lexemes self.old.rest.now)) }
        ensures counts { self.new.counts ≡ self.old.counts }
    {
        self.token(kind)?;
        Ok(value)
    }

    /// Takes the token at hand, where it is of the group.
    pub fn one_of(&mut self, group: Group) -> Result<Token<'a>, ReadError>
        ensures read { Gives lexeme result (lexemes self.new.rest.now)
            ((one_of (set_of group)).reads (lexemes self.old.rest.now)) }
        ensures counts { self.new.counts ≡ self.old.counts }
    {
        if self.is_at_one_of(group) {
            Ok(self.take())
        } else {
            Err(ReadError::Fault(TokenFault::Expected))
        }
    }

    /// Takes the token at hand, where it is of that kind and no fault refuses it.
    pub fn allowed_token(
        &mut self,
        kind: Kind,
        refused: Option<TokenFault>,
    ) -> Result<Token<'a>, ReadError>
        ensures read { Gives lexeme result (lexemes self.new.rest.now)
            ((allowed (is kind) (λ t. refused) (token kind)).reads
            (lexemes self.old.rest.now)) }
        ensures counts { self.new.counts ≡ self.old.counts }
    {
        match refused {
            None => self.token(kind),
            Some(fault) if self.is_at(kind) => Err(ReadError::Fault(fault)),
            Some(_) => Err(ReadError::Fault(TokenFault::Expected)),
        }
    }

    /// Takes the token at hand, where it is of the group and no fault refuses it.
    pub fn allowed_one_of(
        &mut self,
        group: Group,
        refused: Option<TokenFault>,
    ) -> Result<Token<'a>, ReadError>
        ensures read { Gives lexeme result (lexemes self.new.rest.now)
            ((allowed (set_of group) (λ t. refused) (one_of (set_of group))).reads
            (lexemes self.old.rest.now)) }
        ensures counts { self.new.counts ≡ self.old.counts }
    {
        match refused {
            None => self.one_of(group),
            Some(fault) if self.is_at_one_of(group) => Err(ReadError::Fault(fault)),
            Some(_) => Err(ReadError::Fault(TokenFault::Expected)),
        }
    }
}
