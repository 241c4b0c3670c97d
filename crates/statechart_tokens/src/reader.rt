//! The tokens that are left, and how many things have begun.
ghost use Rattle.std.specs.Prelude.{◌≡◌, ◌<◌, ◌∷◌, length};
ghost use Rattle.token_grammar.specs.Token.{lexeme, lexemes, Gives};
ghost use Rattle.token_grammar.specs.declared.token.Kind.TheVariants as kinds;
ghost use Rattle.token_grammar.specs.Grammar.{is, heads, token, one_of, allowed};
ghost use Rattle.token_grammar.specs.Grammar.{unless_refused, first_refused};
ghost use Rattle.statechart_grammar.specs.Words.{just, other_word, word_in, other_text, spelled};
ghost use Rattle.statechart_tokens.specs.Groups.{set_of};
ghost use Rattle.statechart_tokens.specs.Named.{AreNamed};
ghost use Rattle.statechart_tokens.specs.Parts as parts;

use crate::counts::Counts;
use crate::group::Group;
use chart_lexer::is_spelled;
use statechart_lexer::{Word, word_of};
use std::alloc::Global;
use token_grammar::{Cursor, Kind, ReadError, Token, TokenFault};

/// Reads the tokens of a statechart text. It never moves past the token at which it stops.
#[derive(Drop)]
pub struct Reader<'t, 'a> {
    pub alloc: Global,
    pub rest: &'t [Token<'a>],
    pub counts: Counts,
    /// Each token of kind Name is a name.
    pub ghost named: { AreNamed (lexemes rest.now) },
}

/// The fault of a token with another text.
fn text_refused(token: Token<'_>, text: &[u8]) -> Option<TokenFault>
    ensures { result ≡ other_text text.now (lexeme token.entry) }
{
    if is_spelled(token.text, text) {
        None
    } else {
        Some(TokenFault::Expected)
    }
}

impl<'t, 'a> Reader<'t, 'a> {
    /// Whether the token at hand is of that kind.
    pub fn is_at(&self, kind: Kind) -> bool
        ensures { result ≡ heads (is kind) (lexemes self.now.rest.now) }
    {
        let cursor = Cursor {
            alloc: self.alloc,
            rest: self.rest,
        };
        cursor.is_at(kind)
    }

    /// Whether the token at hand is of the group.
    pub fn is_at_one_of(&self, group: Group) -> bool
        ensures { result ≡ heads (set_of group) (lexemes self.now.rest.now) }
    {
        match self.rest {
            [token, ..] => group.has(token.kind),
            [] => false,
        }
    }

    /// Takes the token at hand.
    fn take(&mut self) -> Token<'a>
        requires { 0 < length self.old.rest.now }
        ensures taken { lexemes self.old.rest.now ≡ lexeme result ∷ lexemes self.new.rest.now }
        ensures counts { self.new.counts ≡ self.old.counts }
    {
        let token = self.rest[0];
        self.rest = &self.rest[1..];
        token
    }

    /// Takes the token at hand, where it is of that kind.
    pub fn token(&mut self, kind: Kind) -> Result<Token<'a>, ReadError>
        ensures read { Gives lexeme result (lexemes self.new.rest.now)
            ((token kind).reads (lexemes self.old.rest.now)) }
        ensures counts { self.new.counts ≡ self.old.counts }
    {
        if self.is_at(kind) {
            Ok(self.take())
        } else {
            Err(ReadError::Fault(TokenFault::Expected))
        }
    }

    /// Takes the token at hand, where it is of that kind, and gives the value that ends with it.
    pub fn closed_by<T: Drop>(&mut self, kind: Kind, value: T) -> Result<T, ReadError>
        ensures read { Gives (λ v. v) result (lexemes self.new.rest.now)
            ((parts.closed_by kind value).reads (lexemes self.old.rest.now)) }
        ensures counts { self.new.counts ≡ self.old.counts }
    {
        self.token(kind)?;
        Ok(value)
    }

    /// Takes the token at hand, where it is of the group.
    pub fn one_of(&mut self, group: Group) -> Result<Token<'a>, ReadError>
        ensures read { Gives lexeme result (lexemes self.new.rest.now)
            ((one_of (set_of group)).reads (lexemes self.old.rest.now)) }
        ensures counts { self.new.counts ≡ self.old.counts }
    {
        if self.is_at_one_of(group) {
            Ok(self.take())
        } else {
            Err(ReadError::Fault(TokenFault::Expected))
        }
    }

    /// Takes the token at hand, where it is of that kind and no fault refuses it.
    pub fn allowed_token(
        &mut self,
        kind: Kind,
        refused: Option<TokenFault>,
    ) -> Result<Token<'a>, ReadError>
        ensures read { Gives lexeme result (lexemes self.new.rest.now)
            ((allowed (is kind) (λ t. refused) (token kind)).reads
            (lexemes self.old.rest.now)) }
        ensures counts { self.new.counts ≡ self.old.counts }
    {
        match refused {
            None => self.token(kind),
            Some(fault) if self.is_at(kind) => Err(ReadError::Fault(fault)),
            Some(_) => Err(ReadError::Fault(TokenFault::Expected)),
        }
    }

    /// Takes the token at hand, where it is of the group and no fault refuses it.
    pub fn allowed_one_of(
        &mut self,
        group: Group,
        refused: Option<TokenFault>,
    ) -> Result<Token<'a>, ReadError>
        ensures read { Gives lexeme result (lexemes self.new.rest.now)
            ((allowed (set_of group) (λ t. refused) (one_of (set_of group))).reads
            (lexemes self.old.rest.now)) }
        ensures counts { self.new.counts ≡ self.old.counts }
    {
        match refused {
            None => self.one_of(group),
            Some(fault) if self.is_at_one_of(group) => Err(ReadError::Fault(fault)),
            Some(_) => Err(ReadError::Fault(TokenFault::Expected)),
        }
    }

    /// Takes the token at hand, where it is of that kind and isn't refused.
    pub fn unless(
        &mut self,
        refused: Option<TokenFault>,
        kind: Kind,
    ) -> Result<Token<'a>, ReadError>
        ensures read { Gives lexeme result (lexemes self.new.rest.now)
            (unless_refused refused (lexemes self.old.rest.now)
            ((token kind).reads (lexemes self.old.rest.now))) }
        ensures counts { self.new.counts ≡ self.old.counts }
    {
        match refused {
            None => self.token(kind),
            Some(fault) => Err(ReadError::Fault(fault)),
        }
    }

    /// The fault of the token at hand, where it is of that kind and has another text.
    fn other_text(&self, kind: Kind, text: &[u8]) -> Option<TokenFault>
        ensures { result ≡ first_refused (is kind) (other_text text.now)
            (lexemes self.now.rest.now) }
    {
        if !self.is_at(kind) {
            return None;
        }
        match self.rest {
            [token, ..] => text_refused(*token, text),
            [] => None,
        }
    }

    /// Takes the token at hand, where it is of that kind and has that text.
    #[tactic(auto, unfolding(statechart_grammar::specs::Words::spelled))]
    pub fn spelled(&mut self, kind: Kind, text: &[u8]) -> Result<Token<'a>, ReadError>
        ensures read { Gives lexeme result (lexemes self.new.rest.now)
            ((spelled kind text.now).reads (lexemes self.old.rest.now)) }
        ensures counts { self.new.counts ≡ self.old.counts }
    {
        let refused = self.other_text(kind, text);
        self.unless(refused, kind)
    }

    /// The fault of the token at hand, where it is a further word, or `tick`, and not this one.
    fn other_word(&self, word: Word) -> Option<TokenFault>
        ensures { result ≡ first_refused (is kinds.Tick) (other_word (just word))
            (lexemes self.now.rest.now) }
    {
        match self.rest {
            [token, ..] if token.kind == Kind::Tick && word_of(token.text) != Some(word) => {
                Some(TokenFault::Expected)
            }
            _ => None,
        }
    }

    /// Takes the token at hand, where it is this further word.
    #[tactic(auto, unfolding(statechart_grammar::specs::Words::word_in))]
    pub fn word(&mut self, word: Word) -> Result<Token<'a>, ReadError>
        ensures read { Gives lexeme result (lexemes self.new.rest.now)
            ((word_in (just word)).reads (lexemes self.old.rest.now)) }
        ensures counts { self.new.counts ≡ self.old.counts }
    {
        let refused = self.other_word(word);
        self.unless(refused, Kind::Tick)
    }
}
