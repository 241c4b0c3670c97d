//! Reads numbers. The digits of a number are cut from its text once, and of these the number is made
//! to see whether it is too long: a text keeps the digits, whether they are binary or not.
ghost use Rattle.std.specs.Prelude.{◌≡◌, ◌≤◌, IfSome, IfOk};
ghost use Rattle.std.specs.List.{AllPass};
ghost use Rattle.std.specs.Char.{is_ascii_digit};
ghost use Rattle.token_grammar.specs.Token.{lexeme, lexemes, Gives};
ghost use Rattle.fixed_point.specs.declared.scale.TheConstants.{PLACES_LIMIT};
ghost use Rattle.fixed_point.specs.Reading.{number_read, number_told};
ghost use Rattle.chart_grammar.specs.Limits.{usual};
ghost use Rattle.chart_grammar.specs.Words.{lit_of};
ghost use Rattle.statechart_grammar.specs.Words as words;
ghost use Rattle.statechart_tokens.specs.Numbers as spec;

use crate::reader::Reader;
use chart_tree::LitText;
use fixed_point::{
    DIGIT_LIMIT, Num, NumFault, Numeral, frac_of, number_of, split_number, value_after,
};
use token_grammar::{Kind, ReadError, Token, TokenFault};

/// A number token, and the literal that it spells.
#[derive(Clone, Copy)]
pub struct NumberToken<'a> {
    /// The token.
    pub token: Token<'a>,
    /// The digits of its number, how many of them stand after the point, and the bits that `q` asks
    /// for.
    pub lit: LitText,
}

/// The fault of what was read as a number.
fn number_fault(number: Result<Num, NumFault>) -> Option<TokenFault>
    ensures { result ≡ words.fault_of_length number }
{
    match number {
        Ok(_) | Err(NumFault::NotBinary) => None,
        Err(NumFault::NotNumber) => Some(TokenFault::Expected),
        Err(NumFault::TooLong) => Some(TokenFault::LiteralTooLong),
    }
}

/// The bits that `q` asks for, in a byte.
fn short_bits(bits: Option<u32>) -> Option<u8>
    requires { IfSome bits (λ b. b ≤ PLACES_LIMIT) }
    ensures { result ≡ bits }
{
    match bits {
        Some(bits) => Some(bits as u8),
        None => None,
    }
}

/// The literal of a number's parts, or what is wrong with the number.
fn literal_told(parts: Numeral<'_>) -> Result<LitText, TokenFault>
    requires whole { AllPass is_ascii_digit parts.whole.now }
    requires behind { AllPass is_ascii_digit parts.behind.now }
    requires bits { IfSome parts.bits (λ b. b ≤ PLACES_LIMIT) }
    ensures { result ≡ spec.or_fault
        (words.fault_of_length (number_told parts.entry.negative parts.entry.whole.now
        parts.entry.behind.now parts.entry.bits))
        (spec.lit_told parts.entry.whole.now parts.entry.behind.now parts.entry.bits) }
{
    if parts.whole.len() + parts.behind.len() > DIGIT_LIMIT {
        return Err(TokenFault::LiteralTooLong);
    }
    let units = value_after(value_after(0, parts.whole), parts.behind);
    let places = parts.behind.len() as u32;
    let frac = frac_of(parts.bits, units, places);
    match number_fault(number_of(parts.negative, units, places, frac)) {
        Some(fault) => Err(fault),
        None => Ok(LitText {
            units,
            places: places as u8,
            q: short_bits(parts.bits),
        }),
    }
}

/// The literal that a text spells, or what is wrong with its number.
#[tactic(auto, unfolding(fixed_point::specs::Reading::number_read))]
fn literal_of(text: &[u8]) -> Result<LitText, TokenFault>
    ensures { result ≡ spec.or_fault (words.fault_of_length (number_read text.now))
        (lit_of text.now) }
{
    match split_number(text) {
        Some(parts) => literal_told(parts),
        None => Err(TokenFault::Expected),
    }
}

impl<'t, 'a> Reader<'t, 'a> {
    /// The literal that the token at hand spells, or the fault of the token.
    fn literal_at_hand(&self) -> Result<LitText, TokenFault>
        ensures { result ≡ spec.first_literal (lexemes self.now.rest.now) }
    {
        match self.rest {
            [token, ..] if self.is_at(Kind::Number) => literal_of(token.text),
            _ => Err(TokenFault::Expected),
        }
    }

    /// A number.
    pub fn number(&mut self) -> Result<NumberToken<'a>, ReadError>
        ensures read { Gives (λ n. lexeme n.token) result (lexemes self.new.rest.now)
            ((words.number usual).reads (lexemes self.old.rest.now)) }
        ensures literal { IfOk result (λ n. n.lit ≡ lit_of n.token.text.now) }
        ensures counts { self.new.counts ≡ self.old.counts }
    {
        match self.literal_at_hand() {
            Err(fault) => Err(ReadError::Fault(fault)),
            Ok(lit) => {
                let token = self.token(Kind::Number)?;
                Ok(NumberToken { token, lit })
            }
        }
    }
}
