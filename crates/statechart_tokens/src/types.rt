//! Reads types.
ghost use Rattle.std.specs.Prelude.{◌≡◌, [], ◌∷◌};
ghost use Rattle.std.specs.Option.{option_map};
ghost use Rattle.token_grammar.specs.Token.{lexemes, Gives};
ghost use Rattle.chart_tree.specs.Views.{parts_of};
ghost use Rattle.statechart_tree.specs.Views.{sort_of};
ghost use Rattle.statechart_grammar.specs.Declarations as grammar;
ghost use Rattle.chart_grammar.specs.Types as spec;
ghost use Rattle.statechart_tokens.specs.Types.{word_of, below_hundred, told_of};

use crate::group::Group;
use crate::reader::Reader;
use chart_lexer::{is_spelled, name_text};
use chart_tree::{NameText, SortText};
use fixed_point::{Mode, Scale, split_digits};
use statechart_tree::SourceSort;
use token_grammar::{Kind, ReadError};

/// The type that a word names.
#[derive(Clone, Copy)]
pub enum TypeName {
    /// True or false.
    Flag,
    /// The numbers of a scale.
    Numbers(Scale),
}

/// The number that a digit denotes.
fn one_digit(digit: u8) -> Option<u8>
    ensures { result ≡ below_hundred (spec.plain_number (digit ∷ [])) }
{
    if digit.is_ascii_digit() {
        Some(digit - b'0')
    } else {
        None
    }
}

/// The number that two digits denote, without a leading zero.
fn two_digits(tens: u8, digit: u8) -> Option<u8>
    ensures { result ≡ below_hundred (spec.plain_number (tens ∷ digit ∷ [])) }
{
    if tens.is_ascii_digit() && tens != b'0' && digit.is_ascii_digit() {
        Some((tens - b'0') * 10 + (digit - b'0'))
    } else {
        None
    }
}

/// The number that digits denote, without a leading zero. None where it is 100 or more.
fn small_number(text: &[u8]) -> Option<u8>
    ensures { result ≡ below_hundred (spec.plain_number text.now) }
{
    match text {
        [digit] => one_digit(*digit),
        [tens, digit] => two_digits(*tens, *digit),
        _ => None,
    }
}

/// The fraction of a scale, 0 where none is written. None where it is 100 or more.
fn frac_of(text: &[u8]) -> Option<u8>
    ensures { result ≡ below_hundred (spec.frac_told text.now) }
{
    if text.is_empty() {
        Some(0)
    } else if text.starts_with(b"_En".as_slice()) {
        small_number(&text[3..])
    } else {
        None
    }
}

/// The scale of a word after `sfix` or `ufix`.
fn scale_told(signed: bool, text: &[u8]) -> Option<Scale>
    ensures { option_map parts_of result ≡ spec.scale_told signed text.now }
{
    let (digits, rest) = split_digits(text);
    let width = small_number(digits)?;
    let frac = frac_of(rest)?;
    Scale::make(signed, width, frac)
}

/// The scale of a word that has its width in it.
fn told_of(word: &[u8]) -> Option<Scale>
    ensures { option_map parts_of result ≡ told_of word.now }
{
    if word.starts_with(b"sfix".as_slice()) {
        scale_told(true, &word[4..])
    } else if word.starts_with(b"ufix".as_slice()) {
        scale_told(false, &word[4..])
    } else {
        None
    }
}

/// The scale that a word names.
#[tactic(auto, unfolding(chart_grammar::specs::Types::scale_of))]
fn scale_of(word: &[u8]) -> Option<Scale>
    ensures { option_map parts_of result ≡ spec.scale_of word.now }
{
    if is_spelled(word, b"int8") {
        Scale::make(true, 8, 0)
    } else if is_spelled(word, b"int16") {
        Scale::make(true, 16, 0)
    } else if is_spelled(word, b"int32") {
        Scale::make(true, 32, 0)
    } else if is_spelled(word, b"int64") {
        Scale::make(true, 64, 0)
    } else if is_spelled(word, b"uint8") {
        Scale::make(false, 8, 0)
    } else if is_spelled(word, b"uint16") {
        Scale::make(false, 16, 0)
    } else if is_spelled(word, b"uint32") {
        Scale::make(false, 32, 0)
    } else if is_spelled(word, b"uint64") {
        Scale::make(false, 64, 0)
    } else {
        told_of(word)
    }
}

/// The type that a word names.
#[tactic(auto, unfolding(chart_grammar::specs::Types::type_word))]
fn type_of(word: &[u8]) -> Option<TypeName>
    ensures { option_map word_of result ≡ spec.type_word word.now }
{
    if is_spelled(word, b"bool") {
        Some(TypeName::Flag)
    } else {
        match scale_of(word) {
            Some(scale) => Some(TypeName::Numbers(scale)),
            None => None,
        }
    }
}

/// The mode of a word: what is done with numbers out of range.
fn mode_of(kind: Kind) -> Mode
    ensures { result ≡ spec.mode_word kind }
{
    match kind {
        Kind::Wrap => Mode::Wrap,
        Kind::Error => Mode::Error,
        _ => Mode::Saturate,
    }
}

impl<'t, 'a> Reader<'t, 'a> {
    /// The mode at hand: what is done with numbers out of range.
    #[tactic(auto, unfolding(chart_grammar::specs::Types::mode))]
    fn mode(&mut self) -> Result<Mode, ReadError>
        ensures read { Gives (λ m. m) result (lexemes self.new.rest.now)
            (spec.mode.reads (lexemes self.old.rest.now)) }
        ensures counts { self.new.counts ≡ self.old.counts }
    {
        let token = self.one_of(Group::Modes)?;
        Ok(mode_of(token.kind))
    }

    /// The mode at hand, `Saturate` where none is written.
    #[tactic(auto, unfolding(chart_grammar::specs::Types::maybe_mode))]
    fn maybe_mode(&mut self) -> Result<Mode, ReadError>
        ensures read { Gives (λ m. m) result (lexemes self.new.rest.now)
            (spec.maybe_mode.reads (lexemes self.old.rest.now)) }
        ensures counts { self.new.counts ≡ self.old.counts }
    {
        if self.is_at_one_of(Group::Modes) {
            self.mode()
        } else {
            Ok(Mode::Saturate)
        }
    }

    /// A type: one of a chart text, or else the name of an enumeration.
    #[tactic(auto, unfolding(statechart_grammar::specs::Declarations::sort))]
    pub fn sort(&mut self) -> Result<SourceSort, ReadError>
        ensures read { Gives sort_of result (lexemes self.new.rest.now)
            (grammar.sort.reads (lexemes self.old.rest.now)) }
        ensures counts { self.new.counts ≡ self.old.counts }
    {
        let token = self.token(Kind::Name)?;
        match type_of(token.text) {
            Some(TypeName::Flag) => Ok(SourceSort::Plain(SortText::Flag)),
            Some(TypeName::Numbers(scale)) => {
                let mode = self.maybe_mode()?;
                Ok(SourceSort::Plain(SortText::Number(scale, mode)))
            }
            None => {
                let text = name_text(self.alloc, token.text)?;
                Ok(SourceSort::Named(NameText { text, at: token.at }))
            }
        }
    }
}
