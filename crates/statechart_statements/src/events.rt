//! The events of cases.
ghost use Rattle.std.specs.Prelude.{◌≡◌};
ghost use Rattle.token_grammar.specs.declared.token.Kind.TheVariants as kinds;
ghost use Rattle.token_grammar.specs.Token.{lexeme, lexemes, Gives};
ghost use Rattle.token_grammar.specs.Grammar.{is, first_refused};
ghost use Rattle.statechart_tree.specs.Views.{expr_of, trigger_of};
ghost use Rattle.chart_grammar.specs.Limits.{usual};
ghost use Rattle.statechart_grammar.specs.Words as words;
ghost use Rattle.statechart_grammar.specs.Transitions as grammar;
ghost use Rattle.statechart_statements.specs.Parts as parts;

use chart_tree::{NameText, Span};
use statechart_lexer::{Word, word_of};
use statechart_operands::{expr, time_of};
use statechart_tokens::Reader;
use statechart_tree::{SourceExpr, TimeWord, Trigger};
use token_grammar::{Kind, ReadError, Token, TokenFault};

/// The fault of a further word that begins no event.
fn word_refused(token: Token<'_>) -> Option<TokenFault>
    ensures { result ≡ words.other_word words.is_timing (lexeme token.entry) }
{
    match word_of(token.text) {
        Some(Word::After | Word::Before | Word::At | Word::Every) => None,
        _ => Some(TokenFault::Expected),
    }
}

/// The fault of the token at hand as a temporal word that begins an event.
fn timing_refused(reader: &Reader<'_, '_>) -> Option<TokenFault>
    ensures { result ≡ first_refused (is kinds.Tick) (words.other_word words.is_timing)
        (lexemes reader.now.rest.now) }
{
    if !reader.is_at(Kind::Tick) {
        return None;
    }
    match reader.rest {
        [token, ..] => word_refused(*token),
        [] => None,
    }
}

/// What `after`, `before`, `at` or else `every` asks as an event.
fn timing(word: Option<TimeWord>, count: SourceExpr, event: NameText, at: Span) -> Trigger
    ensures { trigger_of result ≡ grammar.timing word (expr_of count) event at }
{
    match word {
        None => Trigger::Every(count, event, at),
        Some(word) => Trigger::Timed(word, count, event, at),
    }
}

/// The event of a temporal word, behind its count.
#[tactic(auto, unfolding(crate::specs::Parts::event_behind))]
fn event_behind(reader: &mut Reader<'_, '_>) -> Result<NameText, ReadError>
    ensures read { Gives (λ n. n) result (lexemes reader.new.rest.now)
        (parts.event_behind.reads (lexemes reader.old.rest.now)) }
    ensures counts { reader.new.counts ≡ reader.old.counts }
{
    reader.token(Kind::Comma)?;
    let event = reader.name()?;
    reader.closed_by(Kind::CloseParen, event)
}

/// A temporal word as an event, with its count and its event.
#[tactic(auto, unfolding(statechart_grammar::specs::Transitions::timed_event, statechart_grammar::specs::Words::word_in, crate::specs::Parts::event_behind))]
fn timed_event(reader: &mut Reader<'_, '_>) -> Result<Trigger, ReadError>
    ensures read { Gives trigger_of result (lexemes reader.new.rest.now)
        ((grammar.timed_event usual).reads (lexemes reader.old.rest.now)) }
    ensures counts { reader.new.counts ≡ reader.old.counts }
{
    let refused = timing_refused(reader);
    let token = reader.unless(refused, Kind::Tick)?;
    reader.token(Kind::OpenParen)?;
    let count = expr(reader)?;
    match event_behind(reader) {
        Ok(event) => Ok(timing(time_of(word_of(token.text)), count, event, token.at)),
        Err(fault) => {
            drop(count);
            Err(fault)
        }
    }
}

/// The event of a case.
#[tactic(auto, unfolding(statechart_grammar::specs::Transitions::event, statechart_grammar::specs::Transitions::named_event))]
pub fn event(reader: &mut Reader<'_, '_>) -> Result<Trigger, ReadError>
    ensures read { Gives trigger_of result (lexemes reader.new.rest.now)
        ((grammar.event usual).reads (lexemes reader.old.rest.now)) }
    ensures counts { reader.new.counts ≡ reader.old.counts }
{
    if reader.is_at(Kind::Tick) {
        timed_event(reader)
    } else {
        Ok(Trigger::On(reader.name()?))
    }
}
