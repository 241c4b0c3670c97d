//! Actions: words, and a block behind them.
ghost use Rattle.std.specs.Prelude.{◌≡◌, map, IfOk};
ghost use Rattle.token_grammar.specs.Token.{lexemes, Gives};
ghost use Rattle.token_grammar.specs.Grammar.{heads};
ghost use Rattle.statechart_tree.specs.Views.{word_of, action_of};
ghost use Rattle.chart_grammar.specs.Limits.{usual};
ghost use Rattle.statechart_grammar.specs.States as states;
ghost use Rattle.statechart_tokens.specs.Counts.{counts_of};
ghost use Rattle.statechart_statements.specs.Parts as parts;
ghost use Rattle.statechart_statements.specs.Words.{done_of};

use crate::blocks::block;
use crate::cases::when;
use crate::done::Done;
use chart_tree::Span;
use flow_base::List;
use statechart_lexer::Word;
use statechart_tokens::{Group, Reader};
use statechart_tree::{ActionWord, SourceAction};
use token_grammar::{Kind, ReadError, TokenFault};

/// The action that a kind names.
fn action_word(kind: Kind) -> ActionWord
    ensures { word_of result ≡ states.action_word kind }
{
    match kind {
        Kind::Entry => ActionWord::Entry,
        Kind::During => ActionWord::During,
        _ => ActionWord::Exit,
    }
}

/// `entry`, `during` or `exit`.
#[tactic(auto, unfolding(statechart_grammar::specs::States::plain_word))]
pub fn plain_word(reader: &mut Reader<'_, '_>) -> Result<ActionWord, ReadError>
    ensures read { Gives word_of result (lexemes reader.new.rest.now)
        (states.plain_word.reads (lexemes reader.old.rest.now)) }
    ensures counts { reader.new.counts ≡ reader.old.counts }
{
    let token = reader.one_of(Group::Actions)?;
    Ok(action_word(token.kind))
}

/// The cases behind `on`, which stands at that place.
#[tactic(auto, unfolding(statechart_grammar::specs::States::cases_word))]
pub fn cases_word(reader: &mut Reader<'_, '_>, at: Span) -> Result<ActionWord, ReadError>
    ensures read { Gives word_of result (lexemes reader.new.rest.now)
        ((states.cases_word usual at).reads (lexemes reader.old.rest.now)) }
    ensures counts { reader.new.counts ≡ reader.old.counts }
{
    let cases = when(reader)?;
    Ok(ActionWord::On(cases, at))
}

/// `on` and its cases.
#[tactic(auto, unfolding(statechart_grammar::specs::States::on_word))]
fn on_word(reader: &mut Reader<'_, '_>) -> Result<ActionWord, ReadError>
    ensures read { Gives word_of result (lexemes reader.new.rest.now)
        ((states.on_word usual).reads (lexemes reader.old.rest.now)) }
    ensures counts { reader.new.counts ≡ reader.old.counts }
{
    let at = reader.word(Word::On)?.at;
    cases_word(reader, at)
}

/// When an action is done.
#[tactic(auto, unfolding(statechart_grammar::specs::States::any_word))]
fn any_word(reader: &mut Reader<'_, '_>) -> Result<ActionWord, ReadError>
    ensures read { Gives word_of result (lexemes reader.new.rest.now)
        ((states.any_word usual).reads (lexemes reader.old.rest.now)) }
    ensures counts { reader.new.counts ≡ reader.old.counts }
{
    if reader.is_at_one_of(Group::Actions) {
        plain_word(reader)
    } else {
        on_word(reader)
    }
}

/// Whether an action is at hand that may stand behind those that are done.
fn is_at_word(reader: &Reader<'_, '_>, done: Done) -> bool
    ensures { result ≡ heads (states.action_heads (done_of done)) (lexemes reader.now.rest.now) }
{
    match reader.rest {
        [token, ..] => done.lets(token.kind),
        [] => false,
    }
}

/// When an action is done, where it may stand.
fn next_word(reader: &mut Reader<'_, '_>, done: Done) -> Result<ActionWord, ReadError>
    ensures read { Gives word_of result (lexemes reader.new.rest.now)
        ((states.next_word usual (done_of done)).reads (lexemes reader.old.rest.now)) }
    ensures counts { reader.new.counts ≡ reader.old.counts }
{
    if is_at_word(reader, done) {
        any_word(reader)
    } else {
        Err(ReadError::Fault(TokenFault::Expected))
    }
}

/// One more, behind its comma.
#[tactic(auto, unfolding(statechart_grammar::specs::States::another_word))]
fn another_word(reader: &mut Reader<'_, '_>, done: Done) -> Result<ActionWord, ReadError>
    ensures read { Gives word_of result (lexemes reader.new.rest.now)
        ((states.another_word usual (done_of done)).reads (lexemes reader.old.rest.now)) }
    ensures counts { reader.new.counts ≡ reader.old.counts }
{
    reader.token(Kind::Comma)?;
    next_word(reader, done)
}

/// The first action and those behind it, before their block.
fn words(
    reader: &mut Reader<'_, '_>,
    done: Done,
    first: ActionWord,
) -> Result<Vec<ActionWord>, ReadError>
    ensures read { Gives (λ v. map word_of v.items) result (lexemes reader.new.rest.now)
        ((parts.all_words (done_of done) (word_of first)).reads (lexemes reader.old.rest.now)) }
    ensures counts { reader.new.counts ≡ reader.old.counts }
{
    let mut now = done.after(&first);
    let mut found = Vec::new(reader.alloc);
    found.push(first)?;
    'items: while reader.is_at(Kind::Comma) {
        let item = another_word(reader, now)?;
        now = now.after(&item);
        found.push(item)?;
    }
    Ok(found)
}

/// An action behind the first of its words, in a state that has done actions so far.
///
/// A word that stands twice in a state is refused as one that isn't expected.
pub fn action_behind(
    reader: &mut Reader<'_, '_>,
    done: Done,
    first: ActionWord,
) -> Result<SourceAction, ReadError>
    ensures { Gives (λ a. record { value = action_of a; counts = counts_of reader.new.counts })
        result (lexemes reader.new.rest.now)
        ((states.action_rest usual (counts_of reader.old.counts) (done_of done) (word_of first)).reads
        (lexemes reader.old.rest.now)) }
{
    let words = words(reader, done, first)?;
    let block = block(reader)?;
    Ok(SourceAction {
        words: List::of(words),
        block,
    })
}
