//! Reserved words.
ghost use Rattle.std.specs.Prelude.{◌≡◌, ◌≤◌, length};
ghost use Rattle.chart_lexer.specs.Words as core;
ghost use Rattle.statechart_lexer.specs.Words as spec;

use crate::bytes::is_name_byte;
use chart_lexer::is_spelled;
use token_grammar::Kind;

/// A reserved word that a chart text doesn't have.
#[derive(Clone, Copy, Debug, PartialEq, Eq)]
pub enum Word {
    /// `statechart`
    Statechart,
    /// `constant`
    Constant,
    /// `enum`
    Enum,
    /// `function`
    Function,
    /// `clock`
    Clock,
    /// `on`
    On,
    /// `after`
    After,
    /// `before`
    Before,
    /// `at`
    At,
    /// `every`
    Every,
    /// `temporalCount`
    TemporalCount,
}

/// How many name bytes stand at the front of the text.
pub fn name_length(text: &[u8]) -> usize
    ensures value { result ≡ core.name_length text.now }
    ensures within { result ≤ length text.now }
{
    text.iter().take_while(|byte| is_name_byte(**byte)).count()
}

/// One of the words of declarations and actions.
#[tactic(auto, unfolding(crate::specs::Words::declaring_word))]
fn declaring_word(word: &[u8]) -> Option<Word>
    ensures { result ≡ spec.declaring_word word.now }
{
    if is_spelled(word, b"statechart") {
        Some(Word::Statechart)
    } else if is_spelled(word, b"constant") {
        Some(Word::Constant)
    } else if is_spelled(word, b"enum") {
        Some(Word::Enum)
    } else if is_spelled(word, b"function") {
        Some(Word::Function)
    } else if is_spelled(word, b"clock") {
        Some(Word::Clock)
    } else if is_spelled(word, b"on") {
        Some(Word::On)
    } else {
        None
    }
}

/// One of the temporal words.
#[tactic(auto, unfolding(crate::specs::Words::temporal_word))]
fn temporal_word(word: &[u8]) -> Option<Word>
    ensures { result ≡ spec.temporal_word word.now }
{
    if is_spelled(word, b"after") {
        Some(Word::After)
    } else if is_spelled(word, b"before") {
        Some(Word::Before)
    } else if is_spelled(word, b"at") {
        Some(Word::At)
    } else if is_spelled(word, b"every") {
        Some(Word::Every)
    } else if is_spelled(word, b"temporalCount") {
        Some(Word::TemporalCount)
    } else {
        None
    }
}

/// The further word that is spelled so, if there is one.
pub fn word_of(word: &[u8]) -> Option<Word>
    ensures { result ≡ spec.word_of word.now }
{
    match declaring_word(word) {
        Some(found) => Some(found),
        None => temporal_word(word),
    }
}

/// The kind of a word: that of a chart text, where it is none of the further words.
pub fn word_kind(word: &[u8]) -> Kind
    ensures { result ≡ spec.word_kind word.now }
{
    match word_of(word) {
        Some(_) => Kind::Tick,
        None => chart_word_kind(word),
    }
}

/// The kind of a word of a chart text, which is `Name` where it isn't reserved.
#[tactic(auto, unfolding(chart_lexer::specs::Words::word_kind))]
fn chart_word_kind(word: &[u8]) -> Kind
    ensures { result ≡ core.word_kind word.now }
{
    if is_spelled(word, b"chart") {
        Kind::Chart
    } else if is_spelled(word, b"or") {
        Kind::Or
    } else if is_spelled(word, b"and") {
        Kind::And
    } else if is_spelled(word, b"state") {
        Kind::State
    } else if is_spelled(word, b"entry") {
        Kind::Entry
    } else if is_spelled(word, b"during") {
        Kind::During
    } else if is_spelled(word, b"exit") {
        Kind::Exit
    } else {
        declaration_kind(word)
    }
}

/// The kind of a word that is none of charts and states.
#[tactic(auto, unfolding(chart_lexer::specs::Words::declaration_kind))]
fn declaration_kind(word: &[u8]) -> Kind
    ensures { result ≡ core.declaration_kind word.now }
{
    if is_spelled(word, b"outer") {
        Kind::Outer
    } else if is_spelled(word, b"inner") {
        Kind::Inner
    } else if is_spelled(word, b"default") {
        Kind::Default
    } else if is_spelled(word, b"junction") {
        Kind::Junction
    } else if is_spelled(word, b"event") {
        Kind::Event
    } else if is_spelled(word, b"input") {
        Kind::Input
    } else if is_spelled(word, b"output") {
        Kind::Output
    } else {
        statement_kind(word)
    }
}

/// The kind of a word that is none of transitions, junctions and declarations either.
#[tactic(auto, unfolding(chart_lexer::specs::Words::statement_kind))]
fn statement_kind(word: &[u8]) -> Kind
    ensures { result ≡ core.statement_kind word.now }
{
    if is_spelled(word, b"local") {
        Kind::Local
    } else if is_spelled(word, b"send") {
        Kind::Send
    } else if is_spelled(word, b"to") {
        Kind::To
    } else if is_spelled(word, b"emit") {
        Kind::Emit
    } else if is_spelled(word, b"in") {
        Kind::In
    } else if is_spelled(word, b"true") {
        Kind::True
    } else if is_spelled(word, b"false") {
        Kind::False
    } else {
        mode_kind(word)
    }
}

/// The kind of a word of the last reserved words, or else `Name`.
#[tactic(auto, unfolding(chart_lexer::specs::Words::mode_kind))]
fn mode_kind(word: &[u8]) -> Kind
    ensures { result ≡ core.mode_kind word.now }
{
    if is_spelled(word, b"tick") {
        Kind::Tick
    } else if is_spelled(word, b"saturate") {
        Kind::Saturate
    } else if is_spelled(word, b"wrap") {
        Kind::Wrap
    } else if is_spelled(word, b"error") {
        Kind::Error
    } else if is_spelled(word, b"history") {
        Kind::History
    } else {
        Kind::Name
    }
}
