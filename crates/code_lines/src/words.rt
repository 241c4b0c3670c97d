//! The first words of instructions and conditions.
ghost use Rattle.std.specs.Prelude.{◌≡◌};
ghost use Rattle.code_lines.specs.Fields as spec;

use chart_lexer::is_spelled;

/// The first word of an instruction that has more than one.
#[derive(Clone, Copy)]
pub enum Word {
    /// `set`
    Assign,
    /// `unless`
    Unless,
    /// The word of an instruction that has no expression.
    Plain(PlainWord),
}

/// The first word of an instruction that has no expression, and more than one word.
#[derive(Clone, Copy)]
pub enum PlainWord {
    /// `emit`
    Emit,
    /// `mark`
    Mark,
    /// `clear`
    Clear,
    /// `keep`
    Keep,
    /// `skip`
    Skip,
    /// `call`
    Call,
    /// `visit`
    Visit,
    /// `send`
    Send,
    /// `sendto`
    SendTo,
    /// `home`
    Home,
    /// `ret`
    Ret,
}

/// The first word of a condition that has more than one.
#[derive(Clone, Copy)]
pub enum CondWord {
    /// `on`
    On,
    /// `bare`
    Bare,
    /// `event`
    Current,
    /// `result`
    Result,
    /// `expr`
    Test,
    /// `last`
    Last,
}

/// The first word of an instruction.
#[tactic(auto, unfolding(crate::specs::Fields::word_of))]
pub fn word_of(word: &[u8]) -> Option<Word>
    ensures { result ≡ spec.word_of word.now }
{
    if is_spelled(word, b"set") {
        Some(Word::Assign)
    } else if is_spelled(word, b"unless") {
        Some(Word::Unless)
    } else if is_spelled(word, b"emit") {
        Some(Word::Plain(PlainWord::Emit))
    } else if is_spelled(word, b"mark") {
        Some(Word::Plain(PlainWord::Mark))
    } else if is_spelled(word, b"clear") {
        Some(Word::Plain(PlainWord::Clear))
    } else if is_spelled(word, b"keep") {
        Some(Word::Plain(PlainWord::Keep))
    } else if is_spelled(word, b"skip") {
        Some(Word::Plain(PlainWord::Skip))
    } else if is_spelled(word, b"call") {
        Some(Word::Plain(PlainWord::Call))
    } else if is_spelled(word, b"visit") {
        Some(Word::Plain(PlainWord::Visit))
    } else if is_spelled(word, b"send") {
        Some(Word::Plain(PlainWord::Send))
    } else if is_spelled(word, b"sendto") {
        Some(Word::Plain(PlainWord::SendTo))
    } else if is_spelled(word, b"home") {
        Some(Word::Plain(PlainWord::Home))
    } else if is_spelled(word, b"ret") {
        Some(Word::Plain(PlainWord::Ret))
    } else {
        None
    }
}

/// The first word of a condition.
#[tactic(auto, unfolding(crate::specs::Fields::cond_word_of))]
pub fn cond_word_of(word: &[u8]) -> Option<CondWord>
    ensures { result ≡ spec.cond_word_of word.now }
{
    if is_spelled(word, b"on") {
        Some(CondWord::On)
    } else if is_spelled(word, b"bare") {
        Some(CondWord::Bare)
    } else if is_spelled(word, b"event") {
        Some(CondWord::Current)
    } else if is_spelled(word, b"result") {
        Some(CondWord::Result)
    } else if is_spelled(word, b"expr") {
        Some(CondWord::Test)
    } else if is_spelled(word, b"last") {
        Some(CondWord::Last)
    } else {
        None
    }
}
