//! Actions by their words.
ghost use Rattle.std.specs.Prelude.{◌≡◌, map};
ghost use Rattle.std.specs.List.{list_any};
ghost use Rattle.statechart_tree.specs.Views.{word_of};
ghost use Rattle.statechart_counters.specs.Moments.{is_moment};

use statechart_tree::ActionWord;

/// When the block of an action is done that isn't one for cases.
#[derive(Clone, Copy)]
pub enum Moment {
    /// `entry`
    Entry,
    /// `during`
    During,
    /// `exit`
    Exit,
}

/// Whether it is the word of the moment.
fn is_moment(moment: Moment, word: &ActionWord) -> bool
    ensures { result ≡ is_moment moment (word_of word.now) }
{
    match word {
        ActionWord::Entry => matches!(moment, Moment::Entry),
        ActionWord::During => matches!(moment, Moment::During),
        ActionWord::Exit => matches!(moment, Moment::Exit),
        ActionWord::On(_, _) => false,
    }
}

/// Whether the word of the moment is among words.
pub fn has_moment(moment: Moment, words: &[ActionWord]) -> bool
    ensures { result ≡ list_any (is_moment moment) (map word_of words.now) }
{
    for word in words {
        if is_moment(moment, word) {
            return true;
        }
    }
    false
}
