//! Which actions a state has so far.
ghost use Rattle.std.specs.Prelude.{◌≡◌, map};
ghost use Rattle.statechart_tree.specs.Views.{word_of};
ghost use Rattle.statechart_grammar.specs.States as states;
ghost use Rattle.statechart_statements.specs.Words.{done_of};

use statechart_tree::ActionWord;
use token_grammar::Kind;

/// Which of the actions `entry`, `during` and `exit` a state has so far.
#[derive(Clone, Copy)]
pub struct Done {
    /// `entry`
    pub entry: bool,
    /// `during`
    pub during: bool,
    /// `exit`
    pub exit: bool,
}

impl Done {
    /// None of them. An exit action of the statechart itself counts as done, so that there is none.
    pub fn nothing(exit: bool) -> Done
        ensures { done_of result ≡ states.nothing_done exit }
    {
        Done {
            entry: false,
            during: false,
            exit,
        }
    }

    /// Those, and that of the word.
    pub fn after(self, word: &ActionWord) -> Done
        ensures { done_of result ≡ states.after_word (done_of self) (word_of word.now) }
    {
        match word {
            ActionWord::Entry => Done {
                entry: true,
                ..self
            },
            ActionWord::During => Done {
                during: true,
                ..self
            },
            ActionWord::Exit => Done { exit: true, ..self },
            ActionWord::On(_, _) => self,
        }
    }

    /// Those, and those of the words.
    pub fn after_all(self, words: &[ActionWord]) -> Done
        ensures { done_of result ≡ states.after_words (done_of self) (map word_of words.now) }
    {
        let mut done = self;
        for word in words {
            done = done.after(word);
        }
        done
    }

    /// Whether an action may begin so.
    pub fn lets(self, kind: Kind) -> bool
        ensures { result ≡ states.action_heads (done_of self) kind }
    {
        if kind == Kind::Entry {
            return !self.entry;
        }
        if kind == Kind::During {
            return !self.during;
        }
        if kind == Kind::Exit {
            return !self.exit;
        }
        kind == Kind::Tick
    }
}
