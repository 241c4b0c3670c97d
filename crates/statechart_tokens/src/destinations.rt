//! Reads destinations, and how a state is composed.
ghost use Rattle.std.specs.Prelude.{◌≡◌};
ghost use Rattle.std.specs.Option.{option_map};
ghost use Rattle.token_grammar.specs.Token.{lexemes, Gives};
ghost use Rattle.chart_tree.specs.Views.{path_of, dest_of};
ghost use Rattle.chart_grammar.specs.Transitions as grammar;
ghost use Rattle.chart_grammar.specs.States as states;

use crate::group::Group;
use crate::reader::Reader;
use chart_tree::{CompText, DestText, PathText};
use token_grammar::{Kind, ReadError};

impl<'t, 'a> Reader<'t, 'a> {
    #[tactic(auto, unfolding(chart_grammar::specs::Transitions::to_junction))]
    fn to_junction(&mut self) -> Result<DestText, ReadError>
        ensures read { Gives dest_of result (lexemes self.new.rest.now)
            (grammar.to_junction.reads (lexemes self.old.rest.now)) }
        ensures counts { self.new.counts ≡ self.old.counts }
    {
        self.token(Kind::At)?;
        Ok(DestText::Junction(self.name()?))
    }

    #[tactic(auto, unfolding(chart_grammar::specs::Transitions::to_state))]
    fn to_state(&mut self) -> Result<DestText, ReadError>
        ensures read { Gives dest_of result (lexemes self.new.rest.now)
            (grammar.to_state.reads (lexemes self.old.rest.now)) }
        ensures counts { self.new.counts ≡ self.old.counts }
    {
        Ok(DestText::State(self.path()?))
    }

    /// The destination of a transition.
    #[tactic(auto, unfolding(chart_grammar::specs::Transitions::dest))]
    pub fn dest(&mut self) -> Result<DestText, ReadError>
        ensures read { Gives dest_of result (lexemes self.new.rest.now)
            (grammar.dest.reads (lexemes self.old.rest.now)) }
        ensures counts { self.new.counts ≡ self.old.counts }
    {
        if self.is_at(Kind::At) {
            self.to_junction()
        } else {
            self.to_state()
        }
    }

    #[tactic(auto, unfolding(chart_grammar::specs::Transitions::target))]
    fn receiver(&mut self) -> Result<PathText, ReadError>
        ensures read { Gives path_of result (lexemes self.new.rest.now)
            (grammar.target.reads (lexemes self.old.rest.now)) }
        ensures counts { self.new.counts ≡ self.old.counts }
    {
        self.token(Kind::To)?;
        self.path()
    }

    /// The state to which an event is sent, where `to` is at hand.
    #[tactic(auto, unfolding(chart_grammar::specs::Transitions::maybe_target))]
    pub fn maybe_receiver(&mut self) -> Result<Option<PathText>, ReadError>
        ensures read { Gives (option_map path_of) result (lexemes self.new.rest.now)
            (grammar.maybe_target.reads (lexemes self.old.rest.now)) }
        ensures counts { self.new.counts ≡ self.old.counts }
    {
        if self.is_at(Kind::To) {
            Ok(Some(self.receiver()?))
        } else {
            Ok(None)
        }
    }

    #[tactic(auto, unfolding(chart_grammar::specs::States::comp))]
    fn comp(&mut self) -> Result<CompText, ReadError>
        ensures read { Gives (λ c. c) result (lexemes self.new.rest.now)
            (states.comp.reads (lexemes self.old.rest.now)) }
        ensures counts { self.new.counts ≡ self.old.counts }
    {
        if self.is_at(Kind::Or) {
            self.closed_by(Kind::Or, CompText::Or)
        } else {
            self.closed_by(Kind::And, CompText::And)
        }
    }

    /// How a state is composed, `None` where no word says so.
    #[tactic(auto, unfolding(chart_grammar::specs::States::maybe_comp))]
    pub fn maybe_comp(&mut self) -> Result<CompText, ReadError>
        ensures read { Gives (λ c. c) result (lexemes self.new.rest.now)
            (states.maybe_comp.reads (lexemes self.old.rest.now)) }
        ensures counts { self.new.counts ≡ self.old.counts }
    {
        if self.is_at_one_of(Group::Compositions) {
            self.comp()
        } else {
            Ok(CompText::None)
        }
    }
}
