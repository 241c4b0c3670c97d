//! States and charts.
ghost use Rattle.std.specs.Prelude.{◌≡◌, map};
ghost use Rattle.token_grammar.specs.declared.token.Kind.TheVariants as kinds;
ghost use Rattle.token_grammar.specs.Token.{lexemes, Gives};
ghost use Rattle.chart_tree.specs.Views.{state_of, chart_of};
ghost use Rattle.chart_grammar.specs.Limits as limits;
ghost use Rattle.chart_grammar.specs.Limits.{usual};
ghost use Rattle.chart_grammar.specs.States as states;
ghost use Rattle.chart_reader.specs.Counts.{counts_of};
ghost use Rattle.chart_reader.specs.Items.{item_of};
ghost use Rattle.chart_reader.specs.Parts as parts;

use crate::content::Item;
use crate::counts::Counts;
use crate::group::Group;
use crate::lists::Lists;
use crate::reader::Reader;
use chart_tree::{ChartText, CompText, NameText, StateText};
use token_grammar::{Kind, ReadError, TokenFault};

/// What stands before the items of a state or the chart.
#[derive(Drop)]
pub(crate) struct Head {
    pub name: NameText,
    pub comp: CompText,
}

impl<'t, 'a> Reader<'t, 'a> {
    /// `or` or `and`.
    #[tactic(auto, unfolding(chart_grammar::specs::States::comp))]
    fn comp(&mut self) -> Result<CompText, ReadError>
        ensures read { Gives (λ c. c) result (lexemes self.new.rest.now)
            (states.comp.reads (lexemes self.old.rest.now)) }
        ensures counts { self.new.counts ≡ self.old.counts }
    {
        if self.is_at(Kind::Or) {
            self.closed_by(Kind::Or, CompText::Or)
        } else {
            self.closed_by(Kind::And, CompText::And)
        }
    }

    /// How a state is composed, where a word says so.
    #[tactic(auto, unfolding(chart_grammar::specs::States::maybe_comp))]
    fn maybe_comp(&mut self) -> Result<CompText, ReadError>
        ensures read { Gives (λ c. c) result (lexemes self.new.rest.now)
            (states.maybe_comp.reads (lexemes self.old.rest.now)) }
        ensures counts { self.new.counts ≡ self.old.counts }
    {
        if self.is_at_one_of(Group::Compositions) {
            self.comp()
        } else {
            Ok(CompText::None)
        }
    }

    /// What stands before the items of a state or the chart, and the brace that opens them.
    #[tactic(auto, unfolding(crate::specs::Parts::head))]
    fn head(&mut self) -> Result<Head, ReadError>
        ensures read { Gives (λ h. (h.name, h.comp)) result (lexemes self.new.rest.now)
            (parts.head.reads (lexemes self.old.rest.now)) }
        ensures counts { self.new.counts ≡ self.old.counts }
    {
        let name = self.name()?;
        let comp = self.maybe_comp()?;
        self.closed_by(Kind::OpenBrace, Head { name, comp })
    }

    /// The chart of its items, after the brace that closes them. The root of the chart is a state.
    fn body(&mut self, head: Head, items: Vec<Item>) -> Result<ChartText, ReadError>
        ensures chart { Gives chart_of result (lexemes self.new.rest.now)
            ((parts.closed_by kinds.CloseBrace (states.chart_with
            (states.sorted head.name head.comp (map item_of items.items)))).reads
            (lexemes self.old.rest.now)) }
        ensures root { (n : limits.Counts)
            → Gives (λ c. record { value = state_of c.root; counts = n }) result
            (lexemes self.new.rest.now)
            ((parts.closed_by kinds.CloseBrace (parts.counted n (states.state_with
            (states.sorted head.name head.comp (map item_of items.items))))).reads
            (lexemes self.old.rest.now)) }
        ensures counts { self.new.counts ≡ self.old.counts }
    {
        self.token(Kind::CloseBrace)?;
        let lists = Lists::sorted(self.alloc, head.name, head.comp, items)?;
        Ok(lists.into_chart())
    }

    /// No state: what would begin one is nested too deep.
    fn no_state(&mut self) -> Result<StateText, ReadError>
        ensures { Gives (λ s. record { value = state_of s; counts = counts_of self.new.counts })
            result (lexemes self.new.rest.now)
            ((states.no_state (counts_of self.old.counts)).reads (lexemes self.old.rest.now)) }
    {
        if self.is_at(Kind::State) {
            Err(ReadError::Fault(TokenFault::NestTooDeep))
        } else {
            Err(ReadError::Fault(TokenFault::Expected))
        }
    }

    /// A state, where it and the states nested in it take at most `depth` levels.
    #[cycle(state)]
    pub fn state(&mut self, depth: u32) -> Result<StateText, ReadError>
        ensures { Gives (λ s. record { value = state_of s; counts = counts_of self.new.counts })
            result (lexemes self.new.rest.now)
            ((states.state usual depth (counts_of self.old.counts)).reads
            (lexemes self.old.rest.now)) }
    {
        if depth == 0 {
            return self.no_state();
        }
        self.state_over(depth - 1)
    }

    /// A state with states nested at most `depth` deep in it, where there is room for one more.
    #[cycle(state)]
    #[tactic(auto, unfolding(chart_grammar::specs::States::state_over))]
    fn state_over(&mut self, depth: u32) -> Result<StateText, ReadError>
        ensures { Gives (λ s. record { value = state_of s; counts = counts_of self.new.counts })
            result (lexemes self.new.rest.now)
            ((states.state_over usual (states.state usual depth)
            (counts_of self.old.counts)).reads (lexemes self.old.rest.now)) }
    {
        self.allowed_token(Kind::State, self.counts.state_refused())?;
        self.counts = self.counts.after_state();
        self.state_body(depth)
    }

    /// What stands after the word `state`.
    #[cycle(state)]
    #[tactic(auto, unfolding(chart_grammar::specs::States::state_body))]
    fn state_body(&mut self, depth: u32) -> Result<StateText, ReadError>
        ensures { Gives (λ s. record { value = state_of s; counts = counts_of self.new.counts })
            result (lexemes self.new.rest.now)
            ((states.state_body usual (states.state usual depth)
            (counts_of self.old.counts)).reads (lexemes self.old.rest.now)) }
    {
        let head = self.head()?;
        let items = self.items(depth)?;
        let chart = self.body(head, items)?;
        Ok(chart.root)
    }

    /// A chart.
    #[tactic(auto, unfolding(chart_grammar::specs::States::chart))]
    pub fn chart(&mut self) -> Result<ChartText, ReadError>
        ensures { Gives chart_of result (lexemes self.new.rest.now)
            ((states.chart usual).reads (lexemes self.old.rest.now)) }
    {
        self.counts = Counts::at_begin();
        self.token(Kind::Chart)?;
        let head = self.head()?;
        let items = self.chart_items()?;
        self.body(head, items)
    }
}
