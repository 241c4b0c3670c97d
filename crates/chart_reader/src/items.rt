//! Junctions, and what may stand in a state or the chart.
ghost use Rattle.std.specs.Prelude.{◌≡◌, map};
ghost use Rattle.token_grammar.specs.Token.{lexemes, Gives};
ghost use Rattle.token_grammar.specs.Grammar.{is, heads};
ghost use Rattle.chart_tree.specs.Views.{trans_of, junction_of};
ghost use Rattle.chart_grammar.specs.Limits.{usual};
ghost use Rattle.chart_grammar.specs.States as states;
ghost use Rattle.chart_reader.specs.Counts.{counts_of};
ghost use Rattle.chart_reader.specs.Items.{item_of, seen_of};
ghost use Rattle.chart_reader.specs.Parts.{action_named, trans_named, state_item};
ghost use Rattle.chart_reader.specs.Told.{told};

use crate::content::{Item, Seen};
use crate::group::Group;
use crate::reader::Reader;
use chart_tree::{JunctionText, TransText};
use flow_base::List;
use flow_base::chart_limits::STATE_DEPTH_LIMIT;
use token_grammar::{Kind, ReadError};

impl<'t, 'a> Reader<'t, 'a> {
    /// The transitions of a junction.
    fn junction_list(&mut self) -> Result<Vec<TransText>, ReadError>
        ensures { Gives
            (λ v. record { value = map trans_of v.items; counts = counts_of self.new.counts })
            result (lexemes self.new.rest.now)
            (told (counts_of self.old.counts)
            ((states.junction_list usual (counts_of self.old.counts)).reads
            (lexemes self.old.rest.now))) }
    {
        let mut found = Vec::new(self.alloc);
        'items: while self.is_at_one_of(Group::Transitions) {
            let item = self.junction_trans()?;
            found.push(item)?;
        }
        Ok(found)
    }

    /// A junction with its transitions, where there is room for one more.
    #[tactic(auto, unfolding(chart_grammar::specs::States::junction))]
    pub fn junction(&mut self) -> Result<JunctionText, ReadError>
        ensures { Gives (λ j. record { value = junction_of j; counts = counts_of self.new.counts })
            result (lexemes self.new.rest.now)
            ((states.junction usual (counts_of self.old.counts)).reads
            (lexemes self.old.rest.now)) }
    {
        self.allowed_token(Kind::Junction, self.counts.junction_refused())?;
        self.counts = self.counts.after_junction();
        let name = self.name()?;
        self.token(Kind::OpenBrace)?;
        let list = self.junction_list()?;
        let junction = JunctionText {
            name,
            list: List::of(list),
        };
        self.closed_by(Kind::CloseBrace, junction)
    }

    /// A junction as an item.
    #[tactic(auto, unfolding(chart_grammar::specs::States::junction_item))]
    fn junction_item(&mut self) -> Result<Item, ReadError>
        ensures { Gives (λ x. record { value = item_of x; counts = counts_of self.new.counts })
            result (lexemes self.new.rest.now)
            ((states.junction_item usual (counts_of self.old.counts)).reads
            (lexemes self.old.rest.now)) }
    {
        Ok(Item::Junction(self.junction()?))
    }

    /// An action, with its keyword.
    #[tactic(auto, unfolding(chart_grammar::specs::States::action_item))]
    fn action_item(&mut self, keyword: Kind) -> Result<Item, ReadError>
        ensures { Gives (λ x. record { value = item_of x; counts = counts_of self.new.counts })
            result (lexemes self.new.rest.now)
            ((states.action_item usual keyword (action_named keyword)
            (counts_of self.old.counts)).reads (lexemes self.old.rest.now)) }
    {
        self.token(keyword)?;
        let block = self.block()?;
        Ok(Item::action(keyword, block))
    }

    /// A transition of a state, with its keyword.
    #[tactic(auto, unfolding(chart_grammar::specs::States::trans_item))]
    fn trans_item(&mut self, keyword: Kind) -> Result<Item, ReadError>
        ensures { Gives (λ x. record { value = item_of x; counts = counts_of self.new.counts })
            result (lexemes self.new.rest.now)
            ((states.trans_item usual keyword (trans_named keyword)
            (counts_of self.old.counts)).reads (lexemes self.old.rest.now)) }
    {
        let trans = self.keyword_trans(keyword)?;
        Ok(Item::trans(keyword, trans))
    }

    /// The declaration of an event as an item.
    #[tactic(auto, unfolding(chart_grammar::specs::States::event_item))]
    fn event_item(&mut self) -> Result<Item, ReadError>
        ensures { Gives (λ x. record { value = item_of x; counts = counts_of self.new.counts })
            result (lexemes self.new.rest.now)
            ((states.event_item usual (counts_of self.old.counts)).reads
            (lexemes self.old.rest.now)) }
    {
        Ok(Item::Event(self.event()?))
    }

    /// The declaration of a datum as an item.
    #[tactic(auto, unfolding(chart_grammar::specs::States::variable_item))]
    fn variable_item(&mut self) -> Result<Item, ReadError>
        ensures { Gives (λ x. record { value = item_of x; counts = counts_of self.new.counts })
            result (lexemes self.new.rest.now)
            ((states.variable_item usual (counts_of self.old.counts)).reads
            (lexemes self.old.rest.now)) }
    {
        Ok(Item::Var(self.variable()?))
    }

    /// A state as an item, where it and the states nested in it take at most `depth` levels.
    #[cycle(state)]
    fn state_item(&mut self, depth: u32) -> Result<Item, ReadError>
        ensures { Gives (λ x. record { value = item_of x; counts = counts_of self.new.counts })
            result (lexemes self.new.rest.now)
            ((state_item (states.state usual depth (counts_of self.old.counts))).reads
            (lexemes self.old.rest.now)) }
    {
        Ok(Item::State(self.state(depth)?))
    }

    /// The word `history` and its semicolon.
    #[tactic(auto, unfolding(chart_grammar::specs::States::history_item))]
    fn history(&mut self) -> Result<Item, ReadError>
        ensures { Gives (λ x. record { value = item_of x; counts = counts_of self.new.counts })
            result (lexemes self.new.rest.now)
            ((states.history_item (counts_of self.old.counts)).reads
            (lexemes self.old.rest.now)) }
    {
        let at = self.token(Kind::History)?.at;
        self.closed_by(Kind::Semicolon, Item::History(at))
    }

    /// Whether an item of a state is at hand, after those that were seen.
    fn is_at_item(&self, seen: Seen) -> bool
        ensures { result ≡ heads (states.item_heads (seen_of seen (counts_of self.now.counts)))
            (lexemes self.now.rest.now) }
    {
        match self.rest {
            [token, ..] => seen.lets_in_state(token.kind),
            [] => false,
        }
    }

    /// Whether an item of the chart is at hand, after those that were seen.
    fn is_at_chart_item(&self, seen: Seen) -> bool
        ensures { result ≡ heads (states.chart_heads (seen_of seen (counts_of self.now.counts)))
            (lexemes self.now.rest.now) }
    {
        match self.rest {
            [token, ..] => seen.lets_in_chart(token.kind),
            [] => false,
        }
    }

    /// An item of a state, with states nested at most `depth` deep in it.
    #[cycle(state)]
    #[tactic(auto, unfolding(chart_grammar::specs::States::item))]
    fn item(&mut self, depth: u32) -> Result<Item, ReadError>
        ensures { Gives (λ x. record { value = item_of x; counts = counts_of self.new.counts })
            result (lexemes self.new.rest.now)
            ((states.item usual (states.state usual depth)
            (states.nothing_seen (counts_of self.old.counts))).reads
            (lexemes self.old.rest.now)) }
    {
        if self.is_at(Kind::Entry) {
            self.action_item(Kind::Entry)
        } else if self.is_at(Kind::During) {
            self.action_item(Kind::During)
        } else if self.is_at(Kind::Exit) {
            self.action_item(Kind::Exit)
        } else if self.is_at(Kind::History) {
            self.history()
        } else if self.is_at(Kind::Outer) {
            self.trans_item(Kind::Outer)
        } else if self.is_at(Kind::Inner) {
            self.trans_item(Kind::Inner)
        } else if self.is_at(Kind::Default) {
            self.trans_item(Kind::Default)
        } else if self.is_at(Kind::Junction) {
            self.junction_item()
        } else {
            self.state_item(depth)
        }
    }

    /// The items of a state.
    #[cycle(state)]
    pub fn items(&mut self, depth: u32) -> Result<Vec<Item>, ReadError>
        ensures { Gives
            (λ v. record { value = map item_of v.items; counts = counts_of self.new.counts })
            result (lexemes self.new.rest.now)
            (told (counts_of self.old.counts)
            ((states.items usual (states.state usual depth)
            (states.nothing_seen (counts_of self.old.counts))).reads
            (lexemes self.old.rest.now))) }
    {
        let mut found = Vec::new(self.alloc);
        let mut seen = Seen::nothing();
        'items: while self.is_at_item(seen) {
            let item = self.item(depth)?;
            seen = seen.after(&item);
            found.push(item)?;
        }
        Ok(found)
    }

    /// An item of the chart.
    #[tactic(auto, unfolding(chart_grammar::specs::States::chart_item))]
    fn chart_item(&mut self) -> Result<Item, ReadError>
        ensures { Gives (λ x. record { value = item_of x; counts = counts_of self.new.counts })
            result (lexemes self.new.rest.now)
            ((states.chart_item usual (states.state usual STATE_DEPTH_LIMIT)
            (states.nothing_seen (counts_of self.old.counts))).reads
            (lexemes self.old.rest.now)) }
    {
        if self.is_at(Kind::Entry) {
            self.action_item(Kind::Entry)
        } else if self.is_at(Kind::During) {
            self.action_item(Kind::During)
        } else if self.is_at(Kind::History) {
            self.history()
        } else if self.is_at(Kind::Inner) {
            self.trans_item(Kind::Inner)
        } else if self.is_at(Kind::Default) {
            self.trans_item(Kind::Default)
        } else if self.is_at(Kind::Junction) {
            self.junction_item()
        } else if self.is_at(Kind::Event) {
            self.event_item()
        } else if self.is_at_one_of(Group::Kinds) {
            self.variable_item()
        } else {
            self.state_item(STATE_DEPTH_LIMIT)
        }
    }

    /// The declarations and items of the chart.
    pub fn chart_items(&mut self) -> Result<Vec<Item>, ReadError>
        ensures { Gives
            (λ v. record { value = map item_of v.items; counts = counts_of self.new.counts })
            result (lexemes self.new.rest.now)
            (told (counts_of self.old.counts)
            ((states.chart_items usual (states.state usual STATE_DEPTH_LIMIT)
            (states.nothing_seen (counts_of self.old.counts))).reads
            (lexemes self.old.rest.now))) }
    {
        let mut found = Vec::new(self.alloc);
        let mut seen = Seen::nothing();
        'items: while self.is_at_chart_item(seen) {
            let item = self.chart_item()?;
            seen = seen.after(&item);
            found.push(item)?;
        }
        Ok(found)
    }
}
