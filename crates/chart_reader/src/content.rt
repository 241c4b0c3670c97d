//! What may stand in a state or the chart.
ghost use Rattle.std.specs.Prelude.{◌≡◌};
ghost use Rattle.flow_base.specs.Lists.{items_of};
ghost use Rattle.chart_tree.specs.Views.{block_of, trans_of};
ghost use Rattle.chart_grammar.specs.Limits as limits;
ghost use Rattle.chart_grammar.specs.States as states;
ghost use Rattle.chart_reader.specs.Heads.{in_state_heads, in_chart_heads};
ghost use Rattle.chart_reader.specs.Items.{item_of, seen_of};
ghost use Rattle.chart_reader.specs.Parts.{action_named, trans_named};

use crate::group::Group;
use chart_tree::{EventText, JunctionText, StateText, StmtText, TransText, VarText};
use flow_base::List;
use token_grammar::{Kind, Span};

/// What may stand in a state or the chart.
#[derive(Drop)]
pub(crate) enum Item {
    /// `entry` and its block.
    Entry(List<StmtText>),
    /// `during` and its block.
    During(List<StmtText>),
    /// `exit` and its block.
    Exit(List<StmtText>),
    /// The word `history`, by its place.
    History(Span),
    /// An outer transition.
    Outer(TransText),
    /// An inner transition.
    Inner(TransText),
    /// A default transition.
    Default(TransText),
    /// A junction.
    Junction(JunctionText),
    /// A child state.
    State(StateText),
    /// The declaration of an event.
    Event(EventText),
    /// The declaration of a datum.
    Var(VarText),
}

impl Item {
    /// The action that its keyword names.
    pub fn action(keyword: Kind, block: List<StmtText>) -> Item
        ensures { item_of result ≡ action_named keyword (block_of (items_of block)) }
    {
        match keyword {
            Kind::Entry => Item::Entry(block),
            Kind::During => Item::During(block),
            _ => Item::Exit(block),
        }
    }

    /// The transition that its keyword names.
    pub fn trans(keyword: Kind, trans: TransText) -> Item
        ensures { item_of result ≡ trans_named keyword (trans_of trans) }
    {
        match keyword {
            Kind::Outer => Item::Outer(trans),
            Kind::Inner => Item::Inner(trans),
            _ => Item::Default(trans),
        }
    }
}

/// Which of the three actions there are so far, and whether there is the word `history`.
#[derive(Clone, Copy)]
pub(crate) struct Seen {
    pub entry: bool,
    pub during: bool,
    pub exit: bool,
    pub history: bool,
}

impl Seen {
    /// None of them.
    pub fn nothing() -> Seen
        ensures { (n : limits.Counts) → seen_of result n ≡ states.nothing_seen n }
    {
        Seen {
            entry: false,
            during: false,
            exit: false,
            history: false,
        }
    }

    /// Those, and the item, where it is an action or `history`.
    pub fn after(self, item: &Item) -> Seen
        ensures { (n m : limits.Counts) → seen_of result m
            ≡ states.after_item (seen_of self n) (record { value = item_of item.now; counts = m }) }
    {
        match item {
            Item::Entry(_) => Seen {
                entry: true,
                ..self
            },
            Item::During(_) => Seen {
                during: true,
                ..self
            },
            Item::Exit(_) => Seen { exit: true, ..self },
            Item::History(_) => Seen {
                history: true,
                ..self
            },
            _ => self,
        }
    }

    /// Whether an item of a state may begin so.
    pub fn lets_in_state(self, kind: Kind) -> bool
        ensures { (n : limits.Counts) → result ≡ states.item_heads (seen_of self n) kind }
    {
        if kind == Kind::Entry {
            return !self.entry;
        }
        if kind == Kind::During {
            return !self.during;
        }
        if kind == Kind::Exit {
            return !self.exit;
        }
        if kind == Kind::History {
            return !self.history;
        }
        begins_in_state(kind)
    }

    /// Whether an item of the chart may begin so.
    pub fn lets_in_chart(self, kind: Kind) -> bool
        ensures { (n : limits.Counts) → result ≡ states.chart_heads (seen_of self n) kind }
    {
        if kind == Kind::Entry {
            return !self.entry;
        }
        if kind == Kind::During {
            return !self.during;
        }
        if kind == Kind::History {
            return !self.history;
        }
        begins_in_chart(kind)
    }
}

/// Whether an item of a state that is no action and not `history` begins so.
fn begins_in_state(kind: Kind) -> bool
    ensures { result ≡ in_state_heads kind }
{
    kind == Kind::Outer
        || kind == Kind::Inner
        || kind == Kind::Default
        || kind == Kind::Junction
        || kind == Kind::State
}

/// Whether a declaration begins so, or an item of the chart that is no action and not `history`.
fn begins_in_chart(kind: Kind) -> bool
    ensures { result ≡ in_chart_heads kind }
{
    kind == Kind::Inner
        || kind == Kind::Default
        || kind == Kind::Junction
        || kind == Kind::State
        || kind == Kind::Event
        || Group::Kinds.has(kind)
}
