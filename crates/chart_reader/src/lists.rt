//! The items of a state in their lists.
ghost use Rattle.std.specs.Prelude.{◌≡◌, ◌∷◌, map, reverse, IfOk, OnOk};
ghost use Rattle.chart_tree.specs.Trees as trees;
ghost use Rattle.chart_tree.specs.Views.{state_of, chart_of};
ghost use Rattle.chart_grammar.specs.States as states;
ghost use Rattle.chart_reader.specs.Items.{item_of, sorted_of, children_of, put_all};

use crate::content::Item;
use chart_tree::{
    ChartText, CompText, EventText, JunctionText, NameText, StateText, StmtText, TransText, VarText,
};
use flow_base::List;
use std::alloc::{AllocError, Global};
use token_grammar::Span;

/// The items of a state, each list with its last item first.
#[derive(Drop)]
pub(crate) struct Lists {
    pub name: NameText,
    pub comp: CompText,
    pub entry: List<StmtText>,
    pub during: List<StmtText>,
    pub exit: List<StmtText>,
    pub history: Option<Span>,
    pub outer: Vec<TransText>,
    pub inner: Vec<TransText>,
    pub default: Vec<TransText>,
    pub junctions: Vec<JunctionText>,
    pub states: Vec<StateText>,
    pub events: Vec<EventText>,
    pub vars: Vec<VarText>,
}

/// How a state is composed that has these children: without a word, `Or` where it has some.
fn comp_with(comp: CompText, children: &[StateText]) -> CompText
    ensures { result ≡ states.comp_with comp (children_of children.now) }
{
    match comp {
        CompText::None => match children {
            [] => CompText::None,
            [_, ..] => CompText::Or,
        },
        CompText::Or => CompText::Or,
        CompText::And => CompText::And,
    }
}

/// Adds an item to a list that has its last item first.
fn add<T: Drop>(list: &mut Vec<T>, item: T) -> Result<(), AllocError>
    ensures { OnOk result (reverse list.new.items ≡ item ∷ reverse list.old.items) }
{
    list.push(item)?;
    Ok(())
}

impl Lists {
    /// The lists of a state without items.
    fn empty(alloc: Global, name: NameText, comp: CompText) -> Lists
        ensures { sorted_of result ≡ states.no_items name comp }
    {
        Lists {
            name,
            comp,
            entry: List::of(Vec::new(alloc)),
            during: List::of(Vec::new(alloc)),
            exit: List::of(Vec::new(alloc)),
            history: None,
            outer: Vec::new(alloc),
            inner: Vec::new(alloc),
            default: Vec::new(alloc),
            junctions: Vec::new(alloc),
            states: Vec::new(alloc),
            events: Vec::new(alloc),
            vars: Vec::new(alloc),
        }
    }

    /// Puts an item before those that follow it in the text.
    fn put(&mut self, item: Item) -> Result<(), AllocError>
        ensures { OnOk result
            (sorted_of self.new ≡ states.put (item_of item) (sorted_of self.old)) }
    {
        match item {
            Item::Entry(block) => {
                self.entry = block;
                Ok(())
            }
            Item::During(block) => {
                self.during = block;
                Ok(())
            }
            Item::Exit(block) => {
                self.exit = block;
                Ok(())
            }
            Item::History(at) => {
                self.history = Some(at);
                Ok(())
            }
            Item::Outer(trans) => add(&mut self.outer, trans),
            Item::Inner(trans) => add(&mut self.inner, trans),
            Item::Default(trans) => add(&mut self.default, trans),
            Item::Junction(junction) => add(&mut self.junctions, junction),
            Item::State(state) => add(&mut self.states, state),
            Item::Event(event) => add(&mut self.events, event),
            Item::Var(var) => add(&mut self.vars, var),
        }
    }

    /// Puts the items before those that follow them in the text.
    fn put_all(&mut self, items: Vec<Item>) -> Result<(), AllocError>
        ensures { OnOk result
            (sorted_of self.new ≡ put_all (map item_of items.items) (sorted_of self.old)) }
    {
        let mut items = items;
        'items: while let Some(item) = items.pop() {
            self.put(item)?;
        }
        Ok(())
    }

    /// The items in their lists.
    pub fn sorted(
        alloc: Global,
        name: NameText,
        comp: CompText,
        items: Vec<Item>,
    ) -> Result<Lists, AllocError>
        ensures { IfOk result (λ l. sorted_of l
            ≡ states.sorted name comp (map item_of items.items)) }
    {
        let mut lists = Lists::empty(alloc, name, comp);
        match lists.put_all(items) {
            Ok(()) => Ok(lists),
            Err(fault) => {
                drop(lists);
                Err(fault)
            }
        }
    }

    /// The chart of these items. The root of the chart is a state.
    pub fn into_chart(self) -> ChartText
        ensures chart { chart_of result ≡ states.chart_with (sorted_of self) }
        ensures root { state_of result.root ≡ states.state_with (sorted_of self) }
    {
        let mut lists = self;
        lists.outer.reverse();
        lists.inner.reverse();
        lists.default.reverse();
        lists.junctions.reverse();
        lists.states.reverse();
        lists.events.reverse();
        lists.vars.reverse();
        let root = StateText {
            name: lists.name,
            comp: comp_with(lists.comp, &lists.states),
            entry: lists.entry,
            during: lists.during,
            exit: lists.exit,
            history: lists.history,
            outer: List::of(lists.outer),
            inner: List::of(lists.inner),
            default: List::of(lists.default),
            junctions: List::of(lists.junctions),
            states: List::of(lists.states),
        };
        ChartText {
            events: List::of(lists.events),
            vars: List::of(lists.vars),
            root,
        }
    }
}
