//! What a name means where it stands.
ghost use Rattle.std.specs.Prelude.{◌≡◌, ◌<◌, ◌∷◌};
ghost use Rattle.active_config.specs.Tree.{ancestors, state_count};
ghost use Rattle.chart_places.specs.Placed as placed;
ghost use Rattle.chart_places.specs.Tables.{declared_in};

use crate::entries;
use crate::junctions::OwnedJunction;
use crate::states::PlacedState;
use crate::table::DeclaredNames;
use active_config::Shape;
use chart_tree::{ChartText, NameText, PathText, Span};
use flow_base::Memory;
use std::alloc::Global;
use std::marker::Model;

/// What a name that is declared denotes.
#[derive(Clone, Copy, PartialEq, Eq)]
pub enum Meaning {
    /// The event of that number.
    Event(u32),
    /// The datum of that number.
    Datum(u32),
}

/// Whether a place is before another one.
pub fn is_earlier(a: Span, b: Span) -> bool
    ensures { result ≡ placed.is_earlier a b }
{
    a.line < b.line || (a.line == b.line && a.column < b.column)
}

/// The number of the first name with these bytes in a state, or in the lowest state above it that
/// has one.
fn nearest(shape: &Shape, names: &DeclaredNames<'_>, state: u32, text: &str) -> Option<u32>
    requires { state < state_count shape.now }
    ensures { result ≡ declared_in names.now text.now (state ∷ ancestors shape.now state) }
{
    // Only the proof reads the length: the parents of states are a tree.
    let _ = shape.len();
    let mut next = Some(state);
    while let Some(above) = next {
        match names.number(Some(above), text) {
            Some(found) => return Some(found),
            None => next = shape.parent(above),
        }
    }
    None
}

/// All that names are looked for in: the tree of states, and tables of the names of its states, of
/// the junctions, of the events and of the data.
#[derive(Drop)]
pub struct Scopes<'a> {
    shape: Shape,
    states: DeclaredNames<'a>,
    junctions: DeclaredNames<'a>,
    events: DeclaredNames<'a>,
    vars: DeclaredNames<'a>,
}

impl<'a> Model for Scopes<'a> {
    ghost use Rattle.chart_places.specs.Scopes as spec;
    ghost use Rattle.chart_places.specs.Tables.{scopes_seen, AreTables};

    ghost Value = { spec.Scopes };

    ghost view = { λ p. scopes_seen p.shape p.states p.junctions p.events p.vars };

    ghost invariant = { λ p. AreTables p.shape p.states p.junctions p.events p.vars };
}

impl<'a> Scopes<'a> {
    ghost use Rattle.std.specs.Prelude.{◌≡◌, ◌<◌, length, map, Some, IfSome, IfOk};
    ghost use Rattle.std.specs.Option.{option_map};
    ghost use Rattle.active_config.specs.Tree.{state_count, parent_of};
    ghost use Rattle.chart_tree.specs.Views.{path_of, chart_of};
    ghost use Rattle.chart_places.specs.Placed.{placed_states, placed_tree, placed_junctions};
    ghost use Rattle.chart_places.specs.Survey.{placed_of, owned_of};
    ghost use Rattle.chart_places.specs.Scopes as spec;
    ghost use Rattle.chart_places.specs.Meanings.{meaning_seen};

    /// The tables of a chart text with its tree, its states in pre-order and its junctions in the
    /// order of the text. On an error the tree is dropped.
    pub fn make(
        alloc: Global,
        shape: Shape,
        states: &[PlacedState<'a>],
        junctions: &[OwnedJunction<'a>],
        chart: &'a ChartText,
    ) -> Result<Scopes<'a>, Memory>
        requires shape { shape ≡ placed_tree (map placed_of states.now) }
        requires states { map placed_of states.now ≡ placed_states (chart_of chart.now).root }
        requires junctions { map owned_of junctions.now ≡ placed_junctions (map placed_of states.now) }
        ensures { IfOk result (λ p. p ≡ spec.scopes_of (chart_of chart.now)) }
    {
        match entries::of_tree(alloc, states, junctions) {
            Ok((states, junctions)) => match entries::of_declarations(alloc, chart) {
                Ok((events, vars)) => Ok(Scopes {
                    shape,
                    states,
                    junctions,
                    events,
                    vars,
                }),
                Err(refused) => {
                    drop(shape);
                    drop(states);
                    drop(junctions);
                    Err(refused)
                }
            },
            Err(refused) => {
                drop(shape);
                Err(refused)
            }
        }
    }

    /// The state above a state, none above the root.
    pub fn parent(&self, state: u32) -> Option<u32>
        requires { state < state_count self.now.tree }
        ensures parent { result ≡ parent_of self.now.tree state }
        ensures before { IfSome result (λ parent. parent < state) }
    {
        self.shape.parent(state)
    }

    /// The tree of the states. The tables are dropped.
    pub fn into_shape(self) -> Shape
        ensures { result ≡ self.entry.tree }
    {
        let Scopes {
            shape,
            states,
            junctions,
            events,
            vars,
        } = self;
        drop(states);
        drop(junctions);
        drop(events);
        drop(vars);
        shape
    }

    /// The child of a state that has the name.
    fn child(&self, state: u32, name: &NameText) -> Option<u32>
        ensures { result ≡ spec.child_named self.now state name.now.text }
    {
        self.states.number(Some(state), name.text.text())
    }

    /// The state below a state to which names of children lead, or the place of the first name that
    /// isn't found.
    fn follow(&self, state: u32, names: &[NameText]) -> Result<u32, Span>
        ensures { result ≡ spec.follow self.now state names.now }
    {
        let mut found = state;
        for name in names {
            match self.child(found, name) {
                None => return Err(name.at),
                Some(child) => found = child,
            }
        }
        Ok(found)
    }

    /// The state that a name denotes in a state.
    fn state_named(&self, state: u32, name: &NameText) -> Option<u32>
        requires { state < state_count self.now.tree }
        ensures { result ≡ spec.state_named self.now state name.now.text }
    {
        nearest(&self.shape, &self.states, state, name.text.text())
    }

    /// The state that a path denotes in a state, or the place of the first name that isn't found.
    pub fn state_at(&self, state: u32, path: &PathText) -> Result<u32, Span>
        requires { state < state_count self.now.tree }
        ensures { result ≡ spec.state_at self.now state (path_of path.now) }
    {
        match path.names.items() {
            [] => Ok(state),
            [first, rest @ ..] => match self.state_named(state, first) {
                None => Err(first.at),
                Some(found) => self.follow(found, rest),
            },
        }
    }

    /// The child of a state that has the name: the first one in the text.
    pub fn child_named(&self, state: u32, name: &NameText) -> Option<u32>
        requires { state < state_count self.now.tree }
        ensures { result ≡ spec.child_named self.now state name.now.text }
    {
        self.child(state, name)
    }

    /// The junction that a name denotes in a state.
    pub fn junction_at(&self, state: u32, name: &NameText) -> Option<u32>
        requires { state < state_count self.now.tree }
        ensures { result ≡ spec.junction_at self.now state name.now.text }
    {
        nearest(&self.shape, &self.junctions, state, name.text.text())
    }

    /// The junction of a state that has the name: the first one in the text.
    pub fn junction_named(&self, state: u32, name: &NameText) -> Option<u32>
        requires { state < state_count self.now.tree }
        ensures { result ≡ spec.junction_named self.now state name.now.text }
    {
        self.junctions.number(Some(state), name.text.text())
    }

    /// The first event that is declared with the name.
    fn event(&self, name: &NameText) -> Option<u32>
        ensures number { result ≡ spec.number_from 0 self.now.events name.now.text }
        ensures within { IfSome result (λ event. event < length self.now.events) }
    {
        self.events.number(None, name.text.text())
    }

    /// The first datum that is declared with the name.
    fn var(&self, name: &NameText) -> Option<u32>
        ensures number { result ≡ spec.number_from 0 self.now.vars name.now.text }
        ensures within { IfSome result (λ var. var < length self.now.vars) }
    {
        self.vars.number(None, name.text.text())
    }

    /// What a name denotes that is declared: the first event or datum in the text that has it.
    #[tactic(auto, unfolding(crate::specs::Scopes::meaning_of))]
    pub fn meaning(&self, name: &NameText) -> Option<Meaning>
        ensures { option_map meaning_seen result ≡ spec.meaning_of self.now name.now.text }
    {
        match self.event(name) {
            None => match self.var(name) {
                None => None,
                Some(var) => Some(Meaning::Datum(var)),
            },
            Some(event) => match self.var(name) {
                None => Some(Meaning::Event(event)),
                Some(var) => Some(self.earlier(event, var)),
            },
        }
    }

    /// Of an event and a datum the one whose name stands first in the text.
    fn earlier(&self, event: u32, var: u32) -> Meaning
        requires event { event < length self.now.events }
        requires var { var < length self.now.vars }
        ensures { Some (meaning_seen result) ≡ spec.earlier_declared self.now (Some event) (Some var) }
    {
        if is_earlier(self.vars.place(var), self.events.place(event)) {
            Meaning::Datum(var)
        } else {
            Meaning::Event(event)
        }
    }
}
