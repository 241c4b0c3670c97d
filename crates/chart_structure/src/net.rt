//! The net of a chart: its tree of states, and where its transitions lead.
use active_config::{Comp, Shape};
use checked_chart::{Dest, ListKind};
use std::marker::Model;
use token_grammar::Span;

/// A transition: whether it has an event or a guard, and where it leads.
#[derive(Clone, Copy, PartialEq, Eq)]
pub struct Arrow {
    /// The place of the transition.
    pub at: Span,
    /// Whether it has an event or a guard.
    pub open: bool,
    /// Where it leads.
    pub to: Dest,
    /// The place of its destination.
    pub to_at: Span,
}

/// A state: what is written of it, and its three lists of transitions.
#[derive(Drop)]
pub struct Node {
    /// The place of its name.
    pub name: Span,
    /// Its composition word, `Leaf` where it has neither a word nor children.
    pub word: Comp,
    /// The place of the word `history`, if it stands there.
    pub history: Option<Span>,
    /// Its outer transitions.
    pub outer: Vec<Arrow>,
    /// Its inner transitions.
    pub inner: Vec<Arrow>,
    /// Its default transitions.
    pub default: Vec<Arrow>,
}

/// A junction and its list of transitions.
#[derive(Drop)]
pub struct JunctionNode {
    /// The place of its name.
    pub name: Span,
    /// Its transitions.
    pub list: Vec<Arrow>,
}

/// The tree of states, which stays where it is, a node for each state in pre-order, and the
/// junctions. Contracts see it as `specs/Net.antt` says. No look-up takes memory.
#[derive(Drop)]
pub struct Net<'a> {
    shape: &'a Shape,
    nodes: Vec<Node>,
    junctions: Vec<JunctionNode>,
}

impl<'a> Model for Net<'a> {
    ghost use Rattle.std.specs.Prelude.{map};
    ghost use Rattle.chart_structure.specs.Net as spec;
    ghost use Rattle.chart_structure.specs.Views.{net_of};

    ghost Value = { spec.Net };

    ghost view = { λ n. net_of n.shape.now n.nodes.items n.junctions.items };

    ghost invariant = { λ n. spec.IsNet (net_of n.shape.now n.nodes.items n.junctions.items) };
}

impl<'a> Net<'a> {
    ghost use Rattle.std.specs.Prelude.{◌≡◌, ◌<◌, length, map};
    ghost use Rattle.active_config.specs.Tree.{state_count, IsTree};
    ghost use Rattle.chart_structure.specs.declared.net.Arrow.{Arrow};
    ghost use Rattle.chart_structure.specs.Net as spec;
    ghost use Rattle.chart_structure.specs.Views.{net_of};

    /// The net of a tree, a node for each state and the junctions. It takes no memory.
    pub fn make(shape: &'a Shape, nodes: Vec<Node>, junctions: Vec<JunctionNode>) -> Net<'a>
        requires { spec.IsNet (net_of shape.now nodes.items junctions.items) }
        ensures { result ≡ net_of shape.now nodes.items junctions.items }
    {
        Net {
            shape,
            nodes,
            junctions,
        }
    }

    /// The tree of states.
    pub fn shape(&self) -> &Shape
        ensures tree { result.now ≡ self.now.tree }
        ensures valid { IsTree result.now }
        ensures net { spec.IsNet self.now }
    {
        self.shape
    }

    /// The composition word of a state.
    pub fn word(&self, state: u32) -> Comp
        requires { state < state_count self.now.tree }
        ensures { result ≡ spec.word_of self.now state }
    {
        self.nodes[state as usize].word
    }

    /// The place of a state's name.
    pub fn name(&self, state: u32) -> Span
        requires { state < state_count self.now.tree }
        ensures { result ≡ spec.name_of self.now state }
    {
        self.nodes[state as usize].name
    }

    /// The place of a state's word `history`, if it has one.
    pub fn history(&self, state: u32) -> Option<Span>
        requires { state < state_count self.now.tree }
        ensures { result ≡ spec.history_of self.now state }
    {
        self.nodes[state as usize].history
    }

    /// A list of a state.
    pub fn list(&self, state: u32, kind: ListKind) -> &[Arrow]
        requires { state < state_count self.now.tree }
        ensures list { result.now ≡ spec.list_of self.now state kind }
        ensures dests { (a : Arrow) → spec.Has result.now a → spec.IsDest self.now a.to }
    {
        let node = &self.nodes[state as usize];
        match kind {
            ListKind::Outer => &node.outer,
            ListKind::Inner => &node.inner,
            ListKind::Default => &node.default,
        }
    }

    /// How many junctions there are.
    pub fn junction_count(&self) -> usize
        ensures { result ≡ spec.junction_count self.now }
    {
        self.junctions.len()
    }

    /// The list of a junction.
    pub fn junction(&self, junction: u32) -> &[Arrow]
        requires { junction < spec.junction_count self.now }
        ensures list { result.now ≡ spec.junction_list self.now junction }
        ensures dests { (a : Arrow) → spec.Has result.now a → spec.IsDest self.now a.to }
    {
        &self.junctions[junction as usize].list
    }

    /// The place of a junction's name.
    pub fn junction_name(&self, junction: u32) -> Span
        requires { junction < spec.junction_count self.now }
        ensures { result ≡ spec.junction_name self.now junction }
    {
        self.junctions[junction as usize].name
    }
}
