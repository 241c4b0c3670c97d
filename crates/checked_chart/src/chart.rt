//! A valid chart and its look-ups.
ghost use Rattle.std.specs.Prelude.{map};
ghost use Rattle.actions.specs.Names.{names_of};
ghost use Rattle.checked_chart.specs.Views.{chart_seen};
ghost use Rattle.checked_chart.specs.Valid.{IsValid};

use crate::homes;
use crate::parts::{BlockKind, ListKind, StateParts, Trans};
use actions::{Names, Stmt};
use active_config::{Comp, Shape};
use std::marker::Model;

/// A valid chart. No look-up takes memory.
#[derive(Drop)]
pub struct Chart {
    shape: Shape,
    names: Names,
    states: Vec<StateParts>,
    junctions: Vec<Vec<Trans>>,
}

impl Model for Chart {
    ghost use Rattle.std.specs.Prelude.{map};
    ghost use Rattle.std.specs.Coded.{codes};
    ghost use Rattle.actions.specs.contracts.expr.Expr as e;
    ghost use Rattle.checked_chart.specs.Kept.{Kept, chart_of};
    ghost use Rattle.checked_chart.specs.Valid.{IsValid};

    ghost Value = { Kept };

    ghost coded = { Prim.hlevel (codes, e.the_row.coded) };

    ghost view = { λ c. record {
      tree = c.shape;
      names = c.names;
      states = c.states.items;
      junctions = map (λ j. j.items) c.junctions.items;
    } };

    ghost invariant = { λ c. IsValid (chart_of (record {
      tree = c.shape;
      names = c.names;
      states = c.states.items;
      junctions = map (λ j. j.items) c.junctions.items;
    })) };
}

impl Chart {
    ghost use Rattle.std.specs.Prelude.{◌≡◌, ◌<◌, ◌≤◌, ◌^◌, length, IfSome};
    ghost use Rattle.flow_base.specs.declared.chart_limits.TheConstants.{STATEMENT_LIMIT};
    ghost use Rattle.active_config.specs.Tree as trees;
    ghost use Rattle.active_config.specs.Tree.{IsTree, state_count, comp_of, parent_of};
    ghost use Rattle.checked_chart.specs.Chart as spec;
    ghost use Rattle.checked_chart.specs.Homes as spec_homes;
    ghost use Rattle.checked_chart.specs.Kept.{chart_of};
    ghost use Rattle.checked_chart.specs.Valid.{IsNode, AreStmts, AreTrans};
    ghost use Rattle.checked_chart.specs.Views.{block_seen, list_seen, node_seen};

    /// The chart of a tree, what it declares, a part for each state in pre-order, and the lists of
    /// the junctions. The parts must be those of a valid chart. It takes no memory.
    #[tactic(auto, unfolding(crate::specs::Kept::chart_of))]
    pub fn make(
        shape: Shape,
        names: Names,
        states: Vec<StateParts>,
        junctions: Vec<Vec<Trans>>,
    ) -> Chart
        requires valid { IsValid (chart_seen shape (names_of names) states.items
            (map (λ j. j.items) junctions.items)) }
        ensures { chart_of result ≡ chart_seen shape (names_of names) states.items
            (map (λ j. j.items) junctions.items) }
    {
        Chart {
            shape,
            names,
            states,
            junctions,
        }
    }

    /// Its tree of states.
    #[tactic(auto, unfolding(crate::specs::Kept::chart_of))]
    pub fn shape(&self) -> &Shape
        ensures shape { result.now ≡ (chart_of self.now).tree }
        ensures valid { IsValid (chart_of self.now) }
    {
        &self.shape
    }

    /// What it declares.
    #[tactic(auto, unfolding(crate::specs::Kept::chart_of))]
    pub fn names(&self) -> &Names
        ensures names { names_of result.now ≡ (chart_of self.now).names }
        ensures valid { IsValid (chart_of self.now) }
    {
        &self.names
    }

    /// The root, which is state 0.
    pub fn root(&self) -> u32
        ensures root { result ≡ 0 }
        ensures within { result < state_count (chart_of self.now).tree }
        ensures valid { IsValid (chart_of self.now) }
    {
        // Only the proof reads the shape: the chart is valid.
        let _ = self.shape();
        0
    }

    /// How a state is composed.
    pub fn comp(&self, state: u32) -> Comp
        requires { state < state_count (chart_of self.now).tree }
        ensures { result ≡ comp_of (chart_of self.now).tree state }
    {
        self.shape().comp(state)
    }

    /// The parent of a state. The root alone has none.
    pub fn parent(&self, state: u32) -> Option<u32>
        requires { state < state_count (chart_of self.now).tree }
        ensures parent { result ≡ parent_of (chart_of self.now).tree state }
        ensures before { IfSome result (λ x. x < state) }
    {
        self.shape().parent(state)
    }

    /// The first child of a state. A leaf alone has none.
    pub fn first_child(&self, state: u32) -> Option<u32>
        requires { state < state_count (chart_of self.now).tree }
        ensures child { result ≡ trees.first_child (chart_of self.now).tree state }
        ensures after { IfSome result (λ x. (state < x) × (x < state_count (chart_of self.now).tree)) }
        ensures tree { IsTree (chart_of self.now).tree }
    {
        self.shape().first_child(state)
    }

    /// The last child of a state. A leaf alone has none.
    pub fn last_child(&self, state: u32) -> Option<u32>
        requires { state < state_count (chart_of self.now).tree }
        ensures child { result ≡ trees.last_child (chart_of self.now).tree state }
        ensures after { IfSome result (λ x. (state < x) × (x < state_count (chart_of self.now).tree)) }
        ensures tree { IsTree (chart_of self.now).tree }
    {
        self.shape().last_child(state)
    }

    /// The child of the same parent that comes next, if there is one.
    pub fn next_sibling(&self, state: u32) -> Option<u32>
        requires { state < state_count (chart_of self.now).tree }
        ensures sibling { result ≡ trees.next_sibling (chart_of self.now).tree state }
        ensures after { IfSome result (λ x. (state < x) × (x < state_count (chart_of self.now).tree)) }
        ensures tree { IsTree (chart_of self.now).tree }
    {
        self.shape().next_sibling(state)
    }

    /// The child of the same parent that comes just before, if there is one.
    pub fn prev_sibling(&self, state: u32) -> Option<u32>
        requires { state < state_count (chart_of self.now).tree }
        ensures sibling { result ≡ trees.prev_sibling (chart_of self.now).tree state }
        ensures before { IfSome result (λ x. x < state) }
        ensures tree { IsTree (chart_of self.now).tree }
    {
        self.shape().prev_sibling(state)
    }

    /// Where a child of an AND is entered on the way to `dest`: at `dest`, where that is the child
    /// or below it, else at the child itself.
    pub fn path_in(&self, child: u32, dest: u32) -> u32
        requires child { child < state_count (chart_of self.now).tree }
        requires dest { dest < state_count (chart_of self.now).tree }
        ensures path { result ≡ spec_homes.path_in (chart_of self.now).tree child dest }
        ensures within { result < state_count (chart_of self.now).tree }
    {
        homes::path_in(self.shape(), child, dest)
    }

    /// What a state does.
    #[tactic(auto, unfolding(crate::specs::Kept::chart_of, crate::specs::Chart::node))]
    fn parts(&self, state: u32) -> &StateParts
        requires { state < state_count (chart_of self.now).tree }
        ensures node { node_seen result.now ≡ spec.node (chart_of self.now) state }
        ensures valid { IsNode (chart_of self.now) (node_seen result.now) }
    {
        &self.states[state as usize]
    }

    /// An action of a state.
    pub fn block(&self, state: u32, kind: BlockKind) -> &[Stmt]
        requires { state < state_count (chart_of self.now).tree }
        ensures block { block_seen result.now ≡ spec.block_of (chart_of self.now) state kind }
        ensures stmts { AreStmts (chart_of self.now) (block_seen result.now) }
        ensures few { length result.now ≤ STATEMENT_LIMIT }
    {
        let parts = self.parts(state);
        match kind {
            BlockKind::Entry => parts.entry.items(),
            BlockKind::During => parts.during.items(),
            BlockKind::Exit => parts.exit.items(),
        }
    }

    /// A list of transitions of a state.
    pub fn list(&self, state: u32, kind: ListKind) -> &[Trans]
        requires { state < state_count (chart_of self.now).tree }
        ensures list { list_seen result.now ≡ spec.list_of (chart_of self.now) state kind }
        ensures valid { AreTrans (chart_of self.now) (list_seen result.now) }
    {
        let parts = self.parts(state);
        match kind {
            ListKind::Outer => parts.outer.items(),
            ListKind::Inner => parts.inner.items(),
            ListKind::Default => parts.default.items(),
        }
    }

    /// Whether a state is to remember the child that was active last. Only an OR is.
    pub fn history(&self, state: u32) -> bool
        requires { state < state_count (chart_of self.now).tree }
        ensures { result ≡ (spec.node (chart_of self.now) state).history }
    {
        self.parts(state).history
    }

    /// Whether a state has history: it is an OR that remembers.
    #[tactic(auto, unfolding(crate::specs::Chart::has_history))]
    pub fn has_history(&self, state: u32) -> bool
        requires { state < state_count (chart_of self.now).tree }
        ensures { result ≡ spec.has_history (chart_of self.now) state }
    {
        match self.comp(state) {
            Comp::Leaf | Comp::And => false,
            Comp::Or => self.history(state),
        }
    }

    /// Whether the parent of a state has history.
    #[tactic(auto, unfolding(crate::specs::Chart::is_remembered))]
    pub fn is_remembered(&self, state: u32) -> bool
        requires { state < state_count (chart_of self.now).tree }
        ensures { result ≡ spec.is_remembered (chart_of self.now) state }
    {
        match self.parent(state) {
            None => false,
            Some(parent) => self.has_history(parent),
        }
    }

    /// How many junctions there are: at most 4,096.
    #[tactic(auto, using(crate::proofs::PartsLemmas::junctions_few), unfolding(crate::specs::Kept::chart_of, crate::specs::Chart::junction_count))]
    pub fn junctions(&self) -> u32
        ensures { result ≡ spec.junction_count (chart_of self.now) }
    {
        self.junctions.len() as u32
    }

    /// The transitions of a junction.
    #[tactic(auto, unfolding(crate::specs::Kept::chart_of, crate::specs::Chart::junction, crate::specs::Chart::junction_count))]
    pub fn junction(&self, junction: u32) -> &[Trans]
        requires { junction < spec.junction_count (chart_of self.now) }
        ensures list { list_seen result.now ≡ spec.junction (chart_of self.now) junction }
        ensures valid { AreTrans (chart_of self.now) (list_seen result.now) }
        ensures short { length result.now < 2 ^ 64 }
        ensures tree { IsTree (chart_of self.now).tree }
    {
        &self.junctions[junction as usize]
    }

    /// The home of a firing from a list of a state to a destination: for an outer list the lowest
    /// state that is strictly above both, or the root where there is none; for the other lists the
    /// state itself.
    pub fn home(&self, state: u32, kind: ListKind, dest: u32) -> u32
        requires state { state < state_count (chart_of self.now).tree }
        requires dest { dest < state_count (chart_of self.now).tree }
        ensures home { result ≡ spec_homes.home_of (chart_of self.now).tree state kind dest }
        ensures within { result < state_count (chart_of self.now).tree }
    {
        match kind {
            ListKind::Outer => homes::outer_home(self.shape(), state, dest),
            ListKind::Inner | ListKind::Default => state,
        }
    }

    /// The child of a state that is `dest` or above it; none exactly where `dest` isn't below the
    /// state.
    pub fn child_toward(&self, state: u32, dest: u32) -> Option<u32>
        requires state { state < state_count (chart_of self.now).tree }
        requires dest { dest < state_count (chart_of self.now).tree }
        ensures child { result ≡ spec_homes.child_toward (chart_of self.now).tree state dest }
        ensures below { IfSome result (λ x. (state < x) × (x < state_count (chart_of self.now).tree)) }
    {
        homes::child_toward(self.shape(), state, dest)
    }
}
